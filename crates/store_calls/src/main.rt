// Carries out tables of calls on slots and on a draft over them, and prints what they answer; the gate compares the lines with `stdout`,
// which a model of its own computed.
//
//   call      a call, and the line that it prints
//   buffer    buffers that show what was written into them
//   tables    the calls
//   copies    blocks copied from one store to another
#![tactic(auto)]

mod buffer;
mod call;
mod copies;
mod tables;

use call::{Call, carry_out};
use copies::copy_lines;
use slots::Slots;
use store::{Draft, Store, spent_since};

fn main(rt: HostRuntime) -> anyhow::Result<()> {
    run(&rt)
}

fn run(rt: &HostRuntime) -> anyhow::Result<()> {
    let mut three = vec![in rt.alloc(); 0u8; 32364]?;
    let mut two = vec![in rt.alloc(); 0u8; 21576]?;
    let mut one = vec![in rt.alloc(); 0u8; 10788]?;
    sizes(rt)?;
    let mut back = Slots::new(three.as_mut_slice());
    places(rt, &mut back)?;
    let front = Slots::new(two.as_mut_slice());
    let mut draft = Draft { front, back };
    drafts(rt, &mut draft)?;
    copy_lines(rt, &draft, &mut Slots::new(one.as_mut_slice()))?;
    parts(rt, &mut draft)
}

// Three places.
fn places(rt: &HostRuntime, slots: &mut Slots) -> anyhow::Result<()> {
    lines(rt, "three places", slots, &tables::THREE_PLACES)?;
    lines(rt, "full", slots, &tables::FULL)
}

// A draft of two places over the three.
fn drafts<S: Store>(rt: &HostRuntime, draft: &mut S) -> anyhow::Result<()> {
    lines(rt, "draft of two places", draft, &tables::HELD_BEHIND)?;
    lines(rt, "new names", draft, &tables::NEW_NAMES)?;
    let spent = spent_since(draft, 2);
    println!(rt; "spent {spent}")?;
    Ok(())
}

// What the parts of a draft hold in the end.
fn parts<F: Store, B: Store>(rt: &HostRuntime, draft: &mut Draft<F, B>) -> anyhow::Result<()> {
    lines(rt, "front", &mut draft.front, &tables::PART)?;
    lines(rt, "back", &mut draft.back, &tables::PART)
}

// Slots over memory of many sizes.
fn sizes(rt: &HostRuntime) -> anyhow::Result<()> {
    for size in tables::SIZES {
        let mut memory = vec![in rt.alloc(); 0u8; size]?;
        match Slots::test_memory(memory.as_slice()) {
            Ok(()) => println!(rt; "memory of {size}: ok")?,
            Err(fault) => println!(rt; "memory of {size}: {fault}")?,
        }
        let mut slots = Slots::new(memory.as_mut_slice());
        lines(rt, "its slots", &mut slots, &tables::ANY_SIZE)?;
    }
    Ok(())
}

// The lines of a table.
fn lines<S: Store>(
    rt: &HostRuntime,
    title: &str,
    store: &mut S,
    calls: &[Call],
) -> anyhow::Result<()> {
    println!(rt; "{title}")?;
    for call in calls {
        carry_out(rt, store, *call)?;
    }
    Ok(())
}
