// Damages the headers of a pack, and prints which sector the test of memory names; the gate compares the lines with `stdout`, which a
// model of its own computed.
//
//   sample   the pack to damage
//   damage   a change to a byte, and to the sum that is put right again or not
//   lines    what the test and the store answer
#![tactic(auto)]

mod damage;
mod lines;
mod sample;

use anyhow::Context;
use lines::{damage_lines, pack_lines, size_lines};
use sample::{SAMPLE_SIZE, fill};

fn main(rt: HostRuntime) -> anyhow::Result<()> {
    run(&rt)
}

fn run(rt: &HostRuntime) -> anyhow::Result<()> {
    size_lines(rt)?;
    let mut memory = vec![in rt.alloc(); 0u8; SAMPLE_SIZE]?;
    let memory = memory.as_mut_slice();
    fill(memory).context("the sample was not taken")?;
    pack_lines(rt, memory)?;
    damage_lines(rt, memory)
}
