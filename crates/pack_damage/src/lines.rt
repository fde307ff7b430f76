// The lines that are printed.
use crate::damage::{Damage, Sum};
use crate::sample::{NAMES, SECTORS, name_of};
use pack::{MemoryFault, Pack};
use std::fmt;
use store::{BLOCK_LIMIT, Store};

// Memory of zeros, of many sizes.
pub(crate) fn size_lines(rt: &HostRuntime) -> anyhow::Result<()> {
    for size in [0, 1, 511, 512, 513, 1023, 1024] {
        let mut memory = vec![in rt.alloc(); 0u8; size]?;
        println!(rt; "memory of {size}")?;
        pack_lines(rt, memory.as_mut_slice())?;
    }
    Ok(())
}

// What the test says, and what the store over the memory holds.
pub(crate) fn pack_lines(rt: &HostRuntime, memory: &mut [u8]) -> anyhow::Result<()> {
    match Pack::test_memory(memory) {
        Ok(()) => println!(rt; "test: ok")?,
        Err(fault) => println!(rt; "test: {fault}")?,
    }
    let mut pack = Pack::new(memory);
    println!(rt; "free {}", pack.free())?;
    let mut out = vec![in rt.alloc(); 0u8; BLOCK_LIMIT]?;
    for name in NAMES {
        match pack.find(&name_of(name), out.as_mut_slice()) {
            Ok(Some(len)) => println!(rt; "find {name}: {len}")?,
            Ok(None) => println!(rt; "find {name}: absent")?,
            Err(fault) => println!(rt; "find {name}: {fault}")?,
        }
    }
    for len in [0, 1, 468, 469, 936, 937, 10296, 10752] {
        println!(rt; "cost of {len}: {}", pack.cost(len))?;
    }
    match pack.put(&name_of(0x44), &[0xCC; 1405]) {
        Ok(()) => println!(rt; "put of 1405: ok")?,
        Err(fault) => println!(rt; "put of 1405: {fault}")?,
    }
    Ok(())
}

// The masks of the bits that are changed.
const MASKS: [u8; 4] = [0x01, 0x02, 0x03, 0xFF];

// The sectors that are named for a change by each mask; the number of sectors stands for none.
#[derive(Clone, Copy, Debug)]
struct Named([Option<usize>; 4]);

impl fmt::Display for Named {
    fn fmt<W: fmt::Write>(&self, f: &mut fmt::Formatter<W>) -> fmt::Result {
        let [a, b, c, d] = self.0.map(|sector| sector.unwrap_or(SECTORS));
        write!(f, "{a} {b} {c} {d}")
    }
}

// Every header byte of every sector, changed by four masks, with the sum as it was and with the sum put right again.
pub(crate) fn damage_lines(rt: &HostRuntime, memory: &mut [u8]) -> anyhow::Result<()> {
    println!(rt; "sectors named, 6 for none: sum as it was, sum put right")?;
    for sector in 0..SECTORS {
        for byte in 0..40 {
            let [as_it_was, put_right] = [Sum::AsItWas, Sum::PutRight].map(|sum| {
                Named(MASKS.map(|mask| named_after(
                    memory,
                    Damage {
                        sector,
                        byte,
                        mask,
                        sum,
                    },
                )))
            });
            println!(rt; "sector {sector}, byte {byte}: {as_it_was}, {put_right}")?;
        }
    }
    Ok(())
}

// The sector that is named after one change, which is undone again.
fn named_after(memory: &mut [u8], damage: Damage) -> Option<usize> {
    damage.toggle(memory);
    let verdict = Pack::test_memory(memory);
    damage.toggle(memory);
    match verdict {
        Err(MemoryFault::BadSector { sector }) => Some(sector),
        _ => None,
    }
}
