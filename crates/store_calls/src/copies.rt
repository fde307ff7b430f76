// Blocks copied from one store to another.
use crate::buffer::{MARK, untouched};
use crate::call::name_of;
use crate::tables;
use store::{Store, copy_block};

// A line for each copy, each through a buffer of its own.
pub(crate) fn copy_lines<S: Store, T: Store>(
    rt: &HostRuntime,
    from: &S,
    to: &mut T,
) -> anyhow::Result<()> {
    println!(rt; "copies to one place")?;
    for (name, room) in tables::COPIES {
        let mut work = vec![in rt.alloc(); MARK; room]?;
        let answer = copy_block(from, to, &name_of(name), work.as_mut_slice());
        let kept = untouched(work.as_slice());
        let free = to.free();
        match answer {
            Ok(there) => println!(rt;
                "copy {name}: there {there}, buffer kept {kept}, {free} free"
            )?,
            Err(fault) => println!(rt; "copy {name}: {fault}, buffer kept {kept}, {free} free")?,
        }
    }
    Ok(())
}
