// A call, and the line that it prints.
ghost use Rattle.std.specs.Prelude.{◌≡◌, replicate, slice_set};

use crate::buffer::{MARK, untouched};
use digest::Digest;
use std::alloc::{AllocError, Global};
use store::{BLOCK_LIMIT, Store};

// A name is told by its last byte, and a block by its length and its first byte. Calls are values and no closures: the tables are read beside
// the model, and each says its call in full.
#[derive(Debug, Clone, Copy)]
pub(crate) enum Call {
    // The free units, and what the shortest and the longest block cost.
    Units,
    Put {
        name: u8,
        len: usize,
        byte: u8,
    },
    // Into a buffer of `room` bytes; the block is what should be found.
    Find {
        name: u8,
        len: usize,
        byte: u8,
        room: usize,
    },
    Compare {
        name: u8,
        len: usize,
        byte: u8,
    },
}

// 31 times 00, and the byte: names differ in the last place only.
pub(crate) fn name_of(byte: u8) -> Digest
    ensures { result.bytes ≡ slice_set (replicate 32 0) 31 byte }
{
    let mut bytes = [0; 32];
    bytes[31] = byte;
    Digest { bytes }
}

// `len` bytes that rise from the first on, and start again.
fn block_of(heap: Global, len: usize, first: u8) -> Result<Vec<u8>, AllocError> {
    (0..len)
        .map(|i| first.wrapping_add((i % 256) as u8))
        .collect(heap)
}

// Makes the call, and prints its line.
pub(crate) fn carry_out<S: Store>(
    rt: &HostRuntime,
    store: &mut S,
    call: Call,
) -> anyhow::Result<()> {
    match call {
        Call::Units => units(rt, store),
        Call::Put { name, len, byte } => {
            let block = block_of(rt.alloc(), len, byte)?;
            put(rt, store, name, block.as_slice())
        }
        Call::Find {
            name,
            len,
            byte,
            room,
        } => {
            let block = block_of(rt.alloc(), len, byte)?;
            find(rt, store, name, block.as_slice(), room)
        }
        Call::Compare { name, len, byte } => {
            let block = block_of(rt.alloc(), len, byte)?;
            compare(rt, store, name, block.as_slice())
        }
    }
}

fn units<S: Store>(rt: &HostRuntime, store: &S) -> anyhow::Result<()> {
    let free = store.free();
    let least = store.cost(0);
    let most = store.cost(BLOCK_LIMIT);
    println!(rt; "free {free}, cost {least} to {most}")?;
    Ok(())
}

// With the units that are free afterwards.
fn put<S: Store>(rt: &HostRuntime, store: &mut S, name: u8, block: &[u8]) -> anyhow::Result<()> {
    let len = block.len();
    let answer = store.put(&name_of(name), block);
    let free = store.free();
    match answer {
        Ok(()) => println!(rt; "put {name} of {len}: ok, {free} free")?,
        Err(fault) => println!(rt; "put {name} of {len}: {fault}, {free} free")?,
    }
    Ok(())
}

fn find<S: Store>(
    rt: &HostRuntime,
    store: &S,
    name: u8,
    block: &[u8],
    room: usize,
) -> anyhow::Result<()> {
    let mut buffer = vec![in rt.alloc(); MARK; room]?;
    let out = buffer.as_mut_slice();
    match store.find(&name_of(name), out) {
        Ok(Some(len)) => {
            let found = if &out[..len] == block {
                "as put"
            } else {
                "another"
            };
            let rest = kept_word(&out[len..]);
            println!(rt; "find {name}: {len} bytes, {found}, rest {rest}")?
        }
        Ok(None) => {
            let rest = kept_word(out);
            println!(rt; "find {name}: absent, buffer {rest}")?
        }
        Err(fault) => {
            let rest = kept_word(out);
            println!(rt; "find {name} into {room}: {fault}, buffer {rest}")?
        }
    }
    Ok(())
}

// What became of bytes that a call is to leave alone.
fn kept_word(bytes: &[u8]) -> &'static str {
    if untouched(bytes) { "kept" } else { "changed" }
}

fn compare<S: Store>(rt: &HostRuntime, store: &S, name: u8, block: &[u8]) -> anyhow::Result<()> {
    let len = block.len();
    let compared = store.compare(&name_of(name), block);
    println!(rt; "compare {name} with {len}: {compared}")?;
    Ok(())
}
