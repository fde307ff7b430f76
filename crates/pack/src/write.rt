// Blocks as they are written.
ghost use Rattle.std.specs.Prelude.{◌≡◌, ◌+◌, ◌/◌, ◌<◌, ◌≤◌, ◌++◌, length, take, drop, slice_set};
ghost use Rattle.pack.specs.Pack.{block_sectors, sector_cost, sectors_in};

use crate::part::{Part, PartKind};
use crate::sector::{PART_SIZE, SECTOR_SIZE, Sector};
use digest::Digest;
use store::Block;

// How many sectors a block of so many bytes takes.
pub(crate) fn sectors_for(len: usize) -> usize
    ensures { result ≡ sector_cost len }
{
    len.div_ceil(PART_SIZE).max(1)
}

// Writes one sector of memory.
fn write_sector(memory: &mut [u8], place: usize, sector: &Sector)
    requires { place < length memory.old / 512 }
    ensures { sectors_in memory.new ≡ slice_set (sectors_in memory.old) place sector.now }
{
    let at = place * SECTOR_SIZE;
    memory[at..at + SECTOR_SIZE].copy_from_slice(sector);
}

// Writes a block to the sectors from a place on, and no others. The size of the name is said again for `Pack::add`.
pub(crate) fn write_block(memory: &mut [u8], place: usize, name: &Digest, block: Block)
    requires { place + sector_cost (length block.bytes.now) ≤ length memory.old / 512 }
    ensures after { sectors_in memory.new ≡ take place (sectors_in memory.old) ++ (block_sectors name.now.bytes block.entry.bytes.now ++ drop (place + sector_cost (length block.entry.bytes.now)) (sectors_in memory.old)) }
    ensures name_size { length name.now.bytes ≡ 32 }
{
    let full = sectors_for(block.bytes.len()) - 1;
    let (front, rest) = block.bytes.split_at(full * PART_SIZE);
    let (payloads, _) = front.as_chunks::<PART_SIZE>();
    for (number, payload) in payloads.iter().enumerate() {
        let part = Part {
            kind: PartKind::MoreFollows,
            number: number as u16,
            name: *name,
            payload,
        };
        write_sector(memory, place + number, &part.to_sector());
    }
    let last = Part {
        kind: PartKind::Last,
        number: full as u16,
        name: *name,
        payload: rest,
    };
    write_sector(memory, place + full, &last.to_sector());
}
