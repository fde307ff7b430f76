// One slot: a name of 32 bytes, a length of 4, and room for a block.
ghost use Rattle.std.specs.Prelude.{◌≡◌, true, false, length, MatchOption};
ghost use Rattle.slots.specs.Memory.{holds};
ghost use Rattle.slots.specs.Slot.{slot_length, slot_block, is_used, filled, emptied};

use digest::Digest;
use store::{BLOCK_LIMIT, Block};

pub(crate) const SLOT_SIZE: usize = 10788;

// Where the length stands, and where the block begins.
const LENGTH_AT: usize = 32;

const BLOCK_AT: usize = 36;

// In the place of the length's high byte: the slot is unused.
const UNUSED: u8 = 0xFF;

// The number that stands in the place of the length.
fn length_in(slot: &[u8; SLOT_SIZE]) -> usize
    ensures { result ≡ slot_length slot.now }
{
    u32::from_be_bytes([
        slot[LENGTH_AT],
        slot[LENGTH_AT + 1],
        slot[LENGTH_AT + 2],
        slot[LENGTH_AT + 3],
    ]) as usize
}

// Whether the slot holds a pair: the number is the length of a block.
pub(crate) fn in_use(slot: &[u8; SLOT_SIZE]) -> bool
    ensures { result ≡ is_used slot.now }
{
    length_in(slot) <= BLOCK_LIMIT
}

// Whether the slot is used under this name.
pub(crate) fn has_name(slot: &[u8; SLOT_SIZE], name: &Digest) -> bool
    ensures { result ≡ holds slot.now name.now.bytes }
{
    in_use(slot) && slot[..LENGTH_AT] == name.bytes[..]
}

// The block of a used slot. What stands behind its length is room for the longest.
pub(crate) fn block_in(slot: &[u8; SLOT_SIZE]) -> Option<Block<'_>>
    ensures { MatchOption result (is_used slot.now ≡ false) (λ block. (is_used slot.now ≡ true) × (block.bytes.now ≡ slot_block slot.now)) }
{
    let bytes = slot[BLOCK_AT..].get(..length_in(slot))?;
    Some(Block { bytes })
}

// Writes a name and a block into a slot. That a digest has 32 bytes is said for callers that do not look into it.
pub(crate) fn fill(slot: &mut [u8], name: &Digest, block: Block)
    requires { length slot.old ≡ 10788 }
    ensures after { slot.new ≡ filled name.now.bytes block.entry.bytes.now slot.old }
    ensures name_size { length name.now.bytes ≡ 32 }
{
    let block = block.bytes;
    let end = BLOCK_AT + block.len();
    slot[0..LENGTH_AT].copy_from_slice(&name.bytes);
    slot[LENGTH_AT..BLOCK_AT].copy_from_slice(&(block.len() as u32).to_be_bytes());
    slot[BLOCK_AT..end].copy_from_slice(block);
}

// Marks a slot as unused.
pub(crate) fn empty(slot: &mut [u8])
    requires { length slot.old ≡ 10788 }
    ensures { slot.new ≡ emptied slot.old }
{
    slot[LENGTH_AT] = UNUSED;
}
