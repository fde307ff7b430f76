// Memory that is cut into slots. What is left behind the last whole slot stays as it is.
ghost use Rattle.std.specs.Prelude.{◌≡◌, ◌/◌, ◌<◌, false, [], length, Some, None, MatchOption, slice_index_or, slice_set};
ghost use Rattle.store.specs.Answer.{told};
ghost use Rattle.store.specs.Calls.{put_answer, put_after};
ghost use Rattle.slots.specs.Memory.{slots_in, left_over, held_in, unused, slots_meaning, without_pairs};
ghost use Rattle.slots.specs.Slot.{is_used, filled};

use crate::slot::{SLOT_SIZE, block_in, empty, fill, has_name, in_use};
use digest::Digest;
use store::{Block, Fault};

// The block under a name, where it stands.
pub(crate) fn lookup<'a>(memory: &'a [u8], name: &Digest) -> Option<Block<'a>>
    ensures { MatchOption result (held_in (slots_in memory.now) name.now.bytes ≡ None) (λ block. held_in (slots_in memory.now) name.now.bytes ≡ Some block.bytes.now) }
{
    let (slots, _) = memory.as_chunks::<SLOT_SIZE>();
    block_in(slots.iter().find(|slot| has_name(slot, name))?)
}

// How many slots are unused. A sum, since a filter with a count takes more instructions for each slot.
pub(crate) fn count_unused(memory: &[u8]) -> usize
    ensures { result ≡ unused (slots_in memory.now) }
{
    let (slots, _) = memory.as_chunks::<SLOT_SIZE>();
    slots.iter().map(|slot| usize::from(!in_use(slot))).sum()
}

// The place of an unused slot. It is the first, but nothing above rests on that.
fn find_unused(memory: &[u8]) -> Option<usize>
    ensures { MatchOption result (unused (slots_in memory.now) ≡ 0) (λ i. (i < length memory.now / 10788) × (is_used (slice_index_or (slots_in memory.now) i []) ≡ false)) }
{
    let (slots, _) = memory.as_chunks::<SLOT_SIZE>();
    slots.iter().position(|slot| !in_use(slot))
}

// Writes a pair into the slot at a place. The size of the name is said again for `add_pair`.
fn fill_place(memory: &mut [u8], place: usize, name: &Digest, block: Block)
    requires { place < length memory.old / 10788 }
    ensures after { slots_in memory.new ≡ slice_set (slots_in memory.old) place (filled name.now.bytes block.entry.bytes.now (slice_index_or (slots_in memory.old) place [])) }
    ensures rest { left_over memory.new ≡ left_over memory.old }
    ensures name_size { length name.now.bytes ≡ 32 }
{
    let at = place * SLOT_SIZE;
    fill(&mut memory[at..at + SLOT_SIZE], name, block);
}

// Puts a block under a name that no slot holds.
pub(crate) fn add_pair(memory: &mut [u8], name: &Digest, block: Block) -> Result<(), Fault>
    requires { held_in (slots_in memory.old) name.now.bytes ≡ None }
    ensures answer { told result ≡ put_answer (slots_meaning memory.old) name.now.bytes block.entry.bytes.now }
    ensures after { slots_meaning memory.new ≡ put_after (slots_meaning memory.old) name.now.bytes block.entry.bytes.now }
    ensures rest { left_over memory.new ≡ left_over memory.old }
{
    let place = find_unused(memory).ok_or(Fault::NoRoom)?;
    fill_place(memory, place, name, block);
    Ok(())
}

// Marks every slot as unused. By place: of slots that `as_chunks_mut` or `chunks_exact_mut` lends to be changed nothing is known afterwards.
pub(crate) fn empty_all(memory: &mut [u8])
    ensures after { slots_meaning memory.new ≡ without_pairs (length memory.old / 10788) }
    ensures rest { left_over memory.new ≡ left_over memory.old }
{
    let count = memory.len() / SLOT_SIZE;
    for place in 0..count {
        let at = place * SLOT_SIZE;
        empty(&mut memory[at..at + SLOT_SIZE]);
    }
}
