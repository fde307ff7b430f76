// The store.
ghost use Rattle.std.specs.Prelude.{◌≡◌, ◌/◌, length};
ghost use Rattle.store.specs.Answer.{told};
ghost use Rattle.store.specs.Calls.{put_answer, put_after};
ghost use Rattle.store.specs.Meaning.{Unused};
ghost use Rattle.slots.specs.Lawful.{slots_lawful};
ghost use Rattle.slots.specs.Memory.{left_over, slots_meaning, without_pairs};
ghost use Rattle.slots.specs.Room.{memory_told, memory_answer};

use crate::fault::MemoryFault;
use crate::memory::{add_pair, count_unused, empty_all, lookup};
use crate::slot::SLOT_SIZE;
use digest::Digest;
use store::{BLOCK_LIMIT, Block, Compared, Fault, Store, admit};

// Memory that is cut into slots, one for each whole 10,788 bytes. It is not printed, compared or copied: its calls tell what it means.
#[derive(Drop)]
pub struct Slots<'a> {
    memory: &'a mut [u8],
}

impl<'a> Slots<'a> {
    // Whether memory has room for a slot.
    pub fn test_memory(memory: &[u8]) -> Result<(), MemoryFault>
        ensures { memory_told result ≡ memory_answer (length memory.now) }
    {
        if memory.len() < SLOT_SIZE {
            return Err(MemoryFault::NoSlot);
        }
        Ok(())
    }

    // The store over this memory, with every slot unused. What is left behind the last whole slot stays as it is.
    pub fn new(memory: &'a mut [u8]) -> Slots<'a>
        ensures after { slots_meaning result.memory.now ≡ without_pairs (length memory.old / 10788) }
        ensures unused { Unused (slots_meaning result.memory.now) }
        ensures rest { left_over result.memory.now ≡ left_over memory.old }
    {
        empty_all(memory);
        Slots { memory }
    }
}

impl Store for Slots<'_> {
    ghost meaning = { λ s. slots_meaning s.memory.now };

    ghost lawful = { λ s. slots_lawful s.memory.now };

    fn find(&self, name: &Digest, out: &mut [u8]) -> Result<Option<usize>, Fault> {
        if out.len() < BLOCK_LIMIT {
            return Err(Fault::BufferTooShort);
        }
        let Some(block) = lookup(self.memory, name) else {
            return Ok(None);
        };
        let len = block.bytes.len();
        out[..len].copy_from_slice(block.bytes);
        Ok(Some(len))
    }

    fn compare(&self, name: &Digest, block: &[u8]) -> Compared {
        match lookup(self.memory, name) {
            None => Compared::Absent,
            Some(held) if held.bytes == block => Compared::Same,
            Some(_) => Compared::Other,
        }
    }

    fn put(&mut self, name: &Digest, block: &[u8]) -> Result<(), Fault>
        ensures answer { told result ≡ put_answer (slots_meaning self.old.memory.now) name.now.bytes block.now }
        ensures after { slots_meaning self.new.memory.now ≡ put_after (slots_meaning self.old.memory.now) name.now.bytes block.now }
        ensures rest { left_over self.new.memory.now ≡ left_over self.old.memory.now }
    {
        // One that is too long is looked up nowhere.
        Block::try_from(block)?;
        match admit(block, self.compare(name, block))? {
            Some(block) => add_pair(self.memory, name, block),
            None => Ok(()),
        }
    }

    fn free(&self) -> usize {
        count_unused(self.memory)
    }

    fn cost(&self, _len: usize) -> usize {
        1
    }
}
