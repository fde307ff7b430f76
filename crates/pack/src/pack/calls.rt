// The calls of the store.
ghost use Rattle.std.specs.Prelude.{◌≡◌};
ghost use Rattle.store.specs.Answer.{told};
ghost use Rattle.store.specs.Calls.{outcome, put_answer, put_after};
ghost use Rattle.pack.specs.Lawful.{pack_lawful};
ghost use Rattle.pack.specs.Memory.{pack_meaning};
ghost use Rattle.pack.specs.Pack.{sectors_in};
ghost use Rattle.pack.specs.Put.{Kept, put_sectors};

use super::Pack;
use crate::write::sectors_for;
use digest::Digest;
use store::{BLOCK_LIMIT, Block, Compared, Fault, Store, admit};

impl Store for Pack<'_> {
    ghost meaning = { λ s. pack_meaning s.memory.now };

    ghost lawful = { λ s. pack_lawful s.memory.now };

    fn find(&self, name: &Digest, out: &mut [u8]) -> Result<Option<usize>, Fault> {
        if out.len() < BLOCK_LIMIT {
            return Err(Fault::BufferTooShort);
        }
        match self.lookup(name) {
            None => Ok(None),
            Some(payloads) => Ok(Some(payloads.copy_to(out))),
        }
    }

    fn compare(&self, name: &Digest, block: &[u8]) -> Compared {
        match self.lookup(name).map(|payloads| payloads.is_block(block)) {
            None => Compared::Absent,
            Some(true) => Compared::Same,
            Some(false) => Compared::Other,
        }
    }

    // Of the sectors, a pair that is added changes those of its block, which are the first unused ones, and no others.
    fn put(&mut self, name: &Digest, block: &[u8]) -> Result<(), Fault>
        ensures answer { told result ≡ put_answer (pack_meaning self.old.memory.now) name.now.bytes block.now }
        ensures after { pack_meaning self.new.memory.now ≡ put_after (pack_meaning self.old.memory.now) name.now.bytes block.now }
        ensures sectors { sectors_in self.new.memory.now ≡ put_sectors self.old.memory.now name.now.bytes block.now }
        ensures kept { Kept (outcome (pack_meaning self.old.memory.now) name.now.bytes block.now) self.old.memory.now self.new.memory.now }
    {
        // One that is too long is looked up nowhere.
        Block::try_from(block)?;
        match admit(block, self.compare(name, block))? {
            Some(block) => self.add(name, block),
            None => Ok(()),
        }
    }

    fn free(&self) -> usize {
        self.free
    }

    fn cost(&self, len: usize) -> usize {
        sectors_for(len)
    }
}
