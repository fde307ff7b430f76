// A pair that is added.
ghost use Rattle.std.specs.Prelude.{◌≡◌, None};
ghost use Rattle.store.specs.Answer.{told};
ghost use Rattle.store.specs.Calls.{outcome, put_answer, put_after};
ghost use Rattle.pack.specs.Memory.{pack_meaning};
ghost use Rattle.pack.specs.Pack.{sectors_in};
ghost use Rattle.pack.specs.Put.{Kept, put_sectors};

use super::Pack;
use crate::write::{sectors_for, write_block};
use digest::Digest;
use store::{Block, Fault};

impl<'a> Pack<'a> {
    // Puts a block under a name that no block has.
    pub(super) fn add(&mut self, name: &Digest, block: Block) -> Result<(), Fault>
        requires { (pack_meaning self.old.memory.now).held name.now.bytes ≡ None }
        ensures answer { told result ≡ put_answer (pack_meaning self.old.memory.now) name.now.bytes block.entry.bytes.now }
        ensures after { pack_meaning self.new.memory.now ≡ put_after (pack_meaning self.old.memory.now) name.now.bytes block.entry.bytes.now }
        ensures sectors { sectors_in self.new.memory.now ≡ put_sectors self.old.memory.now name.now.bytes block.entry.bytes.now }
        ensures kept { Kept (outcome (pack_meaning self.old.memory.now) name.now.bytes block.entry.bytes.now) self.old.memory.now self.new.memory.now }
    {
        let cost = sectors_for(block.bytes.len());
        if cost > self.free {
            return Err(Fault::NoRoom);
        }
        write_block(self.memory, self.used, name, block);
        self.used += cost;
        self.free -= cost;
        Ok(())
    }
}
