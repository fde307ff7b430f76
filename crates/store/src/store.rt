// What every store answers. Code above this crate is written against this trait alone.
ghost use Rattle.std.specs.Prelude.{◌≡◌, length};
ghost use Rattle.store.specs.Answer.{Within, told};
ghost use Rattle.store.specs.Calls.{compared, find_answer, find_buffer, put_answer, put_after};
ghost use Rattle.store.specs.Meaning.{Meaning, Lawful};

use crate::compared::Compared;
use crate::fault::Fault;
use digest::Digest;

// A name and a block are arguments of their own: callers have them apart, and a struct of both would be made for one call.
pub trait Store {
    // What the store means: the block under each name, the free units, and what a block of each length costs.
    ghost meaning: { Self → Meaning };

    // Copies the block of this name to the start of `out`, and answers its length; none where the name is absent. Past the block, and
    // where none is copied, `out` stays as it is. The buffer is the caller's, since no store takes memory.
    fn find(&self, name: &Digest, out: &mut [u8]) -> Result<Option<usize>, Fault>
        ensures answer { told result ≡ find_answer (meaning self.now) name.now.bytes (length out.old) }
        ensures buffer { out.new ≡ find_buffer (meaning self.now) name.now.bytes out.old }
        ensures bound { Within result (length out.old) };

    // Whether a block is held under this name, and whether it is this one.
    fn compare(&self, name: &Digest, block: &[u8]) -> Compared
        ensures { result ≡ compared ((meaning self.now).held name.now.bytes) block.now };

    // Adds the pair of this name and this block, unless it is held already.
    fn put(&mut self, name: &Digest, block: &[u8]) -> Result<(), Fault>
        ensures answer { told result ≡ put_answer (meaning self.old) name.now.bytes block.now }
        ensures after { meaning self.new ≡ put_after (meaning self.old) name.now.bytes block.now };

    // The units that are free.
    fn free(&self) -> usize
        ensures { result ≡ (meaning self.now).free };

    // The units that a block of `len` bytes costs.
    fn cost(&self, len: usize) -> usize
        ensures { result ≡ (meaning self.now).cost len };

    // Names are 32 bytes, blocks keep the limit, and nothing is free of cost.
    ghost lawful: { (s : Self) → Lawful (meaning s) };
}
