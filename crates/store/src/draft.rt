// A store in front of another: what is put goes to the front, and the back never changes.
ghost use Rattle.std.specs.Prelude.{◌≡◌};
ghost use Rattle.store.specs.Answer.{told};
ghost use Rattle.store.specs.Calls.{left_by, outcome, put_answer, put_after};
ghost use Rattle.store.specs.Drafts.{draft_of, draft_lawful};

use crate::admission::admit;
use crate::block::Block;
use crate::compared::Compared;
use crate::fault::Fault;
use crate::store::Store;
use digest::Digest;

// Not printed, compared or copied, as no store is.
#[derive(Drop)]
pub struct Draft<F, B> {
    pub front: F,
    pub back: B,
}

impl<F: Store, B: Store> Store for Draft<F, B> {
    ghost meaning = { λ d. draft_of (F.Store.meaning d.front) (B.Store.meaning d.back) };

    ghost lawful = { λ d. draft_lawful (F.Store.meaning d.front) (B.Store.meaning d.back) (F.Store.lawful d.front) (B.Store.lawful d.back) };

    fn find(&self, name: &Digest, out: &mut [u8]) -> Result<Option<usize>, Fault> {
        match self.front.find(name, out)? {
            None => self.back.find(name, out),
            found => Ok(found),
        }
    }

    fn compare(&self, name: &Digest, block: &[u8]) -> Compared {
        match self.front.compare(name, block) {
            Compared::Absent => self.back.compare(name, block),
            other => other,
        }
    }

    fn put(&mut self, name: &Digest, block: &[u8]) -> Result<(), Fault>
        ensures answer { told result ≡ put_answer (draft_of (F.Store.meaning self.old.front) (B.Store.meaning self.old.back)) name.now.bytes block.now }
        ensures after { draft_of (F.Store.meaning self.new.front) (B.Store.meaning self.new.back) ≡ put_after (draft_of (F.Store.meaning self.old.front) (B.Store.meaning self.old.back)) name.now.bytes block.now }
        ensures front { F.Store.meaning self.new.front ≡ left_by (outcome (draft_of (F.Store.meaning self.old.front) (B.Store.meaning self.old.back)) name.now.bytes block.now) (F.Store.meaning self.old.front) name.now.bytes block.now }
        ensures back { self.new.back ≡ self.old.back }
    {
        // One that is too long is looked up nowhere.
        Block::try_from(block)?;
        match admit(block, self.compare(name, block))? {
            Some(block) => self.front.put(name, block.bytes),
            None => Ok(()),
        }
    }

    fn free(&self) -> usize {
        self.front.free()
    }

    fn cost(&self, len: usize) -> usize {
        self.front.cost(len)
    }
}
