// Each call once.
ghost use Rattle.std.specs.Prelude.{[], ◌∷◌, length};
ghost use Rattle.store.specs.Answer.{told};
ghost use Rattle.store.specs.Runs.{Run, finding, comparing, putting, asking_free, asking_cost};

use crate::compared::Compared;
use crate::fault::Fault;
use crate::store::Store;
use digest::Digest;

// What each call answered.
#[derive(Clone, Copy, Debug, PartialEq, Eq, Hash)]
pub struct Answers {
    pub found: Result<Option<usize>, Fault>,
    pub compared: Compared,
    pub put: Result<(), Fault>,
    pub free: usize,
    pub cost: usize,
}

// Looks a name up, compares a block with what is held, puts it, and asks for the free units and its cost, in this order. The calls are a run
// from the store before to the store after, so that what is proved of runs is proved of calls.
pub fn call_each<S: Store>(store: &mut S, name: &Digest, block: &[u8], out: &mut [u8]) -> Answers
    ensures { Run (asking_cost (length block.now) result.cost ∷ (asking_free result.free ∷ (putting name.now.bytes block.now (told result.put) ∷ (comparing name.now.bytes block.now result.compared ∷ (finding name.now.bytes out.old (told result.found) out.new ∷ []))))) (S.Store.meaning store.old) (S.Store.meaning store.new) }
{
    let found = store.find(name, out);
    let compared = store.compare(name, block);
    let put = store.put(name, block);
    let free = store.free();
    let cost = store.cost(block.len());
    Answers {
        found,
        compared,
        put,
        free,
        cost,
    }
}
