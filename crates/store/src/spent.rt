// What the calls on a store have cost.
ghost use Rattle.std.specs.Prelude.{◌≡◌, ◌-◌};
ghost use Rattle.store.specs.Runs.{AllSpent};

use crate::store::Store;

// The units spent since `before` were free. Whatever calls were made since then, they kept every pair, and what they spent is the cost of
// the pairs that they added.
pub fn spent_since<S: Store>(store: &S, before: usize) -> usize
    ensures value { result ≡ before - (S.Store.meaning store.now).free }
    ensures spent { AllSpent (S.Store.meaning store.now) }
{
    before.saturating_sub(store.free())
}
