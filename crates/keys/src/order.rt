// The order of keys.
ghost use Rattle.std.specs.Prelude.{◌≡◌, true};
ghost use Rattle.std.specs.Ordering.{MatchOrdering};
ghost use Rattle.keys.specs.Order.{before, StrictTotal};

use std::cmp::Ordering;

// Which of two byte strings comes first. Bytes are compared one by one; a string that begins another comes first.
pub fn compare(a: &[u8], b: &[u8]) -> Ordering
    ensures value { MatchOrdering result (before a.now b.now ≡ true) (a.now ≡ b.now) (before b.now a.now ≡ true) }
    ensures strict { StrictTotal before }
{
    a.cmp(b)
}
