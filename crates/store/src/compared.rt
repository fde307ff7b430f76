// A name and a block beside what a store holds.
use std::fmt;

#[derive(Clone, Copy, Debug, PartialEq, Eq, Hash)]
pub enum Compared {
    // No block is held under the name.
    Absent,
    // The block is held under the name.
    Same,
    // Another block is held under the name.
    Other,
}

impl fmt::Display for Compared {
    ghost use Rattle.std.specs.Prelude.{Some};
    ghost use Rattle.store.specs.Text.{compared_text};

    ghost output = { λ c. Some (compared_text c) };

    fn fmt<W: fmt::Write>(&self, f: &mut fmt::Formatter<W>) -> fmt::Result {
        f.write_str(match self {
            Compared::Absent => "absent",
            Compared::Same => "same",
            Compared::Other => "other",
        })
    }
}
