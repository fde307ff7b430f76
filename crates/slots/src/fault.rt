// Why memory is no good for slots.
use std::error::Error;
use std::fmt;

// To the outside a fault is its number.
#[derive(Clone, Copy, Debug, PartialEq, Eq, Hash)]
pub enum MemoryFault {
    // The memory is shorter than one slot.
    NoSlot = 14,
}

impl MemoryFault {
    ghost use Rattle.std.specs.Prelude.{◌≡◌};
    ghost use Rattle.slots.specs.Room.{memory_number};

    // The number that the outside sees.
    pub fn number(self) -> u8
        ensures { result ≡ memory_number self }
    {
        self as u8
    }
}

impl fmt::Display for MemoryFault {
    ghost use Rattle.std.specs.Prelude.{Some};
    ghost use Rattle.slots.specs.Room.{memory_text};

    ghost output = { λ fault. Some (memory_text fault) };

    fn fmt<W: fmt::Write>(&self, f: &mut fmt::Formatter<W>) -> fmt::Result {
        write!(f, "refused {}", self.number())
    }
}

impl Error for MemoryFault {}
