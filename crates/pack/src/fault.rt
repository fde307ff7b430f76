// Why memory is no good pack.
use std::error::Error;
use std::fmt;

#[derive(Clone, Copy, Debug, PartialEq, Eq, Hash)]
pub enum MemoryFault {
    // The memory is empty, or no whole number of sectors.
    NoSectors,
    // No good pack of that length has the same sectors up to this one, and one has the same up to each sector before it.
    BadSector { sector: usize },
}

impl MemoryFault {
    ghost use Rattle.std.specs.Prelude.{◌≡◌};
    ghost use Rattle.pack.specs.Test.{fault_told, verdict_number};

    // The number that the outside sees. By cases: a variant that carries a value has no discriminant.
    pub fn number(self) -> u8
        ensures { result ≡ verdict_number (fault_told self) }
    {
        match self {
            MemoryFault::NoSectors => 14,
            MemoryFault::BadSector { .. } => 15,
        }
    }
}

impl fmt::Display for MemoryFault {
    ghost use Rattle.std.specs.Prelude.{Some};
    ghost use Rattle.pack.specs.Text.{memory_fault_text};

    ghost output = { λ fault. Some (memory_fault_text fault) };

    fn fmt<W: fmt::Write>(&self, f: &mut fmt::Formatter<W>) -> fmt::Result {
        write!(f, "refused {}", self.number())?;
        match self {
            MemoryFault::NoSectors => Ok(()),
            MemoryFault::BadSector { sector } => write!(f, " at {sector}"),
        }
    }
}

impl Error for MemoryFault {}
