// Why a store refuses a call.
use std::error::Error;
use std::fmt;

// To the outside a fault is its number.
#[derive(Clone, Copy, Debug, PartialEq, Eq, Hash)]
pub enum Fault {
    // The block that is put has more bytes than a block may have.
    BlockTooLong = 2,
    // The buffer has no room for every block.
    BufferTooShort = 3,
    // The store holds another block under that name.
    Conflict = 10,
    // The block costs more units than are free.
    NoRoom = 11,
}

impl Fault {
    ghost use Rattle.std.specs.Prelude.{◌≡◌};
    ghost use Rattle.store.specs.Answer.{number as number_of};

    // The number that the outside sees.
    pub fn number(self) -> u8
        ensures { result ≡ number_of self }
    {
        self as u8
    }
}

impl fmt::Display for Fault {
    ghost use Rattle.std.specs.Prelude.{Some};
    ghost use Rattle.store.specs.Text.{fault_text};

    ghost output = { λ fault. Some (fault_text fault) };

    fn fmt<W: fmt::Write>(&self, f: &mut fmt::Formatter<W>) -> fmt::Result {
        write!(f, "refused {}", self.number())
    }
}

impl Error for Fault {}
