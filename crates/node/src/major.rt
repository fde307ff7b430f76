// The heads of the CBOR items that a node has.
ghost use Rattle.std.specs.Prelude.{◌≡◌, ◌≤◌, []};
ghost use Rattle.node.specs.Format.{link};
ghost use Rattle.node.specs.Major.{major_base};

// A number from this one on stands in a byte of its own, behind the head's first byte.
pub const FIRST_LARGE: u8 = 24;

// In a head's first byte: the number stands in the next.
pub const IN_NEXT: u8 = 24;

// Null, which is one byte.
pub const NULL: u8 = 0xF6;

// What stands before the digest of a link under this code: tag 42, a byte string of 37 bytes, 00, version 1, DAG-CBOR, the code, and 32 bytes
// to come.
pub fn link_prefix(code: u8) -> [u8; 9]
    ensures { result ≡ link code [] }
{
    [0xD8, 0x2A, 0x58, 0x25, 0x00, 0x01, 0x71, code, 0x20]
}

// The major type of an item, as the high bits of its first byte have it.
#[derive(Debug, Clone, Copy, PartialEq, Eq, Hash)]
pub enum MajorType {
    Number = 0x00,
    Bytes = 0x40,
    Text = 0x60,
    Array = 0x80,
    Map = 0xA0,
}

impl MajorType {
    // The first byte of an item of this type whose argument is 0.
    pub fn base(self) -> u8
        ensures value { result ≡ major_base self }
        ensures bound { result ≤ 160 }
    {
        self as u8
    }
}
