// The bytes of nodes: definitions and their laws.
//
//   Entry         an entry of a node by value
//   MajorType     the kinds of CBOR items in a node, with what their heads have
//   link_prefix   what a link has before its digest
//   block_limit   the most bytes of a block
#![tactic(auto)]

ghost use Rattle.std.specs.Prelude.{◌≡◌, ℕ};
ghost use Rattle.node.specs.Laws.{Encodings, Fits, OfBytes};

mod entry;
mod major;

pub use digest::BLOCK_LIMIT;
pub use entry::Entry;
pub use major::{FIRST_LARGE, IN_NEXT, MajorType, NULL, link_prefix};

// The most keys of a node.
pub const KEY_LIMIT: usize = 64;

// The most bytes of a block. Every node fits, and a node and its bytes determine each other.
pub fn block_limit() -> usize
    ensures value { result ≡ 10752 }
    ensures fits { Fits result }
    ensures of_bytes { OfBytes }
    ensures encodings { (c : ℕ) → Encodings c }
{
    BLOCK_LIMIT
}
