// Digests, the kinds of function that make them, and the layer of a key.
//
//   Digest       32 bytes, with their layer, and as text
//   DigestKind   what every kind of digest answers: the digest of a byte string, and its code byte in links
//   Fold         the kind for tests
//   layer_of     the layer of a key under a kind
//   BLOCK_LIMIT  the most bytes of what a digest names
#![tactic(auto)]

mod block;
mod digest;
mod fold;
mod kind;
mod text;

pub use block::BLOCK_LIMIT;
pub use digest::Digest;
pub use fold::Fold;
pub use kind::{DigestKind, layer_of};
