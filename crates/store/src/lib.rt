// Block stores, known by what they mean.
//
//   Store        what every store answers: find, compare, put, free, cost
//   Compared     whether a name is held, and whether for the block in hand
//   Fault        why a call is refused
//   Block        bytes that keep the limit of blocks
//   admit        what comes of a block that is put, before its cost is looked at
//   Draft        a store in front of another, which it leaves as it is
//   copy_block   a block from one store to another
//   call_each    each call once
//   spent_since  what the calls on a store have cost
//   BLOCK_LIMIT  the most bytes that a block has
#![tactic(auto)]

mod admission;
mod block;
mod compared;
mod copy;
mod draft;
mod each;
mod fault;
mod spent;
mod store;

pub use admission::admit;
pub use block::Block;
pub use compared::Compared;
pub use copy::copy_block;
pub use digest::BLOCK_LIMIT;
pub use draft::Draft;
pub use each::{Answers, call_each};
pub use fault::Fault;
pub use spent::spent_since;
pub use store::Store;
