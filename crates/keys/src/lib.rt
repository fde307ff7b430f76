// Byte strings in order, and the keys of the tree.
//
//   Key          1 to 64 bytes, by value
//   compare      which of two byte strings comes first
//   shared_len   how many bytes two byte strings share at the front
#![tactic(auto)]

mod key;
mod order;
mod prefix;

pub use key::Key;
pub use order::compare;
pub use prefix::shared_len;
