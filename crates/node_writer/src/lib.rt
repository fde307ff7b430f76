// Writing a node's bytes, entry by entry, into a buffer of the caller.
//
//   NodeWriter   begins a node of some number of entries, takes them one after the other, and last the first link
//   write_node   a whole node at once
#![tactic(auto)]

mod entry;
mod output;
mod whole;
mod writer;

pub use whole::write_node;
pub use writer::NodeWriter;
