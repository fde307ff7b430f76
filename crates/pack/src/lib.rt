// A store in sectors of 512 bytes, which outlive the program and may come back damaged.
//
//   Pack          the store
//   MemoryFault   why memory is no good pack
#![tactic(auto)]

mod fault;
mod pack;
mod part;
mod read;
mod scan;
mod sector;
mod test;
mod write;

pub use fault::MemoryFault;
pub use pack::Pack;
