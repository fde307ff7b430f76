// A store in memory of the caller: one slot for each block, and every block costs one unit.
//
//   Slots         the store
//   MemoryFault   why memory has no room for it
#![tactic(auto)]

mod fault;
mod memory;
mod slot;
mod slots;

pub use fault::MemoryFault;
pub use slots::Slots;
