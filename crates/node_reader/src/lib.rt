// Nodes read from their bytes.
//
//   NodeReader        a block that is the encoding of a node
//   Entries           its entries, one after the other
//   EntryParts        an entry as it stands in the block; read_entry reads one
//   Item, read_item   the CBOR items of a block, one by one
#![tactic(auto)]

mod cursor;
mod entries;
mod entry;
mod input;
mod item;
mod reader;

pub use entries::Entries;
pub use entry::{EntryParts, read_entry};
pub use item::{Item, read_item};
pub use reader::NodeReader;
