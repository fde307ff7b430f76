// The tree of a map: definitions, and what is proved of them. There is no code to run here; each function carries one theorem, so that
// the crate is proved only if the theorem is.
//
//   maps_keep_what_they_are_told      the laws of insert, delete and lookup
//   nodes_hold_the_keys_of_a_layer    what a node of the tree holds
//   nodes_split_and_join              how nodes of parts of a map and of the whole come from each other
//   paths_say_what_the_map_does       what the path of a key tells
//   insert_rebuilds_a_path            the tree after an insert
//   delete_rebuilds_a_path            the tree after a delete
//   equal_roots_mean_equal_maps       what a root tells of the map
//   blocks_fit_a_store                what the blocks of a tree are
#![tactic(auto)]

mod change;
mod map;
mod root;
mod shape;

pub use change::{delete_rebuilds_a_path, insert_rebuilds_a_path};
pub use map::maps_keep_what_they_are_told;
pub use root::{blocks_fit_a_store, equal_roots_mean_equal_maps};
pub use shape::{
    nodes_hold_the_keys_of_a_layer, nodes_split_and_join, paths_say_what_the_map_does,
};
