// The tree after a change of one key.
ghost use Rattle.digest.specs.Kind.{Kind};
ghost use Rattle.tree.specs.Laws.{InsertLaw, DeleteLaw};

// Rebuilding the path of a key from layer 0 upward gives the tree of the map with that key set, whether or not it was there.
pub fn insert_rebuilds_a_path()
    ensures { (κ : Kind) → InsertLaw κ }
{}

// Rebuilding it with the nodes on the two sides joined gives the tree of the map without that key, whether or not it was there.
pub fn delete_rebuilds_a_path()
    ensures { (κ : Kind) → DeleteLaw κ }
{}
