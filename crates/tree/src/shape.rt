// The nodes of a tree, and the paths through it.
ghost use Rattle.std.specs.Prelude.{ℕ};
ghost use Rattle.digest.specs.Kind.{Kind};
ghost use Rattle.tree.specs.Laws.{NodeLaw, PathLaw, SplitJoin};
ghost use Rattle.tree.specs.Map.{Map};

// The node at a layer holds the keys of that layer, its gaps hold all the others, and the root's layer is the highest of any key.
pub fn nodes_hold_the_keys_of_a_layer()
    ensures { (κ : Kind) → NodeLaw κ }
{}

// The node of a map comes from those of its two parts and the link to the gap between them, and those of the parts from it.
pub fn nodes_split_and_join()
    ensures { (κ : Kind) (n : ℕ) (a b : Map) → SplitJoin κ n a b }
{}

// The path of a key follows links from node to node, and says of the key what the map does.
pub fn paths_say_what_the_map_does()
    ensures { (κ : Kind) → PathLaw κ }
{}
