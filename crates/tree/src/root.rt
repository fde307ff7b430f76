// What a root tells, and what the blocks under it are.
ghost use Rattle.digest.specs.Kind.{Kind};
ghost use Rattle.tree.specs.Laws.{EqualRoots, EqualKeptRoots, BlockLaw};

// Maps with equal roots are equal, or a block of one tree and a different block of the other have one digest. Where the maps are such as a
// repository keeps, these two are byte strings.
pub fn equal_roots_mean_equal_maps()
    ensures all { (κ : Kind) → EqualRoots κ }
    ensures kept { (κ : Kind) → EqualKeptRoots κ }
{}

// The nodes of a map that is not crowded are well formed, and its blocks are byte strings that a store takes.
pub fn blocks_fit_a_store()
    ensures { (κ : Kind) → BlockLaw κ }
{}
