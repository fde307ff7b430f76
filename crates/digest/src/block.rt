// The blocks that digests name.

// The most bytes of a block.
pub const BLOCK_LIMIT: usize = 10_752;
