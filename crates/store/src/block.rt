// A block, which keeps the limit.
ghost use Rattle.std.specs.Prelude.{◌≤◌, length};
ghost use Rattle.store.specs.Meaning.{block_limit};

use crate::fault::Fault;
use digest::BLOCK_LIMIT;

// The bytes of a block.
#[derive(Clone, Copy, Debug, PartialEq, Eq, Hash)]
pub struct Block<'a> {
    pub bytes: &'a [u8],
    pub ghost short: { length bytes.now ≤ block_limit },
}

impl<'a> TryFrom<&'a [u8]> for Block<'a> {
    type Error = Fault;

    ghost use Rattle.store.specs.Blocks.{Keeps};

    ghost try_from_gives = { Keeps };

    fn try_from(bytes: &'a [u8]) -> Result<Block<'a>, Fault> {
        if bytes.len() > BLOCK_LIMIT {
            return Err(Fault::BlockTooLong);
        }
        Ok(Block { bytes })
    }
}
