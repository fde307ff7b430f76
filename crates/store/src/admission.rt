// What comes of a block that is put, before its cost is looked at.
ghost use Rattle.store.specs.Blocks.{Admits};

use crate::block::Block;
use crate::compared::Compared;
use crate::fault::Fault;

// The block, where it is to be added; none, where it is held already.
pub fn admit<'a>(bytes: &'a [u8], held: Compared) -> Result<Option<Block<'a>>, Fault>
    ensures { Admits bytes.now held result }
{
    let block = Block::try_from(bytes)?;
    match held {
        Compared::Absent => Ok(Some(block)),
        Compared::Same => Ok(None),
        Compared::Other => Err(Fault::Conflict),
    }
}
