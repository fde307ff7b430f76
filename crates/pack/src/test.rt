// The test of memory.
ghost use Rattle.std.specs.Prelude.{◌≡◌};
ghost use Rattle.pack.specs.Test.{tested};

use crate::fault::MemoryFault;
use crate::scan::scan;
use crate::sector::SECTOR_SIZE;

// How many sectors the blocks of a good pack take.
pub(crate) fn used_sectors(memory: &[u8]) -> Result<usize, MemoryFault>
    ensures { result ≡ tested memory.now }
{
    if memory.is_empty() || memory.len() % SECTOR_SIZE != 0 {
        return Err(MemoryFault::NoSectors);
    }
    scan(memory)
}
