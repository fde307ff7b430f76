// The test of memory, and the store over memory.
ghost use Rattle.std.specs.Prelude.{◌≡◌, ℕ, List};
ghost use Rattle.store.specs.Runs.{Pair};
ghost use Rattle.pack.specs.Memory.{pairs_read, reading};
ghost use Rattle.pack.specs.Pack.{Sound, pack_sectors};
ghost use Rattle.pack.specs.Reader.{good, read_sectors};
ghost use Rattle.pack.specs.Test.{Judged, memory_told, verdict};

use super::Pack;
use crate::fault::MemoryFault;
use crate::sector::SECTOR_SIZE;
use crate::test::used_sectors;

impl<'a> Pack<'a> {
    // Whether memory is a good pack, and which sector is the first bad one if it is none. A law comes with it: the pack of any sound pairs
    // is read as these pairs.
    pub fn test_memory(memory: &[u8]) -> Result<(), MemoryFault>
        ensures answer { memory_told result ≡ verdict memory.now }
        ensures judged { Judged memory.now (memory_told result) }
        ensures read_back { (pairs : List Pair) (unused : ℕ) → Sound pairs → read_sectors (pack_sectors pairs unused) ≡ good pairs unused }
    {
        used_sectors(memory)?;
        Ok(())
    }

    // The store over this memory, which stays as it is. Its pairs are sound: no name is there twice.
    pub fn new(memory: &'a mut [u8]) -> Pack<'a>
        ensures same { result.memory.now ≡ memory.old }
        ensures sound { Sound (pairs_read (reading result.memory.now)) }
    {
        let (used, free) = match used_sectors(memory) {
            Ok(used) => (used, memory.len() / SECTOR_SIZE - used),
            Err(_) => (0, 0),
        };
        Pack { memory, used, free }
    }
}
