// A pack of three blocks, of 0, 468 and 469 bytes, and of two unused sectors.
use digest::Digest;
use pack::Pack;
use store::{Fault, Store};

pub(crate) const SECTORS: usize = 6;

// Said here anew, as the sum is in `damage`: the program tests what the crate says.
pub(crate) const SECTOR_SIZE: usize = 512;

pub(crate) const SAMPLE_SIZE: usize = SECTORS * SECTOR_SIZE;

// The names of the blocks are 32 times one of these bytes.
pub(crate) const NAMES: [u8; 3] = [0x11, 0x22, 0x33];

pub(crate) fn name_of(byte: u8) -> Digest {
    Digest { bytes: [byte; 32] }
}

// Puts the three blocks into memory of zeros.
pub(crate) fn fill(memory: &mut [u8]) -> Result<(), Fault> {
    let mut pack = Pack::new(memory);
    pack.put(&name_of(0x11), &[])?;
    pack.put(&name_of(0x22), &[0xAA; 468])?;
    pack.put(&name_of(0x33), &[0xBB; 469])
}
