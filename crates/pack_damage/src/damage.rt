// Bytes that are changed.
ghost use Rattle.std.specs.Prelude.{◌≡◌, length};

use crate::sample::SECTOR_SIZE;

// Whether the sum of a damaged sector is put right again.
#[derive(Clone, Copy, Debug, PartialEq, Eq)]
pub(crate) enum Sum {
    AsItWas,
    PutRight,
}

// A change to the bits of one byte of a sector.
#[derive(Clone, Copy, Debug, PartialEq, Eq)]
pub(crate) struct Damage {
    pub(crate) sector: usize,
    pub(crate) byte: usize,
    pub(crate) mask: u8,
    pub(crate) sum: Sum,
}

impl Damage {
    // Changes the bits, and then the sum, if it is to be put right. Done twice to a sector whose sum is right, it leaves the memory as before.
    pub(crate) fn toggle(&self, memory: &mut [u8])
        ensures { length memory.new ≡ length memory.old }
    {
        let Some(sector) = memory.chunks_exact_mut(SECTOR_SIZE).nth(self.sector) else {
            return;
        };
        if let Some(byte) = sector.get_mut(self.byte) {
            *byte ^= self.mask;
        }
        if self.sum == Sum::PutRight {
            mend(sector);
        }
    }
}

// Writes the sum of a sector anew: of (offset + 1) × byte over all but its last four bytes, high byte first.
fn mend(sector: &mut [u8])
    ensures { length sector.new ≡ length sector.old }
{
    if let Some((bytes, sum)) = sector.split_last_chunk_mut::<4>() {
        let weighed = bytes
            .iter()
            .zip(1u32..)
            .map(|(byte, weight)| weight.wrapping_mul(u32::from(*byte)));
        *sum = weighed.fold(0, u32::wrapping_add).to_be_bytes();
    }
}
