// One sector of 512 bytes, and where its pieces stand.
ghost use Rattle.std.specs.Prelude.{◌≡◌, ◌<◌, ◌≤◌, length};
ghost use Rattle.std.specs.Str.{bytes_eq};
ghost use Rattle.pack.specs.Block.{part_bytes};
ghost use Rattle.pack.specs.Sector.{count_of, name_of, unused_sector, weighed};

use digest::Digest;

pub(crate) const SECTOR_SIZE: usize = 512;

pub(crate) type Sector = [u8; SECTOR_SIZE];

// The most bytes of a block in one sector.
pub(crate) const PART_SIZE: usize = 468;

// Where the name, the payload and the sum stand.
pub(crate) const NAME_AT: usize = 8;

pub(crate) const PAYLOAD_AT: usize = 40;

pub(crate) const SUM_AT: usize = 508;

// Whether a sector is unused.
#[tactic(auto, unfolding(crate::specs::Sector::unused_sector, crate::specs::Sector::zeros))]
pub(crate) fn is_unused(sector: &Sector) -> bool
    ensures { result ≡ bytes_eq sector.now unused_sector }
{
    *sector == [0; SECTOR_SIZE]
}

// The count that stands in a sector.
pub(crate) fn count_in(sector: &Sector) -> usize
    ensures value { result ≡ count_of sector.now }
    ensures bound { result < 65536 }
{
    usize::from(u16::from_be_bytes([sector[4], sector[5]]))
}

// What stands in a sector where a part has its name.
pub(crate) fn name_in(sector: &Sector) -> Digest
    ensures { result.bytes ≡ name_of sector.now }
{
    let bytes = <[u8; 32]>::try_from(&sector[NAME_AT..PAYLOAD_AT]).unwrap();
    Digest { bytes }
}

// The bytes of a block in one sector.
pub(crate) fn payload_in(sector: &Sector) -> &[u8]
    ensures value { result.now ≡ part_bytes sector.now }
    ensures bound { length result.now ≤ 468 }
{
    let count = count_in(sector).min(PART_SIZE);
    &sector[PAYLOAD_AT..PAYLOAD_AT + count]
}

// The sum of (offset + 1) × byte.
pub(crate) fn weigh(bytes: &[u8]) -> u32
    requires { length bytes.now ≤ 508 }
    ensures { result ≡ weighed 1 bytes.now }
{
    let mut sum = 0;
    for (byte, weight) in bytes.iter().zip(1..) {
        sum += weight * u32::from(*byte);
    }
    sum
}
