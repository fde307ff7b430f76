// A part of a block: what one sector holds.
ghost use Rattle.std.specs.Prelude.{◌≡◌, ◌≤◌, length};
ghost use Rattle.std.specs.Str.{bytes_eq};
ghost use Rattle.pack.specs.Part.{code_of};
ghost use Rattle.pack.specs.Reader.{goes_on, ends};
ghost use Rattle.pack.specs.Sector.{head, name_of, payload_of, sector as sector_of};

use crate::sector::{
    NAME_AT, PART_SIZE, PAYLOAD_AT, SECTOR_SIZE, SUM_AT, Sector, count_in, name_in, weigh,
};
use digest::Digest;
use store::BLOCK_LIMIT;

// Whether another part follows, as byte 0 has it.
#[derive(Clone, Copy, Debug, PartialEq, Eq)]
pub(crate) enum PartKind {
    MoreFollows = 0x01,
    Last = 0x02,
}

// What one sector holds of a block.
#[derive(Clone, Copy, Debug)]
pub(crate) struct Part<'a> {
    pub(crate) kind: PartKind,
    // The parts of a block count from 0.
    pub(crate) number: u16,
    pub(crate) name: Digest,
    pub(crate) payload: &'a [u8],
    pub(crate) ghost short: { length payload.now ≤ 468 },
}

impl Part<'_> {
    // Bytes 0 to 7.
    fn head(&self) -> [u8; 8]
        ensures { result ≡ head (code_of self.now.kind) self.now.number (length self.now.payload.now) }
    {
        let [number_high, number_low] = self.number.to_be_bytes();
        let [count_high, count_low] = (self.payload.len() as u16).to_be_bytes();
        [
            self.kind as u8,
            0,
            number_high,
            number_low,
            count_high,
            count_low,
            0,
            0,
        ]
    }

    // The whole sector. That a digest has 32 bytes is said for callers that do not look into it.
    pub(crate) fn to_sector(&self) -> Sector
        ensures value { result ≡ sector_of (code_of self.now.kind) self.now.number self.now.name.bytes self.now.payload.now }
        ensures name_size { length self.now.name.bytes ≡ 32 }
    {
        let mut sector = [0; SECTOR_SIZE];
        let end = PAYLOAD_AT + self.payload.len();
        sector[0..NAME_AT].copy_from_slice(&self.head());
        sector[NAME_AT..PAYLOAD_AT].copy_from_slice(&self.name.bytes);
        sector[PAYLOAD_AT..end].copy_from_slice(self.payload);
        let sum = weigh(&sector[0..SUM_AT]).to_be_bytes();
        sector[SUM_AT..SECTOR_SIZE].copy_from_slice(&sum);
        sector
    }
}

// Whether a sector is that of a part of this kind, number and count, whatever its name and its payload are.
fn is_part(sector: &Sector, kind: PartKind, number: u16, count: usize) -> bool
    requires { count ≤ 468 }
    ensures { result ≡ bytes_eq sector.now (sector_of (code_of kind) number (name_of sector.now) (payload_of count sector.now)) }
{
    let part = Part {
        kind,
        number,
        name: name_in(sector),
        payload: &sector[PAYLOAD_AT..PAYLOAD_AT + count],
    };
    // The head first: it tells most sectors that are no such part, and is made without the rest.
    sector[..NAME_AT] == part.head()[..] && *sector == part.to_sector()
}

// Whether a sector is a full part of this number, and another part can follow it.
#[tactic(auto, unfolding(crate::specs::Reader::goes_on))]
pub(crate) fn goes_on(sector: &Sector, number: u16, left: usize) -> bool
    ensures { result ≡ goes_on left number sector.now }
{
    (usize::from(number) + 1) * PART_SIZE < BLOCK_LIMIT
        && left > 0
        && is_part(sector, PartKind::MoreFollows, number, PART_SIZE)
}

// Whether a sector is the last part, of this number.
#[tactic(auto, unfolding(crate::specs::Reader::ends))]
pub(crate) fn ends(sector: &Sector, number: u16) -> bool
    ensures { result ≡ ends number sector.now }
{
    let count = count_in(sector);
    count <= PART_SIZE
        && usize::from(number) * PART_SIZE + count <= BLOCK_LIMIT
        && (number == 0 || count > 0)
        && is_part(sector, PartKind::Last, number, count)
}
