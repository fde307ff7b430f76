// The scan of a pack: block after block, and part after part.
ghost use Rattle.std.specs.Prelude.{◌≡◌, position};
ghost use Rattle.std.specs.Str.{bytes_eq};
ghost use Rattle.pack.specs.Pack.{sectors_in};
ghost use Rattle.pack.specs.Reader.{read_sectors};
ghost use Rattle.pack.specs.Scan.{has_name, is_used, scanned};

use crate::fault::MemoryFault;
use crate::part::{ends, goes_on};
use crate::sector::{NAME_AT, PAYLOAD_AT, SECTOR_SIZE, Sector, is_unused, name_in};
use digest::Digest;

// Whether a sector has this name.
fn has_name(sector: &Sector, name: &Digest) -> bool
    ensures { result ≡ has_name name.now.bytes sector.now }
{
    sector[NAME_AT..PAYLOAD_AT] == name.bytes[..]
}

// The first sector that has this name.
pub(crate) fn first_named(sectors: &[Sector], name: &Digest) -> Option<usize>
    ensures { result ≡ position (has_name name.now.bytes) sectors.now }
{
    sectors.iter().position(|sector| has_name(sector, name))
}

// The first used sector.
fn first_used(sectors: &[Sector]) -> Option<usize>
    ensures { result ≡ position is_used sectors.now }
{
    sectors.iter().position(|sector| !is_unused(sector))
}

// How many sectors the blocks take, or the first bad sector. Two loops, over blocks and over their parts, that a label leaves at the first bad
// sector: a form that the project fixes (docs/DECISIONS.md).
pub(crate) fn scan(memory: &[u8]) -> Result<usize, MemoryFault>
    ensures { result ≡ scanned (read_sectors (sectors_in memory.now)) }
{
    let (sectors, _) = memory.as_chunks::<SECTOR_SIZE>();
    let count = sectors.len();
    let mut at = 0;
    let sector = 'scan: loop {
        if at == count || is_unused(&sectors[at]) {
            match first_used(&sectors[at..]) {
                Some(used) => break 'scan at + used,
                None => return Ok(at),
            }
        }
        let first = at;
        let name = name_in(&sectors[first]);
        if first_named(&sectors[0..first], &name).is_some() {
            break 'scan first;
        }
        let mut part = 0;
        'parts: loop {
            if !has_name(&sectors[at], &name) {
                break 'scan at;
            }
            if goes_on(&sectors[at], part, count - at - 1) {
                at += 1;
                part += 1;
                continue 'parts;
            }
            if !ends(&sectors[at], part) {
                break 'scan at;
            }
            at += 1;
            break 'parts;
        }
    };
    Err(MemoryFault::BadSector { sector })
}
