// Blocks where they stand in memory.
ghost use Rattle.std.specs.Prelude.{◌≡◌, ◌≤◌, ◌++◌, length, drop};
ghost use Rattle.std.specs.Iterator.{at_most};
ghost use Rattle.std.specs.Str.{bytes_eq};
ghost use Rattle.pack.specs.Block.{block_from};
ghost use Rattle.pack.specs.Payloads.{Lends};

use crate::part::PartKind;
use crate::sector::{Sector, payload_in};

// The bytes of the block that begins at the first of these sectors, part after part.
#[derive(Drop)]
pub(crate) struct Payloads<'a> {
    pub(crate) sectors: &'a [Sector],
}

impl<'a> Iterator for Payloads<'a> {
    type Item = &'a [u8];

    ghost next_gives = { Lends };

    ghost remaining = { λ payloads. at_most (length payloads.sectors.now) };

    fn next(&mut self) -> Option<&'a [u8]> {
        let (sector, rest) = self.sectors.split_first()?;
        self.sectors = if sector[0] == PartKind::MoreFollows as u8 {
            rest
        } else {
            &[]
        };
        Some(payload_in(sector))
    }
}

impl Payloads<'_> {
    // Copies the block to the start of `out`, and answers its length, which therefore is counted.
    pub(crate) fn copy_to(self, out: &mut [u8]) -> usize
        requires short { length (block_from self.sectors.now) ≤ length out.old }
        ensures len { result ≡ length (block_from self.entry.sectors.now) }
        ensures after { out.new ≡ block_from self.entry.sectors.now ++ drop (length (block_from self.entry.sectors.now)) out.old }
    {
        let mut len = 0;
        for payload in self {
            let end = len + payload.len();
            out[len..end].copy_from_slice(payload);
            len = end;
        }
        len
    }

    // Whether the block is this one.
    pub(crate) fn is_block(self, block: &[u8]) -> bool
        ensures { result ≡ bytes_eq (block_from self.entry.sectors.now) block.now }
    {
        let mut rest = block;
        for payload in self {
            let Some(behind) = rest.strip_prefix(payload) else {
                return false;
            };
            rest = behind;
        }
        rest.is_empty()
    }
}
