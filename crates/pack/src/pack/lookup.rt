// Blocks by their names.
ghost use Rattle.std.specs.Prelude.{◌≡◌, None, MatchOption};
ghost use Rattle.pack.specs.Block.{Stands};
ghost use Rattle.pack.specs.Memory.{pack_meaning};

use super::Pack;
use crate::read::Payloads;
use crate::scan::first_named;
use crate::sector::SECTOR_SIZE;
use digest::Digest;

impl Pack<'_> {
    // The block of a name, where it stands.
    pub(super) fn lookup(&self, name: &Digest) -> Option<Payloads<'_>>
        ensures { MatchOption result ((pack_meaning self.now.memory.now).held name.now.bytes ≡ None) (λ payloads. Stands ((pack_meaning self.now.memory.now).held name.now.bytes) payloads.sectors.now) }
    {
        let (sectors, _) = self.memory.as_chunks::<SECTOR_SIZE>();
        let place = first_named(&sectors[0..self.used], name)?;
        Some(Payloads {
            sectors: &sectors[place..],
        })
    }
}
