// An entry as it stands in a block.
ghost use Rattle.std.specs.Option.{MatchOption};
ghost use Rattle.node_reader.specs.Entries.{NoEntry, ReadsEntry};

use crate::input::Input;
use digest::DigestKind;
use node::MajorType;

// The parts of an entry, lent from the block.
#[derive(Debug, Clone, Copy)]
pub struct EntryParts<'a> {
    // What the key has beyond the bytes that it shares with the key before it: the bytes of the block from `place` on.
    pub rest: &'a [u8],
    pub place: usize,
    // How many bytes it shares.
    pub shared: u8,
    // The digests of the link after the key and of the record's link.
    pub after: Option<&'a [u8; 32]>,
    pub value: &'a [u8; 32],
}

// The entry at `at`, and where it ends. Its rest of a key is that very part of the block.
pub fn read_entry<K: DigestKind>(block: &[u8], at: usize) -> Option<(EntryParts<'_>, usize)>
    ensures { MatchOption result (NoEntry block.now at K.DigestKind.kind.code) (λ v. ReadsEntry block.now at K.DigestKind.kind.code v.0 v.1) }
{
    Input::new::<K>(block).entry(at)
}

impl<'a> Input<'a> {
    // The entry at `at`, and where it ends.
    pub(crate) fn entry(self, at: usize) -> Option<(EntryParts<'a>, usize)>
        ensures { MatchOption result (NoEntry self.entry.block.now at self.entry.code) (λ v. ReadsEntry self.entry.block.now at self.entry.code v.0 v.1) }
    {
        let at_k = self.skip(at, &[0xA4, 0x61, b'k'])?;
        let (rest, end_k) = self.string(at_k, MajorType::Bytes)?;
        let at_p = self.skip(end_k, &[0x61, b'p'])?;
        let (shared, end_p) = self.head(at_p, MajorType::Number)?;
        let at_t = self.skip(end_p, &[0x61, b't'])?;
        let (after, end_t) = self.link_or_null(at_t)?;
        let at_v = self.skip(end_t, &[0x61, b'v'])?;
        let (value, end) = self.link(at_v)?;
        let place = end_k - rest.len();
        Some((
            EntryParts {
                rest,
                place,
                shared,
                after,
                value,
            },
            end,
        ))
    }
}
