// The parts that a node's bytes are made of.
ghost use Rattle.std.specs.Prelude.{◌≡◌, ◌<◌, length, MatchOption};
ghost use Rattle.node.specs.Format.{head};
ghost use Rattle.node.specs.Major.{major_base};
ghost use Rattle.node_reader.specs.Entries.{NoLinkOrNull, ReadsLinkOrNull, lent};
ghost use Rattle.node_reader.specs.Items.{NoHead, NoLink, NoString, ReadsLink, ReadsString};
ghost use Rattle.node_reader.specs.Stands.{Absent, Stands};

use digest::DigestKind;
use node::{FIRST_LARGE, IN_NEXT, MajorType, NULL, link_prefix};

// A block, and the code of the links in it: the kind's byte, so that the readers of all kinds are one type. A reading answers where it ended,
// and moves nothing: where one fails, another is tried at the same place.
#[derive(Debug, Clone, Copy)]
pub struct Input<'a> {
    pub(crate) block: &'a [u8],
    pub(crate) code: u8,
}

impl<'a> Input<'a> {
    // A block whose links are those of the kind `K`.
    pub(crate) fn new<K: DigestKind>(block: &'a [u8]) -> Input<'a>
        ensures block { result.block.now ≡ block.now }
        ensures code { result.code ≡ K.DigestKind.kind.code }
    {
        Input {
            block,
            code: K::CODE,
        }
    }

    // Where `expected` ends, if it stands at `at`. Byte by byte: the first byte mostly decides, and the length is known at each call, where the loop
    // is laid out as so many tests. `==` of slices would be a call.
    pub(crate) fn skip(self, at: usize, expected: &[u8]) -> Option<usize>
        requires { 0 < length expected.now }
        ensures { MatchOption result (Absent self.entry.block.now at expected.now) (λ end. Stands self.entry.block.now at expected.now end) }
    {
        let front = self.block.get(at..)?.get(..expected.len())?;
        if !front.iter().zip(expected).all(|(x, y)| x == y) {
            return None;
        }
        Some(at + expected.len())
    }

    // The number in a head of this type at `at`, and where the head ends.
    pub(crate) fn head(self, at: usize, major: MajorType) -> Option<(u8, usize)>
        ensures { MatchOption result (NoHead self.entry.block.now at (major_base major)) (λ v. Stands self.entry.block.now at (head (major_base major) v.0) v.1) }
    {
        let first = *self.block.get(at)?;
        // A test, which costs less here than `checked_sub`: the readers try one type after the other.
        if first < major.base() {
            return None;
        }
        let n = first - major.base();
        if n < FIRST_LARGE {
            return Some((n, at + 1));
        }
        if n > IN_NEXT {
            return None;
        }
        let n = *self.block.get(at + 1)?;
        if n < FIRST_LARGE {
            return None;
        }
        Some((n, at + 2))
    }

    // The bytes of a string of this type at `at`, and where they end.
    pub(crate) fn string(self, at: usize, major: MajorType) -> Option<(&'a [u8], usize)>
        ensures { MatchOption result (NoString self.entry.block.now at (major_base major)) (λ v. ReadsString self.entry.block.now at (major_base major) v.0.now v.1) }
    {
        let (len, start) = self.head(at, major)?;
        // Cut twice, since a range would test that its end is not before its start.
        let bytes = self.block.get(start..)?.get(..len as usize)?;
        Some((bytes, start + bytes.len()))
    }

    // The digest of the link at `at`, and where it ends.
    pub(crate) fn link(self, at: usize) -> Option<(&'a [u8; 32], usize)>
        ensures { MatchOption result (NoLink self.entry.block.now at self.entry.code) (λ v. ReadsLink self.entry.block.now at self.entry.code v.0.now v.1) }
    {
        let start = self.skip(at, &link_prefix(self.code))?;
        let digest = self.block[start..].first_chunk::<32>()?;
        Some((digest, start + 32))
    }

    // The digest of the link at `at`, or none of a null there, and where it ends.
    pub(crate) fn link_or_null(self, at: usize) -> Option<(Option<&'a [u8; 32]>, usize)>
        ensures { MatchOption result (NoLinkOrNull self.entry.block.now at self.entry.code) (λ v. ReadsLinkOrNull self.entry.block.now at self.entry.code (lent v.0) v.1) }
    {
        if let Some((digest, end)) = self.link(at) {
            return Some((Some(digest), end));
        }
        Some((None, self.skip(at, &[NULL])?))
    }
}
