// A node that is being written. The buffer is the caller's, and lent to each call, so that it can be read between.
ghost use Rattle.std.specs.Prelude.{◌≡◌, ℕ, ◌+◌, ◌*◌, ◌<◌, ◌≤◌, List, [], ◌∷◌, ◌++◌, length, take, Some, MatchOption};
ghost use Rattle.node.specs.Format.{Entry as EntryValue, closing, encode, entry as entry_bytes};
ghost use Rattle.node.specs.Values.{entry_of, key_before, link_of};
ghost use Rattle.node_writer.specs.Put.{Puts, Kept};

use crate::output::Output;
use digest::{Digest, DigestKind};
use keys::Key;
use node::{BLOCK_LIMIT, Entry, KEY_LIMIT, MajorType};

// Where the next entry goes, how many entries are to come, and the key of the last one.
#[derive(Debug, Clone, Copy)]
pub struct NodeWriter {
    at: usize,
    left: usize,
    last: Option<Key>,
    // 159 bytes are enough for an entry, and 43 for the first link.
    ghost room: { at + 159 * left + 43 ≤ 10752 },
}

impl NodeWriter {
    ghost use Rattle.node_writer.specs.Answer.{Refused, Begun};
    ghost use Rattle.node_writer.specs.Written.{Written};

    // Begins a node of `count` entries at the start of `out`. None, with nothing written, where a node has no such count or `out` has no
    // room for every node.
    pub fn begin(out: &mut [u8], count: usize) -> Option<NodeWriter>
        ensures { MatchOption result (Refused out.old out.new count) (λ w. Begun out.old out.new count w) }
    {
        if out.len() < BLOCK_LIMIT {
            return None;
        }
        if count > KEY_LIMIT {
            return None;
        }
        let mut output = Output { buffer: out, at: 0 };
        output.bytes(&[0xA2, 0x61, b'e']);
        output.head(MajorType::Array, count as u8);
        Some(NodeWriter {
            at: output.at,
            left: count,
            last: None,
        })
    }

    // Writes an entry after those that were pushed before it.
    pub fn push<K: DigestKind>(&mut self, out: &mut [u8], entry: &Entry)
        requires room { 10752 ≤ length out.old }
        requires more { 0 < self.old.left }
        ensures written { (count : ℕ) (es : List EntryValue) → Written K.DigestKind.kind.code count es self.old out.old → Written K.DigestKind.kind.code count (es ++ entry_of entry.now ∷ []) self.new out.new }
        ensures puts { Puts out.old out.new self.old.at (entry_bytes K.DigestKind.kind.code (key_before self.old.last) (entry_of entry.now)) self.new.at }
        ensures kept { Kept out.old out.new self.old.at self.new.at }
        ensures left { self.new.left + 1 ≡ self.old.left }
        ensures last { self.new.last ≡ Some entry.now.key }
    {
        let mut output = Output {
            buffer: out,
            at: self.at,
        };
        output.entry::<K>(self.previous(), entry);
        self.at = output.at;
        self.left -= 1;
        self.last = Some(entry.key);
    }

    // The bytes of the key that the next entry follows: none before the first.
    fn previous(&self) -> &[u8]
        ensures { result.now ≡ key_before self.now.last }
    {
        match &self.last {
            Some(key) => key.as_slice(),
            None => &[],
        }
    }

    // Writes the link to the node before the first key, once all entries were pushed, and answers how many bytes the node has.
    pub fn finish<K: DigestKind>(self, out: &mut [u8], first: Option<Digest>) -> usize
        requires room { 10752 ≤ length out.old }
        requires none { self.left ≡ 0 }
        ensures written { (count : ℕ) (es : List EntryValue) → Written K.DigestKind.kind.code count es self out.old → take result out.new ≡ encode K.DigestKind.kind.code (record { first = link_of first; entries = es }) }
        ensures puts { Puts out.old out.new self.at (closing K.DigestKind.kind.code (link_of first)) result }
        ensures kept { Kept out.old out.new self.at result }
        ensures bound { result ≤ 10752 }
    {
        let mut output = Output {
            buffer: out,
            at: self.at,
        };
        output.bytes(&[0x61, b'l']);
        output.link_or_null::<K>(first);
        output.at
    }
}
