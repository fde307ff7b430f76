// The entries of a node, one after the other.
ghost use Rattle.std.specs.Prelude.{◌≡◌, ◌++◌, take, MatchOption};
ghost use Rattle.std.specs.Iterator.{at_most};
ghost use Rattle.keys.specs.Key.{key_bytes};
ghost use Rattle.node.specs.Format.{Node};
ghost use Rattle.node.specs.Values.{key_before, link_of};
ghost use Rattle.node_reader.specs.Entries.{lent};
ghost use Rattle.node_reader.specs.Nodes.{Closes, Ends, Extends, Rest, Steps};
ghost use Rattle.node_reader.specs.Reader.{Takes};

use crate::cursor::Cursor;
use crate::input::Input;
use digest::Digest;
use keys::{Key, shared_len};
use node::Entry;

// The entries from a cursor on. A copy keeps its place.
#[derive(Debug, Clone, Copy)]
pub struct Entries<'a> {
    pub(crate) input: Input<'a>,
    pub(crate) cursor: Cursor,
}

impl Iterator for Entries<'_> {
    type Item = Entry;

    ghost next_gives = { Takes };

    ghost remaining = { λ entries. at_most entries.cursor.left };

    fn next(&mut self) -> Option<Entry> {
        let (entry, next) = self.input.step(self.cursor)?;
        self.cursor = next;
        Some(entry)
    }
}

impl Entries<'_> {
    // Where they end.
    pub(crate) fn end(mut self) -> Option<usize>
        ensures { MatchOption result ((n : Node) → Rest self.entry.input.code self.entry.input.block.now self.entry.cursor n → ⊥) (λ at. Closes self.entry.input.code self.entry.input.block.now self.entry.cursor at) }
    {
        for _ in 0..self.cursor.left {
            self.next()?;
        }
        Some(self.cursor.at)
    }
}

impl Input<'_> {
    // The entry at a cursor, and the cursor behind it.
    fn step(self, cursor: Cursor) -> Option<(Entry, Cursor)>
        ensures { MatchOption result (Ends self.entry.code self.entry.block.now cursor) (λ v. Steps self.entry.code self.entry.block.now cursor v.0 v.1) }
    {
        let left = cursor.left.checked_sub(1)?;
        let (parts, end) = self.entry(cursor.at)?;
        let key = next_key(cursor.last, parts.shared as usize, parts.rest)?;
        let entry = Entry {
            key,
            value: Digest {
                bytes: *parts.value,
            },
            after: link_of(parts.after),
        };
        let next = Cursor {
            at: end,
            left,
            last: Some(key),
        };
        Some((entry, next))
    }
}

// The key that shares `shared` bytes, and no more, with the key before it and goes on with `rest`.
fn next_key(last: Option<Key>, shared: usize, rest: &[u8]) -> Option<Key>
    ensures { MatchOption result (Extends (key_before last) shared rest.now → ⊥) (λ key. Extends (key_before last) shared rest.now × (key_bytes key ≡ take shared (key_before last) ++ rest.now)) }
{
    match last {
        Some(before) => before.with_tail(shared, rest).filter(|key| shared_len(
            before.as_slice(),
            key.as_slice(),
        ) == shared),
        None if shared == 0 => Key::new(rest),
        None => None,
    }
}

// The link by value.
pub(crate) fn link_of(link: Option<&[u8; 32]>) -> Option<Digest>
    ensures { link_of result ≡ lent link.entry }
{
    link.map(|digest| Digest { bytes: *digest })
}
