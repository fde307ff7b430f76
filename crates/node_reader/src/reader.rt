// A reader of a node's bytes.
ghost use Rattle.std.specs.Prelude.{◌≡◌, ℕ, List, Option, length, MatchOption};
ghost use Rattle.node.specs.Format.{Node};
ghost use Rattle.node.specs.Laws.{Encodes};
ghost use Rattle.node.specs.Values.{link_of};
ghost use Rattle.node_reader.specs.Find.{place};
ghost use Rattle.node_reader.specs.Nodes.{Finishes};
ghost use Rattle.node_reader.specs.Reader.{Left, OfNode, Reads, entries_of};

use crate::cursor::Cursor;
use crate::entries::{Entries, link_of};
use crate::input::Input;
use digest::{Digest, DigestKind};
use node::{KEY_LIMIT, MajorType};

// A block that is the encoding of a node: where its entries begin, and its first link.
#[derive(Debug, Clone, Copy)]
pub struct NodeReader<'a> {
    pub(crate) input: Input<'a>,
    pub(crate) start: Cursor,
    pub(crate) first: Option<Digest>,
}

impl<'a> NodeReader<'a> {
    // The reader of a block, if the block is the encoding of a node under the kind `K`.
    pub fn read<K: DigestKind>(block: &'a [u8]) -> Option<NodeReader<'a>>
        ensures { MatchOption result ((n : Node) → Encodes K.DigestKind.kind.code block.now n → ⊥) (λ v. Reads K.DigestKind.kind.code block.now v) }
    {
        Input::new::<K>(block).node()
    }

    // How many entries the node has.
    pub fn len(&self) -> usize
        ensures { (n : Node) → OfNode self.now n → result ≡ length n.entries }
    {
        self.start.left
    }

    // The link before the first key.
    pub fn first(&self) -> Option<Digest>
        ensures { (n : Node) → OfNode self.now n → link_of result ≡ n.first }
    {
        self.first
    }

    // The entries, in order.
    pub fn entries(&self) -> Entries<'a>
        ensures value { result ≡ entries_of self.now }
        ensures left { (n : Node) → OfNode self.now n → Left result n }
    {
        Entries {
            input: self.input,
            cursor: self.start,
        }
    }

    // The place of the entry with this key.
    pub fn find(&self, key: &[u8]) -> Option<usize>
        ensures { (n : Node) → OfNode self.now n → result ≡ place key.now n.entries }
    {
        self.entries().position(|entry| entry.key.as_slice() == key)
    }
}

impl<'a> Input<'a> {
    // The reader of the node whose encoding this is.
    fn node(self) -> Option<NodeReader<'a>>
        ensures { MatchOption result ((n : Node) → Encodes self.entry.code self.entry.block.now n → ⊥) (λ v. Reads self.entry.code self.entry.block.now v) }
    {
        let at_e = self.skip(0, &[0xA2, 0x61, b'e'])?;
        let (count, at) = self.head(at_e, MajorType::Array)?;
        let left = count as usize;
        if left > KEY_LIMIT {
            return None;
        }
        let start = Cursor {
            at,
            left,
            last: None,
        };
        let entries = Entries {
            input: self,
            cursor: start,
        };
        let first = self.last_link(entries.end()?)?;
        Some(NodeReader {
            input: self,
            start,
            first,
        })
    }

    // The first link, which stands last, and the end of the block behind it.
    fn last_link(self, at: usize) -> Option<Option<Digest>>
        ensures { MatchOption result ((first : Option (List ℕ)) → Finishes self.entry.code self.entry.block.now at first → ⊥) (λ first. Finishes self.entry.code self.entry.block.now at (link_of first)) }
    {
        let at_l = self.skip(at, &[0x61, b'l'])?;
        let (first, end) = self.link_or_null(at_l)?;
        if end != self.block.len() {
            return None;
        }
        Some(link_of(first))
    }
}
