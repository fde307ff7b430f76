// What the reader makes of a block.
ghost use Rattle.std.specs.Prelude.{◌≡◌, map, IfOk};
ghost use Rattle.node.specs.Format.{Node};
ghost use Rattle.node.specs.Values.{entry_of};
ghost use Rattle.node_reader.specs.Reader.{OfNode};
ghost use Rattle.damaged_nodes.specs.Verdicts.{Judged, times as times_in};

use crate::nodes::block_of;
use digest::DigestKind;
use node::Entry;
use node_reader::NodeReader;
use std::alloc::{AllocError, Global};
use std::fmt;

#[derive(Debug, Clone, Copy, PartialEq, Eq)]
pub enum Verdict {
    // It is the encoding of no node.
    Refused,
    // It was read, and what was read is written the same.
    Same,
    // It was read, and what was read is written in another way.
    Differs,
}

impl fmt::Display for Verdict {
    fn fmt<W: fmt::Write>(&self, f: &mut fmt::Formatter<W>) -> fmt::Result {
        let word = match self {
            Verdict::Refused => "refused",
            Verdict::Same => "same",
            Verdict::Differs => "differs",
        };
        f.write_str(word)
    }
}

// Reads a block under the kind `K`, and writes again what was read.
pub(crate) fn judge<K: DigestKind>(heap: Global, block: &[u8]) -> anyhow::Result<Verdict>
    ensures { IfOk result (λ v. Judged K.DigestKind.kind.code block.now v) }
{
    let Some(reader) = NodeReader::read::<K>(block) else {
        return Ok(Verdict::Refused);
    };
    let entries = entries_of(heap, &reader)?;
    let again = block_of::<K>(heap, reader.first(), entries.as_slice())?;
    if again.as_slice() == block {
        Ok(Verdict::Same)
    } else {
        Ok(Verdict::Differs)
    }
}

// The entries of a node, as its reader hands them out.
fn entries_of(heap: Global, reader: &NodeReader) -> Result<Vec<Entry>, AllocError>
    ensures { IfOk result (λ v. (n : Node) → OfNode reader.now n → map entry_of v.items ≡ n.entries) }
{
    reader.entries().collect(heap)
}

// How many of the verdicts are `wanted`.
pub(crate) fn times(verdicts: &[Verdict], wanted: Verdict) -> usize
    ensures { result ≡ times_in wanted verdicts.now }
{
    verdicts.iter().filter(|v| **v == wanted).count()
}
