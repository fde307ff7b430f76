// A whole node at once.
ghost use Rattle.std.specs.Prelude.{map, length, MatchOption};
ghost use Rattle.node.specs.Values.{link_of, entry_of};
ghost use Rattle.node_writer.specs.Answer.{Refused, Ended};

use crate::writer::NodeWriter;
use digest::{Digest, DigestKind};
use node::Entry;

// Writes the node of this first link and these entries at the start of `out`, a buffer of the caller, and answers how many bytes it has.
// None, with nothing written, where a node has not so many entries or `out` has no room for every node.
pub fn write_node<K: DigestKind>(
    out: &mut [u8],
    first: Option<Digest>,
    entries: &[Entry],
) -> Option<usize>
    ensures { MatchOption result (Refused out.old out.new (length entries.now)) (λ end. Ended out.old out.new K.DigestKind.kind.code (record { first = link_of first; entries = map entry_of entries.now }) end) }
{
    let mut writer = NodeWriter::begin(out, entries.len())?;
    for entry in entries {
        writer.push::<K>(out, entry);
    }
    Some(writer.finish::<K>(out, first))
}
