// Worked examples: theorems over the definitions, and what the code answers to them.
//
//   layers         the layers of three keys under Fold
//   write_lesson   a node with one lesson
//   lesson_root    the root of the map with that lesson
#![tactic(auto)]

ghost use Rattle.std.specs.Prelude.{◌≡◌, ◌<◌, [], ◌∷◌, length, take, MatchOption};
ghost use Rattle.worked_examples.specs.Layers.{WorkedLayers};
ghost use Rattle.worked_examples.specs.Nodes.{WorkedNodes, lesson_bytes};
ghost use Rattle.worked_examples.specs.Trees.{WorkedTrees, lesson_root};

use digest::{Digest, DigestKind, Fold, layer_of};
use keys::Key;
use node::Entry;
use node_writer::write_node;

// Fold leaves a key of up to 32 bytes as it is, so that the keys begin as their digests do.
pub fn layers() -> [usize; 3]
    ensures value { result ≡ 1 ∷ (15 ∷ (16 ∷ [])) }
    ensures every_key { WorkedLayers }
{
    [
        layer_of::<Fold>(&[0x3f]),
        layer_of::<Fold>(&[0x00, 0x00, 0x00, 0x01]),
        layer_of::<Fold>(&[0x00, 0x00, 0x00, 0x00, 0x80]),
    ]
}

// The node of key 61 with record 62 under Fold, at the start of a buffer with room for a block; its length is 61.
pub fn write_lesson(out: &mut [u8]) -> Option<usize>
    ensures bytes { MatchOption result (length out.old < 10752) (λ end. (end ≡ 61) × (take end out.new ≡ lesson_bytes)) }
    ensures definitions { WorkedNodes }
{
    let entry = Entry {
        key: Key::new(&[0x61])?,
        value: Fold::digest(&[0x62]),
        after: None,
    };
    write_node::<Fold>(out, None, &[entry])
}

// The root of the map that has key 61 with record 62, under Fold: the digest of its only node, which is written at the start of `out`.
pub fn lesson_root(out: &mut [u8]) -> Option<Digest>
    ensures value { MatchOption result (length out.old < 10752) (λ digest. digest.bytes ≡ lesson_root) }
    ensures definitions { WorkedTrees }
{
    let end = write_lesson(out)?;
    Some(Fold::digest(&out[..end]))
}
