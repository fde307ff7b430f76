// Trees whose roots are known from the interoperability tests of the AT Protocol. There every key has a record of this digest; the record
// itself is not given, so that the nodes are written here, each from the links to those below it.
ghost use Rattle.std.specs.Prelude.{◌≡◌, ◌<◌, ◌≤◌, map, length, MatchOption};
ghost use Rattle.node.specs.Values.{link_of, entry_of};
ghost use Rattle.node.specs.Format.{encode};
ghost use Rattle.sha256.specs.Sha256.{sha256_hash};

use digest::{BLOCK_LIMIT, Digest, DigestKind};
use keys::Key;
use node::Entry;
use node_writer::write_node;
use sha256::Sha256;

const RECORD: [u8; 32] = [
    0x9d, 0x15, 0x6b, 0xc3, 0xf3, 0xa5, 0x20, 0x06, 0x62, 0x52, 0xc7, 0x08, 0xa9, 0x36, 0x1f, 0xd3,
    0xd0, 0x89, 0x22, 0x38, 0x42, 0x50, 0x0e, 0x37, 0x13, 0xd4, 0x04, 0xfd, 0xcc, 0xb3, 0x3c, 0xef,
];

// An entry with that record.
fn entry(key: &str, after: Option<Digest>) -> Option<Entry> {
    Some(Entry {
        key: Key::new(key.as_bytes())?,
        value: Digest { bytes: RECORD },
        after,
    })
}

// The digest of a node, or none where it has too many entries.
fn node_digest(first: Option<Digest>, entries: &[Entry]) -> Option<Digest>
    ensures { MatchOption result (64 < length entries.now) (λ d. d.bytes ≡ sha256_hash (encode 0x12 (record { first = link_of first; entries = map entry_of entries.now }))) }
{
    let mut block = [0u8; BLOCK_LIMIT];
    let len = write_node::<Sha256>(&mut block, first, entries)?;
    Some(Sha256::digest(&block[..len]))
}

// No key.
pub(crate) fn empty_root() -> Option<Digest> {
    node_digest(None, &[])
}

// One key.
pub(crate) fn lone_root(key: &str) -> Option<Digest> {
    node_digest(None, &[entry(key, None)?])
}

// A key of layer 1 between two and two of layer 0.
pub(crate) fn five_root(keys: [&str; 5]) -> Option<Digest> {
    let [first, second, middle, fourth, last] = keys;
    let left = node_digest(None, &[entry(first, None)?, entry(second, None)?])?;
    let right = node_digest(None, &[entry(fourth, None)?, entry(last, None)?])?;
    node_digest(Some(left), &[entry(middle, Some(right))?])
}
