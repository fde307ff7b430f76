// An entry of a node by value.
use digest::Digest;
use keys::Key;

// A key, the digest of its record, and the link to the node between this key and the next.
#[derive(Debug, Clone, Copy, PartialEq, Eq)]
pub struct Entry {
    pub key: Key,
    pub value: Digest,
    pub after: Option<Digest>,
}
