// The nodes to damage. The digest of a record is that of its key under SHA-256.
ghost use Rattle.std.specs.Prelude.{◌≡◌, map, IfOk};
ghost use Rattle.node.specs.Format.{encode};
ghost use Rattle.node.specs.Values.{link_of, entry_of};

use anyhow::Context;
use digest::{Digest, DigestKind};
use keys::Key;
use node::{BLOCK_LIMIT, Entry};
use node_writer::write_node;
use sha256::Sha256;
use std::alloc::Global;

// The bytes of the node with this first link and these entries.
pub(crate) fn block_of<K: DigestKind>(
    heap: Global,
    first: Option<Digest>,
    entries: &[Entry],
) -> anyhow::Result<Vec<u8>>
    ensures { IfOk result (λ v. v.items ≡ encode K.DigestKind.kind.code (record { first = link_of first; entries = map entry_of entries.now })) }
{
    let mut block = vec![in heap; 0; BLOCK_LIMIT]?;
    let len = write_node::<K>(&mut block, first, entries).context("no node has so many entries")?;
    block.truncate(len);
    Ok(block)
}

// Three keys that share some of their bytes, with a node before them and one between the last two.
pub(crate) fn sample<K: DigestKind>(heap: Global) -> anyhow::Result<Vec<u8>> {
    let first = Sha256::digest(b"rm");
    let between = Sha256::digest(b"rm/3");
    let entries = [
        entry(b"rm/12", None)?,
        entry(b"rm/3", Some(between))?,
        entry(b"rm/300", None)?,
    ];
    block_of::<K>(heap, Some(first), &entries)
}

// Two keys of 64 bytes that share all but the last.
pub(crate) fn long_keys(heap: Global) -> anyhow::Result<Vec<u8>> {
    let first = [b'a'; Key::MAX_LEN];
    let mut second = first;
    second[Key::MAX_LEN - 1] = b'b';
    let entries = [entry(&first, None)?, entry(&second, None)?];
    block_of::<Sha256>(heap, None, &entries)
}

// The keys of one byte from 0 on, as a node has them that may have any number of keys from 24 to 255.
pub(crate) fn counted_keys(heap: Global, count: u8) -> anyhow::Result<Vec<u8>> {
    let mut block = Vec::from_slice(heap, &[0xA2, 0x61, b'e', 0x98, count])?;
    for byte in 0..count {
        let alone = block_of::<Sha256>(heap, None, &[entry(&[byte], None)?])?;
        // An entry alone stands behind four bytes and before three.
        let written = alone
            .as_slice()
            .get(4..alone.len().saturating_sub(3))
            .context("no entry")?;
        block.extend_from_slice(written)?;
    }
    block.extend_from_slice(b"\x61l\xF6")?;
    Ok(block)
}

// The entry of a key.
fn entry(key: &[u8], after: Option<Digest>) -> anyhow::Result<Entry> {
    let value = Sha256::digest(key);
    let key = Key::new(key).context("no key")?;
    Ok(Entry { key, value, after })
}
