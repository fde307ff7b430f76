// Bytes with a part replaced.
ghost use Rattle.std.specs.Prelude.{◌≡◌, ◌≤◌, ◌++◌, length, take, drop, IfSome, IfOk, ◌↔◌, IsTrue};
ghost use Rattle.damaged_nodes.specs.Parts.{Replaced, Stands};

use std::alloc::{AllocError, Global};

// The bytes with `new` in the place of those from `from` up to `to`.
pub(crate) fn spliced(
    heap: Global,
    bytes: &[u8],
    from: usize,
    to: usize,
    new: &[u8],
) -> Result<Vec<u8>, AllocError>
    requires ordered { from ≤ to }
    requires within { to ≤ length bytes.now }
    ensures { IfOk result (λ v. v.items ≡ (take from bytes.now ++ new.now) ++ drop to bytes.now) }
{
    let mut block = Vec::from_slice(heap, &bytes[..from])?;
    block.extend_from_slice(new)?;
    block.extend_from_slice(&bytes[to..])?;
    Ok(block)
}

// The bytes with `new` in the place of the first `old`, if there is one.
pub(crate) fn replaced(
    heap: Global,
    bytes: &[u8],
    old: &[u8],
    new: &[u8],
) -> Result<Option<Vec<u8>>, AllocError>
    ensures { IfOk result (λ o. IfSome o (λ v. Replaced bytes.now old.now new.now v.items)) }
{
    let Some(at) = place_of(bytes, old) else {
        return Ok(None);
    };
    let block = spliced(heap, bytes, at, at + old.len(), new)?;
    Ok(Some(block))
}

// Where `part` stands first in the bytes.
fn place_of(bytes: &[u8], part: &[u8]) -> Option<usize>
    ensures { IfSome result (λ at. Stands bytes.now part.now at) }
{
    (0..bytes.len()).find(|&at| stands_at(bytes, part, at))
}

// Whether `part` stands at a place of the bytes.
fn stands_at(bytes: &[u8], part: &[u8], at: usize) -> bool
    ensures { IsTrue result ↔ Stands bytes.now part.now at }
{
    match bytes.get(at..) {
        Some(rest) => rest.starts_with(part),
        None => false,
    }
}
