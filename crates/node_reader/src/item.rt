// The CBOR items of a block.
ghost use Rattle.std.specs.Option.{MatchOption};
ghost use Rattle.node_reader.specs.Items.{NoItem, ReadsItem};

use crate::input::Input;
use digest::DigestKind;
use node::{MajorType, NULL};

// An item, as the part of the block that it is, with the place where that part begins. Of an array or a map only the head is an item;
// its elements follow.
#[derive(Debug, Clone, Copy)]
pub enum Item<'a> {
    Number(u8),
    Bytes(&'a [u8], usize),
    Text(&'a [u8], usize),
    Array(u8),
    Map(u8),
    Link(&'a [u8; 32], usize),
    Null,
}

// The item at `at`, and where it ends.
pub fn read_item<K: DigestKind>(block: &[u8], at: usize) -> Option<(Item<'_>, usize)>
    ensures { MatchOption result (NoItem block.now at K.DigestKind.kind.code) (λ v. ReadsItem block.now at K.DigestKind.kind.code v.0 v.1) }
{
    let input = Input::new::<K>(block);
    if let Some((n, end)) = input.head(at, MajorType::Number) {
        return Some((Item::Number(n), end));
    }
    if let Some((bytes, end)) = input.string(at, MajorType::Bytes) {
        return Some((Item::Bytes(bytes, end - bytes.len()), end));
    }
    if let Some((text, end)) = input.string(at, MajorType::Text) {
        return Some((Item::Text(text, end - text.len()), end));
    }
    if let Some((n, end)) = input.head(at, MajorType::Array) {
        return Some((Item::Array(n), end));
    }
    if let Some((n, end)) = input.head(at, MajorType::Map) {
        return Some((Item::Map(n), end));
    }
    if let Some((digest, end)) = input.link(at) {
        return Some((Item::Link(digest, end - digest.len()), end));
    }
    Some((Item::Null, input.skip(at, &[NULL])?))
}
