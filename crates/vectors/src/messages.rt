// The messages and keys.
ghost use Rattle.std.specs.Prelude.{◌≡◌, IfOk};
ghost use Rattle.vectors.specs.Messages.{counted_bytes};

use std::alloc::{AllocError, Global};

// The messages of the published examples of SHA-256, but for a million of the letter a.
pub const PUBLISHED: [&str; 4] = [
    "",
    "abc",
    "abcdbcdecdefdefgefghfghighijhijkijkljklmklmnlmnomnopnopq",
    "abcdefghbcdefghicdefghijdefghijkefghijklfghijklmghijklmnhijklmnoijklmnopjklmnopqklmnopqrlmnopqrsmnopqrstnopqrstu",
];

// Keys whose layers under SHA-256 are known from the interoperability tests of the AT Protocol.
pub const KEYS: [&str; 7] = [
    "asdf",
    "blue",
    "88bfafc7",
    "2a92d355",
    "884976f5",
    "app.bsky.feed.post/454397e440ec",
    "app.bsky.feed.post/9adeb165882c",
];

// Keys of trees with one key, and with five.
pub const LONE_KEYS: [&str; 2] = [
    "com.example.record/3jqfcqzm3fo2j",
    "com.example.record/3jqfcqzm3fx2j",
];

pub const FIVE_KEYS: [&str; 5] = [
    "com.example.record/3jqfcqzm3fp2j",
    "com.example.record/3jqfcqzm3fr2j",
    "com.example.record/3jqfcqzm3fs2j",
    "com.example.record/3jqfcqzm3ft2j",
    "com.example.record/3jqfcqzm4fc2j",
];

// The bytes 0 to 250, again and again, `len` of them.
pub(crate) fn counted(heap: Global, len: usize) -> Result<Vec<u8>, AllocError>
    ensures { IfOk result (λ v. v.items ≡ counted_bytes len) }
{
    (0..len).map(|i| (i % 251) as u8).collect(heap)
}
