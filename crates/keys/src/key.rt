// A key by value: a byte string that is neither empty nor too long.
ghost use Rattle.std.specs.Prelude.{◌≡◌, ◌+◌, ◌≤◌, ◌++◌, ◌↔◌, length, take, IsTrue};
ghost use Rattle.std.specs.Cmp.Rules.{comparing};
ghost use Rattle.std.specs.Ordering.{on};
ghost use Rattle.std.specs.Str.{bytes_eq};
ghost use Rattle.std.proofs.Common.{rules};
ghost use Rattle.keys.specs.Size.{KeySized, Joins};

// 1 to 64 bytes. What stands in the room past them means nothing. An array with a length: keys are copied, and take no memory.
#[derive(Debug, Clone, Copy)]
pub struct Key {
    bytes: [u8; 64],
    len: usize,
    ghost some: { 1 ≤ len },
    ghost short: { len ≤ 64 },
    ghost room: { length bytes ≡ 64 },
}

impl Key {
    ghost use Rattle.keys.specs.Key.{key_bytes, Made};

    // The most bytes that a key has.
    pub const MAX_LEN: usize = 64;

    // The key of these bytes, or none where they are no bytes or too many: an `Option`, as where std makes a value that may not exist.
    pub fn new(bytes: &[u8]) -> Option<Key>
        ensures { Made result (KeySized (length bytes.now)) bytes.now }
    {
        Key::joined([0; 64], 0, bytes)
    }

    // The first `keep` bytes of this key and then `tail`, or none where this key has fewer or they make no key.
    pub fn with_tail(&self, keep: usize, tail: &[u8]) -> Option<Key>
        ensures { Made result (Joins (key_bytes self.now) keep tail.now) (take keep (key_bytes self.now) ++ tail.now) }
    {
        if keep > self.len {
            return None;
        }
        Key::joined(self.bytes, keep, tail)
    }

    // The first `keep` bytes of `room` and then `tail`, or none where they make no key.
    fn joined(mut room: [u8; 64], keep: usize, tail: &[u8]) -> Option<Key>
        requires { keep ≤ 64 }
        ensures { Made result (KeySized (keep + length tail.now)) (take keep room ++ tail.now) }
    {
        if tail.len() > Key::MAX_LEN - keep {
            return None;
        }
        let len = keep + tail.len();
        if len == 0 {
            return None;
        }
        room[keep..len].copy_from_slice(tail);
        Some(Key { bytes: room, len })
    }

    // The bytes of the key, and nothing of the room past them.
    pub fn as_slice(&self) -> &[u8]
        ensures value { result.now ≡ key_bytes self.now }
        ensures sized { KeySized (length result.now) }
    {
        &self.bytes[..self.len]
    }
}

// Keys are equal where their bytes are. By hand: a derive would compare what stands in the room past them too.
impl PartialEq for Key {
    ghost use Rattle.keys.specs.Key.{key_bytes};

    ghost eq = { on key_bytes bytes_eq };

    ghost laws = { Prim.search (comparing, rules) };

    fn eq(&self, other: &Key) -> bool
        ensures value { result ≡ bytes_eq (key_bytes self.now) (key_bytes other.now) }
        ensures decides { IsTrue result ↔ (key_bytes self.now ≡ key_bytes other.now) }
    {
        self.as_slice() == other.as_slice()
    }
}

impl Eq for Key {
    ghost laws = { Prim.search (comparing, rules) };
}
