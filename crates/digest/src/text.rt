// A digest as text.
ghost use Rattle.std.specs.Prelude.{◌≡◌, ◌<◌, Some};
ghost use Rattle.digest.specs.Hex.{hex_digit, hex};

use crate::digest::Digest;
use std::{fmt, str};

const DIGITS: [u8; 16] = *b"0123456789abcdef";

impl Digest {
    // 64 lower-case hexadecimal digits, the high half of each byte first.
    pub fn to_hex(&self) -> [u8; 64]
        ensures { result ≡ hex self.now.bytes }
    {
        // By place: `map` and `as_flattened` took 2.4 times as long.
        let mut text = [0u8; 64];
        for (i, byte) in self.bytes.iter().enumerate() {
            text[2 * i] = digit(*byte / 16);
            text[2 * i + 1] = digit(*byte % 16);
        }
        text
    }
}

// The same digits, which are text.
impl fmt::Display for Digest {
    ghost output = { λ digest. Some (hex digest.bytes) };

    fn fmt<W: fmt::Write>(&self, f: &mut fmt::Formatter<W>) -> fmt::Result {
        let digits = self.to_hex();
        f.write_str(str::from_utf8(&digits).unwrap())
    }
}

// The digit of a half byte.
fn digit(half: u8) -> u8
    requires { half < 16 }
    ensures { result ≡ hex_digit half }
{
    DIGITS[half as usize]
}
