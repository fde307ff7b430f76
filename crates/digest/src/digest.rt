// A digest by value, and the layer that it gives a key.
ghost use Rattle.std.specs.Prelude.{◌≡◌, ◌≤◌};
ghost use Rattle.digest.specs.Layer.{digest_layer, zero_bits};

// The 32 bytes that name a block or a key.
#[derive(Debug, Clone, Copy, PartialEq, Eq, Hash)]
pub struct Digest {
    pub bytes: [u8; 32],
}

impl Digest {
    // The zero bits before the first one bit, halved and rounded down: from 0 to 128.
    pub fn layer(&self) -> usize
        ensures { result ≡ digest_layer self.now.bytes }
    {
        leading_zeros(&self.bytes) as usize / 2
    }
}

// The zero bits before the first one bit.
fn leading_zeros(bytes: &[u8; 32]) -> u32
    ensures value { result ≡ zero_bits bytes.now }
    ensures bound { result ≤ 256 }
{
    let (chunks, _) = bytes.as_chunks::<4>();
    let mut zeros = 0;
    for chunk in chunks {
        let word = u32::from_be_bytes(*chunk);
        if word != 0 {
            return zeros + word.leading_zeros();
        }
        zeros += 32;
    }
    zeros
}
