// Fold, the digest kind for tests: each byte of the digest sums every 32nd byte of the message.
ghost use Rattle.std.specs.Prelude.{refl};
ghost use Rattle.digest.specs.Fold.{fold};

use crate::digest::Digest;
use crate::kind::DigestKind;

#[derive(Debug, Clone, Copy)]
pub struct Fold;

impl DigestKind for Fold {
    ghost kind = { fold };

    ghost CODE = { 0x00 };

    const CODE: u8 = 0x00;

    fn digest(message: &[u8]) -> Digest {
        let mut sums = [0u8; 32];
        for (position, byte) in message.iter().enumerate() {
            let i = position % 32;
            sums[i] = sums[i].wrapping_add(*byte);
        }
        Digest { bytes: sums }
    }

    ghost coded = { refl };
}
