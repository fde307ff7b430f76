// SHA-256 as a digest kind.
ghost use Rattle.std.specs.Prelude.{refl};
ghost use Rattle.sha256.specs.Sha256.{sha256};

use crate::block::compress_all;
use crate::padding::pad;
use crate::tables::start_state;
use digest::{Digest, DigestKind};

#[derive(Debug, Clone, Copy)]
pub struct Sha256;

impl DigestKind for Sha256 {
    ghost kind = { sha256 };

    ghost CODE = { 0x12 };

    const CODE: u8 = 0x12;

    // Whole blocks are compressed where they lie; only the rest is copied, to be padded.
    fn digest(message: &[u8]) -> Digest {
        let (blocks, rest) = message.as_chunks::<64>();
        let state = compress_all(start_state(), blocks);
        let tail = pad(rest, message.len());
        let last = tail.as_blocks();
        Digest {
            bytes: compress_all(state, last).to_bytes(),
        }
    }

    ghost coded = { refl };
}
