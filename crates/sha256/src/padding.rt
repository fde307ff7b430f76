// The end of a message, padded to whole blocks.
ghost use Rattle.std.specs.Prelude.{◌≡◌, ◌%◌, ◌++◌, length, take};
ghost use Rattle.sha256.specs.Padding.{LeastZeros, blocks, length_bytes, padding};
ghost use Rattle.sha256.specs.Tail.{tail_blocks};

use std::slice;

// Where the length begins in the last block.
const LENGTH_AT: usize = 56;

// The last block of a padded message, or the last two.
#[derive(Debug, Clone, Copy)]
pub(crate) enum Tail {
    One([u8; 64]),
    Two([[u8; 64]; 2]),
}

impl Tail {
    // The block, or the blocks.
    pub(crate) fn as_blocks(&self) -> &[[u8; 64]]
        ensures { result.now ≡ tail_blocks self.now }
    {
        match self {
            Tail::One(block) => slice::from_ref(block),
            Tail::Two(blocks) => blocks,
        }
    }
}

// The bytes of a message of `len` bytes that fill no block, and the padding.
pub(crate) fn pad(rest: &[u8], len: usize) -> Tail
    requires { length rest.now ≡ len % 64 }
    ensures blocks { tail_blocks result ≡ blocks (rest.now ++ padding len) }
    ensures shortest { LeastZeros len }
{
    let mut block = [0u8; 64];
    block[..rest.len()].copy_from_slice(rest);
    block[rest.len()] = 0x80;
    if rest.len() < LENGTH_AT {
        Tail::One(ended(block, len))
    } else {
        Tail::Two([block, ended([0; 64], len)])
    }
}

// A block with the length of the message at its end.
fn ended(mut block: [u8; 64], len: usize) -> [u8; 64]
    ensures { result ≡ take LENGTH_AT block ++ length_bytes len }
{
    block[LENGTH_AT..].copy_from_slice(&length_bytes(len));
    block
}

// The length of a message in bits, modulo 2^64, high byte first.
fn length_bytes(len: usize) -> [u8; 8]
    ensures { result ≡ length_bytes len }
{
    (len as u64).wrapping_mul(8).to_be_bytes()
}
