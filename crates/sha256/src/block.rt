// The compression of blocks.
ghost use Rattle.std.specs.Prelude.{◌≡◌, ◌<◌, ◌≤◌};
ghost use Rattle.sha256.specs.Rounds.{compress, compress_all, message_words, next_word, rounds, schedule};

use crate::state::State;
use crate::tables::round_constants;
use crate::words::{small_sigma0, small_sigma1};
use std::array;

// The state after several blocks.
pub(crate) fn compress_all(start: State, blocks: &[[u8; 64]]) -> State
    ensures { result ≡ compress_all start blocks.now }
{
    blocks.iter().fold(start, compress)
}

// The state after one block: 64 rounds, and the state before them added. They go eight at a time for speed: the compiler writes out a loop
// of eight, and then no word moves between them.
fn compress(start: State, block: &[u8; 64]) -> State
    ensures { result ≡ compress start block.now }
{
    let words = schedule(block);
    let (constants, _) = round_constants().as_chunks::<8>();
    let (words, _) = words.as_chunks::<8>();
    let state = constants.iter().zip(words).fold(
        start,
        |state, (constants, words)| eight_rounds(state, constants, words),
    );
    start.add(state)
}

// A round for each of eight constants and words.
fn eight_rounds(start: State, constants: &[u32; 8], words: &[u32; 8]) -> State
    ensures { result ≡ rounds start constants.now words.now }
{
    constants.iter().zip(words).fold(
        start,
        |state, (constant, word)| state.round(*constant, *word),
    )
}

// The 64 words of the rounds: those of the block, and 48 made from them. By place: a word comes from words before it in the same array, which
// an iterator over it would hold.
fn schedule(block: &[u8; 64]) -> [u32; 64]
    ensures { result ≡ schedule block.now }
{
    let mut words = [0u32; 64];
    words[..16].copy_from_slice(&message_words(block));
    for t in 16..64 {
        words[t] = next_word(&words, t);
    }
    words
}

// Word `t` of the schedule, from those before it.
fn next_word(words: &[u32; 64], t: usize) -> u32
    requires past_block { 16 ≤ t }
    requires in_schedule { t < 64 }
    ensures { result ≡ next_word words.now t }
{
    small_sigma1(words[t - 2])
        .wrapping_add(words[t - 7])
        .wrapping_add(small_sigma0(words[t - 15]))
        .wrapping_add(words[t - 16])
}

// The sixteen words of a block, high byte first.
fn message_words(block: &[u8; 64]) -> [u32; 16]
    ensures { result ≡ message_words block.now }
{
    let (chunks, _) = block.as_chunks::<4>();
    array::from_fn(|t| u32::from_be_bytes(chunks[t]))
}
