// The eight words that SHA-256 carries from block to block.
ghost use Rattle.std.specs.Prelude.{◌≡◌};
ghost use Rattle.sha256.specs.Rounds.{add_states, round};
ghost use Rattle.sha256.specs.Sha256.{state_bytes};

use crate::words::{big_sigma0, big_sigma1, choose, majority};

// The hash value, and the working variables of the rounds. Eight names and no array: a round moves each to another, by the standard's names.
#[derive(Debug, Clone, Copy)]
pub struct State {
    pub a: u32,
    pub b: u32,
    pub c: u32,
    pub d: u32,
    pub e: u32,
    pub f: u32,
    pub g: u32,
    pub h: u32,
}

impl State {
    // One round, with a constant and a word of the schedule.
    pub(crate) fn round(self, constant: u32, word: u32) -> State
        ensures { result ≡ round self constant word }
    {
        let t1 = self
            .h
            .wrapping_add(big_sigma1(self.e))
            .wrapping_add(choose(self.e, self.f, self.g))
            .wrapping_add(constant)
            .wrapping_add(word);
        let t2 = big_sigma0(self.a).wrapping_add(majority(self.a, self.b, self.c));
        State {
            a: t1.wrapping_add(t2),
            b: self.a,
            c: self.b,
            d: self.c,
            e: self.d.wrapping_add(t1),
            f: self.e,
            g: self.f,
            h: self.g,
        }
    }

    // The words of two states, added one by one.
    pub(crate) fn add(self, other: State) -> State
        ensures { result ≡ add_states self other }
    {
        State {
            a: self.a.wrapping_add(other.a),
            b: self.b.wrapping_add(other.b),
            c: self.c.wrapping_add(other.c),
            d: self.d.wrapping_add(other.d),
            e: self.e.wrapping_add(other.e),
            f: self.f.wrapping_add(other.f),
            g: self.g.wrapping_add(other.g),
            h: self.h.wrapping_add(other.h),
        }
    }

    // The words one after the other, high byte first.
    pub(crate) fn to_bytes(self) -> [u8; 32]
        ensures { result ≡ state_bytes self }
    {
        let words = [
            self.a, self.b, self.c, self.d, self.e, self.f, self.g, self.h,
        ];
        let mut bytes = [0; 32];
        bytes.copy_from_slice(words.map(u32::to_be_bytes).as_flattened());
        bytes
    }
}
