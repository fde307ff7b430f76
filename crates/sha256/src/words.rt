// The operations of SHA-256 on words.
ghost use Rattle.std.specs.Prelude.{◌≡◌, ◌<◌};
ghost use Rattle.sha256.specs.Words.{ch, maj, rotations, rotations_and_shift, Σ₀, Σ₁, σ₀, σ₁};

// The bits of `y` where `x` has a one, and of `z` where it has a zero.
pub(crate) fn choose(x: u32, y: u32, z: u32) -> u32
    ensures { result ≡ ch x y z }
{
    (x & y) ^ (!x & z)
}

// The bits that two of the three have.
pub(crate) fn majority(x: u32, y: u32, z: u32) -> u32
    ensures { result ≡ maj x y z }
{
    (x & y) ^ (x & z) ^ (y & z)
}

pub(crate) fn big_sigma0(x: u32) -> u32
    ensures { result ≡ Σ₀ x }
{
    rotations::<2, 13, 22>(x)
}

pub(crate) fn big_sigma1(x: u32) -> u32
    ensures { result ≡ Σ₁ x }
{
    rotations::<6, 11, 25>(x)
}

pub(crate) fn small_sigma0(x: u32) -> u32
    ensures { result ≡ σ₀ x }
{
    rotations_and_shift::<7, 18, 3>(x)
}

pub(crate) fn small_sigma1(x: u32) -> u32
    ensures { result ≡ σ₁ x }
{
    rotations_and_shift::<17, 19, 10>(x)
}

// The sum, bit by bit, of three rotations to the right.
fn rotations<const A: u32, const B: u32, const C: u32>(x: u32) -> u32
    requires some { (0 < A) × (0 < B) × (0 < C) }
    requires below { (A < 32) × (B < 32) × (C < 32) }
    ensures { result ≡ rotations A B C x }
{
    x.rotate_right(A) ^ x.rotate_right(B) ^ x.rotate_right(C)
}

// The sum, bit by bit, of two rotations and a shift to the right.
fn rotations_and_shift<const A: u32, const B: u32, const C: u32>(x: u32) -> u32
    requires some { (0 < A) × (0 < B) }
    requires below { (A < 32) × (B < 32) × (C < 32) }
    ensures { result ≡ rotations_and_shift A B C x }
{
    x.rotate_right(A) ^ x.rotate_right(B) ^ (x >> C)
}
