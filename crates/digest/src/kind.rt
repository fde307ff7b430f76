// What every digest kind answers. Code above this crate is written against this trait alone.
ghost use Rattle.std.specs.Prelude.{◌≡◌, ℕ};
ghost use Rattle.digest.specs.Kind.{Kind};
ghost use Rattle.digest.specs.Layer.{layer};

use crate::digest::Digest;

pub trait DigestKind {
    // What the kind means: one function, and one code byte.
    ghost kind: { Kind };

    // The code byte that names the kind in links.
    ghost CODE: { ℕ };

    const CODE: u8;

    // The digest of a message of any length.
    fn digest(message: &[u8]) -> Digest
        ensures { result.bytes ≡ kind.hash message.now };

    // The constant is the code that the kind means.
    ghost coded: { CODE ≡ kind.code };
}

// The layer of a key in the tree: that of its digest.
pub fn layer_of<K: DigestKind>(key: &[u8]) -> usize
    ensures { result ≡ layer K.DigestKind.kind key.now }
{
    K::digest(key).layer()
}
