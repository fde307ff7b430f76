// The parts that entries and nodes are made of, written one after the other.
ghost use Rattle.std.specs.Prelude.{◌+◌, ◌≤◌, length};
ghost use Rattle.node.specs.Format.{head, byte_string, link, link_or_null};
ghost use Rattle.node.specs.Major.{major_base};
ghost use Rattle.node.specs.Values.{link_of};
ghost use Rattle.node_writer.specs.Put.{Writes};

use digest::{Digest, DigestKind};
use node::{FIRST_LARGE, IN_NEXT, MajorType, NULL, link_prefix};

// A buffer of the caller, and the place where the next byte goes.
#[derive(Drop)]
pub struct Output<'a> {
    pub(crate) buffer: &'a mut [u8],
    pub(crate) at: usize,
}

impl Output<'_> {
    // Writes `bytes` as they are.
    pub(crate) fn bytes(&mut self, bytes: &[u8])
        requires { self.old.at + length bytes.now ≤ length self.old.buffer.now }
        ensures { Writes self.old self.new bytes.now }
    {
        let end = self.at + bytes.len();
        self.buffer[self.at..end].copy_from_slice(bytes);
        self.at = end;
    }

    // Writes a number behind the type of item that it belongs to.
    pub(crate) fn head(&mut self, major: MajorType, n: u8)
        requires { self.old.at + 2 ≤ length self.old.buffer.now }
        ensures writes { Writes self.old self.new (head (major_base major) n) }
        ensures bound { self.new.at ≤ self.old.at + 2 }
    {
        if n < FIRST_LARGE {
            self.bytes(&[major.base() + n]);
        } else {
            self.bytes(&[major.base() + IN_NEXT, n]);
        }
    }

    // Writes a byte string behind its length.
    pub(crate) fn string(&mut self, string: &[u8])
        requires room { self.old.at + 2 + length string.now ≤ length self.old.buffer.now }
        requires short { length string.now ≤ 64 }
        ensures writes { Writes self.old self.new (byte_string string.now) }
        ensures bound { self.new.at ≤ self.old.at + 2 + length string.now }
    {
        self.head(MajorType::Bytes, string.len() as u8);
        self.bytes(string);
    }

    // Writes a link to the block of this digest, under the code of its kind.
    pub(crate) fn link<K: DigestKind>(&mut self, to: &Digest)
        requires { self.old.at + 41 ≤ length self.old.buffer.now }
        ensures writes { Writes self.old self.new (link K.DigestKind.kind.code to.now.bytes) }
        ensures bound { self.new.at ≤ self.old.at + 41 }
    {
        self.bytes(&link_prefix(K::CODE));
        self.bytes(&to.bytes);
    }

    // Writes a link, or null where there is none.
    pub(crate) fn link_or_null<K: DigestKind>(&mut self, to: Option<Digest>)
        requires { self.old.at + 41 ≤ length self.old.buffer.now }
        ensures writes { Writes self.old self.new (link_or_null K.DigestKind.kind.code (link_of to)) }
        ensures bound { self.new.at ≤ self.old.at + 41 }
    {
        match to {
            None => self.bytes(&[NULL]),
            Some(digest) => self.link::<K>(&digest),
        }
    }
}
