// An entry of a node.
ghost use Rattle.std.specs.Prelude.{◌+◌, ◌≤◌, length};
ghost use Rattle.node.specs.Format.{entry as entry_bytes};
ghost use Rattle.node.specs.Values.{entry_of};
ghost use Rattle.node_writer.specs.Put.{Writes};

use crate::output::Output;
use digest::DigestKind;
use keys::shared_len;
use node::{Entry, MajorType};

impl Output<'_> {
    // Writes an entry after the key `before`. Each of its four fields stands behind its name.
    pub(crate) fn entry<K: DigestKind>(&mut self, before: &[u8], entry: &Entry)
        requires { self.old.at + 159 ≤ length self.old.buffer.now }
        ensures writes { Writes self.old self.new (entry_bytes K.DigestKind.kind.code before.now (entry_of entry.now)) }
        ensures bound { self.new.at ≤ self.old.at + 159 }
    {
        let key = entry.key.as_slice();
        let shared = shared_len(before, key);
        self.bytes(&[0xA4, 0x61, b'k']);
        self.string(&key[shared..]);
        self.bytes(&[0x61, b'p']);
        self.head(MajorType::Number, shared as u8);
        self.bytes(&[0x61, b't']);
        self.link_or_null::<K>(entry.after);
        self.bytes(&[0x61, b'v']);
        self.link::<K>(&entry.value);
    }
}
