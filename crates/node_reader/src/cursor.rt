// Where the entries of a node go on.
use keys::Key;

// The place of the next entry, how many are to come, and the key before it.
#[derive(Debug, Clone, Copy)]
pub struct Cursor {
    pub(crate) at: usize,
    pub(crate) left: usize,
    pub(crate) last: Option<Key>,
}
