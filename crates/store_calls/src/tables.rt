// The calls.
use crate::call::Call;

// Memory below one slot, of one slot, and of two.
pub(crate) const SIZES: [usize; 5] = [0, 10787, 10788, 21575, 21576];

// Of every size: a look-up, more pairs than one or two slots hold, and look-ups again.
pub(crate) const ANY_SIZE: [Call; 8] = [
    Call::Units,
    Call::Find {
        name: 1,
        len: 1,
        byte: 7,
        room: 10752,
    },
    Call::Put {
        name: 1,
        len: 1,
        byte: 7,
    },
    Call::Put {
        name: 2,
        len: 2,
        byte: 7,
    },
    Call::Put {
        name: 3,
        len: 0,
        byte: 7,
    },
    Call::Find {
        name: 1,
        len: 1,
        byte: 7,
        room: 10752,
    },
    Call::Find {
        name: 2,
        len: 2,
        byte: 7,
        room: 10752,
    },
    Call::Compare {
        name: 1,
        len: 1,
        byte: 7,
    },
];

// The shortest block, the longest and one that is too long, and names that are held already.
pub(crate) const THREE_PLACES: [Call; 12] = [
    Call::Units,
    Call::Find {
        name: 1,
        len: 0,
        byte: 7,
        room: 10752,
    },
    Call::Put {
        name: 1,
        len: 0,
        byte: 7,
    },
    Call::Find {
        name: 1,
        len: 0,
        byte: 7,
        room: 10760,
    },
    Call::Put {
        name: 1,
        len: 0,
        byte: 7,
    },
    Call::Put {
        name: 1,
        len: 1,
        byte: 7,
    },
    Call::Put {
        name: 2,
        len: 10752,
        byte: 7,
    },
    Call::Find {
        name: 2,
        len: 10752,
        byte: 7,
        room: 10752,
    },
    Call::Find {
        name: 2,
        len: 10752,
        byte: 7,
        room: 10760,
    },
    Call::Put {
        name: 3,
        len: 10753,
        byte: 7,
    },
    Call::Put {
        name: 2,
        len: 10753,
        byte: 7,
    },
    Call::Put {
        name: 3,
        len: 3,
        byte: 1,
    },
];

// Once no place is left.
pub(crate) const FULL: [Call; 12] = [
    Call::Put {
        name: 4,
        len: 1,
        byte: 7,
    },
    Call::Put {
        name: 4,
        len: 10753,
        byte: 7,
    },
    Call::Put {
        name: 3,
        len: 3,
        byte: 1,
    },
    Call::Put {
        name: 3,
        len: 3,
        byte: 2,
    },
    Call::Find {
        name: 3,
        len: 3,
        byte: 1,
        room: 10752,
    },
    Call::Find {
        name: 4,
        len: 1,
        byte: 7,
        room: 10752,
    },
    Call::Find {
        name: 2,
        len: 10752,
        byte: 7,
        room: 10751,
    },
    Call::Find {
        name: 4,
        len: 1,
        byte: 7,
        room: 0,
    },
    Call::Compare {
        name: 3,
        len: 3,
        byte: 1,
    },
    Call::Compare {
        name: 3,
        len: 3,
        byte: 2,
    },
    Call::Compare {
        name: 2,
        len: 10753,
        byte: 7,
    },
    Call::Compare {
        name: 4,
        len: 1,
        byte: 7,
    },
];

// Names that only the back of a draft holds.
pub(crate) const HELD_BEHIND: [Call; 8] = [
    Call::Units,
    Call::Find {
        name: 1,
        len: 0,
        byte: 7,
        room: 10752,
    },
    Call::Find {
        name: 2,
        len: 10752,
        byte: 7,
        room: 10760,
    },
    Call::Put {
        name: 3,
        len: 3,
        byte: 1,
    },
    Call::Put {
        name: 3,
        len: 3,
        byte: 2,
    },
    Call::Put {
        name: 3,
        len: 10753,
        byte: 7,
    },
    Call::Compare {
        name: 3,
        len: 3,
        byte: 1,
    },
    Call::Find {
        name: 3,
        len: 3,
        byte: 1,
        room: 10751,
    },
];

// Names that a draft lacks, up to the last place of its front.
pub(crate) const NEW_NAMES: [Call; 8] = [
    Call::Find {
        name: 4,
        len: 1,
        byte: 7,
        room: 10752,
    },
    Call::Put {
        name: 4,
        len: 1,
        byte: 7,
    },
    Call::Find {
        name: 4,
        len: 1,
        byte: 7,
        room: 10752,
    },
    Call::Put {
        name: 4,
        len: 1,
        byte: 7,
    },
    Call::Put {
        name: 4,
        len: 1,
        byte: 8,
    },
    Call::Put {
        name: 5,
        len: 10752,
        byte: 7,
    },
    Call::Put {
        name: 6,
        len: 0,
        byte: 7,
    },
    Call::Find {
        name: 6,
        len: 0,
        byte: 7,
        room: 10752,
    },
];

// What one part of a draft holds.
pub(crate) const PART: [Call; 4] = [
    Call::Units,
    Call::Find {
        name: 3,
        len: 3,
        byte: 1,
        room: 10752,
    },
    Call::Find {
        name: 4,
        len: 1,
        byte: 7,
        room: 10752,
    },
    Call::Find {
        name: 5,
        len: 10752,
        byte: 7,
        room: 10752,
    },
];

// The name of each block to copy, and the bytes of the buffer.
pub(crate) const COPIES: [(u8, usize); 5] = [
    (6, 10752),
    (3, 10751),
    (3, 10752),
    (3, 10760),
    (4, 10752),
];
