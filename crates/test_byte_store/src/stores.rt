//! Stores that follow plans: each of their calls fails in turn.

use crate::plans::{Composition, Group, Row, Task, follow, follow_each};
use crate::support::Runtime;
use byte_store::{Piece, Span};

const OLD: &[u8] = b"abcdef";

// The growth is written first, then the block in which both differ. Each write fails in turn.
const LONGER: Group = Group {
    what: "longer",
    old: OLD,
    task: Task::Replace(b"aXcdYfgh"),
    stays_closed: false,
    rows: &[
        ((0, 1, 0, false), "old", b"abcdef", 1, 1),
        ((1, 1, 0, false), "old", b"abcdef", 2, 1),
        ((1, 1, 0, true), "longer", b"abcdefg", 2, 2),
        ((2, 1, 0, false), "torn", b"abcdefgh", 3, 1),
        ((3, 1, 0, false), "torn", b"abcdefgh", 4, 1),
        ((4, 1, 0, false), "torn", b"aXcdefgh", 5, 1),
        ((5, 1, 0, false), "torn", b"aXcdefgh", 6, 1),
        ((6, 1, 0, false), "torn", b"aXcdefgh", 7, 1),
        ((7, 1, 0, false), "torn", b"aXcdYfgh", 8, 1),
        ((8, 1, 0, false), "done", b"aXcdYfgh", 8, 0),
        ((2, 9, 0, true), "done", b"aXcdYfgh", 2, 0),
    ],
};

const GROWN: Group = Group {
    what: "grown",
    old: OLD,
    task: Task::Replace(b"abcdefgh"),
    stays_closed: false,
    rows: &[((1, 9, 0, true), "done", b"abcdefgh", 1, 0)],
};

// The store is cut last.
const SHORTER: Group = Group {
    what: "shorter",
    old: OLD,
    task: Task::Replace(b"aXc"),
    stays_closed: false,
    rows: &[
        ((0, 1, 0, false), "torn", b"abcdef", 1, 1),
        ((1, 1, 0, false), "torn", b"abcdef", 2, 1),
        ((2, 1, 0, false), "torn", b"aXcdef", 3, 1),
        ((9, 9, 0, true), "torn", b"aXcdef", 1, 1),
        ((9, 9, 0, false), "done", b"aXc", 1, 0),
    ],
};

const CUT: Group = Group {
    what: "cut",
    old: OLD,
    task: Task::Replace(b"abc"),
    stays_closed: false,
    rows: &[
        ((0, 9, 0, true), "torn", b"abcdef", 0, 1),
        ((0, 9, 0, false), "done", b"abc", 0, 0),
    ],
};

// A store that can't be opened for writing.
const SHUT: Group = Group {
    what: "shut",
    old: OLD,
    task: Task::Replace(b"aXcdYfgh"),
    stays_closed: true,
    rows: &[((9, 9, 0, false), "old", b"abcdef", 0, 1)],
};

// Bytes that are the same need no store that can be opened.
const SAME: Group = Group {
    what: "same",
    old: OLD,
    task: Task::Replace(OLD),
    stays_closed: true,
    rows: &[((9, 9, 0, false), "done", b"abcdef", 0, 0)],
};

const XY_AND_Z: &[Piece<'static>] = &[
    Piece {
        offset: 4,
        bytes: b"XY",
    },
    Piece {
        offset: 1,
        bytes: b"Z",
    },
];

// One byte is written at a time: `gh` behind the end, then the pieces.
const EACH_FAILS: Group = Group {
    what: "each fails",
    old: OLD,
    task: Task::Change(b"gh", XY_AND_Z, 8),
    stays_closed: false,
    rows: &[
        ((0, 1, 0, false), "old", b"abcdef", 1, 1),
        ((1, 1, 0, false), "old", b"abcdef", 2, 1),
        ((1, 1, 0, true), "longer", b"abcdefg", 2, 2),
        ((2, 1, 0, false), "torn", b"abcdefgh", 3, 1),
        ((3, 1, 0, false), "torn", b"abcdXfgh", 4, 1),
        ((4, 1, 0, false), "torn", b"abcdXYgh", 5, 1),
        ((5, 1, 0, false), "done", b"aZcdXYgh", 5, 0),
        ((5, 9, 1000, false), "done", b"aZcdXYgh", 3, 3000),
        ((5, 9, 1001, false), "old", b"abcdef", 0, 1001),
        ((5, 0, 0, false), "old", b"abcdef", 1, 1),
    ],
};

// A shorter length comes last.
const CUT_LAST: Group = Group {
    what: "cut last",
    old: OLD,
    task: Task::Change(b"", XY_AND_Z, 3),
    stays_closed: false,
    rows: &[
        ((1, 1, 0, false), "torn", b"abcdXf", 2, 1),
        ((9, 9, 0, true), "torn", b"aZcdXY", 2, 1),
        ((9, 9, 0, false), "done", b"aZc", 2, 0),
    ],
};

const NOTHING: Group = Group {
    what: "nothing",
    old: OLD,
    task: Task::Change(b"", &[], 6),
    stays_closed: false,
    rows: &[((0, 9, 0, true), "done", b"abcdef", 0, 0)],
};

// Each interruption counts, an answer of no byte, and what comes after the first error.
const FAILURES: Group = Group {
    what: "failures",
    old: OLD,
    task: Task::Change(
        b"gh",
        &[Piece {
            offset: 4,
            bytes: b"XY",
        }],
        8,
    ),
    stays_closed: false,
    rows: &[
        ((9, 9, 0, false), "done", b"abcdXYgh", 2, 0),
        ((1, 9, 0, false), "torn", b"abcdefgh", 2, 1),
        ((0, 9, 0, true), "longer", b"abcdef", 1, 2),
        ((9, 9, 5, false), "done", b"abcdXYgh", 2, 10),
        ((9, 9, 1001, false), "old", b"abcdef", 0, 1001),
        ((9, 0, 0, false), "old", b"abcdef", 1, 1),
    ],
};

const SOURCE: &[u8] = b"abcdefghij";

// Two spans are kept, the second of which comes first, and one is cleared. A piece changes the source, another is what
// it has there, and a third lies behind its end.
const LONGER_COMPOSED: Group = Group {
    what: "longer composed",
    old: SOURCE,
    task: Task::Compose(Composition {
        size: 14,
        kept: &[Span { start: 6, end: 9 }, Span { start: 0, end: 4 }],
        cleared: &[Span { start: 1, end: 2 }, Span { start: 3, end: 4 }],
        pieces: &[
            Piece {
                offset: 3,
                bytes: b"XY",
            },
            Piece {
                offset: 7,
                bytes: b"h",
            },
            Piece {
                offset: 9,
                bytes: b"jkZ",
            },
        ],
    }),
    stays_closed: false,
    rows: &[((99, 12_288, 0, false), "done", b"a\0cXY\0ghijkZ\0\0", 4, 0)],
};

// The store is cut, and what is cut off is not written.
const SHORTER_COMPOSED: Group = Group {
    what: "shorter composed",
    old: SOURCE,
    task: Task::Compose(Composition {
        size: 7,
        kept: &[Span { start: 0, end: 9 }],
        cleared: &[Span { start: 1, end: 3 }, Span { start: 6, end: 9 }],
        pieces: &[Piece {
            offset: 3,
            bytes: b"XY",
        }],
    }),
    stays_closed: false,
    rows: &[((99, 12_288, 0, false), "done", b"a\0\0XYf\0", 3, 0)],
};

// Bytes that are the same need no store that can be opened.
const SAME_COMPOSED: Group = Group {
    what: "same composed",
    old: SOURCE,
    task: Task::Compose(Composition {
        size: 10,
        kept: &[Span { start: 0, end: 4 }, Span { start: 3, end: 10 }],
        cleared: &[Span { start: 2, end: 6 }],
        pieces: &[Piece {
            offset: 2,
            bytes: b"cdef",
        }],
    }),
    stays_closed: true,
    rows: &[((9, 9, 0, false), "done", b"abcdefghij", 0, 0)],
};

const GROUPS: [&Group; 13] = [
    &LONGER,
    &GROWN,
    &SHORTER,
    &CUT,
    &SHUT,
    &SAME,
    &EACH_FAILS,
    &CUT_LAST,
    &NOTHING,
    &FAILURES,
    &LONGER_COMPOSED,
    &SHORTER_COMPOSED,
    &SAME_COMPOSED,
];

// (A table is kept in the frame of the test that names it, so the loop stands apart.)
fn follow_groups(rt: &impl Runtime, groups: &[&Group]) {
    for group in groups {
        follow_each(rt, group);
    }
}

#[test]
fn follow_plans(rt: HostRuntime) {
    follow_groups(&rt, &GROUPS);
}

// Two positions, how many bytes a write takes, and how many writes there are.
const MARKS: [(usize, usize, usize, usize); 15] = [
    // One block is written, and no byte around it: by one write of as many bytes, or by two of half as many.
    (0, 0, 4_096, 1),
    (0, 0, 2_048, 2),
    (4_095, 4_095, 4_096, 1),
    (4_095, 4_095, 2_048, 2),
    (4_096, 4_096, 4_096, 1),
    (4_096, 4_096, 2_048, 2),
    (8_191, 8_191, 4_096, 1),
    (8_191, 8_191, 2_048, 2),
    (8_192, 8_192, 4_096, 1),
    (8_192, 8_192, 2_048, 2),
    (12_287, 12_287, 4_096, 1),
    (12_287, 12_287, 2_048, 2),
    // Blocks beside each other are one write, and others are not.
    (0, 5_000, 12_288, 1),
    (5_000, 9_000, 12_288, 1),
    (0, 9_000, 12_288, 2),
];

// Puts ones at two positions of a store of three blocks of zeros.
fn mark(rt: &impl Runtime, (first, second, takes, writes): (usize, usize, usize, usize)) {
    let mut new = [0; 12_288];
    new[first % 12_288] = 1;
    new[second % 12_288] = 1;
    let row: Row<'_> = ((9, takes, 0, true), "done", &new, writes, 0);
    follow(rt, &[0; 12_288], Task::Replace(&new), false, &row);
}

#[test]
fn bytes_of_three_blocks(rt: HostRuntime) {
    for marks in &MARKS {
        mark(&rt, *marks);
    }
}

// A hundred ones, zeros, and a thousand ones of three blocks of ones.
const ENDS: Composition = Composition {
    size: 12_000,
    kept: &[
        Span { start: 0, end: 100 },
        Span {
            start: 11_000,
            end: 20_000,
        },
    ],
    cleared: &[],
    pieces: &[],
};

// Zeros are written by the block, where nothing is kept.
#[test]
fn zeros_in_blocks(rt: HostRuntime) {
    let mut want = [1; 12_000];
    want[100..11_000].fill(0);
    let row: Row<'_> = ((99, 12_288, 0, false), "done", &want, 3, 0);
    follow(&rt, &[1; 12_288], Task::Compose(ENDS), false, &row);
}
