//! Blocks, and which of them move, worked out by hand.

use crate::blocks::plain::is_ordered;
use crate::blocks::walk::moved;
use crate::support::same;
use elf_layout_plan::Block;

// Blocks in their order, and which of them move, unless they are refused.
type Row = (&'static str, &'static [Block], Option<&'static [bool]>);

// Blocks, each by its start, its size and its priority.
macro_rules! blocks {
    ($(($start:expr, $size:expr, $priority:expr)),*) => {
        &[$(Block { start: $start, size: $size, priority: $priority }),*]
    };
}

static ROWS: [Row; 22] = [
    (
        "apart",
        blocks![(0, 10, 0), (10, 5, 0)],
        Some(&[false, false]),
    ),
    ("one over", blocks![(0, 11, 0), (10, 5, 0)], None),
    (
        "one start",
        blocks![(10, 0, 0), (10, 5, 0)],
        Some(&[false, false]),
    ),
    ("one start, stuck", blocks![(10, 1, 0), (10, 5, 0)], None),
    (
        "one start, moved",
        blocks![(10, 5, 2), (10, 5, 2)],
        Some(&[true, false]),
    ),
    ("empty within, stuck", blocks![(0, 10, 0), (5, 0, 0)], None),
    (
        "empty within, moved",
        blocks![(0, 10, 1), (5, 0, 0)],
        Some(&[true, false]),
    ),
    (
        "later moves more readily",
        blocks![(0, 10, 1), (5, 10, 2)],
        Some(&[false, true]),
    ),
    (
        "earlier moves more readily",
        blocks![(0, 10, 2), (5, 10, 1)],
        Some(&[true, false]),
    ),
    (
        "both move as readily",
        blocks![(0, 10, 1), (5, 10, 1)],
        Some(&[true, false]),
    ),
    (
        "later moves alone",
        blocks![(0, 10, 0), (5, 10, 1)],
        Some(&[false, true]),
    ),
    (
        "end past 64 bits",
        blocks![(8, u64::MAX, 0), (u64::MAX, 1, 0)],
        None,
    ),
    (
        "end at 64 bits",
        blocks![(0, u64::MAX, 0), (u64::MAX, u64::MAX, 0)],
        Some(&[false, false]),
    ),
    (
        "later ones move out of a long one",
        blocks![(0, 100, 0), (10, 5, 2), (50, 10, 2)],
        Some(&[false, true, true]),
    ),
    (
        "a long one moves alone",
        blocks![(0, 100, 2), (10, 5, 2), (50, 10, 2)],
        Some(&[true, false, false]),
    ),
    (
        "two are stuck behind one that moves",
        blocks![(0, 100, 2), (10, 5, 0), (12, 4, 0)],
        None,
    ),
    (
        "two are stuck with one between that moves",
        blocks![(0, 100, 0), (10, 5, 2), (50, 10, 0)],
        None,
    ),
    (
        "one that moves gives room",
        blocks![(0, 20, 1), (10, 20, 2), (25, 5, 1)],
        Some(&[false, true, false]),
    ),
    (
        "one stays that would move against one that moved",
        blocks![(0, 20, 0), (10, 20, 1), (25, 5, 2)],
        Some(&[false, true, false]),
    ),
    (
        "one moves against one that moves",
        blocks![(0, 15, 2), (10, 30, 2), (20, 5, 0)],
        Some(&[true, true, false]),
    ),
    ("none", blocks![], Some(&[])),
    ("one", blocks![(7, 9, 0)], Some(&[false])),
];

#[test]
fn walks_over_rows(rt: HostRuntime) {
    for (what, blocks, want) in &ROWS {
        assert!(rt; is_ordered(blocks), "{what}: the order of blocks");
        let found = sure!(&rt; moved(rt.alloc(), blocks));
        same(&rt, what, &found.as_deref(), want);
    }
}
