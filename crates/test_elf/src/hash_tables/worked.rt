//! Tables whose bytes were laid out by hand. `g` stands in the even bucket of two by both hashes' tables.

use super::built::{BIG_32, Kind, LITTLE_64, Source, gnu_order, table};
use crate::support::{fitting, same};
use elf_hashes::GnuSizes;

// No name, `f`, `g`.
const TEXTS: &[u8] = b"\0f\0g\0";

// Symbol 0, and `f` and `g`, which are global functions of section 5.
const WIDE: &[u8] = b"\0\0\0\0\0\0\0\0\0\0\0\0\0\0\0\0\0\0\0\0\0\0\0\0\
    \x01\0\0\0\x12\0\x05\0\0\0\0\0\0\0\0\0\0\0\0\0\0\0\0\0\
    \x03\0\0\0\x12\0\x05\0\0\0\0\0\0\0\0\0\0\0\0\0\0\0\0\0";

// Symbol 0, `f` and `g`, as global functions but for `f`, which is weak, in a 32-bit file of the
// other byte order.
const NARROW: &[u8] = b"\0\0\0\0\0\0\0\0\0\0\0\0\0\0\0\0\
    \0\0\0\x01\0\0\0\0\0\0\0\0\x22\0\0\x05\
    \0\0\0\x03\0\0\0\0\0\0\0\0\x12\0\0\x05";

// Symbol 0; `f`, weak; `g`, defined elsewhere; `f`, local; `g`; `f`, defined elsewhere.
const MIXED: &[u8] = b"\0\0\0\0\0\0\0\0\0\0\0\0\0\0\0\0\
    \0\0\0\x01\0\0\0\0\0\0\0\0\x22\0\0\x05\
    \0\0\0\x03\0\0\0\0\0\0\0\0\x12\0\0\0\
    \0\0\0\x01\0\0\0\0\0\0\0\0\x02\0\0\x05\
    \0\0\0\x03\0\0\0\0\0\0\0\0\x12\0\0\x05\
    \0\0\0\x01\0\0\0\0\0\0\0\0\x12\0\0\0";

const TWO: GnuSizes = GnuSizes {
    buckets: 2,
    filter_words: 1,
    filter_shift: 6,
};

const ONE: GnuSizes = GnuSizes {
    buckets: 1,
    filter_words: 1,
    filter_shift: 6,
};

// Symbol 0, `f` and `g` in a 64-bit file, without versions.
const TWO_SYMBOLS: Source<'static> = Source {
    form: LITTLE_64,
    texts: TEXTS,
    records: WIDE,
    versions: None,
};

const TWO_NARROW: Source<'static> = Source {
    form: BIG_32,
    texts: TEXTS,
    records: NARROW,
    versions: None,
};

const SIX_MIXED: Source<'static> = Source {
    form: BIG_32,
    texts: TEXTS,
    records: MIXED,
    versions: None,
};

const NONE: Source<'static> = Source {
    form: BIG_32,
    texts: TEXTS,
    records: b"",
    versions: None,
};

// Symbol 0 and two symbols of the empty name, with versions.
const LITTLE_VERSIONS: Source<'static> = Source {
    form: LITTLE_64,
    texts: b"\0",
    records: &[0; 72],
    versions: Some(b"\0\0\x02\x80\x01\0"),
};

const BIG_VERSIONS: Source<'static> = Source {
    form: BIG_32,
    texts: b"\0",
    records: &[0; 48],
    versions: Some(b"\0\0\x80\x02\0\x01"),
};

// Orders that a GNU table of so many buckets asks for.
type Order = (&'static str, Source<'static>, u32, &'static [usize]);

static ORDERS: [Order; 3] = [
    ("order of two", TWO_SYMBOLS, 2, &[0, 2, 1]),
    ("order of mixed", SIX_MIXED, 1, &[0, 3, 2, 5, 1, 4]),
    ("order of no symbol", NONE, 3, &[]),
];

#[test]
fn orders_symbols(rt: HostRuntime) {
    for (what, source, buckets, want) in &ORDERS {
        let found = sure!(&rt; fitting(gnu_order(rt.alloc(), source, *buckets)));
        same(&rt, what, &found.as_deref(), &Some(*want));
    }
}

// A table of symbols in an order, and its bytes.
struct Row {
    what: &'static str,
    source: Source<'static>,
    order: &'static [usize],
    kind: Kind,
    want: &'static [u8],
}

static TABLES: [Row; 9] = [
    Row {
        what: "gABI table of two",
        source: TWO_SYMBOLS,
        order: &[0, 2, 1],
        kind: Kind::Gabi(2),
        want: b"\x02\0\0\0\x03\0\0\0\x02\0\0\0\x01\0\0\0\0\0\0\0\0\0\0\0\0\0\0\0",
    },
    Row {
        what: "gABI table as they stand",
        source: TWO_NARROW,
        order: &[0, 1, 2],
        kind: Kind::Gabi(2),
        want: b"\0\0\0\x02\0\0\0\x03\0\0\0\x01\0\0\0\x02\0\0\0\0\0\0\0\0\0\0\0\0",
    },
    Row {
        what: "GNU table of two",
        source: TWO_SYMBOLS,
        order: &[0, 2, 1],
        kind: Kind::Gnu(TWO),
        want: b"\x02\0\0\0\x01\0\0\0\x01\0\0\0\x06\0\0\0\0\x18\0\x01\0\0\0\0\
        \x01\0\0\0\x02\0\0\0\x0d\xb6\x02\0\x0b\xb6\x02\0",
    },
    Row {
        what: "GNU table of one bucket",
        source: TWO_NARROW,
        order: &[0, 1, 2],
        kind: Kind::Gnu(ONE),
        want: b"\0\0\0\x01\0\0\0\x01\0\0\0\x01\0\0\0\x06\x01\0\x18\0\
        \0\0\0\x01\0\x02\xb6\x0a\0\x02\xb6\x0d",
    },
    Row {
        what: "GNU table of mixed",
        source: SIX_MIXED,
        order: &[0, 3, 2, 5, 1, 4],
        kind: Kind::Gnu(ONE),
        want: b"\0\0\0\x01\0\0\0\x04\0\0\0\x01\0\0\0\x06\x01\0\x18\0\
        \0\0\0\x04\0\x02\xb6\x0a\0\x02\xb6\x0d",
    },
    // The bucket's first symbol and the first symbol are numbers of none.
    Row {
        what: "GNU table of none",
        source: SIX_MIXED,
        order: &[4, 3, 2],
        kind: Kind::Gnu(ONE),
        want: b"\0\0\0\x01\0\0\0\x03\0\0\0\x01\0\0\0\x06\0\0\0\0\0\0\0\0",
    },
    Row {
        what: "gABI table of no symbol",
        source: NONE,
        order: &[],
        kind: Kind::Gabi(1),
        want: b"\0\0\0\x01\0\0\0\0\0\0\0\0",
    },
    Row {
        what: "versions, little",
        source: LITTLE_VERSIONS,
        order: &[0, 2, 1],
        kind: Kind::Versions,
        want: b"\0\0\x01\0\x02\x80",
    },
    Row {
        what: "versions, big",
        source: BIG_VERSIONS,
        order: &[0, 1],
        kind: Kind::Versions,
        want: b"\0\0\x80\x02",
    },
];

#[test]
fn spells_tables(rt: HostRuntime) {
    for row in &TABLES {
        let found = sure!(&rt; fitting(table(rt.alloc(), &row.source, row.order, row.kind)));
        same(&rt, row.what, &found.as_deref(), &Some(row.want));
    }
}
