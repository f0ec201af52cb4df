//! String tables of a few texts: their bytes, and where each text stands.

use crate::support::{same, table_of};

// Texts, the table's bytes, where each text stands, and texts that it tells no place of.
#[derive(Clone, Copy)]
struct Row {
    what: &'static str,
    texts: &'static [&'static [u8]],
    bytes: &'static [u8],
    places: &'static [u32],
    others: &'static [&'static [u8]],
}

static ROWS: [Row; 9] = [
    Row {
        what: "few texts",
        texts: &[],
        bytes: b"\0",
        places: &[],
        others: &[b"", b"a"],
    },
    Row {
        what: "few texts",
        texts: &[b""],
        bytes: b"\0",
        places: &[0],
        others: &[b"a", b"\0"],
    },
    Row {
        what: "few texts",
        texts: &[b"c"],
        bytes: b"\0c\0",
        places: &[1],
        others: &[b"", b"c\0"],
    },
    Row {
        what: "texts with common ends",
        texts: &[b"bc", b"abc", b"c", b""],
        bytes: b"\0abc\0",
        places: &[2, 1, 3, 4],
        others: &[b"a", b"ab", b"b", b"xbc"],
    },
    Row {
        what: "texts with common ends",
        texts: &[b"abc", b"xbc"],
        bytes: b"\0xbc\0abc\0",
        places: &[5, 1],
        others: &[b"bc", b"c", b""],
    },
    Row {
        what: "texts with common ends",
        texts: &[b"libc.so.6", b".6", b"libm.so.6", b"so.6"],
        bytes: b"\0libm.so.6\0libc.so.6\0",
        places: &[11, 18, 1, 16],
        others: &[b"libc.so", b"6"],
    },
    Row {
        what: "texts that share nothing",
        texts: &[b"ab", b"abc"],
        bytes: b"\0abc\0ab\0",
        places: &[5, 1],
        others: &[b"a", b"b"],
    },
    Row {
        what: "texts that share nothing",
        texts: &[b"abc", b"abc", b"abc"],
        bytes: b"\0abc\0",
        places: &[1, 1, 1],
        others: &[b"ab"],
    },
    Row {
        what: "texts that share nothing",
        texts: &[b"\xff", b"a\xfe"],
        bytes: b"\0\xff\0a\xfe\0",
        places: &[1, 3],
        others: &[b"\xfe", b"\x7f"],
    },
];

// Where the texts stand, the places of all that were added, in order, and that others are absent.
#[test]
fn places_texts(rt: HostRuntime) {
    for row in &ROWS {
        let table = table_of(&rt, row.texts);
        let found = (table.bytes(), table.in_order());
        same(&rt, row.what, &found, &(row.bytes, row.places));
        for (text, place) in row.texts.iter().zip(row.places) {
            same(&rt, row.what, &table.offset_of(text), &Some(*place));
        }
        for text in row.others {
            same(&rt, row.what, &table.offset_of(text), &None);
        }
    }
}
