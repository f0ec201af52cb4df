//! String tables that are copied: which texts are placed at which offsets.

use crate::support::{same, table_of};
use elf_tables::Finished;
use std::process::Abort;

// A text, an offset, whether it is placed there, and where it is once all are.
type Row = (&'static [u8], u32, bool, Option<u32>);

// Places a text. Where there is no memory, the table tells what it told before.
fn place(rt: &impl Abort, table: &mut Finished<'static>, text: &'static [u8], offset: u32) -> bool {
    let had = table.offset_of(text);
    match table.place(text, offset) {
        Ok(is_placed) => is_placed,
        Err(_) => {
            same(rt, "after a refusal", &table.offset_of(text), &had);
            table.place(text, offset).expect(rt, "refused memory twice")
        }
    }
}

// No text is placed yet, or all are.
fn compare(rt: &impl Abort, what: &str, table: &Finished<'static>, rows: &[Row], are_placed: bool) {
    for (text, _, _, place) in rows {
        let want = if are_placed { *place } else { None };
        same(rt, what, &(*text, table.offset_of(text)), &(*text, want));
    }
}

// Each text is placed, or isn't, and the places of the others stay.
fn follow(rt: &impl Abort, what: &str, table: &mut Finished<'static>, rows: &[Row]) {
    compare(rt, what, table, rows, false);
    for (text, offset, is_placed, _) in rows {
        let found = place(rt, table, text, *offset);
        same(rt, what, &(*text, found), &(*text, *is_placed));
    }
    compare(rt, what, table, rows, true);
}

// The bytes of tables, and texts in them.
static TABLES: [(&str, &[u8], &[Row]); 7] = [
    (
        "texts of a table",
        b"\0libc.so.6\0libm.so.6\0",
        &[
            (b"libc.so.6", 1, true, Some(1)),
            (b"libm.so.6", 11, true, Some(11)),
            (b"", 10, true, Some(10)),
            (b".6", 8, true, Some(8)),
            (b"so.6", 16, true, Some(16)),
            (b"6", 19, true, Some(19)),
        ],
    ),
    (
        "wrong offsets",
        b"\0libc.so.6\0",
        &[
            (b"libc.so.6", 2, false, None),
            (b"libc", 1, false, None),
            (b"lib", 0, false, None),
            (b"libc.so.6\xff", 1, false, None),
            (b"", 1, false, None),
        ],
    ),
    // The bytes are there, each time with a NUL behind them.
    (
        "texts with a NUL",
        b"\0\0ab\0c\0",
        &[
            (b"\0", 0, false, None),
            (b"\0ab", 1, false, None),
            (b"ab\0c", 2, false, None),
            (b"ab", 2, true, Some(2)),
        ],
    ),
    (
        "offsets past the end",
        b"\0a\0",
        &[
            (b"a", 3, false, None),
            (b"", 3, false, None),
            (b"ab", 4, false, None),
            (b"abc", 0xffff_ffff, false, None),
        ],
    ),
    (
        "no NUL at the end",
        b"\0ab",
        &[
            (b"ab", 1, false, None),
            (b"b", 2, false, None),
            (b"abc", 1, false, None),
            (b"", 0, true, Some(0)),
        ],
    ),
    // The offset that was given last.
    (
        "a text placed twice",
        b"\0a\0",
        &[(b"", 0, true, Some(2)), (b"", 2, true, Some(2))],
    ),
    (
        "no byte",
        b"",
        &[(b"", 0, false, None), (b"a", 0, false, None)],
    ),
];

#[test]
fn places_texts(rt: HostRuntime) {
    for (what, bytes, rows) in &TABLES {
        let copy = sure!(&rt; Vec::from_slice(rt.alloc(), bytes));
        let mut table = Finished::copied(copy, rt.alloc());
        follow(&rt, what, &mut table, rows);
        same(&rt, what, &table.bytes(), bytes);
    }
}

// Where `bc` and `abc` are placed, and where the third text stands.
type Places = (Option<u32>, Option<u32>, Option<u32>);

fn places(table: &Finished<'static>) -> Places {
    (
        table.offset_of(b"bc"),
        table.offset_of(b"abc"),
        table.in_order().get(2).copied(),
    )
}

// An offset, whether `bc` is placed there, and the places then.
static PLACED: [(u32, bool, Places); 2] = [
    (3, false, (Some(6), Some(5), Some(6))),
    (2, true, (Some(2), Some(5), Some(6))),
];

// A text of a table that was made is placed where it stands a second time. Other texts, and what was added, stay.
#[test]
fn placed_in_a_table_that_was_made(rt: HostRuntime) {
    let mut table = table_of(&rt, &[b"abc", b"xbc", b"bc"]);
    let want = (b"\0xbc\0abc\0".as_slice(), (Some(6), Some(5), Some(6)));
    same(&rt, "before", &(table.bytes(), places(&table)), &want);
    for (offset, is_placed, want) in &PLACED {
        let found = place(&rt, &mut table, b"bc", *offset);
        same(&rt, "after", &(found, places(&table)), &(*is_placed, *want));
    }
}
