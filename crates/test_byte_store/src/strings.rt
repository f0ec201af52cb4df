//! Byte strings: lent until they are changed.

use crate::support::{Runtime, copied, same, same_bytes};
use patch_bytes::ByteString;
use std::alloc::{AllocError, Global};

// Whether a string's bytes are lent to be changed. None are where memory is refused.
fn is_lent(alloc: Global, string: &mut ByteString<'_>) -> bool {
    string.to_mut(alloc).is_ok()
}

// Whether bytes that a string owns are lent without memory. One that cannot be copied stays as it was, and is then.
fn is_lent_twice(alloc: Global, string: &mut ByteString<'_>, bytes: &[u8]) -> bool {
    let was_owned = string.is_owned();
    let is_first = is_lent(alloc, string) || !was_owned;
    let stays = string.as_slice() == bytes;
    is_lent(alloc, string) && is_first && stays
}

fn lend(rt: &impl Runtime, string: &mut ByteString<'_>, bytes: &[u8]) {
    let is_lent = is_lent_twice(rt.alloc(), string, bytes) && string.is_owned();
    same(rt, "is lent", &is_lent, &true);
    same_bytes(rt, "lent", string.as_slice(), bytes);
}

fn push(alloc: Global, string: &mut ByteString<'_>) -> Result<(), AllocError> {
    Ok(string.to_mut(alloc)?.push(b'b')?)
}

// Puts `b` behind the bytes of a string, once more where memory was refused.
fn change(rt: &impl Runtime, string: &mut ByteString<'_>) {
    if push(rt.alloc(), string).is_err() {
        push(rt.alloc(), string).expect(rt, "memory");
    }
}

// Changes a copy of a string. One that took a copy for its first change lends it without memory, also where each further
// growth is refused.
fn change_copy(
    rt: &impl Runtime,
    copy: &mut ByteString<'_>,
    (_, bytes, changed): (bool, &[u8], &[u8]),
) {
    same_bytes(rt, "copy", copy.as_slice(), bytes);
    change(rt, copy);
    for _ in 0..2 {
        lend(rt, copy, changed);
    }
}

// Whether a string owns its bytes, the bytes, and the bytes of a changed copy of it.
type Row = (bool, &'static [u8], &'static [u8]);

const ROWS: [Row; 4] = [
    (false, b"a", b"ab"),
    (true, b"own", b"ownb"),
    (false, b"abc", b"abcb"),
    (false, b"", b"b"),
];

fn string_of(rt: &impl Runtime, row: &Row) -> ByteString<'static> {
    if row.0 {
        ByteString::owned(copied(rt, row.1))
    } else {
        ByteString::borrowed(row.1)
    }
}

// The bytes of which there is a copy stay.
fn expect(rt: &impl Runtime, string: &mut ByteString<'_>, row: &Row) {
    change_copy(rt, &mut sure!(rt; string.try_clone(rt.alloc())), *row);
    let found = (string.is_owned(), string.as_slice());
    same(rt, "string", &found, &(row.0, row.1));
    lend(rt, string, row.1);
}

fn follow(rt: &impl Runtime, row: &Row) {
    expect(rt, &mut string_of(rt, row), row);
}

#[test]
fn change_copies(rt: HostRuntime) {
    for row in &ROWS {
        follow(&rt, row);
    }
}
