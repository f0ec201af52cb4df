//! Pages that don't fit, and slots that are made anew.

use super::file::{FITTING, SIGNED, SIZE, START};
use super::{What, shown};
use crate::support::{Runtime, put, same};
use macho_signatures::{ByteRange, HashKind, SignatureFault, read_signature};
use std::alloc::Global;

// The hashes of "x567".
const NEW_SHA1: &[u8] =
    b"\x6d\xd3\xfe\x38\xa0\x73\x47\xb9\x95\xd2\x71\x09\x16\x69\xd5\xd0\xea\x14\x63\x09";

const NEW_SHA256: &[u8] = b"\xaf\x69\x0b\xea\x6b\xd4\xa8\x4f\x04\x49\xa0\x9f\x6f\xe1\x44\xdb\
\x40\x65\x7f\x33\x7e\xc5\x79\x49\x23\xbb\x1d\x65\xc4\x04\xc3\x1f";

// Where the slots of page 0 stand in the file.
const SHA1_SLOTS: usize = 12 + 36 + 66;

const SHA256_SLOTS: usize = 12 + 162 + 78;

// Makes the slots of touched pages anew.
fn renew(alloc: Global, bytes: &mut [u8], begin: usize, end: usize) -> Result<(), SignatureFault> {
    let found = read_signature(alloc, bytes, START, SIZE)?;
    found.renew(alloc, bytes, &[ByteRange { begin, end }])?;
    Ok(())
}

const ALL: &str = "([UnfitPage { directory: 0, page: 0 }, UnfitPage { directory: 0, page: 1 }, \
UnfitPage { directory: 0, page: 2 }, UnfitPage { directory: 1, page: 0 }, \
UnfitPage { directory: 1, page: 1 }, UnfitPage { directory: 1, page: 2 }], false)";

const SECOND: &str =
    "([UnfitPage { directory: 0, page: 1 }, UnfitPage { directory: 1, page: 1 }], false)";

// The fitting file with other bytes on its second page, and the hashes of that page.
fn touched(sha1: &[u8], sha256: &[u8]) -> [u8; 378] {
    let mut bytes = *FITTING;
    put(&mut bytes, 4, b"x");
    put(&mut bytes, SHA1_SLOTS + 20, sha1);
    put(&mut bytes, SHA256_SLOTS + 32, sha256);
    bytes
}

// Compares the pages that don't fit in a file, and all its bytes after slots are made anew where these bytes are
// touched.
fn expect_renewed(
    rt: &impl Runtime,
    file: &[u8; 378],
    touched: (usize, usize),
    pages: &str,
    want: &[u8; 378],
) {
    let mut bytes = *file;
    tells!(rt; "pages"; shown(rt.alloc(), &bytes, START, SIZE, What::Pages); pages);
    sure!(rt; renew(rt.alloc(), &mut bytes, touched.0, touched.1));
    same(rt, "bytes", &bytes.as_slice(), &want.as_slice());
    tells!(rt; "pages"; shown(rt.alloc(), &bytes, START, SIZE, What::Pages); "([], true)");
}

// All slots, and those of the second page, and no other byte.
#[test]
fn renews_slots(rt: HostRuntime) {
    expect_renewed(&rt, SIGNED, (0, usize::MAX), ALL, FITTING);
    let old = touched(&[], &[]);
    let new = touched(NEW_SHA1, NEW_SHA256);
    expect_renewed(&rt, &old, (4, 5), SECOND, &new);
}

// How many slots of the fitting file are made anew.
fn count_slots(alloc: Global, touched: &[ByteRange]) -> Result<usize, SignatureFault> {
    let found = read_signature(alloc, FITTING, START, SIZE)?;
    Ok(found.renewed_slots(alloc, FITTING, touched)?.len())
}

// Which bytes are touched, and how many slots there are of two directories then.
const TOUCHED: &[(&[ByteRange], usize)] = &[
    (&[ByteRange { begin: 0, end: 0 }], 0),
    (&[ByteRange { begin: 0, end: 1 }], 2),
    (&[ByteRange { begin: 3, end: 4 }], 2),
    (&[ByteRange { begin: 3, end: 5 }], 4),
    (&[ByteRange { begin: 0, end: 10 }], 6),
    // Bytes at the limit and behind it lie in no page.
    (&[ByteRange { begin: 10, end: 12 }], 0),
    (
        &[ByteRange {
            begin: 9,
            end: usize::MAX,
        }],
        2,
    ),
    (
        &[ByteRange {
            begin: usize::MAX,
            end: usize::MAX,
        }],
        0,
    ),
    // Three ranges on two pages.
    (
        &[
            ByteRange { begin: 8, end: 9 },
            ByteRange { begin: 0, end: 1 },
            ByteRange { begin: 1, end: 2 },
        ],
        4,
    ),
];

#[test]
fn touches_pages(rt: HostRuntime) {
    for (ranges, want) in TOUCHED {
        let found = again!(&rt; count_slots(rt.alloc(), ranges));
        same(&rt, "slots", &(ranges, found), &(ranges, Ok(*want)));
    }
}

// A kind of hash, how long that of `abc` is, and its first byte.
const HASHES: &[(HashKind, (usize, Option<u8>))] = &[
    (HashKind::Sha1, (20, Some(0xa9))),
    (HashKind::Sha256, (32, Some(0xba))),
];

#[test]
fn hashes(rt: HostRuntime) {
    for (kind, want) in HASHES {
        let hash = kind.hash(b"abc");
        let found = (hash.as_slice().len(), hash.as_slice().first().copied());
        same(&rt, "a hash", &(kind, found), &(kind, *want));
    }
}
