//! A small shared library for x86-64: a string table and a dynamic section in one loaded segment.

use crate::files::{HEADER, IDENTIFICATION, SECTION, SEGMENT, put};
use std::alloc::{AllocError, Global};

// Where the dynamic section begins; its first entry is `DT_STRTAB`, its second one `DT_NEEDED`.
pub(crate) const LIST: usize = 184;

// Where the section headers begin, of which each has 64 bytes.
pub(crate) const TABLE: usize = 240;

// What stands behind the identification: how wide numbers are, and the numbers.
static PARTS: [(&[usize], &[u64]); 9] = [
    (HEADER, &[3, 62, 1, 0, 64, 240, 0, 64, 56, 2, 64, 4, 3]),
    (SEGMENT, &[1, 6, 0, 0, 0, 232, 232, 8]),
    (SEGMENT, &[2, 6, 184, 184, 184, 48, 48, 8]),
    // The string table, with `libm.s` at 1.
    (&[1, 4, 2, 1], &[0, 0x6d62_696c, 0x732e, 0]),
    // The entries.
    (&[8; 6], &[5, 176, 1, 1, 0, 0]),
    // The names of sections, which are all empty, and no section.
    (&[8; 9], &[0; 9]),
    (SECTION, &[0, 3, 2, 176, 176, 8, 0, 0, 1, 0]),
    (SECTION, &[0, 6, 2, 184, 184, 48, 1, 0, 1, 0]),
    (SECTION, &[0, 3, 0, 0, 232, 8, 0, 0, 1, 0]),
];

// The file.
pub(crate) fn file(alloc: Global) -> Result<Vec<u8>, AllocError> {
    let mut out = Vec::from_slice(alloc, IDENTIFICATION)?;
    for (widths, numbers) in &PARTS {
        put(&mut out, widths, numbers)?;
    }
    Ok(out)
}
