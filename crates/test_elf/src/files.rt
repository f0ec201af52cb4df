//! Files with many note sections and many program headers over them.

use std::alloc::{AllocError, Global};

// How many note sections a file has, how many program headers for notes, over how many notes each is at least, where the notes
// begin, behind all program headers, and how many bytes are loaded behind the notes.
pub(crate) struct Counts {
    pub(crate) notes: u32,
    pub(crate) headers: u32,
    pub(crate) over: u32,
    pub(crate) first: u32,
    pub(crate) room: u32,
}

// Appends numbers, the lowest byte first, each in as many bytes as stand beside it.
pub(crate) fn put(out: &mut Vec<u8>, widths: &[usize], numbers: &[u64]) -> Result<(), AllocError> {
    for (width, number) in widths.iter().zip(numbers) {
        let bytes = number.to_le_bytes();
        out.extend_from_slice(bytes.get(..*width).unwrap_or(&[]))?;
    }
    Ok(())
}

// The first bytes of a file for 64 bits, the lowest byte first.
pub(crate) const IDENTIFICATION: &[u8] = b"\x7fELF\x02\x01\x01\0\0\0\0\0\0\0\0\0";

// The fields of the file header behind its identification.
pub(crate) const HEADER: &[usize] = &[2, 2, 4, 8, 8, 8, 4, 2, 2, 2, 2, 2, 2];

// The fields of a program header.
pub(crate) const SEGMENT: &[usize] = &[4, 4, 8, 8, 8, 8, 8, 8];

// The fields of a section header.
pub(crate) const SECTION: &[usize] = &[4, 4, 8, 8, 8, 8, 4, 4, 8, 8];

// The file header of a shared object for x86-64, and one loaded segment up to the names of sections.
fn put_headers(out: &mut Vec<u8>, counts: &Counts, names: u64) -> Result<(), AllocError> {
    let segments = u64::from(counts.headers) + 1;
    let sections = u64::from(counts.notes) + 2;
    let table = names.saturating_add(8);
    out.extend_from_slice(IDENTIFICATION)?;
    let numbers = [
        3,
        62,
        1,
        0,
        64,
        table,
        0,
        64,
        56,
        segments,
        64,
        sections,
        sections - 1,
    ];
    put(out, HEADER, &numbers)?;
    put(out, SEGMENT, &[1, 4, 0, 0, 0, names, names, 4096])
}

// Program headers, each over the notes from another one on, at addresses that are offsets.
fn put_segments(out: &mut Vec<u8>, counts: &Counts, end: u64) -> Result<(), AllocError> {
    let places = counts.notes.saturating_sub(counts.over).max(1);
    for i in 0..counts.headers {
        let start = u64::from(counts.first) + 4 * u64::from(i % places);
        let size = end.saturating_sub(start);
        put(out, SEGMENT, &[4, 4, start, start, start, size, size, 4])?;
    }
    Ok(())
}

// No section, and the notes, each of four bytes, at addresses that are offsets.
fn put_notes(out: &mut Vec<u8>, counts: &Counts) -> Result<(), AllocError> {
    put(out, SECTION, &[0; 10])?;
    for i in 0..counts.notes {
        let start = u64::from(counts.first) + 4 * u64::from(i);
        put(out, SECTION, &[0, 7, 2, start, start, 4, 0, 0, 4, 0])?;
    }
    Ok(())
}

// The file. The names of sections, which are all empty, are eight bytes behind what is loaded.
pub(crate) fn file(alloc: Global, counts: &Counts) -> Result<Vec<u8>, AllocError> {
    let end = u64::from(counts.first) + 4 * u64::from(counts.notes);
    let names = end + u64::from(counts.room);
    let mut out = Vec::new(alloc);
    put_headers(&mut out, counts, names)?;
    put_segments(&mut out, counts, end)?;
    out.resize(names as usize + 8, 0)?;
    put_notes(&mut out, counts)?;
    put(&mut out, SECTION, &[0, 3, 0, 0, names, 1, 0, 0, 4, 0])?;
    Ok(out)
}
