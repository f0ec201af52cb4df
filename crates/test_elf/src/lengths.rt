//! The length of a string table, against a slow count by its definition, and tables of many texts.

use crate::support::{Runtime, same, table_of};
use std::alloc::{AllocError, Global};

// Bytes of which made texts are parts.
const LETTERS: &[u8] = b"abbabaabbaababbabaababbaabbabaab";

// A part of some bytes, as far as they go.
fn part(bytes: &[u8], start: usize, length: usize) -> &[u8] {
    let rest = bytes.get(start..).unwrap_or(&[]);
    rest.get(..length).unwrap_or(rest)
}

// Whether a text is the first of its kind in a list, isn't empty, and no other text ends with it.
fn needs_bytes(texts: &[&[u8]], i: usize, text: &[u8]) -> bool {
    for (j, other) in texts.iter().enumerate() {
        let is_same = *other == text;
        if is_same && j < i || !is_same && other.ends_with(text) {
            return false;
        }
    }
    !text.is_empty()
}

// How long a table of these texts is, each compared with each.
fn slow_length(texts: &[&[u8]]) -> usize {
    let mut length: usize = 1;
    for (i, text) in texts.iter().enumerate() {
        if needs_bytes(texts, i, text) {
            length = length.saturating_add(text.len()).saturating_add(1);
        }
    }
    length
}

// A short list of texts, another one for each number.
fn made(alloc: Global, number: u32) -> Result<Vec<&'static [u8]>, AllocError> {
    let mut texts = Vec::new(alloc);
    let mut state = number;
    for _ in 0..number % 8 {
        state = state.wrapping_mul(1_664_525).wrapping_add(1_013_904_223);
        let start = state >> 27;
        let length = (state >> 20) % 6;
        texts.push(part(LETTERS, start as usize, length as usize))?;
    }
    Ok(texts)
}

#[test]
fn slow_count_of_made_lists(rt: HostRuntime) {
    for number in 0..4000 {
        let texts = sure!(&rt; made(rt.alloc(), number));
        let found = table_of(&rt, &texts).bytes().len();
        let want = slow_length(&texts);
        same(&rt, "length", &(number, found), &(number, want));
    }
}

// The table of many texts is so long, and each text stands where it tells, with a NUL behind it.
fn follow(rt: &impl Runtime, what: &str, texts: &[&[u8]], length: usize) {
    let table = table_of(rt, texts);
    same(rt, what, &table.bytes().len(), &length);
    for text in texts {
        let place = table.offset_of(text).expect(rt, what);
        let there = part(table.bytes(), place as usize, text.len().saturating_add(1));
        same(rt, what, &there.strip_suffix(&[0]), &Some(*text));
    }
}

// Names of twelve bytes end to end, each another one.
fn names(alloc: Global) -> Result<Vec<u8>, AllocError> {
    let mut names = Vec::new(alloc);
    for number in 0..16_384_u32 {
        names.extend_from_slice(b"symbol_")?;
        for shift in [12, 9, 6, 3, 0] {
            names.push(b'a' + ((number >> shift) % 8) as u8)?;
        }
    }
    Ok(names)
}

// Each of the names, and three of its ends.
fn names_and_ends(alloc: Global, names: &[u8]) -> Result<Vec<&[u8]>, AllocError> {
    let mut texts = Vec::new(alloc);
    for name in 0..16_384 {
        for start in [0, 3, 6, 7] {
            texts.push(part(names, 12 * name + start, 12 - start))?;
        }
    }
    Ok(texts)
}

// The ends of a text, each as a text.
fn ends(alloc: Global, text: &[u8]) -> Result<Vec<&[u8]>, AllocError> {
    let mut texts = Vec::new(alloc);
    for start in 0..text.len() {
        texts.push(part(text, start, text.len()))?;
    }
    Ok(texts)
}

// One text 65,536 times.
fn repeated(alloc: Global) -> Result<Vec<&'static [u8]>, AllocError> {
    let mut texts: Vec<&'static [u8]> = Vec::new(alloc);
    texts.resize(65_536, b"abc")?;
    Ok(texts)
}

#[test]
fn tables_of_many_texts(rt: HostRuntime) {
    let names = sure!(&rt; names(rt.alloc()));
    let texts = sure!(&rt; names_and_ends(rt.alloc(), &names));
    same(&rt, "texts", &texts.len(), &65_536);
    follow(&rt, "names and ends", &texts, 212_993);
    let text = [b'a'; 1000];
    follow(
        &rt,
        "all ends of a text",
        &sure!(&rt; ends(rt.alloc(), &text)),
        1002,
    );
    follow(
        &rt,
        "one text many times",
        &sure!(&rt; repeated(rt.alloc())),
        5,
    );
}
