//! Entries of a dynamic list as words.
use elf_image::Dynamic;
use patch_bytes::ByteString;
use std::alloc::{AllocError, Global};
use test_cases_files::words::push;

/// The tags that have names here (gABI, Dynamic Section).
static TAGS: [(&str, u64); 7] = [
    ("NEEDED", 1),
    ("STRTAB", 5),
    ("SONAME", 14),
    ("RPATH", 15),
    ("DEBUG", 21),
    ("RUNPATH", 29),
    ("FLAGS_1", 0x6fff_fffb),
];

/// The tag of a name, 0 without one.
fn tag_of(name: &str) -> u64 {
    for (own, tag) in &TAGS {
        if *own == name {
            return *tag;
        }
    }
    0
}

/// The name of a tag.
fn name_of(tag: u64) -> Option<&'static str> {
    for (name, own) in &TAGS {
        if *own == tag {
            return Some(name);
        }
    }
    None
}

/// Adds the entry that a word TAG=VALUE is.
fn add_entry(alloc: Global, word: &str, entries: &mut Vec<Dynamic<'_>>) -> Result<(), AllocError> {
    let (name, value) = word.split_once('=').unwrap_or((word, ""));
    let tag = tag_of(name);
    match name {
        "STRTAB" => push(entries, Dynamic::Auto { tag }),
        "DEBUG" | "FLAGS_1" => {
            let val = value.parse::<u64>().unwrap_or(0);
            push(entries, Dynamic::Integer { tag, val })
        }
        _ => add_text(alloc, tag, value, entries),
    }
}

/// Adds an entry with a text.
pub(crate) fn add_text(
    alloc: Global,
    tag: u64,
    text: &str,
    entries: &mut Vec<Dynamic<'_>>,
) -> Result<(), AllocError> {
    let val = ByteString::owned(Vec::from_slice(alloc, text.as_bytes())?);
    push(entries, Dynamic::Text { tag, val })
}

/// The entries that the words of a line are.
pub(crate) fn entries_of<'d>(alloc: Global, line: &str) -> Result<Vec<Dynamic<'d>>, AllocError> {
    let mut entries = Vec::new(alloc);
    add_entries(alloc, line, &mut entries)?;
    Ok(entries)
}

/// Adds the entries that the words of a line are.
fn add_entries(
    alloc: Global,
    line: &str,
    entries: &mut Vec<Dynamic<'_>>,
) -> Result<(), AllocError> {
    for word in line.split(' ') {
        if !word.is_empty() {
            add_entry(alloc, word, entries)?;
        }
    }
    Ok(())
}

/// Puts down bytes as text, a character each; a NUL is `~`.
pub(crate) fn put_text(bytes: &[u8], out: &mut String) -> Result<(), AllocError> {
    for byte in bytes {
        out.push(if *byte == 0 { '~' } else { char::from(*byte) })?;
    }
    Ok(())
}

/// Puts down an entry behind a blank: its tag, and behind `=` its number or text.
fn put_entry(entry: &Dynamic<'_>, out: &mut String) -> Result<(), AllocError> {
    put_tag(entry.tag(), out)?;
    match entry {
        Dynamic::Auto { .. } => Ok(()),
        Dynamic::Integer { val, .. } => write!(out, "={val}"),
        Dynamic::Text { val, .. } => put_value(val.as_slice(), out),
    }
}

/// Puts down a tag's name, or its number.
fn put_tag(tag: u64, out: &mut String) -> Result<(), AllocError> {
    match name_of(tag) {
        Some(name) => write!(out, " {name}"),
        None => write!(out, " {tag}"),
    }
}

/// Puts down a text behind a `=`.
fn put_value(text: &[u8], out: &mut String) -> Result<(), AllocError> {
    out.push('=')?;
    put_text(text, out)
}

/// Puts down the entries of a list in a line.
pub(crate) fn put_list(entries: &[Dynamic<'_>], out: &mut String) -> Result<(), AllocError> {
    out.push_str("list")?;
    for entry in entries {
        put_entry(entry, out)?;
    }
    out.push('\n')
}

/// Puts down the entries with named tags of a list in a line, and how many others there are.
pub(crate) fn put_brief(entries: &[Dynamic<'_>], out: &mut String) -> Result<(), AllocError> {
    out.push_str("list")?;
    let mut others = 0u32;
    for entry in entries {
        if name_of(entry.tag()).is_some() {
            put_entry(entry, out)?;
        } else {
            others = others.saturating_add(1);
        }
    }
    writeln!(out, " and {others} others")
}
