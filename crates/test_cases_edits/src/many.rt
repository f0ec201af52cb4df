//! Edits of a long list.
use crate::entries::add_text;
use elf_edits::edit_list;
use elf_image::Dynamic;
use elf_image::constants::{DT_NEEDED, DT_RUNPATH};
use std::alloc::{AllocError, Global};
use test_cases_files::elf::ElfEdit;
use test_cases_files::put_no_edits;
use test_cases_files::words::{edits_of, split_kind};

/// Does each of some edits to a list of so many run paths and needed libraries.
pub(crate) fn edit(alloc: Global, line: &str, out: &mut String) -> Result<(), AllocError> {
    let (paths, needed) = split_kind(line);
    let needed = needed.parse::<u32>().unwrap_or(0);
    let entries = long_list(alloc, paths.parse::<u32>().unwrap_or(0), needed)?;
    edit_entries(alloc, needed, entries.as_slice(), out)
}

/// Does edits to entries.
fn edit_entries(
    alloc: Global,
    needed: u32,
    entries: &[Dynamic<'_>],
    out: &mut String,
) -> Result<(), AllocError> {
    let mut words = String::new(alloc);
    put_words(needed, &mut words)?;
    edit_by_words(alloc, words.as_str(), entries, out)
}

/// Does the edits that words are, each to the same entries.
fn edit_by_words(
    alloc: Global,
    words: &str,
    entries: &[Dynamic<'_>],
    out: &mut String,
) -> Result<(), AllocError> {
    match edits_of(alloc, words) {
        Ok(edits) => count_all(alloc, edits.as_slice(), entries, out),
        Err(error) => put_no_edits(&error, out),
    }
}

/// A list of so many run paths, and behind them so many needed libraries.
fn long_list<'d>(alloc: Global, paths: u32, needed: u32) -> Result<Vec<Dynamic<'d>>, AllocError> {
    let mut entries = Vec::new(alloc);
    add_many(alloc, DT_RUNPATH, "/path", paths, &mut entries)?;
    add_many(alloc, DT_NEEDED, "lib", needed, &mut entries)?;
    Ok(entries)
}

/// Adds so many entries, whose texts have numbers behind them.
fn add_many(
    alloc: Global,
    tag: u64,
    front: &str,
    count: u32,
    entries: &mut Vec<Dynamic<'_>>,
) -> Result<(), AllocError> {
    for number in 0..count {
        add_numbered(alloc, tag, front, number, entries)?;
    }
    Ok(())
}

/// Adds an entry whose text has a number behind it.
fn add_numbered(
    alloc: Global,
    tag: u64,
    front: &str,
    number: u32,
    entries: &mut Vec<Dynamic<'_>>,
) -> Result<(), AllocError> {
    let text = format!(in alloc; "{front}{number}")?;
    add_text(alloc, tag, text.as_str(), entries)
}

/// Puts down words of edits, some of which have as many values as libraries are needed.
fn put_words(needed: u32, words: &mut String) -> Result<(), AllocError> {
    words.push_str("add-rpath /more + add-needed")?;
    put_names(needed, words)?;
    words.push_str(" + remove-needed")?;
    put_names(needed, words)?;
    words.push_str(" + replace-needed")?;
    put_pairs(needed, words)?;
    words.push_str(" + force-rpath + remove-rpath")
}

/// Puts down the names of so many libraries, every other one of which is needed.
fn put_names(needed: u32, words: &mut String) -> Result<(), AllocError> {
    for number in 0..needed {
        let front = if number % 2 == 0 { "lib" } else { "new" };
        write!(words, " {front}{number}")?;
    }
    Ok(())
}

/// Puts down pairs that give each library the name of the one behind it.
fn put_pairs(needed: u32, words: &mut String) -> Result<(), AllocError> {
    for number in 0..needed {
        let next = number.wrapping_add(1);
        write!(words, " lib{number}=lib{next}")?;
    }
    Ok(())
}

/// Puts down what comes of each edit.
fn count_all(
    alloc: Global,
    edits: &[ElfEdit],
    entries: &[Dynamic<'_>],
    out: &mut String,
) -> Result<(), AllocError> {
    for edit in edits {
        count(alloc, edit, entries, out)?;
    }
    Ok(())
}

/// Puts down how many entries there are after an edit, and how many bytes their texts have.
fn count(
    alloc: Global,
    edit: &ElfEdit,
    entries: &[Dynamic<'_>],
    out: &mut String,
) -> Result<(), AllocError> {
    let made = edit_list(alloc, edit, entries)?;
    let count = made.entries.len();
    let bytes = text_bytes(made.entries.as_slice());
    writeln!(out, "{count} entries, {bytes} bytes")
}

/// How many bytes the texts of entries have.
fn text_bytes(entries: &[Dynamic<'_>]) -> usize {
    let mut bytes = 0usize;
    for entry in entries {
        bytes = bytes.saturating_add(text_len(entry));
    }
    bytes
}

/// How many bytes the text of an entry has.
fn text_len(entry: &Dynamic<'_>) -> usize {
    match entry {
        Dynamic::Text { val, .. } => val.as_slice().len(),
        _ => 0,
    }
}
