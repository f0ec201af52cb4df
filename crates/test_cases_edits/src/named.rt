//! Edits of symbols and sections by the calls of the writer.
use crate::calls::put_pair;
use crate::entries::put_text;
use crate::shown::put_symbols;
use std::alloc::{AllocError, Global};
use std::collections::{HashMap, HashSet};
use test_cases_files::elf::{ElfContainer, ElfError, Writer};
use test_cases_files::put_refused;
use test_cases_files::words::split_kind;

/// Makes the call that a line names, and tells why it was refused.
pub(crate) fn make(
    alloc: Global,
    file: &mut ElfContainer<'_>,
    line: &str,
    out: &mut String,
) -> Result<(), AllocError> {
    match call_again(alloc, &mut file.inner, line) {
        Ok(()) => Ok(()),
        Err(fault) => put_refused(0, &fault, out),
    }
}

/// Puts down the names of a file's symbols, and those of its sections.
pub(crate) fn put_all_names(file: &ElfContainer<'_>, out: &mut String) -> Result<(), AllocError> {
    put_symbols(file, out)?;
    put_names(file, out)
}

/// Makes the call that a line names, again where memory was refused.
fn call_again(alloc: Global, writer: &mut Writer<'_>, line: &str) -> Result<(), ElfError> {
    match call(alloc, writer, line) {
        Err(ElfError::Memory) => call(alloc, writer, line),
        answer => answer,
    }
}

/// Makes the call that a line names, with what stands behind it.
fn call(alloc: Global, writer: &mut Writer<'_>, line: &str) -> Result<(), ElfError> {
    let (name, words) = split_kind(line);
    match name {
        "elf_rename_symbols" | "rename_symbols" | "rename_sections" => {
            rename_by_words(alloc, writer, name, words)
        }
        _ => delete_by_words(alloc, writer, name, words),
    }
}

/// Makes a call with pairs that stand in words.
fn rename_by_words(
    alloc: Global,
    writer: &mut Writer<'_>,
    call: &str,
    words: &str,
) -> Result<(), ElfError> {
    let mut names = HashMap::new(alloc);
    put_pairs(alloc, words, &mut names)?;
    rename(alloc, writer, call, &names)
}

/// Makes a call with names that stand in words.
fn delete_by_words(
    alloc: Global,
    writer: &mut Writer<'_>,
    call: &str,
    words: &str,
) -> Result<(), ElfError> {
    let mut names = HashSet::new(alloc);
    put_words(alloc, words, &mut names)?;
    delete(alloc, writer, call, &names)
}

/// Makes a call by which symbols or sections get other names.
fn rename(
    alloc: Global,
    writer: &mut Writer<'_>,
    call: &str,
    names: &HashMap<Vec<u8>, Vec<u8>>,
) -> Result<(), ElfError> {
    match call {
        "elf_rename_symbols" => writer.elf_rename_symbols(alloc, names),
        "rename_symbols" => writer.rename_symbols(alloc, names),
        _ => writer.rename_sections(alloc, names),
    }
}

/// Makes a call by which symbols or sections go.
fn delete(
    alloc: Global,
    writer: &mut Writer<'_>,
    call: &str,
    names: &HashSet<Vec<u8>>,
) -> Result<(), ElfError> {
    match call {
        "elf_delete_symbols" => writer.elf_delete_symbols(alloc, names),
        "elf_delete_dynamic_symbols" => writer.elf_delete_dynamic_symbols(alloc, names),
        "delete_symbols" => writer.delete_symbols(alloc, names),
        _ => writer.delete_sections(alloc, names),
    }
}

/// Puts the pairs of an old and a new name that stand between blanks into a map.
fn put_pairs(
    alloc: Global,
    words: &str,
    names: &mut HashMap<Vec<u8>, Vec<u8>>,
) -> Result<(), AllocError> {
    for word in words.split(' ') {
        if let Some((old, new)) = word.split_once('=') {
            put_pair(alloc, old.as_bytes(), new.as_bytes(), names)?;
        }
    }
    Ok(())
}

/// Puts the names that stand between blanks into a set.
fn put_words(alloc: Global, words: &str, names: &mut HashSet<Vec<u8>>) -> Result<(), AllocError> {
    for word in words.split(' ') {
        put_word(names, Vec::from_slice(alloc, word.as_bytes())?)?;
    }
    Ok(())
}

/// Puts a name into a set.
fn put_word(names: &mut HashSet<Vec<u8>>, word: Vec<u8>) -> Result<(), AllocError> {
    names.insert(word)?;
    Ok(())
}

/// Puts down the names of a file's static symbols in a line, and those of its sections in another one.
fn put_names(file: &ElfContainer<'_>, out: &mut String) -> Result<(), AllocError> {
    let image = file.inner.builder();
    let symbols = image.symbols();
    out.push_str("static")?;
    for i in 0..symbols.len() {
        put_name(symbols.name(i), out)?;
    }
    out.push_str("\nsections")?;
    for section in image.sections() {
        put_name(section.name.as_slice(), out)?;
    }
    out.push('\n')
}

/// Puts down a name behind a blank.
fn put_name(name: &[u8], out: &mut String) -> Result<(), AllocError> {
    out.push(' ')?;
    put_text(name, out)
}
