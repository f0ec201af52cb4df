//! Edits of a list, one after the other.
use crate::entries::{entries_of, put_list, put_text};
use elf_edits::abi::{abi_number, with_nul};
use elf_edits::{Cause, Facts, NewList, cause_of, edit_list};
use elf_image::Dynamic;
use std::alloc::{AllocError, Global};
use test_cases_files::elf::ElfEdit;
use test_cases_files::put_no_edits;
use test_cases_files::words::{edits_of, split_parts, texts_of};

/// What is known of a list that stands alone.
const ALONE: Facts<'static> = Facts {
    machine: 62,
    has_list: true,
    has_run_path: true,
    has_interpreter: false,
    is_full: false,
    fixed_symbols: None,
};

/// Puts down the ABI byte of a name.
pub(crate) fn show_abi(name: &str, out: &mut String) -> Result<(), AllocError> {
    match abi_number(name) {
        Some(number) => writeln!(out, "{number}"),
        None => out.push_str("unknown\n"),
    }
}

/// Puts down the bytes that are stored of interpreters.
pub(crate) fn show_interpreter(
    alloc: Global,
    line: &str,
    out: &mut String,
) -> Result<(), AllocError> {
    for text in texts_of(alloc, line)?.as_slice() {
        put_stored(alloc, text.as_slice(), out)?;
    }
    Ok(())
}

/// Puts down what is stored of an interpreter.
fn put_stored(alloc: Global, text: &[u8], out: &mut String) -> Result<(), AllocError> {
    let stored = with_nul(alloc, text)?;
    put_text(stored.as_slice(), out)?;
    out.push('\n')
}

/// Does the edits of a line to its entries.
pub(crate) fn edit(alloc: Global, line: &str, out: &mut String) -> Result<(), AllocError> {
    let (entries, words) = split_parts(line);
    let entries = entries_of(alloc, entries)?;
    edit_by_words(alloc, words, entries.as_slice(), out)
}

/// Does edits that stand in words to entries.
fn edit_by_words(
    alloc: Global,
    words: &str,
    entries: &[Dynamic<'_>],
    out: &mut String,
) -> Result<(), AllocError> {
    match edits_of(alloc, words) {
        Ok(edits) => edit_all(alloc, edits.as_slice(), entries, out),
        Err(error) => put_no_edits(&error, out),
    }
}

/// Does edits one after the other, where none is refused.
fn edit_all(
    alloc: Global,
    edits: &[ElfEdit],
    entries: &[Dynamic<'_>],
    out: &mut String,
) -> Result<(), AllocError> {
    for (index, edit) in edits.iter().enumerate() {
        if let Some(cause) = cause_of(alloc, edit, &ALONE)? {
            return put_refused(index, &cause, out);
        }
    }
    put_edited(alloc, edits, entries, out)
}

/// Puts down the line of a refused edit.
fn put_refused(index: usize, cause: &Cause<'_>, out: &mut String) -> Result<(), AllocError> {
    write!(out, "edit {index} refused: ")?;
    put_cause(cause, out)?;
    out.push('\n')
}

/// Puts down a cause in words.
fn put_cause(cause: &Cause<'_>, out: &mut String) -> Result<(), AllocError> {
    match cause {
        Cause::NoDynamic(task) => write!(out, "no dynamic section, can't {task}"),
        Cause::UnknownAbi(name) => write!(out, "unknown ABI {name}"),
        Cause::BadPageSize(size) => write!(out, "bad page size {size}"),
        Cause::MipsImage => out.push_str("MIPS"),
        Cause::NoInterpreter => out.push_str("no interpreter"),
        Cause::NulInText => out.push_str("NUL in a text"),
        Cause::NoRunPath => out.push_str("no run path"),
        Cause::CannotRenumber => out.push_str("symbols can't be renumbered"),
        Cause::TooManyHeaders => out.push_str("too many headers"),
    }
}

/// Puts down the list after edits.
fn put_edited(
    alloc: Global,
    edits: &[ElfEdit],
    entries: &[Dynamic<'_>],
    out: &mut String,
) -> Result<(), AllocError> {
    match edits.split_first() {
        None => put_list(entries, out),
        Some((first, others)) => put_edited_first(alloc, first, others, entries, out),
    }
}

/// Puts down the list after an edit and others.
fn put_edited_first(
    alloc: Global,
    first: &ElfEdit,
    others: &[ElfEdit],
    entries: &[Dynamic<'_>],
    out: &mut String,
) -> Result<(), AllocError> {
    let list = edit_list(alloc, first, entries)?;
    put_edited_on(alloc, others, &list, out)
}

/// Puts down a list after further edits.
fn put_edited_on(
    alloc: Global,
    edits: &[ElfEdit],
    list: &NewList<'_>,
    out: &mut String,
) -> Result<(), AllocError> {
    let Some((first, others)) = edits.split_first() else {
        return put_new_list(list, out);
    };
    let made = edited_once(alloc, first, list)?;
    put_edited_on(alloc, others, &made, out)
}

/// The list after one more edit.
fn edited_once<'d>(
    alloc: Global,
    edit: &ElfEdit,
    list: &NewList<'d>,
) -> Result<NewList<'d>, AllocError> {
    let mut made = edit_list(alloc, edit, list.entries.as_slice())?;
    made.is_touched = made.is_touched || list.is_touched;
    Ok(made)
}

/// Puts down a list, and whether edits wrote something of it.
fn put_new_list(list: &NewList<'_>, out: &mut String) -> Result<(), AllocError> {
    put_list(list.entries.as_slice(), out)?;
    if list.is_touched {
        return Ok(());
    }
    out.push_str("nothing written\n")
}
