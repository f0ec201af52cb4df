//! Edits of files by the calls of their container.
use crate::calls::call;
use crate::named;
use crate::paths::{answers_of, put_removed};
use crate::shown::{put_shown, put_symbols};
use std::alloc::{AllocError, Global};
use test_cases_files::elf::{ElfBatchError, ElfContainer, ElfEdit, ElfError};
use test_cases_files::words::{edits_of, split_parts, texts_of};
use test_cases_files::{put_no_edits, put_refused};

/// How a file is edited by words.
#[derive(Clone, Copy)]
pub(crate) enum Way {
    /// By edits in one batch.
    Batch,
    /// By edits in one batch, and the dynamic symbols are shown too.
    BatchWithSymbols,
    /// By edits, each by its own call.
    Calls,
    /// By the call of the writer that is named, and the names of symbols and sections are shown too.
    NamedCall,
    /// Without words: DT_RUNPATH in the place of DT_RPATH.
    ForceRunpath,
    /// By prefixes, and behind a `>` what was found: its run paths shrink.
    Shrink,
}

/// Edits a file by words, and puts down what it shows then.
pub(crate) fn edit(
    alloc: Global,
    bytes: &[u8],
    words: &str,
    way: Way,
    out: &mut String,
) -> Result<(), AllocError> {
    match ElfContainer::parse(alloc, bytes) {
        Ok(mut file) => edit_file(alloc, &mut file, words, way, out),
        Err(ElfError::Memory) => Err(AllocError),
        Err(fault) => writeln!(out, "{fault}"),
    }
}

/// Edits a file by words, and puts down what it shows.
fn edit_file(
    alloc: Global,
    file: &mut ElfContainer<'_>,
    words: &str,
    way: Way,
    out: &mut String,
) -> Result<(), AllocError> {
    match way {
        Way::ForceRunpath => use_runpath(file, out)?,
        Way::Shrink => shrink(alloc, file, words, out)?,
        Way::NamedCall => named::make(alloc, file, words, out)?,
        _ => edit_by_words(alloc, file, words, way, out)?,
    }
    put_shown(alloc, file, out)?;
    match way {
        Way::BatchWithSymbols => put_symbols(file, out),
        Way::NamedCall => named::put_all_names(file, out),
        _ => Ok(()),
    }
}

/// Does edits that stand in words.
fn edit_by_words(
    alloc: Global,
    file: &mut ElfContainer<'_>,
    words: &str,
    way: Way,
    out: &mut String,
) -> Result<(), AllocError> {
    match edits_of(alloc, words) {
        Ok(edits) => edit_in_way(alloc, file, edits.as_slice(), way, out),
        Err(error) => put_no_edits(&error, out),
    }
}

/// Does edits in a batch, or each by its own call.
fn edit_in_way(
    alloc: Global,
    file: &mut ElfContainer<'_>,
    edits: &[ElfEdit],
    way: Way,
    out: &mut String,
) -> Result<(), AllocError> {
    match way {
        Way::Calls => call_all(alloc, file, edits, out),
        _ => apply(alloc, file, edits, out),
    }
}

/// Makes every DT_RPATH a DT_RUNPATH.
fn use_runpath(file: &mut ElfContainer<'_>, out: &mut String) -> Result<(), AllocError> {
    match file.inner.elf_use_runpath() {
        Ok(()) => Ok(()),
        Err(fault) => put_refused(0, &fault, out),
    }
}

/// Puts down how many questions there are before the run paths of a file shrink.
fn put_question_count(
    alloc: Global,
    file: &ElfContainer<'_>,
    out: &mut String,
) -> Result<(), AllocError> {
    let questions = file.inner.elf_shrink_questions(alloc)?;
    let count = questions.len();
    writeln!(out, "asks {count}")
}

/// Shrinks the run paths of a file by the prefixes and the answers of a line.
fn shrink(
    alloc: Global,
    file: &mut ElfContainer<'_>,
    line: &str,
    out: &mut String,
) -> Result<(), AllocError> {
    put_question_count(alloc, file, out)?;
    let (prefixes, answers) = split_parts(line);
    let prefixes = texts_of(alloc, prefixes)?;
    shrink_to(alloc, file, prefixes.as_slice(), answers, out)
}

/// Shrinks run paths to directories that these prefixes begin.
fn shrink_to(
    alloc: Global,
    file: &mut ElfContainer<'_>,
    prefixes: &[Vec<u8>],
    answers: &str,
    out: &mut String,
) -> Result<(), AllocError> {
    let answers = answers_of(alloc, answers)?;
    match file.shrink_rpath(alloc, prefixes, answers.as_slice()) {
        Ok(removed) => put_removed(removed.as_slice(), out),
        Err(fault) => put_refused(0, &fault, out),
    }
}

/// Does edits in a batch.
fn apply(
    alloc: Global,
    file: &mut ElfContainer<'_>,
    edits: &[ElfEdit],
    out: &mut String,
) -> Result<(), AllocError> {
    let mut before = String::new(alloc);
    put_shown(alloc, file, &mut before)?;
    apply_from(alloc, file, edits, before.as_str(), out)
}

/// Does edits in a batch to a file that shows this, again where memory was refused.
fn apply_from(
    alloc: Global,
    file: &mut ElfContainer<'_>,
    edits: &[ElfEdit],
    before: &str,
    out: &mut String,
) -> Result<(), AllocError> {
    match file.apply(alloc, edits) {
        Ok(()) => Ok(()),
        Err(batch) if matches!(batch.fault, ElfError::Memory) => {
            apply_again(alloc, file, edits, before, out)
        }
        Err(batch) => put_batch(&batch, out),
    }
}

/// Does edits in a batch for which memory was refused; the file has to show what it showed before.
fn apply_again(
    alloc: Global,
    file: &mut ElfContainer<'_>,
    edits: &[ElfEdit],
    before: &str,
    out: &mut String,
) -> Result<(), AllocError> {
    if !shows(alloc, file, before)? {
        return out.push_str("refused memory, and changed the file\n");
    }
    match file.apply(alloc, edits) {
        Ok(()) => Ok(()),
        Err(batch) => put_batch(&batch, out),
    }
}

/// Whether a file shows this.
fn shows(alloc: Global, file: &ElfContainer<'_>, text: &str) -> Result<bool, AllocError> {
    let mut out = String::new(alloc);
    put_shown(alloc, file, &mut out)?;
    Ok(out.as_str() == text)
}

/// Puts down the line of a batch's refused edit.
fn put_batch(batch: &ElfBatchError, out: &mut String) -> Result<(), AllocError> {
    put_refused(batch.index, &batch.fault, out)
}

/// Does each edit by its own call, up to the first that is refused, whose line is put down.
fn call_all(
    alloc: Global,
    file: &mut ElfContainer<'_>,
    edits: &[ElfEdit],
    out: &mut String,
) -> Result<(), AllocError> {
    for (index, edit) in edits.iter().enumerate() {
        if let Err(fault) = call_again(alloc, file, edit) {
            return put_refused(index, &fault, out);
        }
    }
    Ok(())
}

/// Does an edit by its own call, again where memory was refused.
fn call_again(alloc: Global, file: &mut ElfContainer<'_>, edit: &ElfEdit) -> Result<(), ElfError> {
    match call(alloc, file, edit) {
        Err(ElfError::Memory) => call(alloc, file, edit),
        answer => answer,
    }
}
