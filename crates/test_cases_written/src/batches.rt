//! Batch after batch of edits.

use crate::edits::tell;
use crate::words::number;
use arwen_elf::elf::{ElfBatchError, ElfContainer, ElfEdit, ElfError, Writer};
use std::alloc::{AllocError, Global};
use std::io;

/// The edit that a word is: the run path goes, or a page size is set.
fn edit_of(word: &str) -> ElfEdit {
    match u32::try_from(number(word)).unwrap_or(0) {
        0 => ElfEdit::RemoveRpath,
        size => ElfEdit::SetPageSize(size),
    }
}

/// Batches of one edit, a word for each.
fn batches_of(alloc: Global, words: &str) -> Result<Vec<Vec<ElfEdit>>, AllocError> {
    let mut batches = Vec::new(alloc);
    for word in words.split(' ') {
        batches.push(vec![in alloc; edit_of(word)]?)?;
    }
    Ok(batches)
}

/// Answers of batches.
type Answers = Vec<Result<(), ElfBatchError>>;

fn apply(alloc: Global, file: &mut Writer<'_>, words: &str) -> Result<Answers, AllocError> {
    let batches = batches_of(alloc, words)?;
    file.apply_each(alloc, &batches)
}

/// The answers of batches, applied again where there was no memory for the answers.
fn applied(alloc: Global, file: &mut Writer<'_>, words: &str) -> Result<Answers, AllocError> {
    match apply(alloc, file, words) {
        Err(_) => apply(alloc, file, words),
        answers => answers,
    }
}

/// Applies batches to a file, and prints what comes of each, and the run path and the page size behind them.
pub(crate) fn print_batches(
    rt: &HostRuntime,
    file: &mut ElfContainer<'_>,
    words: &str,
) -> io::Result<()> {
    print_answers(rt, applied(rt.alloc(), &mut file.inner, words)?)?;
    print_file(rt, file)
}

/// Prints the run path and the page size.
fn print_file(rt: &HostRuntime, file: &ElfContainer<'_>) -> io::Result<()> {
    let path = file.inner.elf_runpath();
    println!(rt; "run path {path:?}, page size {}", file.get_page_size())
}

fn print_answers(rt: &HostRuntime, answers: Answers) -> io::Result<()> {
    for answer in &answers {
        print_batch(rt, answer)?;
    }
    Ok(())
}

/// Prints what came of a batch.
fn print_batch(rt: &HostRuntime, answer: &Result<(), ElfBatchError>) -> io::Result<()> {
    match answer {
        Ok(()) => println!(rt; "done"),
        Err(error) => tell(rt, &error.fault),
    }
}
