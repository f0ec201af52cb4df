//! Run paths that shrink.
use crate::entries::{entries_of, put_list, put_text};
use elf_edits_shrink::{ProbeAnswer, Reason, Removed, shrink_questions};
use elf_image::Dynamic;
use patch_bytes::ByteString;
use std::alloc::{AllocError, Global};
use test_cases_files::words::{push, split_parts, texts_of};

/// The machine of the images here.
const MACHINE: u16 = 62;

/// Puts down what has to be looked for before the run paths of a list shrink.
pub(crate) fn show_questions(
    alloc: Global,
    line: &str,
    out: &mut String,
) -> Result<(), AllocError> {
    let entries = entries_of(alloc, line)?;
    put_questions(alloc, entries.as_slice(), out)
}

/// Puts down what has to be looked for.
fn put_questions(
    alloc: Global,
    entries: &[Dynamic<'_>],
    out: &mut String,
) -> Result<(), AllocError> {
    let questions = shrink_questions(alloc, entries)?;
    put_pairs(questions.as_slice(), out)
}

/// Puts down pairs of a directory and a library, a line for each.
fn put_pairs(pairs: &[(&[u8], &[u8])], out: &mut String) -> Result<(), AllocError> {
    for (directory, needed) in pairs {
        put_pair(directory, needed, out)?;
    }
    Ok(())
}

/// Puts down a directory and a library.
fn put_pair(directory: &[u8], needed: &[u8], out: &mut String) -> Result<(), AllocError> {
    put_text(directory, out)?;
    out.push(' ')?;
    put_text(needed, out)?;
    out.push('\n')
}

/// The answer that a word DIRECTORY,LIBRARY,MACHINE is; without a machine, nothing was found.
fn answer_of(word: &str) -> ProbeAnswer<'_> {
    let (directory, rest) = word.split_once(',').unwrap_or((word, ""));
    let (needed, machine) = rest.split_once(',').unwrap_or((rest, ""));
    ProbeAnswer {
        directory: ByteString::borrowed(directory.as_bytes()),
        needed: ByteString::borrowed(needed.as_bytes()),
        machine: machine.parse::<u16>().ok(),
    }
}

/// The answers that the words of a line are.
pub(crate) fn answers_of(alloc: Global, line: &str) -> Result<Vec<ProbeAnswer<'_>>, AllocError> {
    let mut made = Vec::new(alloc);
    for word in line.split(' ') {
        if !word.is_empty() {
            push(&mut made, answer_of(word))?;
        }
    }
    Ok(made)
}

/// Puts down the directories that went, a line for each.
pub(crate) fn put_removed(removed: &[Removed], out: &mut String) -> Result<(), AllocError> {
    for one in removed {
        out.push_str("removed ")?;
        put_text(one.directory.as_slice(), out)?;
        out.push_str(match one.reason {
            Reason::Prefix => ": prefix\n",
            Reason::NoLibrary => ": no library\n",
        })?;
    }
    Ok(())
}

/// Shrinks the run paths of a list.
pub(crate) fn shrink_list(alloc: Global, line: &str, out: &mut String) -> Result<(), AllocError> {
    let (entries, rest) = split_parts(line);
    let entries = entries_of(alloc, entries)?;
    shrink_entries(alloc, entries.as_slice(), rest, out)
}

/// Shrinks the run paths of a list by the prefixes and the answers of a line.
fn shrink_entries(
    alloc: Global,
    entries: &[Dynamic<'_>],
    line: &str,
    out: &mut String,
) -> Result<(), AllocError> {
    let (prefixes, answers) = split_parts(line);
    let prefixes = texts_of(alloc, prefixes)?;
    shrink_to(alloc, entries, prefixes.as_slice(), answers, out)
}

/// Shrinks run paths to directories that these prefixes begin.
fn shrink_to(
    alloc: Global,
    entries: &[Dynamic<'_>],
    prefixes: &[Vec<u8>],
    answers: &str,
    out: &mut String,
) -> Result<(), AllocError> {
    let answers = answers_of(alloc, answers)?;
    put_shrunk(alloc, entries, prefixes, answers.as_slice(), out)
}

/// Puts down the list, and the directories that went.
fn put_shrunk(
    alloc: Global,
    entries: &[Dynamic<'_>],
    prefixes: &[Vec<u8>],
    answers: &[ProbeAnswer<'_>],
    out: &mut String,
) -> Result<(), AllocError> {
    let list = elf_edits_shrink::shrink_list(alloc, MACHINE, prefixes, answers, entries)?;
    put_list(list.entries.as_slice(), out)?;
    put_removed(list.removed.as_slice(), out)
}
