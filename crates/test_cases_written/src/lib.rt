//! Edits and writes ELF files by lines of cases, and prints what came of each. Lines work on `file`, after edits, which
//! stand in words behind a `:` with a `+` between two:
//!
//! - `r` prints what the writer and the container read, and `p` what the container prints. `q` prints needed libraries to
//!   a page of three bytes.
//! - `a SIZE ..` applies batch after batch: the run path goes where a size is 0, else the page size is set.
//! - `w` prints the rows of 16 bytes that are written anew, or the fault, and whether the pieces that differ make the same
//!   bytes; of a file that was edited also whether the calls that are handed a plan make them. `file` has these bytes then.
//! - `k ROOM STEP` writes to a writer that takes so many bytes, and so many at a time. `K STEP` counts the rooms that are
//!   too little, each of which the writer fills before it fails.
//! - `P PATH` writes to a path twice, at which three bytes stood, and takes it away.
//!
//! An edit is a call of the writer and its values, as `add-rpath /a /b`. Nothing comes of other lines.
#![tactic(auto)]

mod batches;
pub mod edits;
pub mod elf;
pub mod files;
mod paths;
mod planned;
mod prints;
mod reads;
pub mod rows;
mod taker;
pub mod words;
mod writers;
mod written;

use arwen_elf::elf::ElfContainer;
use std::io;

/// Does what a line says to the container of a file.
pub fn on_container(rt: &HostRuntime, bytes: &[u8], kind: &str, words: &str) -> io::Result<()> {
    match edits::parse(rt.alloc(), bytes) {
        Ok(mut file) => on_parsed(rt, &mut file, kind, words),
        Err(error) => edits::tell(rt, &error),
    }
}

/// Does what a line says to a container, after edits.
fn on_parsed(
    rt: &HostRuntime,
    file: &mut ElfContainer<'_>,
    kind: &str,
    words: &str,
) -> io::Result<()> {
    let (words, edits) = words.split_once(':').unwrap_or((words, ""));
    edits::edit_all(rt, &mut file.inner, edits.trim())?;
    let words = words.trim();
    match kind {
        "a" => batches::print_batches(rt, file, words),
        _ => on_edited(rt, file, kind, words),
    }
}

/// Does what a line says to a container that is edited.
fn on_edited(rt: &HostRuntime, file: &ElfContainer<'_>, kind: &str, words: &str) -> io::Result<()> {
    match kind {
        "r" => reads::print_file(rt, file),
        "p" => prints::print_each(rt, file),
        "q" => prints::print_little(rt, file),
        "w" => written::print_written(rt, file),
        "k" => writers::print_taken(rt, file, words),
        "K" => writers::print_fronts(rt, file, words),
        "P" => paths::print_path(rt, file, words),
        _ => Ok(()),
    }
}
