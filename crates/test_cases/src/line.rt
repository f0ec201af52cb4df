//! The command line, on lines of cases.
//!
//! - `= NAME` makes the file `file` a copy of the file NAME, and `= none` takes it away.
//! - `> WORD WORD ..` does what these words of a command line ask. Printed are its own prints, the status, the
//!   first line of the fault, the length of `file`, and each row of 16 bytes in which it changed.
//! - `m WORD WORD ..` does the same, a command for ELF files by the function of its own module.
//! - `n WORD WORD ..` does the command that the words mean to a copy of its file's bytes, and prints its notes, or the fault.
//! - `? WORD WORD ..` only reads the words, and prints the command that they mean, or the status and the fault.
//! - `h WORD WORD ..` only reads the words too, and prints all of the text that they are answered with.
//! - `! WORD WORD ..` does it to the bytes of `file` alone. Printed are the rows that an edit would change, or that an
//!   edit of an ELF file makes no new bytes, or what stands on a page of 8 bytes after a print.
//! - `p WORD WORD ..` does the same by a command for ELF files. Printed is first the text that the command prints, and
//!   then the status and what an edit changes. For no library a directory was found.
//! - `@ WORD WORD ..` does it to a file in memory, which lies at the path `file` and has the bytes of `file`. Printed
//!   are notes and the rows that it changed, or the fault. `q WORD WORD ..` does so without notes, and prints what the
//!   command prints.
//! - `w WORD WORD ..` does it, a command for Mach-O files, to stores with the bytes of `file`: one that takes no write
//!   and fails at the first, one that takes one write, and one that takes two. Printed is for each what is printed of
//!   words.
//! - `f NAME` makes the fault of this name, which no file has. Printed are the status, the fault's words, and its line.
//! - `* RPATH ID` gives the library `file` a run path and an id, by calls of the library alone. Printed is what is
//!   printed of words.
//!
//! Blanks stand between words, and `''` is the empty word. Nothing comes of other lines.
mod bytes;
mod changes;
mod faults;
mod library;
mod made;
mod modules;
mod notes;
mod reading;
mod runs;
mod stores;

use arwen_cli::cli::Notes;
use reading::Use;
use runs::Way;
use std::io;
use test_cases_files::words::split_kind;

/// Runs lines, and prints each with what comes of it.
pub fn run(rt: &HostRuntime, lines: &str) -> io::Result<()> {
    for line in lines.lines() {
        println!(rt; "{line}")?;
        step(rt, line)?;
    }
    Ok(())
}

/// Prints what comes of a line.
fn step(rt: &HostRuntime, line: &str) -> io::Result<()> {
    let (kind, words) = split_kind(line);
    match kind {
        "=" => runs::copy(rt, words),
        ">" => runs::run(rt, words, Way::Line),
        "m" => runs::run(rt, words, Way::Module),
        "*" => runs::run(rt, words, Way::Library),
        "n" => reading::read(rt, words, Use::ShowNotes),
        "?" => reading::read(rt, words, Use::Show),
        "h" => reading::read(rt, words, Use::ShowText),
        "!" => reading::read(rt, words, Use::OnPage),
        "p" => reading::read(rt, words, Use::AsText),
        "@" => reading::read(rt, words, Use::InMemory(Notes::Wanted)),
        "q" => reading::read(rt, words, Use::InMemory(Notes::LeftOut)),
        "w" => reading::read(rt, words, Use::OnStores),
        "f" => made::tell_named(rt, words),
        _ => Ok(()),
    }
}
