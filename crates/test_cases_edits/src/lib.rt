//! Edits of ELF files, and the words that name them, on lines of cases.
//!
//! - `? WORD WORD ..` reads words as edits, and prints the edits or the fault.
//! - `k WORD` reads a word as a key and a value.
//! - `a NAME` prints the ABI byte of a name, `n TEXT` the bytes that are stored of an interpreter.
//! - `@ ENTRY .. > WORD ..` does the edits of words to a list of entries TAG=VALUE, and prints the list.
//! - `% ENTRY .. > WORD ..` tells what has to be looked for before the run paths of a list shrink.
//! - `- ENTRY .. > PREFIX .. > ANSWER ..` shrinks run paths; an answer is DIRECTORY,LIBRARY,MACHINE.
//! - `* NUMBER NUMBER` does edits to a list of so many run paths and so many needed libraries.
//! - `= NAME ..` looks at these files from then on, and prints the dynamic list of each. Then `! WORD ..` does edits to
//!   each of them in one batch, and `. WORD ..` each edit by its own call: printed are the edit that is refused, and
//!   what the file shows then. `$ WORD ..` does the same as `!`, and prints the dynamic symbols too: each name, and behind a
//!   colon the index of its version, with a `!` where it is hidden. `u` makes every DT_RPATH a DT_RUNPATH, `~ PREFIX .. > ANSWER ..` shrinks run paths.
//!   `s CALL NAME ..` edits symbols or sections by a call of the writer, a pair being OLD=NEW, and prints their names too.
//!
//! Words are read by their marks. Nothing comes of other lines.
#![tactic(auto)]

mod calls;
mod entries;
mod files;
mod lists;
mod many;
mod named;
mod paths;
mod shown;
mod words;

use files::Way;
use std::alloc::{AllocError, Global};
use std::io;
use test_cases_files::words::split_kind;
use test_cases_files::{Cases, run_cases};

/// Runs lines, and prints each with what comes of it.
pub fn run(rt: &HostRuntime, lines: &str) -> io::Result<()> {
    run_cases(rt, &Edits, lines)
}

/// Lines of edits.
struct Edits;

impl Cases for Edits {
    fn is_on_files(&self, line: &str) -> bool {
        matches!(split_kind(line).0, "=" | "!" | "$" | "." | "s" | "u" | "~")
    }

    fn answer_on_file(
        &self,
        alloc: Global,
        bytes: &[u8],
        line: &str,
        out: &mut String,
    ) -> Result<(), AllocError> {
        let (kind, words) = split_kind(line);
        match kind {
            "!" => files::edit(alloc, bytes, words, Way::Batch, out),
            "$" => files::edit(alloc, bytes, words, Way::BatchWithSymbols, out),
            "." => files::edit(alloc, bytes, words, Way::Calls, out),
            "s" => files::edit(alloc, bytes, words, Way::NamedCall, out),
            "u" => files::edit(alloc, bytes, words, Way::ForceRunpath, out),
            "~" => files::edit(alloc, bytes, words, Way::Shrink, out),
            _ => shown::show_list(alloc, bytes, out),
        }
    }

    fn answer(&self, alloc: Global, line: &str, out: &mut String) -> Result<(), AllocError> {
        let (kind, rest) = split_kind(line);
        match kind {
            "?" => words::read_edits(alloc, rest, out),
            "k" => words::read_pair(alloc, rest, out),
            "a" => lists::show_abi(rest, out),
            "n" => lists::show_interpreter(alloc, rest, out),
            "@" => lists::edit(alloc, rest, out),
            "%" => paths::show_questions(alloc, rest, out),
            "-" => paths::shrink_list(alloc, rest, out),
            "*" => many::edit(alloc, rest, out),
            _ => Ok(()),
        }
    }
}
