//! Where everything of edited ELF files goes, on lines of cases.
//!
//! A line `= NAME ..` names the files that the lines below it speak of. A line `! WORD ..` does edits to each of them in
//! one batch, and prints the plan:
//!
//! - `edit N refused: ..` where an edit is refused, or why there is no plan;
//! - else a line with how many rounds it took, with how many program headers more the last one looked, and where the two
//!   header tables stand; a line `s` for each section: type, address, offset and size; a line `p` for each program header:
//!   type, flags, offset, two addresses, two sizes and alignment. All numbers but counts are hexadecimal.
//!
//! A line `? WORD ..` prints, of the file with these edits, or as it is where there are none, what the calls on the way to
//! a plan answer: the new sizes of the sections; the positions of those that move with no program header more, with one,
//! and with two; and the plan by these sizes.
//!
//! Words are read by their marks. Nothing comes of other lines.
mod edited;
mod lines;
mod steps;

use crate::plans::edited::Shown;
use crate::words::split_kind;
use crate::{Cases, run_cases};
use std::alloc::{AllocError, Global};
use std::io;

/// Runs lines, and prints each with what comes of it.
pub fn run(rt: &HostRuntime, lines: &str) -> io::Result<()> {
    run_cases(rt, &PlanCases, lines)
}

/// Lines of plans.
struct PlanCases;

impl Cases for PlanCases {
    fn is_on_files(&self, line: &str) -> bool {
        shown_by(split_kind(line).0).is_some()
    }

    fn answer_on_file(
        &self,
        alloc: Global,
        bytes: &[u8],
        line: &str,
        out: &mut String,
    ) -> Result<(), AllocError> {
        let (kind, words) = split_kind(line);
        match shown_by(kind) {
            Some(shown) => edited::show(alloc, bytes, shown, words, out),
            None => Ok(()),
        }
    }

    fn answer(&self, _alloc: Global, _line: &str, _out: &mut String) -> Result<(), AllocError> {
        Ok(())
    }
}

/// What a line of this kind asks for.
fn shown_by(kind: &str) -> Option<Shown> {
    match kind {
        "!" => Some(Shown::Plan),
        "?" => Some(Shown::Steps),
        _ => None,
    }
}
