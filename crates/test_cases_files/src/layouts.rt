//! Layouts of edited ELF files, on lines of cases: `lay_out` is set beside a slow and plain way.
//!
//! A line `= NAME ..` names the files that the lines below it speak of. Any other line but an empty one and one that
//! begins with `#` is a row of edits, WORD or WORD=NUMBER: `path`, `name` and `interpreter` set a text of so many letters,
//! `debug` adds an entry, `stack` sets the permission of the stack, `page` the page size, `leave` lets the dynamic section move;
//! before `again` the file is written, and read again. Printed is for each file whether both ways found the same.
mod compared;
mod edits;

use crate::{Cases, run_cases};
use std::alloc::{AllocError, Global};
use std::io;

/// Runs lines, and prints each with what comes of it.
pub fn run(rt: &HostRuntime, lines: &str) -> io::Result<()> {
    run_cases(rt, &Layouts, lines)
}

/// Lines of layouts.
struct Layouts;

impl Cases for Layouts {
    fn is_on_files(&self, line: &str) -> bool {
        !line.is_empty() && !line.starts_with('#') && !line.starts_with("= ")
    }

    fn answer_on_file(
        &self,
        alloc: Global,
        bytes: &[u8],
        line: &str,
        out: &mut String,
    ) -> Result<(), AllocError> {
        out.push_str(edits::compare(alloc, bytes, line)?)?;
        out.push('\n')
    }

    fn answer(&self, _alloc: Global, _line: &str, _out: &mut String) -> Result<(), AllocError> {
        Ok(())
    }
}
