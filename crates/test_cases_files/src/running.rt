//! Lines that are run, and the files that they are run on.
use crate::files::read_file;
use std::alloc::{AllocError, Global};
use std::io;

/// What comes of lines. Where memory is refused, a line is answered once more.
pub trait Cases {
    /// Whether a line speaks of the files that were named last.
    fn is_on_files(&self, line: &str) -> bool;

    /// Puts down what comes of a line for a file of these bytes.
    fn answer_on_file(
        &self,
        alloc: Global,
        bytes: &[u8],
        line: &str,
        out: &mut String,
    ) -> Result<(), AllocError>;

    /// Puts down what comes of any other line.
    fn answer(&self, alloc: Global, line: &str, out: &mut String) -> Result<(), AllocError>;
}

/// Prints each line, and below it what comes of it. A line `= NAME ..` names the files that it and the lines below it
/// speak of.
pub fn run_cases<C: Cases>(rt: &HostRuntime, cases: &C, lines: &str) -> io::Result<()> {
    let mut names = "";
    for line in lines.lines() {
        if let Some(named) = line.strip_prefix("= ") {
            names = named;
        }
        println!(rt; "{line}")?;
        run_line(rt, cases, names, line)?;
    }
    Ok(())
}

/// Prints what comes of a line.
fn run_line<C: Cases>(rt: &HostRuntime, cases: &C, names: &str, line: &str) -> io::Result<()> {
    if !cases.is_on_files(line) {
        return run_alone(rt, cases, line);
    }
    for name in names.split(' ') {
        run_on_file(rt, cases, name, line)?;
    }
    Ok(())
}

/// Prints what comes of a line that speaks of no file.
fn run_alone<C: Cases>(rt: &HostRuntime, cases: &C, line: &str) -> io::Result<()> {
    let mut out = String::new(rt.alloc());
    answer_again(rt.alloc(), cases, line, &mut out)?;
    print!(rt; "{out}")
}

/// What comes of a line, once more where memory was refused.
fn answer_again<C: Cases>(
    alloc: Global,
    cases: &C,
    line: &str,
    out: &mut String,
) -> Result<(), AllocError> {
    if cases.answer(alloc, line, out).is_ok() {
        return Ok(());
    }
    out.clear();
    cases.answer(alloc, line, out)
}

/// Prints what comes of a line for a file.
fn run_on_file<C: Cases>(rt: &HostRuntime, cases: &C, name: &str, line: &str) -> io::Result<()> {
    let bytes = read_file(rt, name)?;
    print!(rt; "{name}: ")?;
    run_on_bytes(rt, cases, bytes.as_slice(), line)
}

/// Prints what comes of a line for a file of these bytes.
fn run_on_bytes<C: Cases>(rt: &HostRuntime, cases: &C, bytes: &[u8], line: &str) -> io::Result<()> {
    let mut out = String::new(rt.alloc());
    answer_on_file_again(rt.alloc(), cases, bytes, line, &mut out)?;
    print!(rt; "{out}")
}

/// What comes of a line for a file of these bytes, once more where memory was refused.
fn answer_on_file_again<C: Cases>(
    alloc: Global,
    cases: &C,
    bytes: &[u8],
    line: &str,
    out: &mut String,
) -> Result<(), AllocError> {
    if cases.answer_on_file(alloc, bytes, line, out).is_ok() {
        return Ok(());
    }
    out.clear();
    cases.answer_on_file(alloc, bytes, line, out)
}
