//! Lines that are run on a file.
use crate::line::changes::print_changes;
use crate::line::faults::tell_named;
use crate::line::reading::{command_of, words_of};
use crate::line::{library, modules};
use arwen_cli::cli::{ArwenError, execute};
use std::{fs, io};

/// The file that lines are run on.
pub(crate) const FILE: &str = "file";

/// What does a line.
#[derive(Clone, Copy)]
pub(crate) enum Way {
    /// The command line.
    Line,
    /// The function of the command's own module.
    Module,
    /// Calls of the library.
    Library,
}

/// The bytes of a file, or `None` where there is no such file. Read again where memory was refused.
fn content(rt: &HostRuntime, path: &str) -> io::Result<Option<Vec<u8>>> {
    match fs::read(rt, path) {
        Ok(bytes) => Ok(Some(bytes)),
        Err(error) if error.kind() == io::ErrorKind::NotFound => Ok(None),
        Err(_) => fs::read(rt, path).map(Some),
    }
}

/// The bytes of the file, none where there is no file.
pub(crate) fn file_bytes(rt: &HostRuntime) -> io::Result<Vec<u8>> {
    Ok(content(rt, FILE)?.unwrap_or(Vec::new(rt.alloc())))
}

/// Makes the file a copy of another, or takes it away where there is no other.
pub(crate) fn copy(rt: &HostRuntime, name: &str) -> io::Result<()> {
    match content(rt, name)? {
        Some(bytes) => fs::write(rt, FILE, bytes.as_slice()),
        None => remove(rt),
    }
}

/// Takes the file away, where there is one.
fn remove(rt: &HostRuntime) -> io::Result<()> {
    match fs::remove_file(rt, FILE) {
        Err(error) if error.kind() == io::ErrorKind::NotFound => Ok(()),
        answer => answer,
    }
}

/// Does what the words of a line ask, and prints what came of it and of the file.
pub(crate) fn run(rt: &HostRuntime, line: &str, way: Way) -> io::Result<()> {
    let before = content(rt, FILE)?;
    run_from(rt, line, way, &before)
}

/// Does what the words of a line ask, where the file was read before.
fn run_from(rt: &HostRuntime, line: &str, way: Way, before: &Option<Vec<u8>>) -> io::Result<()> {
    run_line(rt, line, way, before)?;
    print_file(rt, before)
}

/// Does what the words of a line ask, and prints the status and the fault.
fn run_line(rt: &HostRuntime, line: &str, way: Way, before: &Option<Vec<u8>>) -> io::Result<()> {
    let words = match words_of(rt, line) {
        Ok(words) => words,
        Err(_) => return println!(rt; "no memory for the words"),
    };
    let answer = answer(rt, words.as_slice(), way, before);
    tell_named(rt, words.as_slice(), &answer)
}

/// Prints what became of the file.
fn print_file(rt: &HostRuntime, before: &Option<Vec<u8>>) -> io::Result<()> {
    let after = content(rt, FILE)?;
    print_changes(rt, before, &after)
}

/// Does what words ask, once more where memory was refused.
fn answer(
    rt: &HostRuntime,
    words: &[&str],
    way: Way,
    before: &Option<Vec<u8>>,
) -> Result<(), ArwenError> {
    match execute_in_way(rt, words, way) {
        Err(ArwenError::Memory) => answer_again(rt, words, way, before),
        answer => answer,
    }
}

/// Does it once more; the file has to be as it was.
fn answer_again(
    rt: &HostRuntime,
    words: &[&str],
    way: Way,
    before: &Option<Vec<u8>>,
) -> Result<(), ArwenError> {
    check_file(rt, before)?;
    execute_in_way(rt, words, way)
}

/// Says so where a command that was refused memory did not leave the file as it was.
fn check_file(rt: &HostRuntime, before: &Option<Vec<u8>>) -> io::Result<()> {
    let after = content(rt, FILE)?;
    check_same(rt, before, &after)
}

/// Says so where two contents differ.
fn check_same(
    rt: &HostRuntime,
    before: &Option<Vec<u8>>,
    after: &Option<Vec<u8>>,
) -> io::Result<()> {
    if before == after {
        return Ok(());
    }
    println!(rt; "refused memory, and changed the file")
}

/// Does what words ask.
fn execute_in_way(rt: &HostRuntime, words: &[&str], way: Way) -> Result<(), ArwenError> {
    match way {
        Way::Line => execute(rt, words),
        Way::Module => execute_by_module(rt, words),
        Way::Library => library::relocate(rt, FILE, words),
    }
}

/// Does what words ask by the module of their command.
fn execute_by_module(rt: &HostRuntime, words: &[&str]) -> Result<(), ArwenError> {
    modules::execute(rt, command_of(rt, words)?)
}
