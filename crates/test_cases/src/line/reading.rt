//! The words of a line, and the command that they mean.
use crate::line::faults::tell;
use crate::line::notes::{print_done, print_notes};
use crate::line::{bytes, stores};
use arwen_cli::cli::{ArwenError, Command, Notes, parse_line};
use std::alloc::AllocError;
use std::io;
use test_cases_files::words::split_words;

/// The words of a line, split again where memory was refused.
pub(crate) fn words_of<'a>(rt: &HostRuntime, line: &'a str) -> Result<Vec<&'a str>, AllocError> {
    match split_words(rt.alloc(), line, ' ') {
        Err(_) => split_words(rt.alloc(), line, ' '),
        words => words,
    }
}

/// The command that words mean, read again where memory was refused.
pub(crate) fn command_of(rt: &HostRuntime, words: &[&str]) -> Result<Command, ArwenError> {
    match parse_line(rt.alloc(), words) {
        Err(ArwenError::Memory) => parse_line(rt.alloc(), words),
        answer => answer,
    }
}

/// What is done with a command that was read.
#[derive(Clone, Copy)]
pub(crate) enum Use {
    /// The command is printed.
    Show,
    /// The command's notes are printed.
    ShowNotes,
    /// The text is printed with which the line was answered.
    ShowText,
    /// The command is done to bytes; one that prints prints on a page.
    OnPage,
    /// The command is done to bytes; what it prints is printed as text.
    AsText,
    /// The command is done to a file in memory.
    InMemory(Notes),
    /// The command is done to stores that fail.
    OnStores,
}

/// The command that the words of a line mean.
fn line_command(rt: &HostRuntime, line: &str) -> Result<Command, ArwenError> {
    let words = words_of(rt, line)?;
    command_of(rt, words.as_slice())
}

/// Reads the words of a line, and uses the command that they mean.
pub(crate) fn read(rt: &HostRuntime, line: &str, for_use: Use) -> io::Result<()> {
    let command = line_command(rt, line);
    use_line(rt, &command, for_use)
}

/// Uses a command, or the answer to words that mean none.
fn use_line(
    rt: &HostRuntime,
    command: &Result<Command, ArwenError>,
    for_use: Use,
) -> io::Result<()> {
    match command {
        Ok(command) => use_command(rt, command, for_use),
        Err(error) => use_answer(rt, error, for_use),
    }
}

/// Uses a command.
fn use_command(rt: &HostRuntime, command: &Command, for_use: Use) -> io::Result<()> {
    match for_use {
        Use::Show => println!(rt; "{command:?}"),
        Use::ShowNotes => print_notes(rt, command),
        Use::ShowText => println!(rt; "no text"),
        Use::OnPage => bytes::run(rt, command, false),
        Use::AsText => bytes::run(rt, command, true),
        Use::InMemory(notes) => print_done(rt, command, notes),
        Use::OnStores => stores::run(rt, command),
    }
}

/// Prints the answer to words that mean no command: all of its text, or the status and its first line.
fn use_answer(rt: &HostRuntime, error: &ArwenError, for_use: Use) -> io::Result<()> {
    match (for_use, error) {
        (Use::ShowText, ArwenError::Line { text, status }) => {
            print!(rt; "status {status}:\n{text}")
        }
        (Use::ShowText, _) => println!(rt; "no text"),
        _ => tell(rt, error),
    }
}
