//! What is printed of an answer.
use arwen_cli::cli::{ArwenError, RegularBytes, fault_line};
use std::alloc::AllocError;
use std::io;

/// Prints the status, and the first line of a fault.
pub(crate) fn tell_answer<T>(rt: &HostRuntime, answer: &Result<T, ArwenError>) -> io::Result<()> {
    match answer {
        Ok(_) => println!(rt; "status 0"),
        Err(error) => tell(rt, error),
    }
}

/// Prints the status, and the first line of a fault of a line's words, with the file that they name.
pub(crate) fn tell_named(
    rt: &HostRuntime,
    words: &[&str],
    answer: &Result<(), ArwenError>,
) -> io::Result<()> {
    match answer {
        Ok(()) => println!(rt; "status 0"),
        Err(error) => tell_fault(rt, words, error),
    }
}

/// Prints the status after such a fault, and its first line.
fn tell_fault(rt: &HostRuntime, words: &[&str], error: &ArwenError) -> io::Result<()> {
    match named_line(rt, words, error) {
        Ok(line) => println!(rt; "status {}: {}", error.status(), first_line(&line)),
        Err(_) => tell(rt, error),
    }
}

/// The line of such a fault, made again where memory was refused.
fn named_line(rt: &HostRuntime, words: &[&str], error: &ArwenError) -> Result<String, AllocError> {
    let files = RegularBytes { files: rt };
    match fault_line(rt.alloc(), &files, words, error) {
        Err(_) => fault_line(rt.alloc(), &files, words, error),
        line => line,
    }
}

/// Prints the status after a fault, and its first line.
pub(crate) fn tell(rt: &HostRuntime, error: &ArwenError) -> io::Result<()> {
    let status = error.status();
    match error {
        ArwenError::Line { text, .. } => println!(rt; "status {status}: {}", first_line(text)),
        _ => println!(rt; "status {status}: {}", error.line()),
    }
}

/// The first line of a text.
fn first_line(text: &String) -> &str {
    text.as_str().lines().next().unwrap_or("")
}
