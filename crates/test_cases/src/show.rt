//! What is told of files, whose names are the lines.
//!
//! Printed is of each file what stands in its lines, and its line of JSON; of a file that is refused the error. Then all of
//! them are shown at once, with one that isn't there: what each writer got, and the answer.
use arwen_cli::cli::RegularBytes;
use arwen_cli::cli::show::{ShowCommandError, Style, show_bytes, show_paths};
use std::alloc::AllocError;
use std::io;
use std::io::Write;
use test_cases_files::read_file;

/// Runs lines.
pub(crate) fn run(rt: &HostRuntime, names: &str) -> io::Result<()> {
    for name in names.lines() {
        show_file(rt, name)?;
    }
    show_names(rt, names)
}

/// Prints what is told of a file, in both styles.
fn show_file(rt: &HostRuntime, name: &str) -> io::Result<()> {
    let bytes = read_file(rt, name)?;
    show(rt, name, bytes.as_slice(), Style::Lines)?;
    show(rt, name, bytes.as_slice(), Style::Json)
}

/// Prints what is told of the bytes of a file.
fn show(rt: &HostRuntime, name: &str, bytes: &[u8], style: Style) -> io::Result<()> {
    let mut text = Vec::new(rt.alloc());
    match show_bytes(rt.alloc(), name, bytes, style, &mut text) {
        Ok(()) => io::writer(rt).write_all(text.as_slice()),
        Err(error) => println!(rt; "{name}: {error}: {error:?}"),
    }
}

/// The names of lines, and one of no file.
fn paths_of(rt: &HostRuntime, names: &str) -> Result<Vec<String>, AllocError> {
    let mut paths = Vec::new(rt.alloc());
    for name in names.lines() {
        paths.push(String::from_str(rt.alloc(), name)?)?;
    }
    paths.push(String::from_str(rt.alloc(), "missing")?)?;
    Ok(paths)
}

/// Shows the files that lines name.
fn show_names(rt: &HostRuntime, names: &str) -> io::Result<()> {
    let paths = paths_of(rt, names)?;
    show_all(rt, paths.as_slice())
}

/// Shows files, each in a line of JSON, and prints what each writer got, and the answer.
fn show_all(rt: &HostRuntime, paths: &[String]) -> io::Result<()> {
    let files = RegularBytes { files: rt };
    let mut out = Vec::new(rt.alloc());
    let mut err = Vec::new(rt.alloc());
    let style = Style::Json;
    let answer = show_paths(rt.alloc(), &files, paths, style, &mut out, &mut err);
    io::writer(rt).write_all(out.as_slice())?;
    io::writer(rt).write_all(err.as_slice())?;
    print_answer(rt, &answer)
}

/// Prints what came of showing files.
fn print_answer(rt: &HostRuntime, answer: &Result<(), ShowCommandError>) -> io::Result<()> {
    match answer {
        Ok(()) => println!(rt; "all are shown"),
        Err(error) => println!(rt; "{error}"),
    }
}
