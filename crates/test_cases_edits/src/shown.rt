//! What a file shows.
use crate::entries::{put_brief, put_list, put_text};
use elf_image::{Builder, ElfFault, Symbol, VersionId};
use std::alloc::{AllocError, Global};
use test_cases_files::elf::{ElfContainer, ElfError};

/// Puts down the dynamic list of a file.
pub(crate) fn show_list(alloc: Global, bytes: &[u8], out: &mut String) -> Result<(), AllocError> {
    match Builder::read(alloc, bytes) {
        Ok(image) => put_list(image.dynamic_data().unwrap_or_default(), out),
        Err(ElfFault::Memory) => Err(AllocError),
        Err(fault) => writeln!(out, "{fault}"),
    }
}

/// What is printed of a file.
#[derive(Clone, Copy)]
enum Question {
    Runpath,
    Soname,
    Needed,
    Interpreter,
    OsAbi,
    ExecStack,
}

/// The prints, in the order of a line.
static PRINTS: [(&str, Question); 6] = [
    ("run path ", Question::Runpath),
    ("name ", Question::Soname),
    ("needs ", Question::Needed),
    ("interpreter ", Question::Interpreter),
    ("abi ", Question::OsAbi),
    ("stack ", Question::ExecStack),
];

/// Prints one thing that a file shows.
fn print(
    alloc: Global,
    file: &ElfContainer<'_>,
    what: Question,
    page: &mut Vec<u8>,
) -> Result<(), ElfError> {
    match what {
        Question::Runpath => file.print_runpath(alloc, page),
        Question::Soname => file.print_soname(alloc, page),
        Question::Needed => file.print_needed(alloc, page),
        Question::Interpreter => file.print_interpreter(alloc, page),
        Question::OsAbi => file.print_os_abi(alloc, page),
        Question::ExecStack => file.print_exec_stack(page),
    }
}

/// Puts down what is printed of one thing, with a comma for each line feed.
fn put_print(
    alloc: Global,
    file: &ElfContainer<'_>,
    what: Question,
    out: &mut String,
) -> Result<(), AllocError> {
    let mut page = Vec::new(alloc);
    match print(alloc, file, what, &mut page) {
        Ok(()) => put_lines(page.as_slice(), out),
        Err(_) => Err(AllocError),
    }
}

/// Puts down lines, with a comma for each line feed.
fn put_lines(lines: &[u8], out: &mut String) -> Result<(), AllocError> {
    for byte in lines {
        out.push(if *byte == b'\n' {
            ','
        } else {
            char::from(*byte)
        })?;
    }
    Ok(())
}

/// Puts down what a file shows: its dynamic list, what is printed of it, its page size, and whether it is changed.
pub(crate) fn put_shown(
    alloc: Global,
    file: &ElfContainer<'_>,
    out: &mut String,
) -> Result<(), AllocError> {
    let image = file.inner.builder();
    put_brief(image.dynamic_data().unwrap_or_default(), out)?;
    put_prints(alloc, file, out)?;
    put_ending(file.get_page_size(), image.changed(), out)
}

/// Puts down what is printed of a file.
fn put_prints(alloc: Global, file: &ElfContainer<'_>, out: &mut String) -> Result<(), AllocError> {
    for (name, what) in &PRINTS {
        out.push_str(name)?;
        put_print(alloc, file, *what, out)?;
        out.push(' ')?;
    }
    Ok(())
}

/// Puts down the end of a file's line.
fn put_ending(page_size: u32, changed: bool, out: &mut String) -> Result<(), AllocError> {
    let mark = if changed { "changed" } else { "as read" };
    writeln!(out, "pages {page_size} {mark}")
}

/// Puts down the dynamic symbols of a file in a line.
pub(crate) fn put_symbols(file: &ElfContainer<'_>, out: &mut String) -> Result<(), AllocError> {
    let symbols = file.inner.builder().dynamic_symbols();
    out.push_str("symbols")?;
    for i in 0..symbols.len() {
        put_symbol(&symbols.get(i), out)?;
    }
    out.push('\n')
}

/// Puts down the name of a symbol behind a blank, and its version.
fn put_symbol(symbol: &Symbol<'_>, out: &mut String) -> Result<(), AllocError> {
    out.push(' ')?;
    put_text(symbol.name, out)?;
    put_version(&symbol.version, out)
}

/// Puts down the index of a version behind a colon, with a mark where it is hidden.
fn put_version(version: &Option<VersionId>, out: &mut String) -> Result<(), AllocError> {
    let Some(version) = version else {
        return Ok(());
    };
    let mark = if version.hidden { "!" } else { "" };
    write!(out, ":{}{mark}", version.index)
}
