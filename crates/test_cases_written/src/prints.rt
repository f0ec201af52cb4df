//! What the container prints of a file.

use crate::edits::{tell, tell_answer};
use arwen_elf::elf::{ElfContainer, ElfError};
use std::alloc::Global;
use std::io;
use std::io::{Cursor, Write};

/// The prints.
#[derive(Clone, Copy, Debug)]
enum What {
    RunPath,
    Name,
    Needed,
    Interpreter,
    OsAbi,
    ExecStack,
}

const PRINTS: [What; 6] = [
    What::RunPath,
    What::Name,
    What::Needed,
    What::Interpreter,
    What::OsAbi,
    What::ExecStack,
];

/// A writer that has room for a line or two.
type Page = Cursor<[u8; 32]>;

fn print<W: Write>(
    alloc: Global,
    file: &ElfContainer<'_>,
    what: What,
    out: &mut W,
) -> Result<(), ElfError> {
    match what {
        What::RunPath => file.print_runpath(alloc, out),
        What::Name => file.print_soname(alloc, out),
        What::Needed => file.print_needed(alloc, out),
        What::Interpreter => file.print_interpreter(alloc, out),
        What::OsAbi => file.print_os_abi(alloc, out),
        What::ExecStack => file.print_exec_stack(out),
    }
}

/// Prints to a page, once more where memory was refused and the page is empty.
fn print_to(
    alloc: Global,
    file: &ElfContainer<'_>,
    what: What,
    page: &mut Page,
) -> Result<(), ElfError> {
    match print(alloc, file, what, page) {
        Err(ElfError::Memory) if page.position() == 0 && page.get_ref() == &[0; 32] => {
            print(alloc, file, what, page)
        }
        answer => answer,
    }
}

/// Prints what stands on a page.
fn print_page(rt: &HostRuntime, what: What, page: &Page) -> io::Result<()> {
    let bytes: &[u8] = page.get_ref();
    let end = usize::try_from(page.position()).unwrap_or(0);
    let printed = bytes.get(..end).unwrap_or_default();
    println!(rt;
        "{what:?} {:?}",
        std::str::from_utf8(printed).unwrap_or("no text")
    )
}

/// Prints what a print writes to a page, or why it does not.
fn print_once(rt: &HostRuntime, file: &ElfContainer<'_>, what: What) -> io::Result<()> {
    let mut page = Cursor::new([0; 32]);
    match print_to(rt.alloc(), file, what, &mut page) {
        Ok(()) => print_page(rt, what, &page),
        Err(error) => tell(rt, &error),
    }
}

/// Prints what each of the container's prints writes.
pub(crate) fn print_each(rt: &HostRuntime, file: &ElfContainer<'_>) -> io::Result<()> {
    for what in PRINTS {
        print_once(rt, file, what)?;
    }
    Ok(())
}

/// The print of needed libraries to a page of three bytes.
fn print_to_little(alloc: Global, file: &ElfContainer<'_>) -> Result<(), ElfError> {
    let mut page = Cursor::new([0u8; 3]);
    print(alloc, file, What::Needed, &mut page)
}

/// Prints what comes of a print of needed libraries to a page of three bytes.
pub(crate) fn print_little(rt: &HostRuntime, file: &ElfContainer<'_>) -> io::Result<()> {
    match print_to_little(rt.alloc(), file) {
        Err(ElfError::Memory) => tell_answer(rt, &print_to_little(rt.alloc(), file)),
        answer => tell_answer(rt, &answer),
    }
}
