//! The calls that work on bytes and on a writer, and touch no file.
use crate::line::changes::print_rows;
use crate::line::faults::{tell, tell_answer};
use crate::line::runs::file_bytes;
use arwen_cli::cli::{
    ArwenError, Command, ElfCommand, ElfCommandError, MachoCommand, MachoCommandError, Signing,
    run_elf, run_macho,
};
use std::io;
use std::io::{Cursor, Write};

/// What a command for ELF files answers: new bytes where it is an edit that changes some.
type Answer = Result<Option<Vec<u8>>, ArwenError>;

/// Does what a command asks to the bytes of the file, and prints what comes of it, text that a command prints as such or
/// as what stands on a page.
pub(crate) fn run(rt: &HostRuntime, command: &Command, is_text: bool) -> io::Result<()> {
    let bytes = file_bytes(rt)?;
    match command {
        Command::Macho(command) if !is_text => edit_macho(rt, bytes.as_slice(), command),
        Command::Macho(_) => Ok(()),
        Command::Elf(command) if is_text => elf_text(rt, bytes.as_slice(), command),
        Command::Elf(command) => elf_page(rt, bytes.as_slice(), command),
        Command::Show(_) => println!(rt; "no bytes are changed"),
    }
}

/// Prints what a command makes of the bytes of a Mach-O file, or the fault.
fn edit_macho(rt: &HostRuntime, bytes: &[u8], command: &MachoCommand) -> io::Result<()> {
    match edited_macho(rt, bytes, command) {
        Ok(new) => print_rows(rt, bytes, new.as_slice()),
        Err(error) => tell(rt, &error),
    }
}

/// The bytes of a file after a command, made again where memory was refused.
fn edited_macho(
    rt: &HostRuntime,
    bytes: &[u8],
    command: &MachoCommand,
) -> Result<Vec<u8>, ArwenError> {
    let new = match run_macho(rt.alloc(), bytes, command, Signing::Left) {
        Err(MachoCommandError::Memory) => run_macho(rt.alloc(), bytes, command, Signing::Left),
        answer => answer,
    };
    Ok(new?)
}

/// Prints what a command for ELF files makes of the bytes of a file: the rows that an edit changes, or what is
/// printed on a page, and the fault.
fn elf_page(rt: &HostRuntime, bytes: &[u8], command: &ElfCommand) -> io::Result<()> {
    let mut page = Cursor::new([0; 8]);
    let answer = answer_of(rt, bytes, command, &mut page);
    if command.is_print() {
        print_page(rt, &answer, page.get_ref())
    } else {
        print_edit(rt, bytes, &answer)
    }
}

/// Prints the status, the fault, and what a command printed on a page.
fn print_page(rt: &HostRuntime, answer: &Answer, page: &[u8]) -> io::Result<()> {
    tell_answer(rt, answer)?;
    print_rows(rt, &[0; 8], page)
}

/// Prints the status, the fault, and the rows that an edit changes.
fn print_edit(rt: &HostRuntime, bytes: &[u8], answer: &Answer) -> io::Result<()> {
    tell_answer(rt, answer)?;
    match answer {
        Ok(Some(new)) => print_rows(rt, bytes, new.as_slice()),
        _ => println!(rt; "no new bytes"),
    }
}

/// Prints the text that a command for ELF files prints of the bytes of a file, the status, the fault, and the rows that
/// an edit changes.
fn elf_text(rt: &HostRuntime, bytes: &[u8], command: &ElfCommand) -> io::Result<()> {
    let mut sheet = Cursor::new([0; 256]);
    let answer = answer_of(rt, bytes, command, &mut sheet);
    print_sheet(rt, bytes, &answer, (sheet.get_ref(), sheet.position()))
}

/// Prints what stands on a sheet before a position, and what came of an edit.
fn print_sheet(
    rt: &HostRuntime,
    bytes: &[u8],
    answer: &Answer,
    (sheet, end): (&[u8], u64),
) -> io::Result<()> {
    print_text(rt, sheet, end)?;
    print_edit(rt, bytes, answer)
}

/// Prints what stands on a sheet before a position.
fn print_text(rt: &HostRuntime, sheet: &[u8], end: u64) -> io::Result<()> {
    let printed = sheet
        .get(..usize::try_from(end).unwrap_or(0))
        .unwrap_or_default();
    print!(rt; "{}", std::str::from_utf8(printed).unwrap_or(""))
}

/// The answer of a command to which no answers are handed in, so that it finds no library. It is asked for again where
/// memory was refused: that leaves the writer as it was.
fn answer_of<W: Write>(
    rt: &HostRuntime,
    bytes: &[u8],
    command: &ElfCommand,
    page: &mut W,
) -> Answer {
    let new = match run_elf(rt.alloc(), bytes, command, &[], page) {
        Err(ElfCommandError::Memory) => run_elf(rt.alloc(), bytes, command, &[], page),
        answer => answer,
    };
    Ok(new?)
}
