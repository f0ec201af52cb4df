//! Commands on files in memory, and their notes. The files themselves stay as they are.
use crate::line::changes::print_rows;
use crate::line::faults::tell;
use crate::line::runs::{FILE, file_bytes};
use arwen_cli::cli::{
    ArwenError, Command, ElfCommand, MachoCommand, NotDone, Notes, Signing, edit_path, patch_path,
    print_path,
};
use arwen_cli::elf::Sink;
use byte_store::{MemoryFile, MemoryStore};
use std::alloc::Global;
use std::io;
use test_cases_files::{read_file, text_of};

/// What comes of a command on a file in memory: its store, and the notes, or what the command prints.
type Done = Result<(MemoryStore, String), ArwenError>;

/// Prints the notes of a command, done to a copy of the bytes of its file, or the fault.
pub(crate) fn print_notes(rt: &HostRuntime, command: &Command) -> io::Result<()> {
    match notes_of(rt, command) {
        Ok(notes) if notes.is_empty() => println!(rt; "no notes"),
        Ok(notes) => print!(rt; "{notes}"),
        Err(error) => tell(rt, &error),
    }
}

/// The notes of a command.
fn notes_of(rt: &HostRuntime, command: &Command) -> Result<String, ArwenError> {
    let path = match command {
        Command::Macho(command) => command.path_to_binary(),
        Command::Elf(command) => command.path_to_binary(),
        Command::Show(_) => return Ok(String::new(rt.alloc())),
    };
    let bytes = read_file(rt, path)?;
    let file = file_at(rt.alloc(), path, bytes.as_slice());
    let (_store, notes) = done_again(rt.alloc(), &file, command, Notes::Wanted)?;
    Ok(notes)
}

/// A file of these bytes at a path.
fn file_at<'a>(alloc: Global, path: &'a str, bytes: &'a [u8]) -> MemoryFile<'a> {
    MemoryFile { alloc, path, bytes }
}

/// Does what a command asks to a file in memory that has the bytes of the file. Prints its notes, and the rows that it
/// changed, or the fault. Without notes it prints what the command prints.
pub(crate) fn print_done(rt: &HostRuntime, command: &Command, notes: Notes) -> io::Result<()> {
    let bytes = file_bytes(rt)?;
    let file = file_at(rt.alloc(), FILE, bytes.as_slice());
    match done_again(rt.alloc(), &file, command, notes) {
        Ok((store, text)) => {
            print!(rt; "{text}")?;
            print_rows(rt, bytes.as_slice(), store.bytes.as_slice())
        }
        Err(error) => tell(rt, &error),
    }
}

/// What comes of a command on a file, made again where memory was refused.
fn done_again(alloc: Global, file: &MemoryFile<'_>, command: &Command, notes: Notes) -> Done {
    match done(alloc, file, command, notes) {
        Err(ArwenError::Memory) => done(alloc, file, command, notes),
        answer => answer,
    }
}

/// What comes of a command on a file. One that prints is done as an edit where notes are wanted, and has none.
fn done(alloc: Global, file: &MemoryFile<'_>, command: &Command, notes: Notes) -> Done {
    match (command, notes) {
        (Command::Macho(command), _) => macho_done(alloc, file, command, notes),
        (Command::Elf(command), Notes::LeftOut) if command.is_print() => {
            elf_printed(alloc, file, command)
        }
        (Command::Elf(command), _) => elf_done(alloc, file, command, notes),
        (Command::Show(_), _) => Err(ArwenError::NotAllShown),
    }
}

/// What comes of a command for Mach-O files on a file.
fn macho_done(alloc: Global, file: &MemoryFile<'_>, command: &MachoCommand, notes: Notes) -> Done {
    match patch_path(alloc, file, command, notes, Signing::Left) {
        Ok(done) => Ok(done),
        Err(refused) => Err(ArwenError::from(refused.error)),
    }
}

/// What comes of an edit of ELF files on a file.
fn elf_done(alloc: Global, file: &MemoryFile<'_>, command: &ElfCommand, notes: Notes) -> Done {
    match edit_path(alloc, file, command, notes) {
        Ok(done) => Ok(done),
        Err(NotDone { error, store }) => {
            drop(store);
            Err(ArwenError::from(error))
        }
    }
}

/// What comes of a command for ELF files that prints, on a file.
fn elf_printed(alloc: Global, file: &MemoryFile<'_>, command: &ElfCommand) -> Done {
    let mut out = Sink::new(Vec::new(alloc));
    match print_path(alloc, file, command, &mut out) {
        Ok(store) => with_text(alloc, store, out.get_ref().as_slice()),
        Err(NotDone { error, store }) => {
            drop(store);
            Err(ArwenError::from(error))
        }
    }
}

/// A store, with what was printed.
fn with_text(alloc: Global, store: MemoryStore, printed: &[u8]) -> Done {
    let text = String::from_str(alloc, text_of(printed))?;
    Ok((store, text))
}
