//! Faults that no file has, made by their names.
use arwen_cli::cli::{ArwenError, EditsError};
use arwen_cli::commands::{CommandBuilderError, NulInside};
use arwen_cli::elf::{ElfError, ElfFault};
use arwen_cli::macho::{MachoBatchError, MachoError};
use byte_store::ReadError;
use std::alloc::AllocError;
use std::io;
use std::io::ErrorKind;

/// Prints the status after the fault of a name, its words, and its line.
pub(crate) fn tell_named(rt: &HostRuntime, name: &str) -> io::Result<()> {
    let error = fault(name, usage(rt)?);
    println!(rt; "status {}, {error}: {}", error.status(), error.line())
}

/// The text that a line is answered with, copied again where memory was refused.
fn usage(rt: &HostRuntime) -> Result<String, AllocError> {
    match String::from_str(rt.alloc(), "Usage: ..") {
        Err(_) => String::from_str(rt.alloc(), "Usage: .."),
        copied => copied,
    }
}

/// The fault of a name; for another name that not all files are shown.
fn fault(name: &str, text: String) -> ArwenError {
    match name {
        "nul" => ArwenError::from(MachoError::CommandBuilderError(CommandBuilderError::CStrError(
            NulInside { position: 1 },
        ))),
        "long" => ArwenError::from(MachoError::CommandBuilderError(
            CommandBuilderError::ScrollError,
        )),
        "memory" => ArwenError::from(AllocError),
        "memory-macho" => ArwenError::from(MachoError::Memory),
        "memory-batch" => ArwenError::from(MachoBatchError {
            index: 0,
            fault: MachoError::Memory,
        }),
        "memory-edits" => ArwenError::from(EditsError::Memory),
        "memory-elf" => ArwenError::from(ElfError::Memory),
        "file" => ArwenError::from(io::Error::from(ErrorKind::NotFound)),
        "read" => ArwenError::from(ReadError::Io(io::Error::from(ErrorKind::UnexpectedEof))),
        "line" => ArwenError::Line { text, status: 0 },
        "elf-file" => ArwenError::from(ElfError::from(io::Error::from(ErrorKind::NotFound))),
        "elf-number" => ArwenError::from(ElfError::Write(ElfFault::NumberTooLarge)),
        "elf-name" => ArwenError::from(ElfError::InvalidDtNeededEncoding),
        _ => ArwenError::NotAllShown,
    }
}
