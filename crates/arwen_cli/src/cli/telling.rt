//! What the program says of a fault, beside what is asked for.
ghost use Rattle.std.specs.Prelude.{◌≡◌, Some, IfOk, map, option_map, string_bytes};
ghost use Rattle.arwen_cli.specs.Meaning.{shown};
ghost use Rattle.arwen_cli.specs.Telling.{AreEditsFor, IsFaultLine, IsLineWith, is_of_line as is_line_fault, path_if, path_of as path_told};
ghost use Rattle.arwen_cli_faults.specs.Causes.{AreCauses};
ghost use Rattle.arwen_cli_faults.specs.Groups.{group_model};

use crate::cli::Command;
use crate::cli::line::read_line;
use arwen_cli_faults::commands::GroupEdit;
use arwen_cli_faults::{ArwenError, causes_text, edits_of, file_fault_line};
use arwen_cli_parser::LineError;
use command_words::FileBytes;
use std::alloc::{AllocError, Global};

/// The line in which the program tells the fault of a line's words: in front the file that they name, where they name
/// one, then the causes, and in brackets what the last cause leaves open, for which the file is read again. Error:
/// `AllocError`.
pub fn fault_line<F: FileBytes>(
    alloc: Global,
    files: &F,
    words: &[&str],
    error: &ArwenError,
) -> Result<String, AllocError>
    ensures { IfOk result (λ line. IsFaultLine (F.contents files.now)
        (map (λ w. w.now) words.now) error.now (string_bytes line)) }
{
    if is_of_line(error) {
        return causes_text(alloc, error);
    }
    match read_line(alloc, words) {
        Ok(command) => named_line(alloc, files, &command, error),
        Err(unread) => unread_line(alloc, &unread, error),
    }
}

/// Whether a fault is one of the line itself, or of its edit list.
fn is_of_line(error: &ArwenError) -> bool
    ensures { result ≡ is_line_fault error.now }
{
    match error {
        ArwenError::Line { .. } | ArwenError::Edits(_) => true,
        _ => false,
    }
}

/// The line of a fault of words that were not read, since they mean no command or there was no memory.
fn unread_line(alloc: Global, unread: &LineError, error: &ArwenError) -> Result<String, AllocError>
    ensures means { IfOk result (λ _. unread.now ≡ LineError.Memory → ⊥) }
    ensures line { IfOk result (λ line. AreCauses error.now (string_bytes line)) }
{
    match unread {
        LineError::Memory => Err(AllocError),
        LineError::Text { .. } => causes_text(alloc, error),
    }
}

/// The line of a fault of a command, with its file.
fn named_line<F: FileBytes>(
    alloc: Global,
    files: &F,
    command: &Command,
    error: &ArwenError,
) -> Result<String, AllocError>
    ensures { IfOk result (λ line. IsLineWith (F.contents files.now)
        (path_told (shown command.now)) (Some (shown command.now)) error.now
        (string_bytes line)) }
{
    let Some(path) = path_of(command) else {
        return causes_text(alloc, error);
    };
    let edits = edits_for(alloc, command);
    file_fault_line(alloc, files, path, edits.as_slice(), error)
}

/// The path that a command names; `None` for the empty word, and of a command that shows files.
fn path_of(command: &Command) -> Option<&str>
    ensures { option_map (λ path. path.now) result ≡ path_told (shown command.entry.now) }
{
    match command {
        Command::Macho(macho) => some_path(macho.path_to_binary()),
        Command::Elf(elf) => some_path(elf.path_to_binary()),
        Command::Show(_) => None,
    }
}

/// A path that isn't the empty word.
fn some_path(path: &str) -> Option<&str>
    ensures { option_map (λ path. path.now) result ≡ path_if path.entry.now }
{
    if path.is_empty() { None } else { Some(path) }
}

/// The edits of ELF files that a command asks for.
fn edits_for(alloc: Global, command: &Command) -> Vec<GroupEdit>
    ensures { AreEditsFor (Some (shown command.now)) (map group_model result.items) }
{
    match command {
        Command::Elf(elf) => edits_of(alloc, elf),
        _ => Vec::new(alloc),
    }
}
