//! The line that tells a fault of a file.
ghost use Rattle.std.specs.Prelude.{◌≡◌, IfOk, map, option_map, string_bytes};
ghost use Rattle.arwen_cli_show.specs.Reasons.{TellsWords, elf_words as words_for};
ghost use Rattle.arwen_cli_show.specs.Texts.{text_model};
ghost use Rattle.elf_commands.specs.Groups.{group_model};
ghost use Rattle.arwen_cli_faults.specs.Telling.{IsBracket, IsBracketOf, IsElfBracket, IsFileFault};

use crate::causes::causes_text;
use crate::error::ArwenError;
use crate::overlap::overlap_text;
use arwen_cli_show::{Told, bracket_of, elf_words, file_line, macho_words, rule_of};
use arwen_macho::macho::MachoError;
use command_words::FileBytes;
use elf_commands::GroupEdit;
use elf_commands::files::{ElfError, ModifyCause};
use std::alloc::{AllocError, Global};

/// The line that tells a fault of the file at a path, of which these edits of ELF files were asked: the path, the causes, and in
/// brackets what the last cause leaves open, for which the file is read again: what it is, the read rule that it breaks, or two
/// blocks that stand against the edits. Error: `AllocError`.
pub fn file_fault_line<F: FileBytes>(
    alloc: Global,
    files: &F,
    path: &str,
    edits: &[GroupEdit],
    error: &ArwenError,
) -> Result<String, AllocError>
    ensures { IfOk result (λ line. IsFileFault (F.contents files.now path.now)
        (map group_model edits.now) path.now error.now (string_bytes line)) }
{
    let causes = causes_text(alloc, error)?;
    let bracket = bracket_at(alloc, files, path, edits, error)?;
    file_line(alloc, path, causes.as_str(), &bracket)
}

/// What stands in brackets behind a fault of the file at a path; `None` also where the file can't be read.
fn bracket_at<F: FileBytes>(
    alloc: Global,
    files: &F,
    path: &str,
    edits: &[GroupEdit],
    error: &ArwenError,
) -> Result<Option<String>, AllocError>
    ensures { IfOk result (λ bracket. IsBracket (F.contents files.now path.now)
        (map group_model edits.now) error.now (text_model bracket)) }
{
    if !is_open(error) {
        return Ok(None);
    }
    match files.bytes(alloc, path) {
        Ok(bytes) => bracket_in(alloc, bytes.as_slice(), edits, error),
        Err(_) => Ok(None),
    }
}

/// Whether the bytes of the file say more of a fault.
fn is_open(error: &ArwenError) -> bool {
    matches!(
        error,
        ArwenError::Elf(ElfError::Parse(_) | ElfError::Modify(ModifyCause::Overlap))
            | ArwenError::Macho(MachoError::Parsing(_))
    )
}

/// What the bytes of the file say of a fault.
fn bracket_in(
    alloc: Global,
    bytes: &[u8],
    edits: &[GroupEdit],
    error: &ArwenError,
) -> Result<Option<String>, AllocError>
    ensures { IfOk result (λ bracket. IsBracketOf (map group_model edits.now) error.now bytes.now
        (text_model bracket)) }
{
    match error {
        ArwenError::Elf(fault) => elf_bracket(alloc, bytes, edits, fault),
        ArwenError::Macho(fault) => copied(alloc, macho_words(fault, bytes)),
        _ => Ok(None),
    }
}

/// What the bytes of an ELF file say of a fault.
fn elf_bracket(
    alloc: Global,
    bytes: &[u8],
    edits: &[GroupEdit],
    fault: &ElfError,
) -> Result<Option<String>, AllocError>
    ensures { IfOk result (λ bracket. IsElfBracket (map group_model edits.now) fault.now bytes.now
        (text_model bracket)) }
{
    match fault {
        ElfError::Parse(_) => bracket_of(alloc, reason_of(alloc, bytes, fault)),
        ElfError::Modify(ModifyCause::Overlap) => Ok(overlap_text(alloc, bytes, edits)),
        _ => Ok(None),
    }
}

/// What the fault of an ELF file leaves open that isn't read: what the file is, or the read rule that it breaks.
fn reason_of<'t>(alloc: Global, bytes: &[u8], fault: &ElfError) -> Option<Told<'t>>
    ensures { TellsWords (words_for fault.now bytes.now) bytes.now result }
{
    match elf_words(fault, bytes) {
        Some(words) => Some(Told::Words(words)),
        None => rule_of(alloc, bytes),
    }
}

/// A copy of a text that may be missing.
fn copied(alloc: Global, text: Option<&str>) -> Result<Option<String>, AllocError>
    ensures { IfOk result (λ copy.
        text_model copy ≡ option_map (λ text. text.now) text.entry) }
{
    match text {
        None => Ok(None),
        Some(text) => Ok(Some(String::from_str(alloc, text)?)),
    }
}
