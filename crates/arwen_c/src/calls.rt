//! What calls do with what they are lent.
ghost use Rattle.std.specs.Prelude.{◌≡◌, IfErr, IfOk, map, string_bytes};
ghost use Rattle.std.specs.Str.Lossy.{utf8_lossy};
ghost use Rattle.arwen_c.specs.Calls.{elf_groups_read, IsApplied, IsAppliedByWords, IsElfOf, IsMachoOf, IsMadeByWords, IsSigned, TellsApplied, TellsAppliedByWords, TellsByWords, TellsElfOf, TellsMachoOf, TellsUnsigned};
ghost use Rattle.arwen_c.specs.Made.{IsElfMade, IsMachoMade, IsShown, OrMemory, TellsElf, TellsMacho, TellsUnshown, edits_with, has_flag as has_flag_told, signing_by as signing_told};
ghost use Rattle.arwen_c.specs.declared.error.CallError.TheVariants.{Array, Words};
ghost use Rattle.arwen_c_edits.specs.Lent.{edit_model, text_model};
ghost use Rattle.arwen_c_edits.specs.MachoEdits.{macho_edits_read};
ghost use Rattle.elf_commands.specs.ElfEngine.{bytes_left};
ghost use Rattle.elf_commands.specs.ElfWords.{elf_edits_of};
ghost use Rattle.elf_commands.specs.Groups.{group_model};
ghost use Rattle.elf_image.specs.Rules.{has_magic as has_magic_told};
ghost use Rattle.macho_commands.specs.Edits.{edits_of};
ghost use Rattle.macho_commands.specs.Meaning.{batch as batch_of, macho_command_model, sign as sign_of};
ghost use Rattle.macho_edits.specs.Batch.{calls_of};

use crate::answer::Made;
use crate::error::CallError;
use crate::groups::{groups_of, with_leave};
use crate::status::{ARWEN_MOVE_DYNAMIC, ARWEN_SIGN};
use crate::words::words_of;
use arwen_c_edits::{LentEdit, LentText, read_elf_edits, read_macho_edits};
use arwen_cli_show::{Style, show_bytes};
use command_words::Notes;
use elf_commands::elf::edit_bytes;
use elf_commands::{GroupEdit, parse_elf_edits};
use elf_format::opening::has_magic;
use macho_commands::{MachoCommand, Signing, batch, parse_macho_edits, run_macho_telling, sign};
use macho_edits::batch::MachoEdit;
use std::alloc::{AllocError, Global};

/// The bytes of a file after the edits of an array, an ELF file by its magic, any other as a Mach-O file, and the notes, which call
/// the file by a name; what of the name is no UTF-8 is U+FFFD in them. Errors: `Array` with the first edit that is wrong, `Elf`
/// or `Macho` with what refuses the file or an edit, `Memory`.
pub fn applied(
    alloc: Global,
    bytes: &[u8],
    edits: &[LentEdit<'_>],
    name: &[u8],
    flags: u32,
) -> Result<Made, CallError>
    ensures ok { IfOk result (λ made. IsApplied (map edit_model edits.now) name.now flags
        bytes.now made.bytes.items made.text.items) }
    ensures err { IfErr result (TellsApplied (map edit_model edits.now) name.now flags
        bytes.now) }
{
    let name = String::from_utf8_lossy(alloc, name)?;
    if has_magic(bytes) {
        elf_applied(alloc, bytes, edits, name.as_str(), flags)
    } else {
        macho_applied(alloc, bytes, edits, name.as_str(), flags)
    }
}

/// The bytes of an ELF file after the edits of an array, and the notes. Errors: those of `applied`.
fn elf_applied(
    alloc: Global,
    bytes: &[u8],
    edits: &[LentEdit<'_>],
    name: &str,
    flags: u32,
) -> Result<Made, CallError>
    ensures ok { IfOk result (λ made. IsElfOf (elf_groups_read (map edit_model edits.now))
        name.now flags bytes.now made.bytes.items made.text.items) }
    ensures err { IfErr result (OrMemory (TellsElfOf Array
        (elf_groups_read (map edit_model edits.now)) flags bytes.now)) }
{
    match read_elf_edits(alloc, edits) {
        Ok(edits) => elf_made(alloc, bytes, groups_of(alloc, edits)?, name, flags),
        Err(error) => Err(CallError::from(error)),
    }
}

/// The bytes of a Mach-O file after the edits of an array, and the notes. Errors: those of
/// `applied`.
fn macho_applied(
    alloc: Global,
    bytes: &[u8],
    edits: &[LentEdit<'_>],
    name: &str,
    flags: u32,
) -> Result<Made, CallError>
    ensures ok { IfOk result (λ made. IsMachoOf (macho_edits_read (map edit_model edits.now))
        name.now flags bytes.now made.bytes.items made.text.items) }
    ensures err { IfErr result (OrMemory (TellsMachoOf Array
        (macho_edits_read (map edit_model edits.now)) name.now flags bytes.now)) }
{
    match read_macho_edits(alloc, edits) {
        Ok(edits) => macho_made(alloc, bytes, edits, name, flags),
        Err(error) => Err(CallError::from(error)),
    }
}

/// The bytes of a file after the edits that words name, and the notes. Errors: `NoText` with the group of the first word that is no
/// UTF-8, `Words` with the first group that is wrong, and those of `applied`.
pub fn applied_words(
    alloc: Global,
    bytes: &[u8],
    words: &[LentText<'_>],
    name: &[u8],
    flags: u32,
) -> Result<Made, CallError>
    ensures ok { IfOk result (λ made. IsAppliedByWords (map text_model words.now) name.now flags
        bytes.now made.bytes.items made.text.items) }
    ensures err { IfErr result (TellsAppliedByWords (map text_model words.now) name.now flags
        bytes.now) }
{
    match words_of(alloc, words) {
        Ok(words) => by_words(alloc, bytes, words.as_slice(), name, flags),
        Err(error) => Err(error),
    }
}

/// The bytes of a file after the edits that words in UTF-8 name, and the notes.
fn by_words(
    alloc: Global,
    bytes: &[u8],
    words: &[&str],
    name: &[u8],
    flags: u32,
) -> Result<Made, CallError>
    ensures ok { IfOk result (λ made. IsMadeByWords (has_magic_told bytes.now)
        (map (λ w. w.now) words.now) (utf8_lossy name.now) flags
        bytes.now made.bytes.items made.text.items) }
    ensures err { IfErr result (OrMemory (TellsByWords (has_magic_told bytes.now)
        (map (λ w. w.now) words.now) (utf8_lossy name.now) flags bytes.now)) }
{
    let name = String::from_utf8_lossy(alloc, name)?;
    if has_magic(bytes) {
        elf_by_words(alloc, bytes, words, name.as_str(), flags)
    } else {
        macho_by_words(alloc, bytes, words, name.as_str(), flags)
    }
}

/// The bytes of an ELF file after the edits that words in UTF-8 name, and the notes.
fn elf_by_words(
    alloc: Global,
    bytes: &[u8],
    words: &[&str],
    name: &str,
    flags: u32,
) -> Result<Made, CallError>
    ensures ok { IfOk result (λ made. IsElfOf (elf_edits_of (map (λ w. w.now) words.now))
        name.now flags bytes.now made.bytes.items made.text.items) }
    ensures err { IfErr result (OrMemory (TellsElfOf Words
        (elf_edits_of (map (λ w. w.now) words.now)) flags bytes.now)) }
{
    match parse_elf_edits(alloc, words) {
        Ok(edits) => elf_made(alloc, bytes, edits, name, flags),
        Err(error) => Err(CallError::from(error)),
    }
}

/// The bytes of a Mach-O file after the edits that words in UTF-8 name, and the notes.
fn macho_by_words(
    alloc: Global,
    bytes: &[u8],
    words: &[&str],
    name: &str,
    flags: u32,
) -> Result<Made, CallError>
    ensures ok { IfOk result (λ made. IsMachoOf (edits_of (map (λ w. w.now) words.now))
        name.now flags bytes.now made.bytes.items made.text.items) }
    ensures err { IfErr result (OrMemory (TellsMachoOf Words
        (edits_of (map (λ w. w.now) words.now)) name.now flags bytes.now)) }
{
    match parse_macho_edits(alloc, words) {
        Ok(edits) => macho_made(alloc, bytes, edits, name, flags),
        Err(error) => Err(CallError::from(error)),
    }
}

/// The bytes of an ELF file after edits, and the notes.
fn elf_made(
    alloc: Global,
    bytes: &[u8],
    edits: Vec<GroupEdit>,
    name: &str,
    flags: u32,
) -> Result<Made, CallError>
    ensures ok { IfOk result (λ made. IsElfMade (edits_with flags (map group_model edits.items))
        name.now bytes.now made.bytes.items made.text.items) }
    ensures err { IfErr result (OrMemory
        (TellsElf (edits_with flags (map group_model edits.items)) bytes.now)) }
{
    let edits = with_leave(edits, has_flag(flags, ARWEN_MOVE_DYNAMIC))?;
    match edit_bytes(alloc, bytes, edits, name, Notes::Wanted) {
        Ok((new, text)) => Ok(new_bytes(alloc, bytes, new, text)?),
        Err(error) => Err(CallError::Elf(error)),
    }
}

/// Whether a flag is among flags.
fn has_flag(flags: u32, flag: u32) -> bool
    ensures { result ≡ has_flag_told flags flag }
{
    flags & flag != 0
}

/// New bytes, or a copy of the old ones where there are none, with a text.
fn new_bytes(
    alloc: Global,
    bytes: &[u8],
    new: Option<Vec<u8>>,
    text: String,
) -> Result<Made, AllocError>
    ensures bytes { IfOk result (λ made. made.bytes.items ≡ bytes_left bytes.now new) }
    ensures text { IfOk result (λ made. made.text.items ≡ string_bytes text) }
{
    let bytes = match new {
        Some(new) => new,
        None => Vec::from_slice(alloc, bytes)?,
    };
    Ok(Made {
        bytes,
        text: text.into_bytes(),
    })
}

/// The bytes of a Mach-O file after edits, and the note.
fn macho_made(
    alloc: Global,
    bytes: &[u8],
    edits: Vec<MachoEdit>,
    name: &str,
    flags: u32,
) -> Result<Made, CallError>
    ensures ok { IfOk result (λ made. IsMachoMade (signing_told flags)
        (batch_of name.now (calls_of edits.items)) bytes.now made.bytes.items made.text.items) }
    ensures err { IfErr result (OrMemory (TellsMacho (signing_told flags)
        (batch_of name.now (calls_of edits.items)) bytes.now)) }
{
    let path_to_binary = String::from_str(alloc, name)?;
    let command = MachoCommand::Batch(batch::Args {
        path_to_binary,
        edits,
    });
    run(alloc, bytes, command, signing_by(flags))
}

/// Whether the slots of pages are made anew that the edits of a Mach-O file touch.
fn signing_by(flags: u32) -> Signing
    ensures { result ≡ signing_told flags }
{
    if has_flag(flags, ARWEN_SIGN) {
        Signing::Renewed
    } else {
        Signing::Left
    }
}

/// What a command makes of the bytes of a Mach-O file, and the note.
fn run(
    alloc: Global,
    bytes: &[u8],
    command: MachoCommand,
    signing: Signing,
) -> Result<Made, CallError>
    ensures ok { IfOk result (λ made. IsMachoMade signing (macho_command_model command)
        bytes.now made.bytes.items made.text.items) }
    ensures err { IfErr result (OrMemory
        (TellsMacho signing (macho_command_model command) bytes.now)) }
{
    match run_macho_telling(alloc, bytes, &command, Notes::Wanted, signing) {
        Ok((new, text)) => Ok(Made {
            bytes: new,
            text: text.into_bytes(),
        }),
        Err(error) => Err(CallError::Macho(error)),
    }
}

/// The bytes of a Mach-O file with all pages made to fit in ad-hoc code signatures, and the note. Errors: `Macho`, `Memory`.
pub fn signed(alloc: Global, bytes: &[u8], name: &[u8]) -> Result<Made, CallError>
    ensures ok { IfOk result (λ made.
        IsSigned name.now bytes.now made.bytes.items made.text.items) }
    ensures err { IfErr result (TellsUnsigned name.now bytes.now) }
{
    let path_to_binary = String::from_utf8_lossy(alloc, name)?;
    let command = MachoCommand::Sign(sign::Args { path_to_binary });
    run(alloc, bytes, command, Signing::Left)
}

/// What is told of a file, as a line of JSON with this name. Errors: `UnknownFormat`, `Elf`, `Macho`, `Memory`.
pub fn shown(alloc: Global, bytes: &[u8], name: &[u8]) -> Result<Made, CallError>
    ensures ok { IfOk result (λ made.
        IsShown (utf8_lossy name.now) bytes.now made.bytes.items made.text.items) }
    ensures err { IfErr result (OrMemory (TellsUnshown bytes.now)) }
{
    let name = String::from_utf8_lossy(alloc, name)?;
    let mut text = Vec::new(alloc);
    match show_bytes(alloc, name.as_str(), bytes, Style::Json, &mut text) {
        Ok(()) => Ok(Made {
            bytes: Vec::new(alloc),
            text,
        }),
        Err(error) => Err(CallError::from(error)),
    }
}
