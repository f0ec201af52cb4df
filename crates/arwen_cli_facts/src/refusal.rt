//! Why nothing is told of a file, with what the error leaves open.
ghost use Rattle.std.specs.Prelude.{◌≡◌, option_map};
ghost use Rattle.arwen_cli_facts.specs.Reasons.{IsRefusalOf, IsRule, TellsBytes, elf_words as elf_told, kind_words as kind_told, macho_words as macho_told, words_of as words_told};
ghost use Rattle.arwen_cli_facts.specs.Refusals.{Refuses};

use crate::error::ShowError;
use arwen_elf::elf::ElfError;
use arwen_macho::macho::MachoError;
use elf_image_reasons::{Reason, explain_refusal};
use file_kinds::{FileKind, elf_reason, kind_of, macho_reason};
use std::alloc::Global;

/// What an error leaves open.
#[derive(Clone, Copy)]
pub enum Told<'t> {
    /// What the file is.
    Words(&'t str),
    /// The read rule that an ELF file breaks first, and what contradicts it.
    Rule(Reason),
}

/// Why nothing is told of a file.
#[derive(Drop)]
pub struct Refusal<'t> {
    /// The error.
    pub error: ShowError,
    /// What the error leaves open, where that is known.
    pub reason: Option<Told<'t>>,
}

/// An error of the bytes of a file, with what it leaves open: what the file is, or the read rule that it breaks. The reason
/// is `None` where there is none, and where there is no memory to find the rule.
pub fn refusal_of<'t>(alloc: Global, error: ShowError, bytes: &[u8]) -> Refusal<'t>
    requires { Refuses bytes.now error }
    ensures { IsRefusalOf bytes.now result }
{
    let reason = reason_of(alloc, &error, bytes);
    Refusal { error, reason }
}

/// What an error leaves open.
fn reason_of<'t>(alloc: Global, error: &ShowError, bytes: &[u8]) -> Option<Told<'t>>
    ensures { TellsBytes error.now bytes.now result }
{
    if let Some(words) = words_of(error, bytes) {
        return Some(Told::Words(words));
    }
    match error {
        ShowError::Elf(_) => rule_of(alloc, bytes),
        _ => None,
    }
}

/// What a file is of which nothing is told, where that says why.
fn words_of(error: &ShowError, bytes: &[u8]) -> Option<&'static str>
    ensures { option_map (λ text. text.now) result ≡ words_told error.now bytes.now }
{
    match error {
        ShowError::UnknownFormat => kind_words(kind_of(bytes)),
        ShowError::Elf(fault) => elf_words(fault, bytes),
        ShowError::Macho(fault) => macho_words(fault, bytes),
        ShowError::Io(_) | ShowError::Memory => None,
    }
}

/// What a file is that begins as none that is read here; `None` where that isn't known.
fn kind_words(kind: FileKind) -> Option<&'static str>
    ensures { option_map (λ text. text.now) result ≡ kind_told kind }
{
    match kind {
        FileKind::Empty => Some("an empty file"),
        FileKind::FatMachO => Some("a fat file with offsets of 64 bits"),
        FileKind::WindowsProgram => Some("a Windows program"),
        FileKind::Archive => Some("an archive"),
        FileKind::ThinArchive => Some("a thin archive"),
        FileKind::Zip => Some("a zip archive"),
        FileKind::Compressed => Some("a compressed file"),
        FileKind::Script => Some("a script"),
        FileKind::Text => Some("text"),
        FileKind::Elf | FileKind::MachO | FileKind::JavaClass | FileKind::Other => None,
    }
}

/// What the fault of an ELF file leaves open, where the file's kind says it. Takes no memory.
pub fn elf_words(error: &ElfError, bytes: &[u8]) -> Option<&'static str>
    ensures { option_map (λ text. text.now) result ≡ elf_told error.now bytes.now }
{
    match error {
        ElfError::Parse(fault) => elf_reason(*fault, bytes),
        _ => None,
    }
}

/// What the fault of a Mach-O file leaves open. Takes no memory.
pub fn macho_words(error: &MachoError, bytes: &[u8]) -> Option<&'static str>
    ensures { option_map (λ text. text.now) result ≡ macho_told error.now bytes.now }
{
    match error {
        MachoError::Parsing(fault) => macho_reason(*fault, bytes),
        _ => None,
    }
}

/// The read rule that an ELF file breaks first; `None` where it breaks none, and where there is no memory.
pub fn rule_of<'t>(alloc: Global, bytes: &[u8]) -> Option<Told<'t>>
    ensures { IsRule bytes.now result }
{
    match explain_refusal(alloc, bytes) {
        Ok(Some(reason)) => Some(Told::Rule(reason)),
        _ => None,
    }
}
