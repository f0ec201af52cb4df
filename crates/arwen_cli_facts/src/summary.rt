//! What is told of a file of either format.
ghost use Rattle.std.specs.Prelude.{◌≡◌, IfErr, IfOk, MatchResult, true};
ghost use Rattle.arwen_elf.specs.Causes.{RefusesRead};
ghost use Rattle.elf_image.specs.Image.{image_of};
ghost use Rattle.elf_image.specs.Rules.{has_magic as has_elf_magic};
ghost use Rattle.arwen_macho.specs.Found.{Finds, container_found};
ghost use Rattle.arwen_cli_facts.specs.FileFacts.{AreFactsOf, AreMachoFacts, begins_macho, container_facts, has_thin_magic, is_magic, summary_model};
ghost use Rattle.arwen_cli_facts.specs.Refusals.{Refuses};

use crate::elf::{ElfSummary, elf_summary};
use crate::error::ShowError;
use crate::macho::{MachoSummary, SliceSummary, macho_summary, slice_summaries};
use arwen_elf::elf::ElfError;
use arwen_macho::macho::{ByteOrder2, MachoContainer, MachoError, MachoType};
use elf_format::opening::has_magic;
use macho_image::field::number32;
use macho_image::format::{MH_MAGIC, MH_MAGIC_64};
use macho_image::is_fat;
use std::alloc::{AllocError, Global};

/// What is told of a file.
#[derive(Drop)]
pub enum Summary {
    /// An ELF file.
    Elf(ElfSummary),
    /// A thin Mach-O file.
    Macho(MachoSummary),
    /// The slices of a fat file, in the order of its table.
    Fat(Vec<SliceSummary>),
}

/// What is told of the bytes of a file: an ELF file by its magic, else a Mach-O file by its own. Errors: `UnknownFormat`
/// where the bytes begin as neither; `Elf` or `Macho` with what the library answers that reads the format; `Memory`.
pub fn summarize(alloc: Global, bytes: &[u8]) -> Result<Summary, ShowError>
    ensures told { IfOk result (λ s. AreFactsOf bytes.now (summary_model s)) }
    ensures refused { IfErr result (Refuses bytes.now) }
{
    if has_magic(bytes) {
        return Ok(summarize_elf(alloc, bytes)?);
    }
    if !is_macho(bytes) {
        return Err(ShowError::UnknownFormat);
    }
    Ok(summarize_macho(alloc, bytes)?)
}

/// What is told of the bytes of an ELF file.
fn summarize_elf(alloc: Global, bytes: &[u8]) -> Result<Summary, ElfError>
    requires { has_elf_magic bytes.now ≡ true }
    ensures told { IfOk result (λ s. AreFactsOf bytes.now (summary_model s)) }
    ensures refused { IfErr result (λ e. RefusesRead e (image_of bytes.now)) }
{
    match elf_summary(alloc, bytes) {
        Ok(summary) => Ok(Summary::Elf(summary)),
        Err(error) => Err(error),
    }
}

/// Whether bytes begin as a Mach-O file, fat or thin.
fn is_macho(bytes: &[u8]) -> bool
    ensures { result ≡ begins_macho bytes.now }
{
    is_fat(bytes) || is_thin(bytes)
}

/// Whether bytes begin with the magic of a thin file.
fn is_thin(bytes: &[u8]) -> bool
    ensures { result ≡ has_thin_magic bytes.now }
{
    bytes.len() >= 4
        && (is_thin_magic(number32(bytes, 0, ByteOrder2::Little))
            || is_thin_magic(number32(bytes, 0, ByteOrder2::Big)))
}

/// Whether a number is the magic of a thin file, of either width.
fn is_thin_magic(magic: u32) -> bool
    ensures { result ≡ is_magic magic }
{
    magic == MH_MAGIC || magic == MH_MAGIC_64
}

/// What is told of the bytes of a Mach-O file.
fn summarize_macho(alloc: Global, bytes: &[u8]) -> Result<Summary, MachoError>
    ensures { MatchResult result
        (λ s. AreMachoFacts bytes.now (summary_model s))
        (λ e. Finds e (container_found bytes.now)) }
{
    let file = MachoContainer::parse(alloc, bytes)?;
    Ok(summary_of_read(alloc, file)?)
}

/// What is told of a Mach-O file that was read.
fn summary_of_read(alloc: Global, file: MachoContainer<'_>) -> Result<Summary, AllocError>
    ensures { IfOk result (λ s. summary_model s ≡ container_facts file.entry) }
{
    let summary = summary_of(alloc, file.inner());
    drop(file);
    summary
}

/// What is told of a Mach-O file by its shape.
fn summary_of(alloc: Global, file: &MachoType<'_>) -> Result<Summary, AllocError>
    ensures { IfOk result (λ s. summary_model s ≡ container_facts file.now) }
{
    match file {
        MachoType::SingleArch(single) => Ok(Summary::Macho(macho_summary(alloc, single)?)),
        MachoType::Fat(fat) => Ok(Summary::Fat(slice_summaries(alloc, fat.archs())?)),
    }
}
