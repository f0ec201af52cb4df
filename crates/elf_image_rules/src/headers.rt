ghost use Rattle.std.specs.Prelude.{◌≡◌, ◌≢◌, IfErr};
ghost use Rattle.elf_format.specs.File.{parts_of};
ghost use Rattle.elf_image_rules.specs.LinkSteps.{opened_read, table_fault, tables_model};
ghost use Rattle.elf_format.specs.Answers.{Gives};
ghost use Rattle.elf_format.specs.declared.fault.ElfFault.TheVariants.{Memory};
ghost use Rattle.elf_format.specs.Seen.{opened_model};
ghost use Rattle.elf_format.specs.Stages.{parts_read};
ghost use Rattle.elf_image_rules.specs.Read.{Passes, Reads, parts_model};
ghost use Rattle.elf_format.specs.Rules.{checked, identification_rules};

use crate::kind::is_file_kind;
use elf_format::fault::ElfFault;
use elf_format::form::Form;
use elf_format::opening::{form, has_magic, open, sections, segments};
use elf_format::records::{FileHeader, SectionHeader, SegmentHeader};
use elf_format::view_fault::ViewFault;
use std::alloc::Global;

/// A file with its header and its two header tables (gABI, ELF Header).
#[derive(Drop)]
pub struct Headers<'data> {
    /// The file's bytes.
    pub file: &'data [u8],
    /// How the file's numbers are spelled.
    pub form: Form,
    /// The file header.
    pub header: FileHeader,
    /// The program headers.
    pub segments: Vec<SegmentHeader>,
    /// The section headers.
    pub sections: Vec<SectionHeader>,
}

// Checks what the first 16 bytes say, the identification.
#[tactic(auto, unfolding(elf_format::specs::Rules::checked))]
fn check_identification(file: &[u8]) -> Result<(), ElfFault>
    ensures passes { Passes file.now result (checked identification_rules file.now) }
    ensures why { IfErr result (λ fault. fault ≢ Memory) }
{
    if file.len() < 16 {
        return Err(ElfFault::Truncated);
    }
    if !has_magic(file) {
        return Err(ElfFault::BadMagic);
    }
    if form(file).is_none() {
        return Err(ElfFault::Unsupported);
    }
    Ok(())
}

// The fault where a header or a table isn't there.
fn truncated(fault: ViewFault) -> ElfFault
    ensures { result ≡ table_fault fault }
{
    match fault {
        ViewFault::Absent => ElfFault::Truncated,
        ViewFault::Memory => ElfFault::Memory,
    }
}

// How the file is spelled and its header, or the fault of the first rule on them that it breaks.
#[tactic(auto, unfolding(crate::specs::LinkSteps::opened_read, elf_format::specs::Rules::checked))]
fn read_opened(alloc: Global, file: &[u8]) -> Result<(Form, FileHeader), ElfFault>
    ensures { Reads (opened_model file.now) result (opened_read file.now) }
{
    check_identification(file)?;
    let (form, header) = match open(file) {
        Ok(opened) => opened,
        Err(fault) => return Err(truncated(fault)),
    };
    if !is_file_kind(alloc, file, form, header)? {
        return Err(ElfFault::Unsupported);
    }
    Ok((form, header))
}

// The two header tables.
#[tactic(auto, unfolding(elf_format::specs::File::parts_of))]
fn read_tables(
    alloc: Global,
    file: &[u8],
    form: Form,
    header: FileHeader,
) -> Result<(Vec<SegmentHeader>, Vec<SectionHeader>), ViewFault>
    ensures { Gives (tables_model (opened_model file.now (form, header))) result
        (parts_of (opened_model file.now (form, header))) }
{
    let segments = segments(alloc, file, form, header)?;
    let sections = sections(alloc, file, form, header)?;
    Ok((segments, sections))
}

/// A file with its header tables, or the fault of the first rule that it breaks before they are there; `Memory`
/// where there isn't enough memory.
pub fn read_headers<'data>(alloc: Global, file: &'data [u8]) -> Result<Headers<'data>, ElfFault>
    ensures { Reads parts_model result (parts_read file.entry.now) }
{
    let (form, header) = read_opened(alloc, file)?;
    match read_tables(alloc, file, form, header) {
        Ok((segments, sections)) => Ok(Headers {
            file,
            form,
            header,
            segments,
            sections,
        }),
        Err(fault) => Err(truncated(fault)),
    }
}
