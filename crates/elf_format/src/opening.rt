ghost use Rattle.std.specs.Prelude.{◌≡◌, ◌*◌, ◌<◌, slice_index, IfErr};
ghost use Rattle.elf_format.specs.File.{bytes_in, class_of, form_of, opened_of, order_of, sections_of, segments_of};
ghost use Rattle.elf_format.specs.Answers.{Gives, borrowed};
ghost use Rattle.elf_format.specs.declared.view_fault.ViewFault.TheVariants.{Absent};
ghost use Rattle.elf_format.specs.Seen.{opened_model};
ghost use Rattle.elf_format.specs.Rules.{has_magic as begins_as_elf};
ghost use Rattle.elf_format.specs.Records.{file_header_size, section_header_size, segment_header_size};

use crate::constants::{ELFCLASS32, ELFCLASS64, ELFDATA2LSB, ELFDATA2MSB, EV_CURRENT};
use crate::form::Form;
use crate::numbers::read_file_header;
use crate::records::{FileHeader, SectionHeader, SegmentHeader};
use crate::tables::read_records;
use crate::view_fault::ViewFault;
use patch_bytes::{ByteOrder2, Wide};
use std::alloc::Global;

// The class that a byte names.
fn class(byte: u8) -> Option<Wide>
    ensures { result ≡ class_of byte }
{
    if byte == ELFCLASS32 {
        Some(Wide::W32)
    } else if byte == ELFCLASS64 {
        Some(Wide::W64)
    } else {
        None
    }
}

// The byte order that a byte names.
fn order(byte: u8) -> Option<ByteOrder2>
    ensures { result ≡ order_of byte }
{
    if byte == ELFDATA2LSB {
        Some(ByteOrder2::Little)
    } else if byte == ELFDATA2MSB {
        Some(ByteOrder2::Big)
    } else {
        None
    }
}

// The byte at a position, 0 past the end.
fn byte(file: &[u8], position: usize) -> u8
    ensures { result ≡ slice_index file.now position }
{
    if position < file.len() {
        file[position]
    } else {
        0
    }
}

/// Whether the first four bytes are those of an ELF file (gABI, ELF Identification, `EI_MAG0` to `EI_MAG3`).
pub fn has_magic(file: &[u8]) -> bool
    ensures { result ≡ begins_as_elf file.now }
{
    file.starts_with(&[0x7f, 0x45, 0x4c, 0x46])
}

/// The class and the byte order (gABI, ELF Identification, `EI_CLASS` and `EI_DATA`), where they and the version
/// are known.
pub fn form(file: &[u8]) -> Option<Form>
    ensures { result ≡ form_of file.now }
{
    let wide = class(byte(file, 4))?;
    let order = order(byte(file, 5))?;
    if byte(file, 6) == EV_CURRENT {
        Some(Form { wide, order })
    } else {
        None
    }
}

/// The bytes of a range of the file, where it lies in it; else `Absent`.
pub fn file_part(file: &[u8], offset: u64, size: u64) -> Result<&[u8], ViewFault>
    ensures shown { Gives borrowed result (bytes_in file.now offset size) }
    ensures absent { IfErr result (λ fault. fault ≡ Absent) }
{
    let length = file.len() as u64;
    if offset > length {
        return Err(ViewFault::Absent);
    }
    if size > length - offset {
        return Err(ViewFault::Absent);
    }
    Ok(&file[offset as usize..(offset + size) as usize])
}

// The bytes of so many records of one size.
fn file_table(file: &[u8], offset: u64, count: u64, size: u64) -> Result<&[u8], ViewFault>
    ensures shown { Gives borrowed result (bytes_in file.now offset (count * size)) }
    ensures absent { IfErr result (λ fault. fault ≡ Absent) }
{
    let length = file.len() as u64;
    let Some(all) = count.checked_mul(size) else {
        return Err(ViewFault::Absent);
    };
    if offset > length {
        return Err(ViewFault::Absent);
    }
    if all > length - offset {
        return Err(ViewFault::Absent);
    }
    Ok(&file[offset as usize..(offset + all) as usize])
}

/// How the file is spelled, and the file header (gABI, ELF Header); `Absent` where they aren't there.
#[tactic(auto, unfolding(crate::specs::File::opened_of))]
pub fn open(file: &[u8]) -> Result<(Form, FileHeader), ViewFault>
    ensures shown { Gives (opened_model file.now) result (opened_of file.now) }
    ensures absent { IfErr result (λ fault. fault ≡ Absent) }
{
    let Some(form) = form(file) else {
        return Err(ViewFault::Absent);
    };
    let bytes = file_part(file, 0, form.file_header_size() as u64)?;
    Ok((form, read_file_header(form, bytes)))
}

/// The program headers (gABI, Program Header); `Absent` where the table doesn't lie in the file, `Memory` where
/// there isn't enough memory.
#[tactic(auto, unfolding(crate::specs::File::segments_of))]
pub fn segments(
    alloc: Global,
    file: &[u8],
    form: Form,
    header: FileHeader,
) -> Result<Vec<SegmentHeader>, ViewFault>
    ensures { Gives (λ v. v.items) result (segments_of (opened_model file.now (form, header))) }
{
    let size = form.segment_header_size();
    let bytes = file_table(file, header.e_phoff, header.e_phnum as u64, size as u64)?;
    Ok(read_records(alloc, form, size, header.e_phnum as usize, bytes)?)
}

/// The section headers (gABI, Sections); `Absent` where the table doesn't lie in the file, `Memory` where there
/// isn't enough memory.
#[tactic(auto, unfolding(crate::specs::File::sections_of))]
pub fn sections(
    alloc: Global,
    file: &[u8],
    form: Form,
    header: FileHeader,
) -> Result<Vec<SectionHeader>, ViewFault>
    ensures { Gives (λ v. v.items) result (sections_of (opened_model file.now (form, header))) }
{
    let size = form.section_header_size();
    let bytes = file_table(file, header.e_shoff, header.e_shnum as u64, size as u64)?;
    Ok(read_records(alloc, form, size, header.e_shnum as usize, bytes)?)
}
