//! The bytes of the file header and of the two header tables.
ghost use Rattle.std.specs.Prelude.{◌≡◌, IfOk, IsTrue};
ghost use Rattle.std.specs.List.{flat_map, list_all};
ghost use Rattle.elf_tables.specs.Fields.{do_fields_fit};
ghost use Rattle.elf_tables.specs.Spelled.{file_header_fields, section_fields, segment_fields, spelled_file_header, spelled_section_header, spelled_segment_header};
ghost use Rattle.elf_write.specs.LayingSteps.{AreHeadersSpelled, DoHeadersFit};

use elf_format::Form;
use elf_format::records::{FileHeader, SectionHeader, SegmentHeader};
use elf_layout_plan::Plan;
use elf_tables::spelled::{push_file_header, push_section_header, push_segment_header};
use std::alloc::{AllocError, Global};

// The bytes of the file header and of the two header tables.
#[derive(Drop)]
pub(crate) struct SpelledHeaders {
    pub(crate) file: Vec<u8>,
    pub(crate) segments: Vec<u8>,
    pub(crate) sections: Vec<u8>,
}

// The bytes of the file header (gABI, ELF Header).
fn file_header(alloc: Global, form: Form, header: FileHeader) -> Result<Vec<u8>, AllocError>
    requires { IsTrue (do_fields_fit (file_header_fields form header)) }
    ensures { IfOk result (λ bytes. bytes.items ≡ spelled_file_header form header) }
{
    let mut bytes = Vec::new(alloc);
    push_file_header(&mut bytes, form, header)?;
    Ok(bytes)
}

// The bytes of the program header table (gABI, Program Header).
fn segment_table(
    alloc: Global,
    form: Form,
    segments: &[SegmentHeader],
) -> Result<Vec<u8>, AllocError>
    requires { IsTrue (list_all (λ p. do_fields_fit (segment_fields form p)) segments.now) }
    ensures { IfOk result (λ bytes. bytes.items
        ≡ flat_map (spelled_segment_header form) segments.now) }
{
    let mut bytes = Vec::new(alloc);
    for segment in segments {
        push_segment_header(&mut bytes, form, *segment)?;
    }
    Ok(bytes)
}

// The bytes of the section header table (gABI, Sections).
fn section_table(
    alloc: Global,
    form: Form,
    headers: &[SectionHeader],
) -> Result<Vec<u8>, AllocError>
    requires { IsTrue (list_all (λ s. do_fields_fit (section_fields form s)) headers.now) }
    ensures { IfOk result (λ bytes. bytes.items
        ≡ flat_map (spelled_section_header form) headers.now) }
{
    let mut bytes = Vec::new(alloc);
    for header in headers {
        push_section_header(&mut bytes, form, *header)?;
    }
    Ok(bytes)
}

// The bytes of the file header and of the two header tables.
pub(crate) fn spelled_headers(
    alloc: Global,
    form: Form,
    plan: &Plan,
    header: FileHeader,
    headers: &[SectionHeader],
) -> Result<SpelledHeaders, AllocError>
    requires { DoHeadersFit form header plan.now.segments headers.now }
    ensures { IfOk result
        (AreHeadersSpelled form header plan.now.segments headers.now) }
{
    let file = file_header(alloc, form, header)?;
    let segments = segment_table(alloc, form, plan.segments())?;
    let sections = section_table(alloc, form, headers)?;
    Ok(SpelledHeaders {
        file,
        segments,
        sections,
    })
}
