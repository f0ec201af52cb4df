ghost use Rattle.elf_format.specs.declared.constants.TheConstants.{SHT_DYNAMIC as DYNAMIC};
ghost use Rattle.elf_format.specs.File.{section_of_type as first_section};
ghost use Rattle.elf_format.specs.Answers.{Gives};
ghost use Rattle.elf_format.specs.Seen.{view_by_dynamic};
ghost use Rattle.test_elf_plain.specs.PlainViews.{outline_model, view_model};
ghost use Rattle.elf_format.specs.Views.{section_view as shown_by_sections};

use crate::by_sections::tables_by_sections;
use crate::by_tables::{bare_view, show_tables, stack_flags};
use crate::entries::entries_from;
use crate::source::Source;
use crate::view::{Outline, ShownView};
use elf_format::constants::SHT_DYNAMIC;
use elf_format::form::Form;
use elf_format::lookups::{interpreter, section_bytes, section_of_type};
use elf_format::opening::{open, sections, segments};
use elf_format::records::SectionHeader;
use elf_format::view_fault::ViewFault;
use std::alloc::Global;

// The view by the dynamic section, or without one.
fn show_dynamic<'a>(
    alloc: Global,
    form: Form,
    file: &'a [u8],
    outline: Outline<'a>,
    sections: &[SectionHeader],
) -> Result<ShownView<'a>, ViewFault>
    ensures { Gives view_model result (view_by_dynamic form file.now (outline_model outline.entry)
        sections.now (first_section DYNAMIC sections.now)) }
{
    match section_of_type(sections, SHT_DYNAMIC) {
        None => Ok(bare_view(outline)),
        Some(list) => {
            let source = Source::Slice(section_bytes(file, list));
            let raw = entries_from(alloc, form, file.len(), &source)?;
            let tables = tables_by_sections(form, file, sections, list);
            show_tables(alloc, form, file.len(), outline, &raw, &tables)
        }
    }
}

/// What a file shows through its section headers, accepted or not (gABI, Sections); `Absent` where it shows
/// nothing, `Memory` where there isn't enough memory.
pub fn section_view(alloc: Global, file: &[u8]) -> Result<ShownView<'_>, ViewFault>
    ensures { Gives view_model result (shown_by_sections file.now) }
{
    let (form, header) = open(file)?;
    let segments = segments(alloc, file, form, header)?;
    let sections = sections(alloc, file, form, header)?;
    let outline = Outline {
        os_abi: header.os_abi,
        stack_flags: stack_flags(&segments),
        interpreter: interpreter(file, &segments, &sections),
    };
    show_dynamic(alloc, form, file, outline, &sections)
}
