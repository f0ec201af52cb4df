//! Files that go on behind all that is written of them.
ghost use Rattle.std.specs.Prelude.{◌≡◌, ◌<◌, ◌^◌, map};
ghost use Rattle.std.specs.List.{list_any};
ghost use Rattle.elf_format.specs.Ranges.{range};
ghost use Rattle.elf_image.specs.ImageModel.{section_model, segment_model};
ghost use Rattle.elf_notes.specs.Notes.{does_load_reach, does_section_reach, has_bytes_behind as are_bytes_behind, reaches};

use elf_format::constants::PT_LOAD;
use elf_image::{Builder, Section, Segment};

/// Whether bytes stand behind both header tables, all loaded segments and all sections of a file.
pub(crate) fn has_bytes_behind(image: &Builder<'_>) -> bool
    ensures { result ≡ are_bytes_behind image.now }
{
    let file_end = image.source().len();
    let form = image.form();
    let headers = image.segments().len() as u128 * form.segment_header_size() as u128;
    let sections = image.sections().len() as u128 * form.section_header_size() as u128;
    !does_range_reach(image.header().e_phoff, headers, file_end)
        && !does_range_reach(image.header().e_shoff, sections, file_end)
        && !does_any_load_reach(image.segments(), file_end)
        && !does_any_section_reach(image.sections(), file_end)
}

/// Whether a range goes up to the end of the file.
fn does_range_reach(offset: u64, size: u128, file_end: usize) -> bool
    requires { size < 2 ^ 70 }
    ensures { result ≡ reaches file_end (range offset size) }
{
    file_end as u128 <= u128::from(offset) + size
}

/// Whether the file's part of a loaded segment goes up to the end of the file.
fn does_any_load_reach(segments: &[Segment<'_>], file_end: usize) -> bool
    ensures { result ≡ list_any (does_load_reach file_end) (map segment_model segments.now) }
{
    for segment in segments {
        let size = u128::from(segment.p_filesz());
        if segment.p_type() == PT_LOAD && does_range_reach(segment.p_offset(), size, file_end) {
            return true;
        }
    }
    false
}

/// Whether the bytes of a section go up to the end of the file.
fn does_any_section_reach(sections: &[Section<'_>], file_end: usize) -> bool
    ensures { result ≡ list_any (does_section_reach file_end) (map section_model sections.now) }
{
    for section in sections {
        let size = section.content.len();
        if size > 0 && does_range_reach(section.sh_offset, size as u128, file_end) {
            return true;
        }
    }
    false
}
