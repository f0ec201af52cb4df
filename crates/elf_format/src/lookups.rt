ghost use Rattle.std.specs.Prelude.{◌≡◌, ◌≤◌, is_some, length, option_map};
ghost use Rattle.patch_bytes.specs.Memory.{memory_of};
ghost use Rattle.elf_format.specs.Answers.{borrowed};
ghost use Rattle.elf_format.specs.Dynamic.{has_tag as tag_is_there, value_of_tag as first_value};
ghost use Rattle.elf_format.specs.File.{linked_section as linked_one, section_bytes as bytes_of_section, section_of_type as first_section, segment_of_type as first_segment};
ghost use Rattle.elf_format.specs.Seen.{bytes_of_interpreter, is_interpreter};
ghost use Rattle.elf_format.specs.Views.{interpreter_section as interpreter_of, section_memory};

use crate::constants::{PT_INTERP, SHT_PROGBITS};
use crate::numbers::part;
use crate::records::{EntryNumbers, SectionHeader, SegmentHeader};

/// The first segment of a type (gABI, Program Header, `p_type`).
pub fn segment_of_type(segments: &[SegmentHeader], kind: u32) -> Option<SegmentHeader>
    ensures { result ≡ first_segment kind segments.now }
{
    for p in segments {
        if p.p_type == kind {
            return Some(*p);
        }
    }
    None
}

/// The first section of a type (gABI, Sections, `sh_type`).
pub fn section_of_type(sections: &[SectionHeader], kind: u32) -> Option<SectionHeader>
    ensures { result ≡ first_section kind sections.now }
{
    for s in sections {
        if s.sh_type == kind {
            return Some(*s);
        }
    }
    None
}

// Whether a section is the interpreter's.
fn stands_at(section: SectionHeader, segment: SegmentHeader) -> bool
    ensures { result ≡ is_interpreter segment section }
{
    section.sh_type == SHT_PROGBITS
        && section.sh_offset == segment.p_offset
        && section.sh_addr == segment.p_vaddr
        && section.sh_size == segment.p_filesz
}

/// The section that stands where the interpreter's segment does, in the file and in memory.
pub fn interpreter_section(
    segment: SegmentHeader,
    sections: &[SectionHeader],
) -> Option<SectionHeader>
    ensures { result ≡ interpreter_of segment sections.now }
{
    for s in sections {
        if stands_at(*s, segment) {
            return Some(*s);
        }
    }
    None
}

/// The section that another names by its `sh_link` (gABI, Sections, `sh_link` and `sh_info`).
pub fn linked_section(sections: &[SectionHeader], section: SectionHeader) -> Option<SectionHeader>
    ensures { result ≡ linked_one sections.now section }
{
    sections.get(section.sh_link as usize).copied()
}

/// The value of the first dynamic entry with a tag (gABI, Dynamic Section, `d_tag`).
pub fn value_of_tag(entries: &[EntryNumbers], tag: u64) -> Option<u64>
    ensures { result ≡ first_value tag entries.now }
{
    for e in entries {
        if e.d_tag == tag {
            return Some(e.d_value);
        }
    }
    None
}

/// Whether some dynamic entry has a tag.
pub fn has_tag(entries: &[EntryNumbers], tag: u64) -> bool
    ensures { result ≡ tag_is_there tag entries.now }
{
    value_of_tag(entries, tag).is_some()
}

/// The bytes of the file that a section header names, as far as they are there (gABI, Sections, `sh_offset` and
/// `sh_size`).
#[tactic(auto, unfolding(crate::specs::File::section_bytes))]
pub fn section_bytes(file: &[u8], section: SectionHeader) -> &[u8]
    ensures value { result.now ≡ bytes_of_section file.now section }
    ensures short { length result.now ≤ length file.now }
{
    if section.has_file_bytes() {
        part(file, section.sh_offset as usize, section.sh_size as usize)
    } else {
        &[]
    }
}

/// The bytes of the file that a section header names, or none without one.
pub fn bytes_of(file: &[u8], section: Option<SectionHeader>) -> &[u8]
    ensures value { memory_of result.now ≡ section_memory file.now section }
    ensures short { length result.now ≤ length file.now }
{
    match section {
        None => &[],
        Some(section) => section_bytes(file, section),
    }
}

/// The bytes of the section where the interpreter's segment stands (gABI, Program Interpreter).
pub fn interpreter<'a>(
    file: &'a [u8],
    segments: &[SegmentHeader],
    sections: &[SectionHeader],
) -> Option<&'a [u8]>
    ensures { option_map borrowed result ≡ bytes_of_interpreter file.now segments.now sections.now }
{
    let segment = segment_of_type(segments, PT_INTERP)?;
    let section = interpreter_section(segment, sections)?;
    Some(section_bytes(file, section))
}
