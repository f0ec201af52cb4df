// What contradicts a rule on the dynamic section, the interpreter, or the tables and texts of the dynamic list.
ghost use Rattle.std.specs.Prelude.{◌≡◌, ◌≤◌, ◌==◌, is_some, length, position};
ghost use Rattle.elf_format.specs.declared.constants.TheConstants.{PT_DYNAMIC as DYNAMIC_SEGMENT};
ghost use Rattle.patch_bytes.specs.Memory.{memory_of};
ghost use Rattle.elf_format.specs.Dynamic.{shown_entry};
ghost use Rattle.elf_format.specs.Rules.{raw_entries as entries_of};
ghost use Rattle.elf_image_rules.specs.Read.{parts_model};
ghost use Rattle.elf_image_reasons.specs.Details.{apart_by, dynamic_detail as dynamic_by, interpreter_detail as interpreter_by, lone_section as lone_section_by, lone_segment as lone_segment_by, text_detail as text_by, without_text as without_text_by};

use elf_format::constants::{PT_DYNAMIC, PT_INTERP, SHT_DYNAMIC};
use elf_format::entries::show_entry;
use elf_format::lookups::{section_of_type, segment_of_type};
use elf_format::records::{EntryNumbers, SectionHeader, SegmentHeader};
use elf_image_flaws::detail::{Detail, Piece};
use elf_image_flaws::links::place_of_type;
use elf_image_rules::headers::Headers;
use elf_image_versions::texts::dynamic_texts;

// PT_DYNAMIC and the dynamic section, where they stand at different places.
fn apart_detail(segment: SegmentHeader, section: SectionHeader) -> Option<Detail>
    ensures { result ≡ apart_by segment section }
{
    if segment.p_offset == section.sh_offset && segment.p_vaddr == section.sh_addr {
        return None;
    }
    Some(Detail::Apart {
        offset: segment.p_offset,
        address: segment.p_vaddr,
        section_offset: section.sh_offset,
        section_address: section.sh_addr,
    })
}

// The number of the first PT_DYNAMIC.
fn dynamic_segment(segments: &[SegmentHeader]) -> Option<usize>
    ensures { result ≡ position (λ p. p.p_type == DYNAMIC_SEGMENT) segments.now }
{
    segments.iter().position(|p| p.p_type == PT_DYNAMIC)
}

// The dynamic section, where no PT_DYNAMIC is there.
fn lone_section(sections: &[SectionHeader]) -> Option<Detail>
    ensures { result ≡ lone_section_by sections.now }
{
    let number = place_of_type(sections, SHT_DYNAMIC)?;
    Some(Detail::Alone {
        piece: Piece::Section(number),
    })
}

// PT_DYNAMIC, where no dynamic section is there.
fn lone_segment(segments: &[SegmentHeader]) -> Option<Detail>
    ensures { result ≡ lone_segment_by segments.now }
{
    let number = dynamic_segment(segments)?;
    Some(Detail::Alone {
        piece: Piece::Segment(number),
    })
}

// What contradicts the rule on the dynamic section.
#[tactic(auto, unfolding(crate::specs::Details::dynamic_detail))]
pub(crate) fn dynamic_detail(
    segments: &[SegmentHeader],
    sections: &[SectionHeader],
) -> Option<Detail>
    ensures { result ≡ dynamic_by segments.now sections.now }
{
    let segment = segment_of_type(segments, PT_DYNAMIC);
    let section = section_of_type(sections, SHT_DYNAMIC);
    match (segment, section) {
        (None, _) => lone_section(sections),
        (Some(_), None) => lone_segment(segments),
        (Some(segment), Some(section)) => apart_detail(segment, section),
    }
}

// What contradicts the rule on the interpreter.
#[tactic(auto, unfolding(crate::specs::Details::interpreter_detail))]
pub(crate) fn interpreter_detail(segments: &[SegmentHeader]) -> Option<Detail>
    ensures { result ≡ interpreter_by segments.now }
{
    let segment = segment_of_type(segments, PT_INTERP)?;
    Some(Detail::NoSection {
        offset: segment.p_offset,
        address: segment.p_vaddr,
        size: segment.p_filesz,
    })
}

// Whether the text of a dynamic entry is there.
fn has_text(room: usize, texts: &[u8], entry: EntryNumbers) -> bool
    requires { length texts.now ≤ room }
    ensures { result ≡ is_some (shown_entry room (memory_of texts.now) entry) }
{
    show_entry(room, texts, entry).is_ok()
}

// The first of some entries whose text isn't there.
fn first_without_text(room: usize, texts: &[u8], raw: &[EntryNumbers]) -> Option<Detail>
    requires { length texts.now ≤ room }
    ensures { result ≡ without_text_by room (memory_of texts.now) raw.now }
{
    for entry in raw {
        if !has_text(room, texts, *entry) {
            return Some(Detail::Text {
                tag: entry.d_tag,
                value: entry.d_value,
            });
        }
    }
    None
}

// The first dynamic entry whose text isn't there.
#[tactic(auto, unfolding(crate::specs::Details::text_detail))]
pub(crate) fn text_detail(parts: &Headers<'_>, raw: &[EntryNumbers]) -> Option<Detail>
    requires { raw.now ≡ entries_of (parts_model parts.now) }
    ensures { result ≡ text_by (parts_model parts.now) }
{
    let list = section_of_type(&parts.sections, SHT_DYNAMIC)?;
    let texts = dynamic_texts(parts, raw, list);
    first_without_text(parts.file.len(), texts, raw)
}
