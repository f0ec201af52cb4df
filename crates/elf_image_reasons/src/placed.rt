// The first section and the first program header that contradict a rule by where they stand.
ghost use Rattle.std.specs.Prelude.{◌≡◌, ◌&&◌, position};
ghost use Rattle.std.specs.List.{list_any};
ghost use Rattle.elf_format.specs.File.{is_loaded};
ghost use Rattle.elf_format.specs.Placement.{crosses_file_end, holds};
ghost use Rattle.elf_format.specs.Places.{place_of};
ghost use Rattle.elf_image_reasons.specs.Details.{is_not_shown as not_shown, is_wrong_section as wrong_section_by, is_wrong_segment as wrong_segment_by, section_told, segment_told, wrong_section as section_by, wrong_segment as segment_by};

use crate::rule::Rule;
use elf_format::records::{SectionHeader, SegmentHeader};
use elf_image_flaws::detail::{Detail, Piece};

// Whether a loaded segment holds a section.
fn some_holds(segments: &[SegmentHeader], section: SectionHeader) -> bool
    ensures { result ≡ list_any (λ p. is_loaded p && holds p (place_of section)) segments.now }
{
    segments.iter().any(|p| p.is_loaded() && p.holds(section))
}

// Whether a stored section is held by no loaded segment, or begins at the file's start.
fn is_not_shown(segments: &[SegmentHeader], section: SectionHeader) -> bool
    ensures { result ≡ not_shown segments.now section }
{
    section.is_stored() && !(some_holds(segments, section) && section.sh_offset != 0)
}

// Whether the end of a segment's file part lies inside the addresses of a section.
fn is_over_end(segment: SegmentHeader, section: SectionHeader) -> bool
    ensures { result ≡ crosses_file_end segment (place_of section) }
{
    let end = segment.p_vaddr as u128 + segment.p_filesz as u128;
    (section.sh_addr as u128) < end && end < section.sh_addr as u128 + section.sh_size as u128
}

// Whether some loaded segment's file part ends inside the addresses of a section.
fn some_over_end(segments: &[SegmentHeader], section: SectionHeader) -> bool
    ensures { result
        ≡ list_any (λ p. is_loaded p && crosses_file_end p (place_of section)) segments.now }
{
    segments
        .iter()
        .any(|p| p.is_loaded() && is_over_end(*p, section))
}

// Whether a section contradicts a rule by itself.
fn is_wrong_section(
    rule: Rule,
    length: usize,
    segments: &[SegmentHeader],
    section: SectionHeader,
) -> bool
    ensures { result ≡ wrong_section_by rule length segments.now section }
{
    match rule {
        Rule::RangesInFile => {
            section.has_file_bytes() && section.file_range().end() > length as u128
        }
        Rule::SectionsLoaded => is_not_shown(segments, section),
        Rule::UninitializedData => section.is_uninitialized() && some_over_end(segments, section),
        _ => false,
    }
}

// What is told of such a section with its number.
fn told_section(rule: Rule, length: usize, number: usize, section: SectionHeader) -> Option<Detail>
    ensures { result ≡ section_told rule length number section }
{
    match rule {
        Rule::RangesInFile => Some(Detail::PastEnd {
            piece: Piece::Section(number),
            start: section.sh_offset,
            size: section.sh_size,
            length,
        }),
        Rule::SectionsLoaded => Some(Detail::NotShown {
            section: number,
            offset: section.sh_offset,
            address: section.sh_addr,
        }),
        Rule::UninitializedData => Some(Detail::Crosses {
            section: number,
            address: section.sh_addr,
            size: section.sh_size,
        }),
        _ => None,
    }
}

// The number of the first section that contradicts a rule by itself.
fn first_wrong_section(
    rule: Rule,
    length: usize,
    segments: &[SegmentHeader],
    sections: &[SectionHeader],
) -> Option<usize>
    ensures { result ≡ position (wrong_section_by rule length segments.now) sections.now }
{
    sections
        .iter()
        .position(|s| is_wrong_section(rule, length, segments, *s))
}

// The first section that contradicts a rule by itself, as a detail.
#[tactic(auto, unfolding(crate::specs::Details::wrong_section))]
pub(crate) fn wrong_section(
    rule: Rule,
    length: usize,
    segments: &[SegmentHeader],
    sections: &[SectionHeader],
) -> Option<Detail>
    ensures { result ≡ section_by rule length segments.now sections.now }
{
    let number = first_wrong_section(rule, length, segments, sections)?;
    let section = sections.get(number)?;
    told_section(rule, length, number, *section)
}

// Whether a program header contradicts a rule by itself.
fn is_wrong_segment(rule: Rule, length: usize, segment: SegmentHeader) -> bool
    ensures { result ≡ wrong_segment_by rule length segment }
{
    match rule {
        Rule::RangesInFile => segment.is_loaded() && segment.file_part().end() > length as u128,
        Rule::FileParts => segment.is_loaded() && segment.p_filesz > segment.p_memsz,
        _ => false,
    }
}

// What is told of such a program header with its number.
fn told_segment(rule: Rule, length: usize, number: usize, segment: SegmentHeader) -> Option<Detail>
    ensures { result ≡ segment_told rule length number segment }
{
    match rule {
        Rule::RangesInFile => Some(Detail::PastEnd {
            piece: Piece::Segment(number),
            start: segment.p_offset,
            size: segment.p_filesz,
            length,
        }),
        Rule::FileParts => Some(Detail::MoreInFile {
            segment: number,
            in_file: segment.p_filesz,
            in_memory: segment.p_memsz,
        }),
        _ => None,
    }
}

// The number of the first program header that contradicts a rule by itself.
fn first_wrong_segment(rule: Rule, length: usize, segments: &[SegmentHeader]) -> Option<usize>
    ensures { result ≡ position (wrong_segment_by rule length) segments.now }
{
    segments
        .iter()
        .position(|p| is_wrong_segment(rule, length, *p))
}

// The first program header that contradicts a rule by itself, as a detail.
#[tactic(auto, unfolding(crate::specs::Details::wrong_segment))]
pub(crate) fn wrong_segment(rule: Rule, length: usize, segments: &[SegmentHeader]) -> Option<Detail>
    ensures { result ≡ segment_by rule length segments.now }
{
    let number = first_wrong_segment(rule, length, segments)?;
    let segment = segments.get(number)?;
    told_segment(rule, length, number, *segment)
}
