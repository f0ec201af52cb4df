// Two sections or two loaded segments that share an address or a byte of the file.
ghost use Rattle.std.specs.Prelude.{◌≡◌, ◌<◌, IfOk, IfSome, length, map, not, position};
ghost use Rattle.elf_format.specs.Ranges.{apart};
ghost use Rattle.elf_image_reasons.specs.Details.{loaded_range as loaded_by, meeting_from, shared_parts as parts_by, shared_sections as sections_by, shared_segments as segments_by, stored_range as stored_by};

use elf_format::range::Range;
use elf_format::records::{SectionHeader, SegmentHeader};
use elf_image_flaws::detail::{Detail, Piece};
use elf_image_flaws::flaws::first_there;
use std::alloc::{AllocError, Global};

// The bytes of the file that a section takes, or none where it isn't stored.
fn stored_range(section: SectionHeader) -> Range
    ensures { result ≡ stored_by section }
{
    if section.is_stored() {
        return section.file_range();
    }
    Range { start: 0, size: 0 }
}

// The addresses that a segment takes, or its bytes of the file, or none where it isn't loaded.
fn loaded_range(in_memory: bool, segment: SegmentHeader) -> Range
    ensures { result ≡ loaded_by in_memory segment }
{
    if !segment.is_loaded() {
        return Range { start: 0, size: 0 };
    }
    if in_memory {
        return segment.memory_part();
    }
    segment.file_part()
}

// The place of the first of some ranges that shares a place with another one.
fn first_meeting(range: Range, others: &[Range]) -> Option<usize>
    ensures first { result ≡ position (λ s. not (apart range s)) others.now }
    ensures within { IfSome result (λ place. place < length others.now) }
{
    others.iter().position(|other| !range.is_apart(*other))
}

// The numbers of the first two ranges that share a place.
#[tactic(auto, unfolding(crate::specs::Details::meeting_from))]
fn meeting(ranges: &[Range]) -> Option<(usize, usize)>
    ensures { result ≡ meeting_from 0 ranges.now }
{
    let mut rest = ranges;
    let mut number = 0;
    while let Some((range, others)) = rest.split_first() {
        if let Some(place) = first_meeting(*range, others) {
            return Some((number, number + 1 + place));
        }
        rest = others;
        number += 1;
    }
    None
}

// The first two stored sections that share a byte of the file.
#[tactic(auto, unfolding(crate::specs::Details::shared_sections))]
pub(crate) fn shared_sections(
    alloc: Global,
    sections: &[SectionHeader],
) -> Result<Option<Detail>, AllocError>
    ensures { IfOk result (λ answer. answer ≡ sections_by sections.now) }
{
    let ranges = section_ranges(alloc, sections)?;
    let Some((first, second)) = meeting(&ranges) else {
        return Ok(None);
    };
    Ok(Some(Detail::Shared {
        first: Piece::Section(first),
        second: Piece::Section(second),
        in_memory: false,
    }))
}

// The ranges of sections.
fn section_ranges(alloc: Global, sections: &[SectionHeader]) -> Result<Vec<Range>, AllocError>
    ensures { IfOk result (λ made. made.items ≡ map stored_by sections.now) }
{
    sections.iter().map(|s| stored_range(*s)).collect(alloc)
}

// The ranges of segments, in memory or in the file.
fn segment_ranges(
    alloc: Global,
    in_memory: bool,
    segments: &[SegmentHeader],
) -> Result<Vec<Range>, AllocError>
    ensures { IfOk result (λ made. made.items ≡ map (loaded_by in_memory) segments.now) }
{
    segments
        .iter()
        .map(|p| loaded_range(in_memory, *p))
        .collect(alloc)
}

// The first two loaded segments that share an address, or a byte of the file.
#[tactic(auto, unfolding(crate::specs::Details::shared_parts))]
fn shared_parts(
    alloc: Global,
    in_memory: bool,
    segments: &[SegmentHeader],
) -> Result<Option<Detail>, AllocError>
    ensures { IfOk result (λ answer. answer ≡ parts_by in_memory segments.now) }
{
    let ranges = segment_ranges(alloc, in_memory, segments)?;
    let Some((first, second)) = meeting(&ranges) else {
        return Ok(None);
    };
    Ok(Some(Detail::Shared {
        first: Piece::Segment(first),
        second: Piece::Segment(second),
        in_memory,
    }))
}

// What contradicts the rule on loaded segments.
#[tactic(auto, unfolding(crate::specs::Details::shared_segments))]
pub(crate) fn shared_segments(
    alloc: Global,
    segments: &[SegmentHeader],
) -> Result<Option<Detail>, AllocError>
    ensures { IfOk result (λ answer. answer ≡ segments_by segments.now) }
{
    let addresses = shared_parts(alloc, true, segments)?;
    let bytes = shared_parts(alloc, false, segments)?;
    Ok(first_there(addresses, bytes))
}
