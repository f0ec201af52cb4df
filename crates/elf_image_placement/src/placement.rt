ghost use Rattle.std.specs.Prelude.{◌≡◌, ◌∷◌, [], ◌+◌, ◌<◌, ◌==◌, IfOk, IsTrue, filter, map, not};
ghost use Rattle.std.specs.List.{list_all, list_any};
ghost use Rattle.std.specs.List.Sorted.{IsNonDecreasing};
ghost use Rattle.elf_image_rules.specs.File.{is_allocated, is_loaded, loads_of};
ghost use Rattle.elf_image_rules.specs.Placement.{ends_by, file_end, file_part, file_parts_fit as all_fit, header_table_loaded as is_table_loaded, holds, memory_part, ranges_in_file as all_in_file, sections_held as all_held, segments_apart as all_segments_apart, something_loaded as some_loaded, stored_apart as all_stored_apart, stored_clear_of, stored_ranges as all_stored, uninitialized_clear as all_clear};
ghost use Rattle.elf_image_rules.specs.Places.{file_range, place_of, places_of};
ghost use Rattle.elf_image_placement.specs.PlacementSteps.{AreEndsInOrder, AreInTurn, AreLoadsInTurn, follows_end, is_clear_if_uninitialized, is_filled_load, is_held_if_stored, lies_inside, sections_end_by, stored_of};
ghost use Rattle.elf_image_rules.specs.Ranges.{all_apart as no_two_meet, apart, lies_in};
ghost use Rattle.elf_image_rules.specs.Read.{Passes, parts_model};
ghost use Rattle.elf_image_rules.specs.Rules.{are_sections_loaded as all_loaded, checked, header_ranges, placement_rules, segment_table_range};

use elf_image_rules::constants::PT_PHDR;
use elf_image_rules::fault::ElfFault;
use elf_image_rules::headers::Headers;
use elf_image_rules::range::Range;
use elf_image_rules::records::{SectionHeader, SegmentHeader};
use std::alloc::{AllocError, Global};

// Whether the bytes of each section lie in a file of that length.
fn sections_in_file(length: usize, sections: &[SectionHeader]) -> bool
    ensures { result ≡ sections_end_by length sections.now }
{
    sections
        .iter()
        .filter(|s| s.has_file_bytes())
        .all(|s| s.file_range().end() <= length as u128)
}

// Whether the bytes of each loaded segment lie in a file of that length.
fn loads_in_file(length: usize, segments: &[SegmentHeader]) -> bool
    ensures { result ≡ list_all (λ p. ends_by length (file_part p)) (loads_of segments.now) }
{
    segments
        .iter()
        .filter(|p| p.is_loaded())
        .all(|p| p.file_part().end() <= length as u128)
}

// Whether the bytes of each section and of each loaded segment lie in a file of that length.
#[tactic(auto, using(crate::proofs::PlacementSteps::ranges_in_file_is))]
pub(crate) fn ranges_in_file(
    length: usize,
    segments: &[SegmentHeader],
    sections: &[SectionHeader],
) -> bool
    ensures { result ≡ all_in_file length segments.now (places_of sections.now) }
{
    sections_in_file(length, sections) && loads_in_file(length, segments)
}

// Whether no loaded segment has more bytes in the file than in memory.
pub(crate) fn file_parts_fit(segments: &[SegmentHeader]) -> bool
    ensures { result ≡ all_fit segments.now }
{
    segments
        .iter()
        .filter(|p| p.is_loaded())
        .all(|p| p.p_filesz <= p.p_memsz)
}

// The program header table.
fn header_table(parts: &Headers<'_>) -> Range
    ensures { result ≡ segment_table_range (parts_model parts.now) }
{
    Range {
        start: parts.header.e_phoff,
        size: parts.header.e_phnum as u64 * parts.form.segment_header_size() as u64,
    }
}

// Whether a range lies in the file part of a loaded segment.
fn some_load_has(range: Range, segments: &[SegmentHeader]) -> bool
    ensures { result ≡ list_any (λ p. lies_in range (file_part p)) (loads_of segments.now) }
{
    segments
        .iter()
        .filter(|p| p.is_loaded())
        .any(|p| range.lies_in(p.file_part()))
}

// Whether some segment says where the program header table is.
fn has_header_table(segments: &[SegmentHeader]) -> bool
    ensures { result ≡ list_any (λ p. p.p_type == PT_PHDR) segments.now }
{
    segments.iter().any(|p| p.p_type == PT_PHDR)
}

/// Whether the program header table lies in a loaded segment, where a segment says where it is (gABI, Program
/// Header, `PT_PHDR`).
pub fn header_table_loaded(parts: &Headers<'_>) -> bool
    ensures { result
        ≡ is_table_loaded (segment_table_range (parts_model parts.now)) parts.now.segments.items }
{
    !has_header_table(&parts.segments) || some_load_has(header_table(parts), &parts.segments)
}

// Whether no two ranges share a place: looked for among neighbours, in the order of their starts.
fn all_apart(ranges: &mut [Range]) -> bool
    ensures value { result ≡ no_two_meet ranges.old }
{
    ranges.sort_unstable_by_key(|e| e.start);
    neighbours_apart(ranges)
}

// Whether each range that isn't empty begins where the one before it ends, or later.
fn neighbours_apart(ranges: &[Range]) -> bool
    ensures { result ≡ follows_end 0 ranges.now }
{
    let mut end = 0;
    for e in ranges {
        if e.size != 0 {
            if (e.start as u128) < end {
                return false;
            }
            end = e.end();
        }
    }
    true
}

// The addresses of the loaded segments.
fn memory_parts(alloc: Global, segments: &[SegmentHeader]) -> Result<Vec<Range>, AllocError>
    ensures { IfOk result (λ made. made.items ≡ map memory_part (loads_of segments.now)) }
{
    segments
        .iter()
        .filter(|p| p.is_loaded())
        .map(|p| p.memory_part())
        .collect(alloc)
}

// The bytes of the file that the loaded segments cover.
fn file_parts(alloc: Global, segments: &[SegmentHeader]) -> Result<Vec<Range>, AllocError>
    ensures { IfOk result (λ made. made.items ≡ map file_part (loads_of segments.now)) }
{
    segments
        .iter()
        .filter(|p| p.is_loaded())
        .map(|p| p.file_part())
        .collect(alloc)
}

// Whether loaded segments share no address.
fn apart_in_memory(alloc: Global, segments: &[SegmentHeader]) -> Result<bool, AllocError>
    ensures { IfOk result (λ b. b ≡ no_two_meet (map memory_part (loads_of segments.now))) }
{
    let mut parts = memory_parts(alloc, segments)?;
    Ok(all_apart(&mut parts))
}

// Whether loaded segments share no byte of the file.
fn apart_in_file(alloc: Global, segments: &[SegmentHeader]) -> Result<bool, AllocError>
    ensures { IfOk result (λ b. b ≡ no_two_meet (map file_part (loads_of segments.now))) }
{
    let mut parts = file_parts(alloc, segments)?;
    Ok(all_apart(&mut parts))
}

// Whether loaded segments share no address and no byte of the file.
pub(crate) fn segments_apart(alloc: Global, segments: &[SegmentHeader]) -> Result<bool, AllocError>
    ensures { IfOk result (λ b. b ≡ all_segments_apart segments.now) }
{
    if !apart_in_memory(alloc, segments)? {
        return Ok(false);
    }
    apart_in_file(alloc, segments)
}

// The bytes of the file that stored sections name.
fn stored_ranges(alloc: Global, sections: &[SectionHeader]) -> Result<Vec<Range>, AllocError>
    ensures { IfOk result (λ made. made.items
        ≡ map (λ s. file_range (place_of s)) (stored_of sections.now)) }
{
    sections
        .iter()
        .filter(|s| s.is_stored())
        .map(|s| s.file_range())
        .collect(alloc)
}

// Whether stored sections share no byte of the file.
fn apart_among_sections(alloc: Global, sections: &[SectionHeader]) -> Result<bool, AllocError>
    ensures { IfOk result (λ b. b ≡ no_two_meet (all_stored (places_of sections.now))) }
{
    let mut ranges = stored_ranges(alloc, sections)?;
    Ok(all_apart(&mut ranges))
}

// Whether no stored section shares a byte of the file with a range.
fn clear_of_sections(range: Range, sections: &[SectionHeader]) -> bool
    ensures { result
        ≡ list_all (λ s. apart range (file_range (place_of s))) (stored_of sections.now) }
{
    sections
        .iter()
        .filter(|s| s.is_stored())
        .all(|s| range.is_apart(s.file_range()))
}

// Whether stored sections share no byte of the file with the file header and the program header table.
fn clear_of_headers(header: Range, table: Range, sections: &[SectionHeader]) -> bool
    ensures { result ≡ stored_clear_of (header ∷ table ∷ []) (places_of sections.now) }
{
    clear_of_sections(header, sections) && clear_of_sections(table, sections)
}

// Whether stored sections share no byte of the file with each other or with the two headers.
fn stored_apart(alloc: Global, parts: &Headers<'_>) -> Result<bool, AllocError>
    ensures { IfOk result (λ b. b
        ≡ all_stored_apart (header_ranges (parts_model parts.now))
        (places_of parts.now.sections.items)) }
{
    if !apart_among_sections(alloc, &parts.sections)? {
        return Ok(false);
    }
    let header = Range {
        start: 0,
        size: parts.form.file_header_size() as u64,
    };
    Ok(clear_of_headers(header, header_table(parts), &parts.sections))
}

// Whether a loaded segment covers bytes of the file.
fn covers_bytes(segment: SegmentHeader) -> bool
    ensures { result ≡ is_filled_load segment }
{
    segment.is_loaded() && segment.p_filesz != 0
}

// The loaded segments that cover bytes of the file.
fn filled_loads(alloc: Global, segments: &[SegmentHeader]) -> Result<Vec<SegmentHeader>, AllocError>
    ensures { IfOk result (λ kept. kept.items ≡ filter is_filled_load segments.now) }
{
    segments
        .iter()
        .copied()
        .filter(|p| covers_bytes(*p))
        .collect(alloc)
}

// The loaded segments that cover bytes of the file, in the order of their offsets.
fn loads_by_offset(
    alloc: Global,
    segments: &[SegmentHeader],
) -> Result<Vec<SegmentHeader>, AllocError>
    requires { IsTrue (no_two_meet (map file_part (loads_of segments.now))) }
    ensures { IfOk result (λ loads. AreLoadsInTurn segments.now loads.items) }
{
    let mut loads = filled_loads(alloc, segments)?;
    loads.sort_unstable_by_key(|p| p.p_offset);
    Ok(loads)
}

// Whether a segment holds a section that has bytes: only the last that begins at it or before it can.
fn some_holds(loads: &[SegmentHeader], section: SectionHeader) -> bool
    requires sized { 0 < section.sh_size }
    requires in_turn { AreInTurn loads.now }
    ensures { result ≡ list_any (λ p. holds p (place_of section)) loads.now }
{
    let count = loads.partition_point(|p| p.p_offset <= section.sh_offset);
    count != 0 && loads[count - 1].holds(section)
}

// Whether a section, where it is stored, is held by one of the segments and doesn't begin at the file's start.
fn is_held(loads: &[SegmentHeader], section: SectionHeader) -> bool
    requires { AreInTurn loads.now }
    ensures { result ≡ is_held_if_stored loads.now (place_of section) }
{
    !section.is_stored() || some_holds(loads, section) && section.sh_offset != 0
}

// Whether each stored section is held by one of the segments and doesn't begin at the file's start.
fn are_held(loads: &[SegmentHeader], sections: &[SectionHeader]) -> bool
    requires { AreInTurn loads.now }
    ensures { result ≡ list_all (λ s. is_held_if_stored loads.now (place_of s)) sections.now }
{
    sections.iter().all(|s| is_held(loads, *s))
}

// Whether each stored section is held by a loaded segment and doesn't begin at the file's start.
fn sections_held(
    alloc: Global,
    segments: &[SegmentHeader],
    sections: &[SectionHeader],
) -> Result<bool, AllocError>
    requires { IsTrue (no_two_meet (map file_part (loads_of segments.now))) }
    ensures { IfOk result (λ b. b ≡ all_held segments.now (places_of sections.now)) }
{
    let loads = loads_by_offset(alloc, segments)?;
    Ok(are_held(&loads, sections))
}

// Whether some section takes up memory when the program runs.
fn has_allocated(sections: &[SectionHeader]) -> bool
    ensures { result ≡ list_any is_allocated sections.now }
{
    sections.iter().any(|s| s.is_allocated())
}

// Whether some segment is loaded.
fn has_load(segments: &[SegmentHeader]) -> bool
    ensures { result ≡ list_any is_loaded segments.now }
{
    segments.iter().any(|p| p.is_loaded())
}

// Whether there is a loaded segment, where there is an allocated section.
#[tactic(auto, using(crate::proofs::PlacementSteps::something_loaded_is))]
fn something_loaded(segments: &[SegmentHeader], sections: &[SectionHeader]) -> bool
    ensures { result ≡ some_loaded segments.now (places_of sections.now) }
{
    !has_allocated(sections) || has_load(segments)
}

// Whether stored sections are held by loaded segments, and apart from each other and from the headers.
pub(crate) fn are_sections_loaded(alloc: Global, parts: &Headers<'_>) -> Result<bool, AllocError>
    requires { IsTrue (all_segments_apart parts.now.segments.items) }
    ensures { IfOk result (λ b. b ≡ all_loaded (parts_model parts.now)) }
{
    if !sections_held(alloc, &parts.segments, &parts.sections)? {
        return Ok(false);
    }
    if !something_loaded(&parts.segments, &parts.sections) {
        return Ok(false);
    }
    stored_apart(alloc, parts)
}

// Where the file parts of loaded segments end in memory.
fn file_ends(alloc: Global, segments: &[SegmentHeader]) -> Result<Vec<u128>, AllocError>
    ensures { IfOk result (λ ends. ends.items ≡ map file_end (loads_of segments.now)) }
{
    segments
        .iter()
        .filter(|p| p.is_loaded())
        .map(|p| p.p_vaddr as u128 + p.p_filesz as u128)
        .collect(alloc)
}

// Where the file parts of loaded segments end in memory, in order.
fn sorted_file_ends(alloc: Global, segments: &[SegmentHeader]) -> Result<Vec<u128>, AllocError>
    ensures { IfOk result (λ ends. AreEndsInOrder segments.now ends.items) }
{
    let mut ends = file_ends(alloc, segments)?;
    ends.sort_unstable();
    Ok(ends)
}

// Whether none of the places lies inside a section's addresses: only the first behind its start can.
fn is_clear_of(ends: &[u128], section: SectionHeader) -> bool
    requires { IsNonDecreasing ends.now }
    ensures { result ≡ list_all (λ e. not (lies_inside (place_of section) e)) ends.now }
{
    let start = section.sh_addr as u128;
    let passed = ends.partition_point(|e| *e <= start);
    passed == ends.len() || start + section.sh_size as u128 <= ends[passed]
}

// Whether a section, where it is uninitialized, has none of the places inside its addresses.
fn is_clear(ends: &[u128], section: SectionHeader) -> bool
    requires { IsNonDecreasing ends.now }
    ensures { result ≡ is_clear_if_uninitialized ends.now (place_of section) }
{
    !section.is_uninitialized() || is_clear_of(ends, section)
}

// Whether no uninitialized section has one of the places inside its addresses.
fn are_clear(ends: &[u128], sections: &[SectionHeader]) -> bool
    requires { IsNonDecreasing ends.now }
    ensures { result
        ≡ list_all (λ s. is_clear_if_uninitialized ends.now (place_of s)) sections.now }
{
    sections.iter().all(|s| is_clear(ends, *s))
}

// Whether no uninitialized section crosses the end of a loaded segment's file part.
pub(crate) fn uninitialized_clear(
    alloc: Global,
    segments: &[SegmentHeader],
    sections: &[SectionHeader],
) -> Result<bool, AllocError>
    ensures { IfOk result (λ b. b ≡ all_clear segments.now (places_of sections.now)) }
{
    let ends = sorted_file_ends(alloc, segments)?;
    Ok(are_clear(&ends, sections))
}

/// Checks the rules on where segments and sections stand, or answers the fault of the first one that is broken;
/// `Memory` where there isn't enough memory.
pub fn check_placement(alloc: Global, parts: &Headers<'_>) -> Result<(), ElfFault>
    ensures { Passes (parts_model parts.now) result
        (checked placement_rules (parts_model parts.now)) }
{
    if !ranges_in_file(parts.file.len(), &parts.segments, &parts.sections) {
        return Err(ElfFault::Truncated);
    }
    if !file_parts_fit(&parts.segments) {
        return Err(ElfFault::Disagree(2));
    }
    if !segments_apart(alloc, &parts.segments)? {
        return Err(ElfFault::Disagree(3));
    }
    if !are_sections_loaded(alloc, parts)? {
        return Err(ElfFault::Disagree(4));
    }
    if !uninitialized_clear(alloc, &parts.segments, &parts.sections)? {
        return Err(ElfFault::Disagree(5));
    }
    Ok(())
}
