//! Spare segments: loaded ones behind all that has to stay, of which each byte but zeros is one of a section that can move. An
//! edit that moved sections added them, and the next one may lay those sections out anew in their place.
ghost use Rattle.std.specs.Prelude.{◌≡◌, ◌<◌, ◌^◌, ◌==◌, filter, map, sum_by};
ghost use Rattle.std.specs.List.{list_any};
ghost use Rattle.elf_format.specs.declared.constants.TheConstants.{PT_INTERP as INTERP};
ghost use Rattle.elf_format.specs.File.{segment_of_type};
ghost use Rattle.elf_format.specs.Options.{is_some_and};
ghost use Rattle.elf_image_headers.specs.PartModels.{section_model, segment_model};
ghost use Rattle.elf_image_headers.specs.Spare.{can_move as may_move, count_filled as filled_count, count_others as others_counted, fixed_end as end_of_fixed, fixed_section_end as end_if_fixed, fixed_sections_end as end_of_fixed_sections, has_place as is_in_file_part, is_fixed_segment as is_fixed, is_movable_type as moves_by_type, link_in_sections as link_of_kind, stands_as_interpreter as is_interpreter_at, strings_number as number_of_strings};
ghost use Rattle.elf_image_headers.specs.SpareFrom.{can_reclaim_from as may_reclaim, end_after, facts_of, filled_if_behind, filled_if_spare, has_bytes_for_all, has_fixed_type, is_spare_from, left, reclaimable as from_facts, spare_from, stays_loaded};

use crate::section::Section;
use crate::segment::{MOST_SEGMENTS, Segment};
use crate::segments::end_if;
use elf_format::constants::{
    PT_DYNAMIC, PT_GNU_PROPERTY, PT_GNU_STACK, PT_INTERP, PT_LOAD, PT_NOTE, SHF_ALLOC, SHT_DYNAMIC,
    SHT_DYNSYM, SHT_GNU_HASH, SHT_GNU_VERDEF, SHT_GNU_VERNEED, SHT_GNU_VERSYM, SHT_HASH, SHT_NOTE,
    SHT_PROGBITS, SHT_STRTAB,
};
use elf_format::numbers::part;
use elf_format::records::SegmentHeader;

/// What decides on spare segments.
#[derive(Clone, Copy)]
pub struct SpareParts<'a, 'data> {
    /// The program headers.
    pub segments: &'a [Segment],
    /// The sections.
    pub sections: &'a [Section<'data>],
    /// The number at read of the section at each position.
    pub numbers: &'a [usize],
    /// Where the program header table stands in the file.
    pub table: u64,
    /// The file's bytes.
    pub source: &'data [u8],
}

/// From where on segments are spare.
#[derive(Clone, Copy)]
pub struct SpareFrom {
    /// Where all ends in memory that has to stay and isn't a loaded segment.
    pub fixed: u128,
    /// Where the loaded segments end in memory that can't be spare.
    pub others: u128,
    /// Where the program header table stands in the file.
    pub table: u64,
}

impl SpareFrom {
    /// Whether a segment is spare. Takes no memory.
    pub fn is_spare(&self, segment: &Segment) -> bool
        ensures { result ≡ is_spare_from self.now (segment_model segment.now) }
    {
        let start = u128::from(segment.p_vaddr());
        segment.p_type() == PT_LOAD
            && has_all_bytes(segment)
            && segment.p_offset() != 0
            && !has_place(segment, self.table)
            && self.fixed <= start
            && self.others <= start
    }

    // Whether a segment is loaded and not spare.
    fn does_load_stay(&self, segment: &Segment) -> bool
        ensures { result ≡ stays_loaded self.now (segment_model segment.now) }
    {
        segment.p_type() == PT_LOAD && !self.is_spare(segment)
    }
}

// Whether a segment has bytes of the file, and for all of its memory.
fn has_all_bytes(segment: &Segment) -> bool
    ensures { result ≡ has_bytes_for_all (segment_model segment.now) }
{
    segment.p_filesz() == segment.p_memsz() && segment.p_filesz() != 0
}

// Whether a place of the file lies in a segment's file part.
fn has_place(segment: &Segment, position: u64) -> bool
    ensures { result ≡ is_in_file_part position (segment_model segment.now) }
{
    let end = u128::from(segment.p_offset()) + u128::from(segment.p_filesz());
    segment.p_offset() <= position && u128::from(position) < end
}

/// Whether every section of a type can move: nothing but tags and headers points to what is in it. Takes no memory.
pub fn is_movable_type(kind: u32) -> bool
    ensures { result ≡ moves_by_type kind }
{
    [
        SHT_NOTE,
        SHT_DYNSYM,
        SHT_HASH,
        SHT_GNU_HASH,
        SHT_GNU_VERSYM,
        SHT_GNU_VERDEF,
        SHT_GNU_VERNEED,
    ]
    .iter()
    .any(|other| *other == kind)
}

/// The number of the section that the first of a type links to (gABI, Sections, `sh_link`); `None` without one of that type.
/// Takes no memory.
pub fn link_in_sections(kind: u32, sections: &[Section<'_>]) -> Option<usize>
    ensures { result ≡ link_of_kind kind (map section_model sections.now) }
{
    for section in sections {
        if section.sh_type == kind {
            return Some(section.sh_link as usize);
        }
    }
    None
}

// The number of the section with the dynamic strings.
fn strings_number(sections: &[Section<'_>]) -> Option<usize>
    ensures { result ≡ number_of_strings (map section_model sections.now) }
{
    match link_in_sections(SHT_DYNAMIC, sections) {
        Some(number) => Some(number),
        None => link_in_sections(SHT_DYNSYM, sections),
    }
}

/// The numbers of the interpreter's program header (gABI, Program Header, `PT_INTERP`); `None` without one. Takes no memory.
pub fn interpreter_segment(segments: &[Segment]) -> Option<SegmentHeader>
    ensures { result ≡ segment_of_type INTERP (map segment_model segments.now) }
{
    for segment in segments {
        if segment.p_type() == PT_INTERP {
            return Some(segment.numbers());
        }
    }
    None
}

/// Whether a section stands where that program header says. Takes no memory.
pub fn stands_as_interpreter(p: SegmentHeader, section: &Section<'_>) -> bool
    ensures { result ≡ is_interpreter_at p (section_model section.now) }
{
    section.sh_type == SHT_PROGBITS
        && section.sh_offset == p.p_offset
        && section.sh_addr == p.p_vaddr
        && section.sh_size == p.p_filesz
}

// Whether the section is the interpreter's, where there is one.
fn is_interpreter(p: Option<SegmentHeader>, section: &Section<'_>) -> bool
    ensures { result ≡ is_some_and (λ p. is_interpreter_at p (section_model section.now)) p }
{
    match p {
        Some(p) => stands_as_interpreter(p, section),
        None => false,
    }
}

// Whether there is a number, and it is this one.
fn is_number(strings: Option<usize>, number: usize) -> bool
    ensures { result ≡ is_some_and (λ n. n == number) strings }
{
    match strings {
        Some(n) => n == number,
        None => false,
    }
}

// What tells which sections can move: the number of the section with the dynamic strings, and PT_INTERP.
#[derive(Clone, Copy)]
struct Movable {
    strings: Option<usize>,
    interpreter: Option<SegmentHeader>,
}

impl Movable {
    // Whether the section that had that number at read can move.
    fn can_move(&self, number: usize, section: &Section<'_>) -> bool
        ensures { result
            ≡ may_move self.now.strings self.now.interpreter number (section_model section.now) }
    {
        is_movable_type(section.sh_type)
            || section.sh_type == SHT_DYNAMIC
            || section.sh_type == SHT_STRTAB && is_number(self.strings, number)
            || is_interpreter(self.interpreter, section)
    }

    // Where a section ends that takes memory and can't move; 0 for any other one.
    fn fixed_section_end(&self, number: usize, section: &Section<'_>) -> u128
        ensures end { result
            ≡ end_if_fixed self.now.strings self.now.interpreter number
            (section_model section.now) }
        ensures near { result < 2 ^ 65 }
    {
        if section.sh_flags & SHF_ALLOC != 0 && !self.can_move(number, section) {
            u128::from(section.sh_addr) + u128::from(section.sh_size)
        } else {
            0
        }
    }

    // The greatest of a number and of these ends.
    fn fixed_sections_end(&self, end: u128, numbers: &[usize], sections: &[Section<'_>]) -> u128
        requires { end < 2 ^ 65 }
        ensures end { result
            ≡ end_of_fixed_sections self.now.strings self.now.interpreter end numbers.now
            (map section_model sections.now) }
        ensures near { result < 2 ^ 65 }
    {
        let mut found = end;
        for i in 0..numbers.len().min(sections.len()) {
            found = self.fixed_section_end(numbers[i], &sections[i]).max(found);
        }
        found
    }
}

// Whether a program header is neither for what is loaded nor for sections that can move.
fn is_fixed_segment(kind: u32) -> bool
    ensures { result ≡ has_fixed_type kind }
{
    ![PT_LOAD, PT_DYNAMIC, PT_INTERP, PT_NOTE, PT_GNU_PROPERTY]
        .iter()
        .any(|other| *other == kind)
}

// Where the segments of fixed types end in memory.
fn fixed_segments_end(segments: &[Segment]) -> u128
    ensures end { result ≡ end_after 0 (filter is_fixed (map segment_model segments.now)) }
    ensures near { result < 2 ^ 65 }
{
    let mut end = 0;
    for segment in segments {
        end = end_if(is_fixed_segment(segment.p_type()), segment).max(end);
    }
    end
}

// Where the loaded segments end in memory that are not spare.
fn left_end(segments: &[Segment], from: SpareFrom) -> u128
    ensures end { result
        ≡ end_after 0 (filter (stays_loaded from) (map segment_model segments.now)) }
    ensures near { result < 2 ^ 65 }
{
    let mut end = 0;
    for segment in segments {
        end = end_if(from.does_load_stay(segment), segment).max(end);
    }
    end
}

// Whether a loaded segment is not spare.
fn is_load_left(segments: &[Segment], from: SpareFrom) -> bool
    ensures { result ≡ list_any (stays_loaded from) (map segment_model segments.now) }
{
    for segment in segments {
        if from.does_load_stay(segment) {
            return true;
        }
    }
    false
}

// How many program headers aren't for a stack.
fn count_others(segments: &[Segment]) -> usize
    ensures { result ≡ others_counted (map segment_model segments.now) }
{
    segments
        .iter()
        .filter(|segment| segment.p_type() != PT_GNU_STACK)
        .count()
}

// How many bytes aren't 0.
fn count_filled(bytes: &[u8]) -> u128
    ensures value { result ≡ filled_count bytes.now }
    ensures near { result < 2 ^ 64 }
{
    let count = bytes.iter().filter(|byte| **byte != 0).count();
    count as u128
}

// How many bytes of a segment aren't 0; none of one that isn't spare.
fn filled_in_segment(segment: &Segment, source: &[u8], from: SpareFrom) -> u128
    ensures value { result ≡ filled_if_spare from source.now (segment_model segment.now) }
    ensures near { result < 2 ^ 64 }
{
    if !from.is_spare(segment) {
        return 0;
    }
    let at = segment.p_offset() as usize;
    count_filled(part(source, at, segment.p_filesz() as usize))
}

// How many bytes of the spare segments aren't 0.
fn filled_in_spare(segments: &[Segment], source: &[u8], from: SpareFrom) -> u128
    ensures { result ≡ sum_by (filled_if_spare from source.now) (map segment_model segments.now) }
{
    let mut sum = 0;
    for segment in segments {
        sum += filled_in_segment(segment, source, from);
    }
    sum
}

// How many bytes of a section aren't 0; none of one that takes no memory behind an end.
fn filled_in_section(section: &Section<'_>, end: u128) -> u128
    ensures value { result ≡ filled_if_behind end (section_model section.now) }
    ensures near { result < 2 ^ 64 }
{
    if section.sh_flags & SHF_ALLOC != 0 && end <= u128::from(section.sh_addr) {
        count_filled(section.content)
    } else {
        0
    }
}

// How many bytes of the sections that take memory behind an end aren't 0.
fn filled_in_sections(sections: &[Section<'_>], end: u128) -> u128
    ensures { result ≡ sum_by (filled_if_behind end) (map section_model sections.now) }
{
    let mut sum = 0;
    for section in sections {
        sum += filled_in_section(section, end);
    }
    sum
}

impl SpareParts<'_, '_> {
    // Where all ends that has to stay and isn't a loaded segment.
    #[tactic(auto, unfolding(crate::specs::Spare::fixed_end))]
    fn fixed_end(&self) -> u128
        ensures { result ≡ end_of_fixed (facts_of self.now) }
    {
        let movable = Movable {
            strings: strings_number(self.sections),
            interpreter: interpreter_segment(self.segments),
        };
        let end = fixed_segments_end(self.segments);
        movable.fixed_sections_end(end, self.numbers, self.sections)
    }

    // From where on segments are spare.
    fn spare_from(&self) -> SpareFrom
        ensures { result ≡ spare_from (facts_of self.now) }
    {
        let fixed = self.fixed_end();
        let others = left_end(
            self.segments,
            SpareFrom {
                fixed,
                others: 0,
                table: self.table,
            },
        );
        SpareFrom {
            fixed,
            others,
            table: self.table,
        }
    }

    // Whether the segments that are spare can be taken away.
    fn can_reclaim(&self, from: SpareFrom) -> bool
        ensures { result ≡ may_reclaim from (facts_of self.now) }
    {
        is_load_left(self.segments, from)
            && left_end(self.segments, from) <= from.others
            && filled_in_spare(self.segments, self.source, from)
                == filled_in_sections(self.sections, from.others)
            && count_others(self.segments) < MOST_SEGMENTS
    }

    /// From where on segments are spare; `None` where these can't be taken away. Takes no memory.
    pub fn reclaimable(&self) -> Option<SpareFrom>
        ensures { result ≡ from_facts (facts_of self.now) }
    {
        let from = self.spare_from();
        if self.can_reclaim(from) {
            Some(from)
        } else {
            None
        }
    }
}

/// Takes the spare segments away, where they can be. Takes no memory.
pub fn reclaim(segments: &mut Vec<Segment>, from: Option<SpareFrom>)
    ensures { map segment_model segments.new.items
        ≡ left from (map segment_model segments.old.items) }
{
    let Some(from) = from else {
        return;
    };
    segments.retain(|segment| !from.is_spare(segment));
}
