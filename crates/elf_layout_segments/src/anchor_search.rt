//! What a program header goes by.
ghost use Rattle.std.specs.Prelude.{◌≡◌, ◌==◌, false, [], ◌∷◌, ◌++◌, IfOk, OnOk, map};
ghost use Rattle.elf_format.specs.Options.{is_one_of};
ghost use Rattle.elf_format.specs.declared.constants.TheConstants.{PT_GNU_PROPERTY as GNU_PROPERTY, PT_NOTE as NOTE};
ghost use Rattle.elf_image.specs.ImageModel.{segment_model};
ghost use Rattle.elf_layout_plan.specs.Anchors.{does_relro_stay as stays_as_relro};
ghost use Rattle.elf_layout_segments.specs.FileRanges.{AreFileRanges};
ghost use Rattle.elf_layout_segments.specs.AnchorPositions.{anchor_model};
ghost use Rattle.elf_layout_segments.specs.AnchorSearch.{SearchedLists, interpreter_at, is_over_notes_at, position_or_itself, searched_lists, section_or_table_at, anchor_position_by_range, anchor_position_of, under_at};
ghost use Rattle.elf_layout_segments.specs.AnchorLists.{AreLists};
ghost use Rattle.elf_layout_segments.specs.Sections.{indexed_sections};

use crate::anchors::AnchorAt;
use crate::file_ranges::{FileRanges, file_ranges_of};
use crate::keys::{Key, first_just, keys_of};
use crate::sections::{SectionAt, Wanted, first, sections_of};
use elf_format::constants::{
    PT_DYNAMIC, PT_GNU_PROPERTY, PT_GNU_RELRO, PT_INTERP, PT_LOAD, PT_NOTE, PT_PHDR, SHT_DYNAMIC,
};
use elf_format::records::SegmentHeader;
use elf_image::{Builder, Segment};
use elf_layout_moves::resizing::Resizing;
use std::alloc::{AllocError, Global};

// What anchors are looked up in.
#[derive(Drop)]
pub(crate) struct Lists {
    // Where the first dynamic list stands.
    pub(crate) dynamic: Option<usize>,
    // Where the section stands that has the interpreter's name.
    pub(crate) interpreter: Option<usize>,
    // The loaded sections by the bytes that they have.
    pub(crate) loaded: Vec<Key>,
    // All sections by the bytes that they have.
    pub(crate) all: Vec<Key>,
    // Where the sections at read begin and end.
    pub(crate) read: FileRanges,
    // The dynamic section has leave to move.
    pub(crate) moves_dynamic: bool,
}

// One section, or the program header itself.
fn position_or_itself_at(position: Option<usize>) -> AnchorAt
    ensures { anchor_model result ≡ position_or_itself position }
{
    match position {
        Some(position) => AnchorAt::OneSection(position),
        None => AnchorAt::Itself,
    }
}

// One section, or the program header table.
fn section_or_table(position: Option<usize>) -> AnchorAt
    ensures { anchor_model result ≡ section_or_table_at position }
{
    match position {
        Some(position) => AnchorAt::OneSection(position),
        None => AnchorAt::HeaderTable,
    }
}

// Where the section stands that has the interpreter's name.
fn find_interpreter(number: Option<usize>, sections: &[SectionAt]) -> Option<usize>
    ensures { result ≡ interpreter_at number sections.now }
{
    match number {
        Some(number) => first(sections, Wanted::Numbered(number)),
        None => None,
    }
}

// Where the sections of a file begin and end.
fn ranges_of(alloc: Global, read: &Builder<'_>) -> Result<FileRanges, AllocError>
    ensures { IfOk result (AreFileRanges (indexed_sections read.now)) }
{
    let sections = sections_of(alloc, read)?;
    file_ranges_of(alloc, &sections)
}

// What the anchors of an image are looked up in, by its sections.
fn lists_among(alloc: Global, r: &Resizing<'_, '_>, kept: &[SectionAt]) -> Result<Lists, AllocError>
    requires { kept.now ≡ indexed_sections r.now.image }
    ensures { IfOk result (AreLists (searched_lists r.now)) }
{
    let number = r.read.interpreter_number();
    let read = ranges_of(alloc, r.read)?;
    let loaded = keys_of(alloc, kept, true)?;
    let all = keys_of(alloc, kept, false)?;
    let dynamic = first(kept, Wanted::OfType(SHT_DYNAMIC));
    let interpreter = find_interpreter(number, kept);
    let moves_dynamic = r.image.may_dynamic_move();
    Ok(Lists {
        dynamic,
        interpreter,
        loaded,
        all,
        read,
        moves_dynamic,
    })
}

// What the anchors of an image are looked up in.
pub(crate) fn lists_of(alloc: Global, r: &Resizing<'_, '_>) -> Result<Lists, AllocError>
    ensures { IfOk result (AreLists (searched_lists r.now)) }
{
    let kept = sections_of(alloc, r.image)?;
    lists_among(alloc, r, &kept)
}

// Where the section stands that has just the bytes of a program header, of several one that is loaded.
fn find_under(lists: &Lists, p: SegmentHeader) -> Option<usize>
    ensures { (looked : SearchedLists) → AreLists looked lists.now
        → result ≡ under_at p looked.kept }
{
    match first_just(&lists.loaded, p.file_part()) {
        Some(position) => Some(position),
        None => first_just(&lists.all, p.file_part()),
    }
}

// Whether a program header is for notes or properties.
fn is_for_notes(p: SegmentHeader) -> bool
    ensures { result ≡ is_one_of (NOTE ∷ GNU_PROPERTY ∷ []) p.p_type }
{
    p.p_type == PT_NOTE || p.p_type == PT_GNU_PROPERTY
}

// Whether a program header is for notes or properties, and was over several notes and over no other section.
fn is_over_notes(lists: &Lists, p: SegmentHeader) -> bool
    requires { (p.p_filesz == 0) ≡ false }
    ensures { (looked : SearchedLists) → AreLists looked lists.now
        → result ≡ is_over_notes_at looked p }
{
    is_for_notes(p) && lists.read.is_over_notes(p.file_part())
}

// What a program header goes by, by the bytes of the file that it covers.
#[tactic(auto, unfolding(crate::specs::AnchorSearch::anchor_position_by_range))]
fn anchor_by_range(lists: &Lists, p: SegmentHeader) -> AnchorAt
    ensures { (looked : SearchedLists) → AreLists looked lists.now
        → anchor_model result ≡ anchor_position_by_range looked p }
{
    if p.p_filesz == 0 {
        return AnchorAt::Itself;
    }
    if is_over_notes(lists, p) {
        return AnchorAt::Notes(p.file_part());
    }
    position_or_itself_at(find_under(lists, p))
}

// Whether a program header keeps its range because the dynamic section may move (PT_GNU_RELRO).
fn does_relro_stay(lists: &Lists, p: SegmentHeader) -> bool
    ensures { result ≡ stays_as_relro lists.now.moves_dynamic p.p_type }
{
    p.p_type == PT_GNU_RELRO && lists.moves_dynamic
}

// What a program header goes by.
#[tactic(auto, unfolding(crate::specs::AnchorSearch::anchor_position_of))]
fn anchor_of(lists: &Lists, p: SegmentHeader) -> AnchorAt
    ensures { (looked : SearchedLists) → AreLists looked lists.now
        → anchor_model result ≡ anchor_position_of looked p }
{
    if p.p_type == PT_LOAD {
        AnchorAt::Itself
    } else if p.p_type == PT_PHDR {
        section_or_table(find_under(lists, p))
    } else if p.p_type == PT_DYNAMIC {
        position_or_itself_at(lists.dynamic)
    } else if p.p_type == PT_INTERP {
        position_or_itself_at(lists.interpreter)
    } else if does_relro_stay(lists, p) {
        AnchorAt::Itself
    } else {
        anchor_by_range(lists, p)
    }
}

// What each program header of an image goes by.
pub(crate) fn anchors_by_lists(
    alloc: Global,
    segments: &[Segment<'_>],
    lists: &Lists,
) -> Result<Vec<AnchorAt>, AllocError>
    ensures { (looked : SearchedLists) → AreLists looked lists.now → IfOk result (λ made.
        map anchor_model made.items
        ≡ map (λ s. anchor_position_of looked (segment_model s)) segments.now) }
{
    let mut made = Vec::new(alloc);
    for segment in segments {
        made.push(anchor_of(lists, segment.numbers()))?;
    }
    Ok(made)
}
