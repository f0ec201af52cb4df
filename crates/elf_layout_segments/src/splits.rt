//! Which program headers keep their ranges and which are split.
ghost use Rattle.std.specs.Prelude.{◌≡◌, ◌<◌, ◌+◌, ◌^◌, OnOk, IfOk, count_by, length, map};
ghost use Rattle.elf_image.specs.ImageModel.{section_model};
ghost use Rattle.elf_layout_plan.specs.Rounds.{added_flags, flags_for as needed_flags};
ghost use Rattle.elf_layout_segments.specs.SplitCounts.{end_with, is_split_at, keeps_at, keeps_section as keeps_with, keeps_section_at as keeps_place, with_flags, with_once};
ghost use Rattle.elf_layout_segments.specs.AnchorPositions.{anchor_model};

use crate::anchors::AnchorAt;
use crate::reading::sections_have_sizes;
use crate::starts::{Starts, is_marked};
use elf_format::constants::{PF_X, SHF_ALLOC, SHF_EXECINSTR, SHF_WRITE, SHT_NOTE};
use elf_format::records::SegmentHeader;
use elf_image::Section;
use elf_layout_moves::resizing::Resizing;
use elf_layout_plan::constants::{PF_R, PF_W};
use std::alloc::{AllocError, Global};

// Whether a program header that goes by this is split.
fn is_split(starts: &Starts, anchor: &AnchorAt) -> bool
    ensures { result ≡ is_split_at starts.now (anchor_model anchor.now) }
{
    match anchor {
        AnchorAt::Itself => false,
        AnchorAt::HeaderTable => false,
        AnchorAt::OneSection(_) => false,
        AnchorAt::Notes(part) => starts.does_any_move(*part) && starts.does_any_stay(*part),
    }
}

// How many program headers are split.
pub(crate) fn count_split(starts: &Starts, anchors: &[AnchorAt]) -> usize
    ensures { result ≡ count_by (is_split_at starts.now) (map anchor_model anchors.now) }
{
    let mut count = 0usize;
    for anchor in anchors {
        if is_split(starts, anchor) {
            count += 1;
        }
    }
    count
}

// What a loaded segment lets a program do with a section, by whether the dynamic section may move.
pub(crate) fn flags_for(leave: bool, section: &Section<'_>) -> u32
    ensures { result ≡ needed_flags leave (section_model section.now) }
{
    if section.sh_type == SHT_NOTE {
        return PF_R;
    }
    let write = if leave || section.sh_flags & SHF_WRITE != 0 {
        PF_W
    } else {
        0
    };
    let run = if section.sh_flags & SHF_EXECINSTR != 0 {
        PF_X
    } else {
        0
    };
    PF_R + write + run
}

// Puts flags behind others, where they aren't there yet.
fn add_once(flags: &mut Vec<u32>, needed: u32) -> Result<(), AllocError>
    ensures { OnOk result (flags.new.items ≡ with_once flags.old.items needed) }
{
    if !flags.contains(&needed) {
        flags.push(needed)?;
    }
    Ok(())
}

// Puts the flags behind others that the section at a position needs.
#[tactic(auto, unfolding(crate::specs::SplitCounts::with_flags))]
fn add_flags(
    flags: &mut Vec<u32>,
    leave: bool,
    sections: &[Section<'_>],
    position: usize,
) -> Result<(), AllocError>
    ensures { OnOk result (flags.new.items
        ≡ with_flags leave (map section_model sections.now) flags.old.items position) }
{
    if position < sections.len() {
        add_once(flags, flags_for(leave, &sections[position]))?;
    }
    Ok(())
}

// Puts the flags that the section of an image at a position needs behind others.
fn add_flags_at(
    flags: &mut Vec<u32>,
    r: &Resizing<'_, '_>,
    position: usize,
) -> Result<(), AllocError>
    ensures { OnOk result (flags.new.items
        ≡ with_flags r.now.image.moves_dynamic r.now.image.sections flags.old.items position) }
{
    add_flags(
        flags,
        r.image.may_dynamic_move(),
        r.image.sections(),
        position,
    )
}

// The sets of flags that sections need, each once.
fn flags_of(alloc: Global, r: &Resizing<'_, '_>, moved: &[usize]) -> Result<Vec<u32>, AllocError>
    ensures { IfOk result (λ flags. flags.items ≡ added_flags r.now moved.now) }
{
    sections_have_sizes(r);
    let mut flags = Vec::new(alloc);
    for position in moved {
        add_flags_at(&mut flags, r, *position)?;
    }
    Ok(flags)
}

// How many sets of flags sections need.
pub(crate) fn count_flags(
    alloc: Global,
    r: &Resizing<'_, '_>,
    moved: &[usize],
) -> Result<usize, AllocError>
    ensures count { IfOk result (λ count. count ≡ length (added_flags r.now moved.now)) }
    ensures few { IfOk result (λ count. count < 2 ^ 62) }
{
    let flags = flags_of(alloc, r, moved)?;
    Ok(flags.len())
}

// Whether a program header has the range of a section with a new size.
fn keeps_section(section: &Section<'_>, size: u64, p: SegmentHeader) -> bool
    ensures { result ≡ keeps_with (section_model section.now) size p }
{
    section.sh_flags & SHF_ALLOC != 0
        && section.sh_offset == p.p_offset
        && section.sh_addr == p.p_vaddr
        && size == p.p_filesz
}

// Whether a program header has the range of the section at a position with its new size.
#[tactic(auto, unfolding(crate::specs::SplitCounts::keeps_section_at))]
fn keeps_section_at(r: &Resizing<'_, '_>, p: SegmentHeader, position: usize) -> bool
    ensures { result ≡ keeps_place r.now p position }
{
    let sections = r.image.sections();
    if position < sections.len() && position < r.sizes.len() {
        keeps_section(&sections[position], r.sizes[position], p)
    } else {
        false
    }
}

// Whether a program header that goes by this keeps its range, where so many program headers are written.
#[tactic(auto, unfolding(crate::specs::SplitCounts::keeps_at))]
fn keeps_range(
    r: &Resizing<'_, '_>,
    marks: &[bool],
    starts: &Starts,
    headers: usize,
    p: SegmentHeader,
    anchor: &AnchorAt,
) -> bool
    ensures { result ≡ keeps_at r.now marks.now starts.now headers p (anchor_model anchor.now) }
{
    match anchor {
        AnchorAt::Itself => true,
        AnchorAt::HeaderTable => {
            let size = headers as u128 * r.form().segment_header_size() as u128;
            p.p_filesz as u128 == size && p.p_memsz == p.p_filesz
        }
        AnchorAt::OneSection(position) => {
            !is_marked(marks, *position) && keeps_section_at(r, p, *position)
        }
        AnchorAt::Notes(part) => !starts.does_any_move(*part),
    }
}

// The later of two ends, where the second counts.
#[tactic(auto, unfolding(crate::specs::SplitCounts::end_with))]
fn later_end(keeps: bool, stop: u128, size: usize, end: u64) -> u64
    ensures { result ≡ end_with keeps stop size end }
{
    if keeps && stop <= size as u128 && end < stop as u64 {
        stop as u64
    } else {
        end
    }
}

// The end of what stays so far, with one more program header.
pub(crate) fn next_end(
    r: &Resizing<'_, '_>,
    marks: &[bool],
    starts: &Starts,
    headers: usize,
    p: SegmentHeader,
    anchor: &AnchorAt,
    end: u64,
) -> u64
    ensures { let keeps = keeps_at r.now marks.now starts.now headers p (anchor_model anchor.now) in
        result ≡ end_with keeps (p.p_offset + p.p_filesz) (length r.now.image.source) end }
{
    let keeps = keeps_range(r, marks, starts, headers, p, anchor);
    later_end(keeps, p.file_part().end(), r.image.source().len(), end)
}
