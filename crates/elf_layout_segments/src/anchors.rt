ghost use Rattle.std.specs.Prelude.{◌≡◌, IfOk};
ghost use Rattle.elf_layout_plan.specs.Added.{header_count, kept_end as end_of_kept};
ghost use Rattle.elf_layout_plan.specs.Rounds.{headers_needed as needed};
ghost use Rattle.elf_layout_moves.specs.Inner.{AreMarks};
ghost use Rattle.elf_layout_segments.specs.AnchorPositions.{AreAnchors};

use crate::anchor_search::{anchors_by_lists, lists_of};
use crate::reading::{sections_have_sizes, segment_at};
use crate::splits::{count_flags, count_split, next_end};
use crate::starts::starts_of;
use elf_format::range::Range;
use elf_layout_moves::resizing::Resizing;
use std::alloc::{AllocError, Global};

/// What a program header goes by; sections are told by their positions.
#[derive(Drop)]
pub enum AnchorAt {
    /// The program header keeps its range.
    Itself,
    /// The program header table.
    HeaderTable,
    /// One section.
    OneSection(usize),
    /// The note sections that begin in a range of the file.
    Notes(Range),
}

/// What each program header goes by.
pub fn anchors(alloc: Global, r: &Resizing<'_, '_>) -> Result<Vec<AnchorAt>, AllocError>
    ensures { IfOk result (λ anchors. AreAnchors r.now anchors.items) }
{
    let _source = r.image.source();
    let lists = lists_of(alloc, r)?;
    anchors_by_lists(alloc, r.image.segments(), &lists)
}

/// How many program headers more the sections that move need, by the anchors and the marks of those that move.
pub fn headers_needed(
    alloc: Global,
    r: &Resizing<'_, '_>,
    anchors: &[AnchorAt],
    moved: &[usize],
    marks: &[bool],
) -> Result<usize, AllocError>
    requires anchors { AreAnchors r.now anchors.now }
    requires marks { AreMarks r.now moved.now marks.now }
    ensures { IfOk result (λ count. count ≡ needed r.now moved.now) }
{
    sections_have_sizes(r);
    let flags = count_flags(alloc, r, moved)?;
    let starts = starts_of(alloc, r, marks)?;
    Ok(flags + count_split(&starts, anchors))
}

/// Where the file parts end that stay where they are, once so many program headers are written: an offset in the file.
pub fn kept_end(
    alloc: Global,
    r: &Resizing<'_, '_>,
    anchors: &[AnchorAt],
    moved: &[usize],
    marks: &[bool],
    headers: usize,
) -> Result<u64, AllocError>
    requires anchors { AreAnchors r.now anchors.now }
    requires marks { AreMarks r.now moved.now marks.now }
    requires headers { headers ≡ header_count r.now moved.now }
    ensures { IfOk result (λ end. end ≡ end_of_kept r.now moved.now) }
{
    sections_have_sizes(r);
    let starts = starts_of(alloc, r, marks)?;
    let mut end = r.form().file_header_size() as u64;
    for i in 0..anchors.len() {
        end = next_end(
            r,
            marks,
            &starts,
            headers,
            segment_at(r, i),
            &anchors[i],
            end,
        );
    }
    Ok(end)
}
