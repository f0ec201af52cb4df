//! Where sections begin in the file that move, and where those begin that stay.
ghost use Rattle.std.specs.Prelude.{◌≡◌, IfOk};
ghost use Rattle.elf_layout_segments.specs.Asked.{is_some_in};
ghost use Rattle.elf_layout_segments.specs.SplitCounts.{AreStarts, chosen_begins as begins_chosen, chosen_starts as starts_chosen, is_chosen as is_of_those, is_marked as is_set_at};
ghost use Rattle.elf_layout_segments.specs.InOrder.{AreInOrder};
ghost use Rattle.elf_layout_segments.specs.Sections.{indexed_sections};

use crate::rising::Rising;
use crate::sections::{SectionAt, sections_of};
use elf_format::range::Range;
use elf_layout_moves::resizing::Resizing;
use std::alloc::{AllocError, Global};

/// Where sections with bytes begin in the file: offsets.
#[derive(Drop)]
pub struct Starts {
    /// The sections that move.
    pub moving: Rising,
    /// The sections that stay.
    pub staying: Rising,
}

/// Whether the section at a position is marked.
pub fn is_marked(marks: &[bool], position: usize) -> bool
    ensures { result ≡ is_set_at marks.now position }
{
    position < marks.len() && marks[position]
}

/// Whether the section at a position is one that moves, or one that stays.
pub fn is_chosen(moving: bool, marks: &[bool], position: usize) -> bool
    ensures { result ≡ is_of_those moving marks.now position }
{
    if moving {
        is_marked(marks, position)
    } else {
        !is_marked(marks, position)
    }
}

/// Where a section begins that has bytes: an offset in the file, and its position among the sections.
#[derive(Clone, Copy)]
pub struct Begin {
    /// The offset.
    pub start: u64,
    /// The position.
    pub position: usize,
}

// Where the sections with bytes begin that move, or those that stay.
fn chosen_begins(
    alloc: Global,
    sections: &[SectionAt],
    marks: &[bool],
    moving: bool,
) -> Result<Vec<Begin>, AllocError>
    ensures { IfOk result (λ made. made.items ≡ begins_chosen moving marks.now sections.now) }
{
    sections
        .iter()
        .filter(|s| s.has_bytes() && is_chosen(moving, marks, s.position))
        .map(|s| Begin {
            start: s.sh_offset,
            position: s.position,
        })
        .collect(alloc)
}

/// Where the sections of an image begin that have bytes and move, or have bytes and stay, in the
/// order of the sections.
pub fn begins_of(
    alloc: Global,
    r: &Resizing<'_, '_>,
    marks: &[bool],
    moving: bool,
) -> Result<Vec<Begin>, AllocError>
    ensures { IfOk result (λ begins.
        begins.items ≡ begins_chosen moving marks.now (indexed_sections r.now.image)) }
{
    let sections = sections_of(alloc, r.image)?;
    chosen_begins(alloc, &sections, marks, moving)
}

// Where the sections with bytes begin that move, or those that stay: the offsets alone.
fn chosen_starts(
    alloc: Global,
    sections: &[SectionAt],
    marks: &[bool],
    moving: bool,
) -> Result<Vec<u128>, AllocError>
    ensures { IfOk result (λ made. made.items ≡ starts_chosen moving marks.now sections.now) }
{
    sections
        .iter()
        .filter(|s| s.has_bytes() && is_chosen(moving, marks, s.position))
        .map(|s| u128::from(s.sh_offset))
        .collect(alloc)
}

// Where sections with bytes begin that move, or those that stay: the offsets alone, in order.
fn rising_starts(
    alloc: Global,
    sections: &[SectionAt],
    marks: &[bool],
    moving: bool,
) -> Result<Rising, AllocError>
    ensures { IfOk result (λ made.
        AreInOrder (starts_chosen moving marks.now sections.now) made.numbers.items) }
{
    let found = chosen_starts(alloc, sections, marks, moving)?;
    Ok(Rising::of(found))
}

/// Where the sections of an image begin that have bytes, by the marks of those that move.
pub fn starts_of(alloc: Global, r: &Resizing<'_, '_>, marks: &[bool]) -> Result<Starts, AllocError>
    ensures { IfOk result (λ starts. AreStarts (indexed_sections r.now.image) marks.now starts) }
{
    let sections = sections_of(alloc, r.image)?;
    let moving = rising_starts(alloc, &sections, marks, true)?;
    let staying = rising_starts(alloc, &sections, marks, false)?;
    Ok(Starts { moving, staying })
}

impl Starts {
    /// Whether one of the sections that move begins in a range of the file.
    pub fn does_any_move(&self, part: Range) -> bool
        ensures { result ≡ is_some_in self.now.moving part }
    {
        self.moving.is_some_in(part)
    }

    /// Whether one of the sections that stay begins in a range of the file.
    pub fn does_any_stay(&self, part: Range) -> bool
        ensures { result ≡ is_some_in self.now.staying part }
    {
        self.staying.is_some_in(part)
    }
}
