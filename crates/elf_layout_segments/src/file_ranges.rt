//! Where the sections of a file begin and end that have bytes.
ghost use Rattle.std.specs.Prelude.{◌≡◌, ◌<◌, ◌^◌, IfOk};
ghost use Rattle.elf_layout_segments.specs.FileRanges.{AreFileRanges, are_all_notes_by, ends_at, is_clear, is_over_counts, other_starts_at, starts_at};

use crate::rising::Rising;
use crate::sections::SectionAt;
use elf_format::range::Range;
use std::alloc::{AllocError, Global};

// Where sections with bytes begin and end, and where those begin that are no loaded notes: offsets in the file.
#[derive(Drop)]
pub(crate) struct FileRanges {
    pub(crate) starts: Rising,
    pub(crate) ends: Rising,
    pub(crate) others: Rising,
}

// Where the sections with bytes begin.
fn starts_of(alloc: Global, sections: &[SectionAt]) -> Result<Vec<u128>, AllocError>
    ensures { IfOk result (λ made. made.items ≡ starts_at sections.now) }
{
    sections
        .iter()
        .filter(|s| s.has_bytes())
        .map(|s| u128::from(s.sh_offset))
        .collect(alloc)
}

// Where the sections with bytes end.
fn ends_of(alloc: Global, sections: &[SectionAt]) -> Result<Vec<u128>, AllocError>
    ensures { IfOk result (λ made. made.items ≡ ends_at sections.now) }
{
    sections
        .iter()
        .filter(|s| s.has_bytes())
        .map(|s| s.file_range().end())
        .collect(alloc)
}

// Where the sections with bytes begin that are no loaded notes.
fn other_starts_of(alloc: Global, sections: &[SectionAt]) -> Result<Vec<u128>, AllocError>
    ensures { IfOk result (λ made. made.items ≡ other_starts_at sections.now) }
{
    sections
        .iter()
        .filter(|s| s.has_bytes() && !s.is_loaded_note())
        .map(|s| u128::from(s.sh_offset))
        .collect(alloc)
}

// All three, in order.
pub(crate) fn file_ranges_of(
    alloc: Global,
    sections: &[SectionAt],
) -> Result<FileRanges, AllocError>
    ensures { IfOk result (AreFileRanges sections.now) }
{
    let starts = starts_of(alloc, sections)?;
    let ends = ends_of(alloc, sections)?;
    let others = other_starts_of(alloc, sections)?;
    Ok(FileRanges {
        starts: Rising::of(starts),
        ends: Rising::of(ends),
        others: Rising::of(others),
    })
}

impl FileRanges {
    // Whether all sections that begin before a place end by it.
    #[tactic(auto, unfolding(crate::specs::FileRanges::is_clear))]
    fn is_clear_at(&self, place: u128) -> bool
        requires { place < 2 ^ 66 }
        ensures { result ≡ is_clear self.now place }
    {
        self.starts.count_below(place) == self.ends.count_below(place + 1)
    }

    // Whether all sections that share bytes with a range are loaded notes in it.
    #[tactic(auto, unfolding(crate::specs::FileRanges::are_all_notes_by))]
    fn are_all_notes(&self, part: Range) -> bool
        ensures { result ≡ are_all_notes_by self.now part }
    {
        self.is_clear_at(u128::from(part.start))
            && self.is_clear_at(part.end())
            && !self.others.is_some_in(part)
    }

    // Whether two sections or more share bytes with a range, and all that do are loaded notes in it.
    #[tactic(auto, unfolding(crate::specs::FileRanges::is_over_counts))]
    pub(crate) fn is_over_notes(&self, part: Range) -> bool
        ensures { result ≡ is_over_counts self.now part }
    {
        let until = self.starts.count_below(part.end());
        let ended = self.ends.count_below(u128::from(part.start) + 1);
        2 <= until.saturating_sub(ended) && self.are_all_notes(part)
    }
}
