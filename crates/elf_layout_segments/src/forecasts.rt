//! How many program headers more sections that move need, by where the program header table ends.
ghost use Rattle.std.specs.Prelude.{ℕ, List, ◌≡◌, ◌<◌, ◌-◌, ◌^◌, IfErr, IfOk, IsPermutation, IsTrue, OnOk, length, map};
ghost use Rattle.std.specs.List.Sorted.{IsNonDecreasingBy};
ghost use Rattle.elf_image.specs.ImageModel.{section_model};
ghost use Rattle.elf_layout_plan.specs.Memory.{Resized};
ghost use Rattle.elf_layout_moves.specs.Limits.{Covers, end_with};
ghost use Rattle.elf_layout_segments.specs.declared.forecasts.Limited.{Limited as Begun};
ghost use Rattle.elf_layout_segments.specs.declared.sections.SectionAt.{SectionAt as Placed};
ghost use Rattle.elf_layout_moves.specs.Inner.{IsStuckAt};
ghost use Rattle.elf_layout_moves.specs.declared.limits.TheConstants.{NEVER as never};
ghost use Rattle.elf_layout_segments.specs.AnchorPositions.{AreAnchors, anchor_model};
ghost use Rattle.elf_layout_segments.specs.Forecasts.{AreFlagsLimits, AreJoins, AreSplitLimits, AreStretchesIn, IsFlagsLimit, IsForecast, IsStretchIn, count_up_to as count_there, limited_at as limited_there, needed_at, parts_of};

use crate::anchors::AnchorAt;
use crate::leasts::{Stretch, leasts_in};
use crate::reading::sections_have_sizes;
use crate::rising::Rising;
use crate::sections::{SectionAt, sections_of};
use crate::splits::flags_for;
use elf_format::constants::PF_X;
use elf_format::range::Range;
use elf_image::Section;
use elf_layout_moves::limits::{NEVER, limit_at, limits_from};
use elf_layout_moves::resizing::Resizing;
use elf_layout_plan::LayoutFault;
use elf_layout_plan::constants::{PF_R, PF_W};
use std::alloc::{AllocError, Global};

// A section with bytes: where it begins in the file, and the least end of the program header table with which it moves.
#[derive(Clone, Copy)]
struct Limited {
    start: u64,
    limit: u128,
}

/// How many program headers more are needed with tables that end at an address. Each list is of such ends.
#[derive(Drop)]
pub struct Forecast {
    // The number of program headers more that the forecast was made with.
    pub(crate) from: usize,
    // The forecast tells of greater numbers with which the table ends before this address.
    pub(crate) bound: u128,
    // From where on sections move that need a set of flags.
    pub(crate) flags: Rising,
    // From where on program headers are split.
    pub(crate) splits: Rising,
    // From where on program headers are split no longer.
    pub(crate) joins: Rising,
}

// Sections with bytes, by where they begin, with their limits.
fn begins_of(
    alloc: Global,
    sections: &[SectionAt],
    limits: &[u128],
) -> Result<Vec<Limited>, AllocError>
    ensures { IfOk result (λ made. made.items ≡ limited_there limits.now sections.now) }
{
    sections
        .iter()
        .filter(|s| s.has_bytes())
        .map(|s| Limited {
            start: s.sh_offset,
            limit: limit_at(limits, s.position),
        })
        .collect(alloc)
}

// The places of those that begin in a range.
fn stretch_in(begins: &[Limited], part: Range) -> Stretch
    requires { IsNonDecreasingBy (λ (b : Begun). b.start) begins.now }
    ensures { IsStretchIn begins.now part result }
{
    Stretch {
        from: begins.partition_point(|b| b.start < part.start),
        until: begins.partition_point(|b| u128::from(b.start) < part.end()),
    }
}

// The places of the sections that begin in the range, for each program header that goes by notes.
fn stretches_of(
    alloc: Global,
    begins: &[Limited],
    anchors: &[AnchorAt],
) -> Result<Vec<Stretch>, AllocError>
    requires { IsNonDecreasingBy (λ (b : Begun). b.start) begins.now }
    ensures { IfOk result (λ made.
        AreStretchesIn begins.now (parts_of (map anchor_model anchors.now)) made.items) }
{
    let mut made = Vec::new(alloc);
    for anchor in anchors {
        if let AnchorAt::Notes(part) = anchor {
            made.push(stretch_in(begins, *part))?;
        }
    }
    Ok(made)
}

// The limits of sections.
fn limits_of(alloc: Global, begins: &[Limited]) -> Result<Vec<u128>, AllocError>
    ensures { IfOk result (λ made. made.items ≡ map (λ (b : Begun). b.limit) begins.now) }
{
    begins.iter().map(|b| b.limit).collect(alloc)
}

// The limits of sections, counted from NEVER down.
fn mirrored_limits_of(alloc: Global, begins: &[Limited]) -> Result<Vec<u128>, AllocError>
    ensures { IfOk result (λ made. made.items ≡ map (λ (b : Begun). never - b.limit) begins.now) }
{
    begins
        .iter()
        .map(|b| NEVER.saturating_sub(b.limit))
        .collect(alloc)
}

// From where on all sections of a stretch move: the greatest of their limits, but never before the
// first one moves.
fn all_move(alloc: Global, firsts: &[u128], mirrored: &[u128]) -> Result<Vec<u128>, AllocError>
    requires { length mirrored.now ≡ length firsts.now }
    ensures { IfOk result (λ made. AreJoins firsts.now mirrored.now made.items) }
{
    let mut made = Vec::with_capacity(alloc, firsts.len())?;
    for j in 0..firsts.len() {
        made.push(firsts[j].max(NEVER.saturating_sub(mirrored[j])))?;
    }
    Ok(made)
}

// The least limit of a section that needs these flags.
fn flags_limit(leave: bool, sections: &[Section<'_>], limits: &[u128], flags: u32) -> u128
    ensures { IsFlagsLimit leave limits.now (map section_model sections.now) flags result }
{
    let mut least = NEVER;
    for position in 0..sections.len() {
        if flags_for(leave, &sections[position]) == flags {
            least = least.min(limit_at(limits, position));
        }
    }
    least
}

// The least limit of a section that needs the flags, for each set of flags.
fn flags_limits(
    alloc: Global,
    leave: bool,
    sections: &[Section<'_>],
    limits: &[u128],
) -> Result<Vec<u128>, AllocError>
    ensures { IfOk result (λ found.
        AreFlagsLimits leave limits.now (map section_model sections.now) found.items) }
{
    let read = flags_limit(leave, sections, limits, PF_R);
    let run = flags_limit(leave, sections, limits, PF_R + PF_X);
    let write = flags_limit(leave, sections, limits, PF_R + PF_W);
    let all = flags_limit(leave, sections, limits, PF_R + PF_W + PF_X);
    let mut found = Vec::with_capacity(alloc, 4)?;
    found.push(read)?;
    found.push(run)?;
    found.push(write)?;
    found.push(all)?;
    Ok(found)
}

// From where on program headers are split, and from where on they are so no longer.
#[derive(Drop)]
struct SplitLimits {
    splits: Vec<u128>,
    joins: Vec<u128>,
}

// From where on program headers are split, and from where on no longer, by sections in the order of
// their first bytes.
fn split_limits_in(
    alloc: Global,
    begins: &[Limited],
    anchors: &[AnchorAt],
) -> Result<SplitLimits, AllocError>
    requires { IsNonDecreasingBy (λ (b : Begun). b.start) begins.now }
    ensures { (limits : List ℕ) (sections : List Placed)
        → IsPermutation (limited_there limits sections) begins.now
        → IfOk result (λ found. AreSplitLimits limits sections
        (map anchor_model anchors.now) found.splits.items found.joins.items) }
{
    let asked = stretches_of(alloc, begins, anchors)?;
    let splits = leasts_in(alloc, limits_of(alloc, begins)?, &asked)?;
    let mirrored = leasts_in(alloc, mirrored_limits_of(alloc, begins)?, &asked)?;
    let joins = all_move(alloc, &splits, &mirrored)?;
    Ok(SplitLimits { splits, joins })
}

// From where on program headers are split, and from where on no longer, by an image's sections.
fn split_limits(
    alloc: Global,
    sections: &[SectionAt],
    limits: &[u128],
    anchors: &[AnchorAt],
) -> Result<SplitLimits, AllocError>
    ensures { IfOk result (λ found. AreSplitLimits limits.now sections.now
        (map anchor_model anchors.now) found.splits.items found.joins.items) }
{
    let mut begins = begins_of(alloc, sections, limits)?;
    begins.sort_unstable_by_key(|b| b.start);
    split_limits_in(alloc, &begins, anchors)
}

/// What is needed from so many program headers more on. Errors: `Overlap` where two blocks overlap of which none can move;
/// `Memory`.
pub fn forecast_from(
    alloc: Global,
    r: &Resizing<'_, '_>,
    anchors: &[AnchorAt],
    added: usize,
) -> Result<Forecast, LayoutFault>
    requires { AreAnchors r.now anchors.now }
    ensures is { IfOk result (λ f. IsForecast r.now f) }
    ensures from { IfOk result (λ f. f.from ≡ added) }
    ensures fault { IfErr result (IsStuckAt r.now added) }
{
    // The read tells the proof that the sizes are those of the image.
    let _sizes = r.sizes;
    sections_have_sizes(r);
    let found = limits_from(alloc, r, added)?;
    let sections = sections_of(alloc, r.image)?;
    let split = split_limits(alloc, &sections, &found.limits, anchors)?;
    let flags = flags_limits(
        alloc,
        r.image.may_dynamic_move(),
        r.image.sections(),
        &found.limits,
    )?;
    Ok(Forecast {
        from: added,
        bound: found.bound,
        flags: Rising::of(flags),
        splits: Rising::of(split.splits),
        joins: Rising::of(split.joins),
    })
}

// How many of some numbers are no greater than another one.
fn count_up_to(numbers: &Rising, end: u128) -> u128
    requires { end < never }
    ensures value { result ≡ count_there numbers.now.numbers.items end }
    ensures few { result < 2 ^ 64 }
{
    numbers.count_below(end + 1) as u128
}

impl Forecast {
    // Whether the forecast tells of a number of program headers more with which the table ends at
    // an address.
    pub(crate) fn covers(&self, added: usize, end: u128) -> bool
        ensures { (r : Resized) → end ≡ end_with r added → IsTrue result
            → Covers r self.now.from self.now.bound added }
    {
        added == self.from || self.from < added && end < self.bound
    }

    /// Is made anew where it doesn't tell of so many program headers more, with which the table ends at an address. Errors:
    /// `Overlap` where two blocks overlap of which none can move; `Memory`.
    pub fn renew(
        &mut self,
        alloc: Global,
        r: &Resizing<'_, '_>,
        anchors: &[AnchorAt],
        added: usize,
        end: u128,
    ) -> Result<(), LayoutFault>
        requires anchors { AreAnchors r.now anchors.now }
        requires known { IsForecast r.now self.old }
        requires end { end ≡ end_with r.now added }
        ensures is { OnOk result (IsForecast r.now self.new) }
        ensures covers { OnOk result (Covers r.now self.new.from self.new.bound added) }
        ensures fault { IfErr result (IsStuckAt r.now added) }
    {
        if !self.covers(added, end) {
            *self = forecast_from(alloc, r, anchors, added)?;
        }
        Ok(())
    }

    /// How many program headers more are needed with a table that ends at an address.
    pub fn needed(&self, end: u128) -> u128
        requires { end < never }
        ensures { result ≡ needed_at self.now end }
    {
        let split = count_up_to(&self.splits, end).saturating_sub(count_up_to(&self.joins, end));
        count_up_to(&self.flags, end) + split
    }
}
