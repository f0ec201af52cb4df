//! Where a program header goes.
ghost use Rattle.std.specs.Prelude.{◌≡◌, IfOk, map};
ghost use Rattle.std.specs.Option.{option_map};
ghost use Rattle.elf_layout_plan.specs.PlanModel.{place_model};
ghost use Rattle.elf_layout_plan.specs.Written.{address_in_memory};
ghost use Rattle.elf_layout_segments.specs.AnchorPositions.{anchor_model};
ghost use Rattle.elf_layout.specs.Targets.{AreBegins, AreNotes, begins_model, span_of, span_over, target_of_span, target_model, targets_at, targets_over_notes, targets_model};

use crate::reaches::{Reach, Reaches, reach_at, reach_over, reaches_of};
use elf_format::constants::SHF_ALLOC;
use elf_format::range::Range;
use elf_layout_plan::SectionPlace;
use elf_layout_segments::anchors::AnchorAt;
use elf_layout_segments::resizing::Resizing;
use std::alloc::{AllocError, Global};

// Bytes of the file and, where what a program header goes by is loaded, an address.
#[derive(Clone, Copy)]
pub(crate) struct TargetAt {
    pub(crate) offset: u64,
    pub(crate) size: u128,
    pub(crate) address: Option<u64>,
}

// Where a program header goes: nowhere, to one place or to two.
pub(crate) struct Targets {
    pub(crate) first: Option<TargetAt>,
    pub(crate) second: Option<TargetAt>,
}

// Where sections with bytes begin and where they come to stand.
#[derive(Drop)]
pub(crate) struct Notes {
    // The sections that stay.
    pub(crate) staying: Reaches,
    // The sections that move.
    pub(crate) moving: Reaches,
}

// The address of a place, where it is in memory.
fn address_of(place: SectionPlace) -> Option<u64>
    ensures { result ≡ address_in_memory (place_model place) }
{
    if place.sh_flags & SHF_ALLOC != 0 {
        Some(place.sh_addr)
    } else {
        None
    }
}

// From a place to an end.
fn target_from(place: SectionPlace, end: u128) -> TargetAt
    ensures { target_model result
        ≡ target_of_span (record { first = place_model place; end = end }) }
{
    let offset = u128::from(place.sh_offset);
    let size = if end < offset { 0 } else { end - offset };
    TargetAt {
        offset: place.sh_offset,
        size,
        address: address_of(place),
    }
}

// From the first of several places to the end of the last.
fn target_over(places: &[SectionPlace], reach: Option<Reach>) -> Option<TargetAt>
    ensures { option_map target_model result
        ≡ option_map target_of_span (span_of (map place_model places.now) reach) }
{
    match reach {
        None => None,
        Some(reach) => {
            if reach.position < places.len() {
                Some(target_from(places[reach.position], reach.end))
            } else {
                None
            }
        }
    }
}

// Where sections with bytes begin and where they come to stand, those that stay and those that move.
pub(crate) fn notes_of(
    alloc: Global,
    r: &Resizing<'_, '_>,
    marks: &[bool],
    places: &[SectionPlace],
) -> Result<Notes, AllocError>
    ensures begins { IfOk result (λ found. AreBegins r.now marks.now (begins_model found)) }
    ensures notes { IfOk result (AreNotes (map place_model places.now)) }
{
    let staying = reaches_of(alloc, r, marks, places, false)?;
    let moving = reaches_of(alloc, r, marks, places, true)?;
    Ok(Notes { staying, moving })
}

// Where a program header goes that goes by notes.
fn targets_of_notes(places: &[SectionPlace], notes: &Notes, part: Range) -> Targets
    requires { AreNotes (map place_model places.now) notes.now }
    ensures { let all = map place_model places.now in let begins = begins_model notes.now in
        targets_model result ≡ targets_over_notes
        (span_over all part begins.staying) (span_over all part begins.moving) }
{
    match target_over(places, reach_over(places, &notes.moving, part)) {
        None => Targets {
            first: None,
            second: None,
        },
        Some(moving) => Targets {
            first: target_over(places, reach_over(places, &notes.staying, part)),
            second: Some(moving),
        },
    }
}

// Where a program header goes that goes by this.
#[tactic(auto, using(crate::proofs::SpanSteps::one_place), unfolding(crate::specs::Targets::targets_at))]
pub(crate) fn targets_of(places: &[SectionPlace], notes: &Notes, anchor: &AnchorAt) -> Targets
    requires { AreNotes (map place_model places.now) notes.now }
    ensures { targets_model result ≡ targets_at
        (map place_model places.now) (begins_model notes.now) (anchor_model anchor.now) }
{
    match anchor {
        AnchorAt::Itself | AnchorAt::HeaderTable => Targets {
            first: None,
            second: None,
        },
        AnchorAt::OneSection(position) => Targets {
            first: target_over(places, reach_at(places, *position)),
            second: None,
        },
        AnchorAt::Notes(part) => targets_of_notes(places, notes, *part),
    }
}
