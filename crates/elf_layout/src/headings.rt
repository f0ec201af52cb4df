//! What becomes of a program header.
ghost use Rattle.std.specs.Prelude.{◌≡◌, [], ◌∷◌, ◌++◌, ◌&&◌, MatchOption, MatchResult, OnOk, true, false, map};
ghost use Rattle.std.specs.List.{list_all};
ghost use Rattle.elf_layout_plan.specs.PlanModel.{place_model};
ghost use Rattle.elf_layout_plan.specs.Sizes.{field_range};
ghost use Rattle.elf_layout_plan.specs.Written.{address_for as address_at, memory_size as size_in_memory, physical_for};
ghost use Rattle.elf_layout_segments.specs.AnchorPositions.{anchor_model};
ghost use Rattle.elf_layout.specs.Targets.{AreNotes, IsMisfit, begins_model, do_headings_fit, does_table_fit, fits_word, header_at, headings_for, headings_found, headings_model, is_physical_well, is_well_at, sized_table, target_model, targets_found};

use crate::targets::{Notes, TargetAt, Targets, targets_of};
use elf_format::constants::{PT_DYNAMIC, PT_INTERP};
use elf_format::form::Form;
use elf_format::records::SegmentHeader;
use elf_layout_plan::{LayoutFault, SectionPlace};
use elf_layout_segments::anchors::AnchorAt;
use patch_bytes::Wide;
use std::alloc::AllocError;

// What becomes of a program header: one, or two.
pub(crate) struct Headings {
    pub(crate) first: SegmentHeader,
    pub(crate) second: Option<SegmentHeader>,
}

// How many bytes a program header takes in memory that has so many in the file.
fn memory_size(p: SegmentHeader, size: u64) -> u64
    ensures { result ≡ size_in_memory p size }
{
    let as_many = p.p_memsz == p.p_filesz;
    if p.p_type == PT_DYNAMIC || p.p_type == PT_INTERP || as_many {
        size
    } else if p.p_memsz < p.p_filesz || size < p.p_memsz {
        p.p_memsz
    } else {
        size
    }
}

// The address that a program header gets.
fn address_for(p: SegmentHeader, t: TargetAt) -> u64
    ensures { result ≡ address_at p (target_model t) }
{
    match t.address {
        Some(address) => address,
        None => p.p_vaddr,
    }
}

// A number, if it fits 64 bits.
fn in_word(number: u128) -> Option<u64>
    ensures { MatchOption result (fits_word number ≡ false)
        (λ n. (n ≡ number) × (fits_word number ≡ true)) }
{
    if number <= 0xffff_ffff_ffff_ffff {
        Some(number as u64)
    } else {
        None
    }
}

// How many numbers a field for addresses holds.
fn range_of(form: Form) -> u128
    ensures { result ≡ field_range form }
{
    match form.wide {
        Wide::W32 => 1 << 32,
        Wide::W64 => 1 << 64,
    }
}

// The physical address that goes with an address.
fn physical_number(form: Form, p: SegmentHeader, address: u64) -> u128
    ensures { result ≡ physical_for form p address }
{
    let sum = p.p_paddr as u128 + address as u128;
    let start = p.p_vaddr as u128;
    if start <= sum {
        sum - start
    } else {
        (sum + range_of(form)).saturating_sub(start)
    }
}

// The physical address that goes with an address; none where it doesn't fit.
#[tactic(auto, unfolding(crate::specs::Targets::is_physical_well))]
fn physical_at(form: Form, p: SegmentHeader, address: u64) -> Option<u64>
    ensures { MatchOption result (is_physical_well form p address ≡ false)
        (λ n. (n ≡ physical_for form p address) × (is_physical_well form p address ≡ true)) }
{
    in_word(physical_number(form, p, address))
}

// The program header at a target; none where a number doesn't fit.
#[tactic(auto, unfolding(crate::specs::Targets::is_well_at, crate::specs::Targets::header_at))]
fn anchored_to(form: Form, p: SegmentHeader, t: TargetAt) -> Option<SegmentHeader>
    ensures { MatchOption result (is_well_at form p t ≡ false)
        (λ h. (h ≡ header_at form p t) × (is_well_at form p t ≡ true)) }
{
    let address = address_for(p, t);
    match physical_at(form, p, address) {
        None => None,
        Some(physical) => match in_word(t.size) {
            None => None,
            Some(size) => Some(SegmentHeader {
                p_type: p.p_type,
                p_flags: p.p_flags,
                p_offset: t.offset,
                p_vaddr: address,
                p_paddr: physical,
                p_filesz: size,
                p_memsz: memory_size(p, size),
                p_align: p.p_align,
            }),
        },
    }
}

// The program header with the size of the table where it is for that; none where the size doesn't fit.
fn table_or(p: SegmentHeader, anchor: &AnchorAt, size: u128) -> Option<SegmentHeader>
    ensures { MatchOption result (does_table_fit size (anchor_model anchor.now) ≡ false)
        (λ h. (h ≡ sized_table size p (anchor_model anchor.now))
        × (does_table_fit size (anchor_model anchor.now) ≡ true)) }
{
    match anchor {
        AnchorAt::HeaderTable => {
            if 0xffff_ffff_ffff_ffff < size {
                return None;
            }
            let mut table = p;
            table.p_filesz = size as u64;
            table.p_memsz = size as u64;
            Some(table)
        }
        AnchorAt::Itself => Some(p),
        AnchorAt::OneSection(_) => Some(p),
        AnchorAt::Notes(_) => Some(p),
    }
}

// What becomes of a program header at one target.
fn at_one(form: Form, p: SegmentHeader, t: TargetAt) -> Option<Headings>
    ensures { MatchOption result (is_well_at form p t ≡ false)
        (λ h. (headings_model h ≡ header_at form p t ∷ [])
        × (is_well_at form p t ≡ true)) }
{
    match anchored_to(form, p, t) {
        None => None,
        Some(first) => Some(Headings {
            first,
            second: None,
        }),
    }
}

// What becomes of a program header at two targets.
fn at_two(form: Form, p: SegmentHeader, t: TargetAt, u: TargetAt) -> Option<Headings>
    ensures { let both = is_well_at form p t && is_well_at form p u in
        MatchOption result (both ≡ false)
        (λ h. (headings_model h ≡ header_at form p t ∷ header_at form p u ∷ [])
        × (both ≡ true)) }
{
    match anchored_to(form, p, t) {
        None => None,
        Some(first) => match anchored_to(form, p, u) {
            None => None,
            Some(second) => Some(Headings {
                first,
                second: Some(second),
            }),
        },
    }
}

// What becomes of a program header at its targets, where it has any.
fn at_targets(
    form: Form,
    p: SegmentHeader,
    alone: SegmentHeader,
    targets: Targets,
) -> Option<Headings>
    ensures { let well = list_all (is_well_at form p) (targets_found targets) in
        MatchOption result (well ≡ false)
        (λ h. (headings_model h ≡ headings_found form p alone (targets_found targets))
        × (well ≡ true)) }
{
    let Targets { first, second } = targets;
    match first {
        None => match second {
            None => Some(Headings {
                first: alone,
                second: None,
            }),
            Some(t) => at_one(form, p, t),
        },
        Some(t) => match second {
            None => at_one(form, p, t),
            Some(u) => at_two(form, p, t, u),
        },
    }
}

// What becomes of a program header that goes by this, where the program header table has that size; none where a number
// doesn't fit.
#[tactic(auto, unfolding(crate::specs::Targets::headings_for, crate::specs::Targets::do_headings_fit))]
fn headings_of(
    form: Form,
    places: &[SectionPlace],
    notes: &Notes,
    size: u128,
    p: SegmentHeader,
    anchor: &AnchorAt,
) -> Option<Headings>
    requires { AreNotes (map place_model places.now) notes.now }
    ensures { let all = map place_model places.now in let begins = begins_model notes.now in
        let anchor_position = anchor_model anchor.now in
        MatchOption result (do_headings_fit form all begins size p anchor_position ≡ false)
        (λ h. (headings_model h ≡ headings_for form all begins size p anchor_position)
        × (do_headings_fit form all begins size p anchor_position ≡ true)) }
{
    match table_or(p, anchor, size) {
        None => None,
        Some(alone) => at_targets(form, p, alone, targets_of(places, notes, anchor)),
    }
}

// Puts what becomes of a program header behind other headers.
fn push_headings(made: &mut Vec<SegmentHeader>, headings: Headings) -> Result<(), AllocError>
    ensures { OnOk result (made.new.items ≡ made.old.items ++ headings_model headings) }
{
    let Headings { first, second } = headings;
    made.push(first)?;
    if let Some(second) = second {
        made.push(second)?;
    }
    Ok(())
}

// Puts what becomes of a program header behind others.
pub(crate) fn push_written(
    form: Form,
    made: &mut Vec<SegmentHeader>,
    places: &[SectionPlace],
    notes: &Notes,
    size: u128,
    p: SegmentHeader,
    anchor: &AnchorAt,
) -> Result<(), LayoutFault>
    requires { AreNotes (map place_model places.now) notes.now }
    ensures { let all = map place_model places.now in let begins = begins_model notes.now in
        let anchor_position = anchor_model anchor.now in
        MatchResult result
        (λ _. (made.new.items
        ≡ made.old.items ++ headings_for form all begins size p anchor_position)
        × (do_headings_fit form all begins size p anchor_position ≡ true))
        (IsMisfit (do_headings_fit form all begins size p anchor_position)) }
{
    let Some(headings) = headings_of(form, places, notes, size, p, anchor) else {
        return Err(LayoutFault::NumberTooLarge);
    };
    push_headings(made, headings)?;
    Ok(())
}
