// The place of each section.
ghost use Rattle.std.specs.Prelude.{◌≡◌, ◌≤◌, ◌^◌, IfOk, IfErr, IfSome, IfNone, map, slice_get};
ghost use Rattle.elf_layout_plan.specs.Memory.{SizedSection};
ghost use Rattle.elf_layout_plan.specs.PlanModel.{place_model};
ghost use Rattle.elf_layout_plan.specs.Standing.{stands_at};
ghost use Rattle.elf_layout.specs.Unloaded.{IsPlaceFault, kept_for, offset_stays, place_by, places_by};
ghost use Rattle.elf_layout.specs.Numbers.{numbers_of};

use crate::sized::{SectionNumbers, section_count, section_here};
use crate::slots::At;
use elf_format::constants::{SHT_NOBITS, SHT_NULL};
use elf_layout_plan::{LayoutFault, SectionPlace};
use elf_layout_segments::resizing::Resizing;
use std::alloc::Global;

// What is kept for a position.
fn slot_at(slots: &[Option<At>], position: usize) -> Option<At>
    ensures { result ≡ kept_for (slice_get slots.now position) }
{
    if position < slots.len() {
        slots[position]
    } else {
        None
    }
}

// What is kept for a position.
fn unloaded_at(offsets: &[Option<u64>], position: usize) -> Option<u64>
    ensures { result ≡ kept_for (slice_get offsets.now position) }
{
    if position < offsets.len() {
        offsets[position]
    } else {
        None
    }
}

// A section at an offset and an address, with its new size.
fn stand(section: SectionNumbers, offset: u64, address: u64) -> SectionPlace
    ensures { (s : SizedSection) → section ≡ numbers_of s
        → place_model result ≡ stands_at s offset address }
{
    SectionPlace {
        sh_type: section.sh_type,
        sh_flags: section.sh_flags,
        sh_addr: address,
        sh_offset: offset,
        sh_size: section.size,
    }
}

// The offset of a section that stays: an empty one of the file is no further behind than the file has content.
fn staying_offset(section: SectionNumbers, end: u64) -> u64
    ensures { (s : SizedSection) → section ≡ numbers_of s → result ≡ offset_stays end s }
{
    if section.sh_type != SHT_NULL && section.sh_type != SHT_NOBITS && section.size == 0 {
        section.sh_offset.min(end)
    } else {
        section.sh_offset
    }
}

// A section's place, by what is kept for it; `None` where its address is past 64 bits.
fn place_section(
    section: SectionNumbers,
    slot: Option<At>,
    unloaded: Option<u64>,
    end: u64,
) -> Option<SectionPlace>
    ensures place { IfSome result (λ place. (s : SizedSection) → section ≡ numbers_of s
        → place_model place ≡ place_by end s slot unloaded) }
    ensures far { IfNone result ((s : SizedSection) → section ≡ numbers_of s
        → 2 ^ 64 ≤ (place_by end s slot unloaded).sh_addr) }
{
    match (slot, unloaded) {
        (Some(at), _) if at.address > u128::from(u64::MAX) => None,
        (Some(at), _) => Some(stand(section, at.offset, at.address as u64)),
        (None, Some(offset)) => Some(stand(section, offset, section.sh_addr)),
        (None, None) => {
            let offset = staying_offset(section, end);
            Some(stand(section, offset, section.sh_addr))
        }
    }
}

// The place of each section, in order, by what is kept for it.
pub(crate) fn place_all(
    alloc: Global,
    r: &Resizing<'_, '_>,
    slots: &[Option<At>],
    offsets: &[Option<u64>],
    end: u64,
) -> Result<Vec<SectionPlace>, LayoutFault>
    ensures places { IfOk result (λ places.
        map place_model places.items ≡ places_by r.now end slots.now offsets.now) }
    ensures fault { IfErr result (IsPlaceFault (places_by r.now end slots.now offsets.now)) }
{
    let mut places = Vec::new(alloc);
    for position in 0..section_count(r) {
        let section = section_here(r, position);
        let slot = slot_at(slots, position);
        let unloaded = unloaded_at(offsets, position);
        let Some(place) = place_section(section, slot, unloaded, end) else {
            return Err(LayoutFault::NumberTooLarge);
        };
        places.push(place)?;
    }
    Ok(places)
}
