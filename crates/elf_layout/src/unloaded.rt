// Sections that aren't loaded, one behind the other.
ghost use Rattle.std.specs.Prelude.{◌≡◌, ◌≤◌, ◌^◌, IfOk, IfErr, IfSome, IfNone};
ghost use Rattle.elf_layout_plan.specs.Memory.{SizedSection, sized_sections};
ghost use Rattle.elf_layout_plan.specs.Standing.{is_unloaded as is_unloaded_section};
ghost use Rattle.elf_layout.specs.Unloaded.{IsUnloadedFault, unloaded_end, unloaded_offset, unloaded_offsets, unloaded_next};
ghost use Rattle.elf_layout.specs.Numbers.{numbers_of};

use crate::sized::{SectionNumbers, section_count, section_here};
use crate::slots::round_up;
use elf_format::constants::{SHF_ALLOC, SHT_NOBITS, SHT_NULL};
use elf_layout_plan::LayoutFault;
use elf_layout_segments::resizing::Resizing;
use std::alloc::Global;

// The offset of each section that isn't loaded, by position, and where the last of them ends.
#[derive(Drop)]
pub(crate) struct Unloaded {
    pub(crate) offsets: Vec<Option<u64>>,
    pub(crate) end: u64,
}

// A section's offset, if it isn't loaded, and the end of all so far.
#[derive(Clone, Copy)]
struct UnloadedPlace {
    offset: Option<u64>,
    end: u64,
}

// Whether a section has bytes in the file, and takes no memory. The reserved section without bytes
// is none such.
fn is_unloaded(section: SectionNumbers) -> bool
    ensures { (s : SizedSection) → section ≡ numbers_of s → result ≡ is_unloaded_section s }
{
    section.sh_type != SHT_NULL
        && section.sh_type != SHT_NOBITS
        && section.sh_flags & SHF_ALLOC == 0
        && !(section.position == 0 && section.size == 0)
}

// Where a section stands behind others, if it isn't loaded; `None` where it ends past the last offset of 64 bits.
fn place_unloaded(section: SectionNumbers, end: u64) -> Option<UnloadedPlace>
    ensures offset { IfSome result (λ place. (s : SizedSection) → section ≡ numbers_of s
        → place.offset ≡ unloaded_offset end s) }
    ensures end { IfSome result (λ place. (s : SizedSection) → section ≡ numbers_of s
        → place.end ≡ unloaded_next end s) }
    ensures far { IfNone result ((s : SizedSection) → section ≡ numbers_of s
        → 2 ^ 64 ≤ unloaded_next end s) }
{
    if !is_unloaded(section) {
        return Some(UnloadedPlace { offset: None, end });
    }
    let offset = round_up(u128::from(end), section.sh_addralign.max(1));
    let behind = offset + u128::from(section.size);
    if behind > u128::from(u64::MAX) {
        return None;
    }
    Some(UnloadedPlace {
        offset: Some(offset as u64),
        end: behind as u64,
    })
}

// The offset of each section that isn't loaded, from an offset on.
pub(crate) fn place_all_unloaded(
    alloc: Global,
    r: &Resizing<'_, '_>,
    start: u64,
) -> Result<Unloaded, LayoutFault>
    ensures offsets { IfOk result (λ unloaded.
        unloaded.offsets.items ≡ unloaded_offsets start (sized_sections r.now)) }
    ensures end { IfOk result (λ unloaded.
        unloaded.end ≡ unloaded_end start (sized_sections r.now)) }
    ensures fault { IfErr result (IsUnloadedFault (unloaded_end start (sized_sections r.now))) }
{
    let mut offsets = Vec::new(alloc);
    let mut end = start;
    for position in 0..section_count(r) {
        let section = section_here(r, position);
        let Some(place) = place_unloaded(section, end) else {
            return Err(LayoutFault::NumberTooLarge);
        };
        offsets.push(place.offset)?;
        end = place.end;
    }
    Ok(Unloaded { offsets, end })
}
