// Segments that are added for sections that move.
ghost use Rattle.std.specs.Prelude.{◌≡◌, ◌+◌, ◌<◌, ◌^◌, ◌%◌, IfSome, IfNone, IfOk, IfErr, OnOk, OnSome};
ghost use Rattle.std.specs.List.{flat_map};
ghost use Rattle.elf_layout_plan.specs.Added.{added_loads, kept_end as end_of_kept};
ghost use Rattle.elf_layout_plan.specs.Rounds.{added_flags as flags_added};
ghost use Rattle.elf_layout.specs.Inner.{StandsTooFar};
ghost use Rattle.elf_layout.specs.Slots.{IsAdded, IsFar, load_here, none_yet, start_of_load, with_slots};

use crate::flags::added_flags;
use crate::memory::{load_alignment, memory_end};
use crate::sized::section_count;
use crate::slots::{At, place_sections, round_up};
use elf_format::constants::PT_LOAD;
use elf_format::records::SegmentHeader;
use elf_layout_plan::LayoutFault;
use elf_layout_segments::resizing::Resizing;
use std::alloc::{AllocError, Global};

// The segments that are added, and where the last segment of all ends in the file.
#[derive(Drop)]
pub(crate) struct Added {
    pub(crate) loads: Vec<SegmentHeader>,
    pub(crate) end: u64,
}

// The address of a segment behind the end of memory that leaves the same rest as the offset when it is divided by the alignment.
fn load_start(align: u64, end: u64, memory: u128) -> u128
    requires { memory < 2 ^ 65 }
    ensures { result ≡ start_of_load align end memory }
{
    let rest = if align == 0 { end } else { end % align };
    round_up(memory, align) + u128::from(rest)
}

// The segment for the sections at these positions that need the flags, behind the end of the file and of memory so far; `None`
// where its address or its end in the file is past 64 bits.
fn place_load(
    r: &Resizing<'_, '_>,
    moved: &[usize],
    flags: u32,
    start: At,
    align: u64,
    slots: &mut [Option<At>],
) -> Option<SegmentHeader>
    requires memory { start.address < 2 ^ 65 }
    requires end { start.offset < 2 ^ 64 }
    ensures header { IfSome result (λ p. p ≡
        (load_here r.now moved.now align start.offset start.address flags).header) }
    ensures slots { OnSome result (slots.new ≡ with_slots slots.old
        (load_here r.now moved.now align start.offset start.address flags).slots) }
    ensures fits { IfSome result (λ p. p.p_offset + p.p_filesz < 2 ^ 64) }
    ensures near { IfSome result (λ p. p.p_vaddr + p.p_memsz < 2 ^ 65) }
    ensures far { IfNone result
        (IsFar (load_here r.now moved.now align start.offset start.address flags)) }
{
    let address = load_start(align, start.offset, start.address);
    if address > u128::from(u64::MAX) {
        return None;
    }
    let first = At {
        offset: start.offset,
        address,
    };
    let Some(end) = place_sections(r, moved, flags, first, slots) else {
        return None;
    };
    let size = end.offset - start.offset;
    Some(SegmentHeader {
        p_type: PT_LOAD,
        p_flags: flags,
        p_offset: start.offset,
        p_vaddr: address as u64,
        p_paddr: address as u64,
        p_filesz: size,
        p_memsz: size,
        p_align: align,
    })
}

// No place for any section.
pub(crate) fn no_slots(alloc: Global, r: &Resizing<'_, '_>) -> Result<Vec<Option<At>>, AllocError>
    ensures { IfOk result (λ slots. slots.items ≡ none_yet r.now) }
{
    let mut slots = Vec::new(alloc);
    for _ in 0..section_count(r) {
        slots.push(None)?;
    }
    Ok(slots)
}

// A segment for each set of flags: `kept_end` is where the file parts end that stay. Keeps where the sections stand.
fn place_sets(
    alloc: Global,
    r: &Resizing<'_, '_>,
    moved: &[usize],
    sets: &[u32],
    kept_end: u64,
    slots: &mut [Option<At>],
) -> Result<Added, LayoutFault>
    requires sets { sets.now ≡ flags_added r.now moved.now }
    requires end { kept_end ≡ end_of_kept r.now moved.now }
    ensures added { IfOk result (IsAdded r.now moved.now) }
    ensures slots { OnOk result (slots.new ≡ with_slots slots.old
        (flat_map (λ load. load.slots) (added_loads r.now moved.now))) }
    ensures fault { IfErr result (StandsTooFar r.now moved.now) }
{
    let align = load_alignment(r);
    let mut at = At {
        offset: kept_end,
        address: memory_end(r),
    };
    let mut loads = Vec::new(alloc);
    for flags in sets {
        let Some(load) = place_load(r, moved, *flags, at, align, slots) else {
            return Err(LayoutFault::NumberTooLarge);
        };
        loads.push(load)?;
        at = At {
            offset: load.p_offset + load.p_filesz,
            address: u128::from(load.p_vaddr) + u128::from(load.p_memsz),
        };
    }
    Ok(Added {
        loads,
        end: at.offset,
    })
}

// The segments that are added for the sections at these positions: `kept_end` is where the file parts end that stay. Keeps where
// the sections stand.
pub(crate) fn place_added(
    alloc: Global,
    r: &Resizing<'_, '_>,
    moved: &[usize],
    kept_end: u64,
    slots: &mut [Option<At>],
) -> Result<Added, LayoutFault>
    requires { kept_end ≡ end_of_kept r.now moved.now }
    ensures added { IfOk result (IsAdded r.now moved.now) }
    ensures slots { OnOk result (slots.new ≡ with_slots slots.old
        (flat_map (λ load. load.slots) (added_loads r.now moved.now))) }
    ensures fault { IfErr result (StandsTooFar r.now moved.now) }
{
    let sets = added_flags(alloc, r, moved)?;
    place_sets(alloc, r, moved, &sets, kept_end, slots)
}
