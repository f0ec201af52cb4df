ghost use Rattle.std.specs.Prelude.{◌≡◌, IfErr, IfOk};
ghost use Rattle.elf_layout_plan.specs.Added.{header_count, kept_end as end_of_kept};
ghost use Rattle.elf_layout_segments.specs.Inner.{AreMarks};
ghost use Rattle.elf_layout.specs.Inner.{IsStanding, StandsTooFar};
ghost use Rattle.elf_layout.specs.Unloaded.{IsBehind, IsBehindFault};

use crate::added::{Added, no_slots, place_added};
use crate::places::place_all;
use crate::slots::At;
use crate::tables::{next_table, place_table};
use crate::unloaded::place_all_unloaded;
use elf_format::records::SegmentHeader;
use elf_layout_plan::{LayoutFault, SectionPlace};
use elf_layout_segments::resizing::Resizing;
use std::alloc::Global;

// Where the sections stand and the two header tables, and the segments that are added.
#[derive(Drop)]
pub(crate) struct Standing {
    pub(crate) loads: Vec<SegmentHeader>,
    pub(crate) places: Vec<SectionPlace>,
    pub(crate) e_phoff: u64,
    pub(crate) e_shoff: u64,
}

// What stands behind the segments.
#[derive(Drop)]
pub(crate) struct Behind {
    pub(crate) places: Vec<SectionPlace>,
    pub(crate) e_phoff: u64,
    pub(crate) e_shoff: u64,
}

// Where everything stands behind the segments, once it is known where these end and where sections stand that move.
fn place_behind(
    alloc: Global,
    r: &Resizing<'_, '_>,
    slots: &[Option<At>],
    end: u64,
    headers: usize,
) -> Result<Behind, LayoutFault>
    ensures behind { IfOk result (IsBehind r.now slots.now end headers) }
    ensures fault { IfErr result (IsBehindFault r.now slots.now end headers) }
{
    let Some(table) = place_table(r, end, headers) else {
        return Err(LayoutFault::NumberTooLarge);
    };
    let unloaded = place_all_unloaded(alloc, r, table.end)?;
    let Some(e_shoff) = next_table(r, unloaded.end) else {
        return Err(LayoutFault::NumberTooLarge);
    };
    let places = place_all(alloc, r, slots, &unloaded.offsets, unloaded.end)?;
    Ok(Behind {
        places,
        e_phoff: table.offset,
        e_shoff,
    })
}

// Where everything stands once the sections at these positions move: `kept_end` is where the file parts end that stay, and so
// many program headers are written.
pub(crate) fn find_places(
    alloc: Global,
    r: &Resizing<'_, '_>,
    moved: &[usize],
    marks: &[bool],
    kept_end: u64,
    headers: usize,
) -> Result<Standing, LayoutFault>
    requires marks { AreMarks r.now moved.now marks.now }
    requires end { kept_end ≡ end_of_kept r.now moved.now }
    requires headers { headers ≡ header_count r.now moved.now }
    ensures stands { IfOk result (λ standing. IsStanding r.now moved.now standing) }
    ensures fault { IfErr result (StandsTooFar r.now moved.now) }
{
    let mut slots = no_slots(alloc, r)?;
    let added = place_added(alloc, r, moved, kept_end, &mut slots)?;
    let behind = place_behind(alloc, r, &slots, added.end, headers)?;
    Ok(Standing {
        loads: added.loads,
        places: behind.places,
        e_phoff: behind.e_phoff,
        e_shoff: behind.e_shoff,
    })
}
