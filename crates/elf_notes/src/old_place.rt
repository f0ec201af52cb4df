//! Files that look for their dynamic section where it stood before it moved.
ghost use Rattle.std.specs.Prelude.{◌≡◌, IfOk, map};
ghost use Rattle.elf_image.specs.ImageModel.{segment_model};
ghost use Rattle.elf_notes.specs.Notes.{TellsOldPlace, are_apart as apart, dynamic_address, is_dynamic_moved as is_moved_by, may_seek_old_place as may_seek};

use crate::findings::loads_itself;
use elf_format::constants::PT_DYNAMIC;
use elf_format::lookups::segment_of_type;
use elf_format::records::SegmentHeader;
use elf_image::{Builder, Segment};
use elf_layout::{LayoutFault, Plan, lay_out};
use std::alloc::{AllocError, Global};

/// Whether an edited file loads itself and its dynamic section moves. Error: `AllocError`.
pub(crate) fn seeks_old_place(alloc: Global, edited: &Builder<'_>) -> Result<bool, AllocError>
    ensures { IfOk result (TellsOldPlace edited.now) }
{
    if !may_seek_old_place(edited) {
        return Ok(false);
    }
    match lay_out(alloc, edited) {
        Ok(plan) => Ok(is_dynamic_moved(edited, &plan)),
        Err(LayoutFault::Overlap) => Ok(false),
        Err(LayoutFault::NumberTooLarge) => Ok(false),
        Err(LayoutFault::Memory) => Err(AllocError),
    }
}

/// Whether a file loads itself, with leave that its dynamic section moves.
fn may_seek_old_place(edited: &Builder<'_>) -> bool
    ensures { result ≡ may_seek edited.now }
{
    loads_itself(edited) && edited.may_dynamic_move()
}

/// Whether a plan gives the dynamic section another address.
fn is_dynamic_moved(edited: &Builder<'_>, plan: &Plan) -> bool
    ensures { result ≡ is_moved_by edited.now plan.now }
{
    are_apart(
        planned_address(plan.segments()),
        address_in(edited.segments()),
    )
}

/// Whether two addresses are there and differ.
fn are_apart(one: Option<u64>, other: Option<u64>) -> bool
    ensures { result ≡ apart one other }
{
    match (one, other) {
        (Some(one), Some(other)) => one != other,
        _ => false,
    }
}

/// The address of the dynamic section by the program headers of a plan.
pub(crate) fn planned_address(segments: &[SegmentHeader]) -> Option<u64>
    ensures { result ≡ dynamic_address segments.now }
{
    match segment_of_type(segments, PT_DYNAMIC) {
        Some(segment) => Some(segment.p_vaddr),
        None => None,
    }
}

/// The address of the dynamic section by the program headers of an image.
pub(crate) fn address_in(segments: &[Segment<'_>]) -> Option<u64>
    ensures { result ≡ dynamic_address (map segment_model segments.now) }
{
    for segment in segments {
        if segment.p_type() == PT_DYNAMIC {
            return Some(segment.p_vaddr());
        }
    }
    None
}
