//! Files whose dynamic section can't be written to.
ghost use Rattle.std.specs.Prelude.{◌≡◌, IfOk, map};
ghost use Rattle.std.specs.List.{list_any};
ghost use Rattle.elf_image.specs.ImageModel.{segment_model};
ghost use Rattle.elf_notes.specs.Notes.{TellsReadOnly, is_dynamic_read_only, is_read_only_at as can_only_be_read, may_refuse_debug as may_refuse};

use crate::findings::entries_of;
use crate::old_place::{address_in, planned_address};
use elf_edits::list::any_with_tag;
use elf_format::constants::{DT_DEBUG, PT_LOAD};
use elf_format::range::Range;
use elf_format::records::SegmentHeader;
use elf_image::{Builder, Segment};
use elf_layout::{LayoutFault, Plan, lay_out};
use elf_layout_plan::constants::PF_W;
use std::alloc::{AllocError, Global};

/// Whether DT_DEBUG was asked for and is there, and the file that is written has its dynamic section where it can't be written to.
/// Error: `AllocError`.
pub(crate) fn refuses_debug(
    alloc: Global,
    edited: &Builder<'_>,
    asked: bool,
) -> Result<bool, AllocError>
    ensures { IfOk result (TellsReadOnly asked edited.now) }
{
    if !may_refuse_debug(edited, asked) {
        return Ok(false);
    }
    match lay_out(alloc, edited) {
        Ok(plan) => Ok(is_planned_read_only(&plan)),
        Err(LayoutFault::Overlap) => Ok(false),
        Err(LayoutFault::NumberTooLarge) => Ok(false),
        Err(LayoutFault::Memory) => Err(AllocError),
    }
}

/// Whether DT_DEBUG was asked for and is there, and the dynamic section can't be written to where it is.
fn may_refuse_debug(edited: &Builder<'_>, asked: bool) -> bool
    ensures { result ≡ may_refuse asked edited.now }
{
    asked && any_with_tag(entries_of(edited), DT_DEBUG) && is_read_only(edited.segments())
}

/// Whether the dynamic section lies in a loaded segment that mayn't be written, by the program headers of an image.
fn is_read_only(segments: &[Segment<'_>]) -> bool
    ensures { result ≡ is_dynamic_read_only (map segment_model segments.now) }
{
    match address_in(segments) {
        Some(address) => is_any_read_only(segments, address),
        None => false,
    }
}

/// Whether a loaded segment that mayn't be written has an address.
fn is_any_read_only(segments: &[Segment<'_>], address: u64) -> bool
    ensures { result ≡ list_any (can_only_be_read address) (map segment_model segments.now) }
{
    for segment in segments {
        if is_read_only_at(segment.numbers(), address) {
            return true;
        }
    }
    false
}

/// Whether the dynamic section lies in one by the program headers of a plan.
fn is_planned_read_only(plan: &Plan) -> bool
    ensures { result ≡ is_dynamic_read_only plan.now.segments }
{
    match planned_address(plan.segments()) {
        Some(address) => is_any_planned(plan.segments(), address),
        None => false,
    }
}

/// Whether one of the planned segments mayn't be written, and has an address.
fn is_any_planned(segments: &[SegmentHeader], address: u64) -> bool
    ensures { result ≡ list_any (can_only_be_read address) segments.now }
{
    for segment in segments {
        if is_read_only_at(*segment, address) {
            return true;
        }
    }
    false
}

/// Whether a program header is that of a loaded segment that mayn't be written, and that has an address.
fn is_read_only_at(segment: SegmentHeader, address: u64) -> bool
    ensures { result ≡ can_only_be_read address segment }
{
    let own = Range {
        start: segment.p_vaddr,
        size: segment.p_memsz,
    };
    let place = Range {
        start: address,
        size: 1,
    };
    segment.p_type == PT_LOAD && segment.p_flags & PF_W == 0 && place.lies_in(own)
}
