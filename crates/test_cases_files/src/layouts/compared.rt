//! A layout beside one that is found slowly.
use elf_format::records::SegmentHeader;
use elf_image::Builder;
use elf_layout::{LayoutFault, Plan, SectionPlace, lay_out, sizes_of};
use elf_layout_plan::read_source;
use std::alloc::{AllocError, Global};
use test_slow_layout::plain::{Part, Piece, Plain, plain_of};
use test_slow_layout::slow::{Found, Slow, lay_out_slowly};
use test_slow_layout::standing::{Slot, slot_at};

/// A section stands where it was found.
fn is_place(place: &SectionPlace, part: &Part, slot: &Slot) -> bool {
    place.sh_type == part.sh_type
        && place.sh_flags == part.sh_flags
        && u128::from(place.sh_addr) == slot.address
        && u128::from(place.sh_offset) == slot.offset
        && u128::from(place.sh_size) == slot.size
}

/// A section has a place, which is the one that was found.
fn has_place(plan: &Plan, part: &Part, slow: &Slow) -> bool {
    let slot = slot_at(&slow.standing.slots, part.position);
    match (plan.places().get(part.position), slot) {
        (Some(place), Some(slot)) => is_place(place, part, &slot),
        _ => false,
    }
}

fn are_places(plan: &Plan, plain: &Plain, slow: &Slow) -> bool {
    for part in &plain.parts {
        if !has_place(plan, part, slow) {
            return false;
        }
    }
    plan.places().len() == plain.parts.len()
}

/// A program header is the one that was found.
fn is_piece(p: &SegmentHeader, piece: &Piece) -> bool {
    p.p_type == piece.p_type
        && p.p_flags == piece.p_flags
        && u128::from(p.p_offset) == piece.offset
        && u128::from(p.p_vaddr) == piece.address
        && u128::from(p.p_paddr) == piece.physical
        && u128::from(p.p_filesz) == piece.in_file
        && u128::from(p.p_memsz) == piece.in_memory
        && u128::from(p.p_align) == piece.align
}

fn are_pieces(plan: &Plan, slow: &Slow) -> bool {
    if plan.segments().len() != slow.pieces.len() {
        return false;
    }
    for (p, piece) in plan.segments().iter().zip(slow.pieces.iter()) {
        if !is_piece(p, piece) {
            return false;
        }
    }
    true
}

/// The first thing of a plan that was found otherwise, or `same`.
fn difference(plan: &Plan, plain: &Plain, slow: &Slow) -> &'static str {
    if plan.rounds() != slow.rounds {
        "other rounds"
    } else if plan.looked() != slow.looked {
        "another number looked with"
    } else if u128::from(plan.e_phoff()) != slow.standing.e_phoff {
        "another e_phoff"
    } else if u128::from(plan.e_shoff()) != slow.standing.e_shoff {
        "another e_shoff"
    } else if !are_places(plan, plain, slow) {
        "other places"
    } else if !are_pieces(plan, slow) {
        "other program headers"
    } else {
        "same"
    }
}

/// `same` where a layout is the one that was found slowly, or both are refused for the same fault.
fn compared(
    plain: &Plain,
    laid: &Result<Plan, LayoutFault>,
    found: &Found,
) -> Result<&'static str, AllocError> {
    match (laid, found) {
        (Ok(plan), Found::Plan(slow)) => Ok(difference(plan, plain, slow)),
        (Err(LayoutFault::Memory), _) => Err(AllocError),
        (Err(LayoutFault::Overlap), Found::Overlap) => Ok("same"),
        (Err(LayoutFault::NumberTooLarge), Found::TooLarge) => Ok("same"),
        (_, Found::Wrong) => Ok("the slow way is wrong"),
        (Ok(_), _) => Ok("a plan where there is none"),
        (Err(_), _) => Ok("another fault"),
    }
}

/// Where sizes are refused, the layout is.
fn refused(laid: &Result<Plan, LayoutFault>) -> Result<&'static str, AllocError> {
    match laid {
        Err(LayoutFault::NumberTooLarge) => Ok("same"),
        Err(LayoutFault::Memory) => Err(AllocError),
        _ => Ok("another answer where a size is too large"),
    }
}

/// Lays an image out both ways.
pub(crate) fn compare_image(
    alloc: Global,
    image: &Builder<'_>,
) -> Result<&'static str, AllocError> {
    match sizes_of(alloc, image) {
        Ok(sizes) => compare_sized(alloc, image, sizes.as_slice()),
        Err(LayoutFault::Memory) => Err(AllocError),
        Err(_) => refused(&lay_out(alloc, image)),
    }
}

/// Lays an image out both ways, whose sections are to have these sizes.
fn compare_sized(
    alloc: Global,
    image: &Builder<'_>,
    sizes: &[u64],
) -> Result<&'static str, AllocError> {
    let plain = plain_image(alloc, image, sizes)?;
    compare_plain(alloc, image, &plain)
}

/// An image as plain records.
fn plain_image(alloc: Global, image: &Builder<'_>, sizes: &[u64]) -> Result<Plain, AllocError> {
    let read = read_source(alloc, image)?;
    plain_of(alloc, &read, image, sizes)
}

/// Lays an image and its plain records out.
fn compare_plain(
    alloc: Global,
    image: &Builder<'_>,
    plain: &Plain,
) -> Result<&'static str, AllocError> {
    let found = lay_out_slowly(alloc, plain)?;
    compared(plain, &lay_out(alloc, image), &found)
}
