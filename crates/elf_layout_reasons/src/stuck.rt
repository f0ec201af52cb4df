ghost use Rattle.std.specs.Prelude.{◌≡◌, ◌<◌, IfNone, IfOk, IfSome, false, length, true};
ghost use Rattle.elf_image.specs.Kept.{image_at_read};
ghost use Rattle.elf_layout_plan.specs.Memory.{blocks_with};
ghost use Rattle.elf_layout_plan.specs.Plan.{IsOverlapping, resized};
ghost use Rattle.elf_layout_plan.specs.Refusals.{do_sizes_of_image_fit, sizes_of_image};
ghost use Rattle.elf_layout_plan.specs.Rounds.{is_stuck_with};
ghost use Rattle.elf_layout_reasons.specs.Pair.{IsFirstPair, IsStuckPair};
ghost use Rattle.elf_layout_reasons.specs.Stuck.{HasNoStuckPair};

use crate::pairs::first_pair;
use crate::rounds::stuck_count;
use elf_image::Builder;
use elf_layout_moves::blocks::{MemoryBlock, blocks_of};
use elf_layout_moves::resizing::Resizing;
use elf_layout_plan::{LayoutFault, read_source};
use elf_layout_segments::anchors::anchors;
use elf_layout_sizes::new_sizes_of;
use std::alloc::{AllocError, Global};

/// How many blocks are looked at: each two of them are compared.
pub const MOST_BLOCKS: usize = 2000;

/// Two blocks of memory that overlap and never move.
#[derive(Clone, Copy)]
pub struct StuckPair {
    /// With how many program headers more the round looked that found the two blocks.
    pub looked: usize,
    /// The block that starts first.
    pub earlier: MemoryBlock,
    /// The block that starts later.
    pub later: MemoryBlock,
}

// The first two blocks that overlap and never move, with so many program headers more; `None` where there are more blocks
// than are compared.
fn pair_with(
    alloc: Global,
    r: &Resizing<'_, '_>,
    looked: usize,
) -> Result<Option<StuckPair>, AllocError>
    requires { is_stuck_with r.now looked ≡ true }
    ensures pair { IfOk result (λ answer. IfSome answer (IsFirstPair r.now looked)) }
    ensures many { IfOk result (λ answer. IfNone answer
        (MOST_BLOCKS < length (blocks_with r.now looked))) }
{
    let _image = r.image.source();
    let blocks = blocks_of(alloc, r, looked)?;
    if blocks.len() > MOST_BLOCKS {
        return Ok(None);
    }
    let Some((earlier, later)) = first_pair(&blocks) else {
        unreachable!()
    };
    Ok(Some(StuckPair {
        looked,
        earlier,
        later,
    }))
}

// The first two blocks that overlap and never move, of an image with its new sizes.
fn pair_of(alloc: Global, r: &Resizing<'_, '_>) -> Result<Option<StuckPair>, AllocError>
    ensures pair { IfOk result (λ answer. IfSome answer (IsStuckPair (resized r.now.image))) }
    ensures none { IfOk result (λ answer. IfNone answer (HasNoStuckPair r.now.image)) }
{
    // The read tells the proof that the sizes are those of the image.
    let _sizes = r.sizes;
    let anchors = anchors(alloc, r)?;
    let Some(looked) = stuck_count(alloc, r, &anchors)? else {
        return Ok(None);
    };
    let pair = pair_with(alloc, r, looked)?;
    Ok(pair)
}

// The new sizes of the sections; `None` where one of them is too large.
fn fitting_sizes<'data>(
    alloc: Global,
    read: &Builder<'data>,
    image: &Builder<'data>,
) -> Result<Option<Vec<u64>>, AllocError>
    requires { read.now ≡ image_at_read image.now }
    ensures sizes { IfOk result (λ answer. IfSome answer (λ sizes.
        sizes.items ≡ sizes_of_image image.now)) }
    ensures large { IfOk result (λ answer. IfNone answer
        (do_sizes_of_image_fit image.now ≡ false)) }
{
    match new_sizes_of(alloc, read, image) {
        Ok(sizes) => Ok(Some(sizes)),
        Err(LayoutFault::NumberTooLarge) => Ok(None),
        Err(LayoutFault::Overlap) => unreachable!(),
        Err(LayoutFault::Memory) => Err(AllocError),
    }
}

/// The first two blocks of memory that overlap and never move, by which a layout of the image is refused with `Overlap`; `None`
/// where there is another cause, or none: a new size is too large, or the rounds come to an end; and where there are more than
/// `MOST_BLOCKS` blocks. The image's source is read once more. Error: `AllocError`, only where a growth was refused.
pub fn stuck_pair(alloc: Global, image: &Builder<'_>) -> Result<Option<StuckPair>, AllocError>
    ensures pair { IfOk result (λ answer. IfSome answer (IsStuckPair (resized image.now))) }
    ensures none { IfOk result (λ answer. IfNone answer (HasNoStuckPair image.now)) }
{
    let read = read_source(alloc, image)?;
    let Some(sizes) = fitting_sizes(alloc, &read, image)? else {
        return Ok(None);
    };
    let r = Resizing {
        read: &read,
        image,
        sizes: &sizes,
    };
    pair_of(alloc, &r)
}
