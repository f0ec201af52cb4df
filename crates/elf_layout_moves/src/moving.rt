ghost use Rattle.std.specs.Prelude.{◌≡◌, IfErr, IfOk, IsTrue, OnOk, false};
ghost use Rattle.elf_image.specs.Kept.{image_at_read};
ghost use Rattle.elf_layout_plan.specs.Plan.{resized};
ghost use Rattle.elf_layout_plan.specs.Refusals.{IsStuckBy, sizes_of_image};
ghost use Rattle.elf_layout_plan.specs.Rounds.{are_chosen, do_move, is_stuck_with};

use crate::block_moves::moved_positions;
use crate::blocks::blocks_of;
use crate::old_order::in_old_order;
use crate::resizing::Resizing;
use elf_layout_plan::{Builder, LayoutFault, read_source};
use std::alloc::Global;

/// The positions of the sections that move with a program header table `added` entries longer than the image's segments, in
/// the order in which they stood in memory. `Overlap` where two blocks of memory overlap that can't move.
pub fn find_move_sections(
    alloc: Global,
    image: &Builder<'_>,
    sizes: &[u64],
    added: usize,
) -> Result<Vec<usize>, LayoutFault>
    requires { sizes.now ≡ sizes_of_image image.now }
    ensures found { IfOk result (λ moved.
        IsTrue (do_move (resized image.now) added moved.items)) }
    ensures chosen { IfOk result (λ moved.
        IsTrue (are_chosen (resized image.now) added moved.items)) }
    ensures free { OnOk result (is_stuck_with (resized image.now) added ≡ false) }
    ensures fault { IfErr result (IsStuckBy image.now added) }
{
    let read = read_source(alloc, image)?;
    find_moved_from(alloc, &read, image, sizes, added)
}

// The positions of the sections that move, for a caller that has the image as its source was read.
fn find_moved_from<'data>(
    alloc: Global,
    read: &Builder<'data>,
    image: &Builder<'data>,
    sizes: &[u64],
    added: usize,
) -> Result<Vec<usize>, LayoutFault>
    requires read { read.now ≡ image_at_read image.now }
    requires sizes { sizes.now ≡ sizes_of_image image.now }
    ensures found { IfOk result (λ moved.
        IsTrue (do_move (resized image.now) added moved.items)) }
    ensures chosen { IfOk result (λ moved.
        IsTrue (are_chosen (resized image.now) added moved.items)) }
    ensures free { OnOk result (is_stuck_with (resized image.now) added ≡ false) }
    ensures fault { IfErr result (IsStuckBy image.now added) }
{
    let r = Resizing { read, image, sizes };
    find_moved(alloc, &r, added)
}

/// The positions of the sections that move, for an image with its new sizes. Errors: `Overlap`
/// where two blocks overlap of which none can move; `Memory`.
pub fn find_moved(
    alloc: Global,
    r: &Resizing<'_, '_>,
    added: usize,
) -> Result<Vec<usize>, LayoutFault>
    ensures found { IfOk result (λ moved. IsTrue (do_move r.now added moved.items)) }
    ensures chosen { IfOk result (λ moved. IsTrue (are_chosen r.now added moved.items)) }
    ensures free { OnOk result (is_stuck_with r.now added ≡ false) }
    ensures fault { IfErr result (IsStuckBy r.now.image added) }
{
    let _image = r.image.source();
    let blocks = blocks_of(alloc, r, added)?;
    let moved = moved_positions(alloc, &blocks)?;
    let found = in_old_order(alloc, r, &moved)?;
    Ok(found)
}
