// Sections in the order in which they stood in memory.
ghost use Rattle.std.specs.Prelude.{ℕ, ◌≡◌, ◌<◌, All, IfOk, IsTrue, length, map};
ghost use Rattle.elf_format.specs.Options.{is_one_of};
ghost use Rattle.elf_layout_plan.specs.Rounds.{are_in_old_order, sections_at};
ghost use Rattle.elf_layout_moves.specs.BlockSteps.{old_key};
ghost use Rattle.elf_layout_moves.specs.ImageBlocks.{AreNumbered};

use crate::resizing::Resizing;
use elf_layout_plan::Builder;
use std::alloc::{AllocError, Global};

// What each of these sections is ordered by: its address and its size at read, and its position.
fn keys_of(
    alloc: Global,
    image: &Builder<'_>,
    moved: &[usize],
) -> Result<Vec<(u64, u64, usize)>, AllocError>
    requires { All (λ position. position < length image.now.sections) moved.now }
    ensures { IfOk result (λ keys. keys.items ≡ map (old_key image.now) moved.now) }
{
    let mut keys = Vec::with_capacity(alloc, moved.len())?;
    for position in moved {
        let section = &image.sections()[*position];
        keys.push((section.sh_addr, section.sh_size, *position))?;
    }
    Ok(keys)
}

// The positions of sections that are ordered so.
fn positions_of(alloc: Global, keys: &[(u64, u64, usize)]) -> Result<Vec<usize>, AllocError>
    ensures { IfOk result (λ found. found.items ≡ map (λ key. key.2) keys.now) }
{
    keys.iter().map(|key| key.2).collect(alloc)
}

// These sections in the order in which they stood in memory, each of them once.
pub(crate) fn in_old_order(
    alloc: Global,
    r: &Resizing<'_, '_>,
    moved: &[usize],
) -> Result<Vec<usize>, AllocError>
    requires within { All (λ position. position < length r.now.image.sections) moved.now }
    requires numbered { AreNumbered r.now.image }
    requires sized { length r.now.sizes ≡ length r.now.image.sections }
    ensures ordered { IfOk result (λ found.
        IsTrue (are_in_old_order (sections_at r.now found.items))) }
    ensures same { IfOk result (λ found. (position : ℕ) →
        is_one_of found.items position ≡ is_one_of moved.now position) }
{
    let mut keys = keys_of(alloc, r.image, moved)?;
    keys.sort_unstable();
    keys.dedup();
    positions_of(alloc, &keys)
}
