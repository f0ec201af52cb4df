// The sets of flags of loaded segments that are added.
ghost use Rattle.std.specs.Prelude.{◌≡◌, IfOk, OnOk, option_map, slice_get};
ghost use Rattle.elf_layout_plan.specs.Memory.{sized_sections};
ghost use Rattle.elf_layout_plan.specs.Rounds.{added_flags as flags_added, flags_for as flags_of};
ghost use Rattle.elf_layout.specs.Slots.{with_flag};

use crate::sized::sized_at;
use crate::slots::flags_for;
use elf_layout_segments::resizing::Resizing;
use std::alloc::{AllocError, Global};

// The flags that the section at a position needs.
fn flags_at(r: &Resizing<'_, '_>, position: usize) -> Option<u32>
    ensures { result
        ≡ option_map (λ s. flags_of r.now.image.moves_dynamic s.kept.section)
        (slice_get (sized_sections r.now) position) }
{
    let section = sized_at(r, position)?;
    Some(flags_for(r, section))
}

// Adds flags that aren't there yet.
fn add_flags(sets: &mut Vec<u32>, flags: Option<u32>) -> Result<(), AllocError>
    ensures { OnOk result (sets.new.items ≡ with_flag sets.old.items flags) }
{
    let Some(flags) = flags else {
        return Ok(());
    };
    if sets.contains(&flags) {
        return Ok(());
    }
    sets.push(flags)?;
    Ok(())
}

// The sets of flags that the sections at these positions need, each once, in the order of its first section.
pub(crate) fn added_flags(
    alloc: Global,
    r: &Resizing<'_, '_>,
    moved: &[usize],
) -> Result<Vec<u32>, AllocError>
    ensures { IfOk result (λ sets. sets.items ≡ flags_added r.now moved.now) }
{
    let mut sets = Vec::new(alloc);
    for position in moved {
        add_flags(&mut sets, flags_at(r, *position))?;
    }
    Ok(sets)
}
