ghost use Rattle.std.specs.Prelude.{IfOk, All, ◌<◌, length};
ghost use Rattle.elf_layout_moves.specs.Inner.{AreMarks};

use crate::resizing::Resizing;
use std::alloc::{AllocError, Global};

/// Marks the sections whose positions are told.
pub fn marks_of(
    alloc: Global,
    r: &Resizing<'_, '_>,
    moved: &[usize],
) -> Result<Vec<bool>, AllocError>
    requires { All (λ position. position < length r.now.image.sections) moved.now }
    ensures { IfOk result (λ marks. AreMarks r.now moved.now marks.items) }
{
    let mut marks = vec![in alloc; false; r.image.sections().len()]?;
    for position in moved {
        marks[*position] = true;
    }
    Ok(marks)
}
