ghost use Rattle.std.specs.Prelude.{◌≡◌, IfOk};
ghost use Rattle.elf_tables.specs.Kept.{image_at_read};

use elf_tables::Builder;
use std::alloc::{AllocError, Global};

/// The image as its source was read, before any edit. Takes memory as a read does.
pub fn read_source<'data>(
    alloc: Global,
    image: &Builder<'data>,
) -> Result<Builder<'data>, AllocError>
    ensures { IfOk result (λ read. read ≡ image_at_read image.now) }
{
    image.read_source(alloc)
}
