//! What is read of an image with its new sizes.
ghost use Rattle.std.specs.Prelude.{◌≡◌, ◌<◌, Some, length, slice_get};
ghost use Rattle.elf_layout_segments.specs.Sections.{AreSized};

use elf_format::records::SegmentHeader;
use elf_layout_moves::resizing::Resizing;

/// A program header.
pub fn segment_at(r: &Resizing<'_, '_>, i: usize) -> SegmentHeader
    requires { i < length r.now.image.segments }
    ensures { slice_get r.now.image.segments i ≡ Some result }
{
    let segment = &r.image.segments()[i];
    segment.numbers()
}

/// Does nothing: it stands for the law that each section has a number at read and a size.
pub fn sections_have_sizes(r: &Resizing<'_, '_>)
    ensures { AreSized r.now }
{
    let _source = r.image.source();
}
