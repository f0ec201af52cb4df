//! What stays of the bytes that were read, as spans of positions, and what of others differs from them.
ghost use Rattle.std.specs.Prelude.{◌≡◌, All, IfOk, List, map, ℕ};
ghost use Rattle.byte_store.specs.Composed.{IsMadeInParts, IsMakeable};
ghost use Rattle.byte_store.specs.Laid.{LiesIn, patches_of};
ghost use Rattle.elf_image.specs.ImageModel.{segment_model};
ghost use Rattle.elf_layout_plan.specs.Plan.{resized};
ghost use Rattle.elf_write_contents.specs.Ready.{IsEditedReady};
ghost use Rattle.elf_write.specs.PieceSteps.{IsOverBase, load_spans, span_in};

use crate::base::{old_places, within};
use byte_store::{Difference, Piece, Span, composed_difference};
use elf_format::constants::PT_LOAD;
use elf_format::range::Range;
use elf_image::{Builder, Segment};
use std::alloc::{AllocError, Global};

// The positions of a range, as far as there are so many bytes.
fn span_of(range: Range, len: usize) -> Span
    ensures { result ≡ span_in len range }
{
    Span {
        start: within(range.start as u128, len),
        end: within(range.end(), len),
    }
}

// The positions of the bytes that loaded segments have in the file.
fn kept_spans(alloc: Global, segments: &[Segment<'_>], len: usize) -> Result<Vec<Span>, AllocError>
    ensures { IfOk result (λ spans.
        spans.items ≡ load_spans len (map segment_model segments.now)) }
{
    let mut spans = Vec::new(alloc);
    for segment in segments {
        if segment.p_type() == PT_LOAD {
            let part = Range {
                start: segment.p_offset(),
                size: segment.p_filesz(),
            };
            spans.push(span_of(part, len))?;
        }
    }
    Ok(spans)
}

// The positions of ranges.
fn spans_of(alloc: Global, ranges: &[Range], len: usize) -> Result<Vec<Span>, AllocError>
    ensures { IfOk result (λ spans. spans.items ≡ map (span_in len) ranges.now) }
{
    let mut spans = Vec::new(alloc);
    for range in ranges {
        spans.push(span_of(*range, len))?;
    }
    Ok(spans)
}

// What differs from the image's source of so many bytes, which have these pieces, and elsewhere what stays.
pub(crate) fn differing<'data>(
    alloc: Global,
    read: &Builder<'data>,
    image: &Builder<'data>,
    size: usize,
    pieces: &[Piece<'_>],
) -> Result<Difference, AllocError>
    requires ready { IsEditedReady read.now image.now }
    requires lie { All (LiesIn size) (patches_of pieces.now) }
    ensures makes { IfOk result (λ d. (bytes : List ℕ)
        → IsOverBase (resized image.now) (patches_of pieces.now) size bytes
        → IsMadeInParts image.now.source d bytes) }
    ensures makeable { IfOk result (λ d. IsMakeable image.now.source d) }
{
    let source = image.source();
    let places = old_places(alloc, read, image)?;
    let kept = kept_spans(alloc, image.segments(), source.len())?;
    let cleared = spans_of(alloc, &places, source.len())?;
    let difference = composed_difference(alloc, source, size, &kept, &cleared, pieces)?;
    Ok(difference)
}
