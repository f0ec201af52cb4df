//! Positions that spans leave out.
ghost use Rattle.std.specs.Prelude.{◌≡◌, ◌++◌, All, IfOk, OnOk};
ghost use Rattle.std.specs.List.Sorted.{IsNonDecreasingBy};
ghost use Rattle.byte_store.specs.Laid.{LiesIn, patches_of};
ghost use Rattle.byte_store.specs.Gaps.{AreKept, AreZeros, HasRest, IsSpanIn, gap, spans_of};

use crate::composed::Span;
use crate::pieces::Piece;
use std::alloc::{AllocError, Global};

/// The positions below a size that no piece has, and that are cleared or not kept.
pub(crate) fn zero_spans(
    alloc: Global,
    size: usize,
    kept: &[Span],
    cleared: &[Span],
    pieces: &[Piece<'_>],
) -> Result<Vec<Span>, AllocError>
    requires { All (LiesIn u64.MAX) (patches_of pieces.now) }
    ensures within { IfOk result (λ zeros. All (IsSpanIn size) zeros.items) }
    ensures zeros { IfOk result (λ zeros.
        AreZeros size kept.now cleared.now (patches_of pieces.now) zeros.items) }
{
    let mut held = kept_spans(alloc, size, kept, cleared)?;
    push_spans(pieces, &mut held)?;
    gaps(alloc, &mut held, size)
}

/// The positions below a size that are kept and not cleared.
fn kept_spans(
    alloc: Global,
    size: usize,
    kept: &[Span],
    cleared: &[Span],
) -> Result<Vec<Span>, AllocError>
    ensures { IfOk result (λ held. AreKept size kept.now cleared.now held.items) }
{
    let mut lost = lost_spans(alloc, size, kept)?;
    lost.extend_from_slice(cleared)?;
    gaps(alloc, &mut lost, size)
}

/// The positions below a size that are not kept.
fn lost_spans(alloc: Global, size: usize, kept: &[Span]) -> Result<Vec<Span>, AllocError>
    ensures { IfOk result (λ lost. HasRest size kept.now lost.items) }
{
    let mut spans = Vec::from_slice(alloc, kept)?;
    gaps(alloc, &mut spans, size)
}

/// Puts the positions of pieces behind spans.
fn push_spans(pieces: &[Piece<'_>], spans: &mut Vec<Span>) -> Result<(), AllocError>
    requires { All (LiesIn u64.MAX) (patches_of pieces.now) }
    ensures { OnOk result
        (spans.new.items ≡ spans.old.items ++ spans_of (patches_of pieces.now)) }
{
    for piece in pieces {
        let start = piece.offset as usize;
        spans.push(Span {
            start,
            end: start + piece.bytes.len(),
        })?;
    }
    Ok(())
}

/// The positions below a size that no span has. Sorts the spans.
fn gaps(alloc: Global, spans: &mut [Span], size: usize) -> Result<Vec<Span>, AllocError>
    ensures within { IfOk result (λ gaps. All (IsSpanIn size) gaps.items) }
    ensures rest { IfOk result (λ gaps. HasRest size spans.old gaps.items) }
{
    spans.sort_unstable_by_key(|span| span.start);
    gaps_between(alloc, spans, size)
}

/// The positions below a size that no span has, in one walk over spans in the order of their starts.
fn gaps_between(alloc: Global, spans: &[Span], size: usize) -> Result<Vec<Span>, AllocError>
    requires { IsNonDecreasingBy (λ span. span.start) spans.now }
    ensures within { IfOk result (λ gaps. All (IsSpanIn size) gaps.items) }
    ensures rest { IfOk result (λ gaps. HasRest size spans.now gaps.items) }
{
    let mut gaps = Vec::new(alloc);
    let mut at = 0;
    for span in spans {
        let start = span.start.min(size);
        push_gap(at, start, &mut gaps)?;
        at = at.max(start).max(span.end);
    }
    push_gap(at, size, &mut gaps)?;
    Ok(gaps)
}

/// Puts the span between two positions behind others, if it has one.
fn push_gap(start: usize, end: usize, gaps: &mut Vec<Span>) -> Result<(), AllocError>
    ensures { OnOk result (gaps.new.items ≡ gaps.old.items ++ gap start end) }
{
    if start < end {
        gaps.push(Span { start, end })?;
    }
    Ok(())
}
