//! What pieces and zeros change of bytes.
ghost use Rattle.std.specs.Prelude.{◌≡◌, ◌+◌, ◌++◌, ◌-◌, ◌<◌, ◌≤◌, ◌^◌, ◌∷◌, [], All, IfOk, OnOk, drop, length, map, replicate};
ghost use Rattle.byte_store.specs.Known.{put_at};
ghost use Rattle.byte_store.specs.Laid.{LiesIn, laid, patch_of, patches_of};
ghost use Rattle.byte_store.specs.Composed.{owned_patches};
ghost use Rattle.byte_store.specs.Gaps.{IsSpanIn};
ghost use Rattle.byte_store.specs.Shown.{Adds, IsZero, ShowsAll, behind, patch_at, shifted, zero_patch, zero_patches};

use crate::composed::{OwnedPiece, Span};
use crate::difference::{BLOCK, differences};
use crate::gaps::zero_spans;
use crate::pieces::Piece;
use std::alloc::{AllocError, Global};

/// What changes the bytes of a source as far as they are composed: runs of blocks in which a piece, or the zeros where
/// nothing is kept, are others.
pub(crate) fn changes_of(
    alloc: Global,
    front: &[u8],
    kept: &[Span],
    cleared: &[Span],
    pieces: &[Piece<'_>],
) -> Result<Vec<OwnedPiece>, AllocError>
    requires { All (LiesIn u64.MAX) (patches_of pieces.now) }
    ensures { IfOk result (λ changes. ShowsAll front.now kept.now cleared.now
        (patches_of pieces.now) (owned_patches changes.items)) }
{
    let spans = zero_spans(alloc, front.len(), kept, cleared, pieces)?;
    let mut changes = Vec::new(alloc);
    push_pieces(alloc, front, pieces, &mut changes)?;
    push_zeros(alloc, front, &spans, &mut changes)?;
    Ok(changes)
}

/// Puts what pieces change behind other changes.
fn push_pieces(
    alloc: Global,
    front: &[u8],
    pieces: &[Piece<'_>],
    changes: &mut Vec<OwnedPiece>,
) -> Result<(), AllocError>
    ensures { OnOk result
        (Adds front.now (patches_of pieces.now) changes.old.items changes.new.items) }
{
    for piece in pieces {
        push_piece(alloc, front, piece, changes)?;
    }
    Ok(())
}

/// Puts what a piece changes behind other changes, as far as the bytes reach.
fn push_piece(
    alloc: Global,
    front: &[u8],
    piece: &Piece<'_>,
    changes: &mut Vec<OwnedPiece>,
) -> Result<(), AllocError>
    ensures { OnOk result
        (Adds front.now (patch_of piece.now ∷ []) changes.old.items changes.new.items) }
{
    let offset = piece.offset as usize;
    if offset < front.len() {
        let len = piece.bytes.len().min(front.len() - offset);
        push_differences(alloc, front, offset, &piece.bytes[..len], changes)?;
    }
    Ok(())
}

/// Puts what zeros in spans change behind other changes.
fn push_zeros(
    alloc: Global,
    front: &[u8],
    spans: &[Span],
    changes: &mut Vec<OwnedPiece>,
) -> Result<(), AllocError>
    requires { All (IsSpanIn (length front.now)) spans.now }
    ensures { OnOk result
        (Adds front.now (zero_patches spans.now) changes.old.items changes.new.items) }
{
    let block = zeros(alloc, BLOCK)?;
    for span in spans {
        push_zero_span(alloc, front, &block, *span, changes)?;
    }
    Ok(())
}

/// Puts what zeros in a span change behind other changes. Compares with a block of zeros at a time.
fn push_zero_span(
    alloc: Global,
    front: &[u8],
    block: &[u8],
    span: Span,
    changes: &mut Vec<OwnedPiece>,
) -> Result<(), AllocError>
    requires inside { IsSpanIn (length front.now) span }
    requires zeros { All IsZero block.now }
    requires some { 0 < length block.now }
    ensures { OnOk result
        (Adds front.now (zero_patch span ∷ []) changes.old.items changes.new.items) }
{
    let mut at = span.start;
    while at < span.end {
        let len = block.len().min(span.end - at);
        push_differences(alloc, front, at, &block[..len], changes)?;
        at += len;
    }
    Ok(())
}

/// Puts the runs of blocks behind other changes in which the bytes from an offset on are others.
fn push_differences(
    alloc: Global,
    front: &[u8],
    offset: usize,
    part: &[u8],
    changes: &mut Vec<OwnedPiece>,
) -> Result<(), AllocError>
    requires { offset + length part.now ≤ length front.now }
    ensures { OnOk result
        (Adds front.now (patch_at offset part.now ∷ []) changes.old.items changes.new.items) }
{
    let pieces = differences(alloc, &front[offset..offset + part.len()], part)?;
    push_owned(alloc, &pieces, offset as u64, changes)
}

/// Puts copies of pieces behind others, each so far behind its offset.
fn push_owned(
    alloc: Global,
    pieces: &[Piece<'_>],
    offset: u64,
    changes: &mut Vec<OwnedPiece>,
) -> Result<(), AllocError>
    requires { All (λ patch. offset + patch.offset < 2 ^ 64) (patches_of pieces.now) }
    ensures { OnOk result (owned_patches changes.new.items
        ≡ owned_patches changes.old.items ++ map (shifted offset) (patches_of pieces.now)) }
{
    for piece in pieces {
        let bytes = Vec::from_slice(alloc, piece.bytes)?;
        changes.push(OwnedPiece {
            offset: offset + piece.offset,
            bytes,
        })?;
    }
    Ok(())
}

/// What comes behind so many bytes up to a size: zeros, with what of pieces lies there written over them.
pub(crate) fn growth_behind(
    alloc: Global,
    len: usize,
    size: usize,
    pieces: &[Piece<'_>],
) -> Result<Vec<u8>, AllocError>
    requires { All (LiesIn size) (patches_of pieces.now) }
    ensures { IfOk result (λ growth. growth.items
        ≡ laid (map (behind len) (patches_of pieces.now)) (replicate (size - len) 0)) }
{
    let mut growth = zeros(alloc, size.saturating_sub(len))?;
    lay_all_behind(&mut growth, len, pieces);
    Ok(growth)
}

/// Writes pieces over the bytes behind so many others.
fn lay_all_behind(growth: &mut [u8], len: usize, pieces: &[Piece<'_>])
    requires fits { All (LiesIn u64.MAX) (patches_of pieces.now) }
    requires inside { All (LiesIn (len + length growth.old)) (patches_of pieces.now) }
    ensures { growth.new ≡ laid (map (behind len) (patches_of pieces.now)) growth.old }
{
    for piece in pieces {
        lay_behind(growth, len, piece);
    }
}

/// Writes what of a piece lies behind so many bytes over those that come there.
fn lay_behind(growth: &mut [u8], len: usize, piece: &Piece<'_>)
    requires fits { LiesIn u64.MAX (patch_of piece.now) }
    requires inside { LiesIn (len + length growth.old) (patch_of piece.now) }
    ensures { growth.new ≡ put_at (piece.now.offset - len)
        (drop (len - piece.now.offset) piece.now.bytes.now) growth.old }
{
    let offset = piece.offset as usize;
    let end = offset + piece.bytes.len();
    let start = offset.max(len);
    if len < end {
        growth[start - len..end - len].copy_from_slice(&piece.bytes[start - offset..]);
    }
}

/// So many zeros.
fn zeros(alloc: Global, count: usize) -> Result<Vec<u8>, AllocError>
    ensures length { IfOk result (λ zeros. length zeros.items ≡ count) }
    ensures zeros { IfOk result (λ zeros. All IsZero zeros.items) }
{
    let mut zeros = Vec::new(alloc);
    zeros.resize(count, 0)?;
    Ok(zeros)
}
