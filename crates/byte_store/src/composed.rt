//! Bytes composed of a source and of pieces: what of them differs from the source, and stores in which that is made.
ghost use Rattle.std.specs.Prelude.{◌≡◌, ◌+◌, ◌<◌, ◌≤◌, ◌^◌, All, IfErr, IfOk, IsOk, List, OnOk, length, ℕ};
ghost use Rattle.byte_store.specs.Causes.{IsNotWritten};
ghost use Rattle.byte_store.specs.Known.{Becomes, HasLength};
ghost use Rattle.byte_store.specs.Laid.{LiesIn, patches_of};
ghost use Rattle.byte_store.specs.Composed.{IsComposed, IsMadeInParts, IsMakeable, IsNotMade, made_of, owned_patches};
ghost use Rattle.byte_store.specs.Fault.{IsOkAndSame};

use crate::difference::{ReplaceError, open_and_write};
use crate::pieces::Piece;
use crate::shown::{changes_of, growth_behind};
use crate::stores::Store;
use crate::writing::Changes;
use std::alloc::{AllocError, AllocFailed, Global};

/// Positions of bytes: from `start` on, up to `end`, which is none of them.
#[derive(Clone, Copy, Debug)]
pub struct Span {
    /// The first position.
    pub start: usize,
    /// The position behind the last one.
    pub end: usize,
}

/// Bytes that the piece owns, which are to stand in a store from an offset on.
#[derive(Debug, Drop)]
pub struct OwnedPiece {
    /// Where the bytes begin in the store.
    pub offset: u64,
    /// The bytes.
    pub bytes: Vec<u8>,
}

/// What is to be done to bytes so that they become others.
#[derive(Debug, Drop)]
pub struct Difference {
    /// What comes behind the bytes.
    pub growth: Vec<u8>,
    /// What then stands among the bytes, in the order in which it is written.
    pub pieces: Vec<OwnedPiece>,
    /// How many bytes there are in the end.
    pub new_length: usize,
}

/// What of composed bytes differs from the source that they are composed of: they are so many, have the bytes of the
/// pieces at their offsets, elsewhere those of the source where a kept span has the position and no cleared one, and
/// zeros. Costs what the pieces and the spans weigh and what is not kept, not what the source weighs.
pub fn composed_difference(
    alloc: Global,
    source: &[u8],
    size: usize,
    kept: &[Span],
    cleared: &[Span],
    pieces: &[Piece<'_>],
) -> Result<Difference, AllocError>
    requires { All (LiesIn size) (patches_of pieces.now) }
    ensures makes { IfOk result (λ d. (bytes : List ℕ)
        → IsComposed source.now kept.now cleared.now (patches_of pieces.now) size bytes
        → IsMadeInParts source.now d bytes) }
    ensures makeable { IfOk result (λ d. IsMakeable source.now d) }
    ensures sized { IfOk result (λ d. d.new_length ≡ size) }
{
    let front = &source[..source.len().min(size)];
    let changes = changes_of(alloc, front, kept, cleared, pieces)?;
    let growth = growth_behind(alloc, source.len(), size, pieces)?;
    Ok(Difference {
        growth,
        pieces: changes,
        new_length: size,
    })
}

/// Makes a difference in a store that has so many bytes: first what comes behind them, then the pieces, a shorter length
/// last (`write_changes`), after all memory that is wanted is there. A difference that changes nothing does not open the
/// store for writing.
///
/// # Errors
///
/// `Memory`, where a growth was refused and nothing was written; `Write` with the error of the call that failed,
/// which the store counted, and with what it left.
pub fn make_difference<S: Store>(
    alloc: Global,
    store: &mut S,
    old_length: u64,
    difference: &Difference,
) -> Result<(), ReplaceError>
    requires old { HasLength (S.contents store.old) old_length }
    requires fits { old_length + length difference.now.growth.items < 2 ^ 64 }
    requires inside { All (LiesIn (old_length + length difference.now.growth.items))
        (owned_patches difference.now.pieces.items) }
    requires end { difference.now.new_length ≤ old_length + length difference.now.growth.items }
    ensures ok { OnOk result (Becomes (λ source. made_of source difference.now)
        (S.contents store.old) (S.contents store.new)) }
    ensures err { IfErr result
        (IsNotMade S.contents difference.now store.old store.new) }
    ensures idle { length difference.now.growth.items ≡ 0 → length difference.now.pieces.items ≡ 0
        → old_length ≤ difference.now.new_length → IsOkAndSame result store.old store.new }
    ensures grows { S.failed store.old ≤ S.failed store.new }
    ensures cause { IfErr result (IsNotWritten S.may_fail_write S.may_take_none
        (S.failed store.old) (S.failed store.new)) }
{
    let pieces = lent_pieces(alloc, &difference.pieces)?;
    let changes = Changes {
        old_length,
        growth: &difference.growth,
        pieces: &pieces,
        new_length: difference.new_length as u64,
    };
    match open_and_write(store, &changes) {
        Ok(()) => Ok(()),
        Err(error) => Err(ReplaceError::Write(error)),
    }
}

/// Pieces that have their bytes from others.
fn lent_pieces<'a>(
    alloc: Global,
    pieces: &'a [OwnedPiece],
) -> Result<Vec<Piece<'a>>, AllocFailed<Piece<'a>>>
    ensures lent { IfOk result (λ lent. patches_of lent.items ≡ owned_patches pieces.now) }
    ensures none { length pieces.now ≡ 0 → IsOk result }
{
    let mut lent = Vec::new(alloc);
    for piece in pieces {
        lent.push(Piece {
            offset: piece.offset,
            bytes: &piece.bytes,
        })?;
    }
    Ok(lent)
}
