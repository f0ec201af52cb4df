//! The bytes that fronts and slots change, and writing them into a store.
ghost use Rattle.std.specs.Prelude.{ℕ, ◌≡◌, ◌+◌, ◌^◌, ◌++◌, ◌<◌, ◌≤◌, ◌⊎◌, All, IfErr, IfOk, IsTrue, List, OnErr, OnOk, length, map};
ghost use Rattle.byte_store.specs.Causes.{EndsBy};
ghost use Rattle.byte_store.specs.Fault.{BecomesLaid};
ghost use Rattle.byte_store.specs.Known.{Becomes, HasLength, Stays, put_at};
ghost use Rattle.byte_store.specs.Composed.{owned_patches};
ghost use Rattle.byte_store.specs.Laid.{LiesIn, laid, patches_of};
ghost use Rattle.byte_store.specs.Shown.{shifted};
ghost use Rattle.arwen_macho.specs.Fronts.{LiesIn as IsInside, fronts_on};
ghost use Rattle.macho_signatures.specs.Pages.{hash_bytes};
ghost use Rattle.macho_signatures.specs.Renewed.{SlotLies, laid as slots_on};
ghost use Rattle.macho_commands_stores.specs.Pieces.{ArePartsOf, ArePiecesOf, LaysOn, LiesOn};

use arwen_macho::macho::Front;
use byte_store::{OwnedPiece, Piece, Store, put, write_pieces};
use macho_signatures::Slot;
use std::alloc::{AllocError, Global};
use std::io;

/// The fronts and then the slots that change bytes, in the order in which they are laid. The bytes get them all. Error:
/// `AllocError`.
pub fn changes_of<'a>(
    alloc: Global,
    bytes: &mut [u8],
    fronts: &'a [Front],
    slots: &'a [Slot],
) -> Result<Vec<Piece<'a>>, AllocError>
    requires fronts { All (IsInside (length bytes.old)) fronts.now }
    requires slots { All (SlotLies (length bytes.old)) slots.now }
    ensures ok { IfOk result (λ pieces. ArePiecesOf bytes.old
        (slots_on slots.now (fronts_on fronts.now bytes.old)) pieces.items) }
    ensures bytes { OnOk result
        (bytes.new ≡ slots_on slots.now (fronts_on fronts.now bytes.old)) }
{
    let mut pieces = front_changes(alloc, bytes, fronts)?;
    lay_slots(&mut pieces, bytes, slots)?;
    Ok(pieces)
}

/// The fronts that change bytes, from the last one back. The bytes get them all. Error: `AllocError`.
pub fn front_changes<'a>(
    alloc: Global,
    bytes: &mut [u8],
    fronts: &'a [Front],
) -> Result<Vec<Piece<'a>>, AllocError>
    requires { All (IsInside (length bytes.old)) fronts.now }
    ensures ok { IfOk result (λ pieces.
        ArePiecesOf bytes.old (fronts_on fronts.now bytes.old) pieces.items) }
    ensures bytes { OnOk result (bytes.new ≡ fronts_on fronts.now bytes.old) }
{
    let mut pieces = Vec::with_capacity(alloc, fronts.len())?;
    let mut left = fronts.len();
    while left > 0 {
        left -= 1;
        let front = &fronts[left];
        lay_change(&mut pieces, bytes, front.offset, front.bytes.as_slice())?;
    }
    Ok(pieces)
}

/// Writes slots over the bytes, and puts those that change any behind the pieces, in order.
fn lay_slots<'a>(
    pieces: &mut Vec<Piece<'a>>,
    bytes: &mut [u8],
    slots: &'a [Slot],
) -> Result<(), AllocError>
    requires { All (SlotLies (length bytes.old)) slots.now }
    ensures laid { OnOk result (LaysOn pieces.old.items pieces.new.items bytes.old
        (slots_on slots.now bytes.old)) }
    ensures bytes { OnOk result (bytes.new ≡ slots_on slots.now bytes.old) }
    ensures inside { OnOk result (LiesOn (length bytes.old) pieces.old.items pieces.new.items) }
{
    for slot in slots {
        lay_change(pieces, bytes, slot.place, slot.hash.as_slice())?;
    }
    Ok(())
}

/// Writes a part over the bytes from a position on, and puts it behind the pieces, where it changes any.
fn lay_change<'a>(
    pieces: &mut Vec<Piece<'a>>,
    bytes: &mut [u8],
    at: usize,
    part: &'a [u8],
) -> Result<(), AllocError>
    requires { at + length part.now ≤ length bytes.old }
    ensures bytes { OnOk result (bytes.new ≡ put_at at part.now bytes.old) }
    ensures laid { OnOk result (LaysOn pieces.old.items pieces.new.items bytes.old bytes.new) }
    ensures inside { OnOk result (LiesOn (length bytes.old) pieces.old.items pieces.new.items) }
{
    if stands_in(bytes, at, part) {
        return Ok(());
    }
    pieces.push(Piece {
        offset: at as u64,
        bytes: part,
    })?;
    put(bytes, at, part);
    Ok(())
}

/// Whether a part stands at a position.
fn stands_in(bytes: &[u8], at: usize, part: &[u8]) -> bool
    requires { at + length part.now ≤ length bytes.now }
    ensures { IsTrue result → put_at at part.now bytes.now ≡ bytes.now }
{
    &bytes[at..][..part.len()] == part
}

/// Pieces in the places of others, with what stands there in the bytes that those make of a file.
/// So each piece stands in the bytes that all make, also where the others are laid over one
/// another. Error: `AllocError`.
pub fn standing_pieces<'a>(
    alloc: Global,
    bytes: &'a [u8],
    pieces: &[Piece<'_>],
) -> Result<Vec<Piece<'a>>, AllocError>
    requires { All (LiesIn (length bytes.now)) (patches_of pieces.now) }
    ensures { IfOk result (λ standing. (file : List ℕ)
        → ArePiecesOf file bytes.now pieces.now → ArePartsOf file bytes.now standing.items) }
{
    let mut standing = Vec::with_capacity(alloc, pieces.len())?;
    for piece in pieces {
        let at = piece.offset as usize;
        standing.push(Piece {
            offset: piece.offset,
            bytes: &bytes[at..at + piece.bytes.len()],
        })?;
    }
    Ok(standing)
}

/// Puts copies of the changes of a slice, which begins at an offset, behind pieces of its file. Error: `AllocError`.
pub fn push_changes_at(
    alloc: Global,
    pieces: &mut Vec<OwnedPiece>,
    offset: u64,
    changes: &[Piece<'_>],
) -> Result<(), AllocError>
    requires at { offset < 2 ^ 32 }
    requires inside { All (LiesIn (2 ^ 32)) (patches_of changes.now) }
    ensures { OnOk result (owned_patches pieces.new.items
        ≡ owned_patches pieces.old.items ++ map (shifted offset) (patches_of changes.now)) }
{
    for change in changes {
        let bytes = Vec::from_slice(alloc, change.bytes)?;
        pieces.push(OwnedPiece {
            offset: offset + change.offset,
            bytes,
        })?;
    }
    Ok(())
}

/// Pieces that have their bytes from others. Error: `AllocError`.
pub fn lent_pieces<'a>(
    alloc: Global,
    pieces: &'a [OwnedPiece],
) -> Result<Vec<Piece<'a>>, AllocError>
    ensures { IfOk result (λ lent. patches_of lent.items ≡ owned_patches pieces.now) }
{
    let mut lent = Vec::with_capacity(alloc, pieces.len())?;
    for piece in pieces {
        lent.push(Piece {
            offset: piece.offset,
            bytes: piece.bytes.as_slice(),
        })?;
    }
    Ok(lent)
}

/// Writes pieces over the bytes of a store that has so many. It is opened for writing also where there are
/// none. Error: that of the call of the store that failed, or of `write_pieces`.
pub fn write_changes_of<S: Store>(store: &mut S, len: u64, pieces: &[Piece<'_>]) -> io::Result<()>
    requires old { HasLength (S.contents store.old) len }
    requires inside { All (LiesIn len) (patches_of pieces.now) }
    ensures ok { OnOk result
        (Becomes (laid (patches_of pieces.now)) (S.contents store.old) (S.contents store.new)) }
    ensures err { OnErr result (Stays (S.contents store.old) (S.contents store.new)
        ⊎ BecomesLaid (patches_of pieces.now) (S.contents store.old) (S.contents store.new)) }
    ensures idle { length pieces.now ≡ 0 → Stays (S.contents store.old) (S.contents store.new) }
    ensures opens { length pieces.now ≡ 0 → OnOk result (IsTrue (S.is_writable store.new)) }
    ensures grows { S.failed store.old ≤ S.failed store.new }
    ensures cause { IfErr result (λ e.
        EndsBy S.may_fail_write S.may_take_none e (S.failed store.old) (S.failed store.new)) }
{
    store.open_for_writing()?;
    write_pieces(store, len, pieces)
}
