//! The slots of signatures that are made anew behind edits of the fronts of slices: what is read of the file for them.
ghost use Rattle.std.specs.Prelude.{ℕ, ◌≡◌, ◌+◌, ◌^◌, ◌<◌, ◌≤◌, ◌++◌, All, IfErr, IfOk, IfSome, None, Ok, OnOk, Some, length, map};
ghost use Rattle.byte_store.specs.Causes.{IsNotRead};
ghost use Rattle.byte_store.specs.Composed.{owned_patches};
ghost use Rattle.byte_store.specs.Known.{Stays};
ghost use Rattle.byte_store.specs.Shown.{shifted};
ghost use Rattle.byte_store.specs.declared.reading.ReadError.TheVariants.{Memory};
ghost use Rattle.macho_image.specs.Checks.{file_fault};
ghost use Rattle.macho_signatures.specs.Renewed.{SlotLies};
ghost use Rattle.macho_signing.specs.Place.{signature_place};
ghost use Rattle.macho_commands_stores.specs.Renewing.{AreAsLong, IsLow, SignsFront, SignsFronts, slot_patch};

use crate::slices::{SliceFront, load_at};
use byte_store::{OwnedPiece, ReadError, Store};
use macho_signatures::Slot;
use macho_signing::place::Found;
use macho_signing::{Place, SigningFault, ThinSlots, find_place, front_slots};
use std::alloc::{AllocError, Global};

/// The slots of a file's signatures that are made anew behind edits of the fronts of its slices.
#[derive(Drop)]
pub struct SliceSlots {
    /// The slots, as pieces of the file, those of the first slice first.
    pub pieces: Vec<OwnedPiece>,
    /// Whether a signature is left as it was, since an identity signed.
    pub are_some_left: bool,
}

/// The slots of the pages that edits of the fronts of slices touched: `edited` is what they make of each front. Of each
/// slice the bytes of its signature are read, and no more. `None` where these don't tell the slots (`front_slots`), or a
/// read gave too few bytes.
///
/// # Errors
///
/// `Memory`, where a growth was refused; `Io` with the error of the read that failed.
pub fn load_slots<S: Store>(
    alloc: Global,
    store: &mut S,
    fronts: &[SliceFront],
    edited: &[Vec<u8>],
) -> Result<Option<SliceSlots>, ReadError>
    requires low { All IsLow fronts.now }
    requires long { AreAsLong fronts.now (map (λ new. new.items) edited.now) }
    ensures slots { IfOk result (λ found. IfSome found (λ slots.
        SignsFronts (S.contents store.old) fronts.now (map (λ new. new.items) edited.now)
        (owned_patches slots.pieces.items) slots.are_some_left)) }
    ensures kept { Stays (S.contents store.old) (S.contents store.new) }
    ensures grows { S.failed store.old ≤ S.failed store.new }
    ensures cause { IfErr result (IsNotRead S.may_fail_read
        (S.contents store.old) (S.failed store.old) (S.failed store.new)) }
{
    let mut pieces = Vec::new(alloc);
    let mut are_some_left = false;
    for i in 0..fronts.len() {
        let front = &fronts[i];
        let Some(made) = slots_behind(alloc, store, front, edited[i].as_slice())? else {
            return Ok(None);
        };
        push_slots_at(alloc, &mut pieces, front.offset, made.slots.as_slice())?;
        are_some_left = are_some_left || made.is_left;
    }
    Ok(Some(SliceSlots {
        pieces,
        are_some_left,
    }))
}

/// Puts the slots of a slice, which begins at an offset, behind pieces of its file. Error: `AllocError`.
fn push_slots_at(
    alloc: Global,
    pieces: &mut Vec<OwnedPiece>,
    offset: u64,
    slots: &[Slot],
) -> Result<(), AllocError>
    requires low { offset < 2 ^ 32 }
    requires lie { All (SlotLies (2 ^ 32)) slots.now }
    ensures { OnOk result (owned_patches pieces.new.items
        ≡ owned_patches pieces.old.items ++ map (shifted offset) (map slot_patch slots.now)) }
{
    for slot in slots {
        let bytes = Vec::from_slice(alloc, slot.hash.as_slice())?;
        pieces.push(OwnedPiece {
            offset: offset + slot.place as u64,
            bytes,
        })?;
    }
    Ok(())
}

/// The slots of a slice that are made anew behind an edit which makes this of its front; `None` where they aren't told.
fn slots_behind<S: Store>(
    alloc: Global,
    store: &mut S,
    front: &SliceFront,
    new: &[u8],
) -> Result<Option<ThinSlots>, ReadError>
    requires low { IsLow front.now }
    requires long { length new.now ≡ length front.now.bytes.items }
    ensures slots { IfOk result (λ found.
        IfSome found (SignsFront (S.contents store.old) front.now new.now)) }
    ensures lie { IfOk result (λ found.
        IfSome found (λ made. All (SlotLies front.now.size) made.slots.items)) }
    ensures kept { Stays (S.contents store.old) (S.contents store.new) }
    ensures grows { S.failed store.old ≤ S.failed store.new }
    ensures cause { IfErr result (IsNotRead S.may_fail_read
        (S.contents store.old) (S.failed store.old) (S.failed store.new)) }
{
    let Some(found) = found_in(alloc, new)? else {
        return Ok(None);
    };
    match found.place {
        Some(place) => slots_at(alloc, store, front, new, place),
        None => Ok(Some(ThinSlots {
            slots: Vec::new(alloc),
            is_left: false,
        })),
    }
}

/// What an edited front tells of a signature; `None` where it is refused.
fn found_in(alloc: Global, new: &[u8]) -> Result<Option<Found>, ReadError>
    ensures found { IfOk result (λ found. IfSome found (λ f. (file_fault new.now ≡ None)
        × (signature_place new.now ≡ Ok f.place))) }
    ensures err { IfErr result (λ e. e ≡ Memory) }
{
    match find_place(alloc, new) {
        Ok(found) => Ok(Some(found)),
        Err(SigningFault::Memory) => Err(ReadError::Memory),
        Err(_) => Ok(None),
    }
}

/// The slots of a slice whose signature lies at a place.
fn slots_at<S: Store>(
    alloc: Global,
    store: &mut S,
    front: &SliceFront,
    new: &[u8],
    place: Place,
) -> Result<Option<ThinSlots>, ReadError>
    requires low { IsLow front.now }
    requires long { length new.now ≡ length front.now.bytes.items }
    requires accepted { file_fault new.now ≡ None }
    requires told { signature_place new.now ≡ Ok (Some place) }
    ensures slots { IfOk result (λ found.
        IfSome found (SignsFront (S.contents store.old) front.now new.now)) }
    ensures lie { IfOk result (λ found.
        IfSome found (λ made. All (SlotLies front.now.size) made.slots.items)) }
    ensures kept { Stays (S.contents store.old) (S.contents store.new) }
    ensures grows { S.failed store.old ≤ S.failed store.new }
    ensures cause { IfErr result (IsNotRead S.may_fail_read
        (S.contents store.old) (S.failed store.old) (S.failed store.new)) }
{
    let end = place.dataoff as u64 + place.datasize as u64;
    if (place.dataoff as usize) < new.len() || (front.size as u64) < end {
        return Ok(None);
    }
    let begin = front.offset + place.dataoff as u64;
    let size = place.datasize as usize;
    let signature = load_at(alloc, store, begin, size)?;
    if signature.len() < size {
        return Ok(None);
    }
    let old = front.bytes.as_slice();
    let made = front_slots(alloc, old, new, place, signature.as_slice())?;
    Ok(made)
}
