//! Signatures of a file of either shape: of a thin file, or of each slice of a fat one.
ghost use Rattle.std.specs.Prelude.{◌≡◌, ◌≢◌, ◌≤◌, ◌<◌, ◌+◌, ◌^◌, ◌++◌, ◌∷◌, ◌||◌, [], All, IfOk, MatchResult, None, OnErr, OnOk, Some, length, map};
ghost use Rattle.std.specs.List.{flat_map, list_any};
ghost use Rattle.macho_signatures.specs.Renewed.{SlotLies, laid};
ghost use Rattle.macho_signing.specs.File.{AreParts, IsInside, IsSigned, first_fault, has_identity_in, pages_in, part_bytes, part_fault, part_slots, parts_fault, parts_of, signed_slots, signing_fault, slice_part, slot_in};
ghost use Rattle.macho_signing.specs.Shown.{FileShowsSame};
ghost use Rattle.macho_signing.specs.Thin.{AreAsLong, AreSlotsPlaced, pages_of, thin_slots};
ghost use Rattle.macho_signing.specs.declared.fault.SigningFault.TheVariants.{Memory};

use crate::fault::SigningFault;
use crate::scope::Scope;
use crate::thin::{ThinSlots, thin_slots};
use macho_image::{FatArch, fat_archs, is_fat};
use macho_signatures::{Slot, lay_slots};
use std::alloc::{AllocError, Global};

/// A thin file in a file: a slice of a fat one, or the whole.
#[derive(Clone, Copy, Debug, PartialEq, Eq)]
pub struct Part {
    /// Where the part begins in the file.
    pub offset: usize,
    /// How many bytes the part has.
    pub size: usize,
}

/// The slices of a fat file, in the order of its table; a thin file alone, whatever its bytes are.
///
/// # Errors
///
/// `File` with the first check of the table that fails, or `Memory` where a growth was refused.
#[tactic(auto, unfolding(crate::specs::File::parts_of, crate::specs::File::parts_fault))]
pub fn parts_of(alloc: Global, bytes: &[u8]) -> Result<Vec<Part>, SigningFault>
    ensures { MatchResult result
        (λ parts. (parts_fault bytes.now ≡ None)
        × (parts.items ≡ parts_of bytes.now)
        × AreParts (length bytes.now) parts.items)
        (λ e. e ≢ Memory → parts_fault bytes.now ≡ Some e) }
{
    if !is_fat(bytes) {
        return Ok(whole(alloc, bytes.len())?);
    }
    let archs = fat_archs(alloc, bytes)?;
    Ok(slice_parts(alloc, &archs)?)
}

// A thin file of this length alone.
fn whole(alloc: Global, size: usize) -> Result<Vec<Part>, AllocError>
    ensures { IfOk result (λ parts. parts.items ≡ record { offset = 0; size = size } ∷ []) }
{
    let mut parts = Vec::new(alloc);
    parts.push(Part { offset: 0, size })?;
    Ok(parts)
}

// The slices of a table.
fn slice_parts(alloc: Global, archs: &[FatArch]) -> Result<Vec<Part>, AllocError>
    ensures { IfOk result (λ parts. parts.items ≡ map slice_part archs.now) }
{
    let mut parts = Vec::new(alloc);
    for arch in archs {
        parts.push(Part {
            offset: arch.offset as usize,
            size: arch.size as usize,
        })?;
    }
    Ok(parts)
}

/// The slots of a file that are made anew.
#[derive(Drop)]
pub struct NewSlots {
    /// The slots, by their places in the file.
    pub slots: Vec<Slot>,
    /// Whether a signature is left as it was, since an identity signed.
    pub are_some_left: bool,
}

/// The slots of the chosen pages of a file, in each directory of the ad-hoc signature of each of its parts, with the
/// hashes of these bytes. A part without a signature has none, and one that an identity signed has none that may be
/// made anew. Laid over the bytes, they sign these anew (`IsSigned`), and a parse finds the same as before
/// (`FileShowsSame`).
///
/// # Errors
///
/// The first check that fails, of the table of a fat file and then of each part in turn, or `Memory` where a growth was
/// refused. Of a part they are those of `read_thin`, and then `ChangedSignature`: where only pages that differ from other
/// bytes are chosen, no byte of an ad-hoc signature differs, and none behind its beginning.
pub fn signed_slots(alloc: Global, bytes: &[u8], scope: Scope<'_>) -> Result<NewSlots, SigningFault>
    requires { AreAsLong (pages_of scope) bytes.now }
    ensures value { MatchResult result
        (λ made. (signing_fault (pages_of scope.entry) bytes.now ≡ None)
        × (made.slots.items ≡ signed_slots (pages_of scope.entry) bytes.now)
        × (made.are_some_left ≡ list_any (has_identity_in bytes.now) (parts_of bytes.now)))
        (λ e. e ≢ Memory → signing_fault (pages_of scope.entry) bytes.now ≡ Some e) }
    ensures lie { IfOk result (λ made. All (SlotLies (length bytes.now)) made.slots.items) }
    ensures signed { IfOk result (λ made.
        IsSigned (pages_of scope.entry) bytes.now (laid made.slots.items bytes.now)) }
    ensures shows { IfOk result (λ made.
        FileShowsSame bytes.now (laid made.slots.items bytes.now)) }
{
    let parts = parts_of(alloc, bytes)?;
    part_slots_of(alloc, bytes, scope, &parts)
}

// The slots of parts of a file.
fn part_slots_of(
    alloc: Global,
    bytes: &[u8],
    scope: Scope<'_>,
    parts: &[Part],
) -> Result<NewSlots, SigningFault>
    requires inside { All (IsInside (length bytes.now)) parts.now }
    requires long { AreAsLong (pages_of scope) bytes.now }
    ensures { MatchResult result
        (λ made. (first_fault (part_fault (pages_of scope.entry) bytes.now) parts.now ≡ None)
        × (made.slots.items ≡ flat_map (part_slots (pages_of scope.entry) bytes.now) parts.now)
        × (made.are_some_left ≡ list_any (has_identity_in bytes.now) parts.now)
        × All (λ p. AreSlotsPlaced (part_bytes bytes.now p)) parts.now)
        (λ e. e ≢ Memory
        → first_fault (part_fault (pages_of scope.entry) bytes.now) parts.now ≡ Some e) }
{
    let mut slots = Vec::new(alloc);
    let mut are_some_left = false;
    for part in parts {
        let made = slots_in_part(alloc, bytes, scope, *part)?;
        push_shifted(&mut slots, part.offset, &made.slots)?;
        are_some_left = are_some_left || made.is_left;
    }
    Ok(NewSlots {
        slots,
        are_some_left,
    })
}

// The slots of a part, by their places in it.
fn slots_in_part(
    alloc: Global,
    bytes: &[u8],
    scope: Scope<'_>,
    part: Part,
) -> Result<ThinSlots, SigningFault>
    requires inside { IsInside (length bytes.now) part }
    requires long { AreAsLong (pages_of scope) bytes.now }
    ensures { MatchResult result
        (λ made. (part_fault (pages_of scope.entry) bytes.now part ≡ None)
        × (made.slots.items
        ≡ thin_slots (pages_in (pages_of scope.entry) part) (part_bytes bytes.now part))
        × (made.is_left ≡ has_identity_in bytes.now part)
        × AreSlotsPlaced (part_bytes bytes.now part)
        × All (SlotLies part.size) made.slots.items)
        (λ e. e ≢ Memory → part_fault (pages_of scope.entry) bytes.now part ≡ Some e) }
{
    let inner = &bytes[part.offset..part.offset + part.size];
    thin_slots(alloc, inner, scope.part(part))
}

// Appends slots of a part by their places in the file.
fn push_shifted(slots: &mut Vec<Slot>, offset: usize, more: &[Slot]) -> Result<(), AllocError>
    requires { All (λ slot. offset + slot.place < 2 ^ 64) more.now }
    ensures { OnOk result (slots.new.items ≡ slots.old.items ++ map (slot_in offset) more.now) }
{
    for slot in more {
        slots.push(Slot {
            place: offset + slot.place,
            hash: slot.hash,
        })?;
    }
    Ok(())
}

/// Makes the slots of the chosen pages of a file anew (`signed_slots`), and answers whether a signature is left as it was,
/// since an identity signed.
///
/// # Errors
///
/// Those of `signed_slots`; they leave all bytes.
pub fn sign(alloc: Global, bytes: &mut [u8], scope: Scope<'_>) -> Result<bool, SigningFault>
    requires { AreAsLong (pages_of scope) bytes.old }
    ensures value { MatchResult result
        (λ is_left. (signing_fault (pages_of scope.entry) bytes.old ≡ None)
        × (is_left ≡ list_any (has_identity_in bytes.old) (parts_of bytes.old)))
        (λ e. e ≢ Memory → signing_fault (pages_of scope.entry) bytes.old ≡ Some e) }
    ensures signed { OnOk result (IsSigned (pages_of scope.entry) bytes.old bytes.new) }
    ensures shows { OnOk result (FileShowsSame bytes.old bytes.new) }
    ensures err { OnErr result (bytes.new ≡ bytes.old) }
{
    let made = signed_slots(alloc, bytes, scope)?;
    lay_slots(bytes, &made.slots);
    Ok(made.are_some_left)
}
