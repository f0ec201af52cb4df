//! The slots of a thin file that are made anew behind an edit of its front, told by the front and the signature alone.
ghost use Rattle.std.specs.Prelude.{ℕ, ◌≡◌, ◌<◌, ◌≤◌, ◌+◌, ◌++◌, All, IfOk, IfSome, IsTrue, List, None, Ok, OnOk, Some, length};
ghost use Rattle.macho_image.specs.Checks.{file_fault};
ghost use Rattle.macho_signatures.specs.Pages.{page_end};
ghost use Rattle.macho_signatures.specs.Renewed.{SlotLies, is_touched, renewed_slots, slots_in};
ghost use Rattle.macho_signatures.specs.Signature.{HasPages, LiesIn};
ghost use Rattle.macho_signing.specs.Front.{AreEdits, EndsWithin, HasSignature, IsReadAt, SignsThin};
ghost use Rattle.macho_signing.specs.Place.{signature_place};
ghost use Rattle.macho_signing.specs.Thin.{differences, since};

use crate::place::Place;
use crate::thin::ThinSlots;
use macho_signatures::{Directory, Signature, SignatureFault, Slot, read_signature_bytes};
use std::alloc::{AllocError, Global};

/// The slots of a thin file that are made anew behind an edit of its front: `old` are its first bytes before the edit, `new`
/// the same behind it, and `signature` those of its signature, which the load commands of `new` tell of. They are the slots
/// of the pages in which a byte differs. `None` where these bytes don't tell them: a check of the signature fails, or a
/// page begins in the front and ends behind it. Error: `AllocError`.
pub fn front_slots(
    alloc: Global,
    old: &[u8],
    new: &[u8],
    place: Place,
    signature: &[u8],
) -> Result<Option<ThinSlots>, AllocError>
    requires long { length old.now ≡ length new.now }
    requires accepted { file_fault new.now ≡ None }
    requires told { signature_place new.now ≡ Ok (Some place) }
    requires behind { length new.now ≤ place.dataoff }
    ensures lie { IfOk result (λ found. IfSome found (λ made.
        All (SlotLies (place.dataoff + length signature.now)) made.slots.items)) }
    ensures signs { IfOk result (λ found. IfSome found (λ made. (rest : List ℕ)
        → HasSignature (new.now ++ rest) place signature.now
        → SignsThin (since (old.now ++ rest)) (new.now ++ rest) made)) }
{
    let Some(signature) = signature_at(alloc, signature, place.dataoff)? else {
        return Ok(None);
    };
    if !signature.is_adhoc() {
        return Ok(Some(ThinSlots {
            slots: Vec::new(alloc),
            is_left: true,
        }));
    }
    if !do_pages_end(&signature.directories, new.len()) {
        return Ok(None);
    }
    Ok(Some(ThinSlots {
        slots: edited_slots(alloc, &signature.directories, old, new)?,
        is_left: false,
    }))
}

// The signature in these bytes, where no check of it fails.
fn signature_at(
    alloc: Global,
    signature: &[u8],
    dataoff: u32,
) -> Result<Option<Signature>, AllocError>
    ensures { IfOk result (λ found. IfSome found (IsReadAt dataoff signature.now)) }
{
    match read_signature_bytes(alloc, signature, dataoff) {
        Ok(found) => Ok(Some(found)),
        Err(SignatureFault::Memory) => Err(AllocError),
        Err(_) => Ok(None),
    }
}

// Whether each page of directories that begins in so many first bytes ends in them.
fn do_pages_end(directories: &[Directory], len: usize) -> bool
    requires { All (LiesIn usize.MAX) directories.now }
    ensures { IsTrue result → All (EndsWithin len) directories.now }
{
    for directory in directories {
        if !do_end(directory, len) {
            return false;
        }
    }
    true
}

// Whether each page of a directory that begins in so many first bytes ends in them.
fn do_end(directory: &Directory, len: usize) -> bool
    requires { HasPages directory.now }
    ensures { IsTrue result → EndsWithin len directory.now }
{
    for page in 0..directory.count as usize {
        if directory.page_start(page) < len && len < directory.page_end(page) {
            return false;
        }
    }
    true
}

// The slots of the pages in which the edit of a front changed a byte, in each directory.
fn edited_slots(
    alloc: Global,
    directories: &[Directory],
    old: &[u8],
    new: &[u8],
) -> Result<Vec<Slot>, AllocError>
    requires long { length old.now ≡ length new.now }
    requires lie { All (LiesIn usize.MAX) directories.now }
    requires ends { All (EndsWithin (length new.now)) directories.now }
    ensures { IfOk result (λ slots. AreEdits old.now new.now (λ before after.
        slots.items ≡ renewed_slots directories.now (differences before after) after)) }
{
    let mut slots = Vec::new(alloc);
    for directory in directories {
        push_edited(&mut slots, directory, old, new)?;
    }
    Ok(slots)
}

// Appends those of a directory.
fn push_edited(
    slots: &mut Vec<Slot>,
    directory: &Directory,
    old: &[u8],
    new: &[u8],
) -> Result<(), AllocError>
    requires long { length old.now ≡ length new.now }
    requires lies { LiesIn usize.MAX directory.now }
    requires ends { EndsWithin (length new.now) directory.now }
    ensures { OnOk result (AreEdits old.now new.now (λ before after. slots.new.items
        ≡ slots.old.items ++ slots_in directory.now (differences before after) after)) }
{
    for page in 0..directory.count as usize {
        if is_edited(directory, old, new, page) {
            let start = directory.page_start(page);
            let end = directory.page_end(page);
            slots.push(Slot {
                place: directory.slot_place(page),
                hash: directory.hash.hash(&new[start..end]),
            })?;
        }
    }
    Ok(())
}

// Whether the edit of a front changed a byte of a page.
fn is_edited(directory: &Directory, old: &[u8], new: &[u8], page: usize) -> bool
    requires long { length old.now ≡ length new.now }
    requires pages { HasPages directory.now }
    requires inside { page < directory.now.count }
    requires ends { EndsWithin (length new.now) directory.now }
    ensures touched { AreEdits old.now new.now (λ before after.
        result ≡ is_touched directory.now (differences before after) page) }
    ensures within { IsTrue result → page_end directory.now page ≤ length new.now }
{
    let start = directory.page_start(page);
    if start >= new.len() {
        return false;
    }
    let end = directory.page_end(page);
    old[start..end] != new[start..end]
}
