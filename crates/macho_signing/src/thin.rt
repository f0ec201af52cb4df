//! The code signature of a thin file, and the slots of it that are made anew.
ghost use Rattle.std.specs.Prelude.{◌≡◌, ◌≢◌, ◌≤◌, ◌<◌, ◌++◌, All, MatchResult, IfOk, None, OnOk, Some, length};
ghost use Rattle.macho_image.specs.Form.{commands_end, ctx_of};
ghost use Rattle.macho_signatures.specs.Blobs.{signature_bytes};
ghost use Rattle.macho_signatures.specs.Renewed.{SlotLies, is_touched, renewed_slots, slots_in};
ghost use Rattle.macho_signatures.specs.Signature.{ArePlaced, LiesIn, Tells, signature_fault};
ghost use Rattle.macho_signing.specs.Place.{signature_place};
ghost use Rattle.macho_signing.specs.Thin.{AreAsLong, AreSlotsPlaced, Holds, HoldsSignature, has_identity, is_changed_from, pages_of};
ghost use Rattle.macho_signing.specs.Thin.{place_fault, renewal_fault, thin_fault, thin_slots, touch_fault, touched_by};
ghost use Rattle.macho_signing.specs.declared.fault.SigningFault.TheVariants.{Memory};

use crate::fault::SigningFault;
use crate::place::{Place, find_place};
use crate::scope::Scope;
use macho_signatures::{ByteRange, Directory, Signature, Slot, read_signature};
use std::alloc::{AllocError, Global};

/// The code signature of a thin file, or of a slice, where its load commands tell of one.
///
/// # Errors
///
/// The first check that fails, in this order, or `Memory` where a growth was refused.
///
/// * `File`: the bytes are a thin Mach-O file.
/// * `SeveralSignatures`, `BadCommand`: at most one load command is `LC_CODE_SIGNATURE`, and it has 16 bytes.
/// * `InCommands`: the signature begins behind the load commands.
/// * `Signature`: those of `read_signature`.
#[tactic(auto, unfolding(crate::specs::Thin::thin_fault))]
pub fn read_thin(alloc: Global, bytes: &[u8]) -> Result<Option<Signature>, SigningFault>
    ensures { MatchResult result
        (λ found. (thin_fault bytes.now ≡ None) × Holds bytes.now found)
        (λ e. e ≢ Memory → thin_fault bytes.now ≡ Some e) }
{
    let found = find_place(alloc, bytes)?;
    match found.place {
        None => Ok(None),
        Some(place) => Ok(Some(read_place(alloc, bytes, found.commands_end, place)?)),
    }
}

// The signature at a place of a thin file whose load commands end at `end`.
fn read_place(
    alloc: Global,
    bytes: &[u8],
    end: usize,
    place: Place,
) -> Result<Signature, SigningFault>
    requires { end ≡ commands_end (ctx_of bytes.now) bytes.now }
    ensures { MatchResult result
        (λ found. (place_fault bytes.now place ≡ None)
        × (commands_end (ctx_of bytes.now) bytes.now ≤ place.dataoff)
        × (signature_fault place.dataoff place.datasize bytes.now ≡ None)
        × Tells place.dataoff (signature_bytes place.dataoff place.datasize bytes.now) found
        × ArePlaced place.dataoff (length bytes.now) found.directories.items)
        (λ e. e ≢ Memory → place_fault bytes.now place ≡ Some e) }
{
    if (place.dataoff as usize) < end {
        return Err(SigningFault::InCommands);
    }
    Ok(read_signature(alloc, bytes, place.dataoff, place.datasize)?)
}

/// The slots of a thin file that are made anew, and whether its signature is left since an identity signed.
#[derive(Drop)]
pub struct ThinSlots {
    /// The slots, by their places in the thin file.
    pub slots: Vec<Slot>,
    /// Whether a signature is left.
    pub is_left: bool,
}

/// The slots of the chosen pages, in each directory of an ad-hoc signature, with the hashes of these bytes.
#[tactic(auto, unfolding(crate::specs::Thin::renewal_fault))]
pub(crate) fn thin_slots(
    alloc: Global,
    bytes: &[u8],
    scope: Scope<'_>,
) -> Result<ThinSlots, SigningFault>
    requires { AreAsLong (pages_of scope) bytes.now }
    ensures { MatchResult result
        (λ made. (renewal_fault (pages_of scope.entry) bytes.now ≡ None)
        × (made.slots.items ≡ thin_slots (pages_of scope.entry) bytes.now)
        × (made.is_left ≡ has_identity bytes.now)
        × AreSlotsPlaced bytes.now)
        (λ e. e ≢ Memory → renewal_fault (pages_of scope.entry) bytes.now ≡ Some e) }
{
    match read_thin(alloc, bytes)? {
        Some(signature) => adhoc_slots(alloc, &signature, bytes, scope),
        None => Ok(ThinSlots {
            slots: Vec::new(alloc),
            is_left: false,
        }),
    }
}

// The slots of the chosen pages, in each directory of an ad-hoc signature that a thin file has,
// with the hashes of these bytes.
fn adhoc_slots(
    alloc: Global,
    signature: &Signature,
    bytes: &[u8],
    scope: Scope<'_>,
) -> Result<ThinSlots, SigningFault>
    requires holds { HoldsSignature bytes.now signature.now }
    requires long { AreAsLong (pages_of scope) bytes.now }
    ensures { MatchResult result
        (λ made. (touch_fault (pages_of scope.entry) bytes.now (signature_place bytes.now) ≡ None)
        × (made.slots.items ≡ thin_slots (pages_of scope.entry) bytes.now)
        × (made.is_left ≡ has_identity bytes.now)
        × AreSlotsPlaced bytes.now)
        (λ e. e ≢ Memory
        → touch_fault (pages_of scope.entry) bytes.now (signature_place bytes.now) ≡ Some e) }
{
    if !signature.is_adhoc() {
        return Ok(ThinSlots {
            slots: Vec::new(alloc),
            is_left: true,
        });
    }
    if is_changed_from(bytes, signature.start, scope) {
        return Err(SigningFault::ChangedSignature);
    }
    Ok(ThinSlots {
        slots: signature_slots(alloc, signature, bytes, scope)?,
        is_left: false,
    })
}

// Whether some byte from a position on differs from the other bytes.
fn is_changed_from(bytes: &[u8], start: usize, scope: Scope<'_>) -> bool
    requires inside { start ≤ length bytes.now }
    requires long { AreAsLong (pages_of scope) bytes.now }
    ensures { result ≡ is_changed_from start (pages_of scope.entry) bytes.now }
{
    match scope {
        Scope::All => false,
        Scope::Since(old) => old[start..] != bytes[start..],
    }
}

// The slots of the chosen pages, in each directory.
fn signature_slots(
    alloc: Global,
    signature: &Signature,
    bytes: &[u8],
    scope: Scope<'_>,
) -> Result<Vec<Slot>, AllocError>
    requires placed { ArePlaced signature.now.start (length bytes.now)
        signature.now.directories.items }
    requires long { AreAsLong (pages_of scope) bytes.now }
    ensures { IfOk result (λ slots. slots.items ≡ renewed_slots signature.now.directories.items
        (touched_by (pages_of scope.entry) bytes.now) bytes.now) }
{
    let mut slots = Vec::new(alloc);
    for directory in &signature.directories {
        push_slots(&mut slots, directory, bytes, scope)?;
    }
    Ok(slots)
}

// Appends the slots of the chosen pages of a directory.
fn push_slots(
    slots: &mut Vec<Slot>,
    directory: &Directory,
    bytes: &[u8],
    scope: Scope<'_>,
) -> Result<(), AllocError>
    requires lies { LiesIn (length bytes.now) directory.now }
    requires long { AreAsLong (pages_of scope) bytes.now }
    ensures { OnOk result (slots.new.items ≡ slots.old.items
        ++ slots_in directory.now (touched_by (pages_of scope.entry) bytes.now) bytes.now) }
{
    for page in 0..directory.count as usize {
        if is_chosen(directory, bytes, scope, page) {
            slots.push(Slot {
                place: directory.slot_place(page),
                hash: directory.page_hash(bytes, page),
            })?;
        }
    }
    Ok(())
}

// All places of bytes.
fn whole(bytes: &[u8]) -> ByteRange
    ensures { result ≡ record { begin = 0; end = length bytes.now } }
{
    ByteRange {
        begin: 0,
        end: bytes.len(),
    }
}

// Whether a page is one of those that are chosen.
fn is_chosen(directory: &Directory, bytes: &[u8], scope: Scope<'_>, page: usize) -> bool
    requires lies { LiesIn (length bytes.now) directory.now }
    requires inside { page < directory.now.count }
    requires long { AreAsLong (pages_of scope) bytes.now }
    ensures { result ≡ is_touched directory.now (touched_by (pages_of scope.entry) bytes.now) page }
{
    match scope {
        Scope::All => directory.is_touched(&[whole(bytes)], page),
        Scope::Since(old) => directory.page(old, page) != directory.page(bytes, page),
    }
}
