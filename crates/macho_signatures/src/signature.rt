//! Signatures: the code directories of a file, and whether an identity signed.
ghost use Rattle.std.specs.Prelude.{ℕ, ◌≡◌, ◌≢◌, ◌+◌, ◌<◌, ◌≤◌, ◌^◌, ◌==◌, All, IfOk, MatchResult, None, Some, filter, length, map, not};
ghost use Rattle.std.specs.List.{list_any};
ghost use Rattle.macho_signatures.specs.Blobs.{AreBlobs, blobs_fault, blobs_of, header_fault, first_there, signature_bytes};
ghost use Rattle.macho_signatures.specs.Signature.{ArePlaced, Tells, blob_directory, blob_fault, blob_bytes, bytes_fault, contents_fault, first_fault, is_directory, is_message, signature_fault};
ghost use Rattle.macho_signatures.specs.declared.fault.SignatureFault.TheVariants.{Memory, Outside};

use crate::blobs::{BLOB_HEADER, Blob, read_blobs};
use crate::directory::{Directory, read_directory};
use crate::fault::SignatureFault;
use crate::field::number32;
use std::alloc::{AllocError, Global};

/// The slot type of the code directory that each signature has, `CSSLOT_CODEDIRECTORY` of cs_blobs.h.
pub const MAIN_DIRECTORY: u32 = 0;

/// The first slot type of another code directory, `CSSLOT_ALTERNATE_CODEDIRECTORIES`.
pub const FIRST_ALTERNATE: u32 = 0x1000;

/// The last slot type of another code directory.
pub const LAST_ALTERNATE: u32 = 0x1004;

/// The slot type of the CMS message by which an identity signs, `CSSLOT_SIGNATURESLOT`.
pub const CMS_SLOT: u32 = 0x1_0000;

/// The magic of a blob that holds a CMS message, `CSMAGIC_BLOBWRAPPER`.
pub const CMS_MAGIC: u32 = 0xfade_0b01;

/// A code signature.
#[derive(Debug, Drop)]
pub struct Signature {
    /// Where the signature begins in the thin file.
    pub start: usize,
    /// The signature's code directories, in the order of its index.
    pub directories: Vec<Directory>,
    /// Whether an identity signed. If not, the signature is ad hoc.
    pub is_signed: bool,
}

impl Signature {
    /// Whether no identity signed.
    pub fn is_adhoc(&self) -> bool
        ensures { result ≡ not self.now.is_signed }
    {
        !self.is_signed
    }
}

// The bytes that the load command names, or `Outside`.
fn signature_bytes(bytes: &[u8], dataoff: u32, datasize: u32) -> Result<&[u8], SignatureFault>
    ensures { MatchResult result
        (λ found. (dataoff + datasize ≤ length bytes.now)
        × (found.now ≡ signature_bytes dataoff datasize bytes.now))
        (λ e. (length bytes.now < dataoff + datasize) × (e ≡ Outside)) }
{
    let start = dataoff as usize;
    let end = start + datasize as usize;
    if bytes.len() < end {
        return Err(SignatureFault::Outside);
    }
    Ok(&bytes[start..end])
}

// Whether the slot of a blob is one of a code directory.
fn is_directory(blob: &Blob) -> bool
    ensures { result ≡ is_directory blob.now }
{
    blob.kind == MAIN_DIRECTORY || FIRST_ALTERNATE <= blob.kind && blob.kind <= LAST_ALTERNATE
}

// The blobs in slots of code directories.
fn directory_blobs(alloc: Global, blobs: &[Blob]) -> Result<Vec<Blob>, AllocError>
    ensures { IfOk result (λ kept. kept.items ≡ filter is_directory blobs.now) }
{
    blobs
        .iter()
        .copied()
        .filter(|blob| is_directory(blob))
        .collect(alloc)
}

// The bytes of a blob.
fn blob_bytes(signature: &[u8], blob: Blob) -> &[u8]
    requires { blob.offset + blob.size ≤ length signature.now }
    ensures { result.now ≡ blob_bytes signature.now blob }
{
    let offset = blob.offset as usize;
    &signature[offset..offset + blob.size as usize]
}

// The directories in blobs, or the first check that fails.
fn read_directories(
    alloc: Global,
    signature: &[u8],
    start: u32,
    blobs: &[Blob],
) -> Result<Vec<Directory>, SignatureFault>
    requires { All (λ blob. blob.offset + blob.size ≤ length signature.now) blobs.now }
    ensures { MatchResult result
        (λ directories. (first_fault (blob_fault start signature.now) blobs.now ≡ None)
        × (directories.items ≡ map (blob_directory start signature.now) blobs.now))
        (λ e. e ≢ Memory
        → first_fault (blob_fault start signature.now) blobs.now ≡ Some e) }
{
    let mut directories = Vec::new(alloc);
    for blob in blobs {
        let place = start as usize + blob.offset as usize;
        let directory = read_directory(blob_bytes(signature, *blob), place, start)?;
        directories.push(directory)?;
    }
    Ok(directories)
}

// Whether some blob is in the main slot of code directories.
fn has_main(blobs: &[Blob]) -> bool
    ensures { result ≡ list_any (λ blob. blob.kind == MAIN_DIRECTORY) blobs.now }
{
    for blob in blobs {
        if blob.kind == MAIN_DIRECTORY {
            return true;
        }
    }
    false
}

// Whether a blob is a CMS message with more than a header.
fn is_message(signature: &[u8], blob: Blob) -> bool
    requires long { BLOB_HEADER ≤ blob.size }
    requires inside { blob.offset + blob.size ≤ length signature.now }
    ensures { result ≡ is_message signature.now blob }
{
    blob.kind == CMS_SLOT
        && number32(signature, blob.offset as usize) == CMS_MAGIC
        && blob.size as usize > BLOB_HEADER
}

// Whether some blob is a CMS message with more than a header.
fn has_message(signature: &[u8], blobs: &[Blob]) -> bool
    requires long { All (λ blob. BLOB_HEADER ≤ blob.size) blobs.now }
    requires inside { All (λ blob. blob.offset + blob.size ≤ length signature.now) blobs.now }
    ensures { result ≡ list_any (is_message signature.now) blobs.now }
{
    for blob in blobs {
        if is_message(signature, *blob) {
            return true;
        }
    }
    false
}

// What the blobs of a signature tell that begins at `start`, or the first check of what they hold that fails.
#[tactic(auto, unfolding(crate::specs::Signature::contents_fault, crate::specs::Signature::directories_of, crate::specs::Signature::is_signed))]
fn read_contents(
    alloc: Global,
    signature: &[u8],
    start: u32,
    blobs: &[Blob],
) -> Result<Signature, SignatureFault>
    requires are { AreBlobs signature.now blobs.now }
    requires all { blobs.now ≡ blobs_of signature.now }
    ensures { MatchResult result
        (λ found. (contents_fault start signature.now ≡ None)
        × Tells start signature.now found)
        (λ e. e ≢ Memory → contents_fault start signature.now ≡ Some e) }
{
    let kept = directory_blobs(alloc, blobs)?;
    let directories = read_directories(alloc, signature, start, &kept)?;
    if !has_main(blobs) {
        return Err(SignatureFault::NoDirectory);
    }
    Ok(Signature {
        start: start as usize,
        directories,
        is_signed: has_message(signature, blobs),
    })
}

/// The code signature in these bytes, which are those from `dataoff` on of a thin file, or of a slice, that
/// `LC_CODE_SIGNATURE` names. It is placed in a file of any length in which they end.
///
/// # Errors
///
/// Those of `read_signature` but `Outside`, in their order.
pub fn read_signature_bytes(
    alloc: Global,
    signature: &[u8],
    dataoff: u32,
) -> Result<Signature, SignatureFault>
    ensures { MatchResult result
        (λ found. (bytes_fault dataoff signature.now ≡ None)
        × Tells dataoff signature.now found
        × ((len : ℕ) → dataoff + length signature.now ≤ len
        → ArePlaced dataoff len found.directories.items))
        (λ e. e ≢ Memory → bytes_fault dataoff signature.now ≡ Some e) }
{
    let blobs = read_blobs(alloc, signature)?;
    read_contents(alloc, signature, dataoff, &blobs)
}

/// The code signature of a thin file, or of a slice, in the `datasize` bytes from `dataoff` on, as `LC_CODE_SIGNATURE` names
/// them (loader.h, `linkedit_data_command`; cs_blobs.h, `CS_SuperBlob`).
///
/// # Errors
///
/// The first check that fails, in this order, or `Memory` where a growth was refused.
///
/// * `Outside`: the bytes end in the file.
/// * `NoSuperBlob`, `BadLength`, `BadIndex`: they begin with a SuperBlob, which has the bytes that it tells, and its index.
/// * `BadBlob`: each blob lies in the SuperBlob behind the index, with a header, and no two of them overlap.
/// * of each code directory in turn, `BadDirectory`, `UnknownHash`, `BadPageSize`, `Scattered`, `BadSlots`, `BadLimit`: its
///   fields, slots and identifier lie in it; pages are hashed by SHA-1 or SHA-256; a page has at most 2^31 bytes, or all is
///   one page; pages aren't scattered; there is a slot for each; the last ends before the signature.
/// * `NoDirectory`: one of the code directories is in the main slot.
#[tactic(auto, unfolding(crate::specs::Signature::signature_fault))]
pub fn read_signature(
    alloc: Global,
    bytes: &[u8],
    dataoff: u32,
    datasize: u32,
) -> Result<Signature, SignatureFault>
    ensures { MatchResult result
        (λ found. (signature_fault dataoff datasize bytes.now ≡ None)
        × Tells dataoff (signature_bytes dataoff datasize bytes.now) found
        × ArePlaced dataoff (length bytes.now) found.directories.items)
        (λ e. e ≢ Memory → signature_fault dataoff datasize bytes.now ≡ Some e) }
{
    let signature = signature_bytes(bytes, dataoff, datasize)?;
    read_signature_bytes(alloc, signature, dataoff)
}
