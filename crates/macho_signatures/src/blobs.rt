ghost use Rattle.std.specs.Prelude.{◌≡◌, ◌≢◌, ◌+◌, ◌*◌, ◌<◌, ◌≤◌, ◌^◌, All, IfOk, MatchResult, None, Some, length, true, false};
ghost use Rattle.std.specs.List.{list_any};
ghost use Rattle.std.specs.List.Sorted.{IsNonDecreasingBy};
ghost use Rattle.std.specs.Option.{MatchOption};
ghost use Rattle.macho_signatures.specs.Blobs.{AreBlobs, blob_at, blob_count, blobs_fault, blobs_of, first_blobs, header_fault, index_end, is_bad_blob, first_there, some_overlap, super_length};
ghost use Rattle.macho_signatures.specs.declared.fault.SignatureFault.TheVariants.{BadBlob, Memory};

use crate::fault::SignatureFault;
use crate::field::number32;
use std::alloc::{AllocError, Global};

/// The magic of a SuperBlob, `CSMAGIC_EMBEDDED_SIGNATURE` of cs_blobs.h.
pub(crate) const SUPER_BLOB_MAGIC: u32 = 0xfade_0cc0;

/// The bytes of a SuperBlob's header, behind which its index stands.
pub(crate) const SUPER_BLOB_HEADER: usize = 12;

/// The bytes of an entry of the index.
pub(crate) const INDEX_ENTRY: usize = 8;

/// The bytes of a blob's header: magic and length.
pub(crate) const BLOB_HEADER: usize = 8;

/// A blob that the index of a SuperBlob names.
#[derive(Clone, Copy, Debug, PartialEq, Eq)]
pub(crate) struct Blob {
    /// The type of its slot, `CSSLOT_..` of cs_blobs.h.
    pub(crate) kind: u32,
    /// Where the blob begins, from the SuperBlob on.
    pub(crate) offset: u32,
    /// How many bytes the blob says that it has.
    pub(crate) size: u32,
}

impl Blob {
    // Where the blob ends: past 32 bits where its length says so.
    fn end(self) -> usize
        ensures { result ≡ self.offset + self.size }
    {
        self.offset as usize + self.size as usize
    }
}

// Where so many entries of the index end.
fn index_end(count: usize) -> usize
    requires { count < 2 ^ 32 }
    ensures { result ≡ index_end count }
{
    SUPER_BLOB_HEADER + INDEX_ENTRY * count
}

// How many blobs the index names, or the first check of the header that fails.
#[tactic(auto, unfolding(crate::specs::Blobs::header_fault))]
fn read_header(signature: &[u8]) -> Result<usize, SignatureFault>
    ensures { MatchResult result
        (λ count. (header_fault signature.now ≡ None) × (count ≡ blob_count signature.now)
        × (count < 2 ^ 32) × (12 ≤ length signature.now)
        × (index_end count ≤ super_length signature.now)
        × (super_length signature.now ≤ length signature.now))
        (λ e. header_fault signature.now ≡ Some e) }
{
    if signature.len() < SUPER_BLOB_HEADER || number32(signature, 0) != SUPER_BLOB_MAGIC {
        return Err(SignatureFault::NoSuperBlob);
    }
    let size = number32(signature, 4) as usize;
    if size < SUPER_BLOB_HEADER || signature.len() < size {
        return Err(SignatureFault::BadLength);
    }
    let count = number32(signature, 8) as usize;
    if size < index_end(count) {
        return Err(SignatureFault::BadIndex);
    }
    Ok(count)
}

// The blob that an entry of the index names, or none where it doesn't lie in the SuperBlob behind the index. `size` is the
// SuperBlob's length, and `end` where the index ends.
#[tactic(auto, unfolding(crate::specs::Blobs::blob_at))]
fn read_blob(signature: &[u8], size: usize, end: usize, i: usize) -> Option<Blob>
    requires within { size ≤ length signature.now }
    requires entry { index_end i + INDEX_ENTRY ≤ size }
    requires short { i < 2 ^ 32 }
    ensures { MatchOption result
        (is_bad_blob size end (blob_at signature.now i) ≡ true)
        (λ blob. (blob ≡ blob_at signature.now i) × (is_bad_blob size end blob ≡ false)) }
{
    let at = index_end(i);
    let offset = number32(signature, at + 4);
    let begin = offset as usize;
    if begin < end || size < begin + BLOB_HEADER {
        return None;
    }
    let blob = Blob {
        kind: number32(signature, at),
        offset,
        size: number32(signature, begin + 4),
    };
    if (blob.size as usize) < BLOB_HEADER || size < blob.end() {
        return None;
    }
    Some(blob)
}

// The blobs that the first `count` entries of the index name, where each lies in the SuperBlob behind the index.
fn read_index(alloc: Global, signature: &[u8], count: usize) -> Result<Vec<Blob>, SignatureFault>
    requires short { count < 2 ^ 32 }
    requires header { 12 ≤ length signature.now }
    requires index { index_end count ≤ super_length signature.now }
    requires within { super_length signature.now ≤ length signature.now }
    ensures { let is_bad = is_bad_blob (super_length signature.now) (index_end count) in
        MatchResult result
        (λ blobs. (blobs.items ≡ first_blobs signature.now count)
        × (list_any is_bad (first_blobs signature.now count) ≡ false))
        (λ e. e ≢ Memory
        → (list_any is_bad (first_blobs signature.now count) ≡ true) × (e ≡ BadBlob)) }
{
    let size = number32(signature, 4) as usize;
    let end = index_end(count);
    let mut blobs = Vec::new(alloc);
    for i in 0..count {
        let Some(blob) = read_blob(signature, size, end, i) else {
            return Err(SignatureFault::BadBlob);
        };
        blobs.push(blob)?;
    }
    Ok(blobs)
}

// The blobs of a SuperBlob, in the order of its index, or the first check that fails.
#[tactic(auto, unfolding(crate::specs::Blobs::blobs_fault, crate::specs::Blobs::blobs_of))]
pub(crate) fn read_blobs(alloc: Global, signature: &[u8]) -> Result<Vec<Blob>, SignatureFault>
    ensures { let fault = first_there (header_fault signature.now) (blobs_fault signature.now) in
        MatchResult result
        (λ blobs. (fault ≡ None) × (blobs.items ≡ blobs_of signature.now)
        × AreBlobs signature.now blobs.items)
        (λ e. e ≢ Memory → fault ≡ Some e) }
{
    let count = read_header(signature)?;
    let blobs = read_index(alloc, signature, count)?;
    if some_overlap(alloc, &blobs)? {
        return Err(SignatureFault::BadBlob);
    }
    Ok(blobs)
}

// Whether some two of the blobs overlap: looked for among neighbours, where they are sorted by where they begin.
fn some_overlap(alloc: Global, blobs: &[Blob]) -> Result<bool, AllocError>
    requires { All (λ blob. 0 < blob.size) blobs.now }
    ensures { IfOk result (λ answer. answer ≡ some_overlap blobs.now) }
{
    let mut sorted = Vec::from_slice(alloc, blobs)?;
    sorted.sort_unstable_by_key(|blob| blob.offset);
    Ok(neighbours_overlap(&sorted))
}

// Whether some two of the blobs overlap, where each begins no earlier than the one before it.
fn neighbours_overlap(blobs: &[Blob]) -> bool
    requires filled { All (λ blob. 0 < blob.size) blobs.now }
    requires rising { IsNonDecreasingBy (λ blob. blob.offset) blobs.now }
    ensures { result ≡ some_overlap blobs.now }
{
    let mut last_end = 0;
    for blob in blobs {
        if (blob.offset as usize) < last_end {
            return true;
        }
        last_end = blob.end();
    }
    false
}
