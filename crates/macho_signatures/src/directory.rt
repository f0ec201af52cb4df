//! Code directories: how the pages of a file are hashed, and where their hashes stand.
ghost use Rattle.std.specs.Prelude.{IfNone, ◌≡◌, ◌+◌, ◌<◌, ◌≤◌, ◌^◌, MatchResult, None, Some, drop, false, length, true};
ghost use Rattle.std.specs.Option.{MatchOption};
ghost use Rattle.macho_signatures.specs.Directory.{HasFields, are_slots_outside, code_limit, directory_fault, directory_of, first_nul, fixed_size, hash_kind_of, hash_size, hash_type, ident_offset, is_header_bad, is_identifier_outside, is_scattered, page_count, page_exponent, page_size, pages_fault, slot_size, version_of};
ghost use Rattle.macho_signatures.specs.declared.fault.SignatureFault.TheVariants.{BadDirectory};

use crate::fault::SignatureFault;
use crate::field::{number32, number64};

/// The magic of a code directory, `CSMAGIC_CODEDIRECTORY` of cs_blobs.h.
pub const DIRECTORY_MAGIC: u32 = 0xfade_0c02;

/// The earliest version of a code directory that is read.
pub const EARLIEST_VERSION: u32 = 0x2_0001;

/// The version from which on there is `scatterOffset`.
pub const VERSION_WITH_SCATTER: u32 = 0x2_0100;

/// The version from which on there is `teamOffset`.
pub const VERSION_WITH_TEAM: u32 = 0x2_0200;

/// The version from which on there is `codeLimit64`.
pub const VERSION_WITH_LIMIT_64: u32 = 0x2_0300;

/// The version from which on there are `execSegBase`, `execSegLimit` and `execSegFlags`.
pub const VERSION_WITH_EXEC_SEGMENT: u32 = 0x2_0400;

/// The version from which on there are `runtime` and `preEncryptOffset`.
pub const VERSION_WITH_RUNTIME: u32 = 0x2_0500;

/// The version from which on there are `linkageHashType` and the fields behind it.
pub const VERSION_WITH_LINKAGE: u32 = 0x2_0600;

/// The latest version that is read.
pub const LATEST_VERSION: u32 = 0x2_0600;

/// The largest exponent of a page size.
pub const MOST_EXPONENT: u8 = 31;

/// How pages are hashed, `hashType` of `CS_CodeDirectory`.
#[derive(Clone, Copy, Debug, PartialEq, Eq)]
pub enum HashKind {
    /// SHA-1, 20 bytes: `CS_HASHTYPE_SHA1`.
    Sha1,
    /// SHA-256, 32 bytes: `CS_HASHTYPE_SHA256`.
    Sha256,
}

impl HashKind {
    /// How many bytes a hash has.
    pub fn size(self) -> usize
        ensures { result ≡ hash_size self }
    {
        match self {
            HashKind::Sha1 => 20,
            HashKind::Sha256 => 32,
        }
    }
}

/// A code directory of a file: `CS_CodeDirectory` of cs_blobs.h. Positions are from the beginning of the thin file.
#[derive(Clone, Copy, Debug, PartialEq, Eq)]
pub struct Directory {
    /// The version of the directory's layout.
    pub version: u32,
    /// The flags of the signature, `CS_ADHOC` 0x2 and others.
    pub flags: u32,
    /// How pages are hashed.
    pub hash: HashKind,
    /// The bytes of a page. The last page may have fewer.
    pub page_size: u64,
    /// Where the last page ends: the signed bytes are those before it.
    pub limit: u64,
    /// How many pages there are, each with a code slot.
    pub count: u32,
    /// Where the slot of page 0 stands. The others follow.
    pub slots: usize,
    /// Where the identifier stands.
    pub identifier: usize,
    /// How many bytes the identifier has before its NUL.
    pub identifier_len: usize,
}

// How many bytes the fields of this version have.
fn fixed_size(version: u32) -> usize
    ensures value { result ≡ fixed_size version }
    ensures least { 44 ≤ result }
    ensures scatter { VERSION_WITH_SCATTER ≤ version → 48 ≤ result }
    ensures limit { VERSION_WITH_LIMIT_64 ≤ version → 64 ≤ result }
{
    if version < VERSION_WITH_SCATTER {
        44
    } else if version < VERSION_WITH_TEAM {
        48
    } else if version < VERSION_WITH_LIMIT_64 {
        52
    } else if version < VERSION_WITH_EXEC_SEGMENT {
        64
    } else if version < VERSION_WITH_RUNTIME {
        88
    } else if version < VERSION_WITH_LINKAGE {
        96
    } else {
        108
    }
}

// How many bytes the fields of a directory have, where its magic and its version are known and they are there.
#[tactic(auto, unfolding(crate::specs::Directory::is_header_bad))]
fn read_fixed(d: &[u8]) -> Result<usize, SignatureFault>
    ensures { MatchResult result
        (λ fixed. (is_header_bad d.now ≡ false) × (fixed ≡ fixed_size (version_of d.now))
        × (44 ≤ fixed) × (VERSION_WITH_SCATTER ≤ version_of d.now → 48 ≤ fixed)
        × (VERSION_WITH_LIMIT_64 ≤ version_of d.now → 64 ≤ fixed) × (fixed ≤ length d.now))
        (λ e. (is_header_bad d.now ≡ true) × (e ≡ BadDirectory)) }
{
    if d.len() < 12 || number32(d, 0) != DIRECTORY_MAGIC {
        return Err(SignatureFault::BadDirectory);
    }
    let version = number32(d, 8);
    if version < EARLIEST_VERSION || LATEST_VERSION < version {
        return Err(SignatureFault::BadDirectory);
    }
    let fixed = fixed_size(version);
    if d.len() < fixed {
        return Err(SignatureFault::BadDirectory);
    }
    Ok(fixed)
}

// Whether a slot lies before the end of the fields or past the directory's end.
#[tactic(auto, unfolding(crate::specs::Directory::are_slots_outside))]
fn are_slots_outside(d: &[u8], fixed: usize) -> bool
    requires least { 44 ≤ length d.now }
    requires within { fixed ≤ length d.now }
    ensures { result ≡ are_slots_outside fixed d.now }
{
    let first = u64::from(number32(d, 16));
    let size = u64::from(d[36]);
    let special = u64::from(number32(d, 24)) * size;
    let code = u64::from(number32(d, 28)) * size;
    first < fixed as u64 + special || (d.len() as u64) < first + code
}

// Where the first NUL stands.
fn first_nul(bytes: &[u8]) -> Option<usize>
    ensures { result ≡ first_nul bytes.now }
{
    bytes.iter().position(|byte| *byte == 0)
}

// How many bytes the identifier has, where it stands behind the fields and has a NUL.
#[tactic(auto, unfolding(crate::specs::Directory::is_identifier_outside))]
fn identifier_len(d: &[u8], fixed: usize) -> Option<usize>
    requires { 44 ≤ length d.now }
    ensures { MatchOption result
        (is_identifier_outside fixed d.now ≡ true)
        (λ len. (is_identifier_outside fixed d.now ≡ false)
        × (first_nul (drop (ident_offset d.now) d.now) ≡ Some len)) }
{
    let offset = number32(d, 20) as usize;
    if offset < fixed || d.len() < offset {
        return None;
    }
    first_nul(&d[offset..])
}

// The kind of hash of this type, where slots have the size of its hashes.
#[tactic(auto, unfolding(crate::specs::Directory::hash_kind_of))]
fn hash_kind(kind: u8, size: u8) -> Option<HashKind>
    ensures { result ≡ hash_kind_of kind size }
{
    match (kind, size) {
        (1, 20) => Some(HashKind::Sha1),
        (2, 32) => Some(HashKind::Sha256),
        _ => None,
    }
}

// Whether there is a table of places of pages.
#[tactic(auto, unfolding(crate::specs::Directory::is_scattered))]
fn is_scattered(d: &[u8]) -> bool
    requires least { 44 ≤ length d.now }
    requires scatter { VERSION_WITH_SCATTER ≤ version_of d.now → 48 ≤ length d.now }
    ensures { result ≡ is_scattered d.now }
{
    number32(d, 8) >= VERSION_WITH_SCATTER && number32(d, 44) != 0
}

// Where the signed bytes end.
#[tactic(auto, unfolding(crate::specs::Directory::code_limit))]
fn code_limit(d: &[u8]) -> u64
    requires least { 44 ≤ length d.now }
    requires limit { VERSION_WITH_LIMIT_64 ≤ version_of d.now → 64 ≤ length d.now }
    ensures { result ≡ code_limit d.now }
{
    let low = u64::from(number32(d, 32));
    if number32(d, 8) < VERSION_WITH_LIMIT_64 {
        return low;
    }
    let wide = number64(d, 56);
    if wide == 0 { low } else { wide }
}

// The bytes of a page.
fn page_size(exponent: u8, limit: u64) -> u64
    requires { exponent ≤ MOST_EXPONENT }
    ensures value { result ≡ page_size exponent limit }
    ensures filled { 0 < result }
{
    if exponent == 0 {
        return limit.max(1);
    }
    1 << exponent
}

// The first check of a directory's pages that fails, in a file whose signature begins at `dataoff`.
#[tactic(auto, unfolding(crate::specs::Directory::pages_fault))]
fn pages_fault(d: &[u8], dataoff: u32) -> Option<SignatureFault>
    requires least { 44 ≤ length d.now }
    requires scatter { VERSION_WITH_SCATTER ≤ version_of d.now → 48 ≤ length d.now }
    requires limit { VERSION_WITH_LIMIT_64 ≤ version_of d.now → 64 ≤ length d.now }
    ensures value { result ≡ pages_fault dataoff d.now }
    ensures exponent { IfNone result (page_exponent d.now ≤ MOST_EXPONENT) }
{
    let exponent = d[39];
    if exponent > MOST_EXPONENT {
        return Some(SignatureFault::BadPageSize);
    }
    if is_scattered(d) {
        return Some(SignatureFault::Scattered);
    }
    let limit = code_limit(d);
    if limit.div_ceil(page_size(exponent, limit)) != u64::from(number32(d, 28)) {
        return Some(SignatureFault::BadSlots);
    }
    if limit > u64::from(dataoff) {
        return Some(SignatureFault::BadLimit);
    }
    None
}

// How a directory's pages are hashed and how many bytes its identifier has, or the first check of the directory that fails.
#[tactic(auto, unfolding(crate::specs::Directory::directory_fault))]
fn check_directory(d: &[u8], dataoff: u32) -> Result<(HashKind, usize), SignatureFault>
    ensures { MatchResult result
        (λ found. (directory_fault dataoff d.now ≡ None) × HasFields d.now
        × (hash_kind_of (hash_type d.now) (slot_size d.now) ≡ Some found.0)
        × (first_nul (drop (ident_offset d.now) d.now) ≡ Some found.1))
        (λ e. directory_fault dataoff d.now ≡ Some e) }
{
    let fixed = read_fixed(d)?;
    if are_slots_outside(d, fixed) {
        return Err(SignatureFault::BadDirectory);
    }
    let Some(len) = identifier_len(d, fixed) else {
        return Err(SignatureFault::BadDirectory);
    };
    let Some(hash) = hash_kind(d[37], d[36]) else {
        return Err(SignatureFault::UnknownHash);
    };
    match pages_fault(d, dataoff) {
        Some(fault) => Err(fault),
        None => Ok((hash, len)),
    }
}

// The directory whose bytes begin at a place of the file, or the first check that fails.
#[tactic(auto, unfolding(crate::specs::Directory::directory_of))]
pub(crate) fn read_directory(
    d: &[u8],
    place: usize,
    dataoff: u32,
) -> Result<Directory, SignatureFault>
    requires { place < 2 ^ 63 }
    ensures { MatchResult result
        (λ found. (directory_fault dataoff d.now ≡ None) × (found ≡ directory_of place d.now))
        (λ e. directory_fault dataoff d.now ≡ Some e) }
{
    let (hash, identifier_len) = check_directory(d, dataoff)?;
    let limit = code_limit(d);
    Ok(Directory {
        version: number32(d, 8),
        flags: number32(d, 12),
        hash,
        page_size: page_size(d[39], limit),
        limit,
        count: number32(d, 28),
        slots: place + number32(d, 16) as usize,
        identifier: place + number32(d, 20) as usize,
        identifier_len,
    })
}
