//! What the code signature of a thin file says.
ghost use Rattle.std.specs.Prelude.{◌≡◌, ◌≢◌, IfOk, drop, length, map, option_map, string_bytes, take};
ghost use Rattle.macho_signatures.specs.Pages.{unfit_from};
ghost use Rattle.macho_signing.specs.Thin.{Holds, HoldsSignature};
ghost use Rattle.macho_signing.specs.declared.fault.SigningFault.TheVariants.{Memory};
ghost use Rattle.arwen_cli_facts.specs.SignatureFacts.{contents_facts, contents_model, facts_in, fault_facts, identifier_of, is_linker_signed, kind_of, lossily, signature_facts, signature_model};

use bstr::ByteSlice;
use macho_signatures::{Directory, HashKind, Signature};
use macho_signing::{SigningFault, read_thin};
use std::alloc::{AllocError, Global};

/// The flag of a code directory that a linker made (cs_blobs.h).
pub const CS_LINKER_SIGNED: u32 = 0x2_0000;

/// Who made a code signature.
#[derive(Clone, Copy, PartialEq, Eq)]
pub enum SignatureKind {
    /// No identity signed.
    AdHoc,
    /// No identity signed, and the first code directory says that a linker made it.
    LinkerSigned,
    /// An identity signed.
    Identity,
}

/// What a code signature says.
#[derive(Drop)]
pub struct SignatureContents {
    /// Who made the signature.
    pub kind: SignatureKind,
    /// The identifier in its first code directory, with U+FFFD for what is no character.
    pub identifier: String,
    /// How each code directory hashes pages, in the order of the signature.
    pub hashes: Vec<HashKind>,
    /// How many slots, of all code directories, don't hold the hash of their page.
    pub unfit_pages: u64,
}

/// What is told of a code signature.
#[derive(Drop)]
pub enum SignatureSummary {
    /// What the signature says.
    Read(SignatureContents),
    /// Why the signature isn't read.
    Refused(SigningFault),
}

/// What is told of the code signature of a thin file, or of a slice, where its load commands tell of one. Its pages are hashed,
/// so time grows with the bytes. Error: `AllocError`.
#[tactic(auto, unfolding(crate::specs::SignatureFacts::signature_facts))]
pub fn signature_summary(
    alloc: Global,
    bytes: &[u8],
) -> Result<Option<SignatureSummary>, AllocError>
    ensures { IfOk result (λ told. option_map signature_model told ≡ signature_facts bytes.now) }
{
    match read_thin(alloc, bytes) {
        Ok(signature) => summary_of(alloc, &signature, bytes),
        Err(fault) => fault_summary(fault),
    }
}

/// Why a signature isn't read; an error where there was no memory.
fn fault_summary(fault: SigningFault) -> Result<Option<SignatureSummary>, AllocError>
    ensures told { IfOk result (λ told. option_map signature_model told ≡ fault_facts fault) }
    ensures other { IfOk result (λ _. fault ≢ Memory) }
{
    match fault {
        SigningFault::Memory => Err(AllocError),
        fault => Ok(Some(SignatureSummary::Refused(fault))),
    }
}

/// What is told of a signature that is read, where there is one.
fn summary_of(
    alloc: Global,
    signature: &Option<Signature>,
    bytes: &[u8],
) -> Result<Option<SignatureSummary>, AllocError>
    requires { Holds bytes.now signature.now }
    ensures { IfOk result (λ told. option_map signature_model told ≡ facts_in bytes.now) }
{
    match signature {
        None => Ok(None),
        Some(signature) => {
            let contents = contents_of(alloc, signature, bytes)?;
            Ok(Some(SignatureSummary::Read(contents)))
        }
    }
}

/// What a signature says.
fn contents_of(
    alloc: Global,
    signature: &Signature,
    bytes: &[u8],
) -> Result<SignatureContents, AllocError>
    requires { HoldsSignature bytes.now signature.now }
    ensures { IfOk result (λ contents. contents_model contents
        ≡ contents_facts bytes.now signature.now.is_signed signature.now.directories.items) }
{
    let unfit_pages = signature.unfit_pages(alloc, bytes)?.len() as u64;
    let directories = signature.directories.as_slice();
    let hashes = hashes_of(alloc, directories)?;
    let identifier = text_of(alloc, identifier_of(directories, bytes))?;
    Ok(SignatureContents {
        kind: kind_of(signature.is_signed, directories),
        identifier,
        hashes,
        unfit_pages,
    })
}

/// Who made a signature.
fn kind_of(is_signed: bool, directories: &[Directory]) -> SignatureKind
    ensures { result ≡ kind_of is_signed directories.now }
{
    if is_signed {
        SignatureKind::Identity
    } else if is_linker_signed(directories) {
        SignatureKind::LinkerSigned
    } else {
        SignatureKind::AdHoc
    }
}

/// Whether the first code directory says that a linker made it.
fn is_linker_signed(directories: &[Directory]) -> bool
    ensures { result ≡ is_linker_signed directories.now }
{
    match directories.first() {
        None => false,
        Some(directory) => directory.flags & CS_LINKER_SIGNED != 0,
    }
}

/// The identifier in the first code directory.
fn identifier_of<'b>(directories: &[Directory], bytes: &'b [u8]) -> &'b [u8]
    ensures { result.now ≡ identifier_of bytes.now directories.now }
{
    match directories.first() {
        None => &[],
        Some(directory) => part_of(bytes, directory.identifier, directory.identifier_len),
    }
}

/// So many bytes from a position on; fewer where they end before.
fn part_of(bytes: &[u8], begin: usize, size: usize) -> &[u8]
    ensures { result.now ≡ take size (drop begin bytes.now) }
{
    if bytes.len() <= begin {
        return &[];
    }
    let rest = &bytes[begin..];
    if rest.len() <= size {
        return rest;
    }
    &rest[..size]
}

/// The text of bytes.
fn text_of(alloc: Global, bytes: &[u8]) -> Result<String, AllocError>
    ensures { IfOk result (λ text. string_bytes text ≡ lossily bytes.now) }
{
    let mut text = String::new(alloc);
    bytes.to_str_lossy_into(&mut text)?;
    Ok(text)
}

/// How each code directory hashes pages.
fn hashes_of(alloc: Global, directories: &[Directory]) -> Result<Vec<HashKind>, AllocError>
    ensures { IfOk result (λ hashes. hashes.items ≡ map (λ d. d.hash) directories.now) }
{
    let mut hashes = Vec::new(alloc);
    for directory in directories {
        hashes.push(directory.hash)?;
    }
    Ok(hashes)
}
