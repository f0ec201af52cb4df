//! The words for what is told of a code signature.
ghost use Rattle.std.specs.Prelude.{◌≡◌, IfOk, map, string_bytes};
ghost use Rattle.arwen_cli_facts.specs.SignatureNames.{fault_name as fault_told, file_fault_name as file_fault_told, hash_name as hash_told, kind_name as kind_told, signature_fault_name as signature_fault_told};

use crate::signature::SignatureKind;
use macho_image::MachFault;
use macho_signatures::{HashKind, SignatureFault};
use macho_signing::SigningFault;
use std::alloc::{AllocError, Global};

/// Who made a signature, in words.
pub fn kind_name(kind: SignatureKind) -> &'static str
    ensures { result.now ≡ kind_told kind }
{
    match kind {
        SignatureKind::AdHoc => "ad hoc",
        SignatureKind::LinkerSigned => "linker-signed ad hoc",
        SignatureKind::Identity => "by an identity",
    }
}

/// The name of a kind of hash.
pub fn hash_name(hash: HashKind) -> &'static str
    ensures { result.now ≡ hash_told hash }
{
    match hash {
        HashKind::Sha1 => "sha1",
        HashKind::Sha256 => "sha256",
    }
}

/// The names of kinds of hashes. Error: `AllocError`.
pub fn hash_names(alloc: Global, hashes: &[HashKind]) -> Result<Vec<String>, AllocError>
    ensures { IfOk result (λ names.
        map string_bytes names.items ≡ map hash_told hashes.now) }
{
    let mut names = Vec::new(alloc);
    for hash in hashes {
        names.push(String::from_str(alloc, hash_name(*hash))?)?;
    }
    Ok(names)
}

/// The name of what a signature, or its file, is refused for.
pub fn fault_name(fault: SigningFault) -> &'static str
    ensures { result.now ≡ fault_told fault }
{
    match fault {
        SigningFault::File(fault) => file_fault_name(fault),
        SigningFault::BadCommand => "BadCommand",
        SigningFault::SeveralSignatures => "SeveralSignatures",
        SigningFault::InCommands => "InCommands",
        SigningFault::Signature(fault) => signature_fault_name(fault),
        SigningFault::ChangedSignature => "ChangedSignature",
        SigningFault::Memory => "Memory",
    }
}

/// The name of a fault of the file.
fn file_fault_name(fault: MachFault) -> &'static str
    ensures { result.now ≡ file_fault_told fault }
{
    match fault {
        MachFault::BadMagic => "BadMagic",
        MachFault::Truncated => "Truncated",
        MachFault::BadCommandSize => "BadCommandSize",
        MachFault::BadNameOffset => "BadNameOffset",
        MachFault::CountsDisagree => "CountsDisagree",
        MachFault::SliceOutside => "SliceOutside",
        MachFault::SlicesOverlap => "SlicesOverlap",
        MachFault::TooLong => "TooLong",
        MachFault::Memory => "Memory",
    }
}

/// The name of a fault of the signature itself.
fn signature_fault_name(fault: SignatureFault) -> &'static str
    ensures { result.now ≡ signature_fault_told fault }
{
    match fault {
        SignatureFault::Outside => "Outside",
        SignatureFault::NoSuperBlob => "NoSuperBlob",
        SignatureFault::BadLength => "BadLength",
        SignatureFault::BadIndex => "BadIndex",
        SignatureFault::BadBlob => "BadBlob",
        SignatureFault::BadDirectory => "BadDirectory",
        SignatureFault::UnknownHash => "UnknownHash",
        SignatureFault::BadPageSize => "BadPageSize",
        SignatureFault::Scattered => "Scattered",
        SignatureFault::BadSlots => "BadSlots",
        SignatureFault::BadLimit => "BadLimit",
        SignatureFault::NoDirectory => "NoDirectory",
        SignatureFault::Memory => "Memory",
    }
}
