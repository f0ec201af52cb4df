//! Whether the slots of a file hold the hashes of their pages.
ghost use Rattle.std.specs.Prelude.{◌≡◌, ◌≢◌, All, IfOk, MatchResult, None, Some, length, map};
ghost use Rattle.macho_signatures.specs.Pages.{unfit_from};
ghost use Rattle.macho_signing.specs.Check.{checked_model, checking_fault, part_checked, parts_checked};
ghost use Rattle.macho_signing.specs.File.{IsInside, first_fault, part_bytes};
ghost use Rattle.macho_signing.specs.Thin.{Holds, thin_directories, thin_fault};
ghost use Rattle.macho_signing.specs.declared.fault.SigningFault.TheVariants.{Memory};

use crate::fault::SigningFault;
use crate::file::{Part, parts_of};
use crate::thin::read_thin;
use macho_signatures::{Signature, UnfitPage};
use std::alloc::{AllocError, Global};

/// What is found of the signature of a part of a file.
#[derive(Drop)]
pub struct Checked {
    /// The part.
    pub part: Part,
    /// The part's signature, if it has one.
    pub signature: Option<Signature>,
    /// The pages whose slots don't hold their hashes, by directories and then by pages; none without a signature.
    pub unfit: Vec<UnfitPage>,
}

/// What is found of the signature of each part of a file, in their order.
///
/// # Errors
///
/// The first check that fails, of the table of a fat file and then of each part in turn (`read_thin`), or `Memory` where a
/// growth was refused.
#[tactic(auto, unfolding(crate::specs::Check::checking_fault, crate::specs::Check::parts_checked))]
pub fn check_file(alloc: Global, bytes: &[u8]) -> Result<Vec<Checked>, SigningFault>
    ensures { MatchResult result
        (λ checked. (checking_fault bytes.now ≡ None)
        × (map checked_model checked.items ≡ parts_checked bytes.now))
        (λ e. e ≢ Memory → checking_fault bytes.now ≡ Some e) }
{
    let parts = parts_of(alloc, bytes)?;
    check_parts(alloc, bytes, &parts)
}

// What is found of the signature of each of some parts of a file.
fn check_parts(alloc: Global, bytes: &[u8], parts: &[Part]) -> Result<Vec<Checked>, SigningFault>
    requires { All (IsInside (length bytes.now)) parts.now }
    ensures { MatchResult result
        (λ checked. (first_fault (λ p. thin_fault (part_bytes bytes.now p)) parts.now ≡ None)
        × (map checked_model checked.items ≡ map (part_checked bytes.now) parts.now))
        (λ e. e ≢ Memory
        → first_fault (λ p. thin_fault (part_bytes bytes.now p)) parts.now ≡ Some e) }
{
    let mut all = Vec::new(alloc);
    for part in parts {
        let checked = check_part(alloc, bytes, *part)?;
        all.push(checked)?;
    }
    Ok(all)
}

// What is found of the signature of a part of a file.
fn check_part(alloc: Global, bytes: &[u8], part: Part) -> Result<Checked, SigningFault>
    requires { IsInside (length bytes.now) part }
    ensures { MatchResult result
        (λ checked. (thin_fault (part_bytes bytes.now part) ≡ None)
        × (checked_model checked ≡ part_checked bytes.now part))
        (λ e. e ≢ Memory → thin_fault (part_bytes bytes.now part) ≡ Some e) }
{
    let inner = &bytes[part.offset..part.offset + part.size];
    let signature = read_thin(alloc, inner)?;
    let unfit = unfit_pages(alloc, &signature, inner)?;
    Ok(Checked {
        part,
        signature,
        unfit,
    })
}

// The pages whose slots don't hold their hashes.
fn unfit_pages(
    alloc: Global,
    signature: &Option<Signature>,
    bytes: &[u8],
) -> Result<Vec<UnfitPage>, AllocError>
    requires { Holds bytes.now signature.now }
    ensures { IfOk result (λ unfit.
        unfit.items ≡ unfit_from 0 (thin_directories bytes.now) bytes.now) }
{
    match signature {
        Some(signature) => signature.unfit_pages(alloc, bytes),
        None => Ok(Vec::new(alloc)),
    }
}
