//! What is told of a code signature, as lines.
ghost use Rattle.std.specs.Prelude.{◌≡◌, ◌++◌, OnOk, codes, map, option_map, string_bytes};
ghost use Rattle.arwen_cli_show.specs.Lines.{contents_lines, lines, refusal_lines, signature_lines};
ghost use Rattle.arwen_cli_facts.specs.SignatureNames.{hash_name};
ghost use Rattle.arwen_cli_facts.specs.SignatureFacts.{contents_model, signature_model};

use crate::lines::{answer, put_line, put_lines, put_number};
use arwen_cli_facts::signature_names::{fault_name, hash_names, kind_name};
use arwen_cli_facts::{SignatureContents, SignatureSummary};
use macho_signatures::HashKind;
use macho_signing::SigningFault;
use std::alloc::{AllocError, Global};

/// Puts the lines of a code signature behind a text, where there is one.
pub(crate) fn put_signature(
    alloc: Global,
    out: &mut String,
    signature: &Option<SignatureSummary>,
) -> Result<(), AllocError>
    ensures { OnOk result (string_bytes out.new
        ≡ string_bytes out.old ++ signature_lines (option_map signature_model signature.now)) }
{
    match signature {
        None => Ok(()),
        Some(SignatureSummary::Read(contents)) => put_contents(alloc, out, contents),
        Some(SignatureSummary::Refused(fault)) => put_refusal(out, *fault),
    }
}

/// Puts the lines of a signature that is read.
#[tactic(auto, unfolding(crate::specs::Lines::contents_lines))]
fn put_contents(
    alloc: Global,
    out: &mut String,
    contents: &SignatureContents,
) -> Result<(), AllocError>
    ensures { OnOk result (string_bytes out.new
        ≡ string_bytes out.old ++ contents_lines (contents_model contents.now)) }
{
    put_line(out, "signature", kind_name(contents.kind))?;
    put_line(out, "identifier", contents.identifier.as_str())?;
    put_hashes(alloc, out, contents.hashes.as_slice())?;
    put_line(out, "pages_fit", answer(contents.unfit_pages == 0))?;
    put_number(alloc, out, "unfit_pages", contents.unfit_pages)
}

/// Puts a line for each kind of hash.
fn put_hashes(alloc: Global, out: &mut String, hashes: &[HashKind]) -> Result<(), AllocError>
    ensures { OnOk result (string_bytes out.new
        ≡ string_bytes out.old ++ lines (codes "hashes") (map hash_name hashes.now)) }
{
    let names = hash_names(alloc, hashes)?;
    put_lines(out, "hashes", names.as_slice())
}

/// Puts the lines of a signature that isn't read.
#[tactic(auto, unfolding(crate::specs::Lines::refusal_lines))]
fn put_refusal(out: &mut String, fault: SigningFault) -> Result<(), AllocError>
    ensures { OnOk result (string_bytes out.new ≡ string_bytes out.old ++ refusal_lines fault) }
{
    put_line(out, "signature", "unreadable")?;
    put_line(out, "refusal", fault_name(fault))
}
