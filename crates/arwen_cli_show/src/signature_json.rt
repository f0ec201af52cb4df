//! What is told of a code signature, as members of a JSON object.
ghost use Rattle.std.specs.Prelude.{◌≡◌, OnOk, codes, map, option_map};
ghost use Rattle.serde_json.specs.Data.{put as with_member};
ghost use Rattle.serde_json.specs.View.{members_view};
ghost use Rattle.arwen_cli_show.specs.Json.{texts_data, with_contents, with_refusal, with_signature};
ghost use Rattle.arwen_cli_facts.specs.SignatureNames.{hash_name};
ghost use Rattle.arwen_cli_facts.specs.SignatureFacts.{contents_model, signature_model};

use crate::members::{Members, put_answer, put_number, put_text, put_texts};
use arwen_cli_facts::signature_names::{fault_name, hash_names, kind_name};
use arwen_cli_facts::{SignatureContents, SignatureSummary};
use macho_signatures::HashKind;
use macho_signing::SigningFault;
use std::alloc::{AllocError, Global};

/// Puts what is told of a code signature among members, where there is one.
pub(crate) fn put_signature(
    alloc: Global,
    members: &mut Members,
    signature: &Option<SignatureSummary>,
) -> Result<(), AllocError>
    ensures { OnOk result (members_view members.new.entries
        ≡ with_signature (option_map signature_model signature.now)
        (members_view members.old.entries)) }
{
    match signature {
        None => Ok(()),
        Some(SignatureSummary::Read(contents)) => put_contents(alloc, members, contents),
        Some(SignatureSummary::Refused(fault)) => put_refusal(alloc, members, *fault),
    }
}

/// Puts what a signature says.
#[tactic(auto, unfolding(crate::specs::Json::with_contents))]
fn put_contents(
    alloc: Global,
    members: &mut Members,
    contents: &SignatureContents,
) -> Result<(), AllocError>
    ensures { OnOk result (members_view members.new.entries
        ≡ with_contents (contents_model contents.now) (members_view members.old.entries)) }
{
    put_text(alloc, members, "signature", kind_name(contents.kind))?;
    put_text(alloc, members, "identifier", contents.identifier.as_str())?;
    put_hashes(alloc, members, contents.hashes.as_slice())?;
    put_answer(alloc, members, "pages_fit", contents.unfit_pages == 0)?;
    put_number(alloc, members, "unfit_pages", contents.unfit_pages)
}

/// Puts kinds of hashes.
fn put_hashes(alloc: Global, members: &mut Members, hashes: &[HashKind]) -> Result<(), AllocError>
    ensures { OnOk result (members_view members.new.entries
        ≡ with_member (codes "hashes") (texts_data (map hash_name hashes.now))
        (members_view members.old.entries)) }
{
    let names = hash_names(alloc, hashes)?;
    put_texts(alloc, members, "hashes", names.as_slice())
}

/// Puts why a signature isn't read.
#[tactic(auto, unfolding(crate::specs::Json::with_refusal))]
fn put_refusal(alloc: Global, members: &mut Members, fault: SigningFault) -> Result<(), AllocError>
    ensures { OnOk result (members_view members.new.entries
        ≡ with_refusal fault (members_view members.old.entries)) }
{
    put_text(alloc, members, "signature", "unreadable")?;
    put_text(alloc, members, "refusal", fault_name(fault))
}
