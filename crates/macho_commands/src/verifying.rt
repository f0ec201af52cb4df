//! Telling whether the code signatures of a file fit.
ghost use Rattle.std.specs.Prelude.{◌≡◌, IfErr, IfOk, None, OnOk, string_bytes};
ghost use Rattle.arwen_macho.specs.Found.{Finds, container_found};
ghost use Rattle.macho_commands.specs.Engine.{MayFail};
ghost use Rattle.macho_commands.specs.Meaning.{verify as verify_meaning};
ghost use Rattle.macho_commands.specs.Verifying.{IsReadWhole, TellsUnread, do_pages_fit};

use crate::error::MachoCommandError;
use arwen_macho::macho::{MachoContainer, MachoError};
use byte_store::{Opens, ReadError, load_up_to};
use command_words::{MOST_BYTES, RegularFiles};
use macho_commands_stores::{Verdict, verdict_of};
use macho_signing::check_file;
use std::alloc::Global;
use std::rt::Files;

/// Whether the slots of a file's code signatures hold the hashes of their pages, and a text that tells it.
///
/// # Errors
///
/// `Macho` where the bytes are no Mach-O file that is read, `Signing` where a signature is not, `Memory`.
pub fn verify_bytes(alloc: Global, bytes: &[u8]) -> Result<Verdict, MachoCommandError>
    ensures ok { IfOk result (λ verdict. verdict.do_all_fit ≡ do_pages_fit bytes.now) }
    ensures read { OnOk result (IsReadWhole bytes.now) }
    ensures err { IfErr result (TellsUnread bytes.now) }
{
    parse_once(alloc, bytes)?;
    let checked = check_file(alloc, bytes)?;
    Ok(verdict_of(alloc, &checked)?)
}

/// Parses the bytes of a file, and keeps nothing.
fn parse_once(alloc: Global, bytes: &[u8]) -> Result<(), MachoError>
    ensures ok { OnOk result (container_found bytes.now ≡ None) }
    ensures err { IfErr result (λ e. Finds e (container_found bytes.now)) }
{
    match MachoContainer::parse(alloc, bytes) {
        Ok(_) => Ok(()),
        Err(error) => Err(error),
    }
}

/// Prints what is found of the code signatures of the file at a path. An error where some page does not fit.
pub(crate) fn verify_file<R: Files + Print + AllocGlobal>(
    rt: &R,
    path: &String,
) -> Result<(), MachoCommandError>
    ensures { IfErr result (MayFail (verify_meaning (string_bytes path.now))) }
{
    let verdict = verdict_at(rt, path)?;
    rt.print(verdict.text.as_str())?;
    if verdict.do_all_fit {
        Ok(())
    } else {
        Err(MachoCommandError::Unfit)
    }
}

/// What is found of the code signatures of the file at a path.
fn verdict_at<R: Files + AllocGlobal>(rt: &R, path: &String) -> Result<Verdict, MachoCommandError>
    ensures { IfErr result (MayFail (verify_meaning (string_bytes path.now))) }
{
    let bytes = bytes_at(rt, path.as_str())?;
    verify_bytes(rt.alloc(), &bytes)
}

/// The first `MOST_BYTES` of the file at a path.
fn bytes_at<R: Files + AllocGlobal>(rt: &R, path: &str) -> Result<Vec<u8>, ReadError> {
    let files = RegularFiles { files: rt };
    let mut store = files.open(path)?;
    load_up_to(rt.alloc(), &mut store, MOST_BYTES)
}
