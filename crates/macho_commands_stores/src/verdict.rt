//! What is found of code signatures, as text.
ghost use Rattle.std.specs.Prelude.{◌≡◌, ◌≤◌, IfOk, length, map};
ghost use Rattle.std.specs.List.{list_all};
ghost use Rattle.macho_signing.specs.Check.{checked_model};
ghost use Rattle.macho_commands_stores.specs.Verdicts.{has_none};

use macho_signatures::{Directory, HashKind, Signature, UnfitPage};
use macho_signing::Checked;
use std::alloc::{AllocError, Global};

/// What is found of the code signatures of a file.
#[derive(Debug, Drop)]
pub struct Verdict {
    /// A line for each directory of each slice, and for each slice without a signature.
    pub text: String,
    /// Whether each slot holds the hash of its page.
    pub do_all_fit: bool,
}

/// What is found of the code signatures of slices. Error: `AllocError`.
pub fn verdict_of(alloc: Global, checked: &[Checked]) -> Result<Verdict, AllocError>
    ensures { IfOk result (λ verdict.
        verdict.do_all_fit ≡ list_all has_none (map checked_model checked.now)) }
{
    let text = verdict_text(alloc, checked)?;
    Ok(Verdict {
        text,
        do_all_fit: do_all_fit(checked),
    })
}

/// Whether no slice has a page that doesn't fit.
fn do_all_fit(checked: &[Checked]) -> bool
    ensures { result ≡ list_all has_none (map checked_model checked.now) }
{
    for part in checked {
        if !part.unfit.is_empty() {
            return false;
        }
    }
    true
}

/// The lines of all slices.
fn verdict_text(alloc: Global, checked: &[Checked]) -> Result<String, AllocError> {
    let mut text = String::new(alloc);
    for slice in 0..checked.len() {
        push_slice(alloc, &mut text, slice, &checked[slice])?;
    }
    Ok(text)
}

/// Appends the lines of a slice.
fn push_slice(
    alloc: Global,
    text: &mut String,
    slice: usize,
    checked: &Checked,
) -> Result<(), AllocError> {
    match &checked.signature {
        None => push_made(
            text,
            format!(in alloc; "slice {slice}: no code signature\n"),
        ),
        Some(signature) => push_directories(alloc, text, slice, signature, &checked.unfit),
    }
}

/// Appends a part that was made.
fn push_made(text: &mut String, part: Result<String, AllocError>) -> Result<(), AllocError> {
    text.push_str(part?.as_str())
}

/// Appends the lines of the directories of a slice. The pages come by directories.
fn push_directories(
    alloc: Global,
    text: &mut String,
    slice: usize,
    signature: &Signature,
    unfit: &[UnfitPage],
) -> Result<(), AllocError> {
    let mut at = 0;
    for number in 0..signature.directories.len() {
        let directory = &signature.directories[number];
        push_made(text, directory_head(alloc, slice, number, directory))?;
        let end = end_of(unfit, number, at);
        push_pages(alloc, text, directory, &unfit[at..end])?;
        at = end;
    }
    Ok(())
}

/// Where the pages of a directory end that begin at a place.
fn end_of(unfit: &[UnfitPage], directory: usize, begin: usize) -> usize
    requires { begin ≤ length unfit.now }
    ensures begin { begin ≤ result }
    ensures end { result ≤ length unfit.now }
{
    let mut end = begin;
    while end < unfit.len() && unfit[end].directory == directory {
        end += 1;
    }
    end
}

/// The beginning of the line of a directory.
fn directory_head(
    alloc: Global,
    slice: usize,
    number: usize,
    directory: &Directory,
) -> Result<String, AllocError> {
    let hash = match directory.hash {
        HashKind::Sha1 => "SHA-1",
        HashKind::Sha256 => "SHA-256",
    };
    format!(in alloc; "slice {slice}, directory {number}, {hash}: ")
}

/// Appends which pages of a directory don't fit, or that all do.
fn push_pages(
    alloc: Global,
    text: &mut String,
    directory: &Directory,
    unfit: &[UnfitPage],
) -> Result<(), AllocError> {
    let count = directory.count;
    if unfit.is_empty() {
        return push_made(text, format!(in alloc; "all {count} pages fit\n"));
    }
    let bad = unfit.len();
    push_made(
        text,
        format!(in alloc; "{bad} of {count} pages do not fit:"),
    )?;
    for page in unfit {
        let number = page.page;
        push_made(text, format!(in alloc; " {number}"))?;
    }
    text.push_str("\n")
}
