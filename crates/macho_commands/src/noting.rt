//! What a user should know of the edits that a command makes.
ghost use Rattle.std.specs.Prelude.{IfOk, string_bytes};
ghost use Rattle.macho_commands.specs.Notes.{TellsLeft, TellsOf};

use crate::signing::Signs;
use arwen_macho::macho::MachoType;
use command_words::Notes;
use macho_commands_stores::{is_signed_file, note_if};
use std::alloc::{AllocError, Global};

/// What is told of a signature that an edit left.
const UNFIT: &str = ": its code signature no longer fits: sign it again after the last edit\n";

/// What is told of a signature that is left where all slots of others are made anew.
const LEFT: &str = ": its code signature is an identity's, and is left as it was\n";

/// The line that tells what a user should know of an edit of a file: that it is signed. No text where it is left out.
pub(crate) fn note_wanted(
    alloc: Global,
    file: &MachoType<'_>,
    path: &str,
    notes: Notes,
) -> Result<String, AllocError>
    ensures { IfOk result (λ text. TellsOf notes path.now file.now (string_bytes text)) }
{
    match notes {
        Notes::Wanted => note_if(alloc, is_signed_file(file), path, UNFIT),
        Notes::LeftOut => Ok(String::new(alloc)),
    }
}

/// The line that tells of a signature that is left while others are made to fit. No text where it is left out.
pub(crate) fn left_note(
    alloc: Global,
    is_left: bool,
    path: &str,
    notes: Notes,
    signs: Signs,
) -> Result<String, AllocError>
    ensures { IfOk result (λ text. TellsLeft signs notes is_left path.now (string_bytes text)) }
{
    match (notes, signs) {
        (Notes::LeftOut, _) => Ok(String::new(alloc)),
        (Notes::Wanted, Signs::Whole) => note_if(alloc, is_left, path, LEFT),
        (Notes::Wanted, _) => note_if(alloc, is_left, path, UNFIT),
    }
}

/// Prints the lines of notes on the standard error, where there are any. It doesn't matter whether that fails.
pub(crate) fn tell<R: Eprint>(rt: &R, text: &str) {
    if !text.is_empty() {
        let _ = rt.eprint(text);
    }
}
