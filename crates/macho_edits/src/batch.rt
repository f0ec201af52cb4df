ghost use Rattle.std.specs.Prelude.{◌≡◌, IfOk, string_bytes};
ghost use Rattle.patch_bytes.specs.ByteString.{bytes_of_each};
ghost use Rattle.patch_bytes.specs.Bytes.{AreBytes};
ghost use Rattle.macho_edits.specs.declared.error.MachoError.TheVariants.{Memory};
ghost use Rattle.macho_edits.specs.Batch.{EditsAll, call_made, calls_of};
ghost use Rattle.macho_edits.specs.Edit.{AreTexts, call_of, calls_lent};
ghost use Rattle.macho_edits.specs.Whole.{TextsAreBytes};

use crate::draft::{Edit, edit_commands};
use crate::error::MachoError;
use macho_image::Ctx;
use patch_bytes::ByteString;
use std::alloc::{AllocError, AllocFailed, Global};
use thiserror::Error;

/// One of the five edits, with its texts.
#[derive(Debug, Drop)]
pub enum MachoEdit {
    /// Appends an rpath command with this text.
    AddRpath(String),
    /// Replaces the first rpath command with the first text by one with the second.
    ChangeRpath(String, String),
    /// Drops the first rpath command with this text.
    RemoveRpath(String),
    /// Gives the first command with the library's own name this name.
    ChangeInstallId(String),
    /// Gives the first command that loads the library of the first name the second name.
    ChangeInstallName(String, String),
}

/// Why a batch of edits was refused.
#[derive(Debug, Drop, Error)]
#[error("MachoBatchError")]
pub struct MachoBatchError {
    /// The edit that is refused, counted from 0; the number of edits where there is no room behind the
    /// last one. It tells nothing where there was no memory.
    pub index: usize,
    /// The fault of that edit.
    pub fault: MachoError,
}

impl From<AllocError> for MachoBatchError {
    ghost from_gives = { λ _ e. e.fault ≡ Memory };

    fn from(_refused: AllocError) -> MachoBatchError {
        MachoBatchError {
            index: 0,
            fault: MachoError::Memory,
        }
    }
}

impl<T: Drop> From<AllocFailed<T>> for MachoBatchError {
    ghost from_gives = { λ _ e. e.fault ≡ Memory };

    fn from(_refused: AllocFailed<T>) -> MachoBatchError {
        MachoBatchError {
            index: 0,
            fault: MachoError::Memory,
        }
    }
}

// A text, of which a proof then knows that it is bytes.
fn known_text(text: &str) -> &str
    ensures value { result.now ≡ text.now }
    ensures bytes { AreBytes result.now }
{
    text
}

// The text of a string.
fn text(string: &String) -> &str
    ensures value { result.now ≡ string_bytes string.now }
    ensures bytes { AreBytes result.now }
{
    known_text(string.as_str())
}

impl MachoEdit {
    // The edit with its texts lent.
    pub fn lend(&self) -> Edit<'_>
        ensures call { call_of result ≡ call_made self.now }
        ensures bytes { TextsAreBytes (call_of result) }
    {
        match self {
            MachoEdit::AddRpath(new) => Edit::AddRpath(text(new)),
            MachoEdit::ChangeRpath(old, new) => Edit::ChangeRpath(text(old), text(new)),
            MachoEdit::RemoveRpath(old) => Edit::RemoveRpath(text(old)),
            MachoEdit::ChangeInstallId(new) => Edit::ChangeInstallId(text(new)),
            MachoEdit::ChangeInstallName(old, new) => Edit::ChangeInstallName(text(old), text(new)),
        }
    }
}

/// The edits with their texts lent.
pub fn lend_all(alloc: Global, edits: &[MachoEdit]) -> Result<Vec<Edit<'_>>, AllocError>
    ensures calls { IfOk result (λ lent. calls_lent lent.items ≡ calls_of edits.now) }
    ensures texts { IfOk result (λ lent. AreTexts lent.items) }
{
    let mut lent = Vec::with_capacity(alloc, edits.len())?;
    for edit in edits {
        lent.push(edit.lend())?;
    }
    Ok(lent)
}

/// Edits a list of load commands, each edit upon what the one before it left. After an error the list
/// tells nothing.
pub fn edit_all(
    alloc: Global,
    ctx: Ctx,
    commands: &mut Vec<ByteString<'_>>,
    edits: &[Edit<'_>],
) -> Result<(), MachoBatchError>
    ensures { EditsAll ctx (calls_lent edits.now)
        (bytes_of_each commands.old.items) (bytes_of_each commands.new.items) result }
{
    for (index, edit) in edits.iter().enumerate() {
        if let Err(fault) = edit_commands(alloc, ctx, commands, *edit) {
            return Err(MachoBatchError { index, fault });
        }
    }
    Ok(())
}
