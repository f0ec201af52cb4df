//! Edits of a file by the fronts of its slices, behind which the slots of the pages that they touch are made anew.
ghost use Rattle.std.specs.Prelude.{◌≡◌, ◌≤◌, ◌++◌, IfErr, IfOk};
ghost use Rattle.byte_store.specs.Composed.{owned_patches};
ghost use Rattle.macho_commands.specs.Engine.{MayFail, signs_of};
ghost use Rattle.macho_commands.specs.Failures.{HasCause, WritesEnd};
ghost use Rattle.macho_commands.specs.Meaning.{macho_command_model};
ghost use Rattle.macho_commands.specs.Stores.{FailsPatch};
ghost use Rattle.macho_commands.specs.Renewed.{PatchesOr};
ghost use Rattle.macho_commands_stores.specs.Slices.{AreFrontsRead};

use crate::command::MachoCommand;
use crate::error::MachoCommandError;
use crate::noting::left_note;
use crate::signing::{Signing, Signs};
use crate::sliced::{Sliced, edited_fronts};
use byte_store::{OwnedPiece, Store};
use command_words::Notes;
use macho_commands_stores::{SliceFronts, lent_pieces, load_slots, write_changes_of};
use std::alloc::{AllocError, Global};

/// Edits a file in its place, of whose slices the fronts were read, and makes the slots of the pages that this touches anew,
/// as `patch_store` does, and answers the line of the note. `None`, where the fronts and the signatures don't tell these
/// slots: then the bytes are as they were.
pub(crate) fn patch_renewed<S: Store>(
    alloc: Global,
    store: &mut S,
    slices: &SliceFronts,
    command: &MachoCommand,
    notes: Notes,
    signing: Signing,
) -> Result<Option<String>, MachoCommandError>
    requires touched { signs_of signing (macho_command_model command.now) ≡ Signs.Touched }
    requires read { AreFrontsRead (S.contents store.old) slices.now }
    ensures patched { IfOk result (PatchesOr signing (macho_command_model command.now) notes
        (S.contents store.old) (S.contents store.new)) }
    ensures err { IfErr result (λ e. MayFail (macho_command_model command.now) e) }
    ensures left { IfErr result (FailsPatch
        (WritesEnd S.may_fail_write S.may_take_none (S.failed store.old) (S.failed store.new))
        signing (macho_command_model command.now) (S.contents store.old) (S.contents store.new)) }
    ensures grows { S.failed store.old ≤ S.failed store.new }
    ensures cause { IfErr result (HasCause S.may_fail_read S.may_fail_write S.may_take_none
        (S.contents store.old) (S.failed store.old) (S.failed store.new)) }
{
    let fronts = slices.fronts.as_slice();
    let Sliced { pieces, edited, .. } = edited_fronts(alloc, fronts, command, Notes::LeftOut)?;
    let Some(slots) = load_slots(alloc, store, fronts, edited.as_slice())? else {
        return Ok(None);
    };
    let path = command.path_to_binary();
    let text = left_note(alloc, slots.are_some_left, path, notes, Signs::Touched)?;
    let all = joined(pieces, slots.pieces)?;
    let lent = lent_pieces(alloc, all.as_slice())?;
    write_changes_of(store, slices.length, lent.as_slice())?;
    Ok(Some(text))
}

/// Pieces with others behind them. Error: `AllocError`.
fn joined(mut pieces: Vec<OwnedPiece>, more: Vec<OwnedPiece>) -> Result<Vec<OwnedPiece>, AllocError>
    ensures { IfOk result (λ all. owned_patches all.items
        ≡ owned_patches pieces.items ++ owned_patches more.items) }
{
    for piece in more {
        pieces.push(piece)?;
    }
    Ok(pieces)
}
