//! Edits of a fat file by the fronts of its slices.
ghost use Rattle.std.specs.Prelude.{◌≡◌, ◌≢◌, [], All, IfErr, IfOk, OnOk, map, string_bytes};
ghost use Rattle.byte_store.specs.Composed.{owned_patches};
ghost use Rattle.macho_commands.specs.Engine.{MayFail, Tells, asked, outcome_of, signs_of};
ghost use Rattle.macho_commands.specs.Failures.{HasCause, WritesEnd};
ghost use Rattle.macho_commands.specs.Meaning.{file_of, macho_command_model};
ghost use Rattle.macho_commands.specs.Notes.{TellsWanted, TellsWantedAt};
ghost use Rattle.macho_commands.specs.Sliced.{AddsFront, IsLoadedFront, MakesEdited, MakesFronts, RefusesFronts, TellsFronts};
ghost use Rattle.macho_commands.specs.Stores.{FailsPatch, Patched};
ghost use Rattle.macho_commands_stores.specs.Slices.{AreSlicesRead};

use crate::command::MachoCommand;
use crate::engine::fronts_of;
use crate::error::MachoCommandError;
use crate::signing::{Signing, Signs};
use byte_store::{OwnedPiece, Store};
use command_words::Notes;
use macho_commands_stores::{
    SliceFront, SliceFronts, front_changes, lent_pieces, push_changes_at, standing_pieces,
    write_changes_of,
};
use std::alloc::Global;

/// What edits write over the slices of a fat file, and the line of the note.
#[derive(Drop)]
pub(crate) struct Sliced {
    /// The pieces, those of the first slice first.
    pub(crate) pieces: Vec<OwnedPiece>,
    /// The bytes that the pieces make of each front.
    pub(crate) edited: Vec<Vec<u8>>,
    /// The line; no text where it is left out.
    text: String,
}

/// What edits make of the front of a slice, and the line of the note.
#[derive(Drop)]
struct Edited {
    /// The front.
    bytes: Vec<u8>,
    /// The line; no text where it is left out.
    text: String,
}

/// Edits a fat file in its place, of whose slices the fronts were read, as `patch_store` does.
pub(crate) fn patch_slices<S: Store>(
    alloc: Global,
    store: &mut S,
    slices: &SliceFronts,
    command: &MachoCommand,
    notes: Notes,
    signing: Signing,
) -> Result<String, MachoCommandError>
    requires leaves { signs_of signing (macho_command_model command.now) ≡ Signs.Nothing }
    requires read { AreSlicesRead (S.contents store.old) slices.now }
    ensures patched { OnOk result (Patched signing (macho_command_model command.now)
        (S.contents store.old) (S.contents store.new)) }
    ensures told { IfOk result (λ text. TellsWantedAt signing (macho_command_model command.now)
        notes (S.contents store.old) (string_bytes text)) }
    ensures err { IfErr result (λ e. MayFail (macho_command_model command.now) e) }
    ensures left { IfErr result (FailsPatch
        (WritesEnd S.may_fail_write S.may_take_none (S.failed store.old) (S.failed store.new))
        signing (macho_command_model command.now) (S.contents store.old) (S.contents store.new)) }
    ensures cause { IfErr result (HasCause S.may_fail_read S.may_fail_write S.may_take_none
        (S.contents store.old) (S.failed store.old) (S.failed store.new)) }
{
    let Sliced { pieces, text, .. } = edited_fronts(
        alloc,
        slices.fronts.as_slice(),
        command,
        notes,
    )?;
    let lent = lent_pieces(alloc, pieces.as_slice())?;
    write_changes_of(store, slices.length, lent.as_slice())?;
    Ok(text)
}

/// What edits write over fronts of slices, which a first slice that refuses them leaves undecided.
pub(crate) fn edited_fronts(
    alloc: Global,
    fronts: &[SliceFront],
    command: &MachoCommand,
    notes: Notes,
) -> Result<Sliced, MachoCommandError>
    requires { All IsLoadedFront fronts.now }
    ensures makes { IfOk result (λ made. MakesFronts (asked (macho_command_model command.now))
        fronts.now (owned_patches made.pieces.items)) }
    ensures edited { IfOk result (λ made. MakesEdited (asked (macho_command_model command.now))
        fronts.now (map (λ new. new.items) made.edited.items) (owned_patches made.pieces.items)) }
    ensures told { IfOk result (λ made. TellsFronts notes
        (file_of (macho_command_model command.now)) fronts.now (string_bytes made.text)) }
    ensures err { IfErr result (RefusesFronts (asked (macho_command_model command.now))
        fronts.now) }
{
    let mut pieces = Vec::new(alloc);
    let mut edited = Vec::new(alloc);
    let mut text = String::new(alloc);
    for front in fronts {
        let made = push_edited(alloc, &mut pieces, front, command, notes)?;
        edited.push(made.bytes)?;
        text = first_text(text, made.text);
    }
    Ok(Sliced {
        pieces,
        edited,
        text,
    })
}

/// Puts what edits write over the front of a slice behind pieces, and answers what it makes of it and the line of the note.
fn push_edited(
    alloc: Global,
    pieces: &mut Vec<OwnedPiece>,
    front: &SliceFront,
    command: &MachoCommand,
    notes: Notes,
) -> Result<Edited, MachoCommandError>
    requires { IsLoadedFront front.now }
    ensures adds { IfOk result (λ made. AddsFront (asked (macho_command_model command.now))
        front.now made.bytes.items (owned_patches pieces.old.items)
        (owned_patches pieces.new.items)) }
    ensures told { IfOk result (λ made. TellsWanted notes
        (file_of (macho_command_model command.now)) front.now.bytes.items
        (string_bytes made.text)) }
    ensures err { IfErr result (λ e. Tells
        (outcome_of (asked (macho_command_model command.now)) front.now.bytes.items) e) }
{
    let (fronts, text) = fronts_of(alloc, front.bytes.as_slice(), command, notes)?;
    let mut bytes = Vec::from_slice(alloc, front.bytes.as_slice())?;
    let changes = front_changes(alloc, &mut bytes, fronts.as_slice())?;
    let standing = standing_pieces(alloc, bytes.as_slice(), changes.as_slice())?;
    push_changes_at(alloc, pieces, front.offset, standing.as_slice())?;
    drop(standing);
    Ok(Edited { bytes, text })
}

/// The first of two texts, or the second where that has no bytes.
fn first_text(first: String, second: String) -> String
    ensures none { string_bytes first ≡ [] → string_bytes result ≡ string_bytes second }
    ensures some { string_bytes first ≢ [] → string_bytes result ≡ string_bytes first }
{
    if first.is_empty() { second } else { first }
}
