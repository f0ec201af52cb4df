ghost use Rattle.std.specs.Prelude.{◌≡◌, ◌+◌, ◌≤◌, ◌<◌, length, [], position, slice_index_or, slice_set, vec_len, IfSome};
ghost use Rattle.patch_bytes.specs.ByteString.{bytes_of_each};
ghost use Rattle.macho_edits.specs.Built.{dylib_built, rpath_built};
ghost use Rattle.macho_edits.specs.Call.Call.{add_rpath, change_install_id, change_install_name, change_rpath, remove_rpath};
ghost use Rattle.macho_image.specs.Command.{dylib_of};
ghost use Rattle.macho_edits.specs.Call.Cause.{name_missing, rpath_missing};
ghost use Rattle.macho_edits.specs.Edit.{Edits, GivesBuilt, call_of};
ghost use Rattle.macho_edits.specs.Edited.{is_id, is_library_named, is_rpath_named};
ghost use Rattle.macho_edits.specs.Refused.{cause_of};

use crate::commands::{DlibCommandBuilder, RpathCommandBuilder};
use crate::error::MachoError;
use macho_image::command::{DYLIB_COMMAND_SIZE, LC_ID_DYLIB, LC_RPATH, RPATH_COMMAND_SIZE};
use macho_image::field::{dylib_of, number32};
use macho_image::kind::is_load_kind;
use macho_image::text::command_text;
use macho_image::{Ctx, DylibCommand};
use patch_bytes::{ByteOrder2, ByteString};
use std::alloc::Global;

/// One of the five edits, with texts that are lent.
#[derive(Clone, Copy)]
pub enum Edit<'t> {
    /// Appends an rpath command with this text.
    AddRpath(&'t str),
    /// Replaces the first rpath command with the first text by one with the second.
    ChangeRpath(&'t str, &'t str),
    /// Drops the first rpath command with this text.
    RemoveRpath(&'t str),
    /// Gives the first command with the library's own name this name.
    ChangeInstallId(&'t str),
    /// Gives the first command that loads the library of the first name the second name.
    ChangeInstallName(&'t str, &'t str),
}

// Whether a command is an rpath command with this text.
#[tactic(auto, unfolding(crate::specs::Edited::is_rpath_named))]
fn names_rpath(order: ByteOrder2, text: &str, command: &[u8]) -> bool
    ensures { result ≡ is_rpath_named order text.now command.now }
{
    command.len() >= RPATH_COMMAND_SIZE
        && number32(command, 0, order) == LC_RPATH
        && command_text(order, command) == text.as_bytes()
}

// Whether a command holds the library's own name.
#[tactic(auto, unfolding(crate::specs::Edited::is_id))]
fn names_itself(order: ByteOrder2, command: &[u8]) -> bool
    ensures { result ≡ is_id order command.now }
{
    command.len() >= DYLIB_COMMAND_SIZE && number32(command, 0, order) == LC_ID_DYLIB
}

// Whether a command loads the library of this name.
#[tactic(auto, unfolding(crate::specs::Edited::is_library_named))]
fn names_library(order: ByteOrder2, text: &str, command: &[u8]) -> bool
    ensures { result ≡ is_library_named order text.now command.now }
{
    command.len() >= DYLIB_COMMAND_SIZE
        && is_load_kind(number32(command, 0, order))
        && command_text(order, command) == text.as_bytes()
}

// The fields of the library command at a place.
fn dylib_at(order: ByteOrder2, commands: &[ByteString<'_>], place: usize) -> DylibCommand
    requires inside { place < length (bytes_of_each commands.now) }
    requires fixed { 24 ≤ length (slice_index_or (bytes_of_each commands.now) place []) }
    ensures { result ≡ dylib_of order (slice_index_or (bytes_of_each commands.now) place []) }
{
    dylib_of(order, commands[place].as_slice())
}

// The place of the first rpath command with this text.
fn rpath_place(order: ByteOrder2, commands: &[ByteString<'_>], text: &str) -> Option<usize>
    ensures { result
        ≡ position (λ command. is_rpath_named order text.now command.bytes) commands.now }
{
    commands
        .iter()
        .position(|command| names_rpath(order, text, command.as_slice()))
}

// The place of the first command with the library's own name.
fn id_place(order: ByteOrder2, commands: &[ByteString<'_>]) -> Option<usize>
    ensures { result ≡ position (λ command. is_id order command.bytes) commands.now }
{
    commands
        .iter()
        .position(|command| names_itself(order, command.as_slice()))
}

// The place of the first command that loads the library of this name.
fn library_place(order: ByteOrder2, commands: &[ByteString<'_>], text: &str) -> Option<usize>
    ensures { result
        ≡ position (λ command. is_library_named order text.now command.bytes) commands.now }
{
    commands
        .iter()
        .position(|command| names_library(order, text, command.as_slice()))
}

// The error of a run path that is not there.
fn missing_rpath(alloc: Global, text: &str) -> MachoError
    ensures { IfSome (cause_of result) (λ cause. cause ≡ rpath_missing text.now) }
{
    match String::from_str(alloc, text) {
        Ok(text) => MachoError::RpathMissing(text),
        Err(_) => MachoError::Memory,
    }
}

// The error of a library that is not there.
fn missing_library(alloc: Global, text: &str) -> MachoError
    ensures { IfSome (cause_of result) (λ cause. cause ≡ name_missing text.now) }
{
    match String::from_str(alloc, text) {
        Ok(text) => MachoError::DylibNameMissing(text),
        Err(_) => MachoError::Memory,
    }
}

// The rpath command with this text.
fn built_rpath(alloc: Global, ctx: Ctx, text: &str) -> Result<Vec<u8>, MachoError>
    ensures { GivesBuilt (rpath_built ctx text.now) result }
{
    let (_, built) = RpathCommandBuilder::new(text, ctx).build(alloc)?;
    Ok(built)
}

// The library command with this text, with the kind and the numbers of an old one.
fn built_dylib(
    alloc: Global,
    ctx: Ctx,
    text: &str,
    old: DylibCommand,
) -> Result<Vec<u8>, MachoError>
    ensures { GivesBuilt (dylib_built ctx text.now old) result }
{
    let (_, built) = DlibCommandBuilder::new(text, old, ctx).build(alloc)?;
    Ok(built)
}

// Puts a built command in the place of another.
fn replace(commands: &mut Vec<ByteString<'_>>, place: usize, built: Vec<u8>)
    requires { place < vec_len commands.old }
    ensures { bytes_of_each commands.new.items
        ≡ slice_set (bytes_of_each commands.old.items) place built.items }
{
    commands[place] = ByteString::owned(built);
}

// Appends an rpath command with this text.
fn append_rpath(
    alloc: Global,
    ctx: Ctx,
    commands: &mut Vec<ByteString<'_>>,
    new: &str,
) -> Result<(), MachoError>
    ensures { Edits ctx (add_rpath new.now)
        (bytes_of_each commands.old.items) (bytes_of_each commands.new.items) result }
{
    let built = built_rpath(alloc, ctx, new)?;
    commands.push(ByteString::owned(built))?;
    Ok(())
}

// Replaces the first rpath command with the old text by one with the new text.
fn replace_rpath(
    alloc: Global,
    ctx: Ctx,
    commands: &mut Vec<ByteString<'_>>,
    old: &str,
    new: &str,
) -> Result<(), MachoError>
    ensures { Edits ctx (change_rpath old.now new.now)
        (bytes_of_each commands.old.items) (bytes_of_each commands.new.items) result }
{
    let Some(place) = rpath_place(ctx.le, commands.as_slice(), old) else {
        return Err(missing_rpath(alloc, old));
    };
    let built = built_rpath(alloc, ctx, new)?;
    replace(commands, place, built);
    Ok(())
}

// Drops the first rpath command with this text.
fn drop_rpath(
    alloc: Global,
    ctx: Ctx,
    commands: &mut Vec<ByteString<'_>>,
    old: &str,
) -> Result<(), MachoError>
    ensures { Edits ctx (remove_rpath old.now)
        (bytes_of_each commands.old.items) (bytes_of_each commands.new.items) result }
{
    let Some(place) = rpath_place(ctx.le, commands.as_slice(), old) else {
        return Err(missing_rpath(alloc, old));
    };
    commands.remove(place);
    Ok(())
}

// Gives the first command with the library's own name another name.
fn replace_id(
    alloc: Global,
    ctx: Ctx,
    commands: &mut Vec<ByteString<'_>>,
    new: &str,
) -> Result<(), MachoError>
    ensures { Edits ctx (change_install_id new.now)
        (bytes_of_each commands.old.items) (bytes_of_each commands.new.items) result }
{
    let Some(place) = id_place(ctx.le, commands.as_slice()) else {
        return Err(MachoError::DylibIdMissing);
    };
    let old = dylib_at(ctx.le, commands.as_slice(), place);
    let built = built_dylib(alloc, ctx, new, old)?;
    replace(commands, place, built);
    Ok(())
}

// Gives the first command that loads the library of the old name the new name.
fn replace_library(
    alloc: Global,
    ctx: Ctx,
    commands: &mut Vec<ByteString<'_>>,
    old: &str,
    new: &str,
) -> Result<(), MachoError>
    ensures { Edits ctx (change_install_name old.now new.now)
        (bytes_of_each commands.old.items) (bytes_of_each commands.new.items) result }
{
    let Some(place) = library_place(ctx.le, commands.as_slice(), old) else {
        return Err(missing_library(alloc, old));
    };
    let old = dylib_at(ctx.le, commands.as_slice(), place);
    let built = built_dylib(alloc, ctx, new, old)?;
    replace(commands, place, built);
    Ok(())
}

/// Edits a list of load commands. After an error the list tells nothing. Errors: `RpathMissing`, `DylibIdMissing`,
/// `DylibNameMissing` where the command to edit is not there; `CommandBuilderError` where the new one cannot be built;
/// `Memory`.
pub fn edit_commands(
    alloc: Global,
    ctx: Ctx,
    commands: &mut Vec<ByteString<'_>>,
    edit: Edit<'_>,
) -> Result<(), MachoError>
    ensures { Edits ctx (call_of edit.entry)
        (bytes_of_each commands.old.items) (bytes_of_each commands.new.items) result }
{
    match edit {
        Edit::AddRpath(new) => append_rpath(alloc, ctx, commands, new),
        Edit::ChangeRpath(old, new) => replace_rpath(alloc, ctx, commands, old, new),
        Edit::RemoveRpath(old) => drop_rpath(alloc, ctx, commands, old),
        Edit::ChangeInstallId(new) => replace_id(alloc, ctx, commands, new),
        Edit::ChangeInstallName(old, new) => replace_library(alloc, ctx, commands, old, new),
    }
}
