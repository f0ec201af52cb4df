//! Stores and files, edited as lines ask.
ghost use Rattle.std.specs.Prelude.{◌≡◌, ◌≤◌, IfErr, IfOk, OnOk, map};
ghost use Rattle.byte_store.specs.Known.{Stays};
ghost use Rattle.macho_commands.specs.Failures.{HasCause, WritesEnd};
ghost use Rattle.macho_commands.specs.Meaning.{batch as batch_meant, macho_command_model};
ghost use Rattle.macho_commands.specs.Stores.{FailsPatch};
ghost use Rattle.macho_commands.specs.declared.signing.Signing.TheVariants.{Left};
ghost use Rattle.macho_edits.specs.Batch.{calls_of};
ghost use Rattle.arwen_cli_options.specs.Options.{given_model};
ghost use Rattle.arwen_cli_install_names.specs.Editing.{AreKnownCalls, FailsNames, FailsPatchBy, HasNamesCause, IsNamed, IsPatchedBy, TellsNoCalls};

use crate::naming::{NamingFault, edits_for};
use arwen_cli_options::Given;
use arwen_macho::macho::MachoEdit;
use byte_store::{ReadError, Store, load_whole};
use command_words::{MOST_BYTES, Notes};
use macho_commands::{MachoCommand, MachoCommandError, Signing, batch, patch_store};
use std::alloc::{AllocError, Global};
use std::io;

/// Why a file isn't edited.
#[derive(Drop)]
pub enum NamesError {
    /// As a command for Mach-O files answers it.
    Command(MachoCommandError),
    /// The slices of the file need unlike edits.
    Unlike,
}

impl From<MachoCommandError> for NamesError {
    ghost use Rattle.std.specs.Prelude.{◌≡◌};
    ghost use Rattle.arwen_cli_install_names.specs.declared.editing.NamesError.TheVariants.{Command};

    ghost from_gives = { λ e error. error ≡ Command e };

    fn from(error: MachoCommandError) -> Self {
        NamesError::Command(error)
    }
}

impl From<NamingFault> for NamesError {
    ghost use Rattle.std.specs.Prelude.{◌≡◌};
    ghost use Rattle.arwen_cli_install_names.specs.Editing.{answer_to_naming};

    ghost from_gives = { λ fault error. error ≡ answer_to_naming fault };

    fn from(fault: NamingFault) -> Self {
        match fault {
            NamingFault::Command(error) => NamesError::Command(error),
            NamingFault::Unlike => NamesError::Unlike,
        }
    }
}

impl From<ReadError> for NamesError {
    ghost use Rattle.std.specs.Prelude.{◌≡◌};
    ghost use Rattle.macho_commands.specs.Errors.{answer_to_read};
    ghost use Rattle.arwen_cli_install_names.specs.declared.editing.NamesError.TheVariants.{Command};

    ghost from_gives = { λ e error. error ≡ Command (answer_to_read e) };

    fn from(error: ReadError) -> Self {
        NamesError::Command(MachoCommandError::from(error))
    }
}

impl From<io::Error> for NamesError {
    ghost use Rattle.std.specs.Prelude.{◌≡◌};
    ghost use Rattle.macho_commands.specs.declared.error.MachoCommandError.TheVariants.{Io};
    ghost use Rattle.arwen_cli_install_names.specs.declared.editing.NamesError.TheVariants.{Command};

    ghost from_gives = { λ e error. error ≡ Command (Io e) };

    fn from(error: io::Error) -> Self {
        NamesError::Command(MachoCommandError::Io(error))
    }
}

/// Makes the edits of the bytes of a store that options mean of them: all or none. Without edits they stay. Answers the line of
/// the note, where it is wanted, with the path.
///
/// # Errors
///
/// `Unlike` where options mean unlike edits of the slices; `Command` with what is found wrong in a file that isn't read, or
/// with the errors of `patch_store` and of `load_whole`.
pub fn name_store<S: Store>(
    alloc: Global,
    store: &mut S,
    path: &str,
    given: &[Given<'_>],
    notes: Notes,
) -> Result<String, NamesError>
    ensures named { OnOk result (IsNamed (map given_model given.now) path.now
        (S.contents store.old) (S.contents store.new)) }
    ensures left { IfErr result (FailsNames
        (WritesEnd S.may_fail_write S.may_take_none (S.failed store.old) (S.failed store.new))
        (map given_model given.now) path.now (S.contents store.old) (S.contents store.new)) }
    ensures cause { IfErr result (HasNamesCause S.may_fail_read S.may_fail_write S.may_take_none
        (S.contents store.old) (S.failed store.old) (S.failed store.new)) }
{
    let edits = edits_in(alloc, store, given)?;
    Ok(patch_by(alloc, store, path, edits, notes)?)
}

/// The edits that options mean of the bytes of a store.
fn edits_in<S: Store>(
    alloc: Global,
    store: &mut S,
    given: &[Given<'_>],
) -> Result<Vec<MachoEdit>, NamesError>
    ensures are { IfOk result (λ edits. AreKnownCalls (map given_model given.now)
        (S.contents store.old) (calls_of edits.items)) }
    ensures tells { IfErr result (TellsNoCalls (map given_model given.now) (S.contents store.old)) }
    ensures kept { Stays (S.contents store.old) (S.contents store.new) }
    ensures grows { S.failed store.old ≤ S.failed store.new }
    ensures cause { IfErr result (HasNamesCause S.may_fail_read S.may_fail_write S.may_take_none
        (S.contents store.old) (S.failed store.old) (S.failed store.new)) }
{
    let bytes = load_whole(alloc, store, MOST_BYTES)?;
    Ok(edits_for(alloc, bytes.as_slice(), given)?)
}

/// Makes edits of the bytes of a store, all or none.
fn patch_by<S: Store>(
    alloc: Global,
    store: &mut S,
    path: &str,
    edits: Vec<MachoEdit>,
    notes: Notes,
) -> Result<String, MachoCommandError>
    ensures patched { OnOk result (IsPatchedBy path.now (calls_of edits.items)
        (S.contents store.old) (S.contents store.new)) }
    ensures left { IfErr result (FailsPatchBy
        (WritesEnd S.may_fail_write S.may_take_none (S.failed store.old) (S.failed store.new))
        path.now (calls_of edits.items) (S.contents store.old) (S.contents store.new)) }
    ensures cause { IfErr result (HasCause S.may_fail_read S.may_fail_write S.may_take_none
        (S.contents store.old) (S.failed store.old) (S.failed store.new)) }
{
    if edits.is_empty() {
        return Ok(String::new(alloc));
    }
    let command = batch_command(alloc, path, edits)?;
    let answer = patch_store(alloc, store, &command, notes, Signing::Left);
    drop(command);
    answer
}

/// The command that makes these edits of the file at a path.
fn batch_command(
    alloc: Global,
    path: &str,
    edits: Vec<MachoEdit>,
) -> Result<MachoCommand, AllocError>
    ensures { IfOk result (λ command. macho_command_model command
        ≡ batch_meant path.now (calls_of edits.items)) }
{
    let path_to_binary = String::from_str(alloc, path)?;
    Ok(MachoCommand::Batch(batch::Args {
        path_to_binary,
        edits,
    }))
}
