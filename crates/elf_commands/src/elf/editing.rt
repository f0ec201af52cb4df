//! Edits of the bytes of stores.
ghost use Rattle.std.specs.Prelude.{◌≡◌, Some, IfErr, IfOk, IsTrue, OnOk, length, map, string_bytes};
ghost use Rattle.byte_store.specs.Known.{HasLength, IsAll, Stays};
ghost use Rattle.elf_commands_lines.specs.ElfAsked.{edits_asked, elf_asked};
ghost use Rattle.elf_commands_edits.specs.Groups.{group_model};
ghost use Rattle.elf_commands.specs.ElfEngine.{AreAsked, ElfMayFail};
ghost use Rattle.elf_commands.specs.ElfStores.{ChangesNothing, FailsElf, FailsElfAt, IsElfPatched, WritesEnd};
ghost use Rattle.elf_commands_edits.specs.Failures.{HasCause, HasCauseAt, HasWriteCause};
ghost use Rattle.elf_commands_lines.specs.Meaning.{elf_file_of, elf_command_model};
ghost use Rattle.elf_commands.specs.Noting.{TellsWantedAt};

use crate::asked::asked_by;
use crate::elf::engine::pieces_asked;
use crate::elf::opening::open_path;
use byte_store::Store;
use command_words::{NotDone, Notes, OpensOnce, RegularFiles, load};
use elf_commands_edits::{ElfCommandError, make_opened, tell};
use elf_commands_lines::{ElfCommand, GroupEdit};
use std::alloc::Global;
use std::rt::Files;

/// Edits the bytes of a store in their place, which are read whole, as `print_store` reads them. Only blocks
/// that differ are written, after all that may be refused or wants memory, and no second copy of the bytes is
/// made; an edit that changes nothing opens the store for writing too, and writes nothing, so that a file that
/// may not be written is refused whatever an edit finds in it. A refusal, and an error of a read, leave the bytes
/// as they were; a write that fails leaves what `make_difference` says. A command that prints, or that asks first
/// what is found, leaves the store as it is.
///
/// Where notes are wanted, the lines are answered that tell what a user should know of the edits, of the bytes as they
/// were and of the image after them, each with the command's path; else no text. They are made before anything is written.
/// Where some edits are of symbols or sections, there are none.
///
/// # Errors
///
/// `Io` with the error of the call that failed, which the store counted, or of those that `load_whole` and
/// `make_difference` make; the others tell why the edits are not made.
pub fn edit_store<S: Store>(
    alloc: Global,
    store: &mut S,
    command: &ElfCommand,
    notes: Notes,
) -> Result<String, ElfCommandError>
    ensures patched { OnOk result (IsElfPatched (elf_asked (elf_command_model command.now))
        (S.contents store.old) (S.contents store.new)) }
    ensures told { IfOk result (λ text. TellsWantedAt notes
        (elf_asked (elf_command_model command.now)) (elf_file_of (elf_command_model command.now))
        (S.contents store.old) (string_bytes text)) }
    ensures err { IfErr result (ElfMayFail (elf_command_model command.now)) }
    ensures left { IfErr result (FailsElf
        (WritesEnd S.may_fail_write S.may_take_none (S.failed store.old) (S.failed store.new))
        (elf_asked (elf_command_model command.now))
        (S.contents store.old) (S.contents store.new)) }
    ensures cause { IfErr result (HasCause S.may_fail_read S.may_fail_write S.may_take_none
        (S.contents store.old) (S.failed store.old) (S.failed store.new)) }
{
    let bytes = load(alloc, store)?;
    let asked = asked_by(alloc, command)?;
    edit_as_asked(alloc, store, bytes.as_slice(), command, asked, notes)
}

/// Makes the edits that a command asks for in a store that has these bytes, and answers the lines of their notes.
fn edit_as_asked<S: Store>(
    alloc: Global,
    store: &mut S,
    bytes: &[u8],
    command: &ElfCommand,
    asked: Option<Vec<GroupEdit>>,
    notes: Notes,
) -> Result<String, ElfCommandError>
    requires asked { AreAsked (elf_asked (elf_command_model command.now)) asked }
    requires whole { IsAll (S.contents store.old) bytes.now }
    requires length { HasLength (S.contents store.old) (length bytes.now) }
    ensures patched { OnOk result (IsElfPatched (elf_asked (elf_command_model command.now))
        (S.contents store.old) (S.contents store.new)) }
    ensures told { IfOk result (λ text. TellsWantedAt notes
        (elf_asked (elf_command_model command.now)) (elf_file_of (elf_command_model command.now))
        (S.contents store.old) (string_bytes text)) }
    ensures err { IfErr result (ElfMayFail (elf_command_model command.now)) }
    ensures left { IfErr result (FailsElf
        (WritesEnd S.may_fail_write S.may_take_none (S.failed store.old) (S.failed store.new))
        (elf_asked (elf_command_model command.now))
        (S.contents store.old) (S.contents store.new)) }
    ensures cause { IfErr result (HasWriteCause S.may_fail_write S.may_take_none
        (S.failed store.old) (S.failed store.new)) }
{
    match asked {
        Some(edits) => edit_loaded(alloc, store, bytes, command, edits, notes),
        None => Ok(String::new(alloc)),
    }
}

/// Makes these edits that a command asks for in a store that has these bytes, and answers the lines of their notes. Where the
/// edits find nothing to change, it is opened for writing and keeps its bytes.
fn edit_loaded<S: Store>(
    alloc: Global,
    store: &mut S,
    bytes: &[u8],
    command: &ElfCommand,
    edits: Vec<GroupEdit>,
    notes: Notes,
) -> Result<String, ElfCommandError>
    requires asked { edits_asked (elf_asked (elf_command_model command.now))
        ≡ Some (map group_model edits.items) }
    requires whole { IsAll (S.contents store.old) bytes.now }
    requires length { HasLength (S.contents store.old) (length bytes.now) }
    ensures patched { OnOk result (IsElfPatched (elf_asked (elf_command_model command.now))
        (S.contents store.old) (S.contents store.new)) }
    ensures told { IfOk result (λ text. TellsWantedAt notes
        (elf_asked (elf_command_model command.now)) (elf_file_of (elf_command_model command.now))
        (S.contents store.old) (string_bytes text)) }
    ensures err { IfErr result (ElfMayFail (elf_command_model command.now)) }
    ensures left { IfErr result (FailsElf
        (WritesEnd S.may_fail_write S.may_take_none (S.failed store.old) (S.failed store.new))
        (elf_asked (elf_command_model command.now))
        (S.contents store.old) (S.contents store.new)) }
    ensures idle { ChangesNothing (elf_asked (elf_command_model command.now)) bytes.now
        → OnOk result (Stays (S.contents store.old) (S.contents store.new)) }
    ensures opens { ChangesNothing (elf_asked (elf_command_model command.now)) bytes.now
        → OnOk result (IsTrue (S.is_writable store.new)) }
    ensures cause { IfErr result (HasWriteCause S.may_fail_write S.may_take_none
        (S.failed store.old) (S.failed store.new)) }
{
    let (difference, text) = pieces_asked(alloc, bytes, command, edits, notes)?;
    make_opened(alloc, store, bytes.len() as u64, &difference)?;
    Ok(text)
}

/// Edits the bytes of the store at the command's path, as `edit_store` does, and hands the store back with the lines
/// of the notes.
///
/// # Errors
///
/// Those of `edit_store`, and `Io` with what the opening answered. The store that was opened comes with the error, with
/// what it left there.
pub fn edit_path<'p, O: OpensOnce<'p>>(
    alloc: Global,
    files: O,
    command: &'p ElfCommand,
    notes: Notes,
) -> Result<(O::Opened, String), NotDone<O::Opened, ElfCommandError>>
    ensures patched { IfOk result (λ edited. IsElfPatched
        (elf_asked (elf_command_model command.now))
        (O.contents files (elf_file_of (elf_command_model command.now)))
        (O.Opened.contents edited.0)) }
    ensures told { IfOk result (λ edited. TellsWantedAt notes
        (elf_asked (elf_command_model command.now)) (elf_file_of (elf_command_model command.now))
        (O.contents files (elf_file_of (elf_command_model command.now)))
        (string_bytes edited.1)) }
    ensures err { IfErr result (λ refused.
        ElfMayFail (elf_command_model command.now) refused.error) }
    ensures left { IfErr result (λ refused. FailsElfAt
        O.Opened.may_fail_write O.Opened.may_take_none O.Opened.failed
        (elf_asked (elf_command_model command.now)) O.Opened.contents
        (O.contents files (elf_file_of (elf_command_model command.now)))
        refused.error refused.store) }
    ensures cause { IfErr result (λ refused. HasCauseAt
        (O.may_fail files (elf_file_of (elf_command_model command.now)))
        O.Opened.may_fail_read O.Opened.may_fail_write O.Opened.may_take_none O.Opened.failed
        (O.contents files (elf_file_of (elf_command_model command.now)))
        refused.error refused.store) }
{
    let mut store = open_path(files, command.path_to_binary())?;
    match edit_store(alloc, &mut store, command, notes) {
        Ok(text) => Ok((store, text)),
        Err(error) => Err(NotDone {
            error,
            store: Some(store),
        }),
    }
}

/// Edits a file in its place, and tells no notes.
pub(crate) fn edit_file<R: Files + AllocGlobal>(
    rt: &R,
    command: ElfCommand,
) -> Result<(), ElfCommandError>
    ensures { IfErr result (ElfMayFail (elf_command_model command)) }
{
    let answer = edit_lent(rt, &command, Notes::LeftOut);
    drop(command);
    answer?;
    Ok(())
}

/// The same, and then tells the notes, where they are wanted, on the standard error.
pub(crate) fn edit_telling<R: Files + Eprint + AllocGlobal>(
    rt: &R,
    command: ElfCommand,
    notes: Notes,
) -> Result<(), ElfCommandError>
    ensures { IfErr result (ElfMayFail (elf_command_model command)) }
{
    let answer = edit_lent(rt, &command, notes);
    drop(command);
    let text = answer?;
    tell(rt, text.as_str());
    Ok(())
}

/// Edits a file by a command that is lent, and answers the lines of the notes; no text where they are left out.
fn edit_lent<R: Files + AllocGlobal>(
    rt: &R,
    command: &ElfCommand,
    notes: Notes,
) -> Result<String, ElfCommandError>
    ensures { IfErr result (ElfMayFail (elf_command_model command.now)) }
{
    let files = RegularFiles { files: rt };
    match edit_path(rt.alloc(), &files, command, notes) {
        Ok((_store, text)) => Ok(text),
        Err(NotDone { error, store }) => {
            drop(store);
            Err(error)
        }
    }
}
