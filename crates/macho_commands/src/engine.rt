//! New bytes of old ones.
ghost use Rattle.std.specs.Prelude.{◌≡◌, ◌≢◌, ◌≤◌, ◌∷◌, [], All, None, Ok, Some, IfOk, IfErr, IsTrue, OnOk, length, string_bytes};
ghost use Rattle.macho_edits.specs.Batch.{calls_of};
ghost use Rattle.arwen_macho.specs.Fronts.{LiesIn, fronts_on};
ghost use Rattle.macho_commands.specs.Engine.{AreAsked, AreNamed, IsSignedOutcome, IsSigningError, MayFail, Outcome};
ghost use Rattle.macho_commands.specs.Engine.{SignsBy, Tells, TellsAsked, Writes, WritesBy, WritesEdits};
ghost use Rattle.macho_commands.specs.Engine.{asked, outcome, outcome_by, outcome_of, pages_by, refused_answer, signs_of};
ghost use Rattle.macho_commands.specs.Failures.{HasCause, HasCauseAt, WritesEnd};
ghost use Rattle.macho_commands.specs.Meaning.{file_of, macho_command_model};
ghost use Rattle.macho_commands.specs.Notes.{TellsBy, TellsCommand, TellsOf, TellsSigned, TellsWanted, TellsWantedAt};
ghost use Rattle.macho_commands.specs.Refusing.{IsRefusal, LeadsWith};
ghost use Rattle.macho_commands.specs.Renewed.{PatchesOr};
ghost use Rattle.macho_commands.specs.Stores.{FailsPatch, FailsPatchAt, Patched};
ghost use Rattle.macho_commands.specs.declared.error.MachoCommandError.TheVariants.{Io, Memory};
ghost use Rattle.macho_signing.specs.Thin.{AreAsLong, pages_of};

use crate::command::MachoCommand;
use crate::edits::parse_macho_edits;
use crate::error::MachoCommandError;
use crate::noting::{left_note, note_wanted, tell};
use crate::renewed::patch_renewed;
use crate::signing::{Signing, Signs};
use crate::sliced::patch_slices;
use crate::verifying::verify_file;
use arwen_macho::macho::{Front, MachoBatchError, MachoContainer, MachoEdit, lay_fronts};
use byte_store::Store;
use command_words::{NotDone, Notes, OpensOnce, RegularFiles, words_of};
use macho_commands_stores::{
    Loaded, changes_of, front_changes, load_for_edits, load_fronts, load_slices, standing_pieces,
    write_changes_of,
};
use macho_signatures::{Slot, lay_slots};
use macho_signing::{NewSlots, Scope, signed_slots};
use std::alloc::Global;
use std::io;
use std::rt::Files;

/// The bytes of a file after a command: a parse accepts them again, and finds the edited load commands. Of
/// `apply` the words are read before the bytes are looked at.
///
/// Where signing is asked for, the slots of ad-hoc code signatures are made anew whose pages the edit touched, and then
/// a parse still finds the edited load commands. `sign` makes all anew in either case, and `verify` leaves the bytes.
pub fn run_macho(
    alloc: Global,
    bytes: &[u8],
    command: &MachoCommand,
    signing: Signing,
) -> Result<Vec<u8>, MachoCommandError>
    ensures ok { IfOk result (λ new. outcome signing (macho_command_model command.now) bytes.now
        ≡ Outcome.bytes new.items) }
    ensures shows { IfOk result (λ new.
        IsSignedOutcome signing (macho_command_model command.now) bytes.now new.items) }
    ensures err { IfErr result (λ e.
        Tells (outcome signing (macho_command_model command.now) bytes.now) e) }
{
    let (new, _text) = run_macho_telling(alloc, bytes, command, Notes::LeftOut, signing)?;
    Ok(new)
}

/// The bytes of a file after a command, as `run_macho` gives them, and the line that tells what a
/// user should know of the edit, with the command's path; no text where notes are left out, or
/// where there is nothing to tell.
pub fn run_macho_telling(
    alloc: Global,
    bytes: &[u8],
    command: &MachoCommand,
    notes: Notes,
    signing: Signing,
) -> Result<(Vec<u8>, String), MachoCommandError>
    ensures ok { IfOk result (λ made. outcome signing (macho_command_model command.now) bytes.now
        ≡ Outcome.bytes made.0.items) }
    ensures shows { IfOk result (λ made.
        IsSignedOutcome signing (macho_command_model command.now) bytes.now made.0.items) }
    ensures told { IfOk result (λ made. TellsCommand signing (macho_command_model command.now)
        notes bytes.now (string_bytes made.1)) }
    ensures err { IfErr result (λ e.
        Tells (outcome signing (macho_command_model command.now) bytes.now) e) }
{
    let Made {
        fronts,
        slots,
        text,
    } = made_of(alloc, bytes, command, notes, signing)?;
    let mut new = Vec::from_slice(alloc, bytes)?;
    lay_fronts(&mut new, fronts);
    lay_slots(&mut new, &slots);
    Ok((new, text))
}

/// What a command writes over the bytes of a file, and the line of its note.
#[derive(Drop)]
struct Made {
    /// The fronts of the command's edits.
    fronts: Vec<Front>,
    /// The slots of signatures, which are laid behind the fronts.
    slots: Vec<Slot>,
    /// The line; no text where it is left out.
    text: String,
}

/// What a command writes over the bytes of a file, and the line of its note.
fn made_of(
    alloc: Global,
    bytes: &[u8],
    command: &MachoCommand,
    notes: Notes,
    signing: Signing,
) -> Result<Made, MachoCommandError>
    ensures ok { IfOk result (λ made. Writes signing (macho_command_model command.now) bytes.now
        made.fronts.items made.slots.items) }
    ensures told { IfOk result (λ made. TellsCommand signing (macho_command_model command.now)
        notes bytes.now (string_bytes made.text)) }
    ensures err { IfErr result (λ e.
        Tells (outcome signing (macho_command_model command.now) bytes.now) e) }
{
    made_by(alloc, bytes, command, notes, signs_of(signing, command))
}

/// Which slots of signatures a command makes anew.
fn signs_of(signing: Signing, command: &MachoCommand) -> Signs
    ensures { result ≡ signs_of signing (macho_command_model command.now) }
{
    match (command, signing) {
        (MachoCommand::Sign(_), _) => Signs::Whole,
        (MachoCommand::Verify(_), _) => Signs::Nothing,
        (_, Signing::Renewed) => Signs::Touched,
        (_, Signing::Left) => Signs::Nothing,
    }
}

/// Whether a command makes no slot of a signature anew.
fn leaves_signatures(signing: Signing, command: &MachoCommand) -> bool
    ensures { IsTrue result
        → signs_of signing (macho_command_model command.now) ≡ Signs.Nothing }
{
    match signs_of(signing, command) {
        Signs::Nothing => true,
        _ => false,
    }
}

/// Whether a command makes the slots of the pages anew that its edits touch.
fn renews_touched(signing: Signing, command: &MachoCommand) -> bool
    ensures { IsTrue result
        → signs_of signing (macho_command_model command.now) ≡ Signs.Touched }
{
    match signs_of(signing, command) {
        Signs::Touched => true,
        _ => false,
    }
}

/// What a command writes over the bytes of a file, where it is known which slots are made anew.
fn made_by(
    alloc: Global,
    bytes: &[u8],
    command: &MachoCommand,
    notes: Notes,
    signs: Signs,
) -> Result<Made, MachoCommandError>
    ensures ok { IfOk result (λ made. WritesBy signs (asked (macho_command_model command.now))
        bytes.now made.fronts.items made.slots.items) }
    ensures told { IfOk result (λ made. TellsBy signs notes
        (asked (macho_command_model command.now)) (file_of (macho_command_model command.now))
        bytes.now (string_bytes made.text)) }
    ensures err { IfErr result (λ e.
        Tells (outcome_by signs (asked (macho_command_model command.now)) bytes.now) e) }
{
    match signs {
        Signs::Nothing => made_unsigned(alloc, bytes, command, notes),
        _ => made_signed(alloc, bytes, command, notes, signs),
    }
}

/// What a command writes that leaves signatures.
fn made_unsigned(
    alloc: Global,
    bytes: &[u8],
    command: &MachoCommand,
    notes: Notes,
) -> Result<Made, MachoCommandError>
    ensures ok { IfOk result (λ made. WritesBy Signs.Nothing
        (asked (macho_command_model command.now)) bytes.now made.fronts.items made.slots.items) }
    ensures told { IfOk result (λ made. TellsWanted notes
        (file_of (macho_command_model command.now)) bytes.now (string_bytes made.text)) }
    ensures err { IfErr result (λ e.
        Tells (outcome_of (asked (macho_command_model command.now)) bytes.now) e) }
{
    let (fronts, text) = fronts_of(alloc, bytes, command, notes)?;
    Ok(Made {
        fronts,
        slots: Vec::new(alloc),
        text,
    })
}

/// What a command writes that makes slots of signatures anew.
fn made_signed(
    alloc: Global,
    bytes: &[u8],
    command: &MachoCommand,
    notes: Notes,
    signs: Signs,
) -> Result<Made, MachoCommandError>
    requires { signs ≢ Signs.Nothing }
    ensures ok { IfOk result (λ made. WritesBy signs (asked (macho_command_model command.now))
        bytes.now made.fronts.items made.slots.items) }
    ensures told { IfOk result (λ made. TellsSigned signs notes
        (asked (macho_command_model command.now)) (file_of (macho_command_model command.now))
        bytes.now (string_bytes made.text)) }
    ensures err { IfErr result (λ e.
        Tells (outcome_by signs (asked (macho_command_model command.now)) bytes.now) e) }
{
    let (fronts, _text) = fronts_of(alloc, bytes, command, Notes::LeftOut)?;
    let new = slots_of(alloc, bytes, &fronts, signs)?;
    let path = command.path_to_binary();
    let text = left_note(alloc, new.are_some_left, path, notes, signs)?;
    Ok(Made {
        fronts,
        slots: new.slots,
        text,
    })
}

/// The slots of the edited bytes that are made anew, where fronts make these of the bytes of a file.
fn slots_of(
    alloc: Global,
    bytes: &[u8],
    fronts: &[Front],
    signs: Signs,
) -> Result<NewSlots, MachoCommandError>
    requires { All (LiesIn (length bytes.now)) fronts.now }
    ensures ok { IfOk result (λ new. SignsBy (pages_by signs bytes.now)
        (fronts_on fronts.now bytes.now) new) }
    ensures err { IfErr result (λ e. IsSigningError (pages_by signs bytes.now)
        (fronts_on fronts.now bytes.now) e) }
{
    let mut edited = Vec::from_slice(alloc, bytes)?;
    let pieces = front_changes(alloc, &mut edited, fronts)?;
    drop(pieces);
    signed(alloc, &edited, scope_by(signs, bytes))
}

/// Which pages of a file get their slots made anew.
fn scope_by(signs: Signs, bytes: &[u8]) -> Scope<'_>
    ensures { pages_of result ≡ pages_by signs bytes.entry.now }
{
    match signs {
        Signs::Touched => Scope::Since(bytes),
        _ => Scope::All,
    }
}

/// The slots of edited bytes that are made anew.
fn signed(alloc: Global, edited: &[u8], scope: Scope<'_>) -> Result<NewSlots, MachoCommandError>
    requires { AreAsLong (pages_of scope) edited.now }
    ensures ok { IfOk result (λ new. SignsBy (pages_of scope.entry) edited.now new) }
    ensures err { IfErr result (λ e. IsSigningError (pages_of scope.entry) edited.now e) }
{
    Ok(signed_slots(alloc, edited, scope)?)
}

/// The fronts that the edits of a command write over the bytes of a file, and the line of its note; no text where it is
/// left out. Its edits are read before the bytes are looked at.
pub(crate) fn fronts_of(
    alloc: Global,
    bytes: &[u8],
    command: &MachoCommand,
    notes: Notes,
) -> Result<(Vec<Front>, String), MachoCommandError>
    ensures ok { IfOk result (λ made.
        WritesEdits (asked (macho_command_model command.now)) bytes.now made.0.items) }
    ensures told { IfOk result (λ made. TellsWanted notes
        (file_of (macho_command_model command.now)) bytes.now (string_bytes made.1)) }
    ensures err { IfErr result (λ e.
        Tells (outcome_of (asked (macho_command_model command.now)) bytes.now) e) }
{
    if let MachoCommand::Batch(args) = command {
        return fronts_by(alloc, bytes, command, args.edits.as_slice(), notes);
    }
    let edits = edits_named(alloc, command)?;
    fronts_by(alloc, bytes, command, edits.as_slice(), notes)
}

/// The fronts that the edits of a command write over the bytes of a file, and the line of its note,
/// by the edits that it asks for.
fn fronts_by(
    alloc: Global,
    bytes: &[u8],
    command: &MachoCommand,
    edits: &[MachoEdit],
    notes: Notes,
) -> Result<(Vec<Front>, String), MachoCommandError>
    requires { AreAsked (asked (macho_command_model command.now)) (calls_of edits.now) }
    ensures ok { IfOk result (λ made.
        WritesEdits (asked (macho_command_model command.now)) bytes.now made.0.items) }
    ensures told { IfOk result (λ made. TellsWanted notes
        (file_of (macho_command_model command.now)) bytes.now (string_bytes made.1)) }
    ensures err { IfErr result (λ e.
        Tells (outcome_of (asked (macho_command_model command.now)) bytes.now) e) }
{
    let macho = MachoContainer::parse(alloc, bytes)?;
    fronts_in(alloc, &macho, command, edits, notes)
}

/// The fronts that edits write over the bytes of a file that was read, and the line of its note.
fn fronts_in(
    alloc: Global,
    macho: &MachoContainer<'_>,
    command: &MachoCommand,
    edits: &[MachoEdit],
    notes: Notes,
) -> Result<(Vec<Front>, String), MachoCommandError>
    ensures ok { IfOk result (λ made. LeadsWith (calls_of edits.now) macho.now made.0.items) }
    ensures told { IfOk result (λ made. TellsOf notes
        (file_of (macho_command_model command.now)) macho.now (string_bytes made.1)) }
    ensures err { IfErr result (IsRefusal (asked (macho_command_model command.now))
        (calls_of edits.now) macho.now) }
{
    let text = note_wanted(alloc, macho.inner(), command.path_to_binary(), notes)?;
    match macho.fronts(alloc, edits) {
        Ok(fronts) => Ok((fronts, text)),
        Err(error) => Err(refusal(command, error)),
    }
}

/// A refused edit as it is answered to a command. Of several it is told which one is refused.
fn refusal(command: &MachoCommand, error: MachoBatchError) -> MachoCommandError
    ensures { result ≡ refused_answer (asked (macho_command_model command.now)) error }
{
    match command {
        MachoCommand::Apply(_) | MachoCommand::Batch(_) => MachoCommandError::from(error),
        MachoCommand::Sign(_) | MachoCommand::Verify(_) => MachoCommandError::from(error),
        _ => MachoCommandError::from(error.fault),
    }
}

/// The edits that the words or values of a command name.
fn edits_named(alloc: Global, command: &MachoCommand) -> Result<Vec<MachoEdit>, MachoCommandError>
    requires { AreNamed (macho_command_model command.now) }
    ensures ok { IfOk result (λ edits.
        AreAsked (asked (macho_command_model command.now)) (calls_of edits.items)) }
    ensures err { IfErr result (λ e. TellsAsked (asked (macho_command_model command.now)) e) }
{
    if let MachoCommand::Apply(args) = command {
        let words = words_of(alloc, args.edits.as_slice())?;
        return Ok(parse_macho_edits(alloc, words.as_slice())?);
    }
    match command.edit(alloc)? {
        Some(edit) => alone(alloc, edit),
        None => Ok(Vec::new(alloc)),
    }
}

/// One edit as a list.
fn alone(alloc: Global, edit: MachoEdit) -> Result<Vec<MachoEdit>, MachoCommandError>
    ensures ok { IfOk result (λ edits. edits.items ≡ edit ∷ []) }
    ensures err { IfErr result (λ e. e ≡ Memory) }
{
    let mut edits = Vec::new(alloc);
    edits.push(edit)?;
    Ok(edits)
}

/// Edits the bytes of a store in their place. The front of a thin file is read: its first 64 KiB, or else its first MiB, if
/// they hold all load commands and content begins in them; and of a fat file the table, and such a front of each slice.
/// Where the slots of touched pages are made anew, the bytes of signatures are read too. Of any other file, and for `sign`,
/// the first `MOST_BYTES` are read; so they are where a touched page ends behind the front, or a signature is refused.
/// Bytes that change are written, and new slots, after all that may be refused or wants memory, and nothing is cut. An edit
/// that changes no byte opens the store for writing too, and writes nothing. A refusal, and an error of a read, leave the
/// bytes as they were; a write that fails leaves the first of the bytes that were to be written, in order.
///
/// Where notes are wanted, the line is answered that tells what a user should know of the edit, of the bytes as they
/// were, with the command's path; else no text. It is made before anything is written.
///
/// # Errors
///
/// `Io` with the error of the call that failed, which the store counted, or of those that `load_up_to` and
/// `write_pieces` make; the others tell why the edit is not made.
pub fn patch_store<S: Store>(
    alloc: Global,
    store: &mut S,
    command: &MachoCommand,
    notes: Notes,
    signing: Signing,
) -> Result<String, MachoCommandError>
    ensures patched { OnOk result (Patched signing (macho_command_model command.now)
        (S.contents store.old) (S.contents store.new)) }
    ensures told { IfOk result (λ text. TellsWantedAt signing (macho_command_model command.now)
        notes (S.contents store.old) (string_bytes text)) }
    ensures err { IfErr result (λ e. MayFail (macho_command_model command.now) e) }
    ensures left { IfErr result (FailsPatch
        (WritesEnd S.may_fail_write S.may_take_none (S.failed store.old) (S.failed store.new))
        signing (macho_command_model command.now) (S.contents store.old) (S.contents store.new)) }
    ensures cause { IfErr result (HasCause S.may_fail_read S.may_fail_write S.may_take_none
        (S.contents store.old) (S.failed store.old) (S.failed store.new)) }
{
    if leaves_signatures(signing, command) {
        if let Some(slices) = load_slices(alloc, store)? {
            return patch_slices(alloc, store, &slices, command, notes, signing);
        }
        return patch_loaded(alloc, store, command, notes, signing);
    }
    if let Some(text) = patch_touched(alloc, store, command, notes, signing)? {
        return Ok(text);
    }
    patch_loaded(alloc, store, command, notes, signing)
}

/// Edits the bytes of a store as `patch_store` does, of a command that makes the slots of touched
/// pages anew, where fronts of the file and its signatures tell these; else `None`, and the bytes
/// are as they were.
fn patch_touched<S: Store>(
    alloc: Global,
    store: &mut S,
    command: &MachoCommand,
    notes: Notes,
    signing: Signing,
) -> Result<Option<String>, MachoCommandError>
    ensures patched { IfOk result (PatchesOr signing (macho_command_model command.now) notes
        (S.contents store.old) (S.contents store.new)) }
    ensures err { IfErr result (λ e. MayFail (macho_command_model command.now) e) }
    ensures left { IfErr result (FailsPatch
        (WritesEnd S.may_fail_write S.may_take_none (S.failed store.old) (S.failed store.new))
        signing (macho_command_model command.now) (S.contents store.old) (S.contents store.new)) }
    ensures grows { S.failed store.old ≤ S.failed store.new }
    ensures cause { IfErr result (HasCause S.may_fail_read S.may_fail_write S.may_take_none
        (S.contents store.old) (S.failed store.old) (S.failed store.new)) }
{
    if !renews_touched(signing, command) {
        return Ok(None);
    }
    let Some(slices) = load_fronts(alloc, store)? else {
        return Ok(None);
    };
    patch_renewed(alloc, store, &slices, command, notes, signing)
}

/// Edits the bytes of a store as `patch_store` does, where it doesn't hold a fat file whose slices
/// are edited by their fronts.
fn patch_loaded<S: Store>(
    alloc: Global,
    store: &mut S,
    command: &MachoCommand,
    notes: Notes,
    signing: Signing,
) -> Result<String, MachoCommandError>
    ensures patched { OnOk result (Patched signing (macho_command_model command.now)
        (S.contents store.old) (S.contents store.new)) }
    ensures told { IfOk result (λ text. TellsWantedAt signing (macho_command_model command.now)
        notes (S.contents store.old) (string_bytes text)) }
    ensures err { IfErr result (λ e. MayFail (macho_command_model command.now) e) }
    ensures left { IfErr result (FailsPatch
        (WritesEnd S.may_fail_write S.may_take_none (S.failed store.old) (S.failed store.new))
        signing (macho_command_model command.now) (S.contents store.old) (S.contents store.new)) }
    ensures cause { IfErr result (HasCause S.may_fail_read S.may_fail_write S.may_take_none
        (S.contents store.old) (S.failed store.old) (S.failed store.new)) }
{
    let leaves = leaves_signatures(signing, command);
    let Loaded { mut bytes, length } = load_for_edits(alloc, store, leaves)?;
    let Made {
        fronts,
        slots,
        text,
    } = made_of(alloc, bytes.as_slice(), command, notes, signing)?;
    let changes = changes_of(alloc, &mut bytes, fronts.as_slice(), slots.as_slice())?;
    let pieces = standing_pieces(alloc, bytes.as_slice(), changes.as_slice())?;
    write_changes_of(store, length, pieces.as_slice())?;
    Ok(text)
}

/// Edits the bytes of the store at the command's path, as `patch_store` does, and hands the store back with the line of
/// the note.
///
/// # Errors
///
/// Those of `patch_store`, and `Io` with what the opening answered. A store that was opened comes with the error, with the
/// bytes that the error left in it.
pub fn patch_path<'p, O: OpensOnce<'p>>(
    alloc: Global,
    files: O,
    command: &'p MachoCommand,
    notes: Notes,
    signing: Signing,
) -> Result<(O::Opened, String), NotDone<O::Opened, MachoCommandError>>
    ensures patched { IfOk result (λ edited. Patched signing (macho_command_model command.now)
        (O.contents files (file_of (macho_command_model command.now)))
        (O.Opened.contents edited.0)) }
    ensures told { IfOk result (λ edited. TellsWantedAt signing
        (macho_command_model command.now) notes
        (O.contents files (file_of (macho_command_model command.now)))
        (string_bytes edited.1)) }
    ensures err { IfErr result (λ refused.
        MayFail (macho_command_model command.now) refused.error) }
    ensures left { IfErr result (λ refused. FailsPatchAt O.Opened.may_fail_write
        O.Opened.may_take_none O.Opened.failed signing (macho_command_model command.now)
        O.Opened.contents (O.contents files (file_of (macho_command_model command.now)))
        refused.error refused.store) }
    ensures cause { IfErr result (λ refused. HasCauseAt
        (O.may_fail files (file_of (macho_command_model command.now)))
        O.Opened.may_fail_read O.Opened.may_fail_write O.Opened.may_take_none O.Opened.failed
        (O.contents files (file_of (macho_command_model command.now)))
        refused.error refused.store) }
{
    let mut store = match files.open_once(command.path_to_binary()) {
        Ok(store) => store,
        Err(error) => return Err(not_opened(error)),
    };
    match patch_store(alloc, &mut store, command, notes, signing) {
        Ok(text) => Ok((store, text)),
        Err(error) => Err(NotDone {
            error,
            store: Some(store),
        }),
    }
}

/// The answer to an opening that failed.
fn not_opened<S>(error: io::Error) -> NotDone<S, MachoCommandError>
    ensures error { result.error ≡ Io error }
    ensures store { result.store ≡ None }
{
    NotDone {
        error: MachoCommandError::Io(error),
        store: None,
    }
}

/// Edits a Mach-O file in its place, leaves its signatures unless the command is `sign`, and tells no notes. Only bytes
/// that change are written, and only after all of them exist, so a refused edit leaves the file as it was.
pub fn macho_execute<R: Files + AllocGlobal>(
    rt: &R,
    macho: MachoCommand,
) -> Result<(), MachoCommandError>
    ensures { IfErr result (MayFail (macho_command_model macho)) }
{
    let answer = patch_file(rt, &macho, Notes::LeftOut, Signing::Left);
    drop(macho);
    match answer {
        Ok(_) => Ok(()),
        Err(error) => Err(error),
    }
}

/// Does what a command asks: edits its file in its place, with its signatures made to fit where that is asked for, and
/// then tells the note, where it is wanted, on the standard error; whether that fails doesn't matter. `verify` prints
/// what it finds.
pub fn macho_execute_telling<R: Files + Print + Eprint + AllocGlobal>(
    rt: &R,
    macho: MachoCommand,
    notes: Notes,
    signing: Signing,
) -> Result<(), MachoCommandError>
    ensures { IfErr result (MayFail (macho_command_model macho)) }
{
    let answer = execute_lent(rt, &macho, notes, signing);
    drop(macho);
    answer
}

/// Does what a command that is lent asks, as `macho_execute_telling` does.
fn execute_lent<R: Files + Print + Eprint + AllocGlobal>(
    rt: &R,
    command: &MachoCommand,
    notes: Notes,
    signing: Signing,
) -> Result<(), MachoCommandError>
    ensures { IfErr result (MayFail (macho_command_model command.now)) }
{
    match command {
        MachoCommand::Verify(args) => verify_file(rt, &args.path_to_binary),
        _ => edit_telling(rt, command, notes, signing),
    }
}

/// Edits the file of a command, and tells the note.
fn edit_telling<R: Files + Eprint + AllocGlobal>(
    rt: &R,
    command: &MachoCommand,
    notes: Notes,
    signing: Signing,
) -> Result<(), MachoCommandError>
    ensures { IfErr result (MayFail (macho_command_model command.now)) }
{
    let text = patch_file(rt, command, notes, signing)?;
    tell(rt, text.as_str());
    Ok(())
}

/// Edits the file at a command's path in its place, and answers the line of the note; no text where it is left out.
fn patch_file<R: Files + AllocGlobal>(
    rt: &R,
    command: &MachoCommand,
    notes: Notes,
    signing: Signing,
) -> Result<String, MachoCommandError>
    ensures { IfErr result (MayFail (macho_command_model command.now)) }
{
    let files = RegularFiles { files: rt };
    match patch_path(rt.alloc(), &files, command, notes, signing) {
        Ok((_store, text)) => Ok(text),
        Err(refused) => Err(refused.error),
    }
}
