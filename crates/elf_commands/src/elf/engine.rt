//! What is made of a file's bytes, and printed of them.
ghost use Rattle.std.specs.Prelude.{◌≡◌, Some, IfOk, IfErr, map, string_bytes};
ghost use Rattle.elf_commands_edits.specs.ShrinkModel.{answer_model};
ghost use Rattle.elf_commands.specs.ShrinkRuns.{RunsCommand, TellsCommand};
ghost use Rattle.std.specs.Io.KnownBytes.{Appends};
ghost use Rattle.byte_store.specs.Composed.{IsDifference, made_of};
ghost use Rattle.elf_commands_edits.specs.Written.{IsNoDifference};
ghost use Rattle.elf_commands.specs.ElfStores.{ChangesNothing};
ghost use Rattle.elf_commands_edits.specs.Prints.{FailsPrint};
ghost use Rattle.elf_image.specs.Image.{image_of, shown};
ghost use Rattle.elf_commands_lines.specs.ElfAsked.{edits_asked, elf_asked};
ghost use Rattle.elf_commands_edits.specs.Groups.{group_model};
ghost use Rattle.elf_commands.specs.ElfEngine.{IsElfEdited, LeavesElf, RunsElf, TellsEdit, TellsRun, as_asked, with_no_number};
ghost use Rattle.elf_commands_lines.specs.Meaning.{elf_command_model, elf_file_of};
ghost use Rattle.elf_commands.specs.Noting.{TellsWantedAt};
ghost use Rattle.elf_commands.specs.Prints.{Prints, TellsElf, printed};

use crate::asked::asked_by;
use crate::elf::shrinking::run_shrink;
use crate::elf::typed::{edit_bytes, edited_pieces};
use byte_store::Difference;
use command_words::Notes;
use elf_commands_edits::ElfCommandError;
use elf_commands_edits::files::{ElfContainer, ElfError, ProbeAnswer};
use elf_commands_lines::{ElfCommand, GroupEdit};
use std::alloc::Global;
use std::io::Write;

/// The bytes of a file after a command, or `None` where it stays as it was, as it does after each
/// command that prints and where an edit changed nothing. New bytes show the edits, to a loader that
/// knows the program headers alone too. What is printed goes to `out`, in one write: a file or a want of
/// memory that is refused leaves `out` as it was. Of `apply` the words are read before the bytes are
/// looked at. Of `shrink-rpath` the answers are handed in as `probe`, which no other command looks at: the
/// first one for a directory and a library counts, and `out` gets a line for each directory that went.
pub fn run_elf<W: Write>(
    alloc: Global,
    bytes: &[u8],
    command: &ElfCommand,
    probe: &[ProbeAnswer<'_>],
    out: &mut W,
) -> Result<Option<Vec<u8>>, ElfCommandError>
    ensures ran { IfOk result (λ new. RunsCommand (elf_command_model command.now)
        (map answer_model probe.now) bytes.now new (W.contents out.old) (W.contents out.new)) }
    ensures err { IfErr result (TellsCommand W.contents (elf_command_model command.now)
        (map answer_model probe.now) bytes.now out.old out.new) }
{
    match command {
        ElfCommand::ShrinkRpath(args) => run_shrink(alloc, bytes, args, probe, out),
        _ => run_unprobed(alloc, bytes, command, out),
    }
}

/// The same of a command that asks for no answers.
fn run_unprobed<W: Write>(
    alloc: Global,
    bytes: &[u8],
    command: &ElfCommand,
    out: &mut W,
) -> Result<Option<Vec<u8>>, ElfCommandError>
    ensures ran { IfOk result (λ new. RunsElf (elf_command_model command.now)
        (elf_asked (elf_command_model command.now)) bytes.now new
        (W.contents out.old) (W.contents out.new)) }
    ensures err { IfErr result (TellsRun W.contents (elf_command_model command.now)
        (elf_asked (elf_command_model command.now)) bytes.now out.old out.new) }
{
    match asked_by(alloc, command)? {
        Some(edits) => edited(alloc, bytes, command, edits),
        None => {
            print_bytes(alloc, bytes, command, out)?;
            Ok(None)
        }
    }
}

/// The bytes of a file after the edits that a command asks for, or `None` where they change nothing.
fn edited(
    alloc: Global,
    bytes: &[u8],
    command: &ElfCommand,
    edits: Vec<GroupEdit>,
) -> Result<Option<Vec<u8>>, ElfCommandError>
    requires { edits_asked (elf_asked (elf_command_model command.now))
        ≡ Some (map group_model edits.items) }
    ensures ok { IfOk result (IsElfEdited (elf_asked (elf_command_model command.now)) bytes.now) }
    ensures err { IfErr result (TellsEdit (elf_asked (elf_command_model command.now)) bytes.now) }
{
    match edit_bytes(
        alloc,
        bytes,
        edits,
        command.path_to_binary(),
        Notes::LeftOut,
    ) {
        Ok((new, _text)) => Ok(new),
        Err(error) => Err(told_to(command, error)),
    }
}

/// What of the bytes of a file differs after the edits that a command asks for, and the lines of their notes, as of `edit_bytes`.
pub(crate) fn pieces_asked(
    alloc: Global,
    bytes: &[u8],
    command: &ElfCommand,
    edits: Vec<GroupEdit>,
    notes: Notes,
) -> Result<(Difference, String), ElfCommandError>
    requires { edits_asked (elf_asked (elf_command_model command.now))
        ≡ Some (map group_model edits.items) }
    ensures makeable { IfOk result (λ made. IsDifference bytes.now made.0) }
    ensures left { IfOk result (λ made. LeavesElf (elf_asked (elf_command_model command.now))
        bytes.now (made_of bytes.now made.0)) }
    ensures told { IfOk result (λ made. TellsWantedAt notes
        (elf_asked (elf_command_model command.now)) (elf_file_of (elf_command_model command.now))
        (Some bytes.now) (string_bytes made.1)) }
    ensures err { IfErr result (TellsEdit (elf_asked (elf_command_model command.now)) bytes.now) }
    ensures idle { ChangesNothing (elf_asked (elf_command_model command.now)) bytes.now
        → IfOk result (λ made. IsNoDifference bytes.now made.0) }
{
    match edited_pieces(alloc, bytes, edits, command.path_to_binary(), notes) {
        Ok(made) => Ok(made),
        Err(error) => Err(told_to(command, error)),
    }
}

/// An error of several edits as it is told to a command. Where it asks for one, no number is told.
fn told_to(command: &ElfCommand, error: ElfCommandError) -> ElfCommandError
    ensures { result ≡ as_asked (elf_asked (elf_command_model command.now)) error }
{
    match command {
        ElfCommand::Apply(_) | ElfCommand::ApplyMoving(_) => error,
        _ => unnumbered(error),
    }
}

/// An error of an edit, whatever its number.
fn unnumbered(error: ElfCommandError) -> ElfCommandError
    ensures { result ≡ with_no_number error }
{
    match error {
        ElfCommandError::ElfBatch(refused) => ElfCommandError::from(refused.fault),
        other => other,
    }
}

/// Prints what a command asks of a file's bytes; nothing where it edits.
fn print_bytes<W: Write>(
    alloc: Global,
    bytes: &[u8],
    command: &ElfCommand,
    out: &mut W,
) -> Result<(), ElfCommandError>
    ensures printed { IfOk result (λ _. Prints (elf_command_model command.now) (image_of bytes.now)
        (W.contents out.old) (W.contents out.new)) }
    ensures err { IfErr result (TellsElf W.contents (elf_command_model command.now)
        (image_of bytes.now) out.old out.new) }
{
    let elf = ElfContainer::parse(alloc, bytes)?;
    let answer = print_asked(alloc, &elf, command, out);
    drop(elf);
    Ok(answer?)
}

/// Prints what a command asks of a file; nothing where it edits.
pub(crate) fn print_asked<W: Write>(
    alloc: Global,
    elf: &ElfContainer<'_>,
    command: &ElfCommand,
    out: &mut W,
) -> Result<(), ElfError>
    ensures printed { IfOk result (λ _. Appends (W.contents out.old) (W.contents out.new)
        (printed (elf_command_model command.now) (shown elf.now.inner))) }
    ensures err { IfErr result (FailsPrint W.contents
        (printed (elf_command_model command.now) (shown elf.now.inner)) out.old out.new) }
{
    match command {
        ElfCommand::PrintRpath(_) => elf.print_runpath(alloc, out),
        ElfCommand::PrintNeeded(_) => elf.print_needed(alloc, out),
        ElfCommand::PrintSoname(_) => elf.print_soname(alloc, out),
        ElfCommand::PrintInterpreter(_) => elf.print_interpreter(alloc, out),
        ElfCommand::PrintOsAbi(_) => elf.print_os_abi(alloc, out),
        ElfCommand::PrintExecStack(_) => elf.print_exec_stack(out),
        _ => Ok(()),
    }
}
