//! Prints of the bytes of stores.
ghost use Rattle.std.specs.Prelude.{◌≡◌, IfErr, IfOk, OnOk};
ghost use Rattle.std.specs.Io.KnownBytes.{Appends};
ghost use Rattle.byte_store.specs.Known.{Stays};
ghost use Rattle.elf_commands_edits.specs.Failures.{HasReadCause, HasReadCauseAt};
ghost use Rattle.elf_commands.specs.ElfStores.{IsKeptAt};
ghost use Rattle.elf_commands_lines.specs.Meaning.{elf_file_of, elf_command_model};
ghost use Rattle.elf_commands.specs.Prints.{PrintMayFail, Prints, PrintsStored, StopsWriting, TellsPrint, TellsStored, printed};
ghost use Rattle.elf_image.specs.Image.{image_of, shown};

use crate::elf::engine::print_asked;
use crate::elf::opening::open_path;
use byte_store::Store;
use command_words::{NotDone, OpensOnce, RegularFiles, load};
use elf_commands_edits::ElfCommandError;
use elf_commands_edits::files::{CountedWrite, ElfContainer, ElfError, Sink, write_all_counted};
use elf_commands_lines::ElfCommand;
use std::alloc::{AllocError, Global};
use std::io;
use std::rt::Files;

/// Prints what a command asks of the bytes of a store, which are read whole: at most 4 GiB, or as many
/// as the store says that it has, where these are more. A store that goes on behind that is a fault.
///
/// # Errors
///
/// `Io` where a call of the store failed, which it counted, or came to no end; `Elf` where the file is none that is
/// read, or, with `ElfError::Io`, where the writer failed, which it counted, and got the first bytes of the print.
pub fn print_store<S: Store, W: CountedWrite>(
    alloc: Global,
    store: &mut S,
    command: &ElfCommand,
    out: &mut W,
) -> Result<(), ElfCommandError>
    ensures printed { OnOk result (PrintsStored (elf_command_model command.now)
        (S.contents store.old) (W.contents out.old) (W.contents out.new)) }
    ensures err { IfErr result PrintMayFail }
    ensures tells { IfErr result (TellsStored W.contents W.failed (elf_command_model command.now)
        (S.contents store.old) out.old out.new) }
    ensures kept { Stays (S.contents store.old) (S.contents store.new) }
    ensures cause { IfErr result (HasReadCause S.may_fail_read (S.contents store.old)
        (S.failed store.old) (S.failed store.new)) }
{
    let bytes = load(alloc, store)?;
    print_loaded(alloc, bytes.as_slice(), command, out)
}

/// Prints what a command asks of a file's bytes; nothing where it edits.
fn print_loaded<W: CountedWrite>(
    alloc: Global,
    bytes: &[u8],
    command: &ElfCommand,
    out: &mut W,
) -> Result<(), ElfCommandError>
    ensures printed { OnOk result (Prints (elf_command_model command.now) (image_of bytes.now)
        (W.contents out.old) (W.contents out.new)) }
    ensures err { IfErr result (TellsPrint W.contents W.failed (elf_command_model command.now)
        (image_of bytes.now) out.old out.new) }
{
    let elf = ElfContainer::parse(alloc, bytes)?;
    let text = printed_text(alloc, &elf, command);
    drop(elf);
    let text = text?;
    Ok(write_text(text.as_slice(), out)?)
}

/// The text that a command prints of a file; none where it edits.
fn printed_text(
    alloc: Global,
    elf: &ElfContainer<'_>,
    command: &ElfCommand,
) -> Result<Vec<u8>, AllocError>
    ensures { IfOk result (λ text.
        text.items ≡ printed (elf_command_model command.now) (shown elf.now.inner)) }
{
    let mut text = Vec::new(alloc);
    match print_asked(alloc, elf, command, &mut text) {
        Ok(()) => Ok(text),
        Err(_) => Err(AllocError),
    }
}

/// Writes a text whole.
fn write_text<W: CountedWrite>(text: &[u8], out: &mut W) -> Result<(), ElfError>
    ensures ok { OnOk result (Appends (W.contents out.old) (W.contents out.new) text.now) }
    ensures err { IfErr result (StopsWriting W.contents W.failed text.now out.old out.new) }
{
    match write_all_counted(text, out) {
        Ok(()) => Ok(()),
        Err(error) => Err(ElfError::Io(error)),
    }
}

/// Prints what a command asks of the bytes of the store at its path, as `print_store` does, and hands the store back.
///
/// # Errors
///
/// Those of `print_store`, and `Io` with what the opening answered. The store that was opened comes with the error.
pub fn print_path<'p, O: OpensOnce<'p>, W: CountedWrite>(
    alloc: Global,
    files: O,
    command: &'p ElfCommand,
    out: &mut W,
) -> Result<O::Opened, NotDone<O::Opened, ElfCommandError>>
    ensures printed { IfOk result (λ _. PrintsStored (elf_command_model command.now)
        (O.contents files (elf_file_of (elf_command_model command.now)))
        (W.contents out.old) (W.contents out.new)) }
    ensures kept { IfOk result (λ store. Stays
        (O.contents files (elf_file_of (elf_command_model command.now)))
        (O.Opened.contents store)) }
    ensures err { IfErr result (λ refused. PrintMayFail refused.error) }
    ensures tells { IfErr result (λ refused. TellsStored W.contents W.failed
        (elf_command_model command.now)
        (O.contents files (elf_file_of (elf_command_model command.now)))
        out.old out.new refused.error) }
    ensures left { IfErr result (λ refused. IsKeptAt
        (O.may_fail files (elf_file_of (elf_command_model command.now))) O.Opened.contents
        (O.contents files (elf_file_of (elf_command_model command.now)))
        refused.error refused.store) }
    ensures cause { IfErr result (λ refused. HasReadCauseAt
        (O.may_fail files (elf_file_of (elf_command_model command.now)))
        O.Opened.may_fail_read O.Opened.failed
        (O.contents files (elf_file_of (elf_command_model command.now)))
        refused.error refused.store) }
{
    let mut store = open_path(files, command.path_to_binary())?;
    match print_store(alloc, &mut store, command, out) {
        Ok(()) => Ok(store),
        Err(error) => Err(NotDone {
            error,
            store: Some(store),
        }),
    }
}

/// Prints what a command asks of a file, which is only read.
pub(crate) fn print_file<R: Files + Print + AllocGlobal>(
    rt: &R,
    command: ElfCommand,
) -> Result<(), ElfCommandError>
    ensures { IfErr result PrintMayFail }
{
    let answer = print_lent(rt, &command);
    drop(command);
    answer
}

/// The same of a command that is lent.
fn print_lent<R: Files + Print + AllocGlobal>(
    rt: &R,
    command: &ElfCommand,
) -> Result<(), ElfCommandError>
    ensures { IfErr result PrintMayFail }
{
    let files = RegularFiles { files: rt };
    let mut out = Sink::new(io::writer(rt));
    match print_path(rt.alloc(), &files, command, &mut out) {
        Ok(_) => Ok(()),
        Err(NotDone { error, store }) => {
            drop(store);
            Err(error)
        }
    }
}
