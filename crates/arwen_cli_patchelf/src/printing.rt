//! Prints of files, as lines ask for them.
ghost use Rattle.std.specs.Prelude.{◌≡◌, ◌≤◌, None, IfErr, IfOk, IsOkAnd, OnOk, length, map};
ghost use Rattle.std.specs.Io.KnownBytes.{Appends};
ghost use Rattle.byte_store.specs.Known.{Stays};
ghost use Rattle.elf_image.specs.Image.{image_of};
ghost use Rattle.elf_commands.specs.ElfCommandError.TheVariants.{Io};
ghost use Rattle.elf_commands.specs.Failures.{HasReadCause, HasReadCauseAt};
ghost use Rattle.elf_commands.specs.Prints.{PrintMayFail, StopsWriting};
ghost use Rattle.arwen_cli_options.specs.Asked.{asked_model};
ghost use Rattle.arwen_cli_patchelf.specs.Printing.{IfCommand, IsKeptFor, IsPrinted, IsPrintedOf, IsReadFor, PrintsAll, TellsPrint, TellsPrintOf, TellsPrints, option_for, prints_among, prints_asked as prints_meant};
ghost use Rattle.arwen_cli_patchelf.specs.declared.error.PatchelfError.TheVariants.{Command};

use crate::error::PatchelfError;
use crate::print_texts::text_of;
use arwen_cli_options::AskedOption;
use arwen_cli_options::asked::is_given;
use byte_store::Store;
use command_words::{NotDone, OpensOnce, load};
use elf_commands::ElfCommandError;
use elf_commands::files::{CountedWrite, ElfContainer, ElfError, write_all_counted};
use std::alloc::{AllocError, Global};
use std::io;

/// What is printed of a file.
#[derive(Clone, Copy)]
pub enum Print {
    /// The interpreter.
    Interpreter,
    /// The ABI byte.
    OsAbi,
    /// The library's own name.
    Soname,
    /// The run path.
    RunPath,
    /// Whether the stack may be run.
    ExecStack,
    /// The needed libraries.
    Needed,
}

/// All that may be printed, in the order in which it is.
const PRINTS: [Print; 6] = [
    Print::Interpreter,
    Print::OsAbi,
    Print::Soname,
    Print::RunPath,
    Print::ExecStack,
    Print::Needed,
];

/// What options ask to be printed: each once, in patchelf's order, whatever the order of the options. Error: `AllocError`.
pub fn prints_asked(alloc: Global, asked: &[AskedOption]) -> Result<Vec<Print>, AllocError>
    ensures { IfOk result (λ prints.
        prints.items ≡ prints_meant (map asked_model asked.now)) }
{
    prints_of(alloc, asked, PRINTS.as_slice())
}

/// Those of these prints that options ask for.
fn prints_of(alloc: Global, asked: &[AskedOption], all: &[Print]) -> Result<Vec<Print>, AllocError>
    ensures { IfOk result (λ prints.
        prints.items ≡ prints_among (map asked_model asked.now) all.now) }
{
    let mut prints = Vec::new(alloc);
    for print in all {
        if is_given(asked, option_of(*print)) {
            prints.push(*print)?;
        }
    }
    Ok(prints)
}

/// The option that asks for a print.
fn option_of(print: Print) -> &'static str
    ensures { result.now ≡ option_for print }
{
    match print {
        Print::Interpreter => "--print-interpreter",
        Print::OsAbi => "--print-os-abi",
        Print::Soname => "--print-soname",
        Print::RunPath => "--print-rpath",
        Print::ExecStack => "--print-execstack",
        Print::Needed => "--print-needed",
    }
}

/// Prints this of the file at a path, in order, as patchelf prints it, and hands the store back. Where it is nothing, nothing is
/// opened.
///
/// # Errors
///
/// Those of the first print that fails; those before it are printed. `Absent` where the file has no place for it: no interpreter,
/// or no dynamic section for run path and needed libraries. `Command` with `Io` where the opening or a read of the file failed,
/// and with `Elf` where the file is none that is read, or, with `ElfError::Io`, where the writer failed, which it counted, and
/// got the first bytes of the print. The store that was opened comes with the error.
pub fn print_path<'p, O: OpensOnce<'p> + Drop, W: CountedWrite>(
    alloc: Global,
    files: O,
    path: &'p str,
    prints: &[Print],
    out: &mut W,
) -> Result<Option<O::Opened>, NotDone<O::Opened, PatchelfError>>
    ensures printed { IfOk result (λ _. PrintsAll prints.now
        (O.contents files path.now) (W.contents out.old) (W.contents out.new)) }
    ensures kept { IfOk result (IsReadFor O.Opened.contents
        (length prints.now) (O.contents files path.now)) }
    ensures idle { length prints.now ≡ 0 → IsOkAnd result (λ store. store ≡ None) }
    ensures err { IfErr result (λ refused. IfCommand PrintMayFail refused.error) }
    ensures tells { IfErr result (λ refused. TellsPrints W.contents W.failed prints.now
        (O.contents files path.now) out.old out.new refused.error) }
    ensures left { IfErr result (λ refused. IsKeptFor (O.may_fail files path.now)
        O.Opened.contents (O.contents files path.now) refused.error refused.store) }
    ensures cause { IfErr result (λ refused. IfCommand (λ e. HasReadCauseAt
        (O.may_fail files path.now) O.Opened.may_fail_read O.Opened.failed
        (O.contents files path.now) e refused.store) refused.error) }
{
    if prints.is_empty() {
        return Ok(None);
    }
    let mut store = match files.open_once(path) {
        Ok(store) => store,
        Err(error) => return Err(not_opened(error)),
    };
    match print_each(alloc, &mut store, prints, out) {
        Ok(()) => Ok(Some(store)),
        Err(error) => Err(NotDone {
            error,
            store: Some(store),
        }),
    }
}

/// The answer to an opening that failed.
fn not_opened<S>(error: io::Error) -> NotDone<S, PatchelfError>
    ensures error { result.error ≡ Command (Io error) }
    ensures store { result.store ≡ None }
{
    NotDone {
        error: PatchelfError::Command(ElfCommandError::Io(error)),
        store: None,
    }
}

/// Prints this of the bytes of a store, in order.
fn print_each<S: Store, W: CountedWrite>(
    alloc: Global,
    store: &mut S,
    prints: &[Print],
    out: &mut W,
) -> Result<(), PatchelfError>
    ensures printed { OnOk result (PrintsAll prints.now
        (S.contents store.old) (W.contents out.old) (W.contents out.new)) }
    ensures err { IfErr result (IfCommand PrintMayFail) }
    ensures tells { IfErr result (TellsPrints W.contents W.failed prints.now
        (S.contents store.old) out.old out.new) }
    ensures kept { Stays (S.contents store.old) (S.contents store.new) }
    ensures grows { S.failed store.old ≤ S.failed store.new }
    ensures cause { IfErr result (IfCommand (HasReadCause S.may_fail_read
        (S.contents store.old) (S.failed store.old) (S.failed store.new))) }
{
    let Some((first, rest)) = prints.split_first() else {
        return Ok(());
    };
    print_one(alloc, store, *first, out)?;
    print_each(alloc, store, rest, out)
}

/// Prints this of the bytes of a store, which are read whole.
fn print_one<S: Store, W: CountedWrite>(
    alloc: Global,
    store: &mut S,
    print: Print,
    out: &mut W,
) -> Result<(), PatchelfError>
    ensures printed { OnOk result (IsPrinted print
        (S.contents store.old) (W.contents out.old) (W.contents out.new)) }
    ensures err { IfErr result (IfCommand PrintMayFail) }
    ensures tells { IfErr result (TellsPrint W.contents W.failed print
        (S.contents store.old) out.old out.new) }
    ensures kept { Stays (S.contents store.old) (S.contents store.new) }
    ensures grows { S.failed store.old ≤ S.failed store.new }
    ensures cause { IfErr result (IfCommand (HasReadCause S.may_fail_read
        (S.contents store.old) (S.failed store.old) (S.failed store.new))) }
{
    let bytes = load(alloc, store)?;
    print_loaded(alloc, bytes.as_slice(), print, out)
}

/// Prints this of a file's bytes.
fn print_loaded<W: CountedWrite>(
    alloc: Global,
    bytes: &[u8],
    print: Print,
    out: &mut W,
) -> Result<(), PatchelfError>
    ensures printed { OnOk result (IsPrintedOf print (image_of bytes.now)
        (W.contents out.old) (W.contents out.new)) }
    ensures err { IfErr result (TellsPrintOf W.contents W.failed print (image_of bytes.now)
        out.old out.new) }
{
    let elf = ElfContainer::parse(alloc, bytes)?;
    let text = text_of(alloc, &elf, print);
    drop(elf);
    let text = text?;
    Ok(write_text(text.as_slice(), out)?)
}

/// Writes a text whole.
fn write_text<W: CountedWrite>(text: &[u8], out: &mut W) -> Result<(), ElfError>
    ensures ok { OnOk result (Appends (W.contents out.old) (W.contents out.new) text.now) }
    ensures err { IfErr result (StopsWriting W.contents W.failed text.now out.old out.new) }
{
    match write_all_counted(text, out) {
        Ok(()) => Ok(()),
        Err(error) => Err(ElfError::Io(error)),
    }
}
