//! The command `show`, over files at paths.
ghost use Rattle.std.specs.Prelude.{◌≡◌, ◌<◌, ◌∷◌, [], false, true, IfErr, IfOk, OnOk, length, map, string_bytes, vec_len};
ghost use Rattle.std.specs.Io.KnownBytes.{Appends};
ghost use Rattle.arwen_cli_facts.specs.Reasons.{IsRefusalOf};
ghost use Rattle.arwen_cli_show.specs.Command.{AreShown, GetsLine, IsFileRefusal, IsIo, IsRefusalLine, StopsLine, StopsPath, StopsShow, TellingAt, unread_refusal};
ghost use Rattle.arwen_cli_show.specs.Shown.{TellsFile, TellsOf};

use crate::args::Args;
use crate::notes::Notes;
use crate::show::{Style, text_of_bytes};
use arwen_cli_facts::error::ShowCauses;
use arwen_cli_facts::{Refusal, ShowError, bracket_of, file_line, refusal_of};
use byte_store::ReadError;
use command_words::{FileBytes, RegularBytes};
use std::alloc::{AllocError, Global};
use std::io;
use std::io::Write;
use std::rt::Files;
use thiserror::Error;

/// Why not all files were told of.
#[derive(Debug, Drop, Error)]
pub enum ShowCommandError {
    /// All paths were gone through, and a line was written for each file of which nothing is told.
    #[error("some files are not shown")]
    NotAll,
    /// What is told was not written.
    #[error("file error")]
    Io(io::Error),
    /// There was no memory for the line of a file of which nothing is told.
    #[error("out of memory")]
    Memory,
}

impl From<io::Error> for ShowCommandError {
    ghost use Rattle.std.specs.Prelude.{◌≡◌};
    ghost use Rattle.arwen_cli_show.specs.declared.command.ShowCommandError.TheVariants.{Io};

    ghost from_gives = { λ cause error. error ≡ Io cause };

    fn from(error: io::Error) -> ShowCommandError {
        ShowCommandError::Io(error)
    }
}

impl From<AllocError> for ShowCommandError {
    ghost use Rattle.std.specs.Prelude.{◌≡◌};
    ghost use Rattle.arwen_cli_show.specs.declared.command.ShowCommandError.TheVariants.{Memory};

    ghost from_gives = { λ _ error. error ≡ Memory };

    fn from(_refused: AllocError) -> ShowCommandError {
        ShowCommandError::Memory
    }
}

/// Tells what the files at the paths are, on the standard output, and of which files nothing is told, on the standard error.
/// A directory, a FIFO, a socket and a device are refused by what they are.
///
/// # Errors
///
/// Those of `show_paths`.
pub fn execute<R: Files + Print + Eprint + AllocGlobal>(
    rt: &R,
    args: Args,
) -> Result<(), ShowCommandError>
    ensures { IfErr result (λ _. 0 < vec_len args.paths) }
{
    let answer = show_lent(rt, &args);
    drop(args);
    answer
}

/// Tells what the files of lent arguments are, as `execute` does.
fn show_lent<R: Files + Print + Eprint + AllocGlobal>(
    rt: &R,
    args: &Args,
) -> Result<(), ShowCommandError>
    ensures { IfErr result (λ _. 0 < vec_len args.now.paths) }
{
    let files = RegularBytes { files: rt };
    let mut out = io::writer(rt);
    let mut err = Notes { to: rt };
    let paths = args.paths.as_slice();
    show_paths(rt.alloc(), &files, paths, args.style, &mut out, &mut err)
}

/// Writes of the file at each path what is told of its bytes. Of a file that can't be read, or is refused, a line is written to
/// the other writer: its path, the causes, and in brackets what they leave open; and the files behind it are told of all the
/// same. The files are left as they are.
///
/// # Errors
///
/// `NotAll` where there was such a line, once all paths were gone through; `Io` where one of the writers failed, and
/// `Memory` where there was no memory for such a line: then the paths behind that file were not looked at.
pub fn show_paths<F: FileBytes, W: Write, E: Write>(
    alloc: Global,
    files: &F,
    paths: &[String],
    style: Style,
    out: &mut W,
    err: &mut E,
) -> Result<(), ShowCommandError>
    ensures all { OnOk result (AreShown
        (TellingAt (F.may_fail files.now) (F.contents files.now) style)
        (map string_bytes paths.now) true
        (W.contents out.old) (W.contents out.new) (E.contents err.old) (E.contents err.new)) }
    ensures stopped { IfErr result (StopsShow
        (TellingAt (F.may_fail files.now) (F.contents files.now) style)
        (map string_bytes paths.now)
        (W.contents out.old) (W.contents out.new) (E.contents err.old) (E.contents err.new)) }
    ensures some { IfErr result (λ _. 0 < length paths.now) }
{
    let mut are_all = true;
    for path in paths {
        if !show_path(alloc, files, path.as_str(), style, out, err)? {
            are_all = false;
        }
    }
    if are_all {
        Ok(())
    } else {
        Err(ShowCommandError::NotAll)
    }
}

/// Writes what is told of the file at a path, or to the other writer why nothing is. Says whether it was told of.
fn show_path<F: FileBytes, W: Write, E: Write>(
    alloc: Global,
    files: &F,
    path: &str,
    style: Style,
    out: &mut W,
    err: &mut E,
) -> Result<bool, ShowCommandError>
    ensures told { IfOk result (λ is_told. AreShown
        (TellingAt (F.may_fail files.now) (F.contents files.now) style)
        (path.now ∷ []) is_told
        (W.contents out.old) (W.contents out.new) (E.contents err.old) (E.contents err.new)) }
    ensures stopped { IfErr result (StopsPath
        (W.contents out.old) (W.contents out.new) (E.contents err.old) (E.contents err.new)) }
{
    match text_at(alloc, files, path, style) {
        Ok(text) => write_text(text.as_str(), out),
        Err(refusal) => write_refusal(alloc, path, &refusal, err),
    }
}

/// Writes what is told of a file.
fn write_text<W: Write>(text: &str, out: &mut W) -> Result<bool, ShowCommandError>
    ensures told { IfOk result (λ is_told. is_told ≡ true) }
    ensures text { OnOk result (Appends (W.contents out.old) (W.contents out.new) text.now) }
    ensures stopped { IfErr result (λ error. IsIo error) }
{
    out.write_all(text.as_bytes())?;
    Ok(true)
}

/// Writes why nothing is told of the file at a path.
fn write_refusal<E: Write>(
    alloc: Global,
    path: &str,
    refusal: &Refusal<'_>,
    err: &mut E,
) -> Result<bool, ShowCommandError>
    ensures told { IfOk result (λ is_told. is_told ≡ false) }
    ensures line { OnOk result
        (GetsLine path.now refusal.now (E.contents err.old) (E.contents err.new)) }
    ensures stopped { IfErr result (StopsLine (E.contents err.old) (E.contents err.new)) }
{
    let line = refusal_line(alloc, path, refusal)?;
    err.write_all(line.as_bytes())?;
    Ok(false)
}

/// The line of a file of which nothing is told.
fn refusal_line(alloc: Global, path: &str, refusal: &Refusal<'_>) -> Result<String, AllocError>
    ensures { IfOk result (λ line.
        IsRefusalLine path.now refusal.now (string_bytes line)) }
{
    let causes = causes_of(alloc, &refusal.error)?;
    let bracket = bracket_of(alloc, refusal.reason)?;
    let mut line = file_line(alloc, path, causes.as_str(), &bracket)?;
    line.push_str("\n")?;
    Ok(line)
}

/// An error with its causes, as text.
fn causes_of(alloc: Global, error: &ShowError) -> Result<String, AllocError> {
    let causes = ShowCauses { error };
    format!(in alloc; "{causes}")
}

/// What is told of the file at a path, as text.
fn text_at<'t, F: FileBytes>(
    alloc: Global,
    files: &F,
    path: &str,
    style: Style,
) -> Result<String, Refusal<'t>>
    ensures told { IfOk result (λ text.
        TellsFile style path.now (F.contents files.now path.now) (string_bytes text)) }
    ensures refused { IfErr result (IsFileRefusal (F.may_fail files.now path.now)
        (F.contents files.now path.now)) }
{
    match files.bytes(alloc, path) {
        Ok(bytes) => told_bytes(alloc, path, bytes.as_slice(), style),
        Err(error) => Err(unread(error)),
    }
}

/// The refusal of a file that couldn't be read.
fn unread<'t>(error: ReadError) -> Refusal<'t>
    ensures { result ≡ unread_refusal error }
{
    let error = match error {
        ReadError::Memory => ShowError::Memory,
        ReadError::Io(cause) => ShowError::Io(cause),
    };
    Refusal {
        error,
        reason: None,
    }
}

/// What is told of the bytes of a file, as text.
fn told_bytes<'t>(
    alloc: Global,
    name: &str,
    bytes: &[u8],
    style: Style,
) -> Result<String, Refusal<'t>>
    ensures told { IfOk result (λ text. TellsOf style name.now bytes.now (string_bytes text)) }
    ensures refused { IfErr result (IsRefusalOf bytes.now) }
{
    match text_of_bytes(alloc, name, bytes, style) {
        Ok(text) => Ok(text),
        Err(error) => Err(refusal_of(alloc, error, bytes)),
    }
}
