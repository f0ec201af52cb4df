//! Lines, run with a runtime.
ghost use Rattle.std.specs.Prelude.{◌≡◌, ◌⊎◌, IfOk, map};
ghost use Rattle.arwen_cli_tools.specs.Endings.{EndsLine, EndsNames, EndsPatchelf, EndsReadLine, EndsReadNames, IsNamesEnding, MayBeDone, status_of};

use crate::causes::names_fault_line;
use crate::elf_lines::files_ending;
use crate::ending::Ending;
use crate::files::LineFiles;
use crate::name_lines::name_words;
use crate::peers::Peer;
use crate::texts::{name_tool_says, patchelf_says, unread_line, unread_names};
use arwen_cli_install_names::{NameLine, NamesError, read_name_line};
use arwen_cli_patchelf::commands::elf::FileProbe;
use arwen_cli_patchelf::commands::files::Sink;
use arwen_cli_patchelf::{plan_of, prints_asked};
use arwen_cli_patchelf_lines::{Line, read_line};
use byte_store::Opens;
use command_words::RegularBytes;
use std::alloc::AllocError;
use std::io;
use std::rt::Files;

/// Runs a line of a tool, by the words behind its name, and answers the status to end with: 0 where all is done that it asks
/// for, or where help or the version was asked for and printed, and else 1. What it prints goes to the standard output, and
/// the line that tells why not all is done to the standard error. Nothing is edited by a line that is refused.
pub fn run_line<R: Files + Print + Eprint + AllocGlobal>(rt: &R, peer: Peer, words: &[&str]) -> u8
    ensures done { result ≡ 0 → MayBeDone peer (map (λ w. w.now) words.now) }
    ensures status { (result ≡ 0) ⊎ (result ≡ 1) }
{
    match line_ending(rt, peer, words) {
        Ok(ending) => shown_status(rt, ending),
        Err(_) => {
            let _ = rt.eprintln("out of memory");
            1
        }
    }
}

/// The status of an ending, once what it tells is printed: on the standard output what was asked for, and a fault on the
/// standard error.
fn shown_status<R: Print + Eprint>(rt: &R, ending: Ending) -> u8
    ensures done { result ≡ 0 → status_of ending ≡ 0 }
    ensures status { (result ≡ 0) ⊎ (result ≡ 1) }
{
    let shown = match &ending {
        Ending::Done => Ok(()),
        Ending::Told(text) => rt.print(text),
        Ending::Failed(line) => rt.eprintln(line),
    };
    match shown {
        Ok(()) => ending.status(),
        Err(_) => 1,
    }
}

/// How a line of a tool ends.
fn line_ending<R: Files + Print + Eprint + AllocGlobal>(
    rt: &R,
    peer: Peer,
    words: &[&str],
) -> Result<Ending, AllocError>
    ensures { IfOk result (EndsLine peer (map (λ w. w.now) words.now)) }
{
    match peer {
        Peer::Patchelf => patchelf_ending(rt, words),
        Peer::InstallNameTool => names_ending(rt, words),
    }
}

/// How a line of patchelf ends.
fn patchelf_ending<R: Files + Print + AllocGlobal>(
    rt: &R,
    words: &[&str],
) -> Result<Ending, AllocError>
    ensures { IfOk result (EndsPatchelf (map (λ w. w.now) words.now)) }
{
    let files = RegularBytes { files: rt };
    match read_line(rt.alloc(), &files, words) {
        Ok(line) => run_patchelf(rt, line),
        Err(error) => {
            let ending = unread_line(rt.alloc(), patchelf_says(), &error);
            drop(error);
            ending
        }
    }
}

/// How a line of patchelf ends that was read.
fn run_patchelf<R: Files + Print + AllocGlobal>(rt: &R, line: Line) -> Result<Ending, AllocError>
    ensures { IfOk result EndsReadLine }
{
    let ending = run_lent(rt, &line);
    drop(line);
    ending
}

/// How a line of patchelf ends that is lent.
fn run_lent<R: Files + Print + AllocGlobal>(rt: &R, line: &Line) -> Result<Ending, AllocError>
    ensures { IfOk result EndsReadLine }
{
    let prints = prints_asked(rt.alloc(), line.asked.as_slice())?;
    let plan = plan_of(rt.alloc(), line.asked.as_slice())?;
    let files = LineFiles { files: rt };
    let probe = FileProbe { files: rt };
    let mut out = Sink::new(io::writer(rt));
    files_ending(
        rt.alloc(),
        &files,
        &files,
        &RegularBytes { files: rt },
        line.paths.as_slice(),
        prints.as_slice(),
        &plan,
        output_of(line),
        &probe,
        &mut out,
    )
}

/// The path of a line's output, where it has one.
fn output_of(line: &Line) -> Option<&str> {
    match &line.output {
        Some(path) => Some(path.as_str()),
        None => None,
    }
}

/// How a line of install_name_tool ends.
fn names_ending<R: Files + Eprint + AllocGlobal>(
    rt: &R,
    words: &[&str],
) -> Result<Ending, AllocError>
    ensures { IfOk result (EndsNames (map (λ w. w.now) words.now)) }
{
    match read_name_line(rt.alloc(), words) {
        Ok(line) => run_names(rt, line, words),
        Err(error) => unread_names(rt.alloc(), name_tool_says(), &error),
    }
}

/// How a line of install_name_tool ends that was read of these words. Once the file is edited, the note is told, where there
/// is one; whether that fails doesn't matter.
fn run_names<R: Files + Eprint + AllocGlobal>(
    rt: &R,
    line: NameLine<'_>,
    words: &[&str],
) -> Result<Ending, AllocError>
    ensures { IfOk result (EndsReadNames line.entry.path.now) }
{
    let path = line.path;
    drop(line);
    match name_file(rt, path, words) {
        Ok(note) => {
            tell(rt, note.as_str());
            Ok(Ending::Done)
        }
        Err(error) => names_fault(rt, path, error),
    }
}

/// Edits the file at a path as the line of these words asks, and answers the line of the note, where there is one.
fn name_file<'p, R: Files + AllocGlobal>(
    rt: &'p R,
    path: &'p str,
    words: &[&str],
) -> Result<String, NamesError> {
    let files = LineFiles { files: rt };
    let mut store = files.open(path)?;
    name_words(rt.alloc(), &mut store, path, words)
}

/// Prints a note on the standard error, where there is one.
fn tell<R: Eprint>(rt: &R, note: &str) {
    if !note.is_empty() {
        let _ = rt.eprint(note);
    }
}

/// How a line ends whose file isn't edited.
fn names_fault<R: Files + AllocGlobal>(
    rt: &R,
    path: &str,
    error: NamesError,
) -> Result<Ending, AllocError>
    ensures { IfOk result (IsNamesEnding path.now error) }
{
    let files = RegularBytes { files: rt };
    let line = names_fault_line(rt.alloc(), &files, path, error)?;
    Ok(Ending::Failed(line))
}
