//! Patches finished Mach-O and ELF files from the command line: run paths, names of libraries and what else a
//! loader is told. Prints what it takes from them.
#![tactic(auto)]

use arwen_cli::cli::{ArwenError, RegularBytes, execute, fault_line};
pub use arwen_cli::{cli, commands, elf, macho, patcher, utils};
use arwen_cli_tools::{helped_peer, peer_of, run_line};
use std::alloc::{AllocError, Global};
use std::process::ExitCode;
use std::{env, io};

/// Does what words ask, the program's name first, and answers the status to end with.
fn run(rt: &HostRuntime, words: &[String]) -> ExitCode {
    match texts_of(rt.alloc(), words) {
        Ok(texts) => answer(rt, texts.as_slice()),
        Err(_) => failed(rt, &[], &ArwenError::Memory),
    }
}

/// The texts of words.
fn texts_of<'w>(alloc: Global, words: &'w [String]) -> Result<Vec<&'w str>, AllocError> {
    let mut texts = Vec::with_capacity(alloc, words.len())?;
    for word in words {
        texts.push(word.as_str())?;
    }
    Ok(texts)
}

/// Does what the texts of words ask, the program's name first, and answers the status to end with.
/// Lines of other tools are run as theirs, and `help` behind which one stands as its help.
fn answer(rt: &HostRuntime, words: &[&str]) -> ExitCode {
    let (name, words) = match words.split_first() {
        Some((name, words)) => (*name, words),
        None => ("", words),
    };
    match (peer_of(name, words), helped_peer(words)) {
        (Some((peer, behind)), _) => ExitCode::from(run_line(rt, peer, behind)),
        (None, Some(peer)) => ExitCode::from(run_line(rt, peer, &["--help"])),
        (None, None) => own_answer(rt, words),
    }
}

/// Does what words ask of this program itself, and answers the status to end with.
fn own_answer(rt: &HostRuntime, words: &[&str]) -> ExitCode {
    match execute(rt, words) {
        Ok(()) => ExitCode::SUCCESS,
        Err(error) => failed(rt, words, &error),
    }
}

/// Tells a fault of these words, and answers the status to end with.
fn failed(rt: &HostRuntime, words: &[&str], error: &ArwenError) -> ExitCode {
    match report(rt, words, error) {
        Ok(()) => ExitCode::from(error.status()),
        Err(_) => ExitCode::FAILURE,
    }
}

/// All words of the line, the program's name first. A word that is no UTF-8 is a line fault.
fn given_words(rt: &HostRuntime) -> Result<Vec<String>, ArwenError> {
    match env::args(rt) {
        Ok(given) => Ok(given.collect(rt.alloc())?),
        Err(error) if error.kind() == io::ErrorKind::InvalidData => Err(no_text(rt.alloc())?),
        Err(error) => Err(ArwenError::from(error)),
    }
}

/// The fault of a word that is no UTF-8.
fn no_text(alloc: Global) -> Result<ArwenError, AllocError> {
    let text = String::from_str(alloc, "error: a word is not UTF-8\n")?;
    Ok(ArwenError::Line { text, status: 2 })
}

/// Prints help on the standard output and a fault on the standard error, unless its lines are there.
fn report(rt: &HostRuntime, words: &[&str], error: &ArwenError) -> io::Result<()> {
    match error {
        ArwenError::Line { text, status: 0 } => rt.print(text),
        ArwenError::Line { text, .. } => rt.eprint(text),
        ArwenError::NotAllShown => Ok(()),
        _ => match fault_line(rt.alloc(), &RegularBytes { files: rt }, words, error) {
            Ok(line) => rt.eprintln(line),
            Err(_) => rt.eprintln(error.line()),
        },
    }
}

fn main(rt: HostRuntime) -> ExitCode {
    match given_words(&rt) {
        Ok(words) => run(&rt, words.as_slice()),
        Err(error) => failed(&rt, &[], &error),
    }
}
