//! Runs the reader of ELF files on lines of cases, and prints what came of each.
//!
//! Each line is printed again, and below it what came of it. Lines work on `file`, which is made first:
//!
//! - `= NAME CHANGE ..` makes `file` a copy of the file NAME with changes. `OFFSET:HEX` puts bytes at an offset, `..N`
//!   makes it N bytes long, cut or with zeros behind it, and `N..` leaves N bytes out in front.
//!
//! Reading:
//!
//! - `i` prints the image of `file`: its headers and sections with their bytes, symbols, versions and dynamic list, where
//!   sections stand, and whether a copy and a second reading show the same.
//! - `f` prints the faults for which the image, the writer and the container refuse `file`, and `F` counts its fronts that
//!   all three refuse as cut. `m` prints the machine that its first bytes tell.
//! - `v` prints the view by section headers of the plain reader, `l N` the view of a loader that is told of N symbols.
//! - `y CLASS ORDER TEXTS RECORDS VERSIONS` reads a table of symbols, its parts in hex, `-` for no bytes. `n TEXTS` tells
//!   at which of the first 20 places of a string table a name is.
//! - `e` prints the texts of errors, `c` versions without a name and no symbols.
//!
//! Editing an image:
//!
//! - `s CALL FLAGS` sets the flags of the stack that a call lends: `stack` or `gnu-stack`, or one that adds a header where
//!   there is none, `add-stack` or `add-gnu-stack`.
//! - `t` edits the dynamic list of copies of the image.
//!
//! Other lines are those of `test_cases_written`.
#![tactic(auto)]

mod dynamic_lists;
mod faults;
mod images;
mod lists;
mod stacks;
mod tables;
mod texts;
mod views;

use elf_image::Builder;
use std::io;
pub use test_cases_written::rows::print_rows;
use test_cases_written::{files, on_container, words};

/// Prints each line, and what comes of it.
pub fn run(rt: &HostRuntime, lines: &str) -> io::Result<()> {
    for line in lines.lines() {
        println!(rt; "{line}")?;
        step(rt, line)?;
    }
    Ok(())
}

/// Does what a line says.
fn step(rt: &HostRuntime, line: &str) -> io::Result<()> {
    let (kind, words) = words::first(line);
    match kind {
        "" | "#" => Ok(()),
        "=" => files::make(rt, words),
        "y" => tables::print_table(rt, words),
        "n" => tables::print_places(rt, words),
        "e" => texts::print_texts(rt),
        "c" => tables::print_constants(rt),
        _ => on_file(rt, kind, words),
    }
}

/// Does what a line says to the file.
fn on_file(rt: &HostRuntime, kind: &str, words: &str) -> io::Result<()> {
    let bytes = files::content(rt, files::FILE)?;
    on_bytes(rt, &bytes, kind, words)
}

/// Does what a line says to the bytes of the file.
fn on_bytes(rt: &HostRuntime, bytes: &[u8], kind: &str, words: &str) -> io::Result<()> {
    match kind {
        "f" => faults::print_faults(rt, bytes),
        "F" => faults::print_fronts(rt, bytes),
        "m" => faults::print_machine(rt, bytes),
        "v" => views::print_by_sections(rt, bytes),
        "l" => views::print_loaded(rt, bytes, words),
        "i" | "s" | "t" => on_image(rt, bytes, kind, words),
        _ => on_container(rt, bytes, kind, words),
    }
}

/// Does what a line says to the image of the file.
fn on_image(rt: &HostRuntime, bytes: &[u8], kind: &str, words: &str) -> io::Result<()> {
    match images::read(rt.alloc(), bytes) {
        Ok(mut image) => on_read(rt, bytes, &mut image, kind, words),
        Err(fault) => println!(rt; "{fault:?}"),
    }
}

/// Does what a line says to the image of bytes.
fn on_read(
    rt: &HostRuntime,
    bytes: &[u8],
    image: &mut Builder<'_>,
    kind: &str,
    words: &str,
) -> io::Result<()> {
    match kind {
        "i" => images::print_image(rt, bytes, image),
        "s" => stacks::print_stack(rt, image, words),
        _ => dynamic_lists::print_edits(rt, image),
    }
}
