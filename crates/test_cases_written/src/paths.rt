//! Files that are written to a path.

use crate::edits::tell_answer;
use crate::files::content;
use crate::written::container_bytes;
use arwen_elf::elf::{ElfContainer, ElfError};
use std::{fs, io};

/// Prints what comes of writing a file to a path, at which three bytes stood.
pub(crate) fn print_path(rt: &HostRuntime, file: &ElfContainer<'_>, path: &str) -> io::Result<()> {
    let _ = fs::write(rt, path, b"abc".as_slice());
    print_written(rt, file, path)?;
    print_written(rt, file, path)?;
    let _ = fs::remove_file(rt, path);
    Ok(())
}

/// Writes a file to a path, and prints what came of it.
fn print_written(rt: &HostRuntime, file: &ElfContainer<'_>, path: &str) -> io::Result<()> {
    tell_path(rt, file, path)?;
    match content(rt, path) {
        Ok(found) => print_found(rt, file, &found),
        Err(_) => println!(rt; "no file"),
    }
}

/// Writes a file to a path, again where memory was refused.
fn tell_path(rt: &HostRuntime, file: &ElfContainer<'_>, path: &str) -> io::Result<()> {
    match file.write_to_path(rt, path) {
        Err(ElfError::Memory) => tell_answer(rt, &file.write_to_path(rt, path)),
        answer => tell_answer(rt, &answer),
    }
}

/// Prints whether the file has the bytes that are written, or else how many it has.
fn print_found(rt: &HostRuntime, file: &ElfContainer<'_>, found: &[u8]) -> io::Result<()> {
    match container_bytes(rt.alloc(), file) {
        Ok(want) => println!(rt; "the file is the same {}", want.as_slice() == found),
        Err(_) => println!(rt; "the file has {} bytes", found.len()),
    }
}
