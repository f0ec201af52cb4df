//! Edits of a file by words.
use crate::layouts::compared::compare_image;
use elf_commands::files::{ElfError, Writer};
use std::alloc::{AllocError, Global};

/// Edits a file by words, and lays it out both ways. Before each word `again` the file is written, and read again.
pub(crate) fn compare(
    alloc: Global,
    bytes: &[u8],
    words: &str,
) -> Result<&'static str, AllocError> {
    let (before, last) = words.rsplit_once(" again ").unwrap_or(("", words));
    if before.is_empty() {
        return compare_once(alloc, bytes, last);
    }
    match write_all(alloc, bytes, before) {
        Ok(bytes) => compare_once(alloc, &bytes, last),
        Err(ElfError::Memory) => Err(AllocError),
        Err(_) => Ok("not written"),
    }
}

/// Edits a file by words, and lays it out both ways.
fn compare_once(alloc: Global, bytes: &[u8], words: &str) -> Result<&'static str, AllocError> {
    match Writer::read(alloc, bytes) {
        Ok(mut file) => edit_and_compare(alloc, &mut file, words),
        Err(ElfError::Memory) => Err(AllocError),
        Err(_) => Ok("not read"),
    }
}

/// The bytes of a file after edits by words, written before each word `again` and at the end.
fn write_all(alloc: Global, bytes: &[u8], words: &str) -> Result<Vec<u8>, ElfError> {
    let mut file = Vec::from_slice(alloc, bytes)?;
    for part in words.split(" again ") {
        file = write_once(alloc, &file, part)?;
    }
    Ok(file)
}

/// The bytes of a file after edits by words.
fn write_once(alloc: Global, bytes: &[u8], words: &str) -> Result<Vec<u8>, ElfError> {
    let mut file = Writer::read(alloc, bytes)?;
    edit_all(alloc, &mut file, words)?;
    file.image_bytes(alloc)
}

/// Does the edits that are words, and lays the file out both ways.
fn edit_and_compare(
    alloc: Global,
    file: &mut Writer<'_>,
    words: &str,
) -> Result<&'static str, AllocError> {
    edit_all(alloc, file, words)?;
    compare_image(alloc, file.builder())
}

/// Does the edits that are words; one that is refused is left out.
fn edit_all(alloc: Global, file: &mut Writer<'_>, words: &str) -> Result<(), AllocError> {
    for word in words.split(' ') {
        if let Err(ElfError::Memory) = edit(alloc, file, word) {
            return Err(AllocError);
        }
    }
    Ok(())
}

/// Does the edit that a word is, with a number behind a `=`.
fn edit(alloc: Global, file: &mut Writer<'_>, word: &str) -> Result<(), ElfError> {
    let (name, number) = word.split_once('=').unwrap_or((word, ""));
    let number: u32 = number.parse().unwrap_or(0);
    match name {
        "debug" => file.elf_add_dynamic_debug(alloc),
        "stack" => file.elf_set_exec_stack(alloc),
        "leave" => {
            file.allow_dynamic_move();
            Ok(())
        }
        "page" => file.elf_set_page_size(number),
        _ => set_letters(alloc, file, name, number),
    }
}

/// Sets a text of so many letters.
fn set_letters(
    alloc: Global,
    file: &mut Writer<'_>,
    name: &str,
    count: u32,
) -> Result<(), ElfError> {
    let letters = vec![in alloc; b'x'; count as usize]?;
    set_text(alloc, file, name, letters.as_slice())
}

/// Sets a text.
fn set_text(alloc: Global, file: &mut Writer<'_>, name: &str, text: &[u8]) -> Result<(), ElfError> {
    match name {
        "path" => file.elf_set_runpath(alloc, text),
        "name" => file.elf_set_soname(alloc, text),
        "interpreter" => file.elf_set_interpreter(alloc, text),
        _ => Ok(()),
    }
}
