//! Edits of files by the calls of their writer.
ghost use Rattle.std.specs.Prelude.{◌≡◌, IfOk, Ok};
ghost use Rattle.elf_image.specs.Image.{image_of};

use crate::words::{first, number, texts_of};
use arwen_elf::elf::{ElfContainer, ElfError, Writer};
use std::alloc::{AllocError, Global};
use std::collections::{HashMap, HashSet};
use std::io;

/// A file, read again where memory was refused.
pub fn parse<'f>(alloc: Global, bytes: &'f [u8]) -> Result<ElfContainer<'f>, ElfError>
    ensures { IfOk result (λ file.
        (image_of bytes.entry.now ≡ Ok file.inner) × (file.bytes.now ≡ bytes.entry.now)) }
{
    match ElfContainer::parse(alloc, bytes) {
        Err(ElfError::Memory) => ElfContainer::parse(alloc, bytes),
        read => read,
    }
}

/// Prints why something was refused.
pub fn tell(rt: &HostRuntime, error: &ElfError) -> io::Result<()> {
    match error {
        ElfError::Modify(cause) => println!(rt; "refused: {cause}"),
        _ => println!(rt; "refused: {error}"),
    }
}

/// Prints what came of a call.
pub fn tell_answer(rt: &HostRuntime, answer: &Result<(), ElfError>) -> io::Result<()> {
    match answer {
        Ok(()) => println!(rt; "done"),
        Err(error) => tell(rt, error),
    }
}

/// The words as a set.
fn names_of(alloc: Global, words: &str) -> Result<HashSet<Vec<u8>>, AllocError> {
    let mut names = HashSet::new(alloc);
    for word in words.split(' ') {
        names.insert(Vec::from_slice(alloc, word.as_bytes())?)?;
    }
    Ok(names)
}

/// The pairs of an old and a new name as a map; of an old name that comes twice the last pair counts.
fn pairs_of(alloc: Global, pairs: &str) -> Result<HashMap<Vec<u8>, Vec<u8>>, AllocError> {
    let mut names = HashMap::new(alloc);
    for pair in pairs.split(' ') {
        put_pair(alloc, pair, &mut names)?;
    }
    Ok(names)
}

/// Puts a pair into a map.
fn put_pair(
    alloc: Global,
    pair: &str,
    names: &mut HashMap<Vec<u8>, Vec<u8>>,
) -> Result<(), AllocError> {
    let (old, new) = pair.split_once('=').unwrap_or((pair, ""));
    let key = Vec::from_slice(alloc, old.as_bytes())?;
    names.insert(key, Vec::from_slice(alloc, new.as_bytes())?)?;
    Ok(())
}

/// Renames dynamic symbols by pairs.
fn rename_symbols(alloc: Global, file: &mut Writer<'_>, pairs: &str) -> Result<(), ElfError> {
    let names = pairs_of(alloc, pairs)?;
    file.elf_rename_dynamic_symbols(alloc, &names)
}

/// Does an edit of the dynamic symbols, or another.
fn edit_symbols(
    alloc: Global,
    file: &mut Writer<'_>,
    name: &str,
    values: &str,
) -> Result<(), ElfError> {
    match name {
        "rename-dynamic-symbols" => rename_symbols(alloc, file, values),
        "clear-symbol-version" => file.elf_clear_symbol_version(alloc, values.as_bytes()),
        _ => edit_paths(alloc, file, name, values),
    }
}

/// Adds directories to the run path.
fn add_paths(alloc: Global, file: &mut Writer<'_>, paths: &str) -> Result<(), ElfError> {
    let texts = texts_of(alloc, paths)?;
    file.elf_add_runpath(alloc, &texts)
}

/// Does an edit of the run paths.
fn edit_paths(
    alloc: Global,
    file: &mut Writer<'_>,
    name: &str,
    values: &str,
) -> Result<(), ElfError> {
    match name {
        "add-rpath" => add_paths(alloc, file, values),
        "set-rpath" => file.elf_set_runpath(alloc, values.as_bytes()),
        "remove-rpath" => file.elf_delete_runpath(),
        _ => Ok(()),
    }
}

/// Adds needed libraries.
fn add_needed(alloc: Global, file: &mut Writer<'_>, names: &str) -> Result<(), ElfError> {
    let names = texts_of(alloc, names)?;
    file.elf_add_needed(alloc, &names)
}

/// Removes needed libraries.
fn remove_needed(alloc: Global, file: &mut Writer<'_>, names: &str) -> Result<(), ElfError> {
    let names = names_of(alloc, names)?;
    file.elf_delete_needed(alloc, &names)
}

/// Does an edit of the needed libraries, or another.
fn edit_needed(
    alloc: Global,
    file: &mut Writer<'_>,
    name: &str,
    values: &str,
) -> Result<(), ElfError> {
    match name {
        "add-needed" => add_needed(alloc, file, values),
        "remove-needed" => remove_needed(alloc, file, values),
        _ => edit_symbols(alloc, file, name, values),
    }
}

/// Does the edit that words are.
fn edit(alloc: Global, file: &mut Writer<'_>, words: &str) -> Result<(), ElfError> {
    let (name, values) = first(words);
    match name {
        "set-soname" => file.elf_set_soname(alloc, values.as_bytes()),
        "set-os-abi" => file.elf_set_osabi(alloc, values),
        "set-exec-stack" => file.elf_set_exec_stack(alloc),
        "allow-dynamic-move" => {
            file.allow_dynamic_move();
            Ok(())
        }
        "set-page-size" => file.elf_set_page_size(u32::try_from(number(values)).unwrap_or(0)),
        _ => edit_needed(alloc, file, name, values),
    }
}

/// Does an edit, again where memory was refused.
fn edit_again(alloc: Global, file: &mut Writer<'_>, words: &str) -> Result<(), ElfError> {
    match edit(alloc, file, words) {
        Err(ElfError::Memory) => edit(alloc, file, words),
        answer => answer,
    }
}

/// Does edits with a `+` between two, and tells the ones that are refused.
pub fn edit_all(rt: &HostRuntime, file: &mut Writer<'_>, words: &str) -> io::Result<()> {
    for words in words.split(" + ") {
        tell_refused(rt, edit_again(rt.alloc(), file, words))?;
    }
    Ok(())
}

/// Prints why an edit was refused, where it was.
fn tell_refused(rt: &HostRuntime, answer: Result<(), ElfError>) -> io::Result<()> {
    match answer {
        Ok(()) => Ok(()),
        Err(error) => tell(rt, &error),
    }
}
