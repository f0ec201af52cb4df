//! Edits of a file, each by its own call.
use std::alloc::{AllocError, Global};
use std::collections::HashMap;
use test_cases_files::elf::{ElfContainer, ElfEdit, ElfError};

/// Does an edit by its own call.
pub(crate) fn call(
    alloc: Global,
    file: &mut ElfContainer<'_>,
    edit: &ElfEdit,
) -> Result<(), ElfError> {
    match edit {
        ElfEdit::AddDebugTag => file.add_debug_tag(alloc),
        ElfEdit::AddNeeded(names) => file.add_needed(alloc, names.as_slice()),
        ElfEdit::AddRpath(texts) => add_runpaths(alloc, file, texts.as_slice()),
        ElfEdit::AllowDynamicMove => {
            file.allow_dynamic_move();
            Ok(())
        }
        ElfEdit::ClearExecStack => file.clear_exec_stack(alloc),
        ElfEdit::ClearSymbolVersion(name) => file.clear_version_symbol(alloc, name.as_slice()),
        ElfEdit::ForceRpath => file.force_rpath(),
        ElfEdit::NoDefaultLib => file.no_default_lib(alloc),
        ElfEdit::RemoveNeeded(names) => file.remove_needed(alloc, names.as_slice()),
        ElfEdit::RemoveRpath => file.remove_runpath(),
        ElfEdit::RenameDynamicSymbols(pairs)
        | ElfEdit::ReplaceLibrary(pairs)
        | ElfEdit::ReplaceNeeded(pairs) => call_with_pairs(alloc, file, edit, pairs.as_slice()),
        ElfEdit::SetExecStack => file.set_exec_stack(alloc),
        ElfEdit::SetInterpreter(text) => file.set_interpreter(alloc, text.as_slice()),
        ElfEdit::SetOsAbi(name) => file.set_os_abi(alloc, name.as_str()),
        ElfEdit::SetPageSize(size) => file.set_page_size(*size),
        ElfEdit::SetRpath(text) => file.set_runpath(alloc, text.as_slice()),
        ElfEdit::SetSoname(text) => file.set_soname(alloc, text.as_slice()),
    }
}

/// Adds directories to the run path by the call for one, or by that for several.
fn add_runpaths(
    alloc: Global,
    file: &mut ElfContainer<'_>,
    texts: &[Vec<u8>],
) -> Result<(), ElfError> {
    match texts {
        [text] => file.add_runpath(alloc, text.as_slice()),
        texts => file.inner.elf_add_runpath(alloc, texts),
    }
}

/// Renames dynamic symbols, or replaces libraries, by pairs of an old and a new name.
fn call_with_pairs(
    alloc: Global,
    file: &mut ElfContainer<'_>,
    edit: &ElfEdit,
    pairs: &[(Vec<u8>, Vec<u8>)],
) -> Result<(), ElfError> {
    let names = map_of(alloc, pairs)?;
    match edit {
        ElfEdit::ReplaceNeeded(_) => file.replace_needed(alloc, &names),
        ElfEdit::ReplaceLibrary(_) => file.replace_library(alloc, &names),
        _ => file.rename_dynamic_symbols(alloc, &names),
    }
}

/// The map of pairs.
fn map_of(
    alloc: Global,
    pairs: &[(Vec<u8>, Vec<u8>)],
) -> Result<HashMap<Vec<u8>, Vec<u8>>, AllocError> {
    let mut names = HashMap::new(alloc);
    put_pairs(alloc, pairs, &mut names)?;
    Ok(names)
}

/// Puts copies of pairs into a map.
fn put_pairs(
    alloc: Global,
    pairs: &[(Vec<u8>, Vec<u8>)],
    names: &mut HashMap<Vec<u8>, Vec<u8>>,
) -> Result<(), AllocError> {
    for (old, new) in pairs {
        put_pair(alloc, old.as_slice(), new.as_slice(), names)?;
    }
    Ok(())
}

/// Puts a copy of a pair into a map.
pub(crate) fn put_pair(
    alloc: Global,
    old: &[u8],
    new: &[u8],
    names: &mut HashMap<Vec<u8>, Vec<u8>>,
) -> Result<(), AllocError> {
    let key = Vec::from_slice(alloc, old)?;
    names.insert(key, Vec::from_slice(alloc, new)?)?;
    Ok(())
}
