//! Names of libraries and of symbols, in entries and in edits.
ghost use Rattle.std.specs.Prelude.{◌≡◌, ◌++◌, IfOk, OnOk, filter, map};
ghost use Rattle.std.specs.List.{flat_map};
ghost use Rattle.elf_edits.specs.EditModel.{edit_model, pairs_model, texts_model};
ghost use Rattle.elf_edits.specs.Entries.{has_tag as has_this_tag, needed_names, text_if};
ghost use Rattle.elf_image.specs.ImageModel.{entry_model, needs_model};
ghost use Rattle.elf_notes.specs.Notes.{entries_asked, entries_asked_by, libraries_asked, libraries_asked_by, put, put_by, symbols_asked, symbols_asked_by, symbols_put, symbols_put_by};

use elf_edits::ElfEdit;
use elf_format::constants::DT_NEEDED;
use elf_image::{Dynamic, VersionNeed};
use std::alloc::{AllocError, Global};

/// The libraries that entries need, in order.
pub(crate) fn needed_of<'e>(
    alloc: Global,
    entries: &'e [Dynamic<'_>],
) -> Result<Vec<&'e [u8]>, AllocError>
    ensures { IfOk result (λ names. map (λ n. n.now) names.items
        ≡ needed_names (map entry_model entries.entry.now)) }
{
    let mut names = Vec::new(alloc);
    for entry in entries {
        push_needed(&mut names, entry)?;
    }
    Ok(names)
}

/// Puts the library that an entry needs, if it needs one, behind others.
fn push_needed<'e>(names: &mut Vec<&'e [u8]>, entry: &'e Dynamic<'_>) -> Result<(), AllocError>
    ensures { OnOk result (map (λ n. n.now) names.new.items
        ≡ map (λ n. n.now) names.old.items
        ++ text_if (has_this_tag DT_NEEDED) (entry_model entry.entry.now)) }
{
    match entry {
        Dynamic::Text { tag, val } if *tag == DT_NEEDED => Ok(names.push(val.as_slice())?),
        _ => Ok(()),
    }
}

/// The libraries of which versions are needed, in order.
pub(crate) fn recorded_in<'e>(
    alloc: Global,
    needs: &'e [VersionNeed<'_>],
) -> Result<Vec<&'e [u8]>, AllocError>
    ensures { IfOk result (λ names. map (λ n. n.now) names.items
        ≡ map (λ n. n.file) (map needs_model needs.entry.now)) }
{
    let mut names = Vec::new(alloc);
    for need in needs {
        names.push(need.file.as_slice())?;
    }
    Ok(names)
}

/// The names of two lists, those of the second behind the others.
pub(crate) fn joined<'e>(
    alloc: Global,
    first: &[&'e [u8]],
    second: &[&'e [u8]],
) -> Result<Vec<&'e [u8]>, AllocError>
    ensures { IfOk result (λ names. map (λ n. n.now) names.items
        ≡ map (λ n. n.now) first.now ++ map (λ n. n.now) second.now) }
{
    let mut names = Vec::from_slice(alloc, first)?;
    for name in second {
        names.push(*name)?;
    }
    Ok(names)
}

/// The names that edits look for among the libraries that entries need, in order.
pub(crate) fn entries_asked_in<'e>(
    alloc: Global,
    edits: &'e [ElfEdit],
) -> Result<Vec<&'e [u8]>, AllocError>
    ensures { IfOk result (λ names.
        map (λ n. n.now) names.items ≡ entries_asked (map edit_model edits.entry.now)) }
{
    let mut names = Vec::new(alloc);
    for edit in edits {
        push_entries_asked(&mut names, edit)?;
    }
    Ok(names)
}

/// Puts the names that an edit looks for among these behind others.
fn push_entries_asked<'e>(names: &mut Vec<&'e [u8]>, edit: &'e ElfEdit) -> Result<(), AllocError>
    ensures { OnOk result (map (λ n. n.now) names.new.items
        ≡ map (λ n. n.now) names.old.items ++ entries_asked_by (edit_model edit.entry.now)) }
{
    match edit {
        ElfEdit::RemoveNeeded(texts) => push_texts(names, texts.as_slice()),
        ElfEdit::ReplaceNeeded(pairs) => push_old(names, pairs.as_slice()),
        _ => Ok(()),
    }
}

/// The names that edits look for both among these and among the libraries of needed versions, in order.
pub(crate) fn libraries_asked_in<'e>(
    alloc: Global,
    edits: &'e [ElfEdit],
) -> Result<Vec<&'e [u8]>, AllocError>
    ensures { IfOk result (λ names.
        map (λ n. n.now) names.items ≡ libraries_asked (map edit_model edits.entry.now)) }
{
    let mut names = Vec::new(alloc);
    for edit in edits {
        push_libraries_asked(&mut names, edit)?;
    }
    Ok(names)
}

/// Puts the names that an edit looks for there behind others.
fn push_libraries_asked<'e>(names: &mut Vec<&'e [u8]>, edit: &'e ElfEdit) -> Result<(), AllocError>
    ensures { OnOk result (map (λ n. n.now) names.new.items
        ≡ map (λ n. n.now) names.old.items ++ libraries_asked_by (edit_model edit.entry.now)) }
{
    match edit {
        ElfEdit::ReplaceLibrary(pairs) => push_old(names, pairs.as_slice()),
        _ => Ok(()),
    }
}

/// The names that edits may put among the libraries that entries need, in order.
pub(crate) fn put_in<'e>(alloc: Global, edits: &'e [ElfEdit]) -> Result<Vec<&'e [u8]>, AllocError>
    ensures { IfOk result (λ names.
        map (λ n. n.now) names.items ≡ put (map edit_model edits.entry.now)) }
{
    let mut names = Vec::new(alloc);
    for edit in edits {
        push_put(&mut names, edit)?;
    }
    Ok(names)
}

/// Puts the names that an edit may put there behind others.
fn push_put<'e>(names: &mut Vec<&'e [u8]>, edit: &'e ElfEdit) -> Result<(), AllocError>
    ensures { OnOk result (map (λ n. n.now) names.new.items
        ≡ map (λ n. n.now) names.old.items ++ put_by (edit_model edit.entry.now)) }
{
    match edit {
        ElfEdit::AddNeeded(texts) => push_texts(names, texts.as_slice()),
        ElfEdit::ReplaceLibrary(pairs) => push_new(names, pairs.as_slice()),
        ElfEdit::ReplaceNeeded(pairs) => push_new(names, pairs.as_slice()),
        _ => Ok(()),
    }
}

/// The names that edits look for among dynamic symbols, in order.
pub(crate) fn symbols_asked_in<'e>(
    alloc: Global,
    edits: &'e [ElfEdit],
) -> Result<Vec<&'e [u8]>, AllocError>
    ensures { IfOk result (λ names.
        map (λ n. n.now) names.items ≡ symbols_asked (map edit_model edits.entry.now)) }
{
    let mut names = Vec::new(alloc);
    for edit in edits {
        push_symbols_asked(&mut names, edit)?;
    }
    Ok(names)
}

/// Puts the names that an edit looks for among dynamic symbols behind others.
fn push_symbols_asked<'e>(names: &mut Vec<&'e [u8]>, edit: &'e ElfEdit) -> Result<(), AllocError>
    ensures { OnOk result (map (λ n. n.now) names.new.items
        ≡ map (λ n. n.now) names.old.items ++ symbols_asked_by (edit_model edit.entry.now)) }
{
    match edit {
        ElfEdit::RenameDynamicSymbols(pairs) => push_old(names, pairs.as_slice()),
        ElfEdit::ClearSymbolVersion(name) => Ok(names.push(name.as_slice())?),
        _ => Ok(()),
    }
}

/// The names that edits may give dynamic symbols, in order.
pub(crate) fn symbols_put_in<'e>(
    alloc: Global,
    edits: &'e [ElfEdit],
) -> Result<Vec<&'e [u8]>, AllocError>
    ensures { IfOk result (λ names.
        map (λ n. n.now) names.items ≡ symbols_put (map edit_model edits.entry.now)) }
{
    let mut names = Vec::new(alloc);
    for edit in edits {
        push_symbols_put(&mut names, edit)?;
    }
    Ok(names)
}

/// Puts the names that an edit may give dynamic symbols behind others.
fn push_symbols_put<'e>(names: &mut Vec<&'e [u8]>, edit: &'e ElfEdit) -> Result<(), AllocError>
    ensures { OnOk result (map (λ n. n.now) names.new.items
        ≡ map (λ n. n.now) names.old.items ++ symbols_put_by (edit_model edit.entry.now)) }
{
    match edit {
        ElfEdit::RenameDynamicSymbols(pairs) => push_new(names, pairs.as_slice()),
        _ => Ok(()),
    }
}

/// Puts texts behind names.
fn push_texts<'e>(names: &mut Vec<&'e [u8]>, texts: &'e [Vec<u8>]) -> Result<(), AllocError>
    ensures { OnOk result (map (λ n. n.now) names.new.items
        ≡ map (λ n. n.now) names.old.items ++ texts_model texts.entry.now) }
{
    for text in texts {
        names.push(text.as_slice())?;
    }
    Ok(())
}

/// Puts the first of each pair behind names.
fn push_old<'e>(
    names: &mut Vec<&'e [u8]>,
    pairs: &'e [(Vec<u8>, Vec<u8>)],
) -> Result<(), AllocError>
    ensures { OnOk result (map (λ n. n.now) names.new.items
        ≡ map (λ n. n.now) names.old.items ++ map (λ pair. pair.0) (pairs_model pairs.entry.now)) }
{
    for pair in pairs {
        names.push(pair.0.as_slice())?;
    }
    Ok(())
}

/// Puts the second of each pair behind names.
fn push_new<'e>(
    names: &mut Vec<&'e [u8]>,
    pairs: &'e [(Vec<u8>, Vec<u8>)],
) -> Result<(), AllocError>
    ensures { OnOk result (map (λ n. n.now) names.new.items
        ≡ map (λ n. n.now) names.old.items ++ map (λ pair. pair.1) (pairs_model pairs.entry.now)) }
{
    for pair in pairs {
        names.push(pair.1.as_slice())?;
    }
    Ok(())
}
