//! Sections that get other names, or go.
ghost use Rattle.std.specs.Prelude.{◌≡◌, ◌<◌, ◌≤◌, ◌-◌, IfOk, IfSome, MatchResult, drop, false, is_some, length, map};
ghost use Rattle.std.specs.List.{list_any};
ghost use Rattle.std.specs.List.Sorted.{IsNonDecreasing};
ghost use Rattle.elf_edits.specs.Changes.{name_for};
ghost use Rattle.elf_edits.specs.TextModel.{pairs_model};
ghost use Rattle.elf_edits.specs.Texts.{holds_nul as nul_in, value_of};
ghost use Rattle.elf_image_symbols.specs.EditedList.{IsName};
ghost use Rattle.elf_image.specs.Along.{symbols_along};
ghost use Rattle.elf_image.specs.Deleted.{CanDelete, without_sections};
ghost use Rattle.elf_image.specs.ImageModel.{section_model, text_model};
ghost use Rattle.elf_symbol_edits.specs.EditModel.{IsDone};
ghost use Rattle.elf_symbol_edits.specs.Named.{section_name};
ghost use Rattle.elf_symbol_edits.specs.Steps.{AreNames, with_name_at, with_section_names};
ghost use Rattle.elf_symbol_edits.specs.SymbolEdit.{RenameSections, texts_of};

use elf_edits::lookups::map_of;
use elf_edits::remaining_segments;
use elf_image::{Builder, Section};
use patch_bytes::ByteString;
use std::alloc::{AllocError, Global};
use std::collections::HashMap;

// A copy of the name that a map has for a name, if it has one.
fn new_name<'d>(
    alloc: Global,
    names: &HashMap<&[u8], &[u8]>,
    name: &[u8],
) -> Result<Option<ByteString<'d>>, AllocError>
    ensures { IfOk result (λ made. text_model made ≡ name_for names.now.entries name.now) }
{
    match names.get(name) {
        None => Ok(None),
        Some(other) => {
            let copy = Vec::from_slice(alloc, other)?;
            Ok(Some(ByteString::owned(copy)))
        }
    }
}

// The names that a map has for those of the sections behind the first.
fn names_in<'d>(
    alloc: Global,
    names: &HashMap<&[u8], &[u8]>,
    sections: &[Section<'_>],
) -> Result<Vec<Option<ByteString<'d>>>, AllocError>
    ensures { IfOk result (λ made. map text_model made.items
        ≡ map (λ s. name_for names.now.entries (section_name s))
        (drop 1 (map section_model sections.now))) }
{
    let mut made = Vec::new(alloc);
    for i in 1..sections.len() {
        made.push(new_name(alloc, names, sections[i].name.as_slice())?)?;
    }
    Ok(made)
}

// The names that some pairs have for those of the sections behind the first.
fn new_names<'d>(
    alloc: Global,
    pairs: &[(Vec<u8>, Vec<u8>)],
    sections: &[Section<'_>],
) -> Result<Vec<Option<ByteString<'d>>>, AllocError>
    ensures { IfOk result (λ made. map text_model made.items
        ≡ map (λ s. value_of (pairs_model pairs.now) (section_name s))
        (drop 1 (map section_model sections.now))) }
{
    let names = map_of(alloc, pairs)?;
    names_in(alloc, &names, sections)
}

// Whether there is a name.
fn has_name(names: &[Option<ByteString<'_>>]) -> bool
    ensures { result ≡ list_any is_some names.now }
{
    for name in names {
        if name.is_some() {
            return true;
        }
    }
    false
}

// Gives the section at a position a name, where there is one. Takes no memory.
fn put_name<'d>(image: &mut Builder<'d>, i: usize, name: Option<ByteString<'d>>)
    requires there { i < length image.old.sections }
    requires whole { IfSome (text_model name) IsName }
    ensures { image.new ≡ with_name_at i (text_model name.entry) image.old }
{
    if let Some(name) = name {
        image.set_section_name(i, name);
    }
}

// Gives the sections behind the first these names, from the last one back, where there are some.
// Takes no memory.
fn put_names<'d>(image: &mut Builder<'d>, mut names: Vec<Option<ByteString<'d>>>)
    requires few { length names.items ≤ length image.old.sections - 1 }
    requires whole { AreNames (map text_model names.items) }
    ensures { image.new ≡ with_section_names (map text_model names.entry.items) image.old }
{
    while let Some(name) = names.pop() {
        put_name(image, names.len() + 1, name);
    }
}

// Gives sections other names, and tells whether there was one to rename. Error: `AllocError`, and nothing has changed.
pub(crate) fn rename_sections(
    alloc: Global,
    image: &mut Builder<'_>,
    pairs: &[(Vec<u8>, Vec<u8>)],
) -> Result<bool, AllocError>
    requires { list_any nul_in (texts_of (RenameSections (pairs_model pairs.now))) ≡ false }
    ensures { MatchResult result
        (IsDone (RenameSections (pairs_model pairs.now)) image.old image.new)
        (λ _. image.new ≡ image.old) }
{
    let names = new_names(alloc, pairs, image.sections())?;
    let is_found = has_name(&names);
    put_names(image, names);
    Ok(is_found)
}

// Deletes the sections with some numbers, where they can go, with what goes along. Error: `AllocError`, and nothing has
// changed.
pub(crate) fn delete_sections(
    alloc: Global,
    image: &mut Builder<'_>,
    gone: &[usize],
    symbols: &[usize],
) -> Result<(), AllocError>
    requires rising { IsNonDecreasing gone.now }
    requires sections { CanDelete image.old gone.now }
    requires along { symbols.now ≡ symbols_along image.old gone.now }
    requires order { IsNonDecreasing symbols.now }
    ensures { MatchResult result (λ _. image.new ≡ without_sections gone.now image.old)
        (λ _. image.new ≡ image.old) }
{
    let segments = remaining_segments(alloc, image, gone)?;
    image.delete_sections(gone, symbols, segments);
    Ok(())
}
