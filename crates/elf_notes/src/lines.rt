//! The lines that tell notes.
ghost use Rattle.std.specs.Prelude.{◌≡◌, ◌++◌, IfOk, OnOk, map, string_bytes};
ghost use Rattle.std.specs.List.{flat_map};
ghost use Rattle.elf_notes.specs.Lines.{finding_lines, left_lines, line_if, line_of, lines_of, no_list_line, no_names_line, no_pairs_line, old_need_line, own_loader_line, renamed_loader_line, unmatched_line, unmatched_symbol_line};

use crate::findings::Findings;
use crate::notes::ElfNotes;
use std::alloc::{AllocError, Global};

/// The lines that tell what a user should know of edits of a file, each with the file's name. Error: `AllocError`.
pub fn note_lines(alloc: Global, file: &str, notes: &ElfNotes<'_>) -> Result<String, AllocError>
    ensures { IfOk result (λ text. string_bytes text ≡ lines_of file.now notes.now) }
{
    let mut text = String::new(alloc);
    put_old_needs(alloc, &mut text, file, &notes.old_needs)?;
    put_findings(alloc, &mut text, file, &notes.found)?;
    put_left(alloc, &mut text, file, notes)?;
    Ok(text)
}

/// Puts the lines of what edits found behind others.
fn put_findings(
    alloc: Global,
    text: &mut String,
    file: &str,
    found: &Findings<'_>,
) -> Result<(), AllocError>
    ensures { OnOk result (string_bytes text.new
        ≡ string_bytes text.old ++ finding_lines file.now found.now) }
{
    put_unmatched(alloc, text, file, &found.unmatched)?;
    put_unmatched_symbols(alloc, text, file, &found.unmatched_symbols)?;
    put_flags(alloc, text, file, found)?;
    Ok(())
}

/// Puts the lines of what holds of the edits and the file behind others.
fn put_flags(
    alloc: Global,
    text: &mut String,
    file: &str,
    found: &Findings<'_>,
) -> Result<(), AllocError>
    ensures { OnOk result (string_bytes text.new ≡ string_bytes text.old
        ++ line_if found.now.has_no_names file.now no_names_line
        ++ line_if found.now.has_no_pairs file.now no_pairs_line
        ++ line_if found.now.is_own_loader file.now own_loader_line
        ++ line_if found.now.renames_loader file.now renamed_loader_line
        ++ line_if found.now.lacks_list file.now no_list_line) }
{
    let no_names = "no name of a library is given";
    put_if(alloc, text, found.has_no_names, file, no_names)?;
    let no_pairs = "no name of a symbol is given";
    put_if(alloc, text, found.has_no_pairs, file, no_pairs)?;
    let own_loader = "it loads itself, and glibc stops where such a file has a run path";
    put_if(alloc, text, found.is_own_loader, file, own_loader)?;
    let renamed_loader =
        "it is a loader that libraries need by its old name: glibc loads that one too, and stops";
    put_if(alloc, text, found.renames_loader, file, renamed_loader)?;
    let no_list = "it has no dynamic section: a loader finds no library and no run path in it";
    put_if(alloc, text, found.lacks_list, file, no_list)
}

/// Puts the lines of what holds after the edits behind others.
fn put_left(
    alloc: Global,
    text: &mut String,
    file: &str,
    notes: &ElfNotes<'_>,
) -> Result<(), AllocError>
    ensures { OnOk result (string_bytes text.new
        ≡ string_bytes text.old ++ left_lines file.now notes.now) }
{
    let finds_more = "names that its GNU hash table left out can be found now";
    put_if(alloc, text, notes.finds_more, file, finds_more)?;
    let loses_addresses =
        "its own addresses of functions of libraries can't be found any more: pointers to one function may differ";
    put_if(alloc, text, notes.loses_addresses, file, loses_addresses)?;
    let keeps_numbers =
        "relocations that can't be read name symbols by their old numbers, which may be others now";
    put_if(alloc, text, notes.keeps_numbers, file, keeps_numbers)?;
    let old_place =
        "it loads itself, and looks for its dynamic section at the old place, from which that moved";
    put_if(alloc, text, notes.seeks_old_place, file, old_place)?;
    let read_only =
        "its dynamic section can't be written to: a loader that fills in DT_DEBUG ends there";
    put_if(alloc, text, notes.refuses_debug, file, read_only)?;
    let lost_headers =
        "its program headers lie in no loaded segment: a program that looks for them in memory may not find them any more";
    put_if(alloc, text, notes.loses_headers, file, lost_headers)?;
    let lost_bytes =
        "the bytes behind its last section and segment are gone: an AppImage loses its file system";
    put_if(alloc, text, notes.loses_bytes, file, lost_bytes)?;
    Ok(())
}

/// Puts a line behind others, where something holds.
fn put_if(
    alloc: Global,
    text: &mut String,
    holds: bool,
    file: &str,
    words: &str,
) -> Result<(), AllocError>
    ensures { OnOk result (string_bytes text.new
        ≡ string_bytes text.old ++ line_if holds file.now words.now) }
{
    if holds {
        put_line(alloc, text, file, (words, &[], ""))
    } else {
        Ok(())
    }
}

/// Puts the lines of libraries of which versions are needed behind others.
fn put_old_needs(
    alloc: Global,
    text: &mut String,
    file: &str,
    names: &[&[u8]],
) -> Result<(), AllocError>
    ensures { OnOk result (string_bytes text.new ≡ string_bytes text.old
        ++ flat_map (old_need_line file.now) (map (λ n. n.now) names.now)) }
{
    for name in names {
        let behind =
            ", and no entry needs it any more: glibc refuses to load this (replace-library renames both)";
        put_line(alloc, text, file, ("versions are needed of ", name, behind))?;
    }
    Ok(())
}

/// Puts the lines of names that were looked for in vain behind others.
fn put_unmatched(
    alloc: Global,
    text: &mut String,
    file: &str,
    names: &[&[u8]],
) -> Result<(), AllocError>
    ensures { OnOk result (string_bytes text.new ≡ string_bytes text.old
        ++ flat_map (unmatched_line file.now) (map (λ n. n.now) names.now)) }
{
    for name in names {
        put_line(alloc, text, file, ("no entry needs ", name, ""))?;
    }
    Ok(())
}

/// Puts the lines of names that were looked for in vain among symbols behind others.
fn put_unmatched_symbols(
    alloc: Global,
    text: &mut String,
    file: &str,
    names: &[&[u8]],
) -> Result<(), AllocError>
    ensures { OnOk result (string_bytes text.new ≡ string_bytes text.old
        ++ flat_map (unmatched_symbol_line file.now) (map (λ n. n.now) names.now)) }
{
    for name in names {
        put_line(alloc, text, file, ("no dynamic symbol is named ", name, ""))?;
    }
    Ok(())
}

/// Puts a line behind others: words, a name and words.
fn put_line(
    alloc: Global,
    text: &mut String,
    file: &str,
    words: (&str, &[u8], &str),
) -> Result<(), AllocError>
    ensures { OnOk result (string_bytes text.new ≡ string_bytes text.old
        ++ line_of file.now words.entry.0.now words.entry.1.now words.entry.2.now) }
{
    let (before, name, behind) = words;
    let name = String::from_utf8_lossy(alloc, name)?;
    text.push_str("note: ")?;
    text.push_str(file)?;
    text.push_str(": ")?;
    text.push_str(before)?;
    text.push_str(name.as_str())?;
    text.push_str(behind)?;
    text.push_str("\n")
}
