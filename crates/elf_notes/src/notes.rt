//! What a user should know of edits of an ELF file.
ghost use Rattle.std.specs.Prelude.{◌≡◌, ◌<◌, [], ◌∷◌, IfOk, Some, drop, filter, length, map, option_map, slice_get, take};
ghost use Rattle.std.specs.HashSet.{keys};
ghost use Rattle.std.specs.List.{list_any};
ghost use Rattle.elf_edits.specs.Changes.{has_name};
ghost use Rattle.elf_format.specs.Options.{is_one_of};
ghost use Rattle.elf_format.specs.declared.constants.TheConstants.{SHT_REL as REL, SHT_RELA as RELA};
ghost use Rattle.elf_hashes.specs.Found.{is_found as may_be_found};
ghost use Rattle.elf_image.specs.ImageModel.{needs_model, section_model};
ghost use Rattle.elf_image.specs.Renumbering.{is_opaque as is_kept};
ghost use Rattle.elf_image_symbols.specs.Loan.{symbols_now};
ghost use Rattle.elf_layout_plan.specs.Staying.{unmarked_needs};
ghost use Rattle.elf_notes.specs.Notes.{AreLeft, is_hashed_anew as are_tables_made_anew, is_unread as are_numbers_kept, leaves_out as does_leave_out, old_needs, stands_in as stands_in_for, versioned_of};

use crate::findings::{Findings, entries_of};
use crate::names::needed_of;
use crate::old_place::seeks_old_place;
use crate::read_only::refuses_debug;
use crate::sets::{is_in, set_of, take_out};
use elf_format::constants::{SHT_GNU_HASH, SHT_REL, SHT_RELA};
use elf_format::numbers::word_at;
use elf_format::{Form, SectionData};
use elf_image::{Builder, Section, SymbolsNow, VersionNeed};
use elf_layout_plan::{StayingNeeds, read_source};
use std::alloc::{AllocError, Global};
use std::collections::HashSet;

/// What a user should know of edits that are made of a file.
#[derive(Drop)]
pub struct ElfNotes<'a> {
    /// What the edits looked for, and found.
    pub found: Findings<'a>,
    /// The libraries of which versions are needed in the file that is written, in their order, that were dropped and that
    /// no entry needs any more.
    pub old_needs: Vec<&'a [u8]>,
    /// Whether look-ups may find symbols by the new GNU hash table that the one that was read left out.
    pub finds_more: bool,
    /// Whether look-ups by the new hash tables don't find symbols that are defined elsewhere and have an address here.
    pub loses_addresses: bool,
    /// Whether relocations that can't be read keep the numbers of dynamic symbols that may get others.
    pub keeps_numbers: bool,
    /// Whether the file loads itself and its dynamic section moves, so that it looks for the section at the old place.
    pub seeks_old_place: bool,
    /// Whether an edit adds DT_DEBUG, and the dynamic section can't be written to where the file that is written has it.
    pub refuses_debug: bool,
    /// Whether the file is a program that may look for its program headers in memory, and they move to where none is loaded.
    pub loses_headers: bool,
    /// Whether bytes stood behind all that is written of the file.
    pub loses_bytes: bool,
}

/// What a user should know of edits that were made, by what they found and the image after them. Where a library was
/// dropped and the edits changed dynamic symbols, the image's source is read again; where the dynamic section of a file that loads
/// itself may move, or DT_DEBUG was added to one that can't be written to, the image is laid out. Error: `AllocError`.
pub fn notes_of<'a>(
    alloc: Global,
    found: Findings<'a>,
    edited: &'a Builder<'_>,
) -> Result<ElfNotes<'a>, AllocError>
    ensures found { IfOk result (λ notes. notes.found ≡ found.entry) }
    ensures left { IfOk result (AreLeft edited.entry.now) }
{
    let old_needs = old_needs_of(alloc, edited, &found.dropped)?;
    let seeks_old_place = seeks_old_place(alloc, edited)?;
    let refuses_debug = refuses_debug(alloc, edited, found.adds_debug)?;
    let loses_headers = found.has_loose_headers && edited.changed();
    let loses_bytes = found.has_bytes_behind && edited.changed();
    let is_hashed_anew = is_hashed_anew(edited);
    Ok(ElfNotes {
        found,
        old_needs,
        finds_more: is_hashed_anew && leave_out(edited),
        loses_addresses: is_hashed_anew && has_addresses(edited),
        keeps_numbers: is_hashed_anew && are_unread(edited.sections()),
        seeks_old_place,
        refuses_debug,
        loses_headers,
        loses_bytes,
    })
}

/// The libraries of which versions are needed in the file that is written, that are among some and that no entry needs.
fn old_needs_of<'a>(
    alloc: Global,
    edited: &'a Builder<'_>,
    names: &[&[u8]],
) -> Result<Vec<&'a [u8]>, AllocError>
    ensures { IfOk result (λ needs. map (λ n. n.now) needs.items
        ≡ old_needs (map (λ n. n.now) names.now) edited.entry.now) }
{
    if names.is_empty() {
        return Ok(Vec::new(alloc));
    }
    let needed = needed_of(alloc, entries_of(edited))?;
    let mut old = set_of(alloc, names)?;
    take_out(&mut old, &needed);
    let staying = staying_needs(alloc, edited)?;
    kept_needs(alloc, &edited.versions().needs, &staying, &old)
}

/// Which needed versions of an edited image stay.
fn staying_needs(alloc: Global, edited: &Builder<'_>) -> Result<StayingNeeds, AllocError>
    ensures { IfOk result (λ staying.
        map (λ n. n.file) (unmarked_needs staying.marks edited.now.needs)
        ≡ versioned_of edited.now) }
{
    let read = read_source(alloc, edited)?;
    StayingNeeds::new(alloc, &read, edited)
}

/// The libraries whose records stay, and that are in a set.
fn kept_needs<'a>(
    alloc: Global,
    needs: &'a [VersionNeed<'_>],
    staying: &StayingNeeds,
    old: &HashSet<&[u8]>,
) -> Result<Vec<&'a [u8]>, AllocError>
    ensures { IfOk result (λ kept. map (λ n. n.now) kept.items ≡ filter (has_name (keys old.now))
        (map (λ n. n.file) (unmarked_needs staying.now.marks (map needs_model needs.entry.now)))) }
{
    let mut kept = Vec::new(alloc);
    for need in needs {
        let name = need.file.as_slice();
        if staying.does_need_stay(need) && is_in(old, name) {
            kept.push(name)?;
        }
    }
    Ok(kept)
}

/// Whether a dynamic symbol has another name than it was read with.
fn is_hashed_anew(edited: &Builder<'_>) -> bool
    ensures { result ≡ are_tables_made_anew edited.now }
{
    // the image was read from its source
    let _source = edited.source();
    !edited.keeps_dynamic_names()
}

/// Whether the GNU hash table that was read left out a symbol that a look-up may find.
fn leave_out(edited: &Builder<'_>) -> bool
    ensures { result ≡ list_any
        (does_leave_out edited.now.form edited.now.dynamic_symbols) edited.now.sections }
{
    any_leaves_out(edited.form(), edited.dynamic_symbols(), edited.sections())
}

/// Whether one of some sections is a GNU hash table that left out a symbol that a look-up may find.
fn any_leaves_out(form: Form, symbols: SymbolsNow<'_>, sections: &[Section<'_>]) -> bool
    ensures { result ≡ list_any (does_leave_out form (symbols_now symbols.entry))
        (map section_model sections.now) }
{
    for section in sections {
        if leaves_out(form, &symbols, section) {
            return true;
        }
    }
    false
}

/// Whether a section is one.
fn leaves_out(form: Form, symbols: &SymbolsNow<'_>, section: &Section<'_>) -> bool
    ensures { result
        ≡ does_leave_out form (symbols_now symbols.now) (section_model section.now) }
{
    section.sh_type == SHT_GNU_HASH && is_any_found(symbols, word_at(form, section.content, 4))
}

/// Whether a look-up may find a symbol behind the first and before the one with this number.
fn is_any_found(symbols: &SymbolsNow<'_>, end: u32) -> bool
    ensures { result ≡ list_any may_be_found (drop 1 (take end (symbols_now symbols.now))) }
{
    for i in 1..symbols.len().min(end as usize) {
        if is_found(symbols, i) {
            return true;
        }
    }
    false
}

/// Whether a look-up may find the symbol at a position: it is defined, and not local (gABI, Symbol Table). Its name isn't
/// looked at.
fn is_found(symbols: &SymbolsNow<'_>, i: usize) -> bool
    requires { i < length (symbols_now symbols.now) }
    ensures { option_map may_be_found (slice_get (symbols_now symbols.now) i) ≡ Some result }
{
    let numbers = symbols.numbers(i, 0);
    numbers.st_shndx != 0 && numbers.st_info / 16 != 0
}

/// Whether a dynamic symbol behind the first is defined elsewhere, and has an address here.
fn has_addresses(edited: &Builder<'_>) -> bool
    ensures { result ≡ list_any stands_in_for (drop 1 edited.now.dynamic_symbols) }
{
    do_any_stand_in(edited.dynamic_symbols())
}

/// Whether a symbol behind the first is one.
fn do_any_stand_in(symbols: SymbolsNow<'_>) -> bool
    ensures { result ≡ list_any stands_in_for (drop 1 (symbols_now symbols.entry)) }
{
    for i in 1..symbols.len() {
        if stands_in(&symbols, i) {
            return true;
        }
    }
    false
}

/// Whether the symbol at a position is one. Its name isn't looked at.
#[inline(always)]
fn stands_in(symbols: &SymbolsNow<'_>, i: usize) -> bool
    requires { i < length (symbols_now symbols.now) }
    ensures { option_map stands_in_for (slice_get (symbols_now symbols.now) i) ≡ Some result }
{
    let numbers = symbols.numbers(i, 0);
    numbers.st_info / 16 != 0 && numbers.st_shndx == 0 && numbers.st_value != 0
}

/// Whether some sections have relocations that can't be read.
fn are_unread(sections: &[Section<'_>]) -> bool
    ensures { result ≡ list_any are_numbers_kept (map section_model sections.now) }
{
    for section in sections {
        if is_unread(section) {
            return true;
        }
    }
    false
}

/// Whether a section has relocations that can't be read.
fn is_unread(section: &Section<'_>) -> bool
    ensures { result ≡ are_numbers_kept (section_model section.now) }
{
    is_of_relocations(section.sh_type) && is_opaque(section.kind)
}

/// Whether sections of a type have relocations (gABI, Sections, `sh_type`).
fn is_of_relocations(kind: u32) -> bool
    ensures { result ≡ is_one_of (REL ∷ RELA ∷ []) kind }
{
    kind == SHT_REL || kind == SHT_RELA
}

/// Whether a section is kept as it is.
fn is_opaque(kind: SectionData) -> bool
    ensures { result ≡ is_kept kind }
{
    matches!(kind, SectionData::Opaque)
}
