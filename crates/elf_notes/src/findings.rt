//! What edits of an ELF file look for in it, and find.
ghost use Rattle.std.specs.Prelude.{◌≡◌, ◌++◌, ◌&&◌, ◌||◌, IfOk, filter, map};
ghost use Rattle.std.specs.List.{list_any};
ghost use Rattle.elf_edits.specs.EditModel.{edit_model};
ghost use Rattle.elf_edits.specs.Texts.{is_among as among};
ghost use Rattle.elf_image.specs.ImageModel.{entry_model};
ghost use Rattle.elf_notes.specs.Notes.{AreFindings, adds_debug as puts_debug, asked, entries_asked, entries_of as entries_shown, gives_other_name as is_other_name_given, has_no_names as lacks_names, has_no_pairs as lacks_pairs, has_other_text as is_other_text, is_loader_name as names_loader, is_unmatched, libraries_asked, loads_itself as is_self_loading, recorded_of, rename_loader as do_rename_loader, says_loader as tells_loader, says_pie as tells_pie, sets_run_path as gives_run_path, unmatched_symbols};

use crate::behind::has_bytes_behind;
use crate::headers::has_loose_headers;
use crate::names::{
    entries_asked_in, joined, libraries_asked_in, needed_of, put_in, recorded_in, symbols_asked_in,
    symbols_put_in,
};
use crate::sets::{names_in, set_of, take_out};
use crate::symbols::unmatched_symbols_of;
use elf_edits::ElfEdit;
use elf_format::constants::{DT_FLAGS_1, DT_SONAME, ET_DYN};
use elf_image::{Builder, Dynamic};
use std::alloc::{AllocError, Global};

/// The bit of DT_FLAGS_1 that says that the file is a program (a GNU extension).
const DF_1_PIE: u64 = 0x0800_0000;

/// What edits look for in a file, and find.
#[derive(Drop)]
pub struct Findings<'e> {
    /// The libraries that entries needed, or that an edit put there, and that an edit removes or renames: those that are looked
    /// for among entries alone, then those of `replace-library`, each in the order of the edits and with repeats.
    pub dropped: Vec<&'e [u8]>,
    /// The names of libraries that edits look for, and that no entry has and no edit puts there, in the same order and with
    /// repeats; of `replace-library` those that no record of needed versions has either.
    pub unmatched: Vec<&'e [u8]>,
    /// The names that edits look for among dynamic symbols, and that none behind the first has and no edit gives one, in
    /// order and with repeats.
    pub unmatched_symbols: Vec<&'e [u8]>,
    /// Whether an edit of needed libraries has no names.
    pub has_no_names: bool,
    /// Whether an edit of the names of dynamic symbols has no pairs.
    pub has_no_pairs: bool,
    /// Whether a run path is set in a static PIE, or in a loader.
    pub is_own_loader: bool,
    /// Whether a loader gets another name than the one that it has, by which libraries need it.
    pub renames_loader: bool,
    /// Whether the file has no dynamic list, so that a loader finds no name and no run path in it.
    pub lacks_list: bool,
    /// Whether an edit adds DT_DEBUG.
    pub adds_debug: bool,
    /// Whether the file is a program that may look for its program headers in memory, where they are by the page of a loaded
    /// segment alone: none has all of them.
    pub has_loose_headers: bool,
    /// Whether bytes stand behind all loaded segments, sections and header tables, as the file system of an AppImage does.
    pub has_bytes_behind: bool,
}

/// What edits look for in an image, and find, before they are made. Error: `AllocError`.
pub fn findings_of<'e>(
    alloc: Global,
    image: &Builder<'_>,
    edits: &'e [ElfEdit],
) -> Result<Findings<'e>, AllocError>
    ensures { IfOk result (AreFindings (map edit_model edits.entry.now) image.now) }
{
    let needed = needed_of(alloc, entries_of(image))?;
    let put = put_in(alloc, edits)?;
    let dropped = dropped_by(alloc, edits, &needed, &put)?;
    let unmatched = unmatched_in(alloc, image, edits, &needed, &put)?;
    let unmatched_symbols = unmatched_symbols_in(alloc, image, edits)?;
    Ok(Findings {
        dropped,
        unmatched,
        unmatched_symbols,
        has_no_names: has_no_names(edits),
        has_no_pairs: has_no_pairs(edits),
        is_own_loader: gives_itself_a_run_path(image, edits),
        renames_loader: gives_loader_another_name(image, edits),
        lacks_list: image.dynamic_data().is_none(),
        adds_debug: add_debug(edits),
        has_loose_headers: has_loose_headers(image),
        has_bytes_behind: has_bytes_behind(image),
    })
}

/// The libraries that were needed, or are put there, and that edits remove or rename.
fn dropped_by<'e>(
    alloc: Global,
    edits: &'e [ElfEdit],
    needed: &[&[u8]],
    put: &[&[u8]],
) -> Result<Vec<&'e [u8]>, AllocError>
    ensures { IfOk result (λ names. map (λ n. n.now) names.items
        ≡ filter (among (map (λ n. n.now) needed.now ++ map (λ n. n.now) put.now))
        (asked (map edit_model edits.entry.now))) }
{
    let of_entries = entries_asked_in(alloc, edits)?;
    let of_libraries = libraries_asked_in(alloc, edits)?;
    let looked_for = joined(alloc, &of_entries, &of_libraries)?;
    let known = joined(alloc, needed, put)?;
    needed_among(alloc, &looked_for, &known)
}

/// The names of libraries that edits look for, and that nothing has and no edit puts there.
fn unmatched_in<'e>(
    alloc: Global,
    image: &Builder<'_>,
    edits: &'e [ElfEdit],
    needed: &[&[u8]],
    put: &[&[u8]],
) -> Result<Vec<&'e [u8]>, AllocError>
    ensures { IfOk result (λ names. map (λ n. n.now) names.items
        ≡ filter (is_unmatched (map (λ n. n.now) needed.now) (map (λ n. n.now) put.now))
        (entries_asked (map edit_model edits.entry.now))
        ++ filter (is_unmatched (map (λ n. n.now) needed.now ++ recorded_of image.now)
        (map (λ n. n.now) put.now)) (libraries_asked (map edit_model edits.entry.now))) }
{
    let of_entries = entries_asked_in(alloc, edits)?;
    let no_entries = unmatched_of(alloc, &of_entries, needed, put)?;
    let no_libraries = unmatched_libraries_in(alloc, image, edits, needed, put)?;
    joined(alloc, &no_entries, &no_libraries)
}

/// The names that `replace-library` looks for, and that neither an entry nor a record of needed versions has and no edit puts there.
fn unmatched_libraries_in<'e>(
    alloc: Global,
    image: &Builder<'_>,
    edits: &'e [ElfEdit],
    needed: &[&[u8]],
    put: &[&[u8]],
) -> Result<Vec<&'e [u8]>, AllocError>
    ensures { IfOk result (λ names. map (λ n. n.now) names.items
        ≡ filter (is_unmatched (map (λ n. n.now) needed.now ++ recorded_of image.now)
        (map (λ n. n.now) put.now)) (libraries_asked (map edit_model edits.entry.now))) }
{
    let of_libraries = libraries_asked_in(alloc, edits)?;
    let recorded = recorded_in(alloc, &image.versions().needs)?;
    let known = joined(alloc, needed, &recorded)?;
    unmatched_of(alloc, &of_libraries, &known, put)
}

/// The names that edits look for among dynamic symbols, and that none behind the first has and no edit gives one.
fn unmatched_symbols_in<'e>(
    alloc: Global,
    image: &Builder<'_>,
    edits: &'e [ElfEdit],
) -> Result<Vec<&'e [u8]>, AllocError>
    ensures { IfOk result (λ names. map (λ n. n.now) names.items
        ≡ unmatched_symbols (map edit_model edits.entry.now) image.now) }
{
    let asked = symbols_asked_in(alloc, edits)?;
    let put = symbols_put_in(alloc, edits)?;
    unmatched_symbols_of(alloc, &asked, &put, image.dynamic_symbols())
}

/// The entries of the dynamic list, none without one.
pub(crate) fn entries_of<'a, 'd>(image: &'a Builder<'d>) -> &'a [Dynamic<'d>]
    ensures { map entry_model result.now ≡ entries_shown image.entry.now }
{
    image.dynamic_data().unwrap_or_default()
}

/// Whether edits set a run path of a file that loads itself.
fn gives_itself_a_run_path(image: &Builder<'_>, edits: &[ElfEdit]) -> bool
    ensures { result
        ≡ (is_self_loading image.now && list_any gives_run_path (map edit_model edits.now)) }
{
    loads_itself(image) && sets_run_path(edits)
}

/// Whether edits give a loader another name than the one that it has.
fn gives_loader_another_name(image: &Builder<'_>, edits: &[ElfEdit]) -> bool
    ensures { result ≡ (is_self_loading image.now
        && do_rename_loader (map edit_model edits.now) (entries_shown image.now)) }
{
    loads_itself(image) && rename_loader(edits, entries_of(image))
}

/// Whether edits give another name to a file of which an entry has a loader's.
fn rename_loader(edits: &[ElfEdit], entries: &[Dynamic<'_>]) -> bool
    ensures { result
        ≡ do_rename_loader (map edit_model edits.now) (map entry_model entries.now) }
{
    for entry in entries {
        if says_loader(entry) {
            return give_other_name(entry, edits);
        }
    }
    false
}

/// Whether one of some edits gives a file another name of its own than an entry has.
fn give_other_name(entry: &Dynamic<'_>, edits: &[ElfEdit]) -> bool
    ensures { result
        ≡ list_any (is_other_name_given (entry_model entry.now)) (map edit_model edits.now) }
{
    for edit in edits {
        if gives_other_name(entry, edit) {
            return true;
        }
    }
    false
}

/// Whether an edit gives a file another name of its own than an entry has.
fn gives_other_name(entry: &Dynamic<'_>, edit: &ElfEdit) -> bool
    ensures { result ≡ is_other_name_given (entry_model entry.now) (edit_model edit.now) }
{
    match edit {
        ElfEdit::SetSoname(name) => has_other_text(entry, name.as_slice()),
        _ => false,
    }
}

/// Whether an entry has another text.
fn has_other_text(entry: &Dynamic<'_>, name: &[u8]) -> bool
    ensures { result ≡ is_other_text (entry_model entry.now) name.now }
{
    match entry {
        Dynamic::Text { tag: _, val } => val.as_slice() != name,
        _ => false,
    }
}

/// The names of some that are needed. The cost is in proportion to all of them.
fn needed_among<'a>(
    alloc: Global,
    asked: &[&'a [u8]],
    needed: &[&[u8]],
) -> Result<Vec<&'a [u8]>, AllocError>
    ensures { IfOk result (λ names. map (λ n. n.now) names.items
        ≡ filter (among (map (λ n. n.now) needed.now)) (map (λ n. n.now) asked.now)) }
{
    if asked.is_empty() {
        return Ok(Vec::new(alloc));
    }
    let set = set_of(alloc, needed)?;
    names_in(alloc, asked, &set)
}

/// The names of some that are in neither of two lists. The cost is in proportion to all of them.
fn unmatched_of<'a>(
    alloc: Global,
    asked: &[&'a [u8]],
    known: &[&[u8]],
    put: &[&[u8]],
) -> Result<Vec<&'a [u8]>, AllocError>
    ensures { IfOk result (λ names. map (λ n. n.now) names.items
        ≡ filter (is_unmatched (map (λ n. n.now) known.now) (map (λ n. n.now) put.now))
        (map (λ n. n.now) asked.now)) }
{
    if asked.is_empty() {
        return Ok(Vec::new(alloc));
    }
    let mut missing = set_of(alloc, asked)?;
    take_out(&mut missing, known);
    take_out(&mut missing, put);
    names_in(alloc, asked, &missing)
}

/// Whether one of some edits of needed libraries has no names.
fn has_no_names(edits: &[ElfEdit]) -> bool
    ensures { result ≡ list_any lacks_names (map edit_model edits.now) }
{
    for edit in edits {
        if is_without_names(edit) {
            return true;
        }
    }
    false
}

/// Whether an edit is one of needed libraries, without names.
fn is_without_names(edit: &ElfEdit) -> bool
    ensures { result ≡ lacks_names (edit_model edit.now) }
{
    match edit {
        ElfEdit::AddNeeded(names) => names.is_empty(),
        ElfEdit::RemoveNeeded(names) => names.is_empty(),
        ElfEdit::ReplaceLibrary(pairs) => pairs.is_empty(),
        ElfEdit::ReplaceNeeded(pairs) => pairs.is_empty(),
        _ => false,
    }
}

/// Whether one of some edits of dynamic symbols' names has no pairs.
fn has_no_pairs(edits: &[ElfEdit]) -> bool
    ensures { result ≡ list_any lacks_pairs (map edit_model edits.now) }
{
    for edit in edits {
        if is_without_pairs(edit) {
            return true;
        }
    }
    false
}

/// Whether an edit is one of dynamic symbols' names, without pairs.
fn is_without_pairs(edit: &ElfEdit) -> bool
    ensures { result ≡ lacks_pairs (edit_model edit.now) }
{
    match edit {
        ElfEdit::RenameDynamicSymbols(pairs) => pairs.is_empty(),
        _ => false,
    }
}

/// Whether one of some edits sets a run path.
fn sets_run_path(edits: &[ElfEdit]) -> bool
    ensures { result ≡ list_any gives_run_path (map edit_model edits.now) }
{
    for edit in edits {
        if is_of_run_path(edit) {
            return true;
        }
    }
    false
}

/// Whether an edit sets a run path.
fn is_of_run_path(edit: &ElfEdit) -> bool
    ensures { result ≡ gives_run_path (edit_model edit.now) }
{
    match edit {
        ElfEdit::SetRpath(_) => true,
        ElfEdit::AddRpath(_) => true,
        _ => false,
    }
}

/// Whether one of some edits adds DT_DEBUG.
fn add_debug(edits: &[ElfEdit]) -> bool
    ensures { result ≡ list_any puts_debug (map edit_model edits.now) }
{
    for edit in edits {
        if adds_debug(edit) {
            return true;
        }
    }
    false
}

/// Whether an edit adds DT_DEBUG.
fn adds_debug(edit: &ElfEdit) -> bool
    ensures { result ≡ puts_debug (edit_model edit.now) }
{
    match edit {
        ElfEdit::AddDebugTag => true,
        _ => false,
    }
}

/// Whether a file is a static PIE, or a loader.
pub(crate) fn loads_itself(image: &Builder<'_>) -> bool
    ensures { result ≡ is_self_loading image.now }
{
    image.header().e_type == ET_DYN
        && image.interp_data().is_none()
        && say_own_loader(entries_of(image))
}

/// Whether an entry says that the file is a program, or has the name of a loader.
fn say_own_loader(entries: &[Dynamic<'_>]) -> bool
    ensures { result ≡ list_any (λ e. tells_pie e || tells_loader e) (map entry_model entries.now) }
{
    for entry in entries {
        if says_pie(entry) || says_loader(entry) {
            return true;
        }
    }
    false
}

/// Whether an entry says that the file is a program.
fn says_pie(entry: &Dynamic<'_>) -> bool
    ensures { result ≡ tells_pie (entry_model entry.now) }
{
    match entry {
        Dynamic::Integer { tag, val } => *tag == DT_FLAGS_1 && *val & DF_1_PIE != 0,
        _ => false,
    }
}

/// Whether an entry has the name of a loader.
fn says_loader(entry: &Dynamic<'_>) -> bool
    ensures { result ≡ tells_loader (entry_model entry.now) }
{
    match entry {
        Dynamic::Text { tag, val } => *tag == DT_SONAME && is_loader_name(val.as_slice()),
        _ => false,
    }
}

/// Whether a name begins as those of loaders do.
fn is_loader_name(name: &[u8]) -> bool
    ensures { result ≡ names_loader name.now }
{
    name.starts_with(&[0x6c, 0x64, 0x2d])
        || name.starts_with(&[0x6c, 0x64, 0x2e])
        || name.starts_with(&[0x6c, 0x64, 0x36, 0x34, 0x2e])
}
