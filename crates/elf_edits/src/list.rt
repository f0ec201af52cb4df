//! Dynamic lists that edits make.
ghost use Rattle.std.specs.Prelude.{◌≡◌, ◌++◌, ◌∷◌, [], false, true, not, if◌then◌else◌, IfOk, filter, map};
ghost use Rattle.std.specs.HashSet.{keys};
ghost use Rattle.std.specs.List.{list_any};
ghost use Rattle.elf_image.specs.Dynamic.{Integer as number_of_tag, Text as text_of_tag};
ghost use Rattle.elf_image.specs.Image.{lists_tag};
ghost use Rattle.elf_image.specs.ImageModel.{entry_model};
ghost use Rattle.elf_edits.specs.Changes.{IsNewList, change_model, has_name, test_model};
ghost use Rattle.elf_edits.specs.TextModel.{pairs_model, texts_model};
ghost use Rattle.elf_edits.specs.Entries.{changed_where, has_tag as has_that_tag, is_replaced, is_run_path as has_run_path, needs_one_of, not_needed_yet, with_tags_changed, with_last_unless_there, with_needed_added, with_needed_replaced, with_run_paths_added, with_text_set, without_default_directories, without_needed};
ghost use Rattle.elf_edits.specs.Texts.{has_some, joined_by_colons};

use crate::changes::{EntryChange, EntryTest};
use crate::constants::DF_1_NODEFLIB;
use crate::entries::text_entry;
use crate::lookups::{map_of, needed_set, set_of};
use crate::texts::join;
use elf_image::Dynamic;
use elf_image::constants::{DT_DEBUG, DT_FLAGS_1, DT_NEEDED, DT_RPATH, DT_RUNPATH};
use patch_bytes::ByteString;
use std::alloc::{AllocError, Global};
use std::collections::HashSet;

/// A dynamic list after an edit.
#[derive(Drop)]
pub struct NewList<'d> {
    /// The entries.
    pub entries: Vec<Dynamic<'d>>,
    /// Whether the edit added, removed or wrote something, be it what was there already.
    pub is_touched: bool,
}

/// Whether an entry has this tag. Takes no memory.
pub fn any_with_tag(entries: &[Dynamic<'_>], tag: u64) -> bool
    ensures { result ≡ list_any (has_that_tag tag) (map entry_model entries.now) }
{
    EntryTest::Tag(tag).holds_of_any(entries)
}

// Whether an entry has a run path.
pub(crate) fn any_run_path(entries: &[Dynamic<'_>]) -> bool
    ensures { result ≡ list_any has_run_path (map entry_model entries.now) }
{
    EntryTest::RunPath.holds_of_any(entries)
}

// Puts copies of entries behind others.
fn put_copies<'d>(
    alloc: Global,
    entries: &[Dynamic<'d>],
    made: &mut Vec<Dynamic<'d>>,
) -> Result<(), AllocError>
    ensures { IfOk result (λ _. map entry_model made.new.items
        ≡ map entry_model made.old.items ++ map entry_model entries.now) }
{
    for entry in entries {
        made.push(entry.try_clone(alloc)?)?;
    }
    Ok(())
}

// The list as it is, which no edit wrote.
pub(crate) fn copy_list<'d>(
    alloc: Global,
    entries: &[Dynamic<'d>],
) -> Result<NewList<'d>, AllocError>
    ensures { IfOk result (IsNewList (map entry_model entries.now) false) }
{
    let mut made = Vec::new(alloc);
    put_copies(alloc, entries, &mut made)?;
    Ok(NewList {
        entries: made,
        is_touched: false,
    })
}

// The list with an entry put last.
fn with_last<'d>(
    alloc: Global,
    entries: &[Dynamic<'d>],
    last: Dynamic<'d>,
) -> Result<NewList<'d>, AllocError>
    ensures { IfOk result (IsNewList (map entry_model entries.now ++ entry_model last.entry ∷ [])
        true) }
{
    let mut made = Vec::new(alloc);
    put_copies(alloc, entries, &mut made)?;
    made.push(last)?;
    Ok(NewList {
        entries: made,
        is_touched: true,
    })
}

// The list with an entry of this text put last.
fn with_last_text<'d>(
    alloc: Global,
    entries: &[Dynamic<'d>],
    tag: u64,
    text: &[u8],
) -> Result<NewList<'d>, AllocError>
    ensures { IfOk result (IsNewList
        (map entry_model entries.now ++ text_of_tag tag text.now ∷ []) true) }
{
    let last = text_entry(alloc, tag, text)?;
    with_last(alloc, entries, last)
}

// An entry, changed where an edit is about it.
fn change_entry<'d>(
    alloc: Global,
    test: &EntryTest<'_, '_>,
    change: &EntryChange<'_, '_>,
    entry: &Dynamic<'d>,
) -> Result<Dynamic<'d>, AllocError>
    ensures { IfOk result (λ made. entry_model made
        ≡ (if test_model test.now (entry_model entry.now)
        then change_model change.now (entry_model entry.now) else entry_model entry.now)) }
{
    if test.holds(entry) {
        change.apply(alloc, entry)
    } else {
        entry.try_clone(alloc)
    }
}

// The list with the entries changed that an edit is about, which wrote them.
fn change_entries<'d>(
    alloc: Global,
    test: &EntryTest<'_, '_>,
    change: &EntryChange<'_, '_>,
    entries: &[Dynamic<'d>],
) -> Result<NewList<'d>, AllocError>
    ensures { IfOk result (IsNewList (changed_where (test_model test.now) (change_model change.now)
        (map entry_model entries.now)) true) }
{
    let mut made = Vec::new(alloc);
    for entry in entries {
        made.push(change_entry(alloc, test, change, entry)?)?;
    }
    Ok(NewList {
        entries: made,
        is_touched: true,
    })
}

// The list with the entries changed that an edit is about, which wrote nothing where it is about no
// entry.
fn change_where<'d>(
    alloc: Global,
    test: &EntryTest<'_, '_>,
    change: &EntryChange<'_, '_>,
    entries: &[Dynamic<'d>],
) -> Result<NewList<'d>, AllocError>
    ensures { IfOk result (IsNewList (changed_where (test_model test.now) (change_model change.now)
        (map entry_model entries.now)) (list_any (test_model test.now)
        (map entry_model entries.now))) }
{
    if test.holds_of_any(entries) {
        change_entries(alloc, test, change, entries)
    } else {
        copy_list(alloc, entries)
    }
}

// The entries that an edit is not about.
fn entries_without<'d>(
    alloc: Global,
    test: &EntryTest<'_, '_>,
    entries: &[Dynamic<'d>],
) -> Result<Vec<Dynamic<'d>>, AllocError>
    ensures { IfOk result (λ made. map entry_model made.items
        ≡ filter (λ e. not (test_model test.now e)) (map entry_model entries.now)) }
{
    let mut made = Vec::new(alloc);
    for entry in entries {
        if !test.holds(entry) {
            made.push(entry.try_clone(alloc)?)?;
        }
    }
    Ok(made)
}

// The list without the entries that an edit is about.
pub(crate) fn delete_where<'d>(
    alloc: Global,
    test: &EntryTest<'_, '_>,
    entries: &[Dynamic<'d>],
) -> Result<NewList<'d>, AllocError>
    ensures { IfOk result (IsNewList (filter (λ e. not (test_model test.now e))
        (map entry_model entries.now)) (list_any (test_model test.now)
        (map entry_model entries.now))) }
{
    let made = entries_without(alloc, test, entries)?;
    Ok(NewList {
        entries: made,
        is_touched: test.holds_of_any(entries),
    })
}

// The list with a DT_RPATH for each DT_RUNPATH.
pub(crate) fn use_rpath<'d>(
    alloc: Global,
    entries: &[Dynamic<'d>],
) -> Result<NewList<'d>, AllocError>
    ensures { IfOk result (IsNewList
        (with_tags_changed DT_RUNPATH DT_RPATH (map entry_model entries.now))
        (lists_tag DT_RUNPATH (map entry_model entries.now))) }
{
    let test = EntryTest::Tag(DT_RUNPATH);
    change_where(alloc, &test, &EntryChange::Tag(DT_RPATH), entries)
}

// The list with an entry for a debugger.
pub(crate) fn add_debug_entry<'d>(
    alloc: Global,
    entries: &[Dynamic<'d>],
) -> Result<NewList<'d>, AllocError>
    ensures { IfOk result (IsNewList
        (with_last_unless_there (number_of_tag DT_DEBUG 0) (map entry_model entries.now))
        (not (lists_tag DT_DEBUG (map entry_model entries.now)))) }
{
    if any_with_tag(entries, DT_DEBUG) {
        copy_list(alloc, entries)
    } else {
        let last = Dynamic::Integer {
            tag: DT_DEBUG,
            val: 0,
        };
        with_last(alloc, entries, last)
    }
}

// The list with this text in the entries that an edit is about; without one, with an entry of the text last.
pub(crate) fn set_text<'d>(
    alloc: Global,
    test: &EntryTest<'_, '_>,
    tag: u64,
    text: &[u8],
    entries: &[Dynamic<'d>],
) -> Result<NewList<'d>, AllocError>
    ensures { IfOk result (IsNewList (with_text_set (test_model test.now) tag text.now
        (map entry_model entries.now)) true) }
{
    if test.holds_of_any(entries) {
        change_entries(alloc, test, &EntryChange::Text(text), entries)
    } else {
        with_last_text(alloc, entries, tag, text)
    }
}

// The list with a run path of directories put last.
fn with_last_run_path<'d>(
    alloc: Global,
    directories: &[Vec<u8>],
    entries: &[Dynamic<'d>],
) -> Result<NewList<'d>, AllocError>
    ensures { IfOk result (IsNewList (map entry_model entries.now
        ++ text_of_tag DT_RUNPATH (joined_by_colons (texts_model directories.now)) ∷ []) true) }
{
    let val = ByteString::owned(join(alloc, directories)?);
    with_last(
        alloc,
        entries,
        Dynamic::Text {
            tag: DT_RUNPATH,
            val,
        },
    )
}

// The list with directories added to each run path; without one, with a run path of them last.
pub(crate) fn add_directories<'d>(
    alloc: Global,
    directories: &[Vec<u8>],
    entries: &[Dynamic<'d>],
) -> Result<NewList<'d>, AllocError>
    ensures { IfOk result (IsNewList (with_run_paths_added (texts_model directories.now)
        (map entry_model entries.now)) true) }
{
    if any_run_path(entries) {
        let change = EntryChange::Directories(directories);
        change_entries(alloc, &EntryTest::RunPath, &change, entries)
    } else {
        with_last_run_path(alloc, directories, entries)
    }
}

// The list with DF_1_NODEFLIB in each DT_FLAGS_1; without one, with one last.
pub(crate) fn leave_out_defaults<'d>(
    alloc: Global,
    entries: &[Dynamic<'d>],
) -> Result<NewList<'d>, AllocError>
    ensures { IfOk result (IsNewList (without_default_directories (map entry_model entries.now))
        true) }
{
    let test = EntryTest::Tag(DT_FLAGS_1);
    if test.holds_of_any(entries) {
        change_entries(alloc, &test, &EntryChange::Bits(DF_1_NODEFLIB), entries)
    } else {
        let last = Dynamic::Integer {
            tag: DT_FLAGS_1,
            val: DF_1_NODEFLIB,
        };
        with_last(alloc, entries, last)
    }
}

// The list without needed libraries of these names.
pub(crate) fn delete_needed<'d>(
    alloc: Global,
    names: &[Vec<u8>],
    entries: &[Dynamic<'d>],
) -> Result<NewList<'d>, AllocError>
    ensures { IfOk result (IsNewList (without_needed (texts_model names.now)
        (map entry_model entries.now)) (list_any (needs_one_of (texts_model names.now))
        (map entry_model entries.now))) }
{
    let set = set_of(alloc, names)?;
    delete_where(alloc, &EntryTest::Needs(&set), entries)
}

// The list with needed libraries replaced; of a repeated old name the last pair counts.
pub(crate) fn replace_needed<'d>(
    alloc: Global,
    pairs: &[(Vec<u8>, Vec<u8>)],
    entries: &[Dynamic<'d>],
) -> Result<NewList<'d>, AllocError>
    ensures { IfOk result (IsNewList (with_needed_replaced (pairs_model pairs.now)
        (map entry_model entries.now)) (list_any (is_replaced (pairs_model pairs.now))
        (map entry_model entries.now))) }
{
    let names = map_of(alloc, pairs)?;
    change_where(
        alloc,
        &EntryTest::Renamed(&names),
        &EntryChange::Name(&names),
        entries,
    )
}

// The entries for names that are not in a set.
fn entries_for_new<'d>(
    alloc: Global,
    names: &[Vec<u8>],
    set: &HashSet<&[u8]>,
) -> Result<Vec<Dynamic<'d>>, AllocError>
    ensures { IfOk result (λ made. map entry_model made.items
        ≡ map (text_of_tag DT_NEEDED) (filter (λ name. not (has_name (keys set.now) name))
        (texts_model names.now))) }
{
    let mut made = Vec::new(alloc);
    for name in names {
        if !set.contains(name.as_slice()) {
            made.push(text_entry(alloc, DT_NEEDED, name.as_slice())?)?;
        }
    }
    Ok(made)
}

// The entries for names of libraries that are not needed yet.
fn new_needed<'d>(
    alloc: Global,
    names: &[Vec<u8>],
    entries: &[Dynamic<'_>],
) -> Result<Vec<Dynamic<'d>>, AllocError>
    ensures { IfOk result (λ made. map entry_model made.items
        ≡ map (text_of_tag DT_NEEDED) (not_needed_yet (texts_model names.now)
        (map entry_model entries.now))) }
{
    let set = needed_set(alloc, entries)?;
    entries_for_new(alloc, names, &set)
}

// The list with the libraries that are not needed yet before all entries.
pub(crate) fn add_needed<'d>(
    alloc: Global,
    names: &[Vec<u8>],
    entries: &[Dynamic<'d>],
) -> Result<NewList<'d>, AllocError>
    ensures { IfOk result (IsNewList (with_needed_added (texts_model names.now)
        (map entry_model entries.now)) (has_some (not_needed_yet (texts_model names.now)
        (map entry_model entries.now)))) }
{
    let mut made = new_needed(alloc, names, entries)?;
    let is_touched = !made.is_empty();
    put_copies(alloc, entries, &mut made)?;
    Ok(NewList {
        entries: made,
        is_touched,
    })
}
