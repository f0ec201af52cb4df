//! Which entries of a dynamic list an edit is about, and what becomes of them.
ghost use Rattle.std.specs.Prelude.{◌≡◌, IfOk, map};
ghost use Rattle.std.specs.List.{list_any};
ghost use Rattle.std.specs.HashSet.{keys};
ghost use Rattle.elf_image.specs.ImageModel.{entry_model};
ghost use Rattle.elf_edits.specs.Changes.{change_model, gets_name, needs_one_of as needs_any, test_model};

use crate::entries::{
    is_run_path, text_entry, with_bits, with_directories, with_new_name, with_tag,
};
use elf_image::Dynamic;
use elf_image::constants::DT_NEEDED;
use std::alloc::{AllocError, Global};
use std::collections::{HashMap, HashSet};

// Which entries an edit is about.
#[derive(Clone, Copy)]
pub(crate) enum EntryTest<'e, 'n> {
    // Entries that have a run path.
    RunPath,
    // Entries that have this tag.
    Tag(u64),
    // Entries that need one of these libraries.
    Needs(&'e HashSet<&'n [u8]>),
    // Entries that need a library for which there is another name.
    Renamed(&'e HashMap<&'n [u8], &'n [u8]>),
}

impl EntryTest<'_, '_> {
    // Whether the test tells of an entry that the edit is about it.
    pub(crate) fn holds(&self, entry: &Dynamic<'_>) -> bool
        ensures { result ≡ test_model self.now (entry_model entry.now) }
    {
        match self {
            EntryTest::RunPath => is_run_path(entry),
            EntryTest::Tag(tag) => entry.has_tag(*tag),
            EntryTest::Needs(names) => needs_one_of(entry, names),
            EntryTest::Renamed(names) => has_new_name(entry, names),
        }
    }

    // Whether the test tells of one of some entries that the edit is about it.
    pub(crate) fn holds_of_any(&self, entries: &[Dynamic<'_>]) -> bool
        ensures { result ≡ list_any (test_model self.now) (map entry_model entries.now) }
    {
        for entry in entries {
            if self.holds(entry) {
                return true;
            }
        }
        false
    }
}

// Whether the entry needs one of these libraries.
fn needs_one_of(entry: &Dynamic<'_>, names: &HashSet<&[u8]>) -> bool
    ensures { result ≡ needs_any (keys names.now) (entry_model entry.now) }
{
    match entry {
        Dynamic::Text { tag, val } if *tag == DT_NEEDED => names.contains(val.as_slice()),
        _ => false,
    }
}

// Whether the entry needs a library that a map has.
fn has_new_name(entry: &Dynamic<'_>, names: &HashMap<&[u8], &[u8]>) -> bool
    ensures { result ≡ gets_name names.now.entries (entry_model entry.now) }
{
    match entry {
        Dynamic::Text { tag, val } if *tag == DT_NEEDED => names.contains_key(val.as_slice()),
        _ => false,
    }
}

// What becomes of an entry.
#[derive(Clone, Copy)]
pub(crate) enum EntryChange<'e, 'n> {
    // The entry has this text.
    Text(&'e [u8]),
    // Each of these directories is added to the entry's text.
    Directories(&'e [Vec<u8>]),
    // The entry has this tag.
    Tag(u64),
    // The entry's text is the other name for it here, if there is one.
    Name(&'e HashMap<&'n [u8], &'n [u8]>),
    // These bits are set in the entry's number.
    Bits(u64),
}

impl EntryChange<'_, '_> {
    // What becomes of an entry.
    pub(crate) fn apply<'d>(
        &self,
        alloc: Global,
        entry: &Dynamic<'d>,
    ) -> Result<Dynamic<'d>, AllocError>
        ensures { IfOk result (λ made. entry_model made
            ≡ change_model self.now (entry_model entry.now)) }
    {
        match self {
            EntryChange::Text(text) => text_entry(alloc, entry.tag(), text),
            EntryChange::Directories(directories) => with_directories(alloc, directories, entry),
            EntryChange::Tag(tag) => with_tag(alloc, *tag, entry),
            EntryChange::Name(names) => with_new_name(alloc, names, entry),
            EntryChange::Bits(bits) => with_bits(alloc, *bits, entry),
        }
    }
}
