//! The dynamic list with run paths that shrink.
ghost use Rattle.std.specs.Prelude.{◌≡◌, ◌++◌, if◌then◌else◌, IfOk, OnOk, map};
ghost use Rattle.std.specs.List.{flat_map};
ghost use Rattle.elf_image.specs.ImageModel.{entry_model};
ghost use Rattle.elf_edits.specs.EditModel.{texts_model};
ghost use Rattle.elf_edits.specs.Entries.{directories_removed, is_run_path as has_run_path, search_of, text_if, with_run_paths_shrunk, with_text_changed};
ghost use Rattle.elf_edits.specs.Shrunk.{removed_from, shrunk_text};
ghost use Rattle.elf_edits_shrink.specs.ShrinkModel.{answer_model, removal_model, search_model, texts_of_entry};

use crate::probe::ProbeAnswer;
use crate::questions::needed_names;
use crate::removal::Removed;
use crate::search::{Search, answers_by_pair, directories};
use elf_edits::entries::is_run_path;
use elf_image::Dynamic;
use patch_bytes::ByteString;
use std::alloc::{AllocError, Global};

// An entry with its text shrunk: without the directories that go, which are put to the others that went.
fn shrink_text<'d>(
    alloc: Global,
    s: &Search<'_>,
    entry: &Dynamic<'d>,
    removed: &mut Vec<Removed>,
) -> Result<Dynamic<'d>, AllocError>
    ensures entry { IfOk result (λ made. entry_model made
        ≡ with_text_changed (shrunk_text (search_model s.now)) (entry_model entry.now)) }
    ensures gone { OnOk result (map removal_model removed.new.items
        ≡ map removal_model removed.old.items
        ++ flat_map (removed_from (search_model s.now)) (texts_of_entry (entry_model entry.now))) }
{
    match entry {
        Dynamic::Text { tag, val } => {
            let parts = directories(alloc, val.as_slice())?;
            let val = ByteString::owned(s.shrink_parts(alloc, parts.as_slice(), removed)?);
            Ok(Dynamic::Text { tag: *tag, val })
        }
        other => other.try_clone(alloc),
    }
}

// An entry with its run path shrunk, if it has one.
fn shrink_entry<'d>(
    alloc: Global,
    s: &Search<'_>,
    entry: &Dynamic<'d>,
    removed: &mut Vec<Removed>,
) -> Result<Dynamic<'d>, AllocError>
    ensures entry { IfOk result (λ made. entry_model made
        ≡ (if has_run_path (entry_model entry.now)
        then with_text_changed (shrunk_text (search_model s.now)) (entry_model entry.now)
        else entry_model entry.now)) }
    ensures gone { OnOk result (map removal_model removed.new.items
        ≡ map removal_model removed.old.items ++ flat_map (removed_from (search_model s.now))
        (text_if has_run_path (entry_model entry.now))) }
{
    if is_run_path(entry) {
        shrink_text(alloc, s, entry, removed)
    } else {
        entry.try_clone(alloc)
    }
}

// The entries with run paths that shrink.
fn shrink_entries<'d>(
    alloc: Global,
    s: &Search<'_>,
    entries: &[Dynamic<'d>],
    removed: &mut Vec<Removed>,
) -> Result<Vec<Dynamic<'d>>, AllocError>
    ensures entries { IfOk result (λ made. map entry_model made.items
        ≡ with_run_paths_shrunk (search_model s.now) (map entry_model entries.now)) }
    ensures gone { OnOk result (map removal_model removed.new.items
        ≡ map removal_model removed.old.items
        ++ directories_removed (search_model s.now) (map entry_model entries.now)) }
{
    let mut made = Vec::new(alloc);
    for entry in entries {
        made.push(shrink_entry(alloc, s, entry, removed)?)?;
    }
    Ok(made)
}

/// A dynamic list whose run paths shrank.
#[derive(Drop)]
pub struct ShrunkList<'d> {
    /// The entries.
    pub entries: Vec<Dynamic<'d>>,
    /// The directories that went, in order.
    pub removed: Vec<Removed>,
}

/// The dynamic list without the directories of run paths that no prefix begins, or in which no needed library was found
/// for the machine; an entry whose directories all go keeps the empty text. Where there are no prefixes, all are
/// allowed. The first answer for a directory and a library counts. The cost is in proportion to the list, its pairs of
/// a directory and a library, and the answers. Error: `AllocError`.
pub fn shrink_list<'d>(
    alloc: Global,
    machine: u16,
    prefixes: &[Vec<u8>],
    answers: &[ProbeAnswer<'_>],
    entries: &[Dynamic<'d>],
) -> Result<ShrunkList<'d>, AllocError>
    ensures list { IfOk result (λ made. let es = map entry_model entries.now in
        map entry_model made.entries.items ≡ with_run_paths_shrunk (search_of machine (texts_model prefixes.now)
        (map answer_model answers.now) es) es) }
    ensures gone { IfOk result (λ made. let es = map entry_model entries.now in
        map removal_model made.removed.items ≡ directories_removed (search_of machine (texts_model prefixes.now)
        (map answer_model answers.now) es) es) }
{
    let needed = needed_names(alloc, entries)?;
    let found = answers_by_pair(alloc, answers)?;
    let s = Search {
        prefixes,
        needed,
        machine,
        found,
    };
    let mut removed = Vec::new(alloc);
    let entries = shrink_entries(alloc, &s, entries, &mut removed)?;
    Ok(ShrunkList { entries, removed })
}
