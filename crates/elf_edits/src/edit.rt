//! The edits of what an ELF file shows, with their values: what each does, and the dynamic list after it.
ghost use Rattle.std.specs.Prelude.{◌≡◌, IfOk, map, option_map};
ghost use Rattle.std.specs.List.{list_any};
ghost use Rattle.elf_edits.specs.Changes.{IsEditedList, IsNewList};
ghost use Rattle.elf_edits.specs.Edit.{dropped_tags as tags_dropped, edit_model, edited_entries, task_of, texts_of, touches_entries, words_of};
ghost use Rattle.elf_edits.specs.Texts.{holds_nul as nul_in};
ghost use Rattle.elf_image.specs.ImageModel.{entry_model};

use crate::changes::EntryTest;
use crate::list::{
    NewList, add_debug_entry, add_directories, add_needed, copy_list, delete_needed, delete_where,
    leave_out_defaults, replace_needed, set_text, use_rpath,
};
use crate::texts::{any_nul, any_nul_in_pairs, holds_nul, nul_before_end};
use elf_image::Dynamic;
use elf_image::constants::{DT_RPATH, DT_RUNPATH, DT_SONAME};
use std::alloc::{AllocError, Global};
use std::fmt;

// The tags of run paths.
static RUN_PATHS: [u64; 2] = [DT_RPATH, DT_RUNPATH];

/// An edit of what an ELF file shows, with its values. The names are those of the program's commands. Texts are bytes
/// without a NUL; they are compared whole.
#[derive(Debug, Drop)]
pub enum ElfEdit {
    /// Puts an entry DT_DEBUG last, unless one is there (gABI, Dynamic Section).
    AddDebugTag,
    /// Puts the names that no DT_NEEDED has before all entries, in order and with repeats.
    AddNeeded(Vec<Vec<u8>>),
    /// Adds each directory to every DT_RPATH and DT_RUNPATH, behind a colon where the old text isn't empty; without
    /// one, puts a DT_RUNPATH last, of the directories joined by colons.
    AddRpath(Vec<Vec<u8>>),
    /// Gives leave that the dynamic section moves where it has grown into what follows it, if something was changed: by an
    /// edit before it, or earlier. So it stands last in a batch.
    AllowDynamicMove,
    /// Takes the permission to run from the stack (GNU extension PT_GNU_STACK).
    ClearExecStack,
    /// Gives every dynamic symbol of this name, but the first symbol, where there are versions, that of a global symbol
    /// without one of its own, not hidden (GNU symbol versioning, `VER_NDX_GLOBAL`).
    ClearSymbolVersion(Vec<u8>),
    /// Makes every DT_RUNPATH a DT_RPATH.
    ForceRpath,
    /// Leaves out the default directories: sets DF_1_NODEFLIB in every DT_FLAGS_1; without one, puts one last.
    NoDefaultLib,
    /// Drops every DT_NEEDED whose text is one of these names.
    RemoveNeeded(Vec<Vec<u8>>),
    /// Drops every DT_RPATH and DT_RUNPATH.
    RemoveRpath,
    /// Gives dynamic symbols, but the first, other names, all at once: pairs of an old and a new name, of a repeated old
    /// name the last.
    RenameDynamicSymbols(Vec<(Vec<u8>, Vec<u8>)>),
    /// Replaces libraries, all at once: the texts of DT_NEEDED, and the files of which versions are needed (GNU symbol
    /// versioning, `Elfxx_Verneed`, `vn_file`). Pairs of an old and a new name, of a repeated old name the last.
    ReplaceLibrary(Vec<(Vec<u8>, Vec<u8>)>),
    /// Replaces the texts of DT_NEEDED, all at once: pairs of an old and a new name, of a repeated old name the last.
    ReplaceNeeded(Vec<(Vec<u8>, Vec<u8>)>),
    /// Gives the stack the permission to run.
    SetExecStack,
    /// Sets the interpreter's bytes (gABI, Program Interpreter), with a NUL behind them unless they are empty or end
    /// with one.
    SetInterpreter(Vec<u8>),
    /// Sets the ABI byte by a name (gABI, ELF Identification, `EI_OSABI`), whatever the case of its ASCII letters.
    SetOsAbi(String),
    /// Sets the page size, a power of two of 1024 bytes or more, and with it the alignment of every PT_LOAD.
    SetPageSize(u32),
    /// Gives every DT_RPATH and DT_RUNPATH this text; without one, puts a DT_RUNPATH last.
    SetRpath(Vec<u8>),
    /// Sets the library's own name: every DT_SONAME gets it; without one, puts one last.
    SetSoname(Vec<u8>),
}

impl ElfEdit {
    /// What the edit does to the dynamic list; `None` for an edit of something else. Takes no memory.
    pub fn task(&self) -> Option<Task>
        ensures { option_map words_of result ≡ task_of (edit_model self.now) }
    {
        match self {
            ElfEdit::AddDebugTag => Some(Task::AddDebugTag),
            ElfEdit::AddNeeded(_) => Some(Task::AddNeeded),
            ElfEdit::AddRpath(_) => Some(Task::AddRpath),
            ElfEdit::ForceRpath => Some(Task::ForceRpath),
            ElfEdit::NoDefaultLib => Some(Task::SetSoname),
            ElfEdit::RemoveNeeded(_) => Some(Task::RemoveNeeded),
            ElfEdit::RemoveRpath => Some(Task::RemoveRpath),
            ElfEdit::ReplaceLibrary(_) => Some(Task::ReplaceNeeded),
            ElfEdit::ReplaceNeeded(_) => Some(Task::ReplaceNeeded),
            ElfEdit::SetRpath(_) => Some(Task::SetRpath),
            ElfEdit::SetSoname(_) => Some(Task::SetSoname),
            _ => None,
        }
    }

    // Whether a text of the edit holds a NUL where none may stand.
    pub(crate) fn holds_nul(&self) -> bool
        ensures { result ≡ list_any nul_in (texts_of (edit_model self.now)) }
    {
        match self {
            ElfEdit::AddNeeded(names) => any_nul(names.as_slice()),
            ElfEdit::AddRpath(texts) => any_nul(texts.as_slice()),
            ElfEdit::ClearSymbolVersion(name) => holds_nul(name.as_slice()),
            ElfEdit::RemoveNeeded(names) => any_nul(names.as_slice()),
            ElfEdit::RenameDynamicSymbols(pairs) => any_nul_in_pairs(pairs.as_slice()),
            ElfEdit::ReplaceLibrary(pairs) => any_nul_in_pairs(pairs.as_slice()),
            ElfEdit::ReplaceNeeded(pairs) => any_nul_in_pairs(pairs.as_slice()),
            ElfEdit::SetInterpreter(bytes) => nul_before_end(bytes.as_slice()),
            ElfEdit::SetOsAbi(name) => holds_nul(name.as_bytes()),
            ElfEdit::SetRpath(text) => holds_nul(text.as_slice()),
            ElfEdit::SetSoname(text) => holds_nul(text.as_slice()),
            _ => false,
        }
    }

    /// The tags by which the edit drops entries of the dynamic list, whatever they hold; none for an edit that does
    /// something else. Takes no memory.
    pub fn dropped_tags(&self) -> &'static [u64]
        ensures { result.now ≡ tags_dropped (edit_model self.now) }
    {
        match self {
            ElfEdit::RemoveRpath => &RUN_PATHS,
            _ => &[],
        }
    }

    // The dynamic list after the edit, of a file for any machine.
    #[tactic(auto, unfolding(crate::specs::Edit::edited_entries, crate::specs::Edit::touches_entries))]
    fn new_list<'d>(
        &self,
        alloc: Global,
        entries: &[Dynamic<'d>],
    ) -> Result<NewList<'d>, AllocError>
        ensures { IfOk result (IsNewList
            (edited_entries 0 (edit_model self.now) (map entry_model entries.now))
            (touches_entries 0 (edit_model self.now) (map entry_model entries.now))) }
    {
        match self {
            ElfEdit::AddDebugTag => add_debug_entry(alloc, entries),
            ElfEdit::AddNeeded(names) => add_needed(alloc, names.as_slice(), entries),
            ElfEdit::AddRpath(texts) => add_directories(alloc, texts.as_slice(), entries),
            ElfEdit::ForceRpath => use_rpath(alloc, entries),
            ElfEdit::NoDefaultLib => leave_out_defaults(alloc, entries),
            ElfEdit::RemoveNeeded(names) => delete_needed(alloc, names.as_slice(), entries),
            ElfEdit::RemoveRpath => delete_where(alloc, &EntryTest::RunPath, entries),
            ElfEdit::ReplaceLibrary(pairs) => replace_needed(alloc, pairs.as_slice(), entries),
            ElfEdit::ReplaceNeeded(pairs) => replace_needed(alloc, pairs.as_slice(), entries),
            ElfEdit::SetRpath(text) => {
                let test = EntryTest::RunPath;
                set_text(alloc, &test, DT_RUNPATH, text.as_slice(), entries)
            }
            ElfEdit::SetSoname(text) => {
                let test = EntryTest::Tag(DT_SONAME);
                set_text(alloc, &test, DT_SONAME, text.as_slice(), entries)
            }
            _ => copy_list(alloc, entries),
        }
    }
}

/// The dynamic list after an edit, and whether the edit wrote something; an edit of something else leaves it. Texts that
/// are lent stay lent, those that the edit writes are owned. The cost is in proportion to the list and the edit's texts.
/// Error: `AllocError`.
#[tactic(auto, using(crate::proofs::ListSteps::on_any_machine))]
pub fn edit_list<'d>(
    alloc: Global,
    edit: &ElfEdit,
    entries: &[Dynamic<'d>],
) -> Result<NewList<'d>, AllocError>
    ensures { IfOk result (IsEditedList (edit_model edit.now) (map entry_model entries.now)) }
{
    edit.new_list(alloc, entries)
}

/// What an edit of the dynamic list does, as the refusal names it where there is no such list.
#[derive(Clone, Copy, Debug, PartialEq, Eq)]
pub enum Task {
    /// An entry for a debugger is added.
    AddDebugTag,
    /// The run path is dropped.
    RemoveRpath,
    /// The run path is set.
    SetRpath,
    /// Directories are added to the run path.
    AddRpath,
    /// Every run path becomes a DT_RUNPATH.
    ForceRunpath,
    /// Every run path becomes a DT_RPATH.
    ForceRpath,
    /// Needed libraries are dropped.
    RemoveNeeded,
    /// Needed libraries are replaced.
    ReplaceNeeded,
    /// Needed libraries are added.
    AddNeeded,
    /// The library's own name is set, or the default directories are left out: both are told by these words.
    SetSoname,
    /// The run path shrinks.
    ShrinkRpath,
}

impl Task {
    /// The words for the task. Takes no memory.
    pub fn text(self) -> &'static str
        ensures { result.now ≡ words_of self }
    {
        match self {
            Task::AddDebugTag => "add debug entry",
            Task::RemoveRpath => "delete runpath",
            Task::SetRpath => "set runpath",
            Task::AddRpath => "add runpath",
            Task::ForceRunpath => "change runpath",
            Task::ForceRpath => "change rpath",
            Task::RemoveNeeded => "delete needed library",
            Task::ReplaceNeeded => "replace needed library",
            Task::AddNeeded => "add needed library",
            Task::SetSoname => "set soname",
            Task::ShrinkRpath => "shrink rpath",
        }
    }
}

impl fmt::Display for Task {
    fn fmt<W: fmt::Write>(&self, f: &mut fmt::Formatter<W>) -> fmt::Result {
        f.write_str(self.text())
    }
}
