//! Edits of ELF files, by their numbers and the values that they take.
ghost use Rattle.std.specs.Prelude.{◌≡◌, option_map};
ghost use Rattle.arwen_c_edits.specs.ElfEdits.{bare_edit as bare_told, read_model, names_edit as names_told, pairs_edit as pairs_told, text_edit as text_told};
ghost use Rattle.elf_edits.specs.EditModel.{edit_model, pairs_model, texts_model};

use crate::numbers::{
    ELF_ADD_DEBUG_TAG, ELF_ADD_NEEDED, ELF_ADD_RPATH, ELF_CLEAR_EXEC_STACK,
    ELF_CLEAR_SYMBOL_VERSION, ELF_DELETE_SECTIONS, ELF_DELETE_SYMBOLS, ELF_FORCE_RPATH,
    ELF_NO_DEFAULT_LIB, ELF_REMOVE_NEEDED, ELF_REMOVE_RPATH, ELF_RENAME_DYNAMIC_SYMBOLS,
    ELF_RENAME_SECTIONS, ELF_RENAME_SYMBOLS, ELF_REPLACE_LIBRARY, ELF_REPLACE_NEEDED,
    ELF_SET_EXEC_STACK, ELF_SET_INTERPRETER, ELF_SET_RPATH, ELF_SET_SONAME,
};
use elf_edits::ElfEdit;

/// An edit of an ELF file that was read.
#[derive(Drop)]
pub enum ReadEdit {
    /// One that a batch takes.
    Plain(ElfEdit),
    /// The symbols for link editors and for the loader get other names.
    RenameSymbols(Vec<(Vec<u8>, Vec<u8>)>),
    /// The symbols of some names go, for link editors and for the loader.
    DeleteSymbols(Vec<Vec<u8>>),
    /// Sections get other names.
    RenameSections(Vec<(Vec<u8>, Vec<u8>)>),
    /// The sections of some names go.
    DeleteSections(Vec<Vec<u8>>),
}

/// The edit of a number that takes no text.
#[tactic(auto, unfolding(crate::specs::ElfEdits::bare_edit))]
pub(crate) fn bare_edit(kind: u32) -> Option<ElfEdit>
    ensures { option_map edit_model result ≡ bare_told kind }
{
    match kind {
        ELF_ADD_DEBUG_TAG => Some(ElfEdit::AddDebugTag),
        ELF_CLEAR_EXEC_STACK => Some(ElfEdit::ClearExecStack),
        ELF_FORCE_RPATH => Some(ElfEdit::ForceRpath),
        ELF_NO_DEFAULT_LIB => Some(ElfEdit::NoDefaultLib),
        ELF_REMOVE_RPATH => Some(ElfEdit::RemoveRpath),
        ELF_SET_EXEC_STACK => Some(ElfEdit::SetExecStack),
        _ => None,
    }
}

/// The edit of a number that takes one text.
#[tactic(auto, unfolding(crate::specs::ElfEdits::text_edit))]
pub(crate) fn text_edit(kind: u32, text: Vec<u8>) -> Option<ElfEdit>
    ensures { option_map edit_model result ≡ text_told kind text.items }
{
    match kind {
        ELF_CLEAR_SYMBOL_VERSION => Some(ElfEdit::ClearSymbolVersion(text)),
        ELF_SET_INTERPRETER => Some(ElfEdit::SetInterpreter(text)),
        ELF_SET_RPATH => Some(ElfEdit::SetRpath(text)),
        ELF_SET_SONAME => Some(ElfEdit::SetSoname(text)),
        _ => None,
    }
}

/// The edit of a number that takes names.
#[tactic(auto, unfolding(crate::specs::ElfEdits::names_edit))]
pub(crate) fn names_edit(kind: u32, names: Vec<Vec<u8>>) -> Option<ReadEdit>
    ensures { option_map read_model result ≡ names_told kind (texts_model names.items) }
{
    match kind {
        ELF_ADD_NEEDED => Some(ReadEdit::Plain(ElfEdit::AddNeeded(names))),
        ELF_ADD_RPATH => Some(ReadEdit::Plain(ElfEdit::AddRpath(names))),
        ELF_DELETE_SECTIONS => Some(ReadEdit::DeleteSections(names)),
        ELF_DELETE_SYMBOLS => Some(ReadEdit::DeleteSymbols(names)),
        ELF_REMOVE_NEEDED => Some(ReadEdit::Plain(ElfEdit::RemoveNeeded(names))),
        _ => None,
    }
}

/// The edit of a number that takes pairs of an old name and a new one.
#[tactic(auto, unfolding(crate::specs::ElfEdits::pairs_edit))]
pub(crate) fn pairs_edit(kind: u32, pairs: Vec<(Vec<u8>, Vec<u8>)>) -> Option<ReadEdit>
    ensures { option_map read_model result ≡ pairs_told kind (pairs_model pairs.items) }
{
    match kind {
        ELF_RENAME_DYNAMIC_SYMBOLS => {
            Some(ReadEdit::Plain(ElfEdit::RenameDynamicSymbols(pairs)))
        }
        ELF_RENAME_SECTIONS => Some(ReadEdit::RenameSections(pairs)),
        ELF_RENAME_SYMBOLS => Some(ReadEdit::RenameSymbols(pairs)),
        ELF_REPLACE_LIBRARY => Some(ReadEdit::Plain(ElfEdit::ReplaceLibrary(pairs))),
        ELF_REPLACE_NEEDED => Some(ReadEdit::Plain(ElfEdit::ReplaceNeeded(pairs))),
        _ => None,
    }
}
