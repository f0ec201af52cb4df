//! The edits.
ghost use Rattle.std.specs.Prelude.{◌≡◌};
ghost use Rattle.std.specs.List.{list_any};
ghost use Rattle.elf_edits.specs.Texts.{holds_nul as nul_in};
ghost use Rattle.elf_symbol_edits.specs.EditModel.{edit_model};
ghost use Rattle.elf_symbol_edits.specs.SymbolEdit.{texts_of};

use elf_edits::texts::{any_nul, any_nul_in_pairs};

/// An edit of symbols or sections, which are told by their names. Pairs are of an old and a new name, all at once; of a
/// repeated old name the last counts.
#[derive(Clone, Copy)]
pub enum SymbolEdit<'e> {
    /// Gives the symbols for a link editor, but the first, other names (gABI, Symbol Table, `st_name`).
    RenameSymbols(&'e [(Vec<u8>, Vec<u8>)]),
    /// Deletes the symbols for a link editor that have one of these names, but the first.
    DeleteSymbols(&'e [Vec<u8>]),
    /// Deletes the symbols for a loader that have one of these names, but the first.
    DeleteDynamicSymbols(&'e [Vec<u8>]),
    /// Gives the symbols of both, but the first of each, other names.
    RenameAllSymbols(&'e [(Vec<u8>, Vec<u8>)]),
    /// Deletes the symbols of both that have one of these names, but the first of each.
    DeleteAllSymbols(&'e [Vec<u8>]),
    /// Gives the sections, but the null section, other names (gABI, Sections, `sh_name`).
    RenameSections(&'e [(Vec<u8>, Vec<u8>)]),
    /// Deletes the sections that have one of these names, but the null section, with the symbols for a link editor and the
    /// program headers that go along, and the interpreter with its section.
    DeleteSections(&'e [Vec<u8>]),
}

impl SymbolEdit<'_> {
    // Whether a name of the edit holds a NUL.
    pub(crate) fn holds_nul(&self) -> bool
        ensures { result ≡ list_any nul_in (texts_of (edit_model self.now)) }
    {
        match self {
            SymbolEdit::RenameSymbols(pairs) => any_nul_in_pairs(pairs),
            SymbolEdit::DeleteSymbols(names) => any_nul(names),
            SymbolEdit::DeleteDynamicSymbols(names) => any_nul(names),
            SymbolEdit::RenameAllSymbols(pairs) => any_nul_in_pairs(pairs),
            SymbolEdit::DeleteAllSymbols(names) => any_nul(names),
            SymbolEdit::RenameSections(pairs) => any_nul_in_pairs(pairs),
            SymbolEdit::DeleteSections(names) => any_nul(names),
        }
    }
}
