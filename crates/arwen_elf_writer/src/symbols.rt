//! Symbols and sections of a file's image that get other names, or go.
ghost use Rattle.std.specs.HashSet.{keys};
ghost use Rattle.elf_edits.specs.EditModel.{pairs_model, texts_model};
ghost use Rattle.elf_apply.specs.EditModel.{edit_model};
ghost use Rattle.elf_apply.specs.SymbolEdit.{DeleteAllSymbols, DeleteDynamicSymbols, DeleteSections, DeleteSymbols, RenameAllSymbols, RenameSections, RenameSymbols};
ghost use Rattle.elf_apply.specs.SymbolsTaken.{TakesSymbolEdit};

use crate::values::{copy_map, copy_set};
use crate::writer::Writer;
use elf_apply::error::ElfError;
use elf_apply::{SymbolEdit, symbols};
use std::alloc::Global;
use std::collections::{HashMap, HashSet};

impl<'data> Writer<'data> {
    /// Makes one edit of symbols or sections, all of it or nothing. Errors: `Modify` with the first cause that stands against
    /// it, `Memory`; the image is then as it was.
    pub fn edit_symbols(&mut self, alloc: Global, edit: SymbolEdit<'_>) -> Result<(), ElfError>
        ensures { TakesSymbolEdit (edit_model edit.entry) self.old self.new result }
    {
        symbols::edit_symbols(&mut self.builder, alloc, edit)
    }

    /// Gives the symbols for a link editor, but the first, whose names are keys the keys' values, all at once (gABI, Symbol
    /// Table, `st_name`). The symbols for a loader keep their names. Errors: `Modify` with `MipsImage` or `NulInText`,
    /// `Memory`.
    pub fn elf_rename_symbols(
        &mut self,
        alloc: Global,
        names: &HashMap<Vec<u8>, Vec<u8>>,
    ) -> Result<(), ElfError>
        ensures { TakesSymbolEdit (RenameSymbols (pairs_model names.now.entries))
            self.old self.new result }
    {
        let pairs = copy_map(alloc, names)?;
        self.edit_symbols(alloc, SymbolEdit::RenameSymbols(pairs.as_slice()))
    }

    /// Gives the symbols for a link editor and for a loader, but the first of each, whose names are
    /// keys the keys' values, all at once. Errors: those of `elf_rename_symbols`, and `Modify` with
    /// `CannotRenumber` where a symbol for a loader is to have another name, and hash tables or
    /// relocations can't follow.
    pub fn rename_symbols(
        &mut self,
        alloc: Global,
        names: &HashMap<Vec<u8>, Vec<u8>>,
    ) -> Result<(), ElfError>
        ensures { TakesSymbolEdit (RenameAllSymbols (pairs_model names.now.entries))
            self.old self.new result }
    {
        let pairs = copy_map(alloc, names)?;
        self.edit_symbols(alloc, SymbolEdit::RenameAllSymbols(pairs.as_slice()))
    }

    /// Deletes the symbols for a link editor, but the first, that have one of these names (gABI, Symbol Table). Errors:
    /// `Modify` with `MipsImage`, `NulInText`, `SymbolInRelocation` where a relocation names one of them, or
    /// `CannotRenumber` where a section that is kept as it is links to their table; `Memory`.
    pub fn elf_delete_symbols(
        &mut self,
        alloc: Global,
        names: &HashSet<Vec<u8>>,
    ) -> Result<(), ElfError>
        ensures { TakesSymbolEdit (DeleteSymbols (texts_model (keys names.now)))
            self.old self.new result }
    {
        let names = copy_set(alloc, names)?;
        self.edit_symbols(alloc, SymbolEdit::DeleteSymbols(names.as_slice()))
    }

    /// Deletes the symbols for a loader, but the first, that have one of these names. Errors: those
    /// of `elf_delete_symbols`; `CannotRenumber` too where a hash table can't be made anew.
    pub fn elf_delete_dynamic_symbols(
        &mut self,
        alloc: Global,
        names: &HashSet<Vec<u8>>,
    ) -> Result<(), ElfError>
        ensures { TakesSymbolEdit (DeleteDynamicSymbols (texts_model (keys names.now)))
            self.old self.new result }
    {
        let names = copy_set(alloc, names)?;
        self.edit_symbols(alloc, SymbolEdit::DeleteDynamicSymbols(names.as_slice()))
    }

    /// Deletes the symbols for a link editor and for a loader, but the first of each, that have one
    /// of these names. Errors: those of `elf_delete_symbols` and `elf_delete_dynamic_symbols`.
    pub fn delete_symbols(
        &mut self,
        alloc: Global,
        names: &HashSet<Vec<u8>>,
    ) -> Result<(), ElfError>
        ensures { TakesSymbolEdit (DeleteAllSymbols (texts_model (keys names.now)))
            self.old self.new result }
    {
        let names = copy_set(alloc, names)?;
        self.edit_symbols(alloc, SymbolEdit::DeleteAllSymbols(names.as_slice()))
    }

    /// Gives the sections, but the null section, whose names are keys the keys' values, all at once (gABI, Sections,
    /// `sh_name`). Errors: `Modify` with `MipsImage` or `NulInText`, `Memory`.
    pub fn rename_sections(
        &mut self,
        alloc: Global,
        names: &HashMap<Vec<u8>, Vec<u8>>,
    ) -> Result<(), ElfError>
        ensures { TakesSymbolEdit (RenameSections (pairs_model names.now.entries))
            self.old self.new result }
    {
        let pairs = copy_map(alloc, names)?;
        self.edit_symbols(alloc, SymbolEdit::RenameSections(pairs.as_slice()))
    }

    /// Deletes the sections, but the null section, that have one of these names, with the symbols for a link editor and the
    /// program headers that go along, and the interpreter with its section (gABI, Sections). Errors: `Modify` with
    /// `MipsImage`, `NulInText`, `SymbolInRelocation` where a relocation names a symbol that would go along,
    /// `CannotRenumber`, or `SectionInUse` where something that stays needs one of them; `Memory`.
    pub fn delete_sections(
        &mut self,
        alloc: Global,
        names: &HashSet<Vec<u8>>,
    ) -> Result<(), ElfError>
        ensures { TakesSymbolEdit (DeleteSections (texts_model (keys names.now)))
            self.old self.new result }
    {
        let names = copy_set(alloc, names)?;
        self.edit_symbols(alloc, SymbolEdit::DeleteSections(names.as_slice()))
    }
}
