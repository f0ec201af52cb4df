//! The symbols of a section under edits.
use crate::change::Change;
use crate::changes::{
    are_idle, copy_changes, keep_names, set_cleared, set_name, spread_changes, touch,
};
use crate::numbers::{copy_numbers, list_all, list_others};
use crate::symbols_now::SymbolsNow;
use crate::{ByteString, Symbols};
use std::alloc::{AllocError, Global};
use std::marker::Model;

/// The symbols of a section with what edits made of them (gABI, Symbol Table; GNU symbol versioning). All room that
/// edits may need is reserved when it is made, so that no edit takes memory; none of it is touched before.
#[derive(Debug, Drop)]
pub struct EditedSymbols<'data> {
    // The symbols as they were read.
    pub(crate) table: Symbols<'data>,
    // What edits made of them, by rising numbers. There is room for a change of each.
    pub(crate) changes: Vec<Change<'data>>,
    // The numbers at read of those that are there, where some may have gone. There is room for all.
    pub(crate) kept: Vec<usize>,
    // No symbol went: then `kept` tells nothing.
    pub(crate) are_all: bool,
}

impl<'data> Model for EditedSymbols<'data> {
    ghost use Rattle.elf_image_symbols.specs.EditedList.{EditedList};

    ghost Value = { EditedList };

    ghost use Rattle.elf_image_symbols.specs.EditedModel.{AreInOrder, edited_list};

    ghost view = { edited_list };

    ghost invariant = { AreInOrder };
}

impl<'data> EditedSymbols<'data> {
    ghost use Rattle.std.specs.Prelude.{◌≡◌, ◌<◌, ◌↔◌, IfOk, IsOk, IsTrue, Some, filter, length, map, remove, slice_get};
    ghost use Rattle.std.specs.List.Sorted.{IsNonDecreasing};
    ghost use Rattle.elf_format.specs.Image.{counted};
    ghost use Rattle.elf_image_symbols.specs.EditedList.{ArePicked, IsName, as_read, changed_at, with_global_version, with_name, without_numbers};
    ghost use Rattle.elf_image_symbols.specs.Loan.{numbers_now, symbols_now};

    /// The symbols of a table, none of them edited. Error: `AllocError` where there is no room for edits of all.
    pub fn new(alloc: Global, table: Symbols<'data>) -> Result<EditedSymbols<'data>, AllocError>
        ensures made { IfOk result (λ edited. edited ≡ as_read table.entry) }
        ensures empty { length table.entry ≡ 0 → IsOk result }
    {
        let count = table.len();
        let changes = Vec::with_capacity(alloc, count)?;
        let kept = Vec::with_capacity(alloc, count)?;
        Ok(EditedSymbols {
            table,
            changes,
            kept,
            are_all: true,
        })
    }

    /// A copy of the symbols with their edits. Error: `AllocError`.
    pub fn try_clone(&self, alloc: Global) -> Result<EditedSymbols<'data>, AllocError>
        ensures { IfOk result (λ copy. copy ≡ self.now) }
    {
        let count = self.table.len();
        let changes = copy_changes(alloc, &self.changes, count)?;
        let kept = copy_numbers(alloc, &self.kept, count)?;
        Ok(EditedSymbols {
            table: self.table.same(),
            changes,
            kept,
            are_all: self.are_all,
        })
    }

    /// A copy of the symbols with their edits, made ready for edits of many of them. An edit of a
    /// symbol that has none yet moves what is told of those behind it; in the copy none moves
    /// anything, and each takes the time of a search. To make it takes one pass over all symbols
    /// that were read: use it before many edits, where some symbols are edited already or they
    /// don't come in rising order. Error: `AllocError`.
    pub fn spread(&self, alloc: Global) -> Result<EditedSymbols<'data>, AllocError>
        ensures { IfOk result (λ copy. copy ≡ self.now) }
    {
        let room = self.table.len();
        let changes = spread_changes(alloc, &self.changes, &self.table)?;
        let kept = copy_numbers(alloc, &self.kept, room)?;
        let are_all = self.are_all;
        Ok(EditedSymbols {
            table: self.table.same(),
            changes,
            kept,
            are_all,
        })
    }

    /// The symbols as they were read. Takes no memory.
    pub fn read(&self) -> &Symbols<'data>
        ensures value { result.now ≡ self.now.read }
        // what every such list is: some of the symbols that were read, edited
        ensures picked { ArePicked self.now }
    {
        &self.table
    }

    /// The symbols that are there as they are now, to be read. Takes no memory.
    pub fn lend(&self) -> SymbolsNow<'_>
        ensures symbols { symbols_now result ≡ self.now.symbols }
        ensures numbers { numbers_now result ≡ self.now.numbers }
    {
        SymbolsNow { edited: self }
    }

    // How many are there.
    #[inline(always)]
    pub(crate) fn len(&self) -> usize
        ensures symbols { result ≡ length self.now.symbols }
        ensures numbers { result ≡ length self.now.numbers }
    {
        if self.are_all {
            self.table.len()
        } else {
            self.kept.len()
        }
    }

    // The number at read of the symbol at a position.
    #[inline(always)]
    pub(crate) fn number_at(&self, i: usize) -> usize
        requires { i < length self.now.symbols }
        ensures { slice_get self.now.numbers i ≡ Some result }
    {
        if self.are_all { i } else { self.kept[i] }
    }

    // Whether all symbols that were read are there.
    fn are_all_there(&self) -> bool
        ensures numbers { IsTrue result ↔ (self.now.numbers ≡ counted (length self.now.read)) }
        ensures symbols { IsTrue result ↔ (length self.now.symbols ≡ length self.now.read) }
    {
        self.len() == self.table.len()
    }

    /// Whether all symbols are there, and as they were read: also where an edit gave a symbol the name that it had, or
    /// cleared a version that was the global one. Takes no memory, and time by how many symbols were edited.
    pub fn is_as_read(&self) -> bool
        ensures { IsTrue result ↔ ((self.now.numbers ≡ counted (length self.now.read))
            × (self.now.symbols ≡ self.now.read)) }
    {
        if !self.are_all_there() {
            return false;
        }
        are_idle(&self.changes, &self.table)
    }

    /// Whether the symbols that are there have, one by one, the names of those that were read. Takes no memory, and time
    /// by how many symbols were edited.
    pub fn keeps_names(&self) -> bool
        ensures { IsTrue result
            ↔ (map (λ y. y.name) self.now.symbols ≡ map (λ y. y.name) self.now.read) }
    {
        if !self.are_all_there() {
            return false;
        }
        keep_names(&self.changes, &self.table)
    }

    /// Gives the symbol at a position another name, which has no NUL. Takes no memory.
    pub fn rename(&mut self, i: usize, name: ByteString<'data>)
        requires there { i < length self.old.symbols }
        requires nul { IsName name.bytes }
        ensures { self.new ≡ record self.old {
          symbols = changed_at i (with_name name.entry.bytes) self.old.symbols;
        } }
    {
        let number = self.number_at(i);
        let k = touch(&mut self.changes, &self.table, number);
        set_name(&mut self.changes, k, name);
    }

    /// Gives the symbol at a position, where it has a version, that of a global symbol without one of its own, not
    /// hidden (GNU symbol versioning, VER_NDX_GLOBAL). Takes no memory.
    pub fn clear_version(&mut self, i: usize)
        requires { i < length self.old.symbols }
        ensures { self.new ≡ record self.old {
          symbols = changed_at i with_global_version self.old.symbols;
        } }
    {
        let number = self.number_at(i);
        let k = touch(&mut self.changes, &self.table, number);
        set_cleared(&mut self.changes, k);
    }

    /// Deletes the symbol at a position. Takes no memory.
    pub fn delete(&mut self, i: usize)
        requires { i < length self.old.symbols }
        ensures { self.new ≡ record self.old {
          numbers = remove self.old.numbers i;
          symbols = remove self.old.symbols i;
        } }
    {
        let count = self.table.len();
        list_all(&mut self.kept, self.are_all, count);
        self.are_all = false;
        self.kept.remove(i);
    }

    /// Deletes the symbols with these numbers at read, which rise. A number of no symbol that is there changes nothing.
    /// Takes no memory, and goes over the symbols once, with a search among the numbers for each.
    pub fn delete_all(&mut self, gone: &[usize])
        requires { IsNonDecreasing gone.now }
        ensures { self.new ≡ without_numbers gone.now self.old }
    {
        let count = self.table.len();
        list_others(&mut self.kept, self.are_all, count, gone);
        self.are_all = false;
    }
}
