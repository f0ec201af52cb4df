//! The changes of symbols (gABI, Symbol Table; GNU symbol versioning).
ghost use Rattle.std.specs.Prelude.{◌≡◌, ◌<◌, ◌↔◌, length, not, remove, slice_index, true, IsTrue};
ghost use Rattle.elf_format.specs.declared.constants.TheConstants.{SHT_DYNSYM as DYNSYM, SHT_SYMTAB as SYMTAB};
ghost use Rattle.elf_image_symbols.specs.EditedList.{EditedList, IsName, changed_at, with_global_version, with_name};
ghost use Rattle.elf_image.specs.Names.{are_names_changed};
ghost use Rattle.elf_image.specs.Renumbering.{can_renumber};
ghost use Rattle.elf_image.specs.SymbolEdits.{IsPutFor, IsStaticPutFor, IsUnnamed, with_dynamic_symbols, with_static_symbols};
ghost use Rattle.elf_image.specs.SymbolsRead.{HasDynamicSymbolsOf, HasStaticSymbolsOf, OfRead};

use crate::builder::Builder;
use elf_image_symbols::EditedSymbols;
use patch_bytes::ByteString;

impl<'data> Builder<'data> {
    /// Gives the symbol for a link editor at a position another name, without a NUL (gABI, Symbol Table, `st_name`).
    /// Takes no memory.
    pub fn set_symbol_name(&mut self, i: usize, name: ByteString<'data>)
        requires there { i < length self.old.symbols }
        requires nul { IsName name.bytes }
        ensures { self.new ≡ record self.old {
          changed = true;
          symbols = changed_at i (with_name name.entry.bytes) self.old.symbols;
        } }
    {
        self.lists.symbols.rename(i, name);
        self.changed = true;
    }

    /// Gives the symbol for a loader at a position another name, without a NUL (gABI, Symbol Table, `st_name`). The
    /// caller sees that hash tables and relocations can follow. Takes no memory.
    pub fn set_dynamic_symbol_name(&mut self, i: usize, name: ByteString<'data>)
        requires there { i < length self.old.dynamic_symbols }
        requires nul { IsName name.bytes }
        requires tables { can_renumber self.old ≡ true }
        ensures { self.new ≡ record self.old {
          changed = true;
          dynamic_symbols = changed_at i (with_name name.entry.bytes) self.old.dynamic_symbols;
        } }
    {
        self.lists.dynamic_symbols.rename(i, name);
        self.changed = true;
    }

    /// Gives the symbol for a loader at a position, where it has a version, that of a global symbol without one of its
    /// own, not hidden (GNU symbol versioning, `VER_NDX_GLOBAL`). Takes no memory.
    pub fn clear_version(&mut self, i: usize)
        requires { i < length self.old.dynamic_symbols }
        ensures { self.new ≡ record self.old {
          changed = true;
          dynamic_symbols = changed_at i with_global_version self.old.dynamic_symbols;
        } }
    {
        self.lists.dynamic_symbols.clear_version(i);
        self.changed = true;
    }

    /// Deletes the symbol for a link editor at a position, which isn't the first and which no relocation of a section that is
    /// there names (gABI, Symbol Table; Relocation). Takes no memory.
    pub fn delete_symbol(&mut self, i: usize)
        requires there { i < length self.old.symbols }
        requires behind { 0 < i }
        requires unnamed { IsUnnamed SYMTAB (slice_index self.old.symbol_numbers i) self.old }
        ensures { self.new ≡ record self.old {
          changed = true;
          symbols = remove self.old.symbols i;
          symbol_numbers = remove self.old.symbol_numbers i;
        } }
    {
        self.lists.symbols.delete(i);
        // the symbols that are there are some of those that were read, edited
        let _read = self.lists.symbols.read();
        self.changed = true;
    }

    /// Deletes the symbol for a loader at a position, which isn't the first and which no relocation of a section that is
    /// there names (gABI, Symbol Table; Relocation). The caller sees that hash tables and relocations can follow. Takes no
    /// memory.
    pub fn delete_dynamic_symbol(&mut self, i: usize)
        requires there { i < length self.old.dynamic_symbols }
        requires behind { 0 < i }
        requires unnamed { IsUnnamed DYNSYM (slice_index self.old.dynamic_symbol_numbers i)
            self.old }
        requires tables { can_renumber self.old ≡ true }
        ensures { self.new ≡ record self.old {
          changed = true;
          dynamic_symbols = remove self.old.dynamic_symbols i;
          dynamic_symbol_numbers = remove self.old.dynamic_symbol_numbers i;
        } }
    {
        self.lists.dynamic_symbols.delete(i);
        // the symbols that are there are some of those that were read, edited
        let _read = self.lists.dynamic_symbols.read();
        self.changed = true;
    }

    /// The symbols for a link editor with their edits, of which a copy can be edited and put in their place. Takes no memory.
    pub fn edited_symbols(&self) -> &EditedSymbols<'data>
        ensures read { OfRead self.now (λ read. result.now.read ≡ read.symbols) }
        ensures numbers { result.now.numbers ≡ self.now.symbol_numbers }
        ensures symbols { result.now.symbols ≡ self.now.symbols }
    {
        &self.lists.symbols
    }

    /// Puts these symbols for a link editor in place of those that are there: edited ones of the symbols that were read.
    /// Some may be gone, but for the first and those that a relocation of a section that is there names. Takes no memory.
    pub fn put_symbols(&mut self, edited: EditedSymbols<'data>)
        requires { IsStaticPutFor self.old edited }
        ensures { self.new ≡ with_static_symbols edited.entry self.old }
    {
        // the new symbols are some of those that were read, edited
        let _read = edited.read();
        self.lists.symbols = edited;
        self.changed = true;
    }

    /// The symbols for a loader with their edits, of which a copy can be edited and put in their place. Takes no memory.
    pub fn edited_dynamic_symbols(&self) -> &EditedSymbols<'data>
        ensures read { OfRead self.now (λ read. result.now.read ≡ read.dynamic_symbols) }
        ensures numbers { result.now.numbers ≡ self.now.dynamic_symbol_numbers }
        ensures symbols { result.now.symbols ≡ self.now.dynamic_symbols }
    {
        &self.lists.dynamic_symbols
    }

    /// Puts these symbols for a loader in place of those that are there: edited ones of the symbols that were read. Some may
    /// be gone, but for the first and those that a relocation of a section that is there names. With other names, or some
    /// gone, only where hash tables and relocations can follow. Takes no memory.
    pub fn put_dynamic_symbols(&mut self, edited: EditedSymbols<'data>)
        requires { IsPutFor self.old edited }
        ensures { self.new ≡ with_dynamic_symbols edited.entry self.old }
    {
        // the new symbols are some of those that were read, edited
        let _read = edited.read();
        self.lists.dynamic_symbols = edited;
        self.changed = true;
    }

    /// Whether the symbols for a loader have, one by one, the names that were read. Takes no memory, and time by how many
    /// were edited.
    pub fn keeps_dynamic_names(&self) -> bool
        ensures { OfRead self.now (λ read. result ≡ not (are_names_changed read self.now)) }
    {
        self.lists.dynamic_symbols.keeps_names()
    }

    /// Whether the symbols for a loader are those that were read, in their order. Takes no memory, and time by how many
    /// were edited.
    pub fn keeps_dynamic_symbols(&self) -> bool
        ensures { OfRead self.now (λ read. IsTrue result ↔ HasDynamicSymbolsOf read self.now) }
    {
        self.lists.dynamic_symbols.is_as_read()
    }

    /// Whether the symbols for a link editor are those that were read, in their order. Takes no
    /// memory, and time by how many were edited.
    pub fn keeps_static_symbols(&self) -> bool
        ensures { OfRead self.now (λ read. IsTrue result ↔ HasStaticSymbolsOf read self.now) }
    {
        self.lists.symbols.is_as_read()
    }
}
