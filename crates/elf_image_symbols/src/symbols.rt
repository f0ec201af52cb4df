//! The symbols of a section.
ghost use Rattle.std.specs.Prelude.{◌≡◌, ◌*◌, ◌/◌, ◌<◌, ◌^◌, drop, length, option_map, take};
ghost use Rattle.elf_format.specs.Answers.{borrowed};
ghost use Rattle.elf_format.specs.Records.{symbol_size};
ghost use Rattle.elf_image_symbols.specs.TableSymbols.{version_at};

use crate::names::{are_names_there, is_text_there, name_place, text_there};
use crate::symbol::Symbol;
use elf_format::form::Form;
use elf_format::numbers::{part, read_symbol_numbers, read_version_id};
use elf_format::records::SymbolNumbers;
use elf_format::version_id::VersionId;
use elf_format::{ByteOrder2, Wide};
use std::marker::Model;

/// The symbols of a section in their order (gABI, Symbol Table). Each is read from the file's bytes when it is
/// asked for, so that they take no memory, however many they are.
#[derive(Debug, Drop)]
pub struct Symbols<'data> {
    form: Form,
    // The string table with their names.
    texts: &'data [u8],
    // The records of the symbols, one behind the other.
    bytes: &'data [u8],
    // The bytes of their versions, where there are versions.
    versions: Option<&'data [u8]>,
}

impl<'data> Model for Symbols<'data> {
    ghost use Rattle.std.specs.Prelude.{List};
    ghost use Rattle.elf_format.specs.Views.{NamedSymbol};

    ghost Value = { List NamedSymbol };

    ghost use Rattle.elf_image_symbols.specs.SymbolsModel.{HaveNames, symbols_model};

    ghost view = { symbols_model };

    ghost invariant = { HaveNames };
}

// The version of the symbol at a position, where there are versions.
fn version(form: Form, versions: Option<&[u8]>, i: usize) -> Option<VersionId>
    requires { i * 2 < 2 ^ 64 }
    ensures { result ≡ version_at form (option_map borrowed versions.entry) i }
{
    let bytes = versions?;
    Some(read_version_id(form, part(bytes, i * 2, 2)))
}

// The record of the symbol at a position.
#[inline(always)]
fn record_at(form: Form, bytes: &[u8], i: usize) -> &[u8]
    requires { i < length bytes.now / symbol_size form }
    ensures { result.now ≡ take (symbol_size form) (drop (i * symbol_size form) bytes.now) }
{
    let size = form.symbol_size();
    part(bytes, i * size, size)
}

impl<'data> Symbols<'data> {
    ghost use Rattle.std.specs.Prelude.{◌≡◌, ◌<◌, ◌≤◌, ◌==◌, ℕ, [], Some, length, not, option_map, slice_get};
    ghost use Rattle.std.specs.Str.{bytes_eq};
    ghost use Rattle.elf_format.specs.Memory.{memory_of, text_at};
    ghost use Rattle.elf_format.specs.Answers.{borrowed};
    ghost use Rattle.elf_image_symbols.specs.SymbolModel.{symbol_model};
    ghost use Rattle.elf_image_symbols.specs.TableSymbols.{symbol_with, table_symbols};

    /// The symbols of a table with the names that a string table gives them, and with their versions, where there
    /// are versions (gABI, Symbol Table; GNU symbol versioning, `.gnu.version`). `None` where a name isn't there.
    /// Takes no memory.
    pub fn read(
        form: Form,
        texts: &'data [u8],
        bytes: &'data [u8],
        versions: Option<&'data [u8]>,
    ) -> Option<Symbols<'data>>
        ensures { (room : ℕ) → length texts.entry.now ≤ room
            → result ≡ table_symbols form room (memory_of texts.entry.now) bytes.entry.now
            (option_map borrowed versions.entry) }
    {
        if !are_names_there(form, texts, bytes) {
            return None;
        }
        Some(Symbols {
            form,
            texts,
            bytes,
            versions,
        })
    }

    /// No symbols. Takes no memory.
    pub fn none() -> Symbols<'data>
        ensures { result ≡ [] }
    {
        Symbols {
            form: Form {
                wide: Wide::W64,
                order: ByteOrder2::Little,
            },
            texts: &[],
            bytes: &[],
            versions: None,
        }
    }

    /// The symbols, lent once more. Takes no memory.
    pub fn same(&self) -> Symbols<'data>
        ensures { result ≡ self.now }
    {
        Symbols {
            form: self.form,
            texts: self.texts,
            bytes: self.bytes,
            versions: self.versions,
        }
    }

    /// How many symbols there are. Takes no memory.
    pub fn len(&self) -> usize
        ensures { result ≡ length self.now }
    {
        self.bytes.len() / self.form.symbol_size()
    }

    /// Whether there are none. Takes no memory.
    pub fn is_empty(&self) -> bool
        ensures { result ≡ (length self.now == 0) }
    {
        self.len() == 0
    }

    /// The symbol at a position. Takes no memory.
    pub fn get(&self, i: usize) -> Symbol<'data>
        requires { i < length self.now }
        ensures { slice_get self.now i ≡ Some (symbol_model result) }
    {
        let numbers = read_symbol_numbers(self.form, record_at(self.form, self.bytes, i));
        Symbol {
            name: text_there(self.texts, numbers.st_name),
            st_info: numbers.st_info,
            st_other: numbers.st_other,
            st_shndx: numbers.st_shndx,
            st_value: numbers.st_value,
            st_size: numbers.st_size,
            version: version(self.form, self.versions, i),
        }
    }

    /// The name of the symbol at a position, empty for none. Takes no memory.
    pub fn name(&self, i: usize) -> &'data [u8]
        requires { i < length self.now }
        ensures { option_map (λ y. y.name) (slice_get self.now i) ≡ Some result.now }
    {
        let place = name_place(self.form, record_at(self.form, self.bytes, i));
        text_there(self.texts, place)
    }

    /// Whether the symbol at a position has this name, which is compared where it stands. Takes no memory.
    #[inline(always)]
    pub fn is_named(&self, i: usize, name: &[u8]) -> bool
        requires { i < length self.now }
        ensures { option_map (λ y. bytes_eq y.name name.now) (slice_get self.now i) ≡ Some result }
    {
        let place = name_place(self.form, record_at(self.form, self.bytes, i));
        is_text_there(self.texts, place, name)
    }

    /// The bytes of the string table from the name of the symbol at a position on: the name, a NUL, and what
    /// follows. The name's end isn't looked for. Takes no memory.
    #[inline(always)]
    pub fn name_front(&self, i: usize) -> &'data [u8]
        requires { i < length self.now }
        ensures { option_map (λ y. Some y.name) (slice_get self.now i)
            ≡ Some (text_at (length result.now) (memory_of result.now) 0) }
    {
        let place = name_place(self.form, record_at(self.form, self.bytes, i));
        &self.texts[place as usize..]
    }

    /// Whether the symbol at a position has a name that isn't empty. Takes no memory.
    #[inline(always)]
    pub fn has_name(&self, i: usize) -> bool
        requires { i < length self.now }
        ensures { option_map (λ y. not (length y.name == 0)) (slice_get self.now i) ≡ Some result }
    {
        let place = name_place(self.form, record_at(self.form, self.bytes, i));
        self.texts[place as usize] != 0
    }

    /// The numbers of the symbol at a position, as a record has them whose name begins at a place in its string
    /// table. Takes no memory.
    #[inline(always)]
    pub fn numbers(&self, i: usize, st_name: u32) -> SymbolNumbers
        requires { i < length self.now }
        ensures { option_map (symbol_with st_name) (slice_get self.now i) ≡ Some result }
    {
        let numbers = read_symbol_numbers(self.form, record_at(self.form, self.bytes, i));
        SymbolNumbers {
            st_name,
            st_info: numbers.st_info,
            st_other: numbers.st_other,
            st_shndx: numbers.st_shndx,
            st_value: numbers.st_value,
            st_size: numbers.st_size,
        }
    }
}
