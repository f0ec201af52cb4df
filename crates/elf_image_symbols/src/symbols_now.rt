//! The symbols of a section as edits made them, lent.
ghost use Rattle.std.specs.Prelude.{◌≡◌, ◌<◌, ◌==◌, Some, length, not, option_map, slice_get};
ghost use Rattle.std.specs.Str.{bytes_eq};
ghost use Rattle.elf_image_symbols.specs.FrontText.{front_text};
ghost use Rattle.elf_image_symbols.specs.SymbolModel.{symbol_model};
ghost use Rattle.elf_image_symbols.specs.TableSymbols.{symbol_with};
ghost use Rattle.elf_image_symbols.specs.Loan.{numbers_now, symbols_now};

use crate::Symbol;
use crate::changes::find;
use crate::edited_symbols::EditedSymbols;
use crate::records::SymbolNumbers;

/// The symbols of a section that are there, as they are now (gABI, Symbol Table; GNU symbol versioning): a loan of
/// `EditedSymbols`. Each is read when it is asked for. Where none was edited, that costs two tests more than to read
/// it from `Symbols`; else a binary search among those that were.
#[derive(Clone, Copy)]
pub struct SymbolsNow<'a> {
    pub(crate) edited: &'a EditedSymbols<'a>,
}

impl<'a> SymbolsNow<'a> {
    /// How many symbols there are. Takes no memory.
    pub fn len(&self) -> usize
        ensures { result ≡ length (symbols_now self.now) }
    {
        self.edited.len()
    }

    /// Whether there are none. Takes no memory.
    pub fn is_empty(&self) -> bool
        ensures { result ≡ (length (symbols_now self.now) == 0) }
    {
        self.len() == 0
    }

    /// The number at read of the symbol at a position. Takes no memory.
    pub fn read_number(&self, i: usize) -> usize
        requires { i < length (symbols_now self.now) }
        ensures { slice_get (numbers_now self.now) i ≡ Some result }
    {
        self.edited.number_at(i)
    }

    /// The symbol at a position. Takes no memory.
    pub fn get(&self, i: usize) -> Symbol<'a>
        requires { i < length (symbols_now self.now) }
        ensures { slice_get (symbols_now self.now) i ≡ Some (symbol_model result) }
    {
        let edited = self.edited;
        let number = edited.number_at(i);
        let read = edited.table.get(number);
        match find(&edited.changes, number) {
            Some(change) => change.apply(read),
            None => read,
        }
    }

    /// The name of the symbol at a position, empty for none. Takes no memory.
    pub fn name(&self, i: usize) -> &'a [u8]
        requires { i < length (symbols_now self.now) }
        ensures { option_map (λ y. y.name) (slice_get (symbols_now self.now) i) ≡ Some result.now }
    {
        let edited = self.edited;
        let number = edited.number_at(i);
        match find(&edited.changes, number) {
            Some(change) => change.name.as_slice(),
            None => edited.table.name(number),
        }
    }

    /// Whether the symbol at a position has this name, which is compared where it stands. Takes no memory.
    #[inline(always)]
    pub fn is_named(&self, i: usize, name: &[u8]) -> bool
        requires { i < length (symbols_now self.now) }
        ensures { option_map (λ y. bytes_eq y.name name.now) (slice_get (symbols_now self.now) i)
            ≡ Some result }
    {
        let edited = self.edited;
        let number = edited.number_at(i);
        match find(&edited.changes, number) {
            Some(change) => change.name.as_slice() == name,
            None => edited.table.is_named(number, name),
        }
    }

    /// Bytes that begin with the name of the symbol at a position: a NUL stands behind it, or it is all of them. Its
    /// end isn't looked for. Takes no memory.
    #[inline(always)]
    pub fn name_front(&self, i: usize) -> &'a [u8]
        requires { i < length (symbols_now self.now) }
        ensures { option_map (λ y. y.name) (slice_get (symbols_now self.now) i)
            ≡ Some (front_text result.now) }
    {
        let edited = self.edited;
        let number = edited.number_at(i);
        let read = edited.table.name_front(number);
        let Some(change) = find(&edited.changes, number) else {
            return read;
        };
        change.name.as_slice()
    }

    /// Whether the symbol at a position has a name that isn't empty. Takes no memory.
    #[inline(always)]
    pub fn has_name(&self, i: usize) -> bool
        requires { i < length (symbols_now self.now) }
        ensures { option_map (λ y. not (length y.name == 0)) (slice_get (symbols_now self.now) i)
            ≡ Some result }
    {
        let edited = self.edited;
        let number = edited.number_at(i);
        match find(&edited.changes, number) {
            Some(change) => !change.name.as_slice().is_empty(),
            None => edited.table.has_name(number),
        }
    }

    /// The numbers of the symbol at a position, as a record has them whose name begins at a place in its string
    /// table. No edit changes them. Takes no memory.
    #[inline(always)]
    pub fn numbers(&self, i: usize, st_name: u32) -> SymbolNumbers
        requires { i < length (symbols_now self.now) }
        ensures { option_map (symbol_with st_name) (slice_get (symbols_now self.now) i)
            ≡ Some result }
    {
        let edited = self.edited;
        edited.table.numbers(edited.number_at(i), st_name)
    }
}
