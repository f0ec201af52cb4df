//! The two lists of symbols that an image has: those for a link editor and those for a loader (gABI, Symbol Table).
ghost use Rattle.std.specs.Prelude.{◌≡◌, IfOk};
ghost use Rattle.elf_image_symbols.specs.EditedLists.{edits_of_none, lists_at_read};

use crate::Symbols;
use crate::edited_symbols::EditedSymbols;
use std::alloc::{AllocError, Global};

/// The symbols for a link editor and those for a loader, as they were read.
#[derive(Debug, Drop)]
pub struct SymbolLists<'data> {
    /// The symbols for a link editor.
    pub symbols: Symbols<'data>,
    /// The symbols for a loader.
    pub dynamic_symbols: Symbols<'data>,
}

impl<'data> SymbolLists<'data> {
    /// The lists, lent once more. Takes no memory.
    pub fn same(&self) -> SymbolLists<'data>
        ensures { result ≡ self.now }
    {
        SymbolLists {
            symbols: self.symbols.same(),
            dynamic_symbols: self.dynamic_symbols.same(),
        }
    }
}

/// The symbols for a link editor and those for a loader, with what edits made of them.
#[derive(Debug, Drop)]
pub struct EditedLists<'data> {
    /// The symbols for a link editor.
    pub symbols: EditedSymbols<'data>,
    /// The symbols for a loader.
    pub dynamic_symbols: EditedSymbols<'data>,
}

impl<'data> EditedLists<'data> {
    /// The lists, none of their symbols edited. Error: `AllocError` where there is no room for edits of all.
    pub fn new(alloc: Global, lists: &SymbolLists<'data>) -> Result<EditedLists<'data>, AllocError>
        ensures { IfOk result (λ edited. edited ≡ edits_of_none lists.now) }
    {
        let symbols = EditedSymbols::new(alloc, lists.symbols.same())?;
        let dynamic_symbols = EditedSymbols::new(alloc, lists.dynamic_symbols.same())?;
        Ok(EditedLists {
            symbols,
            dynamic_symbols,
        })
    }

    /// A copy of the lists with their edits. Error: `AllocError`.
    pub fn try_clone(&self, alloc: Global) -> Result<EditedLists<'data>, AllocError>
        ensures { IfOk result (λ copy. copy ≡ self.now) }
    {
        let symbols = self.symbols.try_clone(alloc)?;
        let dynamic_symbols = self.dynamic_symbols.try_clone(alloc)?;
        Ok(EditedLists {
            symbols,
            dynamic_symbols,
        })
    }

    /// The lists as they were read. Takes no memory.
    pub fn read(&self) -> SymbolLists<'data>
        ensures { result ≡ lists_at_read self.now }
    {
        SymbolLists {
            symbols: self.symbols.read().same(),
            dynamic_symbols: self.dynamic_symbols.read().same(),
        }
    }
}
