//! What edits made of one symbol.
ghost use Rattle.std.specs.Prelude.{◌≡◌, ◌<◌, ◌↔◌, IfOk, IsTrue, length};
ghost use Rattle.elf_image_symbols.specs.SymbolModel.{symbol_model};
ghost use Rattle.elf_image_symbols.specs.Changes.{Leaves, changed_by, idle_change, version_by};
ghost use Rattle.elf_image_symbols.specs.EditedList.{as_global};

use crate::version_id::VersionId;
use crate::{ByteString, Symbol, Symbols};
use std::alloc::{AllocError, Global};

// What edits made of one symbol.
#[derive(Debug, Drop)]
pub struct Change<'data> {
    // The number of the symbol at read.
    pub number: usize,
    // The symbol's name, which may be the one that was read.
    pub name: ByteString<'data>,
    // Whether the symbol has the global version in place of the one that was read.
    pub is_cleared: bool,
}

// Whether the global version stands already, or there is none.
fn is_global(version: Option<VersionId>) -> bool
    ensures { IsTrue result ↔ (as_global version ≡ version) }
{
    match version {
        Some(id) => id.index == 1 && !id.hidden,
        None => true,
    }
}

impl<'data> Change<'data> {
    // A change of a symbol that leaves it as it was read.
    pub(crate) fn idle(table: &Symbols<'data>, number: usize) -> Change<'data>
        requires { number < length table.now }
        ensures { result ≡ idle_change table.now number }
    {
        Change {
            number,
            name: ByteString::borrowed(table.name(number)),
            is_cleared: false,
        }
    }

    // The version of the symbol, of the one that was read.
    fn version(&self, read: Option<VersionId>) -> Option<VersionId>
        ensures { result ≡ version_by self.now.is_cleared read }
    {
        if !self.is_cleared {
            return read;
        }
        match read {
            Some(_) => Some(VersionId::global()),
            None => None,
        }
    }

    // The symbol, of the one that was read.
    pub(crate) fn apply<'a>(&'a self, read: Symbol<'a>) -> Symbol<'a>
        ensures { symbol_model result ≡ changed_by self.now (symbol_model read.entry) }
    {
        Symbol {
            name: self.name.as_slice(),
            st_info: read.st_info,
            st_other: read.st_other,
            st_shndx: read.st_shndx,
            st_value: read.st_value,
            st_size: read.st_size,
            version: self.version(read.version),
        }
    }

    // Whether the symbol is as it was read.
    pub(crate) fn is_idle(&self, table: &Symbols<'_>) -> bool
        requires { self.now.number < length table.now }
        ensures { IsTrue result ↔ Leaves (λ y. y) table.now self.now }
    {
        let read = table.get(self.number);
        if self.name.as_slice() != read.name {
            return false;
        }
        if !self.is_cleared {
            return true;
        }
        is_global(read.version)
    }

    // Whether the symbol has the name that was read.
    pub(crate) fn keeps_name(&self, table: &Symbols<'_>) -> bool
        requires { self.now.number < length table.now }
        ensures { IsTrue result ↔ Leaves (λ y. y.name) table.now self.now }
    {
        self.name.as_slice() == table.name(self.number)
    }

    // A copy of the change.
    pub(crate) fn try_clone(&self, alloc: Global) -> Result<Change<'data>, AllocError>
        ensures { IfOk result (λ copy. copy ≡ self.now) }
    {
        let name = self.name.try_clone(alloc)?;
        Ok(Change {
            number: self.number,
            name,
            is_cleared: self.is_cleared,
        })
    }
}
