//! What an edit deletes, and what stands against that.
ghost use Rattle.std.specs.Prelude.{◌≡◌, IfOk};
ghost use Rattle.std.specs.List.Sorted.{IsNonDecreasing};
ghost use Rattle.elf_edits.specs.TextModel.{texts_model};
ghost use Rattle.elf_image.specs.Needed.{is_section_used as are_sections_used};
ghost use Rattle.elf_image.specs.Relocated.{is_symbol_used as are_symbols_used};
ghost use Rattle.elf_image.specs.Staying.{staying, table_number as number_of_table};
ghost use Rattle.elf_symbol_edits.specs.Cause.{cause_of_deletion, is_fixed, is_named_by_relocation};
ghost use Rattle.elf_symbol_edits.specs.Deletion.{AreRising, no_deletion};
ghost use Rattle.elf_symbol_edits.specs.EditModel.{IsDeletionOf, deletion_model, edit_model};
ghost use Rattle.elf_symbol_edits.specs.SymbolEdit.{DeleteAllSymbols, DeleteDynamicSymbols, DeleteSections, DeleteSymbols};

use crate::cause::Cause;
use crate::edit::SymbolEdit;
use crate::names::{sections_with, symbols_with};
use elf_edits::{
    can_renumber, has_opaque_user, is_section_used, is_symbol_used, symbols_along, table_number,
};
use elf_format::constants::{SHT_DYNSYM, SHT_SYMTAB};
use elf_image::Builder;
use std::alloc::{AllocError, Global};

// What an edit deletes, by numbers at read, which rise.
#[derive(Drop)]
pub(crate) struct Deletion {
    // Symbols for a link editor.
    pub(crate) symbols: Vec<usize>,
    // Symbols for a loader.
    pub(crate) dynamic_symbols: Vec<usize>,
    pub(crate) sections: Vec<usize>,
}

impl Deletion {
    // Nothing is deleted.
    fn none(alloc: Global) -> Deletion
        ensures { deletion_model result ≡ no_deletion }
    {
        Deletion {
            symbols: Vec::new(alloc),
            dynamic_symbols: Vec::new(alloc),
            sections: Vec::new(alloc),
        }
    }

    // The symbols for a link editor with one of some names.
    fn of_symbols(
        alloc: Global,
        image: &Builder<'_>,
        names: &[Vec<u8>],
    ) -> Result<Deletion, AllocError>
        ensures { IfOk result
            (IsDeletionOf (DeleteSymbols (texts_model names.now)) image.now) }
    {
        // the numbers of an image's symbols rise
        let _source = image.source();
        let symbols = symbols_with(alloc, names, &image.symbols())?;
        Ok(Deletion {
            symbols,
            dynamic_symbols: Vec::new(alloc),
            sections: Vec::new(alloc),
        })
    }

    // The symbols for a loader with one of some names.
    fn of_dynamic_symbols(
        alloc: Global,
        image: &Builder<'_>,
        names: &[Vec<u8>],
    ) -> Result<Deletion, AllocError>
        ensures { IfOk result
            (IsDeletionOf (DeleteDynamicSymbols (texts_model names.now)) image.now) }
    {
        // the numbers of an image's symbols rise
        let _source = image.source();
        let dynamic_symbols = symbols_with(alloc, names, &image.dynamic_symbols())?;
        Ok(Deletion {
            symbols: Vec::new(alloc),
            dynamic_symbols,
            sections: Vec::new(alloc),
        })
    }

    // The symbols of both with one of some names.
    fn of_all_symbols(
        alloc: Global,
        image: &Builder<'_>,
        names: &[Vec<u8>],
    ) -> Result<Deletion, AllocError>
        ensures { IfOk result
            (IsDeletionOf (DeleteAllSymbols (texts_model names.now)) image.now) }
    {
        // the numbers of an image's symbols rise
        let _source = image.source();
        let symbols = symbols_with(alloc, names, &image.symbols())?;
        let dynamic_symbols = symbols_with(alloc, names, &image.dynamic_symbols())?;
        Ok(Deletion {
            symbols,
            dynamic_symbols,
            sections: Vec::new(alloc),
        })
    }

    // The sections with one of some names, and the symbols for a link editor that go along.
    fn of_sections(
        alloc: Global,
        image: &Builder<'_>,
        names: &[Vec<u8>],
    ) -> Result<Deletion, AllocError>
        ensures { IfOk result
            (IsDeletionOf (DeleteSections (texts_model names.now)) image.now) }
    {
        // the numbers of an image's sections rise
        let _source = image.source();
        let sections = sections_with(alloc, names, image)?;
        let symbols = symbols_along(alloc, image, &sections)?;
        Ok(Deletion {
            symbols,
            dynamic_symbols: Vec::new(alloc),
            sections,
        })
    }

    // What an edit deletes. Error: `AllocError`.
    pub(crate) fn of(
        alloc: Global,
        image: &Builder<'_>,
        edit: SymbolEdit<'_>,
    ) -> Result<Deletion, AllocError>
        ensures { IfOk result (IsDeletionOf (edit_model edit.entry) image.now) }
    {
        match edit {
            SymbolEdit::RenameSymbols(_) => Ok(Deletion::none(alloc)),
            SymbolEdit::DeleteSymbols(names) => Deletion::of_symbols(alloc, image, names),
            SymbolEdit::DeleteDynamicSymbols(names) => {
                Deletion::of_dynamic_symbols(alloc, image, names)
            }
            SymbolEdit::RenameAllSymbols(_) => Ok(Deletion::none(alloc)),
            SymbolEdit::DeleteAllSymbols(names) => Deletion::of_all_symbols(alloc, image, names),
            SymbolEdit::RenameSections(_) => Ok(Deletion::none(alloc)),
            SymbolEdit::DeleteSections(names) => Deletion::of_sections(alloc, image, names),
        }
    }

    // Whether a relocation of a section that stays names a symbol that goes.
    fn is_named_by_relocation(&self, image: &Builder<'_>) -> bool
        requires { AreRising (deletion_model self.now) }
        ensures { result ≡ is_named_by_relocation (deletion_model self.now) image.now }
    {
        is_used(image, SHT_SYMTAB, &self.symbols, &self.sections)
            || is_used(image, SHT_DYNSYM, &self.dynamic_symbols, &self.sections)
    }

    // Whether a symbol goes from a table whose symbols keep their numbers.
    fn is_fixed(&self, image: &Builder<'_>) -> bool
        requires { AreRising (deletion_model self.now) }
        ensures { result ≡ is_fixed (deletion_model self.now) image.now }
    {
        !self.symbols.is_empty()
            && has_opaque_user(image, table_number(image, SHT_SYMTAB), &self.sections)
            || !self.dynamic_symbols.is_empty() && !can_renumber(image)
    }

    // The first cause that stands against the deletion.
    pub(crate) fn cause(&self, image: &Builder<'_>) -> Option<Cause>
        requires { AreRising (deletion_model self.now) }
        ensures { result ≡ cause_of_deletion (deletion_model self.now) image.now }
    {
        if self.is_named_by_relocation(image) {
            Some(Cause::SymbolInRelocation)
        } else if self.is_fixed(image) {
            Some(Cause::CannotRenumber)
        } else if is_one_used(image, &self.sections) {
            Some(Cause::SectionInUse)
        } else {
            None
        }
    }
}

// Whether a relocation of a section that stays names one of some symbols of the first table of a type. Where there is no
// symbol none is looked at.
fn is_used(image: &Builder<'_>, kind: u32, symbols: &[usize], gone: &[usize]) -> bool
    requires symbols { IsNonDecreasing symbols.now }
    requires gone { IsNonDecreasing gone.now }
    ensures { result ≡ are_symbols_used image.now.form (number_of_table kind image.now)
        symbols.now (staying gone.now image.now) }
{
    !symbols.is_empty() && is_symbol_used(image, table_number(image, kind), symbols, gone)
}

// Whether one of some sections can't go. Where there is none nothing is looked at.
fn is_one_used(image: &Builder<'_>, gone: &[usize]) -> bool
    requires { IsNonDecreasing gone.now }
    ensures { result ≡ are_sections_used image.now gone.now }
{
    !gone.is_empty() && is_section_used(image, gone)
}
