//! Edits of symbols and sections upon an image.
ghost use Rattle.std.specs.Prelude.{Err};
ghost use Rattle.elf_symbol_edits.specs.EditModel.{edit_model};
ghost use Rattle.elf_apply.specs.SymbolsTaken.{RefusesSymbolEdit, TakesSymbolEdit};

use crate::error::{ElfError, ModifyCause, Result};
use elf_image::Builder;
use elf_symbol_edits::laws::symbol_edits_show;
use elf_symbol_edits::{Cause, SymbolEdit, SymbolEditError, make};
use std::alloc::Global;

// The error that tells a cause.
fn cause_error(cause: Cause) -> ElfError
    ensures { RefusesSymbolEdit result (Err cause) }
{
    match cause {
        Cause::MipsImage => ElfError::Modify(ModifyCause::MipsImage),
        Cause::NulInText => ElfError::Modify(ModifyCause::NulInText),
        Cause::SymbolInRelocation => ElfError::Modify(ModifyCause::SymbolInRelocation),
        Cause::CannotRenumber => ElfError::Modify(ModifyCause::CannotRenumber),
        Cause::SectionInUse => ElfError::Modify(ModifyCause::SectionInUse),
    }
}

/// Makes an edit of symbols or sections, all of it or nothing. Errors: `Modify` with the first cause that stands against it
/// (`MipsImage`, `NulInText`, `SymbolInRelocation`, `CannotRenumber`, `SectionInUse`), `Memory`; the image is then as it was.
pub fn edit_symbols(builder: &mut Builder<'_>, alloc: Global, edit: SymbolEdit<'_>) -> Result<()>
    ensures { TakesSymbolEdit (edit_model edit.entry) builder.old builder.new result }
{
    symbol_edits_show();
    // an image is one that was read and edited
    let _source = builder.source();
    match make(alloc, builder, edit) {
        Ok(_) => Ok(()),
        Err(SymbolEditError::Refused(cause)) => Err(cause_error(cause)),
        Err(SymbolEditError::Memory) => Err(ElfError::Memory),
    }
}
