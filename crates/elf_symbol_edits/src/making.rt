//! Making an edit.
ghost use Rattle.std.specs.Prelude.{◌≡◌, IfOk, MatchResult};
ghost use Rattle.elf_symbol_edits.specs.EditModel.{IsChecked, IsDone, IsMade, IsRefused, deletion_model, edit_model};
ghost use Rattle.elf_symbol_edits.specs.Deletion.{AreRising};
ghost use Rattle.elf_symbol_edits.specs.Steps.{AreSectionsGone};
ghost use Rattle.elf_image.specs.Along.{symbols_along};
ghost use Rattle.elf_image.specs.Deleted.{CanDelete};
ghost use Rattle.elf_image.specs.Edited.{IsEdited};

use crate::cause::checked;
use crate::deletion::Deletion;
use crate::edit::SymbolEdit;
use crate::error::SymbolEditError;
use crate::sections::{delete_sections, rename_sections};
use crate::symbols::{
    delete_all_symbols, delete_dynamic_symbols, delete_symbols, rename_all_symbols, rename_symbols,
};
use elf_image::Builder;
use std::alloc::{AllocError, Global};

// Deletes sections with what goes along, and tells whether there are some.
fn delete_all(
    alloc: Global,
    image: &mut Builder<'_>,
    deletion: &Deletion,
) -> Result<bool, AllocError>
    requires sections { CanDelete image.old deletion.now.sections.items }
    requires rising { AreRising (deletion_model deletion.now) }
    requires along { deletion.now.symbols.items
        ≡ symbols_along image.old deletion.now.sections.items }
    ensures { MatchResult result (AreSectionsGone deletion.now.sections.items image.old image.new)
        (λ _. image.new ≡ image.old) }
{
    delete_sections(alloc, image, &deletion.sections, &deletion.symbols)?;
    Ok(!deletion.sections.is_empty())
}

// Makes an edit against which no cause stands, and tells whether it found something. Error: `AllocError`, and nothing has
// changed.
fn carry_out(
    alloc: Global,
    image: &mut Builder<'_>,
    edit: SymbolEdit<'_>,
    deletion: &Deletion,
) -> Result<bool, AllocError>
    requires { IsChecked (edit_model edit) image.old deletion.now }
    ensures { MatchResult result (IsDone (edit_model edit.entry) image.old image.new)
        (λ _. image.new ≡ image.old) }
{
    match edit {
        SymbolEdit::RenameSymbols(pairs) => rename_symbols(alloc, image, pairs),
        SymbolEdit::DeleteSymbols(_) => delete_symbols(alloc, image, &deletion.symbols),
        SymbolEdit::DeleteDynamicSymbols(_) => {
            delete_dynamic_symbols(alloc, image, &deletion.dynamic_symbols)
        }
        SymbolEdit::RenameAllSymbols(pairs) => rename_all_symbols(alloc, image, pairs),
        SymbolEdit::DeleteAllSymbols(_) => {
            delete_all_symbols(alloc, image, &deletion.symbols, &deletion.dynamic_symbols)
        }
        SymbolEdit::RenameSections(pairs) => rename_sections(alloc, image, pairs),
        SymbolEdit::DeleteSections(_) => delete_all(alloc, image, deletion),
    }
}

/// Makes an edit of an image, and tells whether it found something; one that finds nothing leaves the image as it was, the
/// mark too. All that takes memory comes before the first change. The cost is in proportion to the edit's names and to what
/// it looks at of the image, times a logarithm. Errors, and nothing has changed: the first cause that stands against the
/// edit, or there was no memory.
pub fn make(
    alloc: Global,
    image: &mut Builder<'_>,
    edit: SymbolEdit<'_>,
) -> Result<bool, SymbolEditError>
    ensures made { MatchResult result (IsMade (edit_model edit.entry) image.old image.new)
        (IsRefused (edit_model edit.entry) image.old image.new) }
    // what is there leans on nothing that went
    ensures edited { IfOk result (λ _. IsEdited image.new) }
{
    let deletion = checked(alloc, image, edit)?;
    let is_found = carry_out(alloc, image, edit, &deletion)?;
    // an image is one that was read and edited
    let _source = image.source();
    Ok(is_found)
}
