//! Why an edit is refused.
ghost use Rattle.std.specs.Prelude.{◌≡◌, IfOk, MatchResult};
ghost use Rattle.std.specs.List.{list_any};
ghost use Rattle.elf_edits.specs.Cause.{fixed_names};
ghost use Rattle.elf_edits.specs.Symbols.{has_new_name};
ghost use Rattle.elf_edits.specs.TextModel.{pairs_model};
ghost use Rattle.elf_symbol_edits.specs.Cause.{cause, cause_before, is_name_fixed};
ghost use Rattle.elf_symbol_edits.specs.EditModel.{IsChecked, TellsWhy, edit_model};

use crate::deletion::Deletion;
use crate::edit::SymbolEdit;
use crate::error::SymbolEditError;
use elf_edits::can_renumber;
use elf_edits::symbols::rename_any;
use elf_format::constants::EM_MIPS;
use elf_image::Builder;
use std::alloc::{AllocError, Global};

/// Why an edit is refused.
#[derive(Clone, Copy, Debug, PartialEq, Eq)]
pub enum Cause {
    /// Files for MIPS are read alone.
    MipsImage,
    /// A name that was handed in has a NUL in it.
    NulInText,
    /// A relocation of a section that stays names a symbol that is to go.
    SymbolInRelocation,
    /// A symbol is to go, and what names the symbols of its table by their numbers can't follow; or a symbol for a loader is
    /// to have another name, and hash tables or relocations can't follow.
    CannotRenumber,
    /// Something that stays needs a section that is to go.
    SectionInUse,
}

// Whether some pairs have another name for a symbol for a loader, and hash tables or relocations can't follow.
fn is_one_fixed(
    alloc: Global,
    image: &Builder<'_>,
    pairs: &[(Vec<u8>, Vec<u8>)],
) -> Result<bool, AllocError>
    ensures { IfOk result (λ is. is
        ≡ list_any (has_new_name (pairs_model pairs.now)) (fixed_names image.now)) }
{
    if can_renumber(image) {
        Ok(false)
    } else {
        rename_any(alloc, pairs, &image.dynamic_symbols())
    }
}

// Whether an edit is to give a symbol for a loader another name, and hash tables or relocations can't follow.
fn is_name_fixed(
    alloc: Global,
    image: &Builder<'_>,
    edit: SymbolEdit<'_>,
) -> Result<bool, AllocError>
    ensures { IfOk result (λ is. is ≡ is_name_fixed (edit_model edit.entry) image.now) }
{
    match edit {
        SymbolEdit::RenameSymbols(_) => Ok(false),
        SymbolEdit::DeleteSymbols(_) => Ok(false),
        SymbolEdit::DeleteDynamicSymbols(_) => Ok(false),
        SymbolEdit::RenameAllSymbols(pairs) => is_one_fixed(alloc, image, pairs),
        SymbolEdit::DeleteAllSymbols(_) => Ok(false),
        SymbolEdit::RenameSections(_) => Ok(false),
        SymbolEdit::DeleteSections(_) => Ok(false),
    }
}

// The cause that the machine or the names of an edit are, whatever is to go. Error: `AllocError`.
fn cause_before_looking(
    alloc: Global,
    image: &Builder<'_>,
    edit: SymbolEdit<'_>,
) -> Result<Option<Cause>, AllocError>
    ensures { IfOk result (λ found. found ≡ cause_before (edit_model edit.entry) image.now) }
{
    if image.header().e_machine == EM_MIPS {
        Ok(Some(Cause::MipsImage))
    } else if edit.holds_nul() {
        Ok(Some(Cause::NulInText))
    } else {
        let is_fixed = is_name_fixed(alloc, image, edit)?;
        Ok(is_fixed.then_some(Cause::CannotRenumber))
    }
}

/// The first cause that stands against an edit of an image: the machine, a NUL in a name, names that have to stay, a
/// relocation that names a symbol which is to go, a table of symbols that can't get other numbers, a section in use; `None`
/// where none does. The cost is in proportion to the edit's names and to what it looks at of the image, times a logarithm.
/// Error: `AllocError`.
pub fn cause_of(
    alloc: Global,
    image: &Builder<'_>,
    edit: SymbolEdit<'_>,
) -> Result<Option<Cause>, AllocError>
    ensures { IfOk result (λ found. found ≡ cause (edit_model edit.entry) image.now) }
{
    let before = cause_before_looking(alloc, image, edit)?;
    if before.is_some() {
        return Ok(before);
    }
    let deletion = Deletion::of(alloc, image, edit)?;
    Ok(deletion.cause(image))
}

// What an edit deletes, where no cause stands against it. Error: the first cause, or there was no memory.
pub(crate) fn checked(
    alloc: Global,
    image: &Builder<'_>,
    edit: SymbolEdit<'_>,
) -> Result<Deletion, SymbolEditError>
    ensures { MatchResult result (IsChecked (edit_model edit.entry) image.now)
        (TellsWhy (cause (edit_model edit.entry) image.now)) }
{
    let before = cause_before_looking(alloc, image, edit)?;
    if let Some(cause) = before {
        return Err(SymbolEditError::Refused(cause));
    }
    let deletion = Deletion::of(alloc, image, edit)?;
    match deletion.cause(image) {
        Some(cause) => Err(SymbolEditError::Refused(cause)),
        None => Ok(deletion),
    }
}
