//! Symbols that get other names, or go.
ghost use Rattle.std.specs.Prelude.{◌≡◌, ◌&&◌, [], not, IfOk, IfSome, MatchResult, false, is_some};
ghost use Rattle.std.specs.List.{list_any};
ghost use Rattle.std.specs.List.Sorted.{IsNonDecreasing};
ghost use Rattle.elf_format.specs.declared.constants.TheConstants.{SHT_DYNSYM as DYNSYM, SHT_SYMTAB as SYMTAB};
ghost use Rattle.elf_format.specs.Options.{is_one_of};
ghost use Rattle.elf_edits.specs.Cause.{fixed_names};
ghost use Rattle.elf_edits.specs.Symbols.{has_new_name};
ghost use Rattle.elf_edits.specs.TextModel.{pairs_model};
ghost use Rattle.elf_edits.specs.Texts.{has_some, holds_nul as nul_in};
ghost use Rattle.elf_image_symbols.specs.EditedList.{without_numbers};
ghost use Rattle.elf_image.specs.Relocated.{is_symbol_used as are_symbols_used};
ghost use Rattle.elf_image.specs.Renumbering.{can_renumber as can_image_renumber};
ghost use Rattle.elf_image.specs.Staying.{staying, table_number as number_of_table};
ghost use Rattle.elf_image.specs.SymbolEdits.{IsPutFor, IsStaticPutFor};
ghost use Rattle.elf_symbol_edits.specs.EditModel.{IsDone};
ghost use Rattle.elf_symbol_edits.specs.Steps.{AreAllGone, AreDynamicGone, AreDynamicLeft, AreGone, with_dynamic_put, with_symbols_put};
ghost use Rattle.elf_symbol_edits.specs.SymbolEdit.{RenameAllSymbols, RenameSymbols, texts_of};

use elf_edits::symbols::renamed;
use elf_image::Builder;
use elf_image_symbols::EditedSymbols;
use std::alloc::{AllocError, Global};

// Puts symbols for a link editor in place, where there are some, and tells whether there are.
fn put_symbols<'d>(image: &mut Builder<'d>, symbols: Option<EditedSymbols<'d>>) -> bool
    requires { IfSome symbols (IsStaticPutFor image.old) }
    ensures told { result ≡ is_some symbols.entry }
    ensures put { image.new ≡ with_symbols_put symbols.entry image.old }
{
    match symbols {
        None => false,
        Some(symbols) => {
            image.put_symbols(symbols);
            true
        }
    }
}

// Puts symbols for a loader in place, where there are some, and tells whether there are.
fn put_dynamic_symbols<'d>(image: &mut Builder<'d>, symbols: Option<EditedSymbols<'d>>) -> bool
    requires { IfSome symbols (IsPutFor image.old) }
    ensures told { result ≡ is_some symbols.entry }
    ensures put { image.new ≡ with_dynamic_put symbols.entry image.old }
{
    match symbols {
        None => false,
        Some(symbols) => {
            image.put_dynamic_symbols(symbols);
            true
        }
    }
}

// Gives symbols for a link editor other names, and tells whether there was one to rename. Error: `AllocError`, and nothing
// has changed.
pub(crate) fn rename_symbols(
    alloc: Global,
    image: &mut Builder<'_>,
    pairs: &[(Vec<u8>, Vec<u8>)],
) -> Result<bool, AllocError>
    requires { list_any nul_in (texts_of (RenameSymbols (pairs_model pairs.now))) ≡ false }
    ensures { MatchResult result
        (IsDone (RenameSymbols (pairs_model pairs.now)) image.old image.new)
        (λ _. image.new ≡ image.old) }
{
    // what is there of an image's symbols leans on nothing that went
    let _source = image.source();
    let symbols = renamed(alloc, pairs, image.edited_symbols())?;
    Ok(put_symbols(image, symbols))
}

// Gives the symbols for a link editor and for a loader other names, where hash tables and
// relocations can follow. The symbols for a loader are made first, and put in place last.
pub(crate) fn rename_all_symbols(
    alloc: Global,
    image: &mut Builder<'_>,
    pairs: &[(Vec<u8>, Vec<u8>)],
) -> Result<bool, AllocError>
    requires whole { list_any nul_in (texts_of (RenameAllSymbols (pairs_model pairs.now)))
        ≡ false }
    requires names { list_any (has_new_name (pairs_model pairs.now)) (fixed_names image.old)
        ≡ false }
    ensures { MatchResult result
        (IsDone (RenameAllSymbols (pairs_model pairs.now)) image.old image.new)
        (λ _. image.new ≡ image.old) }
{
    // what is there of an image's symbols leans on nothing that went
    let _source = image.source();
    let dynamic = renamed(alloc, pairs, image.edited_dynamic_symbols())?;
    let is_static = rename_symbols(alloc, image, pairs)?;
    let is_dynamic = put_dynamic_symbols(image, dynamic);
    Ok(is_static || is_dynamic)
}

// A copy of symbols without those that have some numbers.
fn symbols_without<'d>(
    alloc: Global,
    symbols: &EditedSymbols<'d>,
    gone: &[usize],
) -> Result<EditedSymbols<'d>, AllocError>
    requires { IsNonDecreasing gone.now }
    ensures { IfOk result (λ left. left ≡ without_numbers gone.now symbols.now) }
{
    let mut left = symbols.try_clone(alloc)?;
    left.delete_all(gone);
    Ok(left)
}

// Deletes the symbols for a link editor with some numbers, and tells whether there are some. Error: `AllocError`, and
// nothing has changed.
pub(crate) fn delete_symbols(
    alloc: Global,
    image: &mut Builder<'_>,
    gone: &[usize],
) -> Result<bool, AllocError>
    requires rising { IsNonDecreasing gone.now }
    requires first { is_one_of gone.now 0 ≡ false }
    requires unnamed { are_symbols_used image.old.form (number_of_table SYMTAB image.old) gone.now
        (staying [] image.old) ≡ false }
    ensures { MatchResult result (AreGone gone.now image.old image.new)
        (λ _. image.new ≡ image.old) }
{
    if gone.is_empty() {
        return Ok(false);
    }
    // what is there of an image's symbols leans on nothing that went
    let _source = image.source();
    let left = symbols_without(alloc, image.edited_symbols(), gone)?;
    image.put_symbols(left);
    Ok(true)
}

// Deletes the symbols for a loader with some numbers, where hash tables and relocations can follow.
pub(crate) fn delete_dynamic_symbols(
    alloc: Global,
    image: &mut Builder<'_>,
    gone: &[usize],
) -> Result<bool, AllocError>
    requires rising { IsNonDecreasing gone.now }
    requires first { is_one_of gone.now 0 ≡ false }
    requires unnamed { are_symbols_used image.old.form (number_of_table DYNSYM image.old) gone.now
        (staying [] image.old) ≡ false }
    requires tables { (has_some gone.now && not (can_image_renumber image.old)) ≡ false }
    ensures { MatchResult result (AreDynamicGone gone.now image.old image.new)
        (λ _. image.new ≡ image.old) }
{
    if gone.is_empty() {
        return Ok(false);
    }
    // what is there of an image's symbols leans on nothing that went
    let _source = image.source();
    let left = symbols_without(alloc, image.edited_dynamic_symbols(), gone)?;
    image.put_dynamic_symbols(left);
    Ok(true)
}

// The symbols for a loader without those that have some numbers, where there are some.
fn dynamic_without<'d>(
    alloc: Global,
    image: &Builder<'d>,
    gone: &[usize],
) -> Result<Option<EditedSymbols<'d>>, AllocError>
    requires rising { IsNonDecreasing gone.now }
    requires first { is_one_of gone.now 0 ≡ false }
    requires unnamed { are_symbols_used image.now.form (number_of_table DYNSYM image.now) gone.now
        (staying [] image.now) ≡ false }
    requires tables { (has_some gone.now && not (can_image_renumber image.now)) ≡ false }
    ensures { IfOk result (AreDynamicLeft gone.now image.now) }
{
    if gone.is_empty() {
        return Ok(None);
    }
    // what is there of an image's symbols leans on nothing that went
    let _source = image.source();
    let left = symbols_without(alloc, image.edited_dynamic_symbols(), gone)?;
    Ok(Some(left))
}

// Deletes the symbols of both with some numbers, and tells whether there are some. Those for a loader that are left are made
// first, and put in place last. Error: `AllocError`, and nothing has changed.
pub(crate) fn delete_all_symbols(
    alloc: Global,
    image: &mut Builder<'_>,
    gone: &[usize],
    dynamic_gone: &[usize],
) -> Result<bool, AllocError>
    requires rising { IsNonDecreasing gone.now }
    requires dynamic_rising { IsNonDecreasing dynamic_gone.now }
    requires first { is_one_of gone.now 0 ≡ false }
    requires dynamic_first { is_one_of dynamic_gone.now 0 ≡ false }
    requires unnamed { are_symbols_used image.old.form (number_of_table SYMTAB image.old) gone.now
        (staying [] image.old) ≡ false }
    requires dynamic_unnamed { are_symbols_used image.old.form (number_of_table DYNSYM image.old)
        dynamic_gone.now (staying [] image.old) ≡ false }
    requires tables { (has_some dynamic_gone.now && not (can_image_renumber image.old)) ≡ false }
    ensures { MatchResult result (AreAllGone gone.now dynamic_gone.now image.old image.new)
        (λ _. image.new ≡ image.old) }
{
    // an image has as many numbers of symbols as symbols
    let _source = image.source();
    let dynamic = dynamic_without(alloc, image, dynamic_gone)?;
    let is_static = delete_symbols(alloc, image, gone)?;
    let is_dynamic = put_dynamic_symbols(image, dynamic);
    Ok(is_static || is_dynamic)
}
