//! Dynamic symbols that edits make (gABI, Symbol Table; GNU symbol versioning).
ghost use Rattle.std.specs.Prelude.{◌≡◌, ◌<◌, ◌≤◌, IfOk, MatchOption, Some, drop, false, length, option_map, slice_get};
ghost use Rattle.std.specs.List.{list_any};
ghost use Rattle.elf_image_symbols.specs.EditedList.{IsName, changed_at};
ghost use Rattle.elf_image_symbols.specs.Loan.{symbols_now};
ghost use Rattle.elf_edits.specs.Edit.{RenameDynamicSymbols, edit_model, texts_of};
ghost use Rattle.elf_edits.specs.SymbolChanges.{AreSymbolsAfter, AreSymbolsChanged, BeginsAt, EndsAt, GivesNames, KeepsNames, changed_symbol, is_changed, renamed_by, renamed_from};
ghost use Rattle.elf_edits.specs.Symbols.{behind_first, cleared, has_new_name, has_version_to_clear, names_behind_first};
ghost use Rattle.elf_edits.specs.TextModel.{pairs_model};
ghost use Rattle.elf_edits.specs.Texts.{holds_nul, is_among};

use crate::edit::ElfEdit;
use crate::lookups::map_of;
use elf_image_symbols::{EditedSymbols, SymbolsNow};
use patch_bytes::ByteString;
use std::alloc::{AllocError, Global};
use std::collections::HashMap;

// How many symbols are changed one by one, before all are made ready for changes.
const FEW: usize = 16;

// What becomes of dynamic symbols.
#[derive(Clone, Copy)]
pub(crate) enum SymbolChange<'e, 'n> {
    // The name of a symbol is the other name for it here, if there is one.
    Name(&'e HashMap<&'n [u8], &'n [u8]>),
    // The one name becomes the other: a name is compared in place of looked up.
    One(&'e [u8], &'e [u8]),
    // A symbol with this name has, where it has a version, that of a global symbol.
    Version(&'e [u8]),
}

// How far the symbols reach that a change is about.
#[derive(Clone, Copy)]
pub struct Reach {
    // One past the last of them, or of all symbols where they are more than a few.
    pub end: usize,
    // How many symbols are reached, as far as they were counted: up to one more than a few.
    pub count: usize,
}

// Whether a symbol has this name, and a version.
fn has_version(symbols: &SymbolsNow<'_>, i: usize, name: &[u8]) -> bool
    requires { i < length (symbols_now symbols.now) }
    ensures { option_map (has_version_to_clear name.now) (slice_get (symbols_now symbols.now) i)
        ≡ Some result }
{
    symbols.is_named(i, name) && symbols.get(i).version.is_some()
}

// Gives a symbol the name that a map has for its own, if it has one.
fn rename(
    alloc: Global,
    names: &HashMap<&[u8], &[u8]>,
    edited: &mut EditedSymbols<'_>,
    i: usize,
) -> Result<(), AllocError>
    requires there { i < length edited.old.symbols }
    requires names { GivesNames names.now.entries }
    ensures { IfOk result (λ _. edited.new ≡ record edited.old {
      symbols = changed_at i (renamed_by names.now.entries) edited.old.symbols;
    }) }
{
    match names.get(edited.lend().name(i)) {
        None => Ok(()),
        Some(name) => {
            let name = Vec::from_slice(alloc, name)?;
            edited.rename(i, ByteString::owned(name));
            Ok(())
        }
    }
}

// Gives a symbol another name, if it has the one.
fn rename_one(
    alloc: Global,
    old: &[u8],
    new: &[u8],
    edited: &mut EditedSymbols<'_>,
    i: usize,
) -> Result<(), AllocError>
    requires there { i < length edited.old.symbols }
    requires name { IsName new.now }
    ensures { IfOk result (λ _. edited.new ≡ record edited.old {
      symbols = changed_at i (renamed_from old.now new.now) edited.old.symbols;
    }) }
{
    if !edited.lend().is_named(i, old) {
        return Ok(());
    }
    let name = Vec::from_slice(alloc, new)?;
    edited.rename(i, ByteString::owned(name));
    Ok(())
}

// Clears the version of a symbol with this name, where it has one.
fn clear(name: &[u8], edited: &mut EditedSymbols<'_>, i: usize)
    requires { i < length edited.old.symbols }
    ensures { edited.new ≡ record edited.old {
      symbols = changed_at i (cleared name.now) edited.old.symbols;
    } }
{
    if has_version(&edited.lend(), i, name) {
        edited.clear_version(i);
    }
}

impl SymbolChange<'_, '_> {
    // Whether the change is about the symbol at a position.
    fn is_about(&self, symbols: &SymbolsNow<'_>, i: usize) -> bool
        requires { i < length (symbols_now symbols.now) }
        ensures { option_map (is_changed self.now) (slice_get (symbols_now symbols.now) i)
            ≡ Some result }
    {
        match self {
            SymbolChange::Name(names) => names.contains_key(symbols.name(i)),
            SymbolChange::One(old, _) => symbols.is_named(i, old),
            SymbolChange::Version(name) => has_version(symbols, i, name),
        }
    }

    // Where the first of the symbols that it is about stands, behind the first of all; `None` where it is about none.
    fn find_first(&self, symbols: &SymbolsNow<'_>) -> Option<usize>
        ensures { MatchOption result
            (list_any (is_changed self.now) (drop 1 (symbols_now symbols.now)) ≡ false)
            (BeginsAt self.now (symbols_now symbols.now)) }
    {
        for i in 1..symbols.len() {
            if self.is_about(symbols, i) {
                return Some(i);
            }
        }
        None
    }

    // Whether the change is about a symbol behind the first.
    pub(crate) fn is_about_any(&self, symbols: &SymbolsNow<'_>) -> bool
        ensures { result ≡ list_any (is_changed self.now) (drop 1 (symbols_now symbols.now)) }
    {
        self.find_first(symbols).is_some()
    }

    // How far the symbols reach that the change is about, from a position on.
    fn reach(&self, symbols: &SymbolsNow<'_>, first: usize) -> Reach
        requires behind { 1 ≤ first }
        requires within { first ≤ length (symbols_now symbols.now) }
        ensures ends { EndsAt self.now (symbols_now symbols.now) result.end }
        ensures behind { first ≤ result.end }
    {
        let mut count = 0;
        let mut end = first;
        for i in first..symbols.len() {
            if count > FEW {
                let end = symbols.len();
                return Reach { end, count };
            }
            if self.is_about(symbols, i) {
                count += 1;
                end = i + 1;
            }
        }
        Reach { end, count }
    }

    // Makes the change of the symbol at a position.
    fn apply(
        &self,
        alloc: Global,
        edited: &mut EditedSymbols<'_>,
        i: usize,
    ) -> Result<(), AllocError>
        requires there { i < length edited.old.symbols }
        requires names { KeepsNames self.now }
        ensures { IfOk result (λ _. edited.new ≡ record edited.old {
          symbols = changed_at i (changed_symbol self.now) edited.old.symbols;
        }) }
    {
        match self {
            SymbolChange::Name(names) => rename(alloc, names, edited, i),
            SymbolChange::One(old, new) => rename_one(alloc, old, new, edited, i),
            SymbolChange::Version(name) => {
                clear(name, edited, i);
                Ok(())
            }
        }
    }

    // Makes it of the symbols from a position on, up to another one: those that it is about stand there.
    fn apply_between(
        &self,
        alloc: Global,
        edited: &mut EditedSymbols<'_>,
        first: usize,
        end: usize,
    ) -> Result<(), AllocError>
        requires names { KeepsNames self.now }
        requires begins { BeginsAt self.now edited.old.symbols first }
        requires ends { EndsAt self.now edited.old.symbols end }
        requires rising { first ≤ end }
        ensures { IfOk result (λ _. edited.new ≡ record edited.old {
          symbols = behind_first (changed_symbol self.now) edited.old.symbols;
        }) }
    {
        for i in first..end {
            self.apply(alloc, edited, i)?;
        }
        Ok(())
    }

    // The symbols with it, where it is about one behind the first.
    fn change<'d>(
        &self,
        alloc: Global,
        symbols: &EditedSymbols<'d>,
    ) -> Result<Option<EditedSymbols<'d>>, AllocError>
        requires { KeepsNames self.now }
        ensures { IfOk result (AreSymbolsChanged self.now symbols.now) }
    {
        let Some(first) = self.find_first(&symbols.lend()) else {
            return Ok(None);
        };
        let reach = self.reach(&symbols.lend(), first);
        let mut copy = copied(alloc, symbols, reach.count)?;
        self.apply_between(alloc, &mut copy, first, reach.end)?;
        Ok(Some(copy))
    }
}

// A copy of symbols of which so many are to be changed. Where they are more than a few, none moves what is told of those behind
// it.
fn copied<'d>(
    alloc: Global,
    symbols: &EditedSymbols<'d>,
    count: usize,
) -> Result<EditedSymbols<'d>, AllocError>
    ensures { IfOk result (λ copy. copy ≡ symbols.now) }
{
    if count > FEW {
        symbols.spread(alloc)
    } else {
        symbols.try_clone(alloc)
    }
}

/// Whether some pairs of an old and a new name have one for a symbol behind the first. Error: `AllocError`.
pub fn rename_any(
    alloc: Global,
    pairs: &[(Vec<u8>, Vec<u8>)],
    symbols: &SymbolsNow<'_>,
) -> Result<bool, AllocError>
    ensures { IfOk result (λ found. found ≡ list_any (has_new_name (pairs_model pairs.now))
        (names_behind_first (symbols_now symbols.now))) }
{
    if pairs.len() == 1 {
        let (old, new) = &pairs[0];
        return Ok(SymbolChange::One(old.as_slice(), new.as_slice()).is_about_any(symbols));
    }
    let names = map_of(alloc, pairs)?;
    Ok(SymbolChange::Name(&names).is_about_any(symbols))
}

/// Whether a symbol behind the first has a name. Takes no memory.
pub fn is_named(symbols: &SymbolsNow<'_>, name: &[u8]) -> bool
    ensures { result ≡ is_among (names_behind_first (symbols_now symbols.now)) name.now }
{
    SymbolChange::One(name, name).is_about_any(symbols)
}

/// The symbols with the names that some pairs have for theirs, where they have one; `None` where none has. Error: `AllocError`.
pub fn renamed<'d>(
    alloc: Global,
    pairs: &[(Vec<u8>, Vec<u8>)],
    symbols: &EditedSymbols<'d>,
) -> Result<Option<EditedSymbols<'d>>, AllocError>
    // the caller knows that no name has a NUL in it
    requires { list_any holds_nul
        (texts_of (RenameDynamicSymbols (pairs_model pairs.now))) ≡ false }
    ensures { IfOk result
        (AreSymbolsAfter (RenameDynamicSymbols (pairs_model pairs.now)) symbols.now) }
{
    if pairs.len() == 1 {
        let (old, new) = &pairs[0];
        return SymbolChange::One(old.as_slice(), new.as_slice()).change(alloc, symbols);
    }
    let names = map_of(alloc, pairs)?;
    SymbolChange::Name(&names).change(alloc, symbols)
}

/// The dynamic symbols after an edit that writes a name or a version, be it what stands there already; `None` after one
/// that doesn't. The cost is in proportion to the symbols and the edit's texts. Error: `AllocError`.
pub fn edit_symbols<'d>(
    alloc: Global,
    edit: &ElfEdit,
    symbols: &EditedSymbols<'d>,
) -> Result<Option<EditedSymbols<'d>>, AllocError>
    // the caller knows that no text of the edit has a NUL in it, a cause that comes before
    requires { list_any holds_nul (texts_of (edit_model edit.now)) ≡ false }
    ensures { IfOk result (AreSymbolsAfter (edit_model edit.now) symbols.now) }
{
    match edit {
        ElfEdit::RenameDynamicSymbols(pairs) => renamed(alloc, pairs.as_slice(), symbols),
        ElfEdit::ClearSymbolVersion(name) => {
            SymbolChange::Version(name.as_slice()).change(alloc, symbols)
        }
        _ => Ok(None),
    }
}
