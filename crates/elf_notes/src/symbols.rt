//! Names that are looked for among dynamic symbols.
ghost use Rattle.std.specs.Prelude.{◌≡◌, ◌&&◌, not, IfOk, List, ℕ, filter, map};
ghost use Rattle.std.specs.HashSet.{keys};
ghost use Rattle.elf_edits.specs.Changes.{has_name};
ghost use Rattle.elf_edits.specs.Symbols.{names_behind_first};
ghost use Rattle.elf_edits.specs.Texts.{is_among as among};
ghost use Rattle.elf_image_symbols.specs.Loan.{symbols_now};

use crate::sets::{names_in, set_of, take_out};
use elf_edits::symbols::is_named;
use elf_image::SymbolsNow;
use std::alloc::{AllocError, Global};
use std::collections::HashSet;

/// The names of some that no symbol behind the first has, and that aren't among others. The cost is in proportion to all
/// of them; a name alone is compared with those of the symbols, before all are looked up.
pub(crate) fn unmatched_symbols_of<'e>(
    alloc: Global,
    asked: &[&'e [u8]],
    put: &[&[u8]],
    symbols: SymbolsNow<'_>,
) -> Result<Vec<&'e [u8]>, AllocError>
    ensures { IfOk result (λ names. map (λ n. n.now) names.items ≡ filter
        (λ name. not (among (names_behind_first (symbols_now symbols.entry)) name)
        && not (among (map (λ n. n.now) put.now) name)) (map (λ n. n.now) asked.now)) }
{
    if asked.is_empty() {
        return Ok(Vec::new(alloc));
    }
    if asked.len() == 1 && is_named(&symbols, asked[0]) {
        return Ok(Vec::new(alloc));
    }
    let mut missing = set_of(alloc, asked)?;
    leave_out_symbols(&mut missing, &symbols);
    take_out(&mut missing, put);
    names_in(alloc, asked, &missing)
}

/// Takes the names of the symbols behind the first out of a set, as long as there are any.
fn leave_out_symbols(set: &mut HashSet<&[u8]>, symbols: &SymbolsNow<'_>)
    ensures { (name : List ℕ) → has_name (keys set.new) name ≡ (has_name (keys set.old) name
        && not (among (names_behind_first (symbols_now symbols.now)) name)) }
{
    for i in 1..symbols.len() {
        if set.is_empty() {
            return;
        }
        set.remove(symbols.name(i));
    }
}
