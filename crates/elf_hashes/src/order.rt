//! The order that a GNU hash table asks for.
ghost use Rattle.std.specs.Prelude.{◌≡◌, ◌<◌, ◌≤◌, ◌^◌, ◌++◌, ◌∷◌, All, Some, drop, length, option_map, slice_get, IfOk, MatchResult, OnOk};
ghost use Rattle.std.specs.List.{flat_map};
ghost use Rattle.elf_image_symbols.specs.Loan.{symbols_now};
ghost use Rattle.elf_tables.specs.declared.fault.TableFault.TheVariants.{NumberTooLarge};
ghost use Rattle.elf_format.specs.Hashes.{gnu_hash};
ghost use Rattle.elf_hashes.specs.Found.{found_hashes, is_local as is_symbol_local, is_sought as is_symbol_sought};
ghost use Rattle.elf_hashes.specs.Order.{places_by_bucket, places_where};
ghost use Rattle.elf_hashes.specs.Steps.{walk};

use crate::chains::{Chained, make_chains};
use crate::hashes::own_hashes;
use elf_image_symbols::SymbolsNow;
use elf_tables::TableFault;
use std::alloc::{AllocError, Global};

// Whether other files don't see the symbol at a position. Its name isn't looked at.
#[inline(always)]
fn is_local(symbols: SymbolsNow<'_>, i: usize) -> bool
    requires { i < length (symbols_now symbols) }
    ensures { option_map is_symbol_local (slice_get (symbols_now symbols.entry) i) ≡ Some result }
{
    symbols.numbers(i, 0).st_info / 16 == 0
}

// Whether the symbol at a position is defined elsewhere. Its name isn't looked at.
#[inline(always)]
fn is_sought(symbols: SymbolsNow<'_>, i: usize) -> bool
    requires { i < length (symbols_now symbols) }
    ensures { option_map is_symbol_sought (slice_get (symbols_now symbols.entry) i) ≡ Some result }
{
    let numbers = symbols.numbers(i, 0);
    numbers.st_info / 16 != 0 && numbers.st_shndx == 0
}

// Appends where the local symbols stand, the first one apart.
fn push_locals(order: &mut Vec<usize>, symbols: SymbolsNow<'_>) -> Result<(), AllocError>
    ensures { OnOk result (order.new.items
        ≡ order.old.items ++ places_where is_symbol_local 1 (drop 1 (symbols_now symbols.entry))) }
{
    for i in 1..symbols.len() {
        if is_local(symbols, i) {
            order.push(i)?;
        }
    }
    Ok(())
}

// Appends where the symbols stand that are defined elsewhere, the first one apart.
fn push_sought(order: &mut Vec<usize>, symbols: SymbolsNow<'_>) -> Result<(), AllocError>
    ensures { OnOk result (order.new.items
        ≡ order.old.items ++ places_where is_symbol_sought 1 (drop 1 (symbols_now symbols.entry))) }
{
    for i in 1..symbols.len() {
        if is_sought(symbols, i) {
            order.push(i)?;
        }
    }
    Ok(())
}

// Appends the symbols of a chain.
fn push_chain(order: &mut Vec<usize>, first: u32, nexts: &[u32]) -> Result<(), AllocError>
    requires first { first < length nexts.now }
    requires nexts { All (λ next. next < length nexts.now) nexts.now }
    ensures { OnOk result (order.new.items
        ≡ order.old.items ++ walk nexts.now (length nexts.now) first) }
{
    let mut symbol = first as usize;
    for _ in 0..nexts.len() {
        if symbol == 0 {
            break;
        }
        order.push(symbol)?;
        symbol = nexts[symbol] as usize;
    }
    Ok(())
}

// Appends the symbols of all chains.
fn push_chains(order: &mut Vec<usize>, chained: &Chained) -> Result<(), AllocError>
    requires firsts { All (λ first. first < length chained.now.nexts.items)
        chained.now.firsts.items }
    requires nexts { All (λ next. next < length chained.now.nexts.items) chained.now.nexts.items }
    ensures { OnOk result (order.new.items ≡ order.old.items
        ++ flat_map (walk chained.now.nexts.items (length chained.now.nexts.items))
        chained.now.firsts.items) }
{
    for first in chained.firsts.as_slice() {
        push_chain(order, *first, chained.nexts.as_slice())?;
    }
    Ok(())
}

// Where symbols stand in that order, of which there is one at least.
fn places(
    alloc: Global,
    symbols: SymbolsNow<'_>,
    chained: &Chained,
) -> Result<Vec<usize>, AllocError>
    requires firsts { All (λ first. first < length chained.now.nexts.items)
        chained.now.firsts.items }
    requires nexts { All (λ next. next < length chained.now.nexts.items) chained.now.nexts.items }
    ensures { IfOk result (λ order. order.items
        ≡ 0 ∷ (places_where is_symbol_local 1 (drop 1 (symbols_now symbols.entry))
        ++ places_where is_symbol_sought 1 (drop 1 (symbols_now symbols.entry))
        ++ flat_map (walk chained.now.nexts.items (length chained.now.nexts.items))
        chained.now.firsts.items)) }
{
    let mut order = Vec::with_capacity(alloc, symbols.len())?;
    order.push(0)?;
    push_locals(&mut order, symbols)?;
    push_sought(&mut order, symbols)?;
    push_chains(&mut order, chained)?;
    Ok(order)
}

/// The positions of dynamic symbols in the order that a GNU hash table with so many buckets asks for (GNU hash section): the
/// first stays first; then those that are local, those that are defined elsewhere, and bucket by bucket those that are
/// found, each group as it stands, by their hashes as `gnu_hashes` tells them. `NumberTooLarge` where there are more
/// symbols than 32 bits can count.
pub fn order_for_gnu_hash(
    alloc: Global,
    symbols: SymbolsNow<'_>,
    found: &[Option<u32>],
    buckets: u32,
) -> Result<Vec<usize>, TableFault>
    requires some { 0 < buckets }
    requires found { found.now ≡ found_hashes gnu_hash (symbols_now symbols) }
    ensures { MatchResult result
        (λ order. (order.items ≡ places_by_bucket buckets (symbols_now symbols.entry))
        × (length (symbols_now symbols.entry) < 2 ^ 32))
        (λ fault. fault ≡ NumberTooLarge → 2 ^ 32 ≤ length (symbols_now symbols.entry)) }
{
    if symbols.len() > u32::MAX as usize {
        return Err(TableFault::NumberTooLarge);
    }
    if symbols.len() == 0 {
        return Ok(Vec::new(alloc));
    }
    let hashes = own_hashes(alloc, found)?;
    let chained = make_chains(alloc, buckets, hashes.as_slice())?;
    let order = places(alloc, symbols, &chained)?;
    Ok(order)
}
