//! The gABI's hash table.
ghost use Rattle.std.specs.Prelude.{◌≡◌, ◌<◌, ◌≤◌, ◌^◌, length, IfOk, MatchResult};
ghost use Rattle.elf_format.specs.Hashes.{gabi_hash};
ghost use Rattle.elf_image_symbols.specs.Loan.{symbols_now};
ghost use Rattle.elf_tables.specs.Fields.{fields, words};
ghost use Rattle.elf_tables.specs.declared.fault.TableFault.TheVariants.{NumberTooLarge};
ghost use Rattle.elf_hashes.specs.Found.{ArePlaces, hashed_names, in_order};
ghost use Rattle.elf_hashes.specs.Gabi.{IsGabiTable, gabi_words};

use crate::chains::make_chains;
use crate::hashes::{Hashing, found_hashes, hashes};
use elf_format::form::Form;
use elf_image_symbols::SymbolsNow;
use elf_tables::{TableFault, push_words};
use std::alloc::{AllocError, Global};

// The table of symbols with these hashes.
fn gabi_table(
    alloc: Global,
    hashes: &[Option<u32>],
    buckets: u32,
    form: Form,
) -> Result<Vec<u8>, AllocError>
    requires some { 0 < buckets }
    requires fits { length hashes.now < 2 ^ 32 }
    ensures { IfOk result (λ table. table.items
        ≡ fields form.order (words (gabi_words buckets hashes.now))) }
{
    let chained = make_chains(alloc, buckets, hashes)?;
    let mut table = Vec::new(alloc);
    push_words(&mut table, form.order, &[buckets, hashes.len() as u32])?;
    push_words(&mut table, form.order, chained.firsts.as_slice())?;
    push_words(&mut table, form.order, chained.nexts.as_slice())?;
    Ok(table)
}

/// The gABI's hash table of symbols in an order, with so many buckets (gABI, Hash Table). It has those that are defined and
/// not local, but for the first. `NumberTooLarge` where there are more symbols than 32 bits can count.
pub fn build_hash(
    alloc: Global,
    symbols: SymbolsNow<'_>,
    order: &[usize],
    buckets: u32,
    form: Form,
) -> Result<Vec<u8>, TableFault>
    requires some { 0 < buckets }
    requires places { ArePlaces (symbols_now symbols) order.now }
    ensures { MatchResult result
        (λ table. (IsGabiTable form buckets
        (hashed_names (in_order (symbols_now symbols.entry) order.now)) table.items)
        × (length order.now < 2 ^ 32))
        (λ fault. fault ≡ NumberTooLarge → 2 ^ 32 ≤ length order.now) }
{
    if order.len() > u32::MAX as usize {
        return Err(TableFault::NumberTooLarge);
    }
    let found = found_hashes(alloc, Hashing::Gabi, symbols)?;
    let hashes = hashes(alloc, Hashing::Gabi, symbols, &found, order)?;
    let table = gabi_table(alloc, hashes.as_slice(), buckets, form)?;
    Ok(table)
}
