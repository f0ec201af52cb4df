//! The GNU hash table.
ghost use Rattle.std.specs.Prelude.{◌≡◌, ◌<◌, ◌≤◌, ◌^◌, ◌%◌, ◌++◌, length, IfOk, MatchResult, OnOk};
ghost use Rattle.elf_format.specs.Hashes.{gnu_hash};
ghost use Rattle.elf_image_symbols.specs.Loan.{symbols_now};
ghost use Rattle.elf_tables.specs.Fields.{fields, words};
ghost use Rattle.elf_tables.specs.declared.fault.TableFault.TheVariants.{NumberTooLarge};
ghost use Rattle.elf_hashes.specs.Buckets.{heads, in_buckets};
ghost use Rattle.elf_hashes.specs.Found.{ArePlaces, found_hashes, hashed_names, in_order};
ghost use Rattle.elf_hashes.specs.Gnu.{IsGnuTable, ends as ends_in, first_hashed as first_with_hash, gnu_table as table_of, gnu_words, header_of, header_words, word_of as word_of_hash};

use crate::chains::make_chains;
use crate::filter::push_filter;
use crate::hashes::{Hashing, hashes};
use elf_format::form::Form;
use elf_image_symbols::SymbolsNow;
use elf_tables::{TableFault, push_words};
use std::alloc::{AllocError, Global};

/// The numbers that say how large a GNU hash table is, symbols apart (GNU hash section).
#[derive(Clone, Copy, Debug, PartialEq, Eq)]
pub struct GnuSizes {
    /// How many buckets.
    pub buckets: u32,
    /// How many words of the filter.
    pub filter_words: u32,
    /// How many bits the hash is shifted for the filter's second bit.
    pub filter_shift: u32,
}

// How many symbols stand before the first that has a hash.
fn first_hashed(hashes: &[Option<u32>]) -> usize
    ensures value { result ≡ first_with_hash hashes.now }
    ensures within { result ≤ length hashes.now }
{
    for (i, hash) in hashes.iter().enumerate() {
        if hash.is_some() {
            return i;
        }
    }
    hashes.len()
}

// Whether no symbol of a bucket stands next.
fn ends(buckets: u32, bucket: u32, behind: &[Option<u32>]) -> bool
    requires { 0 < buckets }
    ensures { result ≡ ends_in bucket (in_buckets buckets behind.now) }
{
    if behind.len() == 0 {
        return true;
    }
    match behind[0] {
        Some(hash) => hash % buckets != bucket,
        None => true,
    }
}

// The word of a symbol with a hash.
fn word_of(buckets: u32, hash: u32, behind: &[Option<u32>]) -> u32
    requires { 0 < buckets }
    ensures { result ≡ word_of_hash buckets hash behind.now }
{
    let even = hash - hash % 2;
    if ends(buckets, hash % buckets, behind) {
        even + 1
    } else {
        even
    }
}

// The words of all symbols that have a hash.
fn symbol_words(alloc: Global, buckets: u32, hashes: &[Option<u32>]) -> Result<Vec<u32>, AllocError>
    requires { 0 < buckets }
    ensures { IfOk result (λ made. made.items ≡ gnu_words buckets hashes.now) }
{
    let mut made = Vec::with_capacity(alloc, hashes.len())?;
    for i in 0..hashes.len() {
        match hashes[i] {
            Some(hash) => made.push(word_of(buckets, hash, &hashes[i + 1..]))?,
            None => {}
        }
    }
    Ok(made)
}

// Appends the header of a table.
fn push_header(
    bytes: &mut Vec<u8>,
    form: Form,
    sizes: GnuSizes,
    hashes: &[Option<u32>],
) -> Result<(), AllocError>
    requires { length hashes.now < 2 ^ 32 }
    ensures { OnOk result (bytes.new.items ≡ bytes.old.items
        ++ fields form.order (words (header_words (header_of sizes hashes.now)))) }
{
    let first = first_hashed(hashes) as u32;
    push_words(
        bytes,
        form.order,
        &[sizes.buckets, first, sizes.filter_words, sizes.filter_shift],
    )
}

// Appends the first symbol of each bucket.
fn push_heads(
    alloc: Global,
    bytes: &mut Vec<u8>,
    form: Form,
    buckets: u32,
    hashes: &[Option<u32>],
) -> Result<(), AllocError>
    requires some { 0 < buckets }
    requires fits { length hashes.now < 2 ^ 32 }
    ensures { OnOk result (bytes.new.items ≡ bytes.old.items
        ++ fields form.order (words (heads buckets (in_buckets buckets hashes.now)))) }
{
    let chained = make_chains(alloc, buckets, hashes)?;
    push_words(bytes, form.order, chained.firsts.as_slice())
}

// Appends the words of all symbols that have a hash.
fn push_symbol_words(
    alloc: Global,
    bytes: &mut Vec<u8>,
    form: Form,
    buckets: u32,
    hashes: &[Option<u32>],
) -> Result<(), AllocError>
    requires { 0 < buckets }
    ensures { OnOk result (bytes.new.items ≡ bytes.old.items
        ++ fields form.order (words (gnu_words buckets hashes.now))) }
{
    let made = symbol_words(alloc, buckets, hashes)?;
    push_words(bytes, form.order, made.as_slice())
}

// The table of symbols with these hashes.
fn gnu_table(
    alloc: Global,
    hashes: &[Option<u32>],
    sizes: GnuSizes,
    form: Form,
) -> Result<Vec<u8>, AllocError>
    requires buckets { 0 < sizes.buckets }
    requires filter_words { 0 < sizes.filter_words }
    requires filter_shift { sizes.filter_shift < 32 }
    requires fits { length hashes.now < 2 ^ 32 }
    ensures { IfOk result (λ table. table.items ≡ table_of form sizes hashes.now) }
{
    let mut table = Vec::new(alloc);
    push_header(&mut table, form, sizes, hashes)?;
    push_filter(alloc, &mut table, form, sizes, hashes)?;
    push_heads(alloc, &mut table, form, sizes.buckets, hashes)?;
    push_symbol_words(alloc, &mut table, form, sizes.buckets, hashes)?;
    Ok(table)
}

/// The GNU hash table of symbols in an order (GNU hash section). It has those that are defined and not local, but for the
/// first, by their hashes as `gnu_hashes` tells them. Look-ups find them where the order is that of `order_for_gnu_hash`.
/// `NumberTooLarge` where there are more symbols than 32 bits can count.
pub fn build_gnu_hash(
    alloc: Global,
    symbols: SymbolsNow<'_>,
    order: &[usize],
    found: &[Option<u32>],
    sizes: GnuSizes,
    form: Form,
) -> Result<Vec<u8>, TableFault>
    requires buckets { 0 < sizes.buckets }
    requires filter_words { 0 < sizes.filter_words }
    requires filter_shift { sizes.filter_shift < 32 }
    requires places { ArePlaces (symbols_now symbols) order.now }
    requires found { found.now ≡ found_hashes gnu_hash (symbols_now symbols) }
    ensures { MatchResult result
        (λ table. (IsGnuTable form sizes
        (hashed_names (in_order (symbols_now symbols.entry) order.now)) table.items)
        × (length order.now < 2 ^ 32))
        (λ fault. fault ≡ NumberTooLarge → 2 ^ 32 ≤ length order.now) }
{
    if order.len() > u32::MAX as usize {
        return Err(TableFault::NumberTooLarge);
    }
    let hashes = hashes(alloc, Hashing::Gnu, symbols, found, order)?;
    let table = gnu_table(alloc, hashes.as_slice(), sizes, form)?;
    Ok(table)
}
