//! The hashes of symbols that look-ups find.
ghost use Rattle.std.specs.Prelude.{◌≡◌, ◌<◌, ◌++◌, ◌∷◌, All, None as none, Some, drop, length, option_map, slice_get, IfOk, OnOk};
ghost use Rattle.std.specs.List.{filter_map};
ghost use Rattle.elf_format.specs.Hashes.{gnu_hash as gnu_hash_of};
ghost use Rattle.elf_image_symbols.specs.FrontText.{front_text};
ghost use Rattle.elf_image_symbols.specs.Loan.{symbols_now};
ghost use Rattle.elf_hashes.specs.Buckets.{hashes_of};
ghost use Rattle.elf_hashes.specs.Found.{ArePlaces, found_hashes as hashes_found, found_name, hashed_names, in_order, is_found as is_symbol_found};
ghost use Rattle.elf_hashes.specs.Steps.{hash_by};

use elf_image_symbols::SymbolsNow;
use elf_tables::{gnu_hash_of_front, sysv_hash_of_front};
use std::alloc::{AllocError, Global};

// The hash that a table goes by.
#[derive(Clone, Copy)]
pub enum Hashing {
    // The hash of the gABI.
    Gabi,
    // The hash of GNU.
    Gnu,
}

// The hash of the name that bytes begin with.
fn hash_of(hashing: Hashing, bytes: &[u8]) -> u32
    ensures { result ≡ hash_by hashing (front_text bytes.now) }
{
    match hashing {
        Hashing::Gabi => sysv_hash_of_front(bytes),
        Hashing::Gnu => gnu_hash_of_front(bytes),
    }
}

// Whether a look-up may find the symbol at a position: it is defined, and not local. Its name isn't looked at.
#[inline(always)]
fn is_found(symbols: SymbolsNow<'_>, i: usize) -> bool
    requires { i < length (symbols_now symbols) }
    ensures { option_map is_symbol_found (slice_get (symbols_now symbols.entry) i) ≡ Some result }
{
    let numbers = symbols.numbers(i, 0);
    numbers.st_shndx != 0 && numbers.st_info / 16 != 0
}

// The hash by which a look-up finds the symbol at a position. No other name is looked at.
#[inline(always)]
fn found_hash(hashing: Hashing, symbols: SymbolsNow<'_>, i: usize) -> Option<u32>
    requires { i < length (symbols_now symbols) }
    ensures { option_map (λ y. option_map (hash_by hashing) (found_name y))
        (slice_get (symbols_now symbols.entry) i) ≡ Some result }
{
    if is_found(symbols, i) {
        Some(hash_of(hashing, symbols.name_front(i)))
    } else {
        None
    }
}

// The hash of each symbol that a look-up may find, as the symbols stand: so their names are read one behind the other.
pub(crate) fn found_hashes(
    alloc: Global,
    hashing: Hashing,
    symbols: SymbolsNow<'_>,
) -> Result<Vec<Option<u32>>, AllocError>
    ensures { IfOk result (λ hashes. hashes.items
        ≡ hashes_found (hash_by hashing) (symbols_now symbols.entry)) }
{
    let mut hashes = Vec::with_capacity(alloc, symbols.len())?;
    for i in 0..symbols.len() {
        hashes.push(found_hash(hashing, symbols, i))?;
    }
    Ok(hashes)
}

/// The GNU hash of each symbol that a look-up may find, as the symbols stand (GNU hash section). The order by buckets and
/// the table are made of them. Error: `AllocError`.
pub fn gnu_hashes(alloc: Global, symbols: SymbolsNow<'_>) -> Result<Vec<Option<u32>>, AllocError>
    ensures { IfOk result (λ hashes. hashes.items
        ≡ hashes_found gnu_hash_of (symbols_now symbols.entry)) }
{
    found_hashes(alloc, Hashing::Gnu, symbols)
}

// Appends the hashes at these positions.
fn push_hashes(
    hashes: &mut Vec<Option<u32>>,
    found: &[Option<u32>],
    order: &[usize],
) -> Result<(), AllocError>
    requires { All (λ i. i < length found.now) order.now }
    ensures { OnOk result (hashes.new.items
        ≡ hashes.old.items ++ filter_map (λ i. slice_get found.now i) order.now) }
{
    for i in order {
        hashes.push(found[*i])?;
    }
    Ok(())
}

// The hash of each symbol that a look-up finds, the symbols being in an order: of the hashes of those that it may find.
pub(crate) fn hashes(
    alloc: Global,
    hashing: Hashing,
    symbols: SymbolsNow<'_>,
    found: &[Option<u32>],
    order: &[usize],
) -> Result<Vec<Option<u32>>, AllocError>
    requires places { ArePlaces (symbols_now symbols) order.now }
    requires found { found.now ≡ hashes_found (hash_by hashing) (symbols_now symbols) }
    ensures { IfOk result (λ hashes. hashes.items
        ≡ hashes_of (hash_by hashing)
        (hashed_names (in_order (symbols_now symbols.entry) order.now))) }
{
    if order.len() == 0 {
        return Ok(Vec::new(alloc));
    }
    let mut hashes = Vec::with_capacity(alloc, order.len())?;
    hashes.push(None)?;
    push_hashes(&mut hashes, found, &order[1..])?;
    Ok(hashes)
}

// The hash of each symbol that a look-up finds, the symbols being as they stand, of which there is one at least: of the
// hashes of those that it may find.
pub(crate) fn own_hashes(
    alloc: Global,
    found: &[Option<u32>],
) -> Result<Vec<Option<u32>>, AllocError>
    requires { 0 < length found.now }
    ensures { IfOk result (λ own. own.items ≡ none ∷ drop 1 found.now) }
{
    let mut own = Vec::with_capacity(alloc, found.len())?;
    own.push(None)?;
    own.extend_from_slice(&found[1..])?;
    Ok(own)
}
