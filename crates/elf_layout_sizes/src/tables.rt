//! The sizes of hash tables that are made anew.
ghost use Rattle.std.specs.Prelude.{◌≡◌, ◌<◌, ◌≤◌, ◌*◌, ◌^◌, ◌+◌, Some, count_by, drop, length, option_map, slice_get, unwrap_or, SomeIff};
ghost use Rattle.patch_bytes.specs.Memory.{memory_of};
ghost use Rattle.patch_bytes.specs.Number.{word_size};
ghost use Rattle.elf_format.specs.Hashes.{gnu_header, word_of_table};
ghost use Rattle.elf_image_symbols.specs.Loan.{symbols_now};
ghost use Rattle.elf_layout_plan.specs.Sizes.{gabi_table_size, is_found as is_found_symbol};
ghost use Rattle.elf_layout_sizes.specs.Inner.{gnu_size_with as size_of_gnu};

use crate::versions::grown;
use elf_format::numbers::word_at;
use elf_layout_plan::{Form, SymbolsNow};
use patch_bytes::Wide;

// The number of buckets that a gABI hash table had, 0 where it isn't there (gABI, Hash Table).
fn gabi_buckets(form: Form, content: &[u8]) -> u32
    ensures { result ≡ unwrap_or (word_of_table form (memory_of content.now) 0) 0 }
{
    if content.len() < 4 {
        return 0;
    }
    word_at(form, content, 0)
}

// The size of a gABI hash table with as many buckets as it had (gABI, Hash Table). `None` where it is past 64 bits.
pub(crate) fn gabi_size(form: Form, content: &[u8], symbols: usize) -> Option<u64>
    ensures { let size = gabi_table_size form content.now symbols in
        SomeIff result (size < 2 ^ 64) size }
{
    let buckets = gabi_buckets(form, content);
    grown(8 + 4 * buckets as u64, 0, 4, symbols)
}

// How many bytes a word of the filter has (GNU hash section).
fn word_bytes(wide: Wide) -> u64
    ensures value { result ≡ word_size wide }
    ensures small { result ≤ 8 }
{
    match wide {
        Wide::W32 => 4,
        Wide::W64 => 8,
    }
}

// The size of a GNU hash table without a word for any symbol, its filter and its buckets as it had them (GNU hash
// section); `None` where its four numbers aren't there.
fn gnu_front(form: Form, content: &[u8]) -> Option<u64>
    ensures { result ≡ option_map (λ h. 16 + h.filter_words * word_size form.wide + 4 * h.buckets)
        (gnu_header form (memory_of content.now)) }
{
    if content.len() < 16 {
        return None;
    }
    let buckets = word_at(form, content, 0);
    let filter_words = word_at(form, content, 8);
    Some(16 + filter_words as u64 * word_bytes(form.wide) + 4 * buckets as u64)
}

// Whether a look-up may find the symbol at a position: it is defined, and not local (gABI, Symbol Table, `st_shndx` and
// `st_info`). Its name isn't looked at.
#[inline(always)]
fn is_found(symbols: SymbolsNow<'_>, i: usize) -> bool
    requires { i < length (symbols_now symbols) }
    ensures { option_map is_found_symbol (slice_get (symbols_now symbols.entry) i) ≡ Some result }
{
    let numbers = symbols.numbers(i, 0);
    numbers.st_shndx != 0 && numbers.st_info / 16 != 0
}

// How many symbols a look-up may find, without the first, which is never one.
fn count_found(symbols: SymbolsNow<'_>) -> usize
    ensures { result ≡ count_by is_found_symbol (drop 1 (symbols_now symbols.entry)) }
{
    let mut count = 0;
    for i in 1..symbols.len() {
        if is_found(symbols, i) {
            count += 1;
        }
    }
    count
}

// The size of a GNU hash table of these symbols; as it was where its four numbers aren't there. `None` where it is past
// 64 bits.
pub(crate) fn gnu_size(form: Form, content: &[u8], old: u64, symbols: SymbolsNow<'_>) -> Option<u64>
    ensures { let size = size_of_gnu form content.now old (symbols_now symbols.entry) in
        SomeIff result (size < 2 ^ 64) size }
{
    match gnu_front(form, content) {
        Some(front) => grown(front, 0, 4, count_found(symbols)),
        None => Some(old),
    }
}
