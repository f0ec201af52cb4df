//! Single relocations.
ghost use Rattle.std.specs.Prelude.{◌≡◌, ◌+◌, ◌*◌, ◌/◌, ◌%◌, ◌^◌, ◌<◌, ◌≤◌, ◌++◌, length, nat_lt, IsTrue, OnOk};
ghost use Rattle.patch_bytes.specs.Number.{bytes_of, with_number, word_size as size_of_word};
ghost use Rattle.elf_write_spec.specs.Renumbered.{is_symbol_below, new_symbol as new_symbol_by, symbol_limit as limit_of_symbols};
ghost use Rattle.elf_write_spec.specs.Steps.{info_in, new_info as new_info_by, symbol_in, type_count};

use elf_format::form::Form;
use elf_format::numbers::read_field;
use elf_tables::{Field, push_fields};
use patch_bytes::Wide;
use std::alloc::AllocError;

// How many bytes a word of the class takes.
fn word_size(form: Form) -> usize
    ensures { result ≡ size_of_word form.wide }
{
    match form.wide {
        Wide::W32 => 4,
        Wide::W64 => 8,
    }
}

// The number that names a relocation's symbol and type.
fn read_info(form: Form, entry: &[u8]) -> u64
    ensures { result ≡ info_in form entry.now }
{
    read_field(form, entry, (4, 4), (8, 8))
}

// The symbol that such a number names.
fn symbol_of(form: Form, info: u64) -> u64
    ensures { result ≡ info / type_count form }
{
    match form.wide {
        Wide::W32 => info / 0x100,
        Wide::W64 => info / 0x1_0000_0000,
    }
}

// The new number of a symbol.
fn new_symbol(numbers: &[u32], symbol: u64) -> u32
    requires { IsTrue (is_symbol_below (length numbers.now) symbol) }
    ensures { result ≡ new_symbol_by numbers.now symbol }
{
    if symbol == 0 {
        return 0;
    }
    numbers[symbol as usize]
}

// How many symbols the field of a relocation can name.
fn symbol_limit(form: Form) -> u64
    ensures { result ≡ limit_of_symbols form }
{
    match form.wide {
        Wide::W32 => 0x100_0000,
        Wide::W64 => 0x1_0000_0000,
    }
}

// Whether the new number of a relocation's symbol fits its field.
pub(crate) fn does_symbol_fit(form: Form, entry: &[u8], numbers: &[u32]) -> bool
    requires { IsTrue (is_symbol_below (length numbers.now) (symbol_in form entry.now)) }
    ensures { result
        ≡ nat_lt (new_symbol_by numbers.now (symbol_in form entry.now)) (limit_of_symbols form) }
{
    let symbol = symbol_of(form, read_info(form, entry));
    u64::from(new_symbol(numbers, symbol)) < symbol_limit(form)
}

// The number that names another symbol and the same type.
fn with_symbol(form: Form, info: u64, symbol: u32) -> u64
    requires { symbol < limit_of_symbols form }
    ensures value { result ≡ symbol * type_count form + info % type_count form }
    ensures below { result < 256 ^ size_of_word form.wide }
{
    match form.wide {
        Wide::W32 => u64::from(symbol) * 0x100 + info % 0x100,
        Wide::W64 => u64::from(symbol) * 0x1_0000_0000 + info % 0x1_0000_0000,
    }
}

// Appends a word of the class.
fn push_word(bytes: &mut Vec<u8>, form: Form, number: u64) -> Result<(), AllocError>
    requires { number < 256 ^ size_of_word form.wide }
    ensures { OnOk result (bytes.new.items
        ≡ bytes.old.items ++ bytes_of form.order (size_of_word form.wide) number) }
{
    let word = match form.wide {
        Wide::W32 => Field::Word(number as u32),
        Wide::W64 => Field::Long(number),
    };
    push_fields(bytes, form.order, &[word])
}

// Appends a relocation that names its symbol by another number.
pub(crate) fn push_renumbered(
    bytes: &mut Vec<u8>,
    form: Form,
    entry: &[u8],
    numbers: &[u32],
) -> Result<(), AllocError>
    requires long { 2 * size_of_word form.wide ≤ length entry.now }
    requires named { IsTrue (is_symbol_below (length numbers.now) (symbol_in form entry.now)) }
    requires fits { new_symbol_by numbers.now (symbol_in form entry.now) < limit_of_symbols form }
    ensures { let word = size_of_word form.wide in OnOk result (bytes.new.items
        ≡ bytes.old.items
        ++ with_number form.order word word (new_info_by form numbers.now entry.now) entry.now) }
{
    let word = word_size(form);
    let info = read_info(form, entry);
    let symbol = new_symbol(numbers, symbol_of(form, info));
    bytes.extend_from_slice(&entry[..word])?;
    push_word(bytes, form, with_symbol(form, info, symbol))?;
    bytes.extend_from_slice(&entry[2 * word..])
}
