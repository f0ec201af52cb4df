//! The records of symbols (gABI, Symbol Table).
ghost use Rattle.std.specs.Prelude.{◌≡◌, ◌<◌, ◌==◌, IsTrue, Some, length, option_map};
ghost use Rattle.std.specs.List.{slice_get};
ghost use Rattle.elf_format.specs.Records.{symbols_in};
ghost use Rattle.elf_tables.specs.Fields.{do_fields_fit};
ghost use Rattle.elf_tables.specs.Spelled.{symbol_fields};
ghost use Rattle.elf_write_symbols.specs.Ready.{IsEditedReady};
ghost use Rattle.elf_write_symbols.specs.Renumbering.{IsRenumbering};
ghost use Rattle.elf_write_symbol_tables.specs.SymbolSteps.{record_with};

use elf_format::numbers::{part, read_symbol_numbers};
use elf_format::records::SymbolNumbers;
use elf_image::Builder;
use elf_write_symbols::{Renumbering, new_symbol_section};

// The record that was read at a number.
#[inline(always)]
pub(crate) fn record_read(image: &Builder<'_>, content: &[u8], number: usize) -> SymbolNumbers
    requires { number < length (symbols_in image.now.form content.now) }
    ensures record { slice_get (symbols_in image.now.form content.now) number ≡ Some result }
    ensures fits { IsTrue (do_fields_fit (symbol_fields image.now.form result)) }
{
    let form = image.form();
    let size = form.symbol_size();
    read_symbol_numbers(form, part(content, number * size, size))
}

// The record that was read at a number, with the place of the symbol's name and the number that its section gets (gABI, Symbol
// Table, st_shndx). No edit changes the rest.
#[inline(always)]
pub(crate) fn record_at(
    read: &Builder<'_>,
    image: &Builder<'_>,
    renumbering: &Renumbering,
    content: &[u8],
    number: usize,
    place: u32,
) -> SymbolNumbers
    requires ready { IsEditedReady read.now image.now }
    requires renumbering { IsRenumbering read.now image.now renumbering.now }
    requires within { number < length (symbols_in image.now.form content.now) }
    ensures record { option_map (record_with image.now place)
        (slice_get (symbols_in image.now.form content.now) number) ≡ Some result }
    ensures fits { IsTrue (do_fields_fit (symbol_fields image.now.form result)) }
{
    let mut numbers = record_read(image, content, number);
    numbers.st_name = place;
    numbers.st_shndx = new_symbol_section(read, image, &renumbering.sections, numbers.st_shndx);
    numbers
}

// The record that was read at a number, with the place of the symbol's name as it was at read and
// the number that its section gets.
#[inline(always)]
pub(crate) fn record_staying(
    read: &Builder<'_>,
    image: &Builder<'_>,
    renumbering: &Renumbering,
    content: &[u8],
    number: usize,
) -> SymbolNumbers
    requires ready { IsEditedReady read.now image.now }
    requires renumbering { IsRenumbering read.now image.now renumbering.now }
    requires within { number < length (symbols_in image.now.form content.now) }
    ensures record { option_map (λ n. record_with image.now n.st_name n)
        (slice_get (symbols_in image.now.form content.now) number) ≡ Some result }
    ensures fits { IsTrue (do_fields_fit (symbol_fields image.now.form result)) }
{
    let place = record_read(image, content, number).st_name;
    record_at(read, image, renumbering, content, number, place)
}

// Whether all sections are there that were read.
pub(crate) fn are_sections_there(read: &Builder<'_>, image: &Builder<'_>) -> bool
    ensures { result ≡ (length image.now.sections == length read.now.sections) }
{
    image.sections().len() == read.sections().len()
}
