//! Where the names of symbols stand in a string table that is told anew.
ghost use Rattle.std.specs.Prelude.{◌≡◌, ◌<◌, Some, length, option_map};
ghost use Rattle.std.specs.List.{slice_get};
ghost use Rattle.elf_image_symbols.specs.Loan.{symbols_now};
ghost use Rattle.elf_write_symbol_tables.specs.NamePlaces.{TellsNames, begins_empty as begins_empty_text, place_in, place_of_named};

use elf_image_symbols::SymbolsNow;
use elf_tables::Finished;

// Whether the empty text stands at 0 of a table.
pub(crate) fn begins_empty(table: &Finished<'_>) -> bool
    ensures { result ≡ begins_empty_text table.now }
{
    match table.bytes().first() {
        Some(byte) => *byte == 0,
        None => false,
    }
}

// Where the name of the symbol at a position stands, if a string table has it at a place: no name stands at 0 of a table that
// begins with a NUL.
#[inline(always)]
pub(crate) fn name_place(symbols: SymbolsNow<'_>, i: usize, place: u32, begins: bool) -> u32
    requires { i < length (symbols_now symbols) }
    ensures { option_map (λ y. place_of_named begins y place)
        (slice_get (symbols_now symbols.entry) i)
        ≡ Some result }
{
    if begins && !symbols.has_name(i) {
        0
    } else {
        place
    }
}

// Where a string table that has the name of the symbol at a position tells it.
pub(crate) fn told_place(
    symbols: SymbolsNow<'_>,
    table: &Finished<'_>,
    i: usize,
    begins: bool,
) -> u32
    requires within { i < length (symbols_now symbols) }
    requires named { TellsNames table.now (symbols_now symbols) }
    requires begins { begins ≡ begins_empty_text table.now }
    ensures { option_map (λ y. place_in table.now y) (slice_get (symbols_now symbols.entry) i)
        ≡ Some result }
{
    let place = table.offset_of(symbols.name(i)).unwrap();
    name_place(symbols, i, place, begins)
}
