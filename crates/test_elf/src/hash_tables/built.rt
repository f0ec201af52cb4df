//! Symbols, and tables of them.
ghost use Rattle.std.specs.Prelude.{◌↔◌, All, is_some, IsTrue};
ghost use Rattle.elf_image_symbols.specs.Loan.{symbols_now};
ghost use Rattle.elf_hashes.specs.Found.{ArePlaces};

use elf_format::form::Form;
use elf_format::{ByteOrder2, Wide};
use elf_hashes::{
    GnuSizes, TableFault, build_gnu_hash, build_hash, build_versym, gnu_hashes, order_for_gnu_hash,
};
use elf_image_symbols::{EditedSymbols, Symbols, SymbolsNow};
use std::alloc::Global;

pub(crate) const LITTLE_64: Form = Form {
    wide: Wide::W64,
    order: ByteOrder2::Little,
};

pub(crate) const BIG_32: Form = Form {
    wide: Wide::W32,
    order: ByteOrder2::Big,
};

// The symbols of a table, with the texts of their names, and their versions.
#[derive(Clone, Copy)]
pub(crate) struct Source<'d> {
    pub(crate) form: Form,
    pub(crate) texts: &'d [u8],
    pub(crate) records: &'d [u8],
    pub(crate) versions: Option<&'d [u8]>,
}

// The symbols, none of them edited. There are none where a name is not there.
fn edited<'d>(alloc: Global, source: &Source<'d>) -> Result<EditedSymbols<'d>, TableFault> {
    match Symbols::read(source.form, source.texts, source.records, source.versions) {
        Some(symbols) => Ok(EditedSymbols::new(alloc, symbols.same())?),
        None => Err(TableFault::NumberTooLarge),
    }
}

// The order that a GNU table of so many buckets asks for. There is none without buckets.
pub(crate) fn gnu_order(
    alloc: Global,
    source: &Source<'_>,
    buckets: u32,
) -> Result<Vec<usize>, TableFault> {
    if buckets == 0 {
        return Err(TableFault::NumberTooLarge);
    }
    let edited = edited(alloc, source)?;
    let symbols = edited.lend();
    let hashes = gnu_hashes(alloc, symbols)?;
    order_for_gnu_hash(alloc, symbols, &hashes, buckets)
}

// A kind of table, of the gABI or GNU, or the versions.
#[derive(Clone, Copy)]
pub(crate) enum Kind {
    Gabi(u32),
    Gnu(GnuSizes),
    Versions,
}

// Whether each position is that of a symbol.
fn are_places(symbols: SymbolsNow<'_>, order: &[usize]) -> bool
    ensures { IsTrue result ↔ ArePlaces (symbols_now symbols.entry) order.now }
{
    let count = symbols.len();
    order.iter().all(|i| *i < count)
}

// Whether each symbol has a version.
fn have_versions(symbols: SymbolsNow<'_>) -> bool
    ensures { IsTrue result → All (λ y. IsTrue (is_some y.version)) (symbols_now symbols.entry) }
{
    for i in 0..symbols.len() {
        let symbol = symbols.get(i);
        if symbol.version.is_none() {
            return false;
        }
    }
    true
}

// The GNU table of symbols in an order.
fn gnu_table(
    alloc: Global,
    symbols: SymbolsNow<'_>,
    order: &[usize],
    sizes: GnuSizes,
    form: Form,
) -> Result<Vec<u8>, TableFault>
    requires { ArePlaces (symbols_now symbols) order.now }
{
    if sizes.buckets == 0 || sizes.filter_words == 0 || sizes.filter_shift >= 32 {
        return Err(TableFault::NumberTooLarge);
    }
    let hashes = gnu_hashes(alloc, symbols)?;
    build_gnu_hash(alloc, symbols, order, &hashes, sizes, form)
}

// A table of symbols in an order. There is none where a position, a size or a version is none.
pub(crate) fn table(
    alloc: Global,
    source: &Source<'_>,
    order: &[usize],
    kind: Kind,
) -> Result<Vec<u8>, TableFault> {
    let edited = edited(alloc, source)?;
    let symbols = edited.lend();
    if !are_places(symbols, order) {
        return Err(TableFault::NumberTooLarge);
    }
    match kind {
        Kind::Gabi(buckets) if buckets > 0 => build_hash(
            alloc,
            symbols,
            order,
            buckets,
            source.form,
        ),
        Kind::Gnu(sizes) => gnu_table(alloc, symbols, order, sizes, source.form),
        Kind::Versions if have_versions(symbols) => build_versym(
            alloc,
            symbols,
            order,
            source.form,
        ),
        _ => Err(TableFault::NumberTooLarge),
    }
}
