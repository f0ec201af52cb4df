//! Tables of symbols, and their names in string tables.

use crate::lists::print_symbols;
use elf_format::texts::text;
use elf_image::{EditedSymbols, Form, Symbols, VersionId};
use patch_bytes::{ByteOrder2, Wide};
use std::alloc::{AllocError, Global};
use std::io;
use test_cases_written::words::{bytes_of, first};

/// The form that a class and an order are.
fn form_of(class: &str, order: &str) -> Form {
    Form {
        wide: if class == "64" { Wide::W64 } else { Wide::W32 },
        order: if order == "little" {
            ByteOrder2::Little
        } else {
            ByteOrder2::Big
        },
    }
}

/// The bytes that a word is, made again where memory was refused.
fn bytes_again(alloc: Global, word: &str) -> Result<Vec<u8>, AllocError> {
    match bytes_of(alloc, word) {
        Err(_) => bytes_of(alloc, word),
        bytes => bytes,
    }
}

/// Prints the symbols of a table, or that a name is missing.
pub(crate) fn print_table(rt: &HostRuntime, words: &str) -> io::Result<()> {
    let (class, words) = first(words);
    let (order, words) = first(words);
    let (texts, words) = first(words);
    let texts = bytes_again(rt.alloc(), texts)?;
    print_with_texts(rt, form_of(class, order), &texts, words)
}

/// Prints the symbols of a table with these texts, or that a name is missing.
fn print_with_texts(rt: &HostRuntime, form: Form, texts: &[u8], words: &str) -> io::Result<()> {
    let (records, versions) = first(words);
    let records = bytes_again(rt.alloc(), records)?;
    print_with_records(rt, form, (texts, &records), versions)
}

/// Prints the symbols of a table with these texts and records, without versions where there is no
/// word.
fn print_with_records(
    rt: &HostRuntime,
    form: Form,
    (texts, records): (&[u8], &[u8]),
    word: &str,
) -> io::Result<()> {
    if word.is_empty() {
        return print_parts(rt, form, (texts, records), None);
    }
    let versions = bytes_again(rt.alloc(), word)?;
    print_parts(rt, form, (texts, records), Some(&versions))
}

/// Prints the symbols of a table in parts.
fn print_parts<'a>(
    rt: &HostRuntime,
    form: Form,
    (texts, records): (&'a [u8], &'a [u8]),
    versions: Option<&'a [u8]>,
) -> io::Result<()> {
    match Symbols::read(form, texts, records, versions) {
        Some(symbols) => print_read(rt, &symbols),
        None => println!(rt; "a name is missing"),
    }
}

fn print_read(rt: &HostRuntime, symbols: &Symbols<'_>) -> io::Result<()> {
    print_count(rt, symbols)?;
    let edited = edited_of(rt.alloc(), symbols)?;
    print_symbols(rt, "symbol", edited.lend())
}

/// The symbols of a table, none of which an edit changed.
fn edited_of<'a>(alloc: Global, symbols: &Symbols<'a>) -> Result<EditedSymbols<'a>, AllocError> {
    match EditedSymbols::new(alloc, symbols.same()) {
        Err(_) => EditedSymbols::new(alloc, symbols.same()),
        made => made,
    }
}

fn print_count(rt: &HostRuntime, symbols: &Symbols<'_>) -> io::Result<()> {
    println!(rt; "{} symbols, empty {}", symbols.len(), symbols.is_empty())
}

/// Prints the versions that have no name, and no symbols.
pub(crate) fn print_constants(rt: &HostRuntime) -> io::Result<()> {
    println!(rt; "{:?} {:?}", VersionId::local(), VersionId::global())?;
    print_count(rt, &Symbols::none())
}

/// A record of zeros, its name at a place below 256.
fn record_with(place: u8) -> [u8; 24] {
    let mut record = [0; 24];
    record[0] = place;
    record
}

/// Whether a table of one record is read.
fn is_read<'a>(texts: &'a [u8], record: &'a [u8]) -> bool {
    Symbols::read(form_of("64", "little"), texts, record, None).is_some()
}

/// Prints at which of the first 20 places of a string table a name is that a symbol can have, and a text.
pub(crate) fn print_places(rt: &HostRuntime, words: &str) -> io::Result<()> {
    let texts = bytes_again(rt.alloc(), words)?;
    print_each(rt, &texts)
}

fn print_each(rt: &HostRuntime, texts: &[u8]) -> io::Result<()> {
    print!(rt; "names")?;
    for place in 0..20 {
        print_place(rt, texts, place)?;
    }
    println!(rt;)
}

/// Prints a place where a name is, and says so where a text is not there alike.
fn print_place(rt: &HostRuntime, texts: &[u8], place: u8) -> io::Result<()> {
    let record = record_with(place);
    let (is_name, is_text) = (
        is_read(texts, &record),
        text(texts.len(), texts, place as u64).is_ok(),
    );
    match (is_name, is_text) {
        (true, true) => print!(rt; " {place}"),
        (false, false) => Ok(()),
        _ => print!(rt; " {place} {is_name} {is_text}"),
    }
}
