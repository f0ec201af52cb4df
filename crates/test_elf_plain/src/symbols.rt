ghost use Rattle.std.specs.Prelude.{◌≡◌, map, replicate, IfOk, None};
ghost use Rattle.elf_format.specs.Answers.{Gives};
ghost use Rattle.test_elf_plain.specs.PlainViews.{source_model, symbols_model, table_source_model, text_model, texts_model};
ghost use Rattle.elf_format.specs.Views.{dynamic_symbols, named_symbols, names_of, symbol_versions};

use crate::source::{Source, TableSource, read_bytes, read_text};
use crate::view::ShownSymbol;
use elf_format::form::Form;
use elf_format::records::SymbolNumbers;
use elf_format::tables::read_records;
use elf_format::version_id::VersionId;
use elf_format::view_fault::ViewFault;
use std::alloc::{AllocError, Global};

// Numbers, names and versions put together, symbol by symbol.
fn join_symbols(
    alloc: Global,
    symbols: &[SymbolNumbers],
    names: &[Vec<u8>],
    versions: &[Option<VersionId>],
) -> Result<Vec<ShownSymbol>, AllocError>
    ensures { IfOk result (λ v. symbols_model v
        ≡ named_symbols symbols.now (map text_model names.now) versions.now) }
{
    let mut made = Vec::new(alloc);
    for i in 0..symbols.len() {
        if i >= names.len() {
            return Ok(made);
        }
        if i >= versions.len() {
            return Ok(made);
        }
        let symbol = symbols[i];
        made.push(ShownSymbol {
            name: Vec::from_slice(alloc, &names[i])?,
            st_info: symbol.st_info,
            st_other: symbol.st_other,
            st_shndx: symbol.st_shndx,
            st_value: symbol.st_value,
            st_size: symbol.st_size,
            version: versions[i],
        })?;
    }
    Ok(made)
}

// No version for each of so many symbols.
fn no_versions(alloc: Global, count: usize) -> Result<Vec<Option<VersionId>>, AllocError>
    ensures { IfOk result (λ v. v.items ≡ replicate count None) }
{
    let mut made = Vec::new(alloc);
    for _ in 0..count {
        made.push(None)?;
    }
    Ok(made)
}

// The versions of so many symbols.
fn versions_of(
    alloc: Global,
    form: Form,
    with_versions: bool,
    count: usize,
    versions: &Source<'_>,
) -> Result<Vec<Option<VersionId>>, ViewFault>
    ensures { Gives (λ v. v.items) result
        (symbol_versions form with_versions count (source_model versions.now)) }
{
    if !with_versions {
        return Ok(no_versions(alloc, count)?);
    }
    let all = read_bytes(alloc, versions, 0, count as u128 * 2)?;
    Ok(read_records(alloc, form, 2, count, &all)?)
}

// The names of symbols.
fn symbol_names(
    alloc: Global,
    room: usize,
    texts: &Source<'_>,
    symbols: &[SymbolNumbers],
) -> Result<Vec<Vec<u8>>, ViewFault>
    ensures { Gives texts_model result (names_of room (source_model texts.now) symbols.now) }
{
    let mut names = Vec::new(alloc);
    for symbol in symbols {
        let name = read_text(alloc, room, texts, symbol.st_name as u64)?;
        names.push(name)?;
    }
    Ok(names)
}

// The dynamic symbols with their names and versions.
pub(crate) fn show_symbols(
    alloc: Global,
    form: Form,
    room: usize,
    with_versions: bool,
    table: &TableSource<'_>,
    versions: &Source<'_>,
) -> Result<Vec<ShownSymbol>, ViewFault>
    ensures { Gives symbols_model result (dynamic_symbols form room with_versions
        (table_source_model table.now) (source_model versions.now)) }
{
    let size = form.symbol_size();
    let count = table.count as usize;
    let all = read_bytes(alloc, &table.bytes, 0, count as u128 * size as u128)?;
    let symbols: Vec<SymbolNumbers> = read_records(alloc, form, size, count, &all)?;
    let names = symbol_names(alloc, room, &table.texts, &symbols)?;
    let ids = versions_of(alloc, form, with_versions, count, versions)?;
    Ok(join_symbols(alloc, &symbols, &names, &ids)?)
}
