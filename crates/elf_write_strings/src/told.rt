//! String tables that are copied and told anew: each text that was read is placed where it stood.
ghost use Rattle.std.specs.Prelude.{◌≡◌, ◌≤◌, ◌^◌, IfNone, IfOk, IfSome, false, length};
ghost use Rattle.elf_format.specs.declared.constants.TheConstants as constants;
ghost use Rattle.elf_format.specs.Options.{list_at};
ghost use Rattle.elf_layout_plan.specs.Texts.{if_linked, if_names, texts_in_use, texts_of_definitions, texts_of_entries, texts_of_needs, texts_of_symbols};
ghost use Rattle.elf_tables.specs.Strings.{PlacesStand};
ghost use Rattle.elf_write_strings.specs.PlacedTexts.{IsContentOfUser, IsUnedited, TellsAll};
ghost use Rattle.elf_write_strings.specs.VersionPlaces.{HasMore, content_in};
ghost use Rattle.elf_write_strings.specs.WrittenStrings.{has_texts_in as has_texts_there};

mod placed;
mod records;

use self::placed::{place_entries, place_sections, place_symbols};
use self::records::{header_records, records_of};
use crate::texts::read_numbers;
use crate::versions::{content_of, place_read_definitions, place_read_needs};
use elf_image::Builder;
use elf_image::constants::{SHT_DYNAMIC, SHT_DYNSYM, SHT_GNU_VERDEF, SHT_GNU_VERNEED, SHT_SYMTAB};
use elf_tables::Finished;
use std::alloc::{AllocError, Global};

// Whether the first section of a type has its texts in the string table with that number.
pub(crate) fn has_texts_in(image: &Builder<'_>, kind: u32, number: usize) -> bool
    ensures { result ≡ has_texts_there image.now kind number }
{
    match image.link_of_type(kind) {
        Some(link) => link == number,
        None => false,
    }
}

// The bytes of the first section of a type, where it has its texts in the string table with that number.
fn content_of_user<'data>(image: &Builder<'data>, kind: u32, number: usize) -> Option<&'data [u8]>
    ensures none { IfNone result (has_texts_there image.now kind number ≡ false) }
    ensures some { IfSome result (λ bytes. IsContentOfUser image.now kind number bytes.now) }
{
    let _source = image.source();
    let Some(i) = image.type_position(kind) else {
        return None;
    };
    let section = &image.sections()[i];
    if section.sh_link as usize != number {
        return None;
    }
    Some(section.content)
}

// Places the texts of the dynamic list, where they stand in the string table with that number.
fn tell_list<'t>(
    alloc: Global,
    read: &'t Builder<'_>,
    number: usize,
    table: &mut Finished<'t>,
) -> Result<(), AllocError>
    requires unedited { IsUnedited read.now }
    requires bytes { table.old.bytes ≡ content_in read.now.sections number }
    requires short { length table.old.bytes ≤ 2 ^ 32 }
    ensures more { IfOk result (λ _. HasMore table.old table.new) }
    ensures told { IfOk result (λ _. TellsAll table.new (if_linked read.entry.now
        constants.SHT_DYNAMIC number (list_at texts_of_entries read.entry.now.entries))) }
{
    let Some(content) = content_of_user(read, SHT_DYNAMIC, number) else {
        return Ok(());
    };
    let Some(entries) = read.dynamic_data() else {
        return Ok(());
    };
    let numbers = read_numbers(alloc, read, content)?;
    place_entries(table, entries, &numbers)
}

// Places the names of the dynamic symbols, where they stand in the string table with that number.
fn tell_dynamic_symbols<'t>(
    alloc: Global,
    read: &'t Builder<'_>,
    number: usize,
    table: &mut Finished<'t>,
) -> Result<(), AllocError>
    requires unedited { IsUnedited read.now }
    requires bytes { table.old.bytes ≡ content_in read.now.sections number }
    ensures more { IfOk result (λ _. HasMore table.old table.new) }
    ensures told { IfOk result (λ _. TellsAll table.new (if_linked read.entry.now
        constants.SHT_DYNSYM number (texts_of_symbols read.entry.now.dynamic_symbols))) }
{
    let Some(content) = content_of_user(read, SHT_DYNSYM, number) else {
        return Ok(());
    };
    let records = records_of(alloc, read, content)?;
    place_symbols(table, read.dynamic_symbols(), &records)
}

// Places the names of the static symbols, where they stand in the string table with that number.
fn tell_static_symbols<'t>(
    alloc: Global,
    read: &'t Builder<'_>,
    number: usize,
    table: &mut Finished<'t>,
) -> Result<(), AllocError>
    requires unedited { IsUnedited read.now }
    requires bytes { table.old.bytes ≡ content_in read.now.sections number }
    ensures more { IfOk result (λ _. HasMore table.old table.new) }
    ensures told { IfOk result (λ _. TellsAll table.new (if_linked read.entry.now
        constants.SHT_SYMTAB number (texts_of_symbols read.entry.now.symbols))) }
{
    let Some(content) = content_of_user(read, SHT_SYMTAB, number) else {
        return Ok(());
    };
    let records = records_of(alloc, read, content)?;
    place_symbols(table, read.symbols(), &records)
}

// Places the names of the defined versions, where they stand in the string table with that number.
fn tell_definitions<'t>(
    alloc: Global,
    read: &'t Builder<'_>,
    number: usize,
    table: &mut Finished<'t>,
) -> Result<(), AllocError>
    requires unedited { IsUnedited read.now }
    requires bytes { table.old.bytes ≡ content_in read.now.sections number }
    ensures more { IfOk result (λ _. HasMore table.old table.new) }
    ensures told { IfOk result (λ _. TellsAll table.new (if_linked read.entry.now
        constants.SHT_GNU_VERDEF number (texts_of_definitions read.entry.now.definitions))) }
{
    if !has_texts_in(read, SHT_GNU_VERDEF, number) {
        return Ok(());
    }
    place_read_definitions(alloc, read, number, table)
}

// Places the texts of the needed versions, where they stand in the string table with that number.
fn tell_needs<'t>(
    alloc: Global,
    read: &'t Builder<'_>,
    number: usize,
    table: &mut Finished<'t>,
) -> Result<(), AllocError>
    requires unedited { IsUnedited read.now }
    requires bytes { table.old.bytes ≡ content_in read.now.sections number }
    ensures more { IfOk result (λ _. HasMore table.old table.new) }
    ensures told { IfOk result (λ _. TellsAll table.new (if_linked read.entry.now
        constants.SHT_GNU_VERNEED number (texts_of_needs read.entry.now.needs))) }
{
    if !has_texts_in(read, SHT_GNU_VERNEED, number) {
        return Ok(());
    }
    place_read_needs(alloc, read, number, table)
}

// Places the names of the sections, where they stand in the string table with that number.
fn tell_sections<'t>(
    alloc: Global,
    read: &'t Builder<'_>,
    number: usize,
    table: &mut Finished<'t>,
) -> Result<(), AllocError>
    requires unedited { IsUnedited read.now }
    requires bytes { table.old.bytes ≡ content_in read.now.sections number }
    ensures more { IfOk result (λ _. HasMore table.old table.new) }
    ensures told { IfOk result (λ _. TellsAll table.new (if_names read.entry.now number)) }
{
    if read.header().e_shstrndx as usize != number {
        return Ok(());
    }
    let headers = header_records(alloc, read)?;
    place_sections(table, read.sections(), &headers)
}

// Places the texts of the dynamic list and of the symbols.
fn tell_dynamic<'t>(
    alloc: Global,
    read: &'t Builder<'_>,
    number: usize,
    table: &mut Finished<'t>,
) -> Result<(), AllocError>
    requires unedited { IsUnedited read.now }
    requires bytes { table.old.bytes ≡ content_in read.now.sections number }
    requires short { length table.old.bytes ≤ 2 ^ 32 }
    ensures more { IfOk result (λ _. HasMore table.old table.new) }
    ensures list { IfOk result (λ _. TellsAll table.new (if_linked read.entry.now
        constants.SHT_DYNAMIC number (list_at texts_of_entries read.entry.now.entries))) }
    ensures symbols { IfOk result (λ _. TellsAll table.new (if_linked read.entry.now
        constants.SHT_DYNSYM number (texts_of_symbols read.entry.now.dynamic_symbols))) }
    ensures statics { IfOk result (λ _. TellsAll table.new (if_linked read.entry.now
        constants.SHT_SYMTAB number (texts_of_symbols read.entry.now.symbols))) }
{
    tell_list(alloc, read, number, table)?;
    tell_dynamic_symbols(alloc, read, number, table)?;
    tell_static_symbols(alloc, read, number, table)?;
    Ok(())
}

// Places the texts of the versions and the names of the sections.
fn tell_others<'t>(
    alloc: Global,
    read: &'t Builder<'_>,
    number: usize,
    table: &mut Finished<'t>,
) -> Result<(), AllocError>
    requires unedited { IsUnedited read.now }
    requires bytes { table.old.bytes ≡ content_in read.now.sections number }
    ensures more { IfOk result (λ _. HasMore table.old table.new) }
    ensures definitions { IfOk result (λ _. TellsAll table.new (if_linked read.entry.now
        constants.SHT_GNU_VERDEF number (texts_of_definitions read.entry.now.definitions))) }
    ensures needs { IfOk result (λ _. TellsAll table.new (if_linked read.entry.now
        constants.SHT_GNU_VERNEED number (texts_of_needs read.entry.now.needs))) }
    ensures sections { IfOk result (λ _. TellsAll table.new (if_names read.entry.now number)) }
{
    tell_definitions(alloc, read, number, table)?;
    tell_needs(alloc, read, number, table)?;
    tell_sections(alloc, read, number, table)?;
    Ok(())
}

// Places all texts that stand in the string table with that number.
fn tell_all<'t>(
    alloc: Global,
    read: &'t Builder<'_>,
    number: usize,
    table: &mut Finished<'t>,
) -> Result<(), AllocError>
    requires unedited { IsUnedited read.now }
    requires bytes { table.old.bytes ≡ content_in read.now.sections number }
    requires short { length table.old.bytes ≤ 2 ^ 32 }
    ensures more { IfOk result (λ _. HasMore table.old table.new) }
    ensures told { IfOk result (λ _. TellsAll table.new
        (texts_in_use read.entry.now read.entry.now number)) }
{
    tell_dynamic(alloc, read, number, table)?;
    tell_others(alloc, read, number, table)?;
    Ok(())
}

// A copy of the string table with that number in the file that was read: it tells where each text stands in it.
pub(crate) fn told_table<'t>(
    alloc: Global,
    read: &'t Builder<'_>,
    number: usize,
) -> Result<Finished<'t>, AllocError>
    requires unedited { IsUnedited read.now }
    requires short { length (content_in read.now.sections number) ≤ 2 ^ 32 }
    ensures bytes { IfOk result (λ table.
        table.bytes ≡ content_in read.entry.now.sections number) }
    ensures told { IfOk result (λ table. TellsAll table
        (texts_in_use read.entry.now read.entry.now number)) }
    ensures stand { IfOk result PlacesStand }
{
    let content = content_of(read, number);
    let mut table = Finished::copied(Vec::from_slice(alloc, content)?, alloc);
    tell_all(alloc, read, number, &mut table)?;
    Ok(table)
}
