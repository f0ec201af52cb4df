//! The bytes of the symbols for a link editor.
ghost use Rattle.std.specs.Prelude.{◌≡◌, ◌<◌, ◌*◌, ◌&&◌, IfOk, IsTrue, Some, true, length, option_map};
ghost use Rattle.std.specs.List.{list_all, slice_get};
ghost use Rattle.elf_format.specs.declared.constants.TheConstants.{SHT_SYMTAB};
ghost use Rattle.elf_format.specs.Records.{symbol_size, symbols_in};
ghost use Rattle.elf_image.specs.ImageModel.{section_model};
ghost use Rattle.elf_write_strings.specs.Texts.{is_table_copied};
ghost use Rattle.elf_write_symbols.specs.Contents.{AreSymbolsOf};
ghost use Rattle.elf_write_symbols.specs.Final.{are_symbols_kept as are_kept, final};
ghost use Rattle.elf_write_symbols.specs.Ready.{IsEditedReady, IsSectionOfType};
ghost use Rattle.elf_write_strings.specs.WrittenStrings.{AreStrings, IsTold, are_static_names_left, content_read, strings_at};
ghost use Rattle.elf_write_symbols.specs.Renumbering.{IsRenumbering};
ghost use Rattle.elf_write_symbol_tables.specs.NamePlaces.{TellsNames, begins_empty as begins_empty_text};
ghost use Rattle.elf_write_symbol_tables.specs.SymbolSteps.{IsRecordAt, ShowsSymbols, is_section_kept as is_kept};

use crate::names::{begins_empty, told_place};
use crate::records::{are_sections_there, record_at, record_staying};
use elf_format::records::SymbolNumbers;
use elf_image::{Builder, Section};
use elf_tables::spelled::push_symbol;
use elf_write_strings::made::{Made, made_of};
use elf_write_symbols::{Renumbering, new_symbol_section};
use patch_bytes::ByteString;
use std::alloc::{AllocError, Global};

// The record of the symbol at a position, its name where a string table tells it.
#[inline(always)]
fn told_record(
    read: &Builder<'_>,
    image: &Builder<'_>,
    made: &Made<'_>,
    renumbering: &Renumbering,
    section: &Section<'_>,
    i: usize,
    begins: bool,
) -> SymbolNumbers
    requires ready { IsEditedReady read.now image.now }
    requires renumbering { IsRenumbering read.now image.now renumbering.now }
    requires at { IsSectionOfType SHT_SYMTAB image.now (section_model section.now) }
    requires told { IsTold read.now image.now made.now }
    requires named { TellsNames made.now.table image.now.symbols }
    requires begins { begins ≡ begins_empty_text made.now.table }
    requires inside { i < length image.now.symbols }
    ensures { IsRecordAt image.now.form made.now.table.bytes (final read.now image.now).symbols i
        result }
{
    let symbols = image.symbols();
    let number = symbols.read_number(i);
    let place = told_place(symbols, &made.table, i, begins);
    record_at(read, image, renumbering, section.content, number, place)
}

// The records of all symbols, their names in these strings.
fn records_told(
    alloc: Global,
    read: &Builder<'_>,
    image: &Builder<'_>,
    made: &Made<'_>,
    renumbering: &Renumbering,
    section: &Section<'_>,
) -> Result<Vec<u8>, AllocError>
    requires ready { IsEditedReady read.now image.now }
    requires renumbering { IsRenumbering read.now image.now renumbering.now }
    requires at { IsSectionOfType SHT_SYMTAB image.now (section_model section.now) }
    requires told { IsTold read.now image.now made.now }
    requires named { TellsNames made.now.table image.now.symbols }
    ensures { IfOk result (λ bytes. ShowsSymbols image.now.form made.now.table.bytes
        (final read.now image.now).symbols bytes.items) }
{
    let count = image.symbols().len();
    let form = image.form();
    let begins = begins_empty(&made.table);
    let mut bytes = Vec::with_capacity(alloc, section.content.len())?;
    for i in 0..count {
        let numbers = told_record(read, image, made, renumbering, section, i, begins);
        push_symbol(&mut bytes, form, numbers)?;
    }
    Ok(bytes)
}

// The record of the symbol at a position, with the name that it had at read, where this stood.
#[inline(always)]
fn record_as_named(
    read: &Builder<'_>,
    image: &Builder<'_>,
    renumbering: &Renumbering,
    section: &Section<'_>,
    i: usize,
) -> SymbolNumbers
    requires ready { IsEditedReady read.now image.now }
    requires renumbering { IsRenumbering read.now image.now renumbering.now }
    requires at { IsSectionOfType SHT_SYMTAB image.now (section_model section.now) }
    requires same { are_static_names_left read.now image.now ≡ true }
    requires inside { i < length image.now.symbols }
    ensures { IsRecordAt image.now.form (content_read image.now section.now.sh_link)
        (final read.now image.now).symbols i result }
{
    let number = image.symbols().read_number(i);
    record_staying(read, image, renumbering, section.content, number)
}

// The records of all symbols, which have the names that they had at read, where these stood.
fn records_as_named(
    alloc: Global,
    read: &Builder<'_>,
    image: &Builder<'_>,
    renumbering: &Renumbering,
    section: &Section<'_>,
) -> Result<Vec<u8>, AllocError>
    requires ready { IsEditedReady read.now image.now }
    requires renumbering { IsRenumbering read.now image.now renumbering.now }
    requires at { IsSectionOfType SHT_SYMTAB image.now (section_model section.now) }
    requires same { are_static_names_left read.now image.now ≡ true }
    ensures { IfOk result (λ bytes. ShowsSymbols image.now.form
        (content_read image.now section.now.sh_link) (final read.now image.now).symbols
        bytes.items) }
{
    let form = image.form();
    let mut bytes = Vec::with_capacity(alloc, section.content.len())?;
    for i in 0..image.symbols().len() {
        let numbers = record_as_named(read, image, renumbering, section, i);
        push_symbol(&mut bytes, form, numbers)?;
    }
    Ok(bytes)
}

// The records of all symbols, their names in the strings that are written.
fn records_anew(
    alloc: Global,
    read: &Builder<'_>,
    image: &Builder<'_>,
    made: &[Made<'_>],
    renumbering: &Renumbering,
    section: &Section<'_>,
) -> Result<Vec<u8>, AllocError>
    requires ready { IsEditedReady read.now image.now }
    requires strings { AreStrings read.now image.now made.now }
    requires renumbering { IsRenumbering read.now image.now renumbering.now }
    requires at { IsSectionOfType SHT_SYMTAB image.now (section_model section.now) }
    ensures { IfOk result (λ bytes. ShowsSymbols image.now.form
        (strings_at image.now made.now section.now.sh_link) (final read.now image.now).symbols
        bytes.items) }
{
    match made_of(made, section.sh_link as usize) {
        None => records_as_named(alloc, read, image, renumbering, section),
        Some(table) => records_told(alloc, read, image, table, renumbering, section),
    }
}

// Whether the section of the symbol at a position keeps its number.
fn is_section_kept(
    read: &Builder<'_>,
    image: &Builder<'_>,
    renumbering: &Renumbering,
    i: usize,
) -> bool
    requires ready { IsEditedReady read.now image.now }
    requires renumbering { IsRenumbering read.now image.now renumbering.now }
    requires inside { i < length image.now.symbols }
    ensures { option_map (is_kept image.now) (slice_get image.now.symbols i) ≡ Some result }
{
    let number = image.symbols().numbers(i, 0).st_shndx;
    number == new_symbol_section(read, image, &renumbering.sections, number)
}

// Whether the section of each symbol keeps its number.
fn are_sections_kept(read: &Builder<'_>, image: &Builder<'_>, renumbering: &Renumbering) -> bool
    requires ready { IsEditedReady read.now image.now }
    requires renumbering { IsRenumbering read.now image.now renumbering.now }
    ensures { result ≡ list_all (is_kept image.now) image.now.symbols }
{
    for i in 0..image.symbols().len() {
        if !is_section_kept(read, image, renumbering, i) {
            return false;
        }
    }
    true
}

// Whether the final symbols are those that were read.
fn are_symbols_kept(
    read: &Builder<'_>,
    image: &Builder<'_>,
    renumbering: &Renumbering,
    section: &Section<'_>,
) -> bool
    requires ready { IsEditedReady read.now image.now }
    requires renumbering { IsRenumbering read.now image.now renumbering.now }
    requires at { IsSectionOfType SHT_SYMTAB image.now (section_model section.now) }
    ensures { result ≡ are_kept read.now image.now }
{
    if !image.keeps_static_symbols() {
        return false;
    }
    if are_sections_there(read, image) {
        return true;
    }
    are_sections_kept(read, image, renumbering)
}

// Whether the strings are copied that a section links to.
fn is_copied(
    read: &Builder<'_>,
    image: &Builder<'_>,
    made: &[Made<'_>],
    section: &Section<'_>,
) -> bool
    requires ready { IsEditedReady read.now image.now }
    requires strings { AreStrings read.now image.now made.now }
    requires at { IsSectionOfType SHT_SYMTAB image.now (section_model section.now) }
    ensures { result ≡ is_table_copied read.now image.now section.now.sh_link }
{
    match made_of(made, section.sh_link as usize) {
        Some(table) => table.is_copied,
        None => true,
    }
}

// Whether the final symbols and the strings of their names are as they were read.
fn is_table_kept(
    read: &Builder<'_>,
    image: &Builder<'_>,
    made: &[Made<'_>],
    renumbering: &Renumbering,
    section: &Section<'_>,
) -> bool
    requires ready { IsEditedReady read.now image.now }
    requires strings { AreStrings read.now image.now made.now }
    requires renumbering { IsRenumbering read.now image.now renumbering.now }
    requires at { IsSectionOfType SHT_SYMTAB image.now (section_model section.now) }
    ensures { result ≡ (are_kept read.now image.now
        && is_table_copied read.now image.now section.now.sh_link) }
{
    if !is_copied(read, image, made, section) {
        return false;
    }
    are_symbols_kept(read, image, renumbering, section)
}

/// The bytes of a section of symbols for a link editor (gABI, Symbol Table, `SHT_SYMTAB`): as they were read where the final symbols
/// are, and the strings of their names are copied. Else each record is spelled anew, its name where the strings have it, its section
/// by the number that this gets. Error: `AllocError`. Time grows with the number of symbols.
pub fn static_symbols_content<'data>(
    alloc: Global,
    read: &Builder<'data>,
    image: &Builder<'data>,
    made: &[Made<'_>],
    renumbering: &Renumbering,
    section: &Section<'data>,
) -> Result<ByteString<'data>, AllocError>
    requires ready { IsEditedReady read.now image.now }
    requires strings { AreStrings read.now image.now made.now }
    requires renumbering { IsRenumbering read.now image.now renumbering.now }
    requires at { IsSectionOfType SHT_SYMTAB image.now (section_model section.now) }
    ensures sized { IfOk result (λ content. length content.bytes
        ≡ length image.now.symbols * symbol_size image.now.form) }
    ensures symbols { IfOk result (λ content. AreSymbolsOf
        (strings_at image.now made.now section.now.sh_link) (final read.now image.now).symbols
        (symbols_in image.now.form content.bytes)) }
    ensures copied { IfOk result (λ content. IsTrue (are_kept read.now image.now
        && is_table_copied read.now image.now section.now.sh_link)
        → content.bytes ≡ (section_model section.entry.now).content) }
{
    if is_table_kept(read, image, made, renumbering, section) {
        return Ok(ByteString::borrowed(section.content));
    }
    let bytes = records_anew(alloc, read, image, made, renumbering, section)?;
    Ok(ByteString::owned(bytes))
}
