//! The bytes of the dynamic symbols.
ghost use Rattle.std.specs.Prelude.{◌≡◌, ◌<◌, ◌*◌, IfOk, false, length};
ghost use Rattle.elf_format.specs.declared.constants.TheConstants.{SHT_DYNSYM};
ghost use Rattle.elf_format.specs.Options.{list_at};
ghost use Rattle.elf_format.specs.Records.{symbol_size, symbols_in};
ghost use Rattle.elf_image.specs.ImageModel.{section_model};
ghost use Rattle.elf_image.specs.Names.{are_names_changed};
ghost use Rattle.elf_write_strings.specs.Needs.{written_entries};
ghost use Rattle.elf_write_strings.specs.Texts.{texts_of_entries};
ghost use Rattle.elf_write_symbols.specs.Contents.{AreSymbolsOf};
ghost use Rattle.elf_write_symbols.specs.Final.{final};
ghost use Rattle.elf_write_symbols.specs.Ready.{IsEditedReady, IsSectionOfType};
ghost use Rattle.elf_write_strings.specs.WrittenStrings.{AreStrings, IsTold, content_read, strings_at};
ghost use Rattle.elf_write_symbols.specs.Renumbering.{IsRenumbering};
ghost use Rattle.elf_write_symbol_tables.specs.NamePlaces.{HasNames, TellsNames, begins_empty as begins_empty_text};
ghost use Rattle.elf_write_symbol_tables.specs.SymbolSteps.{IsRecordAt, ShowsSymbols};

use crate::names::{begins_empty, name_place, told_place};
use crate::records::{are_sections_there, record_at, record_staying};
use elf_format::records::SymbolNumbers;
use elf_image::{Builder, Section};
use elf_tables::spelled::push_symbol;
use elf_write_strings::StayingNeeds;
use elf_write_strings::made::{Made, made_of};
use elf_write_strings::texts::list_texts;
use elf_write_symbols::{Renumbering, order_of};
use patch_bytes::ByteString;
use std::alloc::{AllocError, Global};

// The record of the symbol at a place of the new order, its name where a string table tells it.
#[inline(always)]
fn told_record(
    read: &Builder<'_>,
    image: &Builder<'_>,
    made: &Made<'_>,
    renumbering: &Renumbering,
    section: &Section<'_>,
    i: usize,
    begins: bool,
) -> SymbolNumbers
    requires ready { IsEditedReady read.now image.now }
    requires renumbering { IsRenumbering read.now image.now renumbering.now }
    requires at { IsSectionOfType SHT_DYNSYM image.now (section_model section.now) }
    requires told { IsTold read.now image.now made.now }
    requires named { TellsNames made.now.table image.now.dynamic_symbols }
    requires begins { begins ≡ begins_empty_text made.now.table }
    requires inside { i < length image.now.dynamic_symbols }
    ensures { IsRecordAt image.now.form made.now.table.bytes
        (final read.now image.now).dynamic_symbols i result }
{
    let symbols = image.dynamic_symbols();
    let at = order_of(read, image, &renumbering.dynamic, i);
    let number = symbols.read_number(at);
    let place = told_place(symbols, &made.table, at, begins);
    record_at(read, image, renumbering, section.content, number, place)
}

// The records of all symbols in their new order, whose names a string table tells.
fn told_records(
    alloc: Global,
    read: &Builder<'_>,
    image: &Builder<'_>,
    made: &Made<'_>,
    renumbering: &Renumbering,
    section: &Section<'_>,
) -> Result<Vec<u8>, AllocError>
    requires ready { IsEditedReady read.now image.now }
    requires renumbering { IsRenumbering read.now image.now renumbering.now }
    requires at { IsSectionOfType SHT_DYNSYM image.now (section_model section.now) }
    requires told { IsTold read.now image.now made.now }
    requires named { TellsNames made.now.table image.now.dynamic_symbols }
    ensures { IfOk result (λ bytes. ShowsSymbols image.now.form made.now.table.bytes
        (final read.now image.now).dynamic_symbols bytes.items) }
{
    let form = image.form();
    let begins = begins_empty(&made.table);
    let mut bytes = Vec::with_capacity(alloc, section.content.len())?;
    for i in 0..image.dynamic_symbols().len() {
        let numbers = told_record(read, image, made, renumbering, section, i, begins);
        push_symbol(&mut bytes, form, numbers)?;
    }
    Ok(bytes)
}

// The record of the symbol at a place of the new order, whose name was added to a string table behind so many other texts.
#[inline(always)]
fn ordered_record(
    read: &Builder<'_>,
    image: &Builder<'_>,
    made: &Made<'_>,
    renumbering: &Renumbering,
    section: &Section<'_>,
    before: usize,
    i: usize,
    begins: bool,
) -> SymbolNumbers
    requires ready { IsEditedReady read.now image.now }
    requires renumbering { IsRenumbering read.now image.now renumbering.now }
    requires at { IsSectionOfType SHT_DYNSYM image.now (section_model section.now) }
    requires told { IsTold read.now image.now made.now }
    requires named { HasNames made.now.table before image.now.dynamic_symbols }
    requires begins { begins ≡ begins_empty_text made.now.table }
    requires inside { i < length image.now.dynamic_symbols }
    ensures { IsRecordAt image.now.form made.now.table.bytes
        (final read.now image.now).dynamic_symbols i result }
{
    let symbols = image.dynamic_symbols();
    let places = made.table.in_order();
    let at = order_of(read, image, &renumbering.dynamic, i);
    let number = symbols.read_number(at);
    let place = name_place(symbols, at, places[before + at], begins);
    record_at(read, image, renumbering, section.content, number, place)
}

// The records of all symbols in their new order, whose names were added to a string table behind so many other texts.
fn ordered_records(
    alloc: Global,
    read: &Builder<'_>,
    image: &Builder<'_>,
    made: &Made<'_>,
    renumbering: &Renumbering,
    section: &Section<'_>,
    before: usize,
) -> Result<Vec<u8>, AllocError>
    requires ready { IsEditedReady read.now image.now }
    requires renumbering { IsRenumbering read.now image.now renumbering.now }
    requires at { IsSectionOfType SHT_DYNSYM image.now (section_model section.now) }
    requires told { IsTold read.now image.now made.now }
    requires named { HasNames made.now.table before image.now.dynamic_symbols }
    ensures { IfOk result (λ bytes. ShowsSymbols image.now.form made.now.table.bytes
        (final read.now image.now).dynamic_symbols bytes.items) }
{
    let form = image.form();
    let begins = begins_empty(&made.table);
    let mut bytes = Vec::with_capacity(alloc, section.content.len())?;
    for i in 0..image.dynamic_symbols().len() {
        let numbers = ordered_record(read, image, made, renumbering, section, before, i, begins);
        push_symbol(&mut bytes, form, numbers)?;
    }
    Ok(bytes)
}

// How many texts the dynamic list has that is written. They are the first of those that its string table is made of.
fn count_texts(alloc: Global, read: &Builder<'_>, image: &Builder<'_>) -> Result<usize, AllocError>
    requires { IsEditedReady read.now image.now }
    ensures { IfOk result (λ count. count
        ≡ length (list_at texts_of_entries (written_entries read.now image.now))) }
{
    let staying = StayingNeeds::new(alloc, read, image)?;
    let texts = list_texts(alloc, image, &staying)?;
    Ok(texts.len())
}

// The records of all symbols, their names in these strings.
fn records_told(
    alloc: Global,
    read: &Builder<'_>,
    image: &Builder<'_>,
    made: &Made<'_>,
    renumbering: &Renumbering,
    section: &Section<'_>,
) -> Result<Vec<u8>, AllocError>
    requires ready { IsEditedReady read.now image.now }
    requires renumbering { IsRenumbering read.now image.now renumbering.now }
    requires at { IsSectionOfType SHT_DYNSYM image.now (section_model section.now) }
    requires told { IsTold read.now image.now made.now }
    requires linked { made.now.number ≡ section.now.sh_link }
    ensures { IfOk result (λ bytes. ShowsSymbols image.now.form made.now.table.bytes
        (final read.now image.now).dynamic_symbols bytes.items) }
{
    if made.is_copied {
        return told_records(alloc, read, image, made, renumbering, section);
    }
    let before = count_texts(alloc, read, image)?;
    ordered_records(alloc, read, image, made, renumbering, section, before)
}

// The record of the symbol at a position, with the name that it had at read: so all of them are there, in their order.
#[inline(always)]
fn record_as_named(
    read: &Builder<'_>,
    image: &Builder<'_>,
    renumbering: &Renumbering,
    section: &Section<'_>,
    i: usize,
) -> SymbolNumbers
    requires ready { IsEditedReady read.now image.now }
    requires renumbering { IsRenumbering read.now image.now renumbering.now }
    requires at { IsSectionOfType SHT_DYNSYM image.now (section_model section.now) }
    requires same { are_names_changed read.now image.now ≡ false }
    requires inside { i < length image.now.dynamic_symbols }
    ensures { IsRecordAt image.now.form (content_read image.now section.now.sh_link)
        (final read.now image.now).dynamic_symbols i result }
{
    record_staying(read, image, renumbering, section.content, i)
}

// The records of all symbols, which have the names that they had at read, where these stood.
fn records_as_named(
    alloc: Global,
    read: &Builder<'_>,
    image: &Builder<'_>,
    renumbering: &Renumbering,
    section: &Section<'_>,
) -> Result<Vec<u8>, AllocError>
    requires ready { IsEditedReady read.now image.now }
    requires renumbering { IsRenumbering read.now image.now renumbering.now }
    requires at { IsSectionOfType SHT_DYNSYM image.now (section_model section.now) }
    requires same { are_names_changed read.now image.now ≡ false }
    ensures { IfOk result (λ bytes. ShowsSymbols image.now.form
        (content_read image.now section.now.sh_link) (final read.now image.now).dynamic_symbols
        bytes.items) }
{
    let form = image.form();
    let mut bytes = Vec::with_capacity(alloc, section.content.len())?;
    for i in 0..image.dynamic_symbols().len() {
        let numbers = record_as_named(read, image, renumbering, section, i);
        push_symbol(&mut bytes, form, numbers)?;
    }
    Ok(bytes)
}

// The bytes of a section of which each symbol has the name that it had at read: as they were read, unless sections went.
fn content_as_named<'data>(
    alloc: Global,
    read: &Builder<'data>,
    image: &Builder<'data>,
    renumbering: &Renumbering,
    section: &Section<'data>,
) -> Result<ByteString<'data>, AllocError>
    requires ready { IsEditedReady read.now image.now }
    requires renumbering { IsRenumbering read.now image.now renumbering.now }
    requires at { IsSectionOfType SHT_DYNSYM image.now (section_model section.now) }
    requires same { are_names_changed read.now image.now ≡ false }
    ensures { IfOk result (λ content. ShowsSymbols image.now.form
        (content_read image.now section.now.sh_link) (final read.now image.now).dynamic_symbols
        content.bytes) }
{
    if are_sections_there(read, image) {
        return Ok(ByteString::borrowed(section.content));
    }
    let bytes = records_as_named(alloc, read, image, renumbering, section)?;
    Ok(ByteString::owned(bytes))
}

// The bytes of a section of symbols, whatever the names of these are.
fn symbols_content<'data>(
    alloc: Global,
    read: &Builder<'data>,
    image: &Builder<'data>,
    made: &[Made<'_>],
    renumbering: &Renumbering,
    section: &Section<'data>,
) -> Result<ByteString<'data>, AllocError>
    requires ready { IsEditedReady read.now image.now }
    requires strings { AreStrings read.now image.now made.now }
    requires renumbering { IsRenumbering read.now image.now renumbering.now }
    requires at { IsSectionOfType SHT_DYNSYM image.now (section_model section.now) }
    ensures { IfOk result (λ content. ShowsSymbols image.now.form
        (strings_at image.now made.now section.now.sh_link)
        (final read.now image.now).dynamic_symbols content.bytes) }
{
    match made_of(made, section.sh_link as usize) {
        None => content_as_named(alloc, read, image, renumbering, section),
        Some(table) => {
            let bytes = records_told(alloc, read, image, table, renumbering, section)?;
            Ok(ByteString::owned(bytes))
        }
    }
}

/// The bytes of a section of dynamic symbols (gABI, Symbol Table, `SHT_DYNSYM`): as they were read where no section went and the
/// strings of their names are as they were read. Else each record is spelled anew, in the order of the final symbols, its name
/// where the strings have it, its section by the number that this gets. Error: `AllocError`. Time grows with the number of symbols.
pub fn dynamic_symbols_content<'data>(
    alloc: Global,
    read: &Builder<'data>,
    image: &Builder<'data>,
    made: &[Made<'_>],
    renumbering: &Renumbering,
    section: &Section<'data>,
) -> Result<ByteString<'data>, AllocError>
    requires ready { IsEditedReady read.now image.now }
    requires strings { AreStrings read.now image.now made.now }
    requires renumbering { IsRenumbering read.now image.now renumbering.now }
    requires at { IsSectionOfType SHT_DYNSYM image.now (section_model section.now) }
    ensures sized { IfOk result (λ content. length content.bytes
        ≡ length image.now.dynamic_symbols * symbol_size image.now.form) }
    ensures symbols { IfOk result (λ content. AreSymbolsOf
        (strings_at image.now made.now section.now.sh_link)
        (final read.now image.now).dynamic_symbols
        (symbols_in image.now.form content.bytes)) }
{
    symbols_content(alloc, read, image, made, renumbering, section)
}
