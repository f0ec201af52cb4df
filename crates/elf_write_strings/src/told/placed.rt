ghost use Rattle.std.specs.Prelude.{◌≤◌, ◌^◌, IfOk, length, map};
ghost use Rattle.elf_image.specs.ImageModel.{entry_model, section_model};
ghost use Rattle.elf_image_symbols.specs.Loan.{symbols_now};
ghost use Rattle.elf_layout_plan.specs.Texts.{texts_of_entries, texts_of_symbols};
ghost use Rattle.elf_write_strings.specs.PlacedTexts.{names_of_sections, AreSectionsAt, AreSymbolsAt, EntriesStand, EntryStands, TellsAll, TellsEntry};
ghost use Rattle.elf_write_strings.specs.VersionPlaces.{HasMore};

use crate::versions::place_text;
use elf_format::records::{EntryNumbers, SectionHeader, SymbolNumbers};
use elf_image::{Dynamic, Section};
use elf_image_symbols::SymbolsNow;
use elf_tables::Finished;
use std::alloc::AllocError;

// Places the text of an entry, where it has one.
fn place_entry<'t>(
    table: &mut Finished<'t>,
    entry: &'t Dynamic<'_>,
    value: u64,
) -> Result<(), AllocError>
    requires stands { EntryStands table.old.bytes (entry_model entry.now) value }
    requires short { length table.old.bytes ≤ 2 ^ 32 }
    ensures more { IfOk result (λ _. HasMore table.old table.new) }
    ensures told { IfOk result (λ _. TellsEntry table.new (entry_model entry.entry.now)) }
{
    match entry {
        Dynamic::Text { val, .. } => place_text(table, val.as_slice(), value as u32),
        _ => Ok(()),
    }
}

// Places the texts of entries where their numbers say.
pub(super) fn place_entries<'t>(
    table: &mut Finished<'t>,
    entries: &'t [Dynamic<'_>],
    numbers: &[EntryNumbers],
) -> Result<(), AllocError>
    requires stand { EntriesStand table.old.bytes (map entry_model entries.now) numbers.now }
    requires short { length table.old.bytes ≤ 2 ^ 32 }
    ensures more { IfOk result (λ _. HasMore table.old table.new) }
    ensures told { IfOk result (λ _. TellsAll table.new
        (texts_of_entries (map entry_model entries.entry.now))) }
{
    for (i, entry) in entries.iter().enumerate() {
        place_entry(table, entry, numbers[i].d_value)?;
    }
    Ok(())
}

// Places the names of symbols where their records say.
pub(super) fn place_symbols<'t>(
    table: &mut Finished<'t>,
    symbols: SymbolsNow<'t>,
    records: &[SymbolNumbers],
) -> Result<(), AllocError>
    requires { AreSymbolsAt table.old.bytes (symbols_now symbols) records.now }
    ensures more { IfOk result (λ _. HasMore table.old table.new) }
    ensures told { IfOk result (λ _. TellsAll table.new
        (texts_of_symbols (symbols_now symbols.entry))) }
{
    for i in 0..symbols.len() {
        place_text(table, symbols.name(i), records[i].st_name)?;
    }
    Ok(())
}

// Places the names of sections where their headers say.
pub(super) fn place_sections<'t>(
    table: &mut Finished<'t>,
    sections: &'t [Section<'_>],
    headers: &[SectionHeader],
) -> Result<(), AllocError>
    requires { AreSectionsAt table.old.bytes (map section_model sections.now) headers.now }
    ensures more { IfOk result (λ _. HasMore table.old table.new) }
    ensures told { IfOk result (λ _. TellsAll table.new
        (names_of_sections (map section_model sections.entry.now))) }
{
    for (i, section) in sections.iter().enumerate() {
        place_text(table, section.name.as_slice(), headers[i].sh_name)?;
    }
    Ok(())
}
