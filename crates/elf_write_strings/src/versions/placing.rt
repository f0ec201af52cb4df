ghost use Rattle.std.specs.Prelude.{IfOk};
ghost use Rattle.std.specs.List.{All};
ghost use Rattle.patch_bytes.specs.ByteString.{bytes_of_each};
ghost use Rattle.elf_tables.specs.Strings.{StandsAt};
ghost use Rattle.elf_write_strings.specs.VersionPlaces.{AreAt, AreDefinitionsAt, HasMore, Tells, TellsDefinition};

use elf_format::versions::RawDefinition;
use elf_image::VersionDef;
use elf_tables::Finished;
use patch_bytes::ByteString;
use std::alloc::AllocError;

// Places a text where it stands.
pub(crate) fn place_text<'t>(
    table: &mut Finished<'t>,
    text: &'t [u8],
    place: u32,
) -> Result<(), AllocError>
    requires { StandsAt table.old.bytes place text.now }
    ensures more { IfOk result (λ _. HasMore table.old table.new) }
    ensures told { IfOk result (λ _. Tells table.new text.entry.now) }
{
    if table.place(text, place)? {
        Ok(())
    } else {
        unreachable!()
    }
}

// Places texts where they stand.
fn place_texts<'t>(
    table: &mut Finished<'t>,
    texts: &'t [ByteString<'_>],
    places: &[u32],
) -> Result<(), AllocError>
    requires { AreAt table.old.bytes (bytes_of_each texts.now) places.now }
    ensures more { IfOk result (λ _. HasMore table.old table.new) }
    ensures told { IfOk result (λ _. All (Tells table.new) (bytes_of_each texts.entry.now)) }
{
    for (i, text) in texts.iter().enumerate() {
        place_text(table, text.as_slice(), places[i])?;
    }
    Ok(())
}

// Places the names of defined versions where their records say.
pub(crate) fn place_definitions<'t>(
    table: &mut Finished<'t>,
    definitions: &'t [VersionDef<'_>],
    records: &[RawDefinition],
) -> Result<(), AllocError>
    requires { AreDefinitionsAt table.old.bytes definitions.now records.now }
    ensures more { IfOk result (λ _. HasMore table.old table.new) }
    ensures told { IfOk result (λ _.
        All (TellsDefinition table.new) definitions.entry.now) }
{
    for (i, definition) in definitions.iter().enumerate() {
        let record = &records[i];
        place_texts(table, &definition.names, &record.names)?;
    }
    Ok(())
}
