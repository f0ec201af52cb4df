//! The bytes of version tables (GNU symbol versioning).
ghost use Rattle.std.specs.Prelude.{◌≡◌, IfOk, Some, length};
ghost use Rattle.elf_format.specs.declared.constants.TheConstants.{SHT_GNU_VERDEF, SHT_GNU_VERNEED};
ghost use Rattle.elf_image.specs.ImageModel.{section_model};
ghost use Rattle.elf_image.specs.Kept.{link_of_type};
ghost use Rattle.elf_layout_plan.specs.Plan.{resized};
ghost use Rattle.elf_layout_plan.specs.Needs.{written_needs};
ghost use Rattle.elf_layout_plan.specs.Sizes.{definitions_size, needs_size};
ghost use Rattle.elf_layout_plan.specs.Texts.{texts_of_definitions, texts_of_needs};
ghost use Rattle.elf_tables.specs.Strings.{PlacesStand};
ghost use Rattle.elf_write_spec.specs.Contents.{AreDefinitionsIn, AreNeedsIn};
ghost use Rattle.elf_write_spec.specs.Ready.{IsEditedReady, IsSectionOfType};
ghost use Rattle.elf_write_strings.specs.WrittenStrings.{AreStrings, strings_at};
ghost use Rattle.elf_write_strings.specs.PlacedTexts.{IsUnedited, TellsAll};
ghost use Rattle.elf_write_strings.specs.VersionPlaces.{HasMore, content_in};

mod needing;
mod placing;
mod records;
mod staying;

use crate::made::{Made, made_of};
use crate::versions::needing::place_needs;
use crate::versions::placing::place_definitions;
pub(crate) use crate::versions::placing::place_text;
pub(crate) use crate::versions::records::{content_of, headers_of};
use crate::versions::records::{definition_records, need_records};
use crate::versions::staying::written_needs_of;
use elf_image::{Builder, Section};
use elf_image_versions::walks::{walk_definitions, walk_needs};
use elf_tables::Finished;
use std::alloc::{AllocError, Global};

// Places the names of the defined versions where their records say.
pub(crate) fn place_read_definitions<'t>(
    alloc: Global,
    read: &'t Builder<'_>,
    number: usize,
    table: &mut Finished<'t>,
) -> Result<(), AllocError>
    requires unedited { IsUnedited read.now }
    requires linked { link_of_type SHT_GNU_VERDEF read.now ≡ Some number }
    requires bytes { table.old.bytes ≡ content_in read.now.sections number }
    ensures more { IfOk result (λ _. HasMore table.old table.new) }
    ensures told { IfOk result (λ _.
        TellsAll table.new (texts_of_definitions read.entry.now.definitions)) }
{
    let headers = headers_of(alloc, read)?;
    let walk = walk_definitions(alloc, &headers)?;
    place_definitions(table, &read.versions().definitions, &walk.values)
}

// Places the texts of the needed versions where their records say.
pub(crate) fn place_read_needs<'t>(
    alloc: Global,
    read: &'t Builder<'_>,
    number: usize,
    table: &mut Finished<'t>,
) -> Result<(), AllocError>
    requires unedited { IsUnedited read.now }
    requires linked { link_of_type SHT_GNU_VERNEED read.now ≡ Some number }
    requires bytes { table.old.bytes ≡ content_in read.now.sections number }
    ensures more { IfOk result (λ _. HasMore table.old table.new) }
    ensures told { IfOk result (λ _. TellsAll table.new (texts_of_needs read.entry.now.needs)) }
{
    let headers = headers_of(alloc, read)?;
    let walk = walk_needs(alloc, &headers)?;
    place_needs(table, &read.versions().needs, &walk.values)
}

// A copy of the string table with that number, in which the names of the defined versions stand: it tells where.
fn names_of_definitions<'t>(
    alloc: Global,
    read: &'t Builder<'_>,
    number: usize,
) -> Result<Finished<'t>, AllocError>
    requires unedited { IsUnedited read.now }
    requires linked { link_of_type SHT_GNU_VERDEF read.now ≡ Some number }
    ensures bytes { IfOk result (λ table.
        table.bytes ≡ content_in read.entry.now.sections number) }
    ensures stand { IfOk result PlacesStand }
    ensures told { IfOk result (λ table.
        TellsAll table (texts_of_definitions read.entry.now.definitions)) }
{
    let content = content_of(read, number);
    let mut table = Finished::copied(Vec::from_slice(alloc, content)?, alloc);
    place_read_definitions(alloc, read, number, &mut table)?;
    Ok(table)
}

// A copy of the string table with that number, in which the texts of the needed versions stand: it
// tells where.
fn names_of_needs<'t>(
    alloc: Global,
    read: &'t Builder<'_>,
    number: usize,
) -> Result<Finished<'t>, AllocError>
    requires unedited { IsUnedited read.now }
    requires linked { link_of_type SHT_GNU_VERNEED read.now ≡ Some number }
    ensures bytes { IfOk result (λ table.
        table.bytes ≡ content_in read.entry.now.sections number) }
    ensures stand { IfOk result PlacesStand }
    ensures told { IfOk result (λ table.
        TellsAll table (texts_of_needs read.entry.now.needs)) }
{
    let content = content_of(read, number);
    let mut table = Finished::copied(Vec::from_slice(alloc, content)?, alloc);
    place_read_needs(alloc, read, number, &mut table)?;
    Ok(table)
}

/// The bytes of a section of defined versions. Error: `AllocError`.
pub fn definitions_content<'data>(
    alloc: Global,
    read: &Builder<'data>,
    image: &Builder<'data>,
    made: &[Made<'_>],
    section: &Section<'data>,
) -> Result<Vec<u8>, AllocError>
    requires ready { IsEditedReady read.now image.now }
    requires strings { AreStrings read.now image.now made.now }
    requires at { IsSectionOfType SHT_GNU_VERDEF image.now (section_model section.now) }
    ensures sized { IfOk result (λ bytes. length bytes.items
        ≡ definitions_size image.now.definitions) }
    ensures versions { IfOk result (λ bytes. AreDefinitionsIn image.now
        (strings_at image.now made.now section.now.sh_link) bytes.items) }
{
    if let Some(made) = made_of(made, section.sh_link as usize) {
        return definition_records(alloc, image, &made.table);
    }
    let table = names_of_definitions(alloc, read, section.sh_link as usize)?;
    definition_records(alloc, image, &table)
}

/// The bytes of a section of needed versions: of those that stay. Error: `AllocError`.
pub fn needs_content<'data>(
    alloc: Global,
    read: &Builder<'data>,
    image: &Builder<'data>,
    made: &[Made<'_>],
    section: &Section<'data>,
) -> Result<Vec<u8>, AllocError>
    requires ready { IsEditedReady read.now image.now }
    requires strings { AreStrings read.now image.now made.now }
    requires at { IsSectionOfType SHT_GNU_VERNEED image.now (section_model section.now) }
    ensures sized { IfOk result (λ bytes. length bytes.items
        ≡ needs_size (written_needs read.now image.now)) }
    ensures versions { IfOk result (λ bytes. AreNeedsIn (resized image.now)
        (strings_at image.now made.now section.now.sh_link) bytes.items) }
{
    let needs = written_needs_of(alloc, read, image)?;
    if let Some(made) = made_of(made, section.sh_link as usize) {
        return need_records(alloc, read, image, &needs, &made.table);
    }
    let table = names_of_needs(alloc, read, section.sh_link as usize)?;
    need_records(alloc, read, image, &needs, &table)
}
