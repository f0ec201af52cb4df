ghost use Rattle.std.specs.Prelude.{◌≡◌, Ok, IfOk, false, length, map};
ghost use Rattle.std.specs.List.{list_any};
ghost use Rattle.elf_format.specs.Rules.{accepted_parts};
ghost use Rattle.elf_image.specs.Edited.{IsEdited};
ghost use Rattle.elf_layout_plan.specs.Sizes.{definitions_size, needs_size};
ghost use Rattle.elf_image_rules.specs.Read.{parts_model};
ghost use Rattle.elf_tables.specs.Strings.{PlacesStand};
ghost use Rattle.elf_tables.specs.VersionRecords.{are_names_too_many, are_versions_too_many};
ghost use Rattle.elf_image.specs.ImageModel.{needs_model};
ghost use Rattle.elf_layout_plan.specs.Needs.{written_needs};
ghost use Rattle.elf_layout_plan.specs.Plan.{resized};
ghost use Rattle.elf_layout_plan.specs.Texts.{texts_of_definitions, texts_of_needs};
ghost use Rattle.elf_write_spec.specs.Contents.{AreDefinitionsIn, AreNeedsIn};
ghost use Rattle.elf_write_spec.specs.Ready.{IsEditedReady};
ghost use Rattle.elf_write_strings.specs.PlacedTexts.{TellsAll};
ghost use Rattle.elf_write_strings.specs.VersionPlaces.{content_in};

use elf_image::{Builder, ElfFault, VersionNeed};
use elf_image_rules::headers::{Headers, read_headers};
use elf_tables::{Finished, TableFault, build_verdef, build_verneed};
use std::alloc::{AllocError, Global};

// The fault of a file that was accepted when it was read: memory ran out.
fn out_of_memory(fault: ElfFault) -> AllocError
    requires { fault ≡ ElfFault.Memory }
{
    match fault {
        ElfFault::Memory => AllocError,
        _ => unreachable!(),
    }
}

// The header tables of the file that an image was read from.
pub(crate) fn headers_of<'data>(
    alloc: Global,
    read: &Builder<'data>,
) -> Result<Headers<'data>, AllocError>
    ensures { IfOk result (λ h. accepted_parts read.now.source ≡ Ok (parts_model h)) }
{
    match read_headers(alloc, read.source()) {
        Ok(headers) => Ok(headers),
        Err(fault) => Err(out_of_memory(fault)),
    }
}

// The bytes of the section at a position, none without it.
pub(crate) fn content_of<'data>(image: &Builder<'data>, position: usize) -> &'data [u8]
    ensures { result.now ≡ content_in image.now.sections position }
{
    match image.sections().get(position) {
        Some(section) => section.content,
        None => &[],
    }
}

// No defined version has more names than 16 bits can count: each was read with a count of 16 bits.
fn count_names(image: &Builder<'_>, source: &[u8])
    requires source { source.now ≡ image.now.source }
    requires edited { IsEdited image.now }
    ensures { list_any are_names_too_many image.now.definitions ≡ false }
{}

// The records of the defined versions, by a table of their names.
pub(crate) fn definition_records(
    alloc: Global,
    image: &Builder<'_>,
    names: &Finished<'_>,
) -> Result<Vec<u8>, AllocError>
    requires told { TellsAll names.now (texts_of_definitions image.now.definitions) }
    requires stand { PlacesStand names.now }
    ensures sized { IfOk result (λ bytes. length bytes.items
        ≡ definitions_size image.now.definitions) }
    ensures versions { IfOk result (λ bytes.
        AreDefinitionsIn image.now names.now.bytes bytes.items) }
{
    count_names(image, image.source());
    match build_verdef(alloc, &image.versions().definitions, names, image.order()) {
        Ok(bytes) => Ok(bytes),
        Err(TableFault::Memory) => Err(AllocError),
        Err(TableFault::NumberTooLarge) => unreachable!(),
    }
}

// No library has more of the needed versions that stay than 16 bits can count: each was read with a count of 16 bits.
fn count_versions(read: &Builder<'_>, image: &Builder<'_>, source: &[u8])
    requires ready { IsEditedReady read.now image.now }
    requires source { source.now ≡ image.now.source }
    ensures { list_any are_versions_too_many (written_needs read.now image.now) ≡ false }
{}

// The records of the needed versions that stay, by a table of their texts.
pub(crate) fn need_records<'data>(
    alloc: Global,
    read: &Builder<'data>,
    image: &Builder<'data>,
    needs: &[VersionNeed<'_>],
    names: &Finished<'_>,
) -> Result<Vec<u8>, AllocError>
    requires ready { IsEditedReady read.now image.now }
    requires needs { map needs_model needs.now ≡ written_needs read.now image.now }
    requires told { TellsAll names.now (texts_of_needs (written_needs read.now image.now)) }
    requires stand { PlacesStand names.now }
    ensures sized { IfOk result (λ bytes. length bytes.items
        ≡ needs_size (written_needs read.now image.now)) }
    ensures versions { IfOk result (λ bytes.
        AreNeedsIn (resized image.now) names.now.bytes bytes.items) }
{
    count_versions(read, image, image.source());
    match build_verneed(alloc, needs, names, image.order()) {
        Ok(bytes) => Ok(bytes),
        Err(TableFault::Memory) => Err(AllocError),
        Err(TableFault::NumberTooLarge) => unreachable!(),
    }
}
