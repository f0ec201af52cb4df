//! Relocations against symbols that are renumbered (gABI, Relocation).
ghost use Rattle.std.specs.Prelude.{◌≡◌, ◌<◌, IfOk, IsTrue, Some, None, if◌then◌else◌, length, option_map};
ghost use Rattle.std.specs.List.{list_all, slice_get};
ghost use Rattle.elf_format.specs.declared.section_data.SectionData.TheVariants.{Relocation};
ghost use Rattle.elf_image.specs.ImageModel.{section_model};
ghost use Rattle.elf_image.specs.Kept.{kept_sections};
ghost use Rattle.elf_image.specs.Relocated.{is_against as is_section_against};
ghost use Rattle.elf_write_spec.specs.Plan.{resized};
ghost use Rattle.elf_write_spec.specs.Renumbered.{AreRenumbered};
ghost use Rattle.elf_write_spec.specs.Contents.{AreRelocationsOf};
ghost use Rattle.elf_write_spec.specs.Ready.{IsEditedReady, IsSectionOfType};
ghost use Rattle.elf_write_symbols.specs.Fits.{do_numbers_fit_in, do_section_relocations_fit, dynamic_numbers_for as dynamic_for, numbers_for as all_for, static_numbers_for as static_for};
ghost use Rattle.elf_write_symbols.specs.Steps.{kept};
ghost use Rattle.elf_write_symbols.specs.Renumbering.{AreStaticNumbersFor, IsRenumbering, IsReorderingFor};

use crate::numbers::NewNumbers;
use crate::renumbering::{Renumbering, Reordering};
use crate::sections::is_against;
use elf_image::{Builder, Section};
use elf_write_spec::{TableFault, do_relocations_fit, renumber_relocations};
use patch_bytes::ByteString;
use std::alloc::{AllocError, Global};

// The new numbers of the symbols of a table, where a section's relocations are against it.
fn numbers_against<'a>(numbers: &'a NewNumbers, section: &Section<'_>) -> Option<&'a [u32]>
    ensures { option_map (λ n. n.now) result
        ≡ (if is_section_against numbers.entry.now.table (section_model section.now)
        then Some numbers.entry.now.numbers.items else None) }
{
    if is_against(numbers.table, section) {
        Some(numbers.numbers.as_slice())
    } else {
        None
    }
}

// The new numbers of the dynamic symbols, where these are renumbered and a section's relocations
// are against them.
fn dynamic_numbers_for<'a>(
    read: &Builder<'_>,
    image: &Builder<'_>,
    dynamic: &'a Option<Reordering>,
    section: &Section<'_>,
) -> Option<&'a [u32]>
    requires { IsReorderingFor read.now image.now dynamic.now }
    ensures { option_map (λ n. n.now) result
        ≡ dynamic_for read.now image.now (section_model section.now) }
{
    match dynamic {
        Some(dynamic) => numbers_against(&dynamic.numbers, section),
        None => None,
    }
}

// The new numbers of the static symbols, where these are renumbered and a section's relocations are
// against them.
fn static_numbers_for<'a>(
    read: &Builder<'_>,
    image: &Builder<'_>,
    numbers: &'a Option<NewNumbers>,
    section: &Section<'_>,
) -> Option<&'a [u32]>
    requires { AreStaticNumbersFor read.now image.now numbers.now }
    ensures { option_map (λ n. n.now) result
        ≡ static_for read.now image.now (section_model section.now) }
{
    match numbers {
        Some(numbers) => numbers_against(numbers, section),
        None => None,
    }
}

// The new numbers of the symbols that a section's relocations name; `None` where they keep theirs.
fn numbers_for<'a>(
    read: &Builder<'_>,
    image: &Builder<'_>,
    renumbering: &'a Renumbering,
    section: &Section<'_>,
) -> Option<&'a [u32]>
    requires { IsRenumbering read.now image.now renumbering.now }
    ensures { option_map (λ n. n.now) result
        ≡ all_for read.now image.now (section_model section.now) }
{
    match dynamic_numbers_for(read, image, &renumbering.dynamic, section) {
        Some(numbers) => Some(numbers),
        None => static_numbers_for(read, image, &renumbering.static_numbers, section),
    }
}

// Whether the new numbers fit the relocations of a section.
fn does_section_fit(
    read: &Builder<'_>,
    image: &Builder<'_>,
    renumbering: &Renumbering,
    section: &Section<'_>,
) -> bool
    requires ready { IsEditedReady read.now image.now }
    requires renumbering { IsRenumbering read.now image.now renumbering.now }
    requires at { IsSectionOfType section.now.sh_type image.now (section_model section.now) }
    ensures { result ≡ do_numbers_fit_in read.now image.now (section_model section.now) }
{
    match numbers_for(read, image, renumbering, section) {
        Some(numbers) => do_relocations_fit(
            image.form(),
            section.sh_type,
            section.content,
            numbers,
        ),
        None => true,
    }
}

// How many sections there are.
fn section_count(read: &Builder<'_>, image: &Builder<'_>) -> usize
    requires { IsEditedReady read.now image.now }
    ensures kept { result ≡ length (kept_sections image.now) }
    ensures sections { result ≡ length image.now.sections }
{
    image.sections().len()
}

// The section at a position.
fn section_at<'a, 'data>(
    read: &Builder<'_>,
    image: &'a Builder<'data>,
    i: usize,
) -> &'a Section<'data>
    requires ready { IsEditedReady read.now image.now }
    requires inside { i < length image.now.sections }
    ensures at { IsSectionOfType result.now.sh_type image.now (section_model result.now) }
    ensures kept { slice_get (kept_sections image.now) i
        ≡ Some (kept image.now i (section_model result.now)) }
{
    &image.sections()[i]
}

/// Whether the new number of each symbol that a relocation names fits its field (gABI, Relocation, `r_info`): 24 bits in
/// 32-bit files. Takes no memory.
pub fn do_relocations_fit_in(
    read: &Builder<'_>,
    image: &Builder<'_>,
    renumbering: &Renumbering,
) -> bool
    requires ready { IsEditedReady read.now image.now }
    requires renumbering { IsRenumbering read.now image.now renumbering.now }
    ensures { result ≡ list_all (do_section_relocations_fit read.now image.now)
        (kept_sections image.now) }
{
    for i in 0..section_count(read, image) {
        let section = section_at(read, image, i);
        if !does_section_fit(read, image, renumbering, section) {
            return false;
        }
    }
    true
}

// The relocations of a section with the new numbers of the symbols that they name.
fn relocations_anew(
    alloc: Global,
    read: &Builder<'_>,
    image: &Builder<'_>,
    section: &Section<'_>,
    numbers: &[u32],
) -> Result<Vec<u8>, AllocError>
    requires ready { IsEditedReady read.now image.now }
    requires at { IsSectionOfType section.now.sh_type image.now (section_model section.now) }
    requires numbers { all_for read.now image.now (section_model section.now)
        ≡ Some numbers.now }
    requires fit { IsTrue (do_numbers_fit_in read.now image.now (section_model section.now)) }
    ensures { IfOk result (λ bytes. AreRenumbered image.now.form section.now.sh_type
        numbers.now section.now.content.now bytes.items) }
{
    match renumber_relocations(
        alloc,
        image.form(),
        section.sh_type,
        section.content,
        numbers,
    ) {
        Ok(bytes) => Ok(bytes),
        Err(TableFault::Memory) => Err(AllocError),
        Err(TableFault::NumberTooLarge) => unreachable!(),
    }
}

/// The bytes of a section of relocations (gABI, Relocation, `r_info`): where they are against symbols that are renumbered, each
/// names its symbol by the new number; else they are as they were read. Error: `AllocError`.
pub fn relocations_content<'data>(
    alloc: Global,
    read: &Builder<'data>,
    image: &Builder<'data>,
    renumbering: &Renumbering,
    section: &Section<'data>,
) -> Result<ByteString<'data>, AllocError>
    requires ready { IsEditedReady read.now image.now }
    requires renumbering { IsRenumbering read.now image.now renumbering.now }
    requires at { IsSectionOfType section.now.sh_type image.now (section_model section.now) }
    requires kind { section.now.kind ≡ Relocation }
    requires fit { IsTrue (do_numbers_fit_in read.now image.now (section_model section.now)) }
    ensures sized { IfOk result (λ content. length content.bytes ≡ section.now.sh_size) }
    ensures relocations { IfOk result (λ content.
        AreRelocationsOf (resized image.now) (section_model section.now) content.bytes) }
{
    let Some(numbers) = numbers_for(read, image, renumbering, section) else {
        return Ok(ByteString::borrowed(section.content));
    };
    let bytes = relocations_anew(alloc, read, image, section, numbers)?;
    Ok(ByteString::owned(bytes))
}
