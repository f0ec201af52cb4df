//! Sections of an image by their types.
ghost use Rattle.std.specs.Prelude.{◌≡◌, ◌==◌, find, map, option_map};
ghost use Rattle.elf_image.specs.ImageModel.{section_model};
ghost use Rattle.elf_image.specs.Kept.{kept_of_type};
ghost use Rattle.elf_image.specs.Relocated.{is_against as is_section_against};
ghost use Rattle.elf_image.specs.Staying.{table_number as number_of_table};

use elf_format::SectionData;
use elf_image::{Builder, Section};
use elf_write_spec::is_numbered;

// The first section of a type.
fn find_type<'a, 'data>(sections: &'a [Section<'data>], kind: u32) -> Option<&'a Section<'data>>
    ensures { option_map (λ s. section_model s.now) result
        ≡ find (λ s. s.sh_type == kind) (map section_model sections.now) }
{
    sections.iter().find(|section| section.sh_type == kind)
}

// The first section of a type of an image.
pub(crate) fn first_of_type<'a, 'data>(
    image: &'a Builder<'data>,
    kind: u32,
) -> Option<&'a Section<'data>>
    ensures { option_map (λ s. section_model s.now) result
        ≡ option_map (λ k. k.section) (kept_of_type kind image.now) }
{
    // the image has as many numbers of sections as sections
    let _source = image.source();
    find_type(image.sections(), kind)
}

// The number at read of the first section of a type.
pub(crate) fn table_number(image: &Builder<'_>, kind: u32) -> Option<usize>
    ensures { result ≡ number_of_table kind image.now }
{
    // the image has as many numbers of sections as sections
    let _source = image.source();
    let position = image.type_position(kind)?;
    Some(image.read_section(position))
}

// Whether the relocations of a section are against the table of symbols with that number.
pub(crate) fn is_against(table: Option<usize>, section: &Section<'_>) -> bool
    ensures { result ≡ is_section_against table (section_model section.now) }
{
    let are_relocations = matches!(section.kind, SectionData::Relocation);
    are_relocations && is_numbered(table, section.sh_link as usize)
}
