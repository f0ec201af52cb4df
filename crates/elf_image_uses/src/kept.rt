//! The sections of an image with the numbers that they had at read.
ghost use Rattle.std.specs.Prelude.{◌≡◌, ◌<◌, Some, length, slice_get};
ghost use Rattle.elf_image.specs.ImageModel.{section_model};
ghost use Rattle.elf_image.specs.Kept.{kept_sections};
ghost use Rattle.elf_image_uses.specs.Staying.{table_number as number_of_table};
ghost use Rattle.elf_image_uses.specs.Steps.{kept_as};

use elf_image::{Builder, Section};

// How many sections there are.
pub(crate) fn kept_count(image: &Builder<'_>) -> usize
    ensures { result ≡ length (kept_sections image.now) }
{
    // the image has as many numbers of sections as sections
    let _source = image.source();
    image.sections().len()
}

// The section at a position.
fn section_at<'a, 'data>(image: &'a Builder<'data>, i: usize) -> &'a Section<'data>
    requires { i < length image.now.sections }
    ensures { slice_get image.now.sections i ≡ Some (section_model result.now) }
{
    &image.sections()[i]
}

// The section at a position, with its number.
pub(crate) fn kept_at<'a, 'data>(image: &'a Builder<'data>, i: usize) -> (usize, &'a Section<'data>)
    requires { i < length (kept_sections image.now) }
    ensures { slice_get (kept_sections image.now) i
        ≡ Some (kept_as i result.0 (section_model result.1.now)) }
{
    // the image has as many numbers of sections as sections
    let _source = image.source();
    let number = image.read_section(i);
    (number, section_at(image, i))
}

/// The number at read of the first section of a type (gABI, Sections, `sh_type`), as of the static symbols (`SHT_SYMTAB`);
/// `None` without one. Takes no memory.
pub fn table_number(image: &Builder<'_>, kind: u32) -> Option<usize>
    ensures { result ≡ number_of_table kind image.now }
{
    for i in 0..kept_count(image) {
        let (number, section) = kept_at(image, i);
        if section.sh_type == kind {
            return Some(number);
        }
    }
    None
}
