//! The old places of what is written anew.
ghost use Rattle.std.specs.Prelude.{◌≡◌, ◌*◌, ◌++◌, ◌<◌, length, min, IfOk, OnOk};
ghost use Rattle.elf_format.specs.Ranges.{range};
ghost use Rattle.elf_format.specs.Records.{segment_header_size};
ghost use Rattle.elf_image.specs.Kept.{image_at_read, interpreter_number as number_of_interpreter, kept_sections};
ghost use Rattle.elf_layout_plan.specs.Plan.{resized};
ghost use Rattle.elf_write_contents.specs.Base.{old_places as places_rewritten};
ghost use Rattle.elf_write_contents.specs.Ready.{IsEditedReady};
ghost use Rattle.elf_write.specs.LayingSteps.{rewritten_places};

use crate::data::leaves_place;
use elf_format::range::Range;
use elf_image::Builder;
use std::alloc::{AllocError, Global};

// A position, or the end of so many bytes where it is past that.
pub(crate) fn within(position: u128, len: usize) -> usize
    ensures { result ≡ min position len }
{
    if position < len as u128 {
        position as usize
    } else {
        len
    }
}

// There are no more program headers than plain numbering has (gABI, ELF Header, e_phnum).
fn few_segments<'data>(read: &Builder<'data>, image: &Builder<'data>)
    requires { IsEditedReady read.now image.now }
    ensures { length read.now.segments < 65536 }
{}

// The bytes of the program header table, as it was read.
fn table_at_read(read: &Builder<'_>) -> Range
    requires { length read.now.segments < 65536 }
    ensures { result ≡ range read.now.header.e_phoff
        (length read.now.segments * segment_header_size read.now.form) }
{
    let count = read.segments().len() as u64;
    Range {
        start: read.header().e_phoff,
        size: count * read.form().segment_header_size() as u64,
    }
}

// Appends where the sections stood that are written anew and for which nobody looks there.
fn push_rewritten(
    places: &mut Vec<Range>,
    image: &Builder<'_>,
    interpreter: Option<usize>,
) -> Result<(), AllocError>
    requires { interpreter ≡ number_of_interpreter (image_at_read image.now) }
    ensures { OnOk result (places.new.items
        ≡ places.old.items ++ rewritten_places (resized image.now) (kept_sections image.now)) }
{
    // the image has as many numbers of sections as sections
    let _source = image.source();
    let sections = image.sections();
    for i in 0..sections.len() {
        let section = &sections[i];
        if leaves_place(image, section, image.read_section(i), interpreter) {
            places.push(Range {
                start: section.sh_offset,
                size: section.sh_size,
            })?;
        }
    }
    Ok(())
}

// The old places of what is written anew.
pub(crate) fn old_places<'data>(
    alloc: Global,
    read: &Builder<'data>,
    image: &Builder<'data>,
) -> Result<Vec<Range>, AllocError>
    requires { IsEditedReady read.now image.now }
    ensures { IfOk result (λ places. places.items
        ≡ places_rewritten (image_at_read image.now) image.now) }
{
    few_segments(read, image);
    let mut places = Vec::new(alloc);
    places.push(Range {
        start: 0,
        size: image.form().file_header_size() as u64,
    })?;
    places.push(table_at_read(read))?;
    push_rewritten(&mut places, image, read.interpreter_number())?;
    Ok(places)
}
