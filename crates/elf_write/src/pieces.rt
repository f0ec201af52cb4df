//! The headers, tables and contents of a written file, as pieces at their places.
ghost use Rattle.std.specs.Prelude.{◌≡◌, ◌++◌, length, IfOk, OnOk};
ghost use Rattle.patch_bytes.specs.ByteString.{bytes_of_each};
ghost use Rattle.byte_store.specs.Laid.{patches_of};
ghost use Rattle.elf_format.specs.Places.{occupies_file as does_occupy_file};
ghost use Rattle.elf_image.specs.Kept.{image_at_read, interpreter_number as number_of_interpreter, kept_sections};
ghost use Rattle.elf_layout_plan.specs.Plan.{resized};
ghost use Rattle.elf_layout_plan.specs.PlanModel.{place_model};
ghost use Rattle.elf_write_contents.specs.Output.{patches_of_sections};
ghost use Rattle.elf_write.specs.LayingSteps.{content_patches, header_patches};

use crate::data::is_data;
use crate::spelled::SpelledHeaders;
use byte_store::Piece;
use elf_format::constants::{SHT_NOBITS, SHT_NULL};
use elf_image::Builder;
use elf_layout_plan::{Plan, SectionPlace};
use patch_bytes::ByteString;
use std::alloc::{AllocError, Global};

// The file header and the two header tables, where the plan has them.
fn header_pieces<'s>(
    alloc: Global,
    plan: &Plan,
    spelled: &'s SpelledHeaders,
) -> Result<Vec<Piece<'s>>, AllocError>
    ensures { IfOk result (λ pieces.
        patches_of pieces.items ≡ header_patches plan.now spelled.entry.now) }
{
    let mut pieces = Vec::new(alloc);
    pieces.push(Piece {
        offset: 0,
        bytes: &spelled.file,
    })?;
    pieces.push(Piece {
        offset: plan.e_phoff(),
        bytes: &spelled.segments,
    })?;
    pieces.push(Piece {
        offset: plan.e_shoff(),
        bytes: &spelled.sections,
    })?;
    Ok(pieces)
}

// Whether a place takes bytes of the file (gABI, Sections, SHT_NULL and SHT_NOBITS don't).
fn occupies_file(place: SectionPlace) -> bool
    ensures { result ≡ does_occupy_file (place_model place) }
{
    place.sh_type != SHT_NULL && place.sh_type != SHT_NOBITS
}

// Appends the bytes of a section at its place, where it has one in the file and isn't data.
fn push_content<'s>(
    pieces: &mut Vec<Piece<'s>>,
    place: SectionPlace,
    is_data: bool,
    content: &'s [u8],
) -> Result<(), AllocError>
    ensures { OnOk result (patches_of pieces.new.items ≡ patches_of pieces.old.items
        ++ content_patches (place_model place) is_data content.entry.now) }
{
    if occupies_file(place) && !is_data {
        pieces.push(Piece {
            offset: place.sh_offset,
            bytes: content,
        })?;
    }
    Ok(())
}

// Appends the bytes of each section at its place, but of those that stay.
fn push_contents<'s>(
    pieces: &mut Vec<Piece<'s>>,
    image: &Builder<'_>,
    plan: &Plan,
    contents: &'s [ByteString<'_>],
    interpreter: Option<usize>,
) -> Result<(), AllocError>
    requires interpreter { interpreter ≡ number_of_interpreter (image_at_read image.now) }
    requires places { length plan.now.places ≡ length image.now.sections }
    requires contents { length contents.now ≡ length image.now.sections }
    ensures { OnOk result (patches_of pieces.new.items ≡ patches_of pieces.old.items
        ++ patches_of_sections (resized image.now) (kept_sections image.now)
        plan.now.places (bytes_of_each contents.entry.now)) }
{
    // the image has as many numbers of sections as sections
    let _source = image.source();
    let sections = image.sections();
    let places = plan.places();
    for i in 0..sections.len() {
        let stays = is_data(&sections[i], image.read_section(i), interpreter);
        push_content(pieces, places[i], stays, contents[i].as_slice())?;
    }
    Ok(())
}

// Headers, tables and contents, each where the plan has it.
pub(crate) fn pieces<'s>(
    alloc: Global,
    image: &Builder<'_>,
    plan: &Plan,
    spelled: &'s SpelledHeaders,
    contents: &'s [ByteString<'_>],
    interpreter: Option<usize>,
) -> Result<Vec<Piece<'s>>, AllocError>
    requires interpreter { interpreter ≡ number_of_interpreter (image_at_read image.now) }
    requires places { length plan.now.places ≡ length image.now.sections }
    requires contents { length contents.now ≡ length image.now.sections }
    ensures { IfOk result (λ pieces. patches_of pieces.items
        ≡ header_patches plan.now spelled.entry.now ++ patches_of_sections (resized image.now)
        (kept_sections image.now) plan.now.places (bytes_of_each contents.entry.now)) }
{
    let mut pieces = header_pieces(alloc, plan, spelled)?;
    push_contents(&mut pieces, image, plan, contents, interpreter)?;
    Ok(pieces)
}
