//! What is written by calls that are handed a plan.
ghost use Rattle.std.specs.Prelude.{◌≡◌, IsTrue};
ghost use Rattle.elf_image.specs.Kept.{image_at_read};
ghost use Rattle.elf_layout_plan.specs.Plan.{IsPlan, resized};
ghost use Rattle.elf_layout_plan.specs.Refusals.{do_sizes_of_image_fit};

use crate::written::makes;
use arwen_elf::elf::ElfContainer;
use arwen_elf::{LayoutFault, Plan, image_bytes, image_pieces, image_pieces_from_read, lay_out};
use elf_image::Builder;
use elf_layout_plan::read_source;
use std::alloc::Global;
use std::io;

/// Prints whether the calls that are handed a plan make these bytes of a file that was edited.
pub(crate) fn print_planned(
    rt: &HostRuntime,
    file: &ElfContainer<'_>,
    new: &[u8],
) -> io::Result<()> {
    if !file.inner.builder().changed() {
        return Ok(());
    }
    println!(rt; "planned {:?}", planned_again(rt.alloc(), file, new))
}

/// Whether each call makes these bytes, tried again where memory was refused.
fn planned_again(
    alloc: Global,
    file: &ElfContainer<'_>,
    new: &[u8],
) -> Result<[bool; 3], LayoutFault> {
    match planned(alloc, file, new) {
        Err(LayoutFault::Memory) => planned(alloc, file, new),
        answer => answer,
    }
}

/// Whether each call makes these bytes.
fn planned(alloc: Global, file: &ElfContainer<'_>, new: &[u8]) -> Result<[bool; 3], LayoutFault> {
    let image = file.inner.builder();
    let plan = lay_out(alloc, image)?;
    made_by(alloc, image, &plan, new)
}

/// Whether each call makes these bytes by a plan.
fn made_by(
    alloc: Global,
    image: &Builder<'_>,
    plan: &Plan,
    new: &[u8],
) -> Result<[bool; 3], LayoutFault>
    requires planned { IsPlan (resized image.now) plan.now }
    requires sized { IsTrue (do_sizes_of_image_fit image.now) }
{
    Ok([
        do_bytes_agree(alloc, image, plan, new)?,
        do_pieces_agree(alloc, image, plan, new)?,
        do_pieces_of_read_agree(alloc, image, plan, new)?,
    ])
}

/// Whether the bytes that are made by a plan are these.
fn do_bytes_agree(
    alloc: Global,
    image: &Builder<'_>,
    plan: &Plan,
    new: &[u8],
) -> Result<bool, LayoutFault>
    requires planned { IsPlan (resized image.now) plan.now }
    requires sized { IsTrue (do_sizes_of_image_fit image.now) }
{
    let bytes = image_bytes(alloc, image, plan)?;
    Ok(bytes.as_slice() == new)
}

/// Whether the pieces by a plan make these bytes.
fn do_pieces_agree(
    alloc: Global,
    image: &Builder<'_>,
    plan: &Plan,
    new: &[u8],
) -> Result<bool, LayoutFault>
    requires planned { IsPlan (resized image.now) plan.now }
    requires sized { IsTrue (do_sizes_of_image_fit image.now) }
{
    let difference = image_pieces(alloc, image, plan)?;
    Ok(makes(alloc, image.source(), &difference, new)?)
}

/// Whether the pieces by a plan make these bytes, with the image as its source was read.
fn do_pieces_of_read_agree(
    alloc: Global,
    image: &Builder<'_>,
    plan: &Plan,
    new: &[u8],
) -> Result<bool, LayoutFault>
    requires planned { IsPlan (resized image.now) plan.now }
    requires sized { IsTrue (do_sizes_of_image_fit image.now) }
{
    let read = read_source(alloc, image)?;
    do_pieces_from_read_agree(alloc, &read, image, plan, new)
}

/// Whether the pieces by a plan make these bytes, with the image as its source was read, which is
/// lent.
fn do_pieces_from_read_agree<'d>(
    alloc: Global,
    read: &Builder<'d>,
    image: &Builder<'d>,
    plan: &Plan,
    new: &[u8],
) -> Result<bool, LayoutFault>
    requires read { read.now ≡ image_at_read image.now }
    requires planned { IsPlan (resized image.now) plan.now }
    requires sized { IsTrue (do_sizes_of_image_fit image.now) }
{
    let difference = image_pieces_from_read(alloc, read, image, plan)?;
    Ok(makes(alloc, image.source(), &difference, new)?)
}
