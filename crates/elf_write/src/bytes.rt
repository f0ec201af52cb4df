//! The bytes of an edited ELF file: what differs from its source, laid over that.
ghost use Rattle.std.specs.Prelude.{◌≡◌, ◌++◌, length, All, IfErr, IfOk, IsTrue};
ghost use Rattle.byte_store.specs.Composed.{IsDifference, made_of, owned_patches};
ghost use Rattle.byte_store.specs.Laid.{LiesIn, laid};
ghost use Rattle.elf_layout_plan.specs.Plan.{IsPlan, resized};
ghost use Rattle.elf_layout_plan.specs.Refusals.{do_sizes_of_image_fit};
ghost use Rattle.elf_write_contents.specs.WrittenFile.{IsWrittenByPlan, IsWrittenOf};
ghost use Rattle.elf_write.specs.Refused.{AreNoBytes};

use crate::difference::image_pieces;
use byte_store::{Difference, OwnedPiece, put};
use elf_image::Builder;
use elf_layout_plan::{LayoutFault, Plan};
use std::alloc::{AllocError, Global};

// Writes pieces over bytes.
fn lay(bytes: &mut [u8], pieces: &[OwnedPiece])
    requires { All (LiesIn (length bytes.old)) (owned_patches pieces.now) }
    ensures { bytes.new ≡ laid (owned_patches pieces.now) bytes.old }
{
    for piece in pieces {
        put(bytes, piece.offset as usize, piece.bytes.as_slice());
    }
}

// The bytes of a source, and what comes behind them.
fn grown(alloc: Global, source: &[u8], growth: &[u8]) -> Result<Vec<u8>, AllocError>
    ensures { IfOk result (λ bytes. bytes.items ≡ source.now ++ growth.now) }
{
    let Some(size) = source.len().checked_add(growth.len()) else {
        // no memory has so many bytes
        return Err(AllocError);
    };
    let mut bytes = Vec::with_capacity(alloc, size)?;
    bytes.extend_from_slice(source)?;
    bytes.extend_from_slice(growth)?;
    Ok(bytes)
}

/// The bytes that a difference makes of those of its source. Costs what they weigh. Error: `AllocError`.
pub fn made_bytes(
    alloc: Global,
    source: &[u8],
    difference: &Difference,
) -> Result<Vec<u8>, AllocError>
    requires { IsDifference source.now difference.now }
    ensures { IfOk result (λ bytes. bytes.items ≡ made_of source.now difference.now) }
{
    let mut bytes = grown(alloc, source, difference.growth.as_slice())?;
    lay(&mut bytes, difference.pieces.as_slice());
    bytes.truncate(difference.new_length);
    Ok(bytes)
}

/// The bytes of the file to which an edited image is written by a plan. `Overlap` where the file header and
/// the program header table share a byte; `NumberTooLarge` where a number is past its field. The image's source is read once more.
pub fn image_bytes(alloc: Global, image: &Builder<'_>, plan: &Plan) -> Result<Vec<u8>, LayoutFault>
    requires planned { IsPlan (resized image.now) plan.now }
    requires sized { IsTrue (do_sizes_of_image_fit image.now) }
    ensures written { IfOk result (λ bytes. IsWrittenOf image.now bytes.items) }
    ensures by_plan { IfOk result (λ bytes. IsWrittenByPlan image.now plan.now bytes.items) }
    ensures fault { IfErr result (AreNoBytes image.now plan.now) }
{
    let difference = image_pieces(alloc, image, plan)?;
    Ok(made_bytes(alloc, image.source(), &difference)?)
}
