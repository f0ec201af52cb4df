//! The bytes of edited images, and what differs from those that were read.
ghost use Rattle.std.specs.Prelude.{◌≡◌, false, IfOk, IfErr, IsOkAnd, string_bytes};
ghost use Rattle.byte_store.specs.Composed.{IsDifference, made_of};
ghost use Rattle.elf_commands_edits.specs.Images.{AreChanged, TellsNoImage};
ghost use Rattle.elf_commands_edits.specs.Written.{IsImageWritten, IsNoDifference, IsNoImage};

use crate::error::ElfCommandError;
use crate::files::{ElfContainer, ElfError};
use byte_store::Difference;
use std::alloc::Global;

/// The bytes of an image; `None` where it is as it was read.
pub fn changed_bytes(
    alloc: Global,
    elf: ElfContainer<'_>,
) -> Result<Option<Vec<u8>>, ElfCommandError>
    ensures ok { IfOk result (AreChanged elf.entry.inner) }
    ensures err { IfErr result (TellsNoImage elf.entry.inner) }
{
    let answer = bytes_if_changed(alloc, &elf);
    drop(elf);
    Ok(answer?)
}

/// The same of an image that is lent.
fn bytes_if_changed(alloc: Global, elf: &ElfContainer<'_>) -> Result<Option<Vec<u8>>, ElfError>
    ensures ok { IfOk result (AreChanged elf.now.inner) }
    ensures err { IfErr result (IsNoImage elf.now.inner) }
{
    if !elf.inner.builder().changed() {
        return Ok(None);
    }
    Ok(Some(elf.image_bytes(alloc)?))
}

/// What of the bytes of a file differs from those of its image.
pub fn pieces_of(alloc: Global, elf: ElfContainer<'_>) -> Result<Difference, ElfCommandError>
    ensures makeable { IfOk result (λ d. IsDifference elf.entry.inner.source d) }
    ensures bytes { IfOk result (λ d.
        IsImageWritten elf.entry.inner (made_of elf.entry.inner.source d)) }
    ensures unchanged { elf.entry.inner.changed ≡ false
        → IsOkAnd result (IsNoDifference elf.entry.inner.source) }
    ensures err { IfErr result (TellsNoImage elf.entry.inner) }
{
    let pieces = elf.image_pieces(alloc);
    drop(elf);
    Ok(pieces?)
}

/// What of the bytes of a file differs from those of its image, and a text.
pub fn pieces_and_text(
    alloc: Global,
    elf: ElfContainer<'_>,
    text: String,
) -> Result<(Difference, String), ElfCommandError>
    ensures makeable { IfOk result (λ made. IsDifference elf.entry.inner.source made.0) }
    ensures bytes { IfOk result (λ made.
        IsImageWritten elf.entry.inner (made_of elf.entry.inner.source made.0)) }
    ensures unchanged { elf.entry.inner.changed ≡ false
        → IsOkAnd result (λ made. IsNoDifference elf.entry.inner.source made.0) }
    ensures same { IfOk result (λ made. string_bytes made.1 ≡ string_bytes text) }
    ensures err { IfErr result (TellsNoImage elf.entry.inner) }
{
    let difference = pieces_of(alloc, elf)?;
    Ok((difference, text))
}
