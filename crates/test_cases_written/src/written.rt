//! The bytes of files after edits.
ghost use Rattle.std.specs.Prelude.{◌≡◌, ◌↔◌, All, IfOk, IsTrue, length};
ghost use Rattle.arwen_elf.specs.Written.{AnswersBytes, AnswersPieces};
ghost use Rattle.byte_store.specs.Composed.{made_of, owned_patches};
ghost use Rattle.byte_store.specs.Laid.{LiesIn, laid};
ghost use Rattle.test_cases_written.specs.Differences.{DoPiecesLieIn};

use crate::edits::tell;
use crate::files::{put, save};
use crate::planned::print_planned;
use crate::rows::print_rows;
use arwen_elf::elf::{ElfContainer, ElfError, Writer};
use byte_store::{Difference, OwnedPiece};
use std::alloc::{AllocError, Global};
use std::io;

/// Prints what is written of a file, or why it is not written.
pub(crate) fn print_written(rt: &HostRuntime, file: &ElfContainer<'_>) -> io::Result<()> {
    println!(rt; "changed {}", file.inner.builder().changed())?;
    match image_bytes(rt.alloc(), &file.inner) {
        Ok(new) => print_new(rt, file, &new),
        Err(error) => tell(rt, &error),
    }
}

/// The bytes that are written of a file, made again where memory was refused.
fn image_bytes(alloc: Global, file: &Writer<'_>) -> Result<Vec<u8>, ElfError>
    ensures { AnswersBytes file.now result }
{
    match file.image_bytes(alloc) {
        Err(ElfError::Memory) => file.image_bytes(alloc),
        made => made,
    }
}

/// The bytes that are written of a container, made again where memory was refused.
pub(crate) fn container_bytes(alloc: Global, file: &ElfContainer<'_>) -> Result<Vec<u8>, ElfError>
    ensures { AnswersBytes file.now.inner result }
{
    match file.image_bytes(alloc) {
        Err(ElfError::Memory) => file.image_bytes(alloc),
        made => made,
    }
}

/// Prints the rows that are written anew, and whether the pieces that differ make the same bytes. Makes the file of them.
fn print_new(rt: &HostRuntime, file: &ElfContainer<'_>, new: &[u8]) -> io::Result<()> {
    print_rows(rt, file.bytes(), new)?;
    print_difference(rt, file, new)?;
    print_planned(rt, file, new)?;
    save(rt, new)
}

/// Prints whether the pieces that differ make the same bytes.
fn print_difference(rt: &HostRuntime, file: &ElfContainer<'_>, new: &[u8]) -> io::Result<()> {
    match pieces(rt.alloc(), file) {
        Ok(difference) => print_made(rt, file.bytes(), &difference, new),
        Err(error) => tell(rt, &error),
    }
}

/// What differs, asked for again where memory was refused.
fn pieces(alloc: Global, file: &ElfContainer<'_>) -> Result<Difference, ElfError>
    ensures { AnswersPieces file.now.inner result }
{
    match file.image_pieces(alloc) {
        Err(ElfError::Memory) => file.image_pieces(alloc),
        made => made,
    }
}

/// Prints whether there are pieces, and whether they make the new bytes of the old ones.
fn print_made(rt: &HostRuntime, old: &[u8], difference: &Difference, new: &[u8]) -> io::Result<()> {
    let has_pieces = !difference.pieces.is_empty();
    println!(rt;
        "pieces {has_pieces}, made {:?}",
        makes_again(rt.alloc(), old, difference, new)
    )
}

/// Whether a difference makes bytes of others, tried again where memory was refused.
fn makes_again(
    alloc: Global,
    old: &[u8],
    difference: &Difference,
    new: &[u8],
) -> Result<bool, AllocError> {
    match makes(alloc, old, difference, new) {
        Err(_) => makes(alloc, old, difference, new),
        made => made,
    }
}

/// Whether a difference makes bytes of others.
pub(crate) fn makes(
    alloc: Global,
    old: &[u8],
    difference: &Difference,
    new: &[u8],
) -> Result<bool, AllocError>
    ensures { IfOk result (λ is_made. DoPiecesLieIn old.now difference.now
        → (IsTrue is_made ↔ (made_of old.now difference.now ≡ new.now))) }
{
    let made = made(alloc, old, difference)?;
    Ok(made.as_slice() == new)
}

/// The bytes that a difference makes of others.
fn made(alloc: Global, old: &[u8], difference: &Difference) -> Result<Vec<u8>, AllocError>
    ensures { IfOk result (λ made. DoPiecesLieIn old.now difference.now
        → made.items ≡ made_of old.now difference.now) }
{
    let mut bytes = Vec::from_slice(alloc, old)?;
    bytes.extend_from_slice(&difference.growth)?;
    lay(bytes.as_mut_slice(), difference.pieces.as_slice());
    bytes.truncate(difference.new_length);
    Ok(bytes)
}

/// Puts pieces over bytes.
fn lay(bytes: &mut [u8], pieces: &[OwnedPiece])
    ensures { All (LiesIn (length bytes.old)) (owned_patches pieces.now)
        → bytes.new ≡ laid (owned_patches pieces.now) bytes.old }
{
    for piece in pieces {
        put(bytes, piece.offset as usize, &piece.bytes);
    }
}
