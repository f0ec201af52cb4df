//! The bytes that an image is written to.
ghost use Rattle.std.specs.Prelude.{◌≡◌, false, true, IfErr, IfOk, IfSome, IsTrue};
ghost use Rattle.byte_store.specs.Composed.{IsDifference, made_of};
ghost use Rattle.elf_image.specs.Kept.{image_at_read};
ghost use Rattle.elf_layout_plan.specs.Plan.{IsPlan, resized};
ghost use Rattle.elf_layout_plan.specs.Refusals.{do_sizes_of_image_fit, sizes_of_image};
ghost use Rattle.elf_layout.specs.MadeTables.{IsMadeOfDynamic};
ghost use Rattle.elf_write.specs.WrittenFile.{IsWrittenOf};
ghost use Rattle.arwen_elf_writer.specs.NewFile.{HoldsImage, IsNotStored};
ghost use Rattle.arwen_elf_writer.specs.Written.{AnswersBytes, AnswersPieces, AnswersWrite, IsImageWritten, IsIo, IsNoDifference, IsNoEdit, IsNoImage, IsTold, MayNotWrite};

use crate::new_file::{NotWritten, write_new};
use crate::writer::Writer;
use byte_store::{Creates, Difference, RuntimeFiles};
use elf_apply::error::{ElfError, ModifyCause, Result};
use elf_image::{Builder, ElfFault};
use elf_layout::{Finished, NewSizes, lay_out_from_sizes, new_sizes_with_strings};
use elf_layout_plan::{LayoutFault, Plan, read_source};
use elf_write::{CountedWrite, image_pieces_with_strings, made_bytes, write_all_counted};
use patch_bytes::ByteString;
use std::alloc::Global;
use std::rt::Files;

// What of the bytes of an edited image by a plan differs from its source, with the image that was read from this. The
// string table of the dynamic list may be there already, where it is made anew.
fn pieces_by<'a, 'data>(
    alloc: Global,
    read: &'a Builder<'data>,
    image: &'a Builder<'data>,
    plan: &Plan,
    strings: Option<Finished<'a>>,
) -> std::result::Result<Difference, LayoutFault>
    requires read { read.now ≡ image_at_read image.now }
    requires planned { IsPlan (resized image.now) plan.now }
    requires sized { IsTrue (do_sizes_of_image_fit image.now) }
    requires strings { IfSome strings (IsMadeOfDynamic read.now image.now) }
    ensures makeable { IfOk result (λ d. IsDifference image.entry.now.source d) }
    ensures bytes { IfOk result (λ d.
        IsWrittenOf image.entry.now (made_of image.entry.now.source d)) }
    ensures fault { IfErr result (IsNoEdit image.entry.now) }
{
    match image_pieces_with_strings(alloc, read, image, plan, strings) {
        Ok(difference) => Ok(difference),
        Err(fault) => Err(fault),
    }
}

// What of the bytes of an edited image differs from its source, by the new sizes of its sections.
fn pieces_by_sizes<'a, 'data>(
    alloc: Global,
    read: &'a Builder<'data>,
    image: &'a Builder<'data>,
    new: NewSizes<'a>,
) -> std::result::Result<Difference, LayoutFault>
    requires read { read.now ≡ image_at_read image.now }
    requires sizes { new.sizes.items ≡ sizes_of_image image.now }
    requires sized { IsTrue (do_sizes_of_image_fit image.now) }
    requires strings { IfSome new.strings (IsMadeOfDynamic read.now image.now) }
    ensures makeable { IfOk result (λ d. IsDifference image.entry.now.source d) }
    ensures bytes { IfOk result (λ d.
        IsWrittenOf image.entry.now (made_of image.entry.now.source d)) }
    ensures fault { IfErr result (IsNoEdit image.entry.now) }
{
    let NewSizes { sizes, strings } = new;
    let planned = lay_out_from_sizes(alloc, read, image, &sizes);
    drop(sizes);
    match planned {
        Ok(plan) => pieces_by(alloc, read, image, &plan, strings),
        Err(fault) => Err(fault),
    }
}

// What of the bytes of an edited image differs from its source, by no more than the image that was
// read from it.
fn pieces_from<'a, 'data>(
    alloc: Global,
    read: &'a Builder<'data>,
    image: &'a Builder<'data>,
) -> std::result::Result<Difference, LayoutFault>
    requires { read.now ≡ image_at_read image.now }
    ensures makeable { IfOk result (λ d. IsDifference image.entry.now.source d) }
    ensures bytes { IfOk result (λ d.
        IsWrittenOf image.entry.now (made_of image.entry.now.source d)) }
    ensures fault { IfErr result (IsNoEdit image.entry.now) }
{
    match new_sizes_with_strings(alloc, read, image) {
        Ok(new) => pieces_by_sizes(alloc, read, image, new),
        Err(fault) => Err(fault),
    }
}

// What of the bytes of an edited image differs from its source.
fn edited_pieces(alloc: Global, image: &Builder<'_>) -> std::result::Result<Difference, LayoutFault>
    ensures makeable { IfOk result (λ d. IsDifference image.now.source d) }
    ensures bytes { IfOk result (λ d.
        IsWrittenOf image.now (made_of image.now.source d)) }
    ensures fault { IfErr result (IsNoEdit image.now) }
{
    match read_source(alloc, image) {
        Ok(read) => pieces_from(alloc, &read, image),
        Err(_) => Err(LayoutFault::Memory),
    }
}

// The bytes of an edited image: what differs from its source, laid over that.
fn edited_bytes(alloc: Global, image: &Builder<'_>) -> std::result::Result<Vec<u8>, LayoutFault>
    ensures bytes { IfOk result (λ bytes. IsWrittenOf image.now bytes.items) }
    ensures fault { IfErr result (IsNoEdit image.now) }
{
    let difference = edited_pieces(alloc, image)?;
    Ok(made_bytes(alloc, image.source(), &difference)?)
}

// What differs of bytes from themselves: nothing, which takes no memory.
fn no_difference(alloc: Global, bytes: &[u8]) -> Difference
    ensures none { IsNoDifference bytes.now result }
    ensures makeable { IsDifference bytes.now result }
    ensures same { made_of bytes.now result ≡ bytes.now }
{
    Difference {
        growth: Vec::new(alloc),
        pieces: Vec::new(alloc),
        new_length: bytes.len(),
    }
}

// Why an image isn't written, as it is told.
fn elf_error_of(fault: LayoutFault) -> ElfError
    ensures { IsTold fault result }
{
    match fault {
        LayoutFault::Overlap => ElfError::Modify(ModifyCause::Overlap),
        LayoutFault::NumberTooLarge => ElfError::Write(ElfFault::NumberTooLarge),
        LayoutFault::Memory => ElfError::Memory,
    }
}

impl<'data> Writer<'data> {
    // The bytes of the file that is written, where nothing was edited those that were read, which takes no memory.
    fn output_bytes(&self, alloc: Global) -> Result<ByteString<'data>>
        ensures bytes { IfOk result (λ file. IsImageWritten self.now file.bytes) }
        ensures fault { IfErr result (IsNoImage self.now) }
        ensures edited { IfErr result (λ _. self.now.changed ≡ true) }
    {
        let image = self.builder();
        if !image.changed() {
            return Ok(ByteString::borrowed(image.source()));
        }
        match edited_bytes(alloc, image) {
            Ok(bytes) => Ok(ByteString::owned(bytes)),
            Err(fault) => Err(elf_error_of(fault)),
        }
    }

    /// The bytes of the file that is written: those that were read where nothing was edited, else a file that shows the
    /// edited image by its section headers and to a loader. Errors: `Modify(Overlap)` where two blocks of memory overlap
    /// that can't move, `Write(NumberTooLarge)` where a number is past its field, `Memory`. The image stays as it is.
    pub fn image_bytes(&self, alloc: Global) -> Result<Vec<u8>>
        ensures { AnswersBytes self.now result }
    {
        let image = self.builder();
        if !image.changed() {
            return Ok(Vec::from_slice(alloc, image.source())?);
        }
        match edited_bytes(alloc, image) {
            Ok(bytes) => Ok(bytes),
            Err(fault) => Err(elf_error_of(fault)),
        }
    }

    /// What of the bytes of `image_bytes` differs from the bytes that were read: nothing where nothing was edited, which
    /// takes no memory. Costs what is written anew and what doesn't stay, not what the bytes weigh. Errors: those of
    /// `image_bytes`. The image stays as it is.
    pub fn image_pieces(&self, alloc: Global) -> Result<Difference>
        ensures { AnswersPieces self.now result }
    {
        let image = self.builder();
        if !image.changed() {
            return Ok(no_difference(alloc, image.source()));
        }
        match edited_pieces(alloc, image) {
            Ok(difference) => Ok(difference),
            Err(fault) => Err(elf_error_of(fault)),
        }
    }

    /// Writes the bytes of `image_bytes`, all of which are made before the first is written; those of an image that wasn't
    /// edited take no memory. Errors: those of `image_bytes`, and then the writer has got nothing; `Io` where a write
    /// failed, took nothing or was interrupted 1,001 times in a row, and then the writer has got the first of the bytes.
    pub fn write<W: CountedWrite>(&self, alloc: Global, w: &mut W) -> Result<()>
        ensures { AnswersWrite W.contents W.failed self.now w.old w.new result }
    {
        let bytes = self.output_bytes(alloc)?;
        match write_all_counted(bytes.as_slice(), w) {
            Ok(()) => Ok(()),
            Err(error) => Err(ElfError::Io(error)),
        }
    }

    /// Writes the bytes of `image_bytes` to a file that is created once all of them are there, and hands it out. Errors:
    /// those of `image_bytes`, and no file is created; `Io` with what creating it answered; `Io` where a write failed, as
    /// `write` tells, and the file has got the first of the bytes.
    pub fn write_to<'p, C: Creates<'p>>(
        &self,
        alloc: Global,
        files: &C,
        path: &'p str,
    ) -> std::result::Result<C::Created, NotWritten<C::Created>>
        ensures written { IfOk result (λ file.
            HoldsImage C.is_new self.now (C.Created.contents file)) }
        ensures err { IfErr result (IsNotStored C.is_new C.Created.contents
            (C.may_fail files.now path.now) self.now) }
        ensures unchanged { self.now.changed ≡ false
            → IfErr result (λ refused. IsIo refused.error) }
    {
        match self.output_bytes(alloc) {
            Ok(bytes) => write_new(files, path, bytes.as_slice()),
            Err(error) => Err(NotWritten { error, file: None }),
        }
    }

    /// Writes the bytes of `image_bytes` to a file of the system, as `write_to` does: it is made, or emptied, once all of
    /// them are there. Errors: those of `write_to`.
    pub fn write_to_path<R: Files + AllocGlobal>(&self, rt: &R, path: &str) -> Result<()>
        ensures err { IfErr result (MayNotWrite self.now) }
        ensures unchanged { self.now.changed ≡ false → IfErr result IsIo }
    {
        match self.write_to(rt.alloc(), &RuntimeFiles { files: rt }, path) {
            Ok(_file) => Ok(()),
            Err(refused) => Err(refused.error),
        }
    }
}
