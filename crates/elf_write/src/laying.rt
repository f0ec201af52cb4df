//! Headers, tables and contents at their places, over what stays of the file that was read.
ghost use Rattle.std.specs.Prelude.{◌≡◌, ◌+◌, ◌*◌, ◌<◌, ◌^◌, length, IfOk, List, SomeIff};
ghost use Rattle.patch_bytes.specs.ByteString.{bytes_of_each};
ghost use Rattle.byte_store.specs.Composed.{IsDifference, made_of};
ghost use Rattle.elf_format.specs.Records.{section_header_size};
ghost use Rattle.elf_format.specs.declared.records.EntryNumbers.{EntryNumbers};
ghost use Rattle.elf_write_contents.specs.Headers.{written_header};
ghost use Rattle.elf_write_contents.specs.Output.{IsPlannedOutput, written_bytes};
ghost use Rattle.elf_write_contents.specs.Ready.{IsEditedReady};
ghost use Rattle.elf_write_contents.specs.Inner.{output_of};

use crate::pieces::pieces;
use crate::spans::differing;
use crate::spelled::spelled_headers;
use byte_store::Difference;
use elf_format::Form;
use elf_format::records::{FileHeader, SectionHeader};
use elf_image::Builder;
use elf_layout_plan::Plan;
use patch_bytes::ByteString;
use std::alloc::{AllocError, Global};

// How long the file is. `None` where that is past 64 bits.
fn file_size(form: Form, plan: &Plan) -> Option<usize>
    ensures { let size = plan.now.e_shoff
        + length plan.now.places * section_header_size form in
        SomeIff result (size < 2 ^ 64) size }
{
    let table = plan.places().len().checked_mul(form.section_header_size())?;
    table.checked_add(plan.e_shoff() as usize)
}

// What differs from the image's source of the bytes of the file.
pub(crate) fn laid_difference<'data>(
    alloc: Global,
    read: &Builder<'data>,
    image: &Builder<'data>,
    plan: &Plan,
    header: FileHeader,
    headers: &[SectionHeader],
    contents: &[ByteString<'_>],
) -> Result<Difference, AllocError>
    requires read { IsEditedReady read.now image.now }
    requires header { header ≡ written_header image.now plan.now }
    requires output { (raw : List EntryNumbers) × IsPlannedOutput
        (output_of image.now plan.now headers.now (bytes_of_each contents.now) raw) }
    ensures makes { IfOk result (λ d. (raw : List EntryNumbers) → made_of image.now.source d
        ≡ written_bytes
        (output_of image.now plan.now headers.now (bytes_of_each contents.now) raw)) }
    ensures makeable { IfOk result (λ d. IsDifference image.now.source d) }
{
    let form = image.form();
    let Some(size) = file_size(form, plan) else {
        // no memory has so many bytes
        return Err(AllocError);
    };
    let interpreter = read.interpreter_number();
    let spelled = spelled_headers(alloc, form, plan, header, headers)?;
    let pieces = pieces(alloc, image, plan, &spelled, contents, interpreter)?;
    let difference = differing(alloc, read, image, size, &pieces)?;
    Ok(difference)
}
