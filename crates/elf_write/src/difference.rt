//! What of the bytes of an edited ELF file differs from the bytes that were read.
ghost use Rattle.std.specs.Prelude.{◌≡◌, false, IfErr, IfOk, IfSome, IsTrue};
ghost use Rattle.patch_bytes.specs.ByteString.{bytes_of_each};
ghost use Rattle.byte_store.specs.Composed.{IsDifference, made_of};
ghost use Rattle.elf_format.specs.Ranges.{apart, range};
ghost use Rattle.elf_format.specs.Records.{file_header_size};
ghost use Rattle.elf_layout_plan.specs.FilePlaced.{written_table};
ghost use Rattle.patch_bytes.specs.Bytes.{AreBytes};
ghost use Rattle.elf_tables.specs.declared.fault.TableFault.TheVariants.{NumberTooLarge};
ghost use Rattle.elf_image.specs.Kept.{image_at_read, kept_sections};
ghost use Rattle.elf_layout_plan.specs.Plan.{IsPlan, resized};
ghost use Rattle.elf_layout_plan.specs.Refusals.{do_sizes_of_image_fit};
ghost use Rattle.elf_write_contents.specs.MadeTables.{IsMadeOfDynamic};
ghost use Rattle.elf_write_contents.specs.Output.{AreHeadersApart};
ghost use Rattle.elf_write_contents.specs.WrittenFile.{IsWrittenByPlan, IsWrittenOf};
ghost use Rattle.elf_write_contents.specs.Inner.{AreContents, ArePromised, IsPlanned, IsPlannedFile};
ghost use Rattle.elf_write_contents.specs.Numbers.{do_numbers_fit as do_all_fit};
ghost use Rattle.elf_write_contents.specs.PreparedSteps.{IsPrepared};
ghost use Rattle.elf_write.specs.Refused.{AreNoBytes};

use crate::laying::laid_difference;
use byte_store::Difference;
use elf_format::range::Range;
use elf_image::Builder;
use elf_layout_plan::laws::{plans_are_apart, plans_show_notes};
use elf_layout_plan::{LayoutFault, Plan, read_source};
use elf_tables::{Finished, TableFault};
use elf_write_contents::contents::contents;
use elf_write_contents::prepared::{Prepared, prepare_with_strings};
use elf_write_contents::strings_from;
use patch_bytes::ByteString;
use std::alloc::{AllocError, Global};

// Where the program header table stands in the file that is written.
#[tactic(auto, using(elf_write_contents::proofs::ForCallers::plan_counts))]
fn table_range(image: &Builder<'_>, plan: &Plan) -> Range
    requires { IsPlan (resized image.now) plan.now }
    ensures { result ≡ written_table (resized image.now) plan.now }
{
    Range {
        start: plan.e_phoff(),
        size: plan.segments().len() as u64 * image.form().segment_header_size() as u64,
    }
}

// Whether the file header and the program header table share no byte of the file.
fn are_headers_apart(image: &Builder<'_>, plan: &Plan) -> bool
    requires { IsPlan (resized image.now) plan.now }
    ensures { result ≡ apart (range 0 (file_header_size image.now.form))
        (written_table (resized image.now) plan.now) }
{
    let header = Range {
        start: 0,
        size: image.form().file_header_size() as u64,
    };
    header.is_apart(table_range(image, plan))
}

// Each byte of a source is below 256.
fn show_bytes(source: &[u8])
    ensures { AreBytes source.now }
{}

// What differs from the source with these contents.
fn difference_of_contents<'data>(
    alloc: Global,
    read: &Builder<'data>,
    image: &Builder<'data>,
    plan: &Plan,
    prepared: &Prepared<'_>,
    contents: &[ByteString<'_>],
) -> Result<Difference, AllocError>
    requires planned { IsPlanned read.now image.now plan.now }
    requires apart { AreHeadersApart image.now plan.now }
    requires prepared { IsPrepared read.now image.now plan.now prepared.now }
    requires contents { AreContents (resized image.now) plan.now prepared.now.made.items
        prepared.now.raw.items (kept_sections image.now) plan.now.places
        (bytes_of_each contents.now) }
    ensures written { IfOk result (λ d.
        IsPlannedFile image.now plan.now (made_of image.now.source d)) }
    ensures makeable { IfOk result (λ d. IsDifference image.now.source d) }
{
    show_bytes(image.source());
    let header = prepared.header;
    let difference = laid_difference(
        alloc,
        read,
        image,
        plan,
        header,
        &prepared.headers,
        contents,
    )?;
    Ok(difference)
}

// What differs from the source, with what is made before the contents.
#[tactic(auto, using(crate::proofs::Writes::entries_fit))]
fn difference_of_prepared<'a, 'data>(
    alloc: Global,
    read: &'a Builder<'data>,
    image: &'a Builder<'data>,
    plan: &Plan,
    prepared: &'a Prepared<'_>,
) -> Result<Difference, AllocError>
    requires planned { IsPlanned read.now image.now plan.now }
    requires apart { AreHeadersApart image.now plan.now }
    requires prepared { IsPrepared read.now image.now plan.now prepared.now }
    ensures written { IfOk result (λ d.
        IsPlannedFile image.entry.now plan.now (made_of image.entry.now.source d)) }
    ensures makeable { IfOk result (λ d. IsDifference image.entry.now.source d) }
{
    let (made, renumbering) = (&prepared.made, &prepared.renumbering);
    let contents = contents(alloc, read, image, plan, made, renumbering, &prepared.raw)?;
    difference_of_contents(alloc, read, image, plan, prepared, &contents)
}

// What differs from the source, where the headers share no byte of the file.
fn difference_where_apart<'a, 'data>(
    alloc: Global,
    read: &'a Builder<'data>,
    image: &'a Builder<'data>,
    plan: &Plan,
    strings: Option<Finished<'a>>,
) -> Result<Difference, TableFault>
    requires planned { IsPlanned read.now image.now plan.now }
    requires apart { AreHeadersApart image.now plan.now }
    requires strings { IfSome strings (IsMadeOfDynamic read.now image.now) }
    ensures written { IfOk result (λ d.
        IsPlannedFile image.entry.now plan.now (made_of image.entry.now.source d)) }
    ensures makeable { IfOk result (λ d. IsDifference image.entry.now.source d) }
    ensures fault { IfErr result (λ fault.
        fault ≡ NumberTooLarge → do_all_fit image.entry.now plan.now ≡ false) }
{
    let made = strings_from(alloc, read, image, strings)?;
    let prepared = prepare_with_strings(alloc, read, image, plan, made)?;
    let difference = difference_of_prepared(alloc, read, image, plan, &prepared)?;
    Ok(difference)
}

// What differs from the source, of which it is known that the image is written whole to the bytes that it makes: so
// they show the image in its final form, and have the data that was read; headers, tables and sections stand apart.
fn promised(image: &Builder<'_>, plan: &Plan, difference: Difference) -> Difference
    requires { IsPlannedFile image.now plan.now (made_of image.now.source difference) }
    ensures same { result ≡ difference }
    ensures promises { ArePromised image.now plan.now (made_of image.now.source result) }
{
    plans_are_apart();
    plans_show_notes();
    difference
}

/// What of the bytes of the file differs from the image's source, as `image_pieces_from_read` tells it, for a caller that may
/// have the table of the dynamic strings too, where it is made anew.
pub fn image_pieces_with_strings<'a, 'data>(
    alloc: Global,
    read: &'a Builder<'data>,
    image: &'a Builder<'data>,
    plan: &Plan,
    strings: Option<Finished<'a>>,
) -> Result<Difference, LayoutFault>
    requires read { read.now ≡ image_at_read image.now }
    requires planned { IsPlan (resized image.now) plan.now }
    requires sized { IsTrue (do_sizes_of_image_fit image.now) }
    requires strings { IfSome strings (IsMadeOfDynamic read.now image.now) }
    ensures makeable { IfOk result (λ d. IsDifference image.entry.now.source d) }
    ensures written { IfOk result (λ d.
        IsWrittenOf image.entry.now (made_of image.entry.now.source d)) }
    ensures by_plan { IfOk result (λ d.
        IsWrittenByPlan image.entry.now plan.now (made_of image.entry.now.source d)) }
    ensures fault { IfErr result (AreNoBytes image.entry.now plan.now) }
{
    // what every image is: one that was read from these bytes, and edited
    let _source = image.source();
    if !are_headers_apart(image, plan) {
        return Err(LayoutFault::Overlap);
    }
    match difference_where_apart(alloc, read, image, plan, strings) {
        Ok(difference) => Ok(promised(image, plan, difference)),
        Err(TableFault::NumberTooLarge) => Err(LayoutFault::NumberTooLarge),
        Err(TableFault::Memory) => Err(LayoutFault::Memory),
    }
}

/// What of the bytes of the file differs from the image's source, as `image_pieces` tells it, for a caller that has the
/// image as its source was read.
pub fn image_pieces_from_read<'data>(
    alloc: Global,
    read: &Builder<'data>,
    image: &Builder<'data>,
    plan: &Plan,
) -> Result<Difference, LayoutFault>
    requires read { read.now ≡ image_at_read image.now }
    requires planned { IsPlan (resized image.now) plan.now }
    requires sized { IsTrue (do_sizes_of_image_fit image.now) }
    ensures makeable { IfOk result (λ d. IsDifference image.now.source d) }
    ensures written { IfOk result (λ d.
        IsWrittenOf image.now (made_of image.now.source d)) }
    ensures by_plan { IfOk result (λ d.
        IsWrittenByPlan image.now plan.now (made_of image.now.source d)) }
    ensures fault { IfErr result (AreNoBytes image.now plan.now) }
{
    image_pieces_with_strings(alloc, read, image, plan, None)
}

/// What of the bytes of the file to which an edited image is written by a plan differs from
/// the image's source: how many bytes there are, what comes behind the source's, and pieces that change some of
/// these. Costs what is written anew and what doesn't stay, not what the source weighs. `Overlap` where the file
/// header and the program header table share a byte; `NumberTooLarge` where a number is past its field. The image's
/// source is read once more.
pub fn image_pieces(
    alloc: Global,
    image: &Builder<'_>,
    plan: &Plan,
) -> Result<Difference, LayoutFault>
    requires planned { IsPlan (resized image.now) plan.now }
    requires sized { IsTrue (do_sizes_of_image_fit image.now) }
    ensures makeable { IfOk result (λ d. IsDifference image.now.source d) }
    ensures written { IfOk result (λ d.
        IsWrittenOf image.now (made_of image.now.source d)) }
    ensures by_plan { IfOk result (λ d.
        IsWrittenByPlan image.now plan.now (made_of image.now.source d)) }
    ensures fault { IfErr result (AreNoBytes image.now plan.now) }
{
    let read = read_source(alloc, image)?;
    image_pieces_from_read(alloc, &read, image, plan)
}
