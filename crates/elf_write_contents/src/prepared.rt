//! What is made of an image before the contents of its sections: strings, numbers of symbols, headers and dynamic entries.
ghost use Rattle.std.specs.Prelude.{◌≡◌, false, true, IfErr, IfOk};
ghost use Rattle.std.specs.List.{list_all};
ghost use Rattle.elf_image.specs.Kept.{kept_sections};
ghost use Rattle.elf_tables.specs.declared.fault.TableFault.TheVariants.{NumberTooLarge};
ghost use Rattle.elf_layout_plan.specs.Plan.{resized};
ghost use Rattle.elf_write_spec.specs.Headers.{written_header};
ghost use Rattle.elf_write_symbol_tables.specs.WrittenStrings.{AreStrings, strings_at};
ghost use Rattle.elf_write_symbol_tables.specs.Fits.{do_section_relocations_fit};
ghost use Rattle.elf_write_symbol_tables.specs.Renumbering.{IsRenumbering};
ghost use Rattle.elf_write_contents.specs.Numbers.{do_numbers_fit as do_all_fit, do_records_fit};
ghost use Rattle.elf_write_contents.specs.PreparedSteps.{IsPrepared};
ghost use Rattle.elf_write_contents.specs.Inner.{AreHeaders, AreRaw, IsPlanned};

use crate::entries::raw_entries;
use crate::fits::do_header_numbers_fit;
use crate::headers::{file_header, section_headers};
use elf_format::records::{EntryNumbers, FileHeader, SectionHeader};
use elf_image::Builder;
use elf_layout_plan::Plan;
use elf_tables::TableFault;
use elf_write_symbol_tables::made::{Made, made_strings};
use elf_write_symbol_tables::{Renumbering, StayingNeeds, do_relocations_fit_in, renumbering_of};
use std::alloc::Global;

/// What stands in the headers of a written file, and in its dynamic section.
#[derive(Drop)]
pub struct Prepared<'t> {
    /// The string tables that are told anew.
    pub made: Vec<Made<'t>>,
    /// The new numbers of sections and symbols.
    pub renumbering: Renumbering,
    /// The file header (gABI, ELF Header).
    pub header: FileHeader,
    /// The section headers, in order (gABI, Sections).
    pub headers: Vec<SectionHeader>,
    /// The dynamic entries, in order (gABI, Dynamic Section).
    pub raw: Vec<EntryNumbers>,
}

/// What stands in the headers of an image that is written by a plan. Errors: `NumberTooLarge` where a number is past its
/// field; `Memory`.
pub fn prepare<'a, 'data>(
    alloc: Global,
    read: &'a Builder<'data>,
    image: &'a Builder<'data>,
    plan: &Plan,
) -> Result<Prepared<'a>, TableFault>
    requires { IsPlanned read.now image.now plan.now }
    ensures prepared { IfOk result (IsPrepared read.entry.now image.entry.now plan.now) }
    ensures fault { IfErr result (λ fault.
        fault ≡ NumberTooLarge → do_all_fit image.entry.now plan.now ≡ false) }
{
    let made = made_strings(alloc, read, image)?;
    prepare_with_strings(alloc, read, image, plan, made)
}

/// What stands in the headers of an image that is written by a plan, with the string tables that
/// are told anew, which [`strings_from`](elf_write_symbol_tables::made::strings_from) gives. Errors
/// as there.
pub fn prepare_with_strings<'a, 'data>(
    alloc: Global,
    read: &'a Builder<'data>,
    image: &'a Builder<'data>,
    plan: &Plan,
    made: Vec<Made<'a>>,
) -> Result<Prepared<'a>, TableFault>
    requires planned { IsPlanned read.now image.now plan.now }
    requires strings { AreStrings read.now image.now made.items }
    ensures prepared { IfOk result (IsPrepared read.entry.now image.entry.now plan.now) }
    ensures fault { IfErr result (λ fault.
        fault ≡ NumberTooLarge → do_all_fit image.entry.now plan.now ≡ false) }
{
    let renumbering = renumbering_of(alloc, read, image)?;
    prepare_numbered(alloc, read, image, plan, made, renumbering)
}

// The headers and the dynamic entries.
#[derive(Drop)]
struct Numbers {
    header: FileHeader,
    headers: Vec<SectionHeader>,
    raw: Vec<EntryNumbers>,
}

// The headers and the dynamic entries of an image that is written by a plan.
fn made_numbers<'data>(
    alloc: Global,
    read: &Builder<'data>,
    image: &Builder<'data>,
    plan: &Plan,
    made: &[Made<'_>],
    renumbering: &Renumbering,
) -> Result<Numbers, TableFault>
    requires planned { IsPlanned read.now image.now plan.now }
    requires strings { AreStrings read.now image.now made.now }
    requires renumbering { IsRenumbering read.now image.now renumbering.now }
    ensures header { IfOk result (λ numbers. numbers.header ≡ written_header image.now plan.now) }
    ensures headers { IfOk result (λ numbers. AreHeaders (resized image.now)
        (strings_at image.now made.now image.now.header.e_shstrndx)
        (kept_sections image.now) plan.now.places numbers.headers.items) }
    ensures raw { IfOk result (λ numbers.
        AreRaw (resized image.now) plan.now made.now numbers.raw.items) }
    ensures fault { IfErr result (λ fault.
        fault ≡ NumberTooLarge → do_all_fit image.now plan.now ≡ false) }
{
    let staying = StayingNeeds::new(alloc, read, image)?;
    let raw = raw_entries(alloc, read, image, plan, &staying, made)?;
    let headers = section_headers(
        alloc,
        read,
        image,
        plan,
        &staying,
        &renumbering.dynamic,
        &renumbering.sections,
        made,
    )?;
    let header = file_header(read, image, plan, &renumbering.sections);
    Ok(Numbers {
        header,
        headers,
        raw,
    })
}

// The headers and the dynamic entries of an image that is written by a plan, each of which fits its
// field, as the new numbers of symbols do in relocations.
fn fitting_numbers<'data>(
    alloc: Global,
    read: &Builder<'data>,
    image: &Builder<'data>,
    plan: &Plan,
    made: &[Made<'_>],
    renumbering: &Renumbering,
) -> Result<Numbers, TableFault>
    requires planned { IsPlanned read.now image.now plan.now }
    requires strings { AreStrings read.now image.now made.now }
    requires renumbering { IsRenumbering read.now image.now renumbering.now }
    ensures header { IfOk result (λ numbers. numbers.header ≡ written_header image.now plan.now) }
    ensures headers { IfOk result (λ numbers. AreHeaders (resized image.now)
        (strings_at image.now made.now image.now.header.e_shstrndx)
        (kept_sections image.now) plan.now.places numbers.headers.items) }
    ensures raw { IfOk result (λ numbers.
        AreRaw (resized image.now) plan.now made.now numbers.raw.items) }
    ensures fit { IfOk result (λ numbers. do_records_fit image.now.form numbers.header
        plan.now.segments numbers.headers.items numbers.raw.items ≡ true) }
    ensures relocations { IfOk result (λ _.
        list_all (do_section_relocations_fit read.now image.now) (kept_sections image.now) ≡ true) }
    ensures fault { IfErr result (λ fault.
        fault ≡ NumberTooLarge → do_all_fit image.now plan.now ≡ false) }
{
    let numbers = made_numbers(alloc, read, image, plan, made, renumbering)?;
    let (headers, raw) = (&numbers.headers, &numbers.raw);
    if !do_header_numbers_fit(read, image, plan, made, numbers.header, headers, raw) {
        return Err(TableFault::NumberTooLarge);
    }
    if !do_relocations_fit_in(read, image, renumbering) {
        return Err(TableFault::NumberTooLarge);
    }
    Ok(numbers)
}

// What stands in the headers of an image that is written by a plan, with the new numbers of
// sections and symbols.
fn prepare_numbered<'a, 'data>(
    alloc: Global,
    read: &'a Builder<'data>,
    image: &'a Builder<'data>,
    plan: &Plan,
    made: Vec<Made<'a>>,
    renumbering: Renumbering,
) -> Result<Prepared<'a>, TableFault>
    requires planned { IsPlanned read.now image.now plan.now }
    requires strings { AreStrings read.now image.now made.items }
    requires renumbering { IsRenumbering read.now image.now renumbering }
    ensures prepared { IfOk result (IsPrepared read.entry.now image.entry.now plan.now) }
    ensures fault { IfErr result (λ fault.
        fault ≡ NumberTooLarge → do_all_fit image.entry.now plan.now ≡ false) }
{
    let numbers = fitting_numbers(alloc, read, image, plan, &made, &renumbering)?;
    Ok(Prepared {
        made,
        renumbering,
        header: numbers.header,
        headers: numbers.headers,
        raw: numbers.raw,
    })
}
