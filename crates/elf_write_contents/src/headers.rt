//! The file header and the section headers that are written (gABI, ELF Header, Sections).
ghost use Rattle.std.specs.Prelude.{◌≡◌, ◌<◌, ◌≤◌, ◌^◌, false, length, option_map, slice_get, IfErr, IfOk, IfNone, IfSome, IsSome, None, Some};
ghost use Rattle.elf_format.specs.Answers.{Gives};
ghost use Rattle.elf_image.specs.ImageModel.{section_model};
ghost use Rattle.elf_format.specs.Rules.{has_section_info};
ghost use Rattle.elf_image.specs.Kept.{image_at_read, kept_sections};
ghost use Rattle.elf_image.specs.Needed.{is_info_number};
ghost use Rattle.elf_layout_plan.specs.Plan.{IsPlan, resized};
ghost use Rattle.elf_layout_plan.specs.PlanModel.{place_model};
ghost use Rattle.elf_tables.specs.declared.fault.TableFault.TheVariants.{NumberTooLarge};
ghost use Rattle.elf_tables.specs.Strings.{place_of};
ghost use Rattle.elf_write_symbol_tables.specs.Found.{is_local as is_local_symbol};
ghost use Rattle.elf_image_symbols.specs.Loan.{symbols_now};
ghost use Rattle.elf_layout_plan.specs.WrittenNeeds.{AreWritten};
ghost use Rattle.elf_write_spec.specs.Final.{final, new_number as number_of};
ghost use Rattle.elf_write_spec.specs.Headers.{Reads, behind_locals as behind_all, written_header};
ghost use Rattle.elf_write_contents.specs.HeaderSteps.{IsHeaderAt, IsKnown, header_by, headers_read, info_by};
ghost use Rattle.elf_write_symbol_tables.specs.WrittenStrings.{AreStrings, content_read, made_of as made_at, strings_at};
ghost use Rattle.elf_write_spec.specs.Ready.{IsEditedReady};
ghost use Rattle.elf_write_symbol_tables.specs.NewSections.{AreNewSections};
ghost use Rattle.elf_write_symbol_tables.specs.Renumbering.{IsReorderingFor};
ghost use Rattle.elf_write_contents.specs.Inner.{AreHeaders, IsPlanned};
ghost use Rattle.elf_write_contents.specs.Numbers.{do_numbers_fit};
ghost use Rattle.elf_write_symbol_tables.specs.Made.{Made};

use elf_format::form::Form;
use elf_format::opening::{open, sections};
use elf_format::records::{FileHeader, SectionHeader};
use elf_format::view_fault::ViewFault;
use elf_image::constants::{SHT_DYNSYM, SHT_GNU_VERDEF, SHT_GNU_VERNEED, SHT_SYMTAB};
use elf_image::{Builder, Section};
use elf_image_symbols::SymbolsNow;
use elf_layout_plan::{Plan, SectionPlace};
use elf_tables::TableFault;
use elf_write_symbol_tables::made::{Made, made_of};
use elf_write_symbol_tables::{NewSections, Reordering, StayingNeeds, new_number, order_of};
use std::alloc::Global;

// How many program headers and sections a plan has: few enough for plain numbering (gABI, ELF Header, e_phnum and e_shnum).
fn counts(image: &Builder<'_>, plan: &Plan) -> (u16, u16)
    requires { IsPlan (resized image.now) plan.now }
    ensures segments { result.0 ≡ length plan.now.segments }
    ensures places { result.1 ≡ length plan.now.places }
{
    (plan.segments().len() as u16, plan.places().len() as u16)
}

// The new number of the section of names (gABI, ELF Header, e_shstrndx).
fn names_number(read: &Builder<'_>, image: &Builder<'_>, sections: &NewSections) -> u16
    requires ready { IsEditedReady read.now image.now }
    requires sections { AreNewSections read.now image.now sections.now }
    ensures { result ≡ number_of image.now image.now.header.e_shstrndx }
{
    let number = image.header().e_shstrndx;
    new_number(read, image, sections, u32::from(number)) as u16
}

// The file header.
pub(crate) fn file_header(
    read: &Builder<'_>,
    image: &Builder<'_>,
    plan: &Plan,
    sections: &NewSections,
) -> FileHeader
    requires ready { IsEditedReady read.now image.now }
    requires planned { IsPlan (resized image.now) plan.now }
    requires sections { AreNewSections read.now image.now sections.now }
    ensures { result ≡ written_header image.now plan.now }
{
    let header = image.header();
    let form = image.form();
    let (e_phnum, e_shnum) = counts(image, plan);
    FileHeader {
        os_abi: header.os_abi,
        abi_version: header.abi_version,
        e_type: header.e_type,
        e_machine: header.e_machine,
        e_entry: header.e_entry,
        e_phoff: plan.e_phoff(),
        e_shoff: plan.e_shoff(),
        e_flags: header.e_flags,
        e_phentsize: form.segment_header_size() as u16,
        e_phnum,
        e_shentsize: form.section_header_size() as u16,
        e_shnum,
        e_shstrndx: names_number(read, image, sections),
    }
}

// What the section headers take from the image as a whole.
#[derive(Drop)]
struct Known {
    // One past the last local symbol of each symbol table.
    symbols: usize,
    dynamic_symbols: usize,
    // How many records of needed versions are written.
    needs: usize,
    // The section headers that were read.
    headers: Vec<SectionHeader>,
}

// Whether the symbol at a position is local (gABI, Symbol Table, `st_info`).
#[inline(always)]
fn is_local(symbols: SymbolsNow<'_>, i: usize) -> bool
    requires { i < length (symbols_now symbols) }
    ensures { option_map is_local_symbol (slice_get (symbols_now symbols.entry) i) ≡ Some result }
{
    symbols.numbers(i, 0).st_info / 16 == 0
}

// One past the last local symbol, 0 where there is none (gABI, Sections, sh_info of symbol tables).
fn behind_locals(symbols: SymbolsNow<'_>) -> usize
    ensures { result ≡ behind_all (symbols_now symbols.entry) }
{
    let mut behind = 0;
    for i in 0..symbols.len() {
        if is_local(symbols, i) {
            behind = i + 1;
        }
    }
    behind
}

// One past the last local one of the dynamic symbols, in their new order.
fn behind_dynamic_locals(
    read: &Builder<'_>,
    image: &Builder<'_>,
    reordering: &Option<Reordering>,
) -> usize
    requires ready { IsEditedReady read.now image.now }
    requires reordering { IsReorderingFor read.now image.now reordering.now }
    ensures { result ≡ behind_all (final read.now image.now).dynamic_symbols }
{
    let symbols = image.dynamic_symbols();
    let mut behind = 0;
    for i in 0..symbols.len() {
        if is_local(symbols, order_of(read, image, reordering, i)) {
            behind = i + 1;
        }
    }
    behind
}

// The section headers that were read.
fn read_headers(alloc: Global, image: &Builder<'_>) -> Result<Vec<SectionHeader>, ViewFault>
    ensures { Gives (λ v. v.items) result (headers_read image.now) }
{
    let source = image.source();
    let (form, header) = open(source)?;
    sections(alloc, source, form, header)
}

// What the section headers take from the image as a whole; `None` where memory runs out.
fn known_of(
    alloc: Global,
    read: &Builder<'_>,
    image: &Builder<'_>,
    staying: &StayingNeeds,
    reordering: &Option<Reordering>,
) -> Option<Known>
    requires ready { IsEditedReady read.now image.now }
    requires staying { AreWritten read.now image.now staying.now }
    requires reordering { IsReorderingFor read.now image.now reordering.now }
    ensures { IfSome result (λ known. IsKnown image.now known) }
{
    let Ok(headers) = read_headers(alloc, image) else {
        return None;
    };
    Some(Known {
        symbols: behind_locals(image.symbols()),
        dynamic_symbols: behind_dynamic_locals(read, image, reordering),
        needs: staying.count_needs(&image.versions().needs),
        headers,
    })
}

// Where a section's name stands among the names that are written, which was read at a place.
fn name_place(image: &Builder<'_>, made: &[Made<'_>], name: &[u8], old: u32) -> u32
    requires anew { (m : Made) → made_at made.now image.now.header.e_shstrndx ≡ Some m
        → IsSome (place_of m.table name.now) }
    requires copied { made_at made.now image.now.header.e_shstrndx ≡ None
        → Reads (content_read image.now image.now.header.e_shstrndx) old name.now }
    ensures { Reads (strings_at image.now made.now image.now.header.e_shstrndx)
        result name.now }
{
    match made_of(made, image.header().e_shstrndx as usize) {
        Some(made) => made.table.offset_of(name).unwrap(),
        None => old,
    }
}

// The `sh_info` of a section that was read from a header; `None` where it is past its field.
fn info_of(
    read: &Builder<'_>,
    image: &Builder<'_>,
    known: &Known,
    sections: &NewSections,
    section: &Section<'_>,
    old: SectionHeader,
) -> Option<u32>
    requires ready { IsEditedReady read.now image.now }
    requires sections { AreNewSections read.now image.now sections.now }
    requires old { has_section_info old ≡ is_info_number (section_model section.now) }
    ensures info { IfSome result (λ info.
        info ≡ info_by known.now image.now (section_model section.now)) }
    ensures far { IfNone result
        (2 ^ 32 ≤ info_by known.now image.now (section_model section.now)) }
{
    let count = match section.sh_type {
        SHT_SYMTAB => known.symbols,
        SHT_DYNSYM => known.dynamic_symbols,
        SHT_GNU_VERDEF => image.versions().definitions.len(),
        SHT_GNU_VERNEED => known.needs,
        _ if old.has_section_info() => {
            return Some(new_number(read, image, sections, section.sh_info));
        }
        _ => return Some(section.sh_info),
    };
    if count > u32::MAX as usize {
        return None;
    }
    Some(count as u32)
}

// The header of a section at its place, its name at a place of the names.
fn header_of(
    section: &Section<'_>,
    place: &SectionPlace,
    name: u32,
    link: u32,
    info: u32,
) -> SectionHeader
    ensures { result
        ≡ header_by (section_model section.now) (place_model place.now) name link info }
{
    SectionHeader {
        sh_name: name,
        sh_type: section.sh_type,
        sh_flags: section.sh_flags,
        sh_addr: place.sh_addr,
        sh_offset: place.sh_offset,
        sh_size: place.sh_size,
        sh_link: link,
        sh_info: info,
        sh_addralign: section.sh_addralign,
        sh_entsize: section.sh_entsize,
    }
}

// The header of the section at a position; `None` where a number is past its field.
fn header_at(
    read: &Builder<'_>,
    image: &Builder<'_>,
    plan: &Plan,
    made: &[Made<'_>],
    known: &Known,
    sections: &NewSections,
    i: usize,
) -> Option<SectionHeader>
    requires ready { IsEditedReady read.now image.now }
    requires sections { AreNewSections read.now image.now sections.now }
    requires planned { IsPlanned (image_at_read image.now) image.now plan.now }
    requires strings { AreStrings (image_at_read image.now) image.now made.now }
    requires known { IsKnown image.now known.now }
    requires there { i < length image.now.sections }
    ensures header { IfSome result (IsHeaderAt (resized image.now)
        (strings_at image.now made.now image.now.header.e_shstrndx)
        (kept_sections image.now) plan.now.places i) }
    ensures far { IfNone result (do_numbers_fit image.now plan.now ≡ false) }
{
    let section = &image.sections()[i];
    let old = known.headers[image.read_section(i)];
    let Some(info) = info_of(read, image, known, sections, section, old) else {
        return None;
    };
    let name = name_place(image, made, section.name.as_slice(), old.sh_name);
    let place = &plan.places()[i];
    let link = new_number(read, image, sections, section.sh_link);
    Some(header_of(section, place, name, link, info))
}

// The section headers, one by one.
fn headers_with(
    alloc: Global,
    read: &Builder<'_>,
    image: &Builder<'_>,
    plan: &Plan,
    made: &[Made<'_>],
    known: &Known,
    sections: &NewSections,
) -> Result<Vec<SectionHeader>, TableFault>
    requires ready { IsEditedReady read.now image.now }
    requires sections { AreNewSections read.now image.now sections.now }
    requires planned { IsPlanned (image_at_read image.now) image.now plan.now }
    requires strings { AreStrings (image_at_read image.now) image.now made.now }
    requires known { IsKnown image.now known.now }
    ensures headers { IfOk result (λ headers. AreHeaders (resized image.now)
        (strings_at image.now made.now image.now.header.e_shstrndx)
        (kept_sections image.now) plan.now.places headers.items) }
    ensures fault { IfErr result (λ fault.
        fault ≡ NumberTooLarge → do_numbers_fit image.now plan.now ≡ false) }
{
    let mut headers = Vec::new(alloc);
    for i in 0..image.sections().len() {
        let Some(header) = header_at(read, image, plan, made, known, sections, i) else {
            return Err(TableFault::NumberTooLarge);
        };
        headers.push(header)?;
    }
    Ok(headers)
}

// The section headers. `NumberTooLarge` where a number is past its field.
pub(crate) fn section_headers<'data>(
    alloc: Global,
    read: &Builder<'data>,
    image: &Builder<'data>,
    plan: &Plan,
    staying: &StayingNeeds,
    reordering: &Option<Reordering>,
    sections: &NewSections,
    made: &[Made<'_>],
) -> Result<Vec<SectionHeader>, TableFault>
    requires planned { IsPlanned read.now image.now plan.now }
    requires sections { AreNewSections read.now image.now sections.now }
    requires staying { AreWritten read.now image.now staying.now }
    requires reordering { IsReorderingFor read.now image.now reordering.now }
    requires strings { AreStrings read.now image.now made.now }
    ensures headers { IfOk result (λ headers. AreHeaders (resized image.now)
        (strings_at image.now made.now image.now.header.e_shstrndx)
        (kept_sections image.now) plan.now.places headers.items) }
    ensures fault { IfErr result (λ fault.
        fault ≡ NumberTooLarge → do_numbers_fit image.now plan.now ≡ false) }
{
    let Some(known) = known_of(alloc, read, image, staying, reordering) else {
        return Err(TableFault::Memory);
    };
    headers_with(alloc, read, image, plan, made, &known, sections)
}
