ghost use Rattle.std.specs.Prelude.{◌≡◌, ◌≤◌, All, IfOk, IsTrue, length, true, ◌<◌, ◌/◌, ◌%◌, ◌==◌, ◌&&◌, ◌||◌, count_by, nat_le};
ghost use Rattle.elf_format.specs.Form.{records};
ghost use Rattle.elf_image_rules.specs.LinkSteps.{IsAmongKnown, IsChecked, IsKnown, all_names_below, names_below_limit, all_users_linked, bytes_name_below, first_name_below, fits_table, headers_linked, section_types_once, segment_types_once, some_names_symbol, symbols_right};
ghost use Rattle.elf_format.specs.Options.{is_one_of};
ghost use Rattle.elf_image_rules.specs.Read.{parts_model};
ghost use Rattle.elf_format.specs.Records.{relocation, relocation_size};
ghost use Rattle.elf_format.specs.Rules.{are_linked as all_linked, are_tables_linked as all_tables_linked, are_whole as all_whole, data_of, infos_are_sections as all_infos_are_sections, is_one_of_each as one_of_each, is_opaque_relocation as is_opaque, links_to as is_linked_to, relocated_symbols as table_of, relocations_fit as all_relocations_fit, relocations_of, symbol_users, symbols_have_sections as all_symbols_have_sections, text_users, unit_of as unit_size};

use crate::headers::Headers;
use crate::kind::{Run, covered, no_index_within, records_from};
use elf_format::Wide;
use elf_format::constants::{
    EM_MIPS, PT_DYNAMIC, PT_INTERP, PT_PHDR, SHN_LORESERVE, SHT_DYNAMIC, SHT_DYNSYM, SHT_GNU_HASH,
    SHT_GNU_VERDEF, SHT_GNU_VERNEED, SHT_GNU_VERSYM, SHT_HASH, SHT_NOBITS, SHT_NOTE, SHT_STRTAB,
    SHT_SYMTAB,
};
use elf_format::form::Form;
use elf_format::lookups::{linked_section, section_bytes};
use elf_format::numbers::read_field;
use elf_format::records::{SectionHeader, SegmentHeader};
use elf_format::section_data::SectionData;
use std::alloc::{AllocError, Global};

/// Whether what comes once comes once, and tables are linked to tables of the right kinds (gABI, Sections,
/// `sh_link` and `sh_info`).
pub fn are_tables_linked(parts: &Headers<'_>, checked: &[Checked]) -> bool
    requires { All (IsChecked parts.now.form parts.now.file.now) checked.now }
    ensures { result ≡ all_tables_linked (parts_model parts.now) }
{
    are_symbols_right(parts) && relocations_fit(parts, checked) && infos_are_sections(parts)
}

// Whether what comes once does, and tables are linked rightly, as far as headers and symbols
// say it.
fn are_symbols_right(parts: &Headers<'_>) -> bool
    ensures { result ≡ symbols_right (parts_model parts.now) }
{
    are_headers_linked(parts.form, &parts.segments, &parts.sections) && symbols_have_sections(parts)
}

// Whether what comes once does, and tables are linked rightly, as far as headers alone say it.
fn are_headers_linked(form: Form, segments: &[SegmentHeader], sections: &[SectionHeader]) -> bool
    ensures { result ≡ headers_linked form segments.now sections.now }
{
    is_one_of_each(segments, sections) && are_linked(sections) && are_whole(form, sections)
}

// Whether no two segments or sections are of a type that may come once.
fn is_one_of_each(segments: &[SegmentHeader], sections: &[SectionHeader]) -> bool
    ensures { result ≡ one_of_each segments.now sections.now }
{
    are_segments_single(segments) && are_sections_single(sections)
}

// Whether no two segments are of a type that may come once.
fn are_segments_single(segments: &[SegmentHeader]) -> bool
    ensures { result ≡ segment_types_once segments.now }
{
    [PT_DYNAMIC, PT_INTERP, PT_PHDR]
        .iter()
        .all(|kind| comes_once_in_segments(segments, *kind))
}

// Whether no two sections are of a type that may come once.
fn are_sections_single(sections: &[SectionHeader]) -> bool
    ensures { result ≡ section_types_once sections.now }
{
    [
        SHT_SYMTAB,
        SHT_DYNSYM,
        SHT_DYNAMIC,
        SHT_HASH,
        SHT_GNU_HASH,
        SHT_GNU_VERSYM,
        SHT_GNU_VERDEF,
        SHT_GNU_VERNEED,
    ]
    .iter()
    .all(|kind| comes_once_in_sections(sections, *kind))
}

// Whether at most one segment is of a type.
fn comes_once_in_segments(segments: &[SegmentHeader], kind: u32) -> bool
    ensures { result ≡ nat_le (count_by (λ p. p.p_type == kind) segments.now) 1 }
{
    segments.iter().filter(|p| p.p_type == kind).count() <= 1
}

// Whether at most one section is of a type.
fn comes_once_in_sections(sections: &[SectionHeader], kind: u32) -> bool
    ensures { result ≡ nat_le (count_by (λ s. s.sh_type == kind) sections.now) 1 }
{
    sections.iter().filter(|s| s.sh_type == kind).count() <= 1
}

// Whether tables with texts link to string tables, and tables about the dynamic symbols to the
// dynamic symbols.
fn are_linked(sections: &[SectionHeader]) -> bool
    ensures { result ≡ all_linked sections.now }
{
    are_texts_linked(sections) && are_symbols_linked(sections)
}

// Whether tables with texts link to string tables.
fn are_texts_linked(sections: &[SectionHeader]) -> bool
    ensures { result ≡ all_users_linked text_users SHT_STRTAB sections.now }
{
    sections
        .iter()
        .filter(|s| is_text_user(**s))
        .all(|s| links_to(SHT_STRTAB, sections, *s))
}

// Whether tables about the dynamic symbols link to the dynamic symbols.
fn are_symbols_linked(sections: &[SectionHeader]) -> bool
    ensures { result ≡ all_users_linked symbol_users SHT_DYNSYM sections.now }
{
    sections
        .iter()
        .filter(|s| is_symbol_user(**s))
        .all(|s| links_to(SHT_DYNSYM, sections, *s))
}

// Whether the texts of a section stand in the section that it links to.
fn is_text_user(section: SectionHeader) -> bool
    ensures { result ≡ is_one_of text_users section.sh_type }
{
    [
        SHT_SYMTAB,
        SHT_DYNSYM,
        SHT_DYNAMIC,
        SHT_GNU_VERDEF,
        SHT_GNU_VERNEED,
    ]
    .iter()
    .any(|kind| *kind == section.sh_type)
}

// Whether a section is about the symbols in the section that it links to.
fn is_symbol_user(section: SectionHeader) -> bool
    ensures { result ≡ is_one_of symbol_users section.sh_type }
{
    [SHT_HASH, SHT_GNU_HASH, SHT_GNU_VERSYM]
        .iter()
        .any(|kind| *kind == section.sh_type)
}

// Whether a section links to a section of a type.
fn links_to(kind: u32, sections: &[SectionHeader], section: SectionHeader) -> bool
    ensures { result ≡ is_linked_to kind sections.now section }
{
    match linked_section(sections, section) {
        Some(linked) => linked.sh_type == kind,
        None => false,
    }
}

// How many bytes an entry of a section takes.
fn unit_of(form: Form, section: SectionHeader) -> u64
    ensures value { result ≡ unit_size form section }
    ensures positive { 0 < result }
{
    if section.is_symbol_table() {
        return form.symbol_size() as u64;
    }
    match section.sh_type {
        SHT_DYNAMIC => form.entry_size() as u64,
        SHT_GNU_VERSYM => 2,
        SHT_GNU_HASH => 4,
        SHT_HASH if section.sh_entsize == 8 => 8,
        SHT_HASH => 4,
        _ => 1,
    }
}

// Whether no table ends within an entry.
fn are_whole(form: Form, sections: &[SectionHeader]) -> bool
    ensures { result ≡ all_whole form sections.now }
{
    sections.iter().all(|s| s.sh_size % unit_of(form, *s) == 0)
}

// Whether symbols name sections that are there, or have a number of special meaning.
fn symbols_have_sections(parts: &Headers<'_>) -> bool
    ensures { result ≡ all_symbols_have_sections (parts_model parts.now) }
{
    parts
        .sections
        .iter()
        .filter(|s| s.is_symbol_table())
        .all(|s| {
            no_index_within(
                parts.form,
                section_bytes(parts.file, *s),
                parts.header.e_shnum as u32,
                SHN_LORESERVE as u32,
            )
        })
}

// The symbol table that relocations are against.
fn relocated_symbols(sections: &[SectionHeader], section: SectionHeader) -> Option<SectionHeader>
    ensures { result ≡ table_of sections.now section }
{
    linked_section(sections, section).filter(|linked| linked.is_symbol_table())
}

// Whether a relocation names symbol 0 or one below a number.
#[tactic(auto, unfolding(elf_format::specs::Records::relocation))]
fn names_below(form: Form, kind: u32, bytes: &[u8], limit: u64) -> bool
    ensures { result ≡ names_below_limit limit (relocation form kind bytes.now) }
{
    let info = read_field(form, bytes, (4, 4), (8, 8));
    let symbol = match form.wide {
        Wide::W32 => info / 0x100,
        Wide::W64 => info / 0x1_0000_0000,
    };
    symbol == 0 || symbol < limit
}

// How many of the first relocations in bytes name symbol 0 or one below a number.
fn good_count(form: Form, kind: u32, bytes: &[u8], limit: u64) -> usize
    ensures within { result ≤ length bytes.now / relocation_size form kind }
    ensures good { first_name_below form kind limit result bytes.now ≡ true }
    ensures all { (result == length bytes.now / relocation_size form kind)
        ≡ bytes_name_below form kind limit bytes.now }
{
    let size = form.relocation_size(kind);
    let mut count = 0;
    let mut rest = bytes;
    while rest.len() >= size {
        let (relocation, after) = rest.split_at(size);
        if !names_below(form, kind, relocation, limit) {
            return count;
        }
        count += 1;
        rest = after;
    }
    count
}

/// A section of relocations, and how many symbols there are that they may name: none without a table.
#[derive(Clone, Copy)]
pub struct Relocated {
    /// The section.
    pub section: SectionHeader,
    /// How many symbols there are.
    pub limit: u64,
}

/// Whether the relocations of a section name symbols that they may, or symbol 0.
#[derive(Clone, Copy)]
pub struct Checked {
    /// The section, with how many symbols there are.
    pub of: Relocated,
    /// Whether the relocations name symbols that they may.
    pub fits: bool,
}

/// Relocations of one kind that were found to name symbols below a number, or symbol 0.
#[derive(Clone, Copy)]
pub(crate) struct Known {
    pub kind: u32,
    pub limit: u64,
    pub run: Run,
}

/// Which relocations name symbols that they may, section by section. A relocation in several sections is looked
/// at once. Those of MIPS aren't looked at, nor any where headers are wrong, as tables that don't come once.
pub fn check_relocations(alloc: Global, parts: &Headers<'_>) -> Result<Vec<Checked>, AllocError>
    ensures { IfOk result (λ checked.
        All (IsChecked parts.now.form parts.now.file.now) checked.items) }
{
    if parts.header.e_machine == EM_MIPS
        || !are_headers_linked(parts.form, &parts.segments, &parts.sections)
    {
        return Ok(Vec::new(alloc));
    }
    let mut tables = relocation_tables(alloc, parts)?;
    let form = parts.form;
    tables.sort_unstable_by_key(|table| place_of(form, *table));
    check_in_order(alloc, parts.file, parts.form, &tables)
}

// The sections of relocations.
fn relocation_tables(alloc: Global, parts: &Headers<'_>) -> Result<Vec<Relocated>, AllocError> {
    parts
        .sections
        .iter()
        .copied()
        .filter(|section| section.is_relocation_section())
        .map(|section| Relocated {
            section,
            limit: symbol_count(parts, section),
        })
        .collect(alloc)
}

// How many symbols the table has that relocations are against, 0 without one.
fn symbol_count(parts: &Headers<'_>, section: SectionHeader) -> u64 {
    match relocated_symbols(&parts.sections, section) {
        Some(table) => table.sh_size / parts.form.symbol_size() as u64,
        None => 0,
    }
}

// The place of a section where sections of one kind that may share relocations stand together.
fn place_of(form: Form, table: Relocated) -> (u32, u64, u64, u64, u64) {
    let section = table.section;
    let size = form.relocation_size(section.sh_type) as u64;
    (
        section.sh_type,
        table.limit,
        section.sh_offset % size,
        section.sh_offset,
        section.sh_size,
    )
}

// Which relocations name symbols that they may, section by section, each behind what is known of those before.
fn check_in_order(
    alloc: Global,
    file: &[u8],
    form: Form,
    tables: &[Relocated],
) -> Result<Vec<Checked>, AllocError>
    ensures { IfOk result (λ checked. All (IsChecked form file.now) checked.items) }
{
    let mut checked = Vec::new(alloc);
    let mut known = Known {
        kind: 0,
        limit: 0,
        run: Run { start: 0, count: 0 },
    };
    for table in tables {
        let (fits, reached) = check_behind(file, form, *table, known);
        checked.push(Checked { of: *table, fits })?;
        known = reached;
    }
    Ok(checked)
}

// Whether the relocations of a section name symbols that they may, and what is known then.
fn check_behind(file: &[u8], form: Form, table: Relocated, known: Known) -> (bool, Known)
    requires { IsKnown form file.now known }
    ensures fits { result.0 ≡ all_names_below form file.now table.limit table.section }
    ensures known { IsKnown form file.now result.1 }
{
    let kind = table.section.sh_type;
    let size = form.relocation_size(kind);
    let bytes = section_bytes(file, table.section);
    let start = table.section.sh_offset as usize;
    let count = bytes.len() / size;
    let skip = known_count(size, table, Run { start, count }, known);
    let good = skip + good_count(form, kind, records_from(size, bytes, skip), table.limit);
    if skip == count {
        return (good == count, known);
    }
    let reached = Known {
        kind,
        limit: table.limit,
        run: Run { start, count: good },
    };
    (good == count, reached)
}

// How many of the first relocations of a section are among those that are known.
fn known_count(size: usize, table: Relocated, run: Run, known: Known) -> usize
    requires { 0 < size }
    ensures within { result ≤ run.count }
    ensures among { IsAmongKnown size table run known result }
{
    if known.kind != table.section.sh_type || known.limit != table.limit {
        return 0;
    }
    covered(size, run, known.run)
}

// Whether two sections have the same relocations, and these may name the same symbols.
fn is_same(first: Relocated, second: Relocated) -> bool
    ensures limit { IsTrue result → first.limit ≡ second.limit }
    ensures kind { IsTrue result → first.section.sh_type ≡ second.section.sh_type }
    ensures offset { IsTrue result → first.section.sh_offset ≡ second.section.sh_offset }
    ensures size { IsTrue result → first.section.sh_size ≡ second.section.sh_size }
{
    first.limit == second.limit
        && first.section.sh_type == second.section.sh_type
        && first.section.sh_offset == second.section.sh_offset
        && first.section.sh_size == second.section.sh_size
}

// Whether the relocations of a section name symbols that they may, by what was checked.
fn all_name_below(parts: &Headers<'_>, checked: &[Checked], table: Relocated) -> bool
    requires { All (IsChecked parts.now.form parts.now.file.now) checked.now }
    ensures { result ≡ all_names_below parts.now.form parts.now.file.now table.limit table.section }
{
    let form = parts.form;
    let place = place_of(form, table);
    if let Ok(i) = checked.binary_search_by_key(&place, |other| place_of(form, other.of)) {
        if is_same(checked[i].of, table) {
            return checked[i].fits;
        }
    }
    let kind = table.section.sh_type;
    let bytes = section_bytes(parts.file, table.section);
    good_count(form, kind, bytes, table.limit) == bytes.len() / form.relocation_size(kind)
}

// Whether some relocation of a section names a symbol other than symbol 0.
#[tactic(auto, using(crate::proofs::LinkSteps::some_name_symbols))]
fn some_name_symbols(parts: &Headers<'_>, checked: &[Checked], section: SectionHeader) -> bool
    requires { All (IsChecked parts.now.form parts.now.file.now) checked.now }
    ensures { result ≡ some_names_symbol (parts_model parts.now) section }
{
    !all_name_below(parts, checked, Relocated { section, limit: 0 })
}

// Whether relocations are kept as they are: those of MIPS, and those that name symbols but have no table.
fn is_opaque_relocation(parts: &Headers<'_>, checked: &[Checked], section: SectionHeader) -> bool
    requires { All (IsChecked parts.now.form parts.now.file.now) checked.now }
    ensures { result ≡ is_opaque (parts_model parts.now) section }
{
    parts.header.e_machine == EM_MIPS
        || relocated_symbols(&parts.sections, section).is_none()
            && some_name_symbols(parts, checked, section)
}

// Whether relocations that aren't kept as they are are whole, and name symbols of their table.
fn relocations_fit(parts: &Headers<'_>, checked: &[Checked]) -> bool
    requires { All (IsChecked parts.now.form parts.now.file.now) checked.now }
    ensures { result ≡ all_relocations_fit (parts_model parts.now) }
{
    parts
        .sections
        .iter()
        .filter(|s| s.is_relocation_section() && !is_opaque_relocation(parts, checked, **s))
        .all(|s| fits(parts, checked, *s))
}

// Whether the relocations of a section are whole, and name symbols of their table.
fn fits(parts: &Headers<'_>, checked: &[Checked], section: SectionHeader) -> bool
    requires { All (IsChecked parts.now.form parts.now.file.now) checked.now }
    ensures { result ≡ fits_table parts.now.form parts.now.sections.items
        (relocations_of (parts_model parts.now) section) section }
{
    if section.sh_size % parts.form.relocation_size(section.sh_type) as u64 != 0 {
        return false;
    }
    match relocated_symbols(&parts.sections, section) {
        Some(table) => {
            let limit = table.sh_size / parts.form.symbol_size() as u64;
            all_name_below(parts, checked, Relocated { section, limit })
        }
        None => true,
    }
}

// Whether section numbers in sh_info are those of sections that are there.
fn infos_are_sections(parts: &Headers<'_>) -> bool
    ensures { result ≡ all_infos_are_sections (parts_model parts.now) }
{
    parts
        .sections
        .iter()
        .filter(|s| s.has_section_info())
        .all(|s| s.sh_info < parts.header.e_shnum as u32)
}

/// What the bytes of a section are (gABI, Sections, `sh_type`; relocations that are kept as they are, are opaque).
pub fn kind_of(parts: &Headers<'_>, checked: &[Checked], section: SectionHeader) -> SectionData
    requires { All (IsChecked parts.now.form parts.now.file.now) checked.now }
    ensures { result ≡ data_of (parts_model parts.now) section }
{
    if section.is_relocation_section() {
        return if is_opaque_relocation(parts, checked, section) {
            SectionData::Opaque
        } else {
            SectionData::Relocation
        };
    }
    match section.sh_type {
        SHT_NOBITS => SectionData::Uninitialized,
        SHT_DYNAMIC => SectionData::Dynamic,
        SHT_NOTE => SectionData::Note,
        SHT_STRTAB => SectionData::Strings,
        SHT_SYMTAB => SectionData::Symbols,
        SHT_DYNSYM => SectionData::DynamicSymbols,
        SHT_HASH => SectionData::Hash,
        SHT_GNU_HASH => SectionData::GnuHash,
        SHT_GNU_VERSYM => SectionData::GnuVersym,
        SHT_GNU_VERDEF => SectionData::GnuVerdef,
        SHT_GNU_VERNEED => SectionData::GnuVerneed,
        _ => SectionData::Opaque,
    }
}
