ghost use Rattle.std.specs.Prelude.{◌≡◌, ◌<◌, ◌≤◌, ◌*◌, ◌/◌, IfOk, filter, ◌==◌, ◌&&◌, ◌||◌, [], ◌∷◌, drop, length, nat_lt, not};
ghost use Rattle.std.specs.List.{list_all};
ghost use Rattle.elf_format.specs.File.{section_bytes as bytes_of_section, sections_there as headers_there};
ghost use Rattle.elf_image_rules.specs.LinkSteps.{IsAmong, all_numbers_plain, is_index_outside};
ghost use Rattle.elf_format.specs.Options.{is_one_of};
ghost use Rattle.elf_format.specs.Seen.{opened_model};
ghost use Rattle.elf_format.specs.Records.{section_header_size, segment_header_size, symbol_numbers, symbols_in};
ghost use Rattle.elf_format.specs.Rules.{is_file_kind as is_kind, is_symbol_table, names_are_texts as are_names_texts, no_extended_numbers as none_extended};

use elf_format::constants::{ET_DYN, ET_EXEC, PN_XNUM, SHN_LORESERVE, SHN_XINDEX, SHT_STRTAB};
use elf_format::form::Form;
use elf_format::lookups::section_bytes;
use elf_format::numbers::{part, read_half, read_section_header};
use elf_format::records::{FileHeader, SectionHeader};
use elf_format::tables::read_records;
use std::alloc::{AllocError, Global};

/// Records of one size that stand end to end in the file: where the first stands, and how many they are.
#[derive(Clone, Copy)]
pub(crate) struct Run {
    pub start: usize,
    pub count: usize,
}

// Whether the file is a program or a shared library, with section headers, and with tables that are
// read.
pub(crate) fn is_file_kind(
    alloc: Global,
    file: &[u8],
    form: Form,
    header: FileHeader,
) -> Result<bool, AllocError>
    ensures { IfOk result (λ answer. answer ≡ is_kind (opened_model file.now (form, header))) }
{
    if !is_header_kind(form, header) || !names_are_texts(file, form, header) {
        return Ok(false);
    }
    no_extended_numbers(alloc, file, form, header)
}

// Whether the file is of a kind that is read, as far as the file header says it.
fn is_header_kind(form: Form, header: FileHeader) -> bool
    ensures { result ≡ (is_one_of (ET_EXEC ∷ ET_DYN ∷ []) header.e_type
        && not (header.e_shoff == 0) && not (header.e_shnum == 0)
        && nat_lt header.e_shnum SHN_LORESERVE && nat_lt header.e_phnum PN_XNUM
        && header.e_phentsize == segment_header_size form
        && header.e_shentsize == section_header_size form
        && nat_lt header.e_shstrndx header.e_shnum) }
{
    has_plain_counts(header)
        && header.e_phentsize as usize == form.segment_header_size()
        && header.e_shentsize as usize == form.section_header_size()
        && header.e_shstrndx < header.e_shnum
}

// Whether the file is a program or a shared library, with section headers, and has no more headers
// than plain numbering has.
fn has_plain_counts(header: FileHeader) -> bool
    ensures { result ≡ (is_one_of (ET_EXEC ∷ ET_DYN ∷ []) header.e_type
        && not (header.e_shoff == 0) && not (header.e_shnum == 0)
        && nat_lt header.e_shnum SHN_LORESERVE && nat_lt header.e_phnum PN_XNUM) }
{
    [ET_EXEC, ET_DYN].iter().any(|kind| *kind == header.e_type)
        && header.e_shoff != 0
        && header.e_shnum != 0
        && header.e_shnum < SHN_LORESERVE
        && header.e_phnum < PN_XNUM
}

// Whether the section of names is a string table, as far as its header lies in the file.
fn names_are_texts(file: &[u8], form: Form, header: FileHeader) -> bool
    ensures { result ≡ are_names_texts (opened_model file.now (form, header)) }
{
    let size = form.section_header_size();
    let length = file.len() as u64;
    let before = header.e_shstrndx as u64 * size as u64 + size as u64;
    if before > length || header.e_shoff > length - before {
        return true;
    }
    let start = header.e_shoff as usize + header.e_shstrndx as usize * size;
    read_section_header(form, part(file, start, size)).sh_type == SHT_STRTAB
}

// Whether no symbol says to look elsewhere for its section's number, as far as headers and tables lie in
// the file.
fn no_extended_numbers(
    alloc: Global,
    file: &[u8],
    form: Form,
    header: FileHeader,
) -> Result<bool, AllocError>
    ensures { IfOk result (λ answer.
        answer ≡ none_extended (opened_model file.now (form, header))) }
{
    let size = form.symbol_size();
    let sections = sections_there(alloc, file, form, header)?;
    let mut tables = symbol_tables(alloc, &sections)?;
    tables.sort_unstable_by_key(|table| (table.sh_offset as usize % size, table.sh_offset));
    Ok(are_numbers_plain(file, form, &tables))
}

// The section headers that lie in the file.
#[tactic(auto, unfolding(elf_format::specs::File::sections_there))]
fn sections_there(
    alloc: Global,
    file: &[u8],
    form: Form,
    header: FileHeader,
) -> Result<Vec<SectionHeader>, AllocError>
    ensures { IfOk result (λ sections.
        sections.items ≡ headers_there (opened_model file.now (form, header))) }
{
    let size = form.section_header_size();
    let rest = bytes_from(file, header.e_shoff as usize);
    let count = (rest.len() / size).min(header.e_shnum as usize);
    read_records(alloc, form, size, count, rest)
}

// The symbol tables of sections.
fn symbol_tables(
    alloc: Global,
    sections: &[SectionHeader],
) -> Result<Vec<SectionHeader>, AllocError>
    ensures { IfOk result (λ tables. tables.items ≡ filter is_symbol_table sections.now) }
{
    sections
        .iter()
        .copied()
        .filter(|section| section.is_symbol_table())
        .collect(alloc)
}

// Whether no symbol of tables says to look elsewhere for its section's number. What a table shares with those
// before it isn't looked at again, where they are in the order of their offsets.
fn are_numbers_plain(file: &[u8], form: Form, tables: &[SectionHeader]) -> bool
    ensures { result ≡ list_all
        (λ s. all_numbers_plain form (bytes_of_section file.now s)) tables.now }
{
    let size = form.symbol_size();
    let mut done = Run { start: 0, count: 0 };
    for table in tables {
        let bytes = section_bytes(file, *table);
        let run = Run {
            start: table.sh_offset as usize,
            count: bytes.len() / size,
        };
        let skip = covered(size, run, done);
        if !has_plain_numbers(form, records_from(size, bytes, skip)) {
            return false;
        }
        if skip < run.count {
            done = run;
        }
    }
    true
}

// How many of the first records of a run are among those of another.
pub(crate) fn covered(size: usize, run: Run, done: Run) -> usize
    requires { 0 < size }
    ensures within { result ≤ run.count }
    ensures among { IsAmong size run done result }
{
    if run.start < done.start || (run.start - done.start) % size != 0 {
        return 0;
    }
    let before = (run.start - done.start) / size;
    if before > done.count {
        return 0;
    }
    run.count.min(done.count - before)
}

// The records behind the first of so many.
pub(crate) fn records_from(size: usize, bytes: &[u8], count: usize) -> &[u8]
    requires positive { 0 < size }
    requires within { count ≤ length bytes.now / size }
    ensures { result.now ≡ drop (count * size) bytes.now }
{
    &bytes[count * size..]
}

// The bytes from a place on.
fn bytes_from(bytes: &[u8], place: usize) -> &[u8]
    ensures { result.now ≡ drop place bytes.now }
{
    if place < bytes.len() {
        &bytes[place..]
    } else {
        &[]
    }
}

// Whether no symbol in bytes says to look elsewhere for its section's number.
fn has_plain_numbers(form: Form, bytes: &[u8]) -> bool
    ensures { result ≡ all_numbers_plain form bytes.now }
{
    no_index_within(form, bytes, SHN_XINDEX as u32, SHN_XINDEX as u32 + 1)
}

// Whether the number of a symbol's section is below the first of two, or not below the second.
#[tactic(auto, unfolding(elf_format::specs::Records::symbol_numbers))]
fn is_outside(form: Form, symbol: &[u8], low: u32, high: u32) -> bool
    ensures { result ≡ is_index_outside low high (symbol_numbers form symbol.now) }
{
    let index = read_half(form, symbol, 14, 6) as u32;
    index < low || high <= index
}

// Whether no symbol is of a section whose number is from the first of two on and below the second.
pub(crate) fn no_index_within(form: Form, bytes: &[u8], low: u32, high: u32) -> bool
    ensures { result ≡ list_all (is_index_outside low high) (symbols_in form bytes.now) }
{
    let size = form.symbol_size();
    let mut rest = bytes;
    while rest.len() >= size {
        let (symbol, after) = rest.split_at(size);
        if !is_outside(form, symbol, low, high) {
            return false;
        }
        rest = after;
    }
    true
}
