// Which tag of the dynamic list contradicts a table.
ghost use Rattle.std.specs.Prelude.{◌≡◌, ◌&&◌, ◌==◌, count_by, find, nat_le, not};
ghost use Rattle.elf_format.specs.Dynamic.{table_tags};
ghost use Rattle.elf_format.specs.File.{is_allocated};
ghost use Rattle.elf_format.specs.Options.{is_some_and};
ghost use Rattle.elf_format.specs.Rules.{raw_entries as entries_of};
ghost use Rattle.elf_image_rules.specs.Read.{parts_model};
ghost use Rattle.elf_image_reasons.specs.Details.{list_detail as list_by, missing_tag as missing_by, repeated_tag as repeated_by, tables_detail as detail_by, told_unless as told_by, wrong_address as address_by, wrong_count as count_wrong, wrong_hashes as hashes_by, wrong_records as records_by, wrong_size as size_by, wrong_strings as strings_by, wrong_symbols as symbols_by, wrong_tables as tables_by, wrong_unit as unit_by, wrong_versions as versions_by};

use elf_format::constants::{
    DT_GNU_HASH, DT_HASH, DT_STRSZ, DT_STRTAB, DT_SYMENT, DT_SYMTAB, DT_VERDEF, DT_VERDEFNUM,
    DT_VERNEED, DT_VERNEEDNUM, DT_VERSYM, SHT_DYNAMIC, SHT_DYNSYM, SHT_GNU_HASH, SHT_GNU_VERDEF,
    SHT_GNU_VERNEED, SHT_GNU_VERSYM, SHT_HASH,
};
use elf_format::lookups::{has_tag, linked_section, section_of_type, value_of_tag};
use elf_format::records::{EntryNumbers, SectionHeader};
use elf_image_flaws::detail::Detail;
use elf_image_flaws::flaws::first_there;
use elf_image_rules::headers::Headers;

// Whether a tag comes more than once.
fn is_repeated(raw: &[EntryNumbers], tag: u64) -> bool
    ensures { result ≡ not (nat_le (count_by (λ e. e.d_tag == tag) raw.now) 1) }
{
    raw.iter().filter(|e| e.d_tag == tag).count() > 1
}

// The first table tag that comes more than once.
fn first_repeated(raw: &[EntryNumbers]) -> Option<u64>
    ensures { result ≡ find
        (λ tag. not (nat_le (count_by (λ e. e.d_tag == tag) raw.now) 1)) table_tags }
{
    [
        DT_STRTAB,
        DT_STRSZ,
        DT_SYMTAB,
        DT_SYMENT,
        DT_HASH,
        DT_GNU_HASH,
        DT_VERSYM,
        DT_VERDEF,
        DT_VERDEFNUM,
        DT_VERNEED,
        DT_VERNEEDNUM,
    ]
    .iter()
    .copied()
    .find(|tag| is_repeated(raw, *tag))
}

// The first table tag that comes more than once, as a detail.
fn repeated_tag(raw: &[EntryNumbers]) -> Option<Detail>
    ensures { result ≡ repeated_by raw.now }
{
    let tag = first_repeated(raw)?;
    Some(Detail::RepeatedTag { tag })
}

// The string table's tag, where it is missing.
fn missing_tag(raw: &[EntryNumbers]) -> Option<Detail>
    ensures { result ≡ missing_by raw.now }
{
    if has_tag(raw, DT_STRTAB) {
        return None;
    }
    Some(Detail::MissingTag { tag: DT_STRTAB })
}

// A tag with its value, unless that is right.
fn told_unless(right: bool, tag: u64, value: u64) -> Option<Detail>
    ensures { result ≡ told_by right tag value }
{
    if right {
        return None;
    }
    Some(Detail::Tag { tag, value })
}

// Whether a value is the address of an allocated section that is there.
fn is_address(section: Option<SectionHeader>, value: u64) -> bool
    ensures { result ≡ is_some_and (λ s. is_allocated s && s.sh_addr == value) section }
{
    match section {
        None => false,
        Some(s) => s.is_allocated() && s.sh_addr == value,
    }
}

// A tag whose value isn't the address of its allocated section.
fn wrong_address(raw: &[EntryNumbers], tag: u64, section: Option<SectionHeader>) -> Option<Detail>
    ensures { result ≡ address_by raw.now tag section }
{
    let value = value_of_tag(raw, tag)?;
    told_unless(is_address(section, value), tag, value)
}

// Whether a value is no more than the size of a section that is there.
fn is_within(section: Option<SectionHeader>, value: u64) -> bool
    ensures { result ≡ is_some_and (λ s. nat_le value s.sh_size) section }
{
    match section {
        None => false,
        Some(s) => value <= s.sh_size,
    }
}

// DT_STRSZ, where it is more than the size of the strings.
fn wrong_size(raw: &[EntryNumbers], strings: Option<SectionHeader>) -> Option<Detail>
    ensures { result ≡ size_by raw.now strings }
{
    let value = value_of_tag(raw, DT_STRSZ)?;
    told_unless(is_within(strings, value), DT_STRSZ, value)
}

// DT_SYMENT, where it isn't the size of a symbol, or there are no symbols.
fn wrong_unit(size: usize, raw: &[EntryNumbers], symbols: Option<SectionHeader>) -> Option<Detail>
    ensures { result ≡ unit_by size raw.now symbols }
{
    let value = value_of_tag(raw, DT_SYMENT)?;
    told_unless(symbols.is_some() && value == size as u64, DT_SYMENT, value)
}

// Whether a value is the count of the records of a section that is there.
fn is_count(section: Option<SectionHeader>, value: u64) -> bool
    ensures { result ≡ is_some_and (λ s. s.sh_info == value) section }
{
    match section {
        None => false,
        Some(s) => s.sh_info as u64 == value,
    }
}

// A tag whose value isn't the count of the records of its section.
fn wrong_count(raw: &[EntryNumbers], tag: u64, records: Option<SectionHeader>) -> Option<Detail>
    ensures { result ≡ count_wrong raw.now tag records }
{
    let value = value_of_tag(raw, tag)?;
    told_unless(is_count(records, value), tag, value)
}

// The first tag of the strings that is wrong.
fn wrong_strings(raw: &[EntryNumbers], strings: Option<SectionHeader>) -> Option<Detail>
    ensures { result ≡ strings_by raw.now strings }
{
    first_there(
        wrong_address(raw, DT_STRTAB, strings),
        wrong_size(raw, strings),
    )
}

// The first tag of the dynamic symbols that is wrong.
fn wrong_symbols(
    size: usize,
    raw: &[EntryNumbers],
    symbols: Option<SectionHeader>,
) -> Option<Detail>
    ensures { result ≡ symbols_by size raw.now symbols }
{
    first_there(
        wrong_address(raw, DT_SYMTAB, symbols),
        wrong_unit(size, raw, symbols),
    )
}

// The first tag of the hash tables that is wrong.
fn wrong_hashes(raw: &[EntryNumbers], sections: &[SectionHeader]) -> Option<Detail>
    ensures { result ≡ hashes_by raw.now sections.now }
{
    first_there(
        wrong_address(raw, DT_HASH, section_of_type(sections, SHT_HASH)),
        wrong_address(raw, DT_GNU_HASH, section_of_type(sections, SHT_GNU_HASH)),
    )
}

// The first tag of the records of versions that is wrong.
fn wrong_records(
    raw: &[EntryNumbers],
    tag: u64,
    count_tag: u64,
    records: Option<SectionHeader>,
) -> Option<Detail>
    ensures { result ≡ records_by raw.now tag count_tag records }
{
    first_there(
        wrong_address(raw, tag, records),
        wrong_count(raw, count_tag, records),
    )
}

// The first tag of the version tables that is wrong.
fn wrong_versions(raw: &[EntryNumbers], sections: &[SectionHeader]) -> Option<Detail>
    ensures { result ≡ versions_by raw.now sections.now }
{
    let defined = section_of_type(sections, SHT_GNU_VERDEF);
    let needed = section_of_type(sections, SHT_GNU_VERNEED);
    first_there(
        wrong_address(raw, DT_VERSYM, section_of_type(sections, SHT_GNU_VERSYM)),
        first_there(
            wrong_records(raw, DT_VERDEF, DT_VERDEFNUM, defined),
            wrong_records(raw, DT_VERNEED, DT_VERNEEDNUM, needed),
        ),
    )
}

// The first tag of the symbols, hash tables and versions that is wrong.
fn wrong_tables(size: usize, raw: &[EntryNumbers], sections: &[SectionHeader]) -> Option<Detail>
    ensures { result ≡ tables_by size raw.now sections.now }
{
    first_there(
        wrong_symbols(size, raw, section_of_type(sections, SHT_DYNSYM)),
        first_there(wrong_hashes(raw, sections), wrong_versions(raw, sections)),
    )
}

// The first tag of a dynamic list that contradicts a table.
fn list_detail(
    size: usize,
    raw: &[EntryNumbers],
    sections: &[SectionHeader],
    strings: Option<SectionHeader>,
) -> Option<Detail>
    ensures { result ≡ list_by size raw.now sections.now strings }
{
    first_there(
        first_there(repeated_tag(raw), missing_tag(raw)),
        first_there(
            wrong_strings(raw, strings),
            wrong_tables(size, raw, sections),
        ),
    )
}

// What contradicts the rule on the tables of the dynamic list.
#[tactic(auto, unfolding(crate::specs::Details::tables_detail))]
pub(crate) fn tables_detail(parts: &Headers<'_>, raw: &[EntryNumbers]) -> Option<Detail>
    requires { raw.now ≡ entries_of (parts_model parts.now) }
    ensures { result ≡ detail_by (parts_model parts.now) }
{
    let list = section_of_type(&parts.sections, SHT_DYNAMIC)?;
    let strings = linked_section(&parts.sections, list);
    list_detail(parts.form.symbol_size(), raw, &parts.sections, strings)
}
