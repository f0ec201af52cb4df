//! The tables that the dynamic list names: each table tag holds the address, the size or the count of
//! its section.

ghost use Rattle.std.specs.Prelude.{◌≡◌, ◌==◌, count_by, nat_le};
ghost use Rattle.elf_format.specs.File.{section_of_type as first_section};
ghost use Rattle.elf_image_rules.specs.Read.{parts_model};
ghost use Rattle.elf_format.specs.Records.{symbol_size};
ghost use Rattle.elf_format.specs.Rules.{are_dynamic_tables_right as tables_right, dynamic_tables_agree as tables_agree, hashes_agree as hash_tags_agree, raw_entries as entries_of, records_agree as record_tags_agree, shares_texts as has_shared_texts, strings_agree as string_tags_agree, symbols_agree as symbol_tags_agree, tag_fits, tag_is_address as is_address_at, tags_come_once as table_tags_come_once, texts_are_shared as all_texts_shared, versions_agree as version_tags_agree};

use crate::headers::Headers;
use elf_format::constants::{
    DT_GNU_HASH, DT_HASH, DT_STRSZ, DT_STRTAB, DT_SYMENT, DT_SYMTAB, DT_VERDEF, DT_VERDEFNUM,
    DT_VERNEED, DT_VERNEEDNUM, DT_VERSYM, SHT_DYNAMIC, SHT_DYNSYM, SHT_GNU_HASH, SHT_GNU_VERDEF,
    SHT_GNU_VERNEED, SHT_GNU_VERSYM, SHT_HASH,
};
use elf_format::form::Form;
use elf_format::lookups::{has_tag, linked_section, section_of_type, value_of_tag};
use elf_format::records::{EntryNumbers, SectionHeader};

// The first section of a type.
fn section_of(parts: &Headers<'_>, kind: u32) -> Option<SectionHeader>
    ensures { result ≡ first_section kind parts.now.sections.items }
{
    section_of_type(&parts.sections, kind)
}

// Whether a tag comes once at most.
fn comes_once(raw: &[EntryNumbers], tag: u64) -> bool
    ensures { result ≡ nat_le (count_by (λ e. e.d_tag == tag) raw.now) 1 }
{
    raw.iter().filter(|e| e.d_tag == tag).count() <= 1
}

// Whether each table tag comes once at most.
fn tags_come_once(raw: &[EntryNumbers]) -> bool
    ensures { result ≡ table_tags_come_once raw.now }
{
    [
        DT_STRTAB,
        DT_STRSZ,
        DT_SYMTAB,
        DT_SYMENT,
        DT_HASH,
        DT_GNU_HASH,
        DT_VERSYM,
        DT_VERDEF,
        DT_VERDEFNUM,
        DT_VERNEED,
        DT_VERNEEDNUM,
    ]
    .iter()
    .all(|tag| comes_once(raw, *tag))
}

// Whether the value of a tag, where it is there, is the address of an allocated section.
fn tag_is_address(raw: &[EntryNumbers], tag: u64, section: Option<SectionHeader>) -> bool
    ensures { result ≡ is_address_at raw.now tag section }
{
    let Some(value) = value_of_tag(raw, tag) else {
        return true;
    };
    match section {
        None => false,
        Some(s) => s.is_allocated() && s.sh_addr == value,
    }
}

// Whether DT_STRSZ, where it is there, is no more than the size of the strings.
fn size_fits(raw: &[EntryNumbers], strings: Option<SectionHeader>) -> bool
    ensures { result ≡ tag_fits raw.now DT_STRSZ strings (λ value s. nat_le value s.sh_size) }
{
    let Some(value) = value_of_tag(raw, DT_STRSZ) else {
        return true;
    };
    match strings {
        None => false,
        Some(s) => value <= s.sh_size,
    }
}

// Whether DT_SYMENT, where it is there, is the size of a symbol, and there are symbols.
fn entry_size_fits(form: Form, raw: &[EntryNumbers], symbols: Option<SectionHeader>) -> bool
    ensures { result ≡ tag_fits raw.now DT_SYMENT symbols (λ value _. value == symbol_size form) }
{
    let Some(value) = value_of_tag(raw, DT_SYMENT) else {
        return true;
    };
    match symbols {
        None => false,
        Some(_) => value == form.symbol_size() as u64,
    }
}

// Whether a tag's value, where it is there, is the count of a section's records.
fn count_fits(raw: &[EntryNumbers], tag: u64, records: Option<SectionHeader>) -> bool
    ensures { result ≡ tag_fits raw.now tag records (λ value s. s.sh_info == value) }
{
    let Some(value) = value_of_tag(raw, tag) else {
        return true;
    };
    match records {
        None => false,
        Some(s) => s.sh_info as u64 == value,
    }
}

// Whether the list names the string table that its section links to, and no more bytes of it than there are.
fn strings_agree(parts: &Headers<'_>, raw: &[EntryNumbers], list: SectionHeader) -> bool
    requires { raw.now ≡ entries_of (parts_model parts.now) }
    ensures { result ≡ string_tags_agree (parts_model parts.now) list }
{
    let strings = linked_section(&parts.sections, list);
    has_tag(raw, DT_STRTAB) && tag_is_address(raw, DT_STRTAB, strings) && size_fits(raw, strings)
}

// Whether the tags of the dynamic symbols agree with their section.
fn symbols_agree(parts: &Headers<'_>, raw: &[EntryNumbers]) -> bool
    requires { raw.now ≡ entries_of (parts_model parts.now) }
    ensures { result ≡ symbol_tags_agree (parts_model parts.now) }
{
    let symbols = section_of(parts, SHT_DYNSYM);
    tag_is_address(raw, DT_SYMTAB, symbols) && entry_size_fits(parts.form, raw, symbols)
}

// Whether the tags of the hash tables agree with their sections.
fn hashes_agree(parts: &Headers<'_>, raw: &[EntryNumbers]) -> bool
    requires { raw.now ≡ entries_of (parts_model parts.now) }
    ensures { result ≡ hash_tags_agree (parts_model parts.now) }
{
    tag_is_address(raw, DT_HASH, section_of(parts, SHT_HASH))
        && tag_is_address(raw, DT_GNU_HASH, section_of(parts, SHT_GNU_HASH))
}

// Whether the tags of records of versions agree with their section: where they are, and how many.
fn records_agree(
    parts: &Headers<'_>,
    raw: &[EntryNumbers],
    tag: u64,
    count_tag: u64,
    kind: u32,
) -> bool
    requires { raw.now ≡ entries_of (parts_model parts.now) }
    ensures { result ≡ record_tags_agree (parts_model parts.now) tag count_tag kind }
{
    let records = section_of(parts, kind);
    tag_is_address(raw, tag, records) && count_fits(raw, count_tag, records)
}

// Whether the tags of all version tables agree with their sections.
fn versions_agree(parts: &Headers<'_>, raw: &[EntryNumbers]) -> bool
    requires { raw.now ≡ entries_of (parts_model parts.now) }
    ensures { result ≡ version_tags_agree (parts_model parts.now) }
{
    tag_is_address(raw, DT_VERSYM, section_of(parts, SHT_GNU_VERSYM))
        && records_agree(parts, raw, DT_VERDEF, DT_VERDEFNUM, SHT_GNU_VERDEF)
        && records_agree(parts, raw, DT_VERNEED, DT_VERNEEDNUM, SHT_GNU_VERNEED)
}

// Whether a section, where it is there, has its texts where the dynamic list has its own.
fn shares_texts(parts: &Headers<'_>, list: SectionHeader, kind: u32) -> bool
    ensures { result ≡ has_shared_texts (parts_model parts.now) list kind }
{
    match section_of(parts, kind) {
        None => true,
        Some(s) => s.sh_link == list.sh_link,
    }
}

// Whether symbols and version records have their texts where the dynamic list has its own.
fn texts_are_shared(parts: &Headers<'_>, list: SectionHeader) -> bool
    ensures { result ≡ all_texts_shared (parts_model parts.now) list }
{
    shares_texts(parts, list, SHT_DYNSYM)
        && shares_texts(parts, list, SHT_GNU_VERDEF)
        && shares_texts(parts, list, SHT_GNU_VERNEED)
}

// Whether each table tag of the list comes once at most and agrees with its section.
fn dynamic_tables_agree(parts: &Headers<'_>, raw: &[EntryNumbers], list: SectionHeader) -> bool
    requires { raw.now ≡ entries_of (parts_model parts.now) }
    ensures { result ≡ tables_agree (parts_model parts.now) list }
{
    tags_come_once(raw)
        && strings_agree(parts, raw, list)
        && symbols_agree(parts, raw)
        && hashes_agree(parts, raw)
        && versions_agree(parts, raw)
        && texts_are_shared(parts, list)
}

// Whether the dynamic list, where it is there, agrees with the sections of the tables that it names.
pub(crate) fn are_dynamic_tables_right(parts: &Headers<'_>, raw: &[EntryNumbers]) -> bool
    requires { raw.now ≡ entries_of (parts_model parts.now) }
    ensures { result ≡ tables_right (parts_model parts.now) }
{
    match section_of(parts, SHT_DYNAMIC) {
        None => true,
        Some(list) => dynamic_tables_agree(parts, raw, list),
    }
}
