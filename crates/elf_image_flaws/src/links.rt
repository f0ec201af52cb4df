// What contradicts the rule on what comes once and on links.
ghost use Rattle.std.specs.Prelude.{◌≡◌, ◌<◌, ◌==◌, nat_le, position, sum_by};
ghost use Rattle.elf_format.specs.Options.{is_one_of, is_some_and};
ghost use Rattle.elf_format.specs.Rules.{single_section_types, unit_of as unit_size};
ghost use Rattle.elf_image_rules.specs.Read.{parts_model};
ghost use Rattle.elf_image_flaws.specs.Flaws.{are_relocations_read as relocations_read, first_flawed, header_flaw as header_by, info_flaw as info_by, link_flaw as link_by, link_told as linked_by, relocation_bytes as bytes_by, repeated_flaw as repeated_by, size_told as size_by, table_flaw as table_by, wanted_link as wanted_by, broken_links as links_by};

use crate::flaws::{Flaw, first_there, flaw_unless};
use crate::symbols::{relocations_flaw, symbols_flaw};
use elf_format::constants::{
    EM_MIPS, SHT_DYNAMIC, SHT_DYNSYM, SHT_GNU_HASH, SHT_GNU_VERDEF, SHT_GNU_VERNEED,
    SHT_GNU_VERSYM, SHT_HASH, SHT_STRTAB, SHT_SYMTAB,
};
use elf_format::form::Form;
use elf_format::lookups::linked_section;
use elf_format::records::SectionHeader;
use elf_image_rules::headers::Headers;

/// The number of the first section of a type.
pub fn place_of_type(sections: &[SectionHeader], kind: u32) -> Option<usize>
    ensures { result ≡ position (λ s. s.sh_type == kind) sections.now }
{
    sections.iter().position(|s| s.sh_type == kind)
}

// Whether sections of a type may come once.
fn comes_once(kind: u32) -> bool
    ensures { result ≡ is_one_of single_section_types kind }
{
    match kind {
        SHT_SYMTAB
        | SHT_DYNSYM
        | SHT_DYNAMIC
        | SHT_HASH
        | SHT_GNU_HASH
        | SHT_GNU_VERSYM
        | SHT_GNU_VERDEF
        | SHT_GNU_VERNEED => true,
        _ => false,
    }
}

// Whether the first section of a type has a number.
fn is_first(sections: &[SectionHeader], kind: u32, number: usize) -> bool
    ensures { result
        ≡ is_some_and (λ i. i == number) (position (λ s. s.sh_type == kind) sections.now) }
{
    match place_of_type(sections, kind) {
        Some(first) => first == number,
        None => false,
    }
}

// The section with a number, where it is the second of a type that may come once.
fn repeated_flaw(sections: &[SectionHeader], number: usize, section: SectionHeader) -> Option<Flaw>
    ensures { result ≡ repeated_by sections.now number section }
{
    let sh_type = section.sh_type;
    flaw_unless(
        !comes_once(sh_type) || is_first(sections, sh_type, number),
        Flaw::Repeated { sh_type },
    )
}

// The type of section that a section of a type has to link to, where it has to.
fn wanted_link(kind: u32) -> Option<u32>
    ensures { result ≡ wanted_by kind }
{
    match kind {
        SHT_SYMTAB | SHT_DYNSYM | SHT_DYNAMIC | SHT_GNU_VERDEF | SHT_GNU_VERNEED => {
            Some(SHT_STRTAB)
        }
        SHT_HASH | SHT_GNU_HASH | SHT_GNU_VERSYM => Some(SHT_DYNSYM),
        _ => None,
    }
}

// A link to a section that isn't there, or that is of another type than the one wanted.
fn link_told(link: u32, wanted: u32, linked: Option<SectionHeader>) -> Option<Flaw>
    ensures { result ≡ linked_by link wanted linked }
{
    match linked {
        None => Some(Flaw::NoLink { link }),
        Some(section) => flaw_unless(section.sh_type == wanted, Flaw::WrongLink { link, wanted }),
    }
}

// The link of a section, where it is wrong.
fn link_flaw(sections: &[SectionHeader], section: SectionHeader) -> Option<Flaw>
    ensures { result ≡ link_by sections.now section }
{
    let wanted = wanted_link(section.sh_type)?;
    link_told(section.sh_link, wanted, linked_section(sections, section))
}

// How many bytes an entry of a section takes.
fn unit_of(form: Form, section: SectionHeader) -> u64
    ensures value { result ≡ unit_size form section }
    ensures positive { 0 < result }
{
    if section.is_symbol_table() {
        return form.symbol_size() as u64;
    }
    match section.sh_type {
        SHT_DYNAMIC => form.entry_size() as u64,
        SHT_GNU_VERSYM => 2,
        SHT_GNU_HASH => 4,
        SHT_HASH if section.sh_entsize == 8 => 8,
        SHT_HASH => 4,
        _ => 1,
    }
}

// A size that isn't that of whole entries.
pub(crate) fn size_told(size: u64, unit: u64) -> Option<Flaw>
    requires { 0 < unit }
    ensures { result ≡ size_by size unit }
{
    flaw_unless(size % unit == 0, Flaw::Partial { size, unit })
}

// What of a section contradicts the rule by its header alone.
fn header_flaw(form: Form, sections: &[SectionHeader], section: SectionHeader) -> Option<Flaw>
    ensures { result ≡ header_by form sections.now section }
{
    first_there(
        link_flaw(sections, section),
        size_told(section.sh_size, unit_of(form, section)),
    )
}

// An sh_info that is the number of a section which isn't there.
fn info_flaw(count: u16, section: SectionHeader) -> Option<Flaw>
    ensures { result ≡ info_by count section }
{
    flaw_unless(
        !section.has_section_info() || section.sh_info < count as u32,
        Flaw::NoInfoSection {
            section: section.sh_info,
        },
    )
}

// What of the section with a number contradicts the rule.
#[tactic(auto, unfolding(crate::specs::Flaws::table_flaw))]
fn table_flaw(
    parts: &Headers<'_>,
    read: bool,
    number: usize,
    section: SectionHeader,
) -> Option<Flaw>
    requires { read ≡ relocations_read (parts_model parts.now) }
    ensures { result ≡ table_by (parts_model parts.now) number section }
{
    let headers = first_there(
        repeated_flaw(&parts.sections, number, section),
        header_flaw(parts.form, &parts.sections, section),
    );
    let numbers = first_there(
        symbols_flaw(parts, section),
        relocations_flaw(parts, read, section),
    );
    first_there(
        headers,
        first_there(numbers, info_flaw(parts.header.e_shnum, section)),
    )
}

// The first of some sections of which something contradicts the rule.
fn wrong_table(parts: &Headers<'_>, read: bool, sections: &[SectionHeader]) -> Option<(usize, Flaw)>
    requires { read ≡ relocations_read (parts_model parts.now) }
    ensures { result ≡ first_flawed (table_by (parts_model parts.now)) sections.now }
{
    for (number, section) in sections.iter().enumerate() {
        if let Some(flaw) = table_flaw(parts, read, number, *section) {
            return Some((number, flaw));
        }
    }
    None
}

// The bytes of a section, where it is one of relocations.
fn relocation_bytes(section: SectionHeader) -> u64
    ensures { result ≡ bytes_by section }
{
    if section.is_relocation_section() {
        section.sh_size
    } else {
        0
    }
}

// Whether sections of relocations have together no more bytes than that.
fn are_relocations_within(room: u64, sections: &[SectionHeader]) -> bool
    ensures { result ≡ nat_le (sum_by bytes_by sections.now) room }
{
    let mut left = room;
    for section in sections {
        let size = relocation_bytes(*section);
        if size > left {
            return false;
        }
        left -= size;
    }
    true
}

// Whether relocations are looked at.
fn are_relocations_read(parts: &Headers<'_>) -> bool
    ensures { result ≡ relocations_read (parts_model parts.now) }
{
    parts.header.e_machine != EM_MIPS
        && are_relocations_within(parts.file.len() as u64, &parts.sections)
}

/// What contradicts the rule on what comes once and on links.
pub fn broken_links(parts: &Headers<'_>) -> Option<(usize, Flaw)>
    ensures { result ≡ links_by (parts_model parts.now) }
{
    wrong_table(parts, are_relocations_read(parts), &parts.sections)
}
