// The first symbol of a section that isn't there, and the first relocation that names a symbol which isn't there.
ghost use Rattle.std.specs.Prelude.{◌≡◌};
ghost use Rattle.elf_format.specs.Records.{relocation};
ghost use Rattle.elf_format.specs.Rules.{relocated_symbols as table_of};
ghost use Rattle.elf_image_rules.specs.Read.{parts_model};
ghost use Rattle.elf_image_flaws.specs.Flaws.{are_relocations_read as relocations_read, relocations_flaw as relocations_by, relocations_told as told_by, symbols_flaw as symbols_by};

use crate::flaws::{Flaw, first_there, flaw_unless};
use crate::links::size_told;
use crate::records::{RecordTest, first_told};
use elf_format::constants::SHN_LORESERVE;
use elf_format::form::Form;
use elf_format::lookups::{linked_section, section_bytes};
use elf_format::numbers::{read_field, read_symbol_numbers};
use elf_format::records::SectionHeader;
use elf_image_rules::headers::Headers;
use patch_bytes::Wide;

// Which symbols are of sections that aren't there, where there are so many.
#[derive(Clone, Copy)]
struct SymbolSections {
    form: Form,
    count: u16,
}

impl RecordTest for SymbolSections {
    ghost use Rattle.elf_image_flaws.specs.Flaws.{symbol_told};

    ghost told = { λ t number bytes. symbol_told t.form t.count number bytes };

    fn told(&self, number: usize, bytes: &[u8]) -> Option<Flaw> {
        let section = read_symbol_numbers(self.form, bytes).st_shndx;
        flaw_unless(
            section < self.count || SHN_LORESERVE <= section,
            Flaw::NoSymbolSection {
                symbol: number,
                section,
            },
        )
    }
}

// The first symbol of a section which isn't there.
pub(crate) fn symbols_flaw(parts: &Headers<'_>, section: SectionHeader) -> Option<Flaw>
    ensures { result ≡ symbols_by (parts_model parts.now) section }
{
    if !section.is_symbol_table() {
        return None;
    }
    let test = SymbolSections {
        form: parts.form,
        count: parts.header.e_shnum,
    };
    let bytes = section_bytes(parts.file, section);
    first_told(&test, parts.form.symbol_size(), bytes)
}

// The symbol that a relocation names.
#[tactic(auto, unfolding(elf_format::specs::Records::relocation))]
fn symbol_of(form: Form, kind: u32, bytes: &[u8]) -> u64
    ensures { result ≡ (relocation form kind bytes.now).r_symbol }
{
    let info = read_field(form, bytes, (4, 4), (8, 8));
    match form.wide {
        Wide::W32 => info / 0x100,
        Wide::W64 => info / 0x1_0000_0000,
    }
}

// Which relocations of a kind name symbols that aren't there, where there are so many.
#[derive(Clone, Copy)]
struct RelocationSymbols {
    form: Form,
    kind: u32,
    count: u64,
}

impl RecordTest for RelocationSymbols {
    ghost use Rattle.elf_image_flaws.specs.Flaws.{relocation_told};

    ghost told = { λ t number bytes. relocation_told t.form t.kind t.count number bytes };

    fn told(&self, number: usize, bytes: &[u8]) -> Option<Flaw> {
        let symbol = symbol_of(self.form, self.kind, bytes);
        flaw_unless(
            symbol == 0 || symbol < self.count,
            Flaw::NoRelocationSymbol {
                relocation: number,
                symbol,
            },
        )
    }
}

// The symbol table that relocations are against.
fn relocated_symbols(sections: &[SectionHeader], section: SectionHeader) -> Option<SectionHeader>
    ensures { result ≡ table_of sections.now section }
{
    linked_section(sections, section).filter(|linked| linked.is_symbol_table())
}

// The relocations of a section against a symbol table: a size that isn't theirs, or the first that names no symbol.
fn relocations_told(
    parts: &Headers<'_>,
    section: SectionHeader,
    table: SectionHeader,
) -> Option<Flaw>
    ensures { result ≡ told_by (parts_model parts.now) section table }
{
    let size = parts.form.relocation_size(section.sh_type);
    let test = RelocationSymbols {
        form: parts.form,
        kind: section.sh_type,
        count: table.sh_size / parts.form.symbol_size() as u64,
    };
    first_there(
        size_told(section.sh_size, size as u64),
        first_told(&test, size, section_bytes(parts.file, section)),
    )
}

// What of the relocations of a section contradicts the rule, where relocations are looked at.
pub(crate) fn relocations_flaw(
    parts: &Headers<'_>,
    read: bool,
    section: SectionHeader,
) -> Option<Flaw>
    requires { read ≡ relocations_read (parts_model parts.now) }
    ensures { result ≡ relocations_by (parts_model parts.now) section }
{
    if !read || !section.is_relocation_section() {
        return None;
    }
    let table = relocated_symbols(&parts.sections, section)?;
    relocations_told(parts, section, table)
}
