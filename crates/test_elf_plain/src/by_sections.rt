ghost use Rattle.std.specs.Prelude.{◌≡◌, None};
ghost use Rattle.test_elf_plain.specs.PlainViews.{source_model, symbol_table_of, table_source_model, tables_model};
ghost use Rattle.elf_format.specs.Views.{section_memory, section_table, tables_by_sections as section_tables};

use crate::source::{Source, TableSource, TableSources};
use elf_format::constants::{SHT_DYNSYM, SHT_GNU_VERDEF, SHT_GNU_VERNEED, SHT_GNU_VERSYM};
use elf_format::form::Form;
use elf_format::lookups::{bytes_of, linked_section, section_bytes, section_of_type};
use elf_format::records::SectionHeader;

// The bytes of a section, or none without one.
fn section_source(file: &[u8], section: Option<SectionHeader>) -> Source<'_>
    ensures { source_model result ≡ section_memory file.now section }
{
    Source::Slice(bytes_of(file, section))
}

// A table with nothing in it.
fn no_table<'a>() -> TableSource<'a>
    ensures { table_source_model result
        ≡ record { bytes = λ _. None; texts = λ _. None; count = 0 } }
{
    TableSource {
        bytes: Source::Slice(&[]),
        texts: Source::Slice(&[]),
        count: 0,
    }
}

// The dynamic symbols by their section.
fn symbol_table<'a>(file: &'a [u8], form: Form, sections: &[SectionHeader]) -> TableSource<'a>
    ensures { table_source_model result ≡ symbol_table_of form file.now sections.now }
{
    match section_of_type(sections, SHT_DYNSYM) {
        None => no_table(),
        Some(section) => TableSource {
            bytes: Source::Slice(section_bytes(file, section)),
            texts: section_source(file, linked_section(sections, section)),
            count: section.sh_size / form.symbol_size() as u64,
        },
    }
}

// Version records by their section, which counts them.
fn version_table<'a>(file: &'a [u8], sections: &[SectionHeader], kind: u32) -> TableSource<'a>
    ensures { table_source_model result
        ≡ section_table file.now sections.now (λ s. s.sh_info) kind }
{
    match section_of_type(sections, kind) {
        None => no_table(),
        Some(section) => TableSource {
            bytes: Source::Slice(section_bytes(file, section)),
            texts: section_source(file, linked_section(sections, section)),
            count: section.sh_info as u64,
        },
    }
}

// The tables by their sections.
pub(crate) fn tables_by_sections<'a>(
    form: Form,
    file: &'a [u8],
    sections: &[SectionHeader],
    list: SectionHeader,
) -> TableSources<'a>
    ensures { tables_model result ≡ section_tables form file.now sections.now list }
{
    TableSources {
        entry_texts: section_source(file, linked_section(sections, list)),
        symbols: symbol_table(file, form, sections),
        versions: section_source(file, section_of_type(sections, SHT_GNU_VERSYM)),
        definitions: version_table(file, sections, SHT_GNU_VERDEF),
        needs: version_table(file, sections, SHT_GNU_VERNEED),
    }
}
