//! The symbols of a file, by its header tables.
ghost use Rattle.std.specs.Prelude.{◌≡◌, IfSome, option_map};
ghost use Rattle.elf_format.specs.declared.constants.TheConstants.{SHT_DYNSYM as DYNSYM, SHT_GNU_VERSYM as VERSYMS, SHT_SYMTAB as SYMTAB};
ghost use Rattle.elf_format.specs.File.{section_bytes as bytes_of_section, section_of_type as first_section};
ghost use Rattle.elf_format.specs.Image.{dynamic_symbols_read, static_symbols as static_ones};
ghost use Rattle.elf_format.specs.Answers.{borrowed};
ghost use Rattle.elf_format.specs.Rules.{raw_entries};
ghost use Rattle.elf_image_versions.specs.Read.{parts_model};
ghost use Rattle.elf_image.specs.SymbolsRead.{AreSymbolsRead, lists_read};

use elf_format::constants::{SHT_DYNSYM, SHT_GNU_VERSYM, SHT_SYMTAB};
use elf_format::lookups::{bytes_of, linked_section, section_bytes, section_of_type};
use elf_format::records::EntryNumbers;
use elf_image_symbols::Symbols;
use elf_image_symbols::lists::SymbolLists;
use elf_image_versions::headers::Headers;
use elf_image_versions::texts::dynamic_texts;

// The symbols for a link editor (gABI, Symbol Table); they have no versions. `None` where a name isn't there.
fn static_symbols<'data>(parts: &Headers<'data>) -> Option<Symbols<'data>>
    ensures { result
        ≡ static_ones (parts_model parts.now) (first_section SYMTAB parts.now.sections.items) }
{
    let Some(section) = section_of_type(&parts.sections, SHT_SYMTAB) else {
        return Some(Symbols::none());
    };
    let texts = bytes_of(parts.file, linked_section(&parts.sections, section));
    Symbols::read(parts.form, texts, section_bytes(parts.file, section), None)
}

// The bytes of the section with the versions of symbols (GNU symbol versioning, .gnu.version).
fn version_bytes<'data>(parts: &Headers<'data>) -> Option<&'data [u8]>
    ensures { option_map borrowed result ≡ option_map (bytes_of_section parts.now.file.now)
        (first_section VERSYMS parts.now.sections.items) }
{
    let section = section_of_type(&parts.sections, SHT_GNU_VERSYM)?;
    Some(section_bytes(parts.file, section))
}

// The dynamic symbols, with versions where there is a section of them. `None` where a name isn't there.
fn dynamic_symbols<'data>(parts: &Headers<'data>, raw: &[EntryNumbers]) -> Option<Symbols<'data>>
    requires { raw.now ≡ raw_entries (parts_model parts.now) }
    ensures { result ≡ dynamic_symbols_read (parts_model parts.now)
        (first_section DYNSYM parts.now.sections.items) }
{
    let Some(section) = section_of_type(&parts.sections, SHT_DYNSYM) else {
        return Some(Symbols::none());
    };
    let texts = dynamic_texts(parts, raw, section);
    let versions = version_bytes(parts);
    Symbols::read(
        parts.form,
        texts,
        section_bytes(parts.file, section),
        versions,
    )
}

// The lists of symbols, which may be known. `None` where a name isn't there.
pub(crate) fn symbol_lists<'data>(
    parts: &Headers<'data>,
    raw: &[EntryNumbers],
    known: Option<&SymbolLists<'data>>,
) -> Option<SymbolLists<'data>>
    requires raw { raw.now ≡ raw_entries (parts_model parts.now) }
    requires known { IfSome known (λ lists. AreSymbolsRead (parts_model parts.now) lists.now) }
    ensures { result ≡ lists_read (parts_model parts.now) }
{
    if let Some(lists) = known {
        return Some(lists.same());
    }
    let symbols = static_symbols(parts)?;
    let dynamic_symbols = dynamic_symbols(parts, raw)?;
    Some(SymbolLists {
        symbols,
        dynamic_symbols,
    })
}
