// The first section whose name isn't there, or of whose symbols or version records a text isn't there.
ghost use Rattle.std.specs.Prelude.{◌≡◌, ◌≤◌, ◌||◌, ◌==◌, IfOk, find, length, map, nat_lt, not};
ghost use Rattle.patch_bytes.specs.Memory.{memory_of};
ghost use Rattle.elf_format.specs.declared.constants.TheConstants.{SHT_GNU_VERDEF as VERDEFS, SHT_GNU_VERNEED as VERNEEDS};
ghost use Rattle.elf_format.specs.Rules.{is_symbol_table, raw_entries as entries_of};
ghost use Rattle.elf_image_rules.specs.Read.{parts_model};
ghost use Rattle.elf_image_versions.specs.WalkSteps.{defined_in, needed_in};
ghost use Rattle.elf_image_flaws.specs.Flaws.{EndsTexts, definitions_told as definitions_by, first_flawed, name_flaw as name_by, need_places as places_of, needs_told as needs_by, own_texts as own_by, place_told as place_by, record_texts_flaw as records_by, record_texts_told as told_by, section_names as names_by, texts_flaw as flaw_by, broken_texts as texts_by};

use crate::flaws::{Flaw, first_there, flaw_unless};
use crate::records::{RecordTest, first_told};
use elf_format::constants::{SHT_GNU_VERDEF, SHT_GNU_VERNEED, SHT_SYMTAB};
use elf_format::form::Form;
use elf_format::lookups::{bytes_of, linked_section, section_bytes};
use elf_format::numbers::read_symbol_numbers;
use elf_format::records::{EntryNumbers, NeedNameNumbers, SectionHeader};
use elf_format::versions::{RawDefinition, RawNeeds};
use elf_image_rules::headers::Headers;
use elf_image_versions::texts::dynamic_texts;
use elf_image_versions::walks::{walk_definitions, walk_needs};
use std::alloc::{AllocError, Global};

// One past the last NUL: a text that begins before that is there, and no other.
fn end_of_texts(room: usize, texts: &[u8]) -> usize
    requires { length texts.now ≤ room }
    ensures { EndsTexts room (memory_of texts.now) result }
{
    let mut end = texts.len();
    while end > 0 && texts[end - 1] != 0 {
        end -= 1;
    }
    end
}

// Which symbols have names that aren't there, where texts end at a place.
#[derive(Clone, Copy)]
struct SymbolNames {
    form: Form,
    end: usize,
}

impl RecordTest for SymbolNames {
    ghost use Rattle.std.specs.Prelude.{nat_lt};
    ghost use Rattle.elf_image_flaws.specs.Flaws.{name_told};

    ghost told = { λ t number bytes.
        name_told (λ place. nat_lt place t.end) t.form number bytes };

    fn told(&self, number: usize, bytes: &[u8]) -> Option<Flaw> {
        let place = read_symbol_numbers(self.form, bytes).st_name;
        flaw_unless(
            (place as usize) < self.end,
            Flaw::NoSymbolName {
                symbol: number,
                place,
            },
        )
    }
}

// The first of some places where no text is, where texts end at a place.
fn no_text(end: usize, places: &[u32]) -> Option<u32>
    ensures { result ≡ find (λ place. not (nat_lt place end)) places.now }
{
    for place in places {
        if *place as usize >= end {
            return Some(*place);
        }
    }
    None
}

// The first of some places where no text is, as a flaw.
fn place_told(end: usize, places: &[u32]) -> Option<Flaw>
    ensures { result ≡ place_by (λ place. nat_lt place end) places.now }
{
    let place = no_text(end, places)?;
    Some(Flaw::NoRecordText { place })
}

// The first text of defined versions that isn't there, where texts end at a place.
fn definitions_told(end: usize, definitions: &[RawDefinition]) -> Option<Flaw>
    ensures { result ≡ definitions_by (λ place. nat_lt place end) definitions.now }
{
    for definition in definitions {
        if let Some(flaw) = place_told(end, &definition.names) {
            return Some(flaw);
        }
    }
    None
}

// The first place of some needed versions where no name is, where texts end at a place.
fn no_name(end: usize, versions: &[NeedNameNumbers]) -> Option<u32>
    ensures { result ≡ find (λ place. not (nat_lt place end)) (map (λ v. v.name) versions.now) }
{
    for version in versions {
        if version.name as usize >= end {
            return Some(version.name);
        }
    }
    None
}

// The first text of the versions needed of a library that isn't there, where texts end at a place.
fn need_told(end: usize, need: &RawNeeds) -> Option<Flaw>
    ensures { result ≡ place_by (λ place. nat_lt place end) (places_of need.now) }
{
    let place = if need.file as usize >= end {
        need.file
    } else {
        no_name(end, &need.versions)?
    };
    Some(Flaw::NoRecordText { place })
}

// The first text of needed versions that isn't there, where texts end at a place.
fn needs_told(end: usize, needs: &[RawNeeds]) -> Option<Flaw>
    ensures { result ≡ needs_by (λ place. nat_lt place end) needs.now }
{
    for need in needs {
        if let Some(flaw) = need_told(end, need) {
            return Some(flaw);
        }
    }
    None
}

// The first text that the records of a section name and that isn't there, where texts end at a place.
fn record_texts_told(
    parts: &Headers<'_>,
    end: usize,
    defined: &[RawDefinition],
    needed: &[RawNeeds],
    section: SectionHeader,
) -> Option<Flaw>
    requires defined { defined.now ≡ defined_in (parts_model parts.now) }
    requires needed { needed.now ≡ needed_in (parts_model parts.now) }
    ensures { result ≡ told_by (λ place. nat_lt place end) (parts_model parts.now) section }
{
    if section.is_symbol_table() {
        let test = SymbolNames {
            form: parts.form,
            end,
        };
        let bytes = section_bytes(parts.file, section);
        return first_told(&test, parts.form.symbol_size(), bytes);
    }
    match section.sh_type {
        SHT_GNU_VERDEF => definitions_told(end, defined),
        SHT_GNU_VERNEED => needs_told(end, needed),
        _ => None,
    }
}

// Whether the records of a section name texts.
fn names_texts(section: SectionHeader) -> bool
    ensures { result
        ≡ (is_symbol_table section || section.sh_type == VERDEFS || section.sh_type == VERNEEDS) }
{
    section.is_symbol_table()
        || section.sh_type == SHT_GNU_VERDEF
        || section.sh_type == SHT_GNU_VERNEED
}

// The texts that the records of a section name.
fn own_texts<'data>(
    parts: &Headers<'data>,
    raw: &[EntryNumbers],
    section: SectionHeader,
) -> &'data [u8]
    requires { raw.now ≡ entries_of (parts_model parts.now) }
    ensures value { memory_of result.now ≡ own_by (parts_model parts.now) section }
    ensures short { length result.now ≤ length parts.now.file.now }
{
    if section.sh_type == SHT_SYMTAB {
        return bytes_of(parts.file, linked_section(&parts.sections, section));
    }
    dynamic_texts(parts, raw, section)
}

// The first text that the records of a section name and that isn't there.
fn record_texts_flaw(
    parts: &Headers<'_>,
    raw: &[EntryNumbers],
    defined: &[RawDefinition],
    needed: &[RawNeeds],
    section: SectionHeader,
) -> Option<Flaw>
    requires raw { raw.now ≡ entries_of (parts_model parts.now) }
    requires defined { defined.now ≡ defined_in (parts_model parts.now) }
    requires needed { needed.now ≡ needed_in (parts_model parts.now) }
    ensures { result ≡ records_by (parts_model parts.now) section }
{
    if !names_texts(section) {
        return None;
    }
    let end = end_of_texts(parts.file.len(), own_texts(parts, raw, section));
    record_texts_told(parts, end, defined, needed, section)
}

// The names of sections (gABI, ELF Header, e_shstrndx).
fn section_names<'data>(parts: &Headers<'data>) -> &'data [u8]
    ensures value { memory_of result.now ≡ names_by (parts_model parts.now) }
    ensures short { length result.now ≤ length parts.now.file.now }
{
    let number = parts.header.e_shstrndx as usize;
    bytes_of(parts.file, parts.sections.get(number).copied())
}

// A section whose name isn't there, where the names end at a place.
fn name_flaw(end: usize, section: SectionHeader) -> Option<Flaw>
    ensures { result ≡ name_by (λ place. nat_lt place end) section }
{
    flaw_unless(
        (section.sh_name as usize) < end,
        Flaw::NoName {
            place: section.sh_name,
        },
    )
}

// What of a section contradicts the rule, where the names of sections end at a place.
#[tactic(auto, unfolding(crate::specs::Flaws::texts_flaw))]
fn texts_flaw(
    parts: &Headers<'_>,
    raw: &[EntryNumbers],
    end: usize,
    defined: &[RawDefinition],
    needed: &[RawNeeds],
    section: SectionHeader,
) -> Option<Flaw>
    requires raw { raw.now ≡ entries_of (parts_model parts.now) }
    requires end { EndsTexts (length parts.now.file.now) (names_by (parts_model parts.now)) end }
    requires defined { defined.now ≡ defined_in (parts_model parts.now) }
    requires needed { needed.now ≡ needed_in (parts_model parts.now) }
    ensures { result ≡ flaw_by (parts_model parts.now) section }
{
    first_there(
        name_flaw(end, section),
        record_texts_flaw(parts, raw, defined, needed, section),
    )
}

// The first of some sections of which something contradicts the rule, where the names of sections end at a place.
fn wrong_texts(
    parts: &Headers<'_>,
    raw: &[EntryNumbers],
    end: usize,
    defined: &[RawDefinition],
    needed: &[RawNeeds],
    sections: &[SectionHeader],
) -> Option<(usize, Flaw)>
    requires raw { raw.now ≡ entries_of (parts_model parts.now) }
    requires end { EndsTexts (length parts.now.file.now) (names_by (parts_model parts.now)) end }
    requires defined { defined.now ≡ defined_in (parts_model parts.now) }
    requires needed { needed.now ≡ needed_in (parts_model parts.now) }
    ensures { result ≡ first_flawed (λ _ s. flaw_by (parts_model parts.now) s) sections.now }
{
    for (number, section) in sections.iter().enumerate() {
        if let Some(flaw) = texts_flaw(parts, raw, end, defined, needed, *section) {
            return Some((number, flaw));
        }
    }
    None
}

/// What contradicts the rule on texts, dynamic entries apart.
#[tactic(auto, unfolding(crate::specs::Flaws::broken_texts))]
pub fn broken_texts(
    alloc: Global,
    parts: &Headers<'_>,
    raw: &[EntryNumbers],
) -> Result<Option<(usize, Flaw)>, AllocError>
    requires { raw.now ≡ entries_of (parts_model parts.now) }
    ensures { IfOk result (λ answer. answer ≡ texts_by (parts_model parts.now)) }
{
    let defined = walk_definitions(alloc, parts)?;
    let needed = walk_needs(alloc, parts)?;
    let end = end_of_texts(parts.file.len(), section_names(parts));
    Ok(wrong_texts(
        parts,
        raw,
        end,
        &defined.values,
        &needed.values,
        &parts.sections,
    ))
}
