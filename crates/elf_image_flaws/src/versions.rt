// What contradicts the rule on versions.
ghost use Rattle.std.specs.Prelude.{◌≡◌, ◌++◌, IfOk, OnOk, map};
ghost use Rattle.elf_format.specs.Options.{is_one_of};
ghost use Rattle.elf_format.specs.Rules.{dynamic_strings_user as user_by, known_versions as known_by};
ghost use Rattle.elf_image_rules.specs.Read.{parts_model};
ghost use Rattle.elf_image_versions.specs.WalkSteps.{indices_defined, indices_needed, users_of_texts};
ghost use Rattle.elf_image_flaws.specs.Flaws.{are_definitions_whole, are_needs_whole, first_flawed, indices_told as indices_by, records_flaw as records_by, strings_flaw as strings_by, version_flaw as flaw_by, versions_flaw as versions_by, versions_told as told_by, broken_versions as all_by};

use crate::flaws::{Flaw, first_there, flaw_unless};
use crate::records::{RecordTest, first_told};
use elf_format::constants::{
    SHT_DYNAMIC, SHT_DYNSYM, SHT_GNU_VERDEF, SHT_GNU_VERNEED, SHT_GNU_VERSYM, SHT_NULL,
    VER_NDX_FIRST,
};
use elf_format::form::Form;
use elf_format::lookups::{section_bytes, section_of_type};
use elf_format::numbers::read_version_id;
use elf_format::records::{NeedNameNumbers, SectionHeader};
use elf_format::versions::{RawDefinition, RawNeeds};
use elf_image_rules::headers::Headers;
use elf_image_versions::walks::{walk_definitions, walk_needs};
use std::alloc::{AllocError, Global};

/// How many known versions are looked through for each symbol.
pub const MOST_VERSIONS: usize = 1000;

// Which symbols are of versions that aren't among known ones.
#[derive(Clone, Copy)]
struct VersionIndices<'a> {
    form: Form,
    known: &'a [u16],
}

impl<'a> RecordTest for VersionIndices<'a> {
    ghost use Rattle.elf_image_flaws.specs.Flaws.{version_told};

    ghost told = { λ t number bytes. version_told t.form t.known.now number bytes };

    fn told(&self, number: usize, bytes: &[u8]) -> Option<Flaw> {
        let index = read_version_id(self.form, bytes).index;
        flaw_unless(
            index < VER_NDX_FIRST || self.known.contains(&index),
            Flaw::UnknownVersion {
                symbol: number,
                index,
            },
        )
    }
}

// The first symbol of a version that isn't among known ones, where these are few.
fn indices_told(form: Form, known: &[u16], bytes: &[u8]) -> Option<Flaw>
    ensures { result ≡ indices_by form known.now bytes.now }
{
    if known.len() > MOST_VERSIONS {
        return None;
    }
    first_told(&VersionIndices { form, known }, 2, bytes)
}

// What of the versions in a section contradicts the rule, against the dynamic symbols.
fn versions_told(
    parts: &Headers<'_>,
    known: &[u16],
    section: SectionHeader,
    symbols: SectionHeader,
) -> Option<Flaw>
    ensures { result ≡ told_by (parts_model parts.now) known.now section symbols }
{
    let versions = section.sh_size / 2;
    let count = symbols.sh_size / parts.form.symbol_size() as u64;
    if versions != count {
        return Some(Flaw::OtherCount {
            versions,
            symbols: count,
        });
    }
    indices_told(parts.form, known, section_bytes(parts.file, section))
}

// What of the versions in any section contradicts the rule; nothing in a section without versions.
fn versions_flaw(parts: &Headers<'_>, known: &[u16], section: SectionHeader) -> Option<Flaw>
    ensures { result ≡ versions_by (parts_model parts.now) known.now section }
{
    if section.sh_type != SHT_GNU_VERSYM {
        return None;
    }
    let symbols = section_of_type(&parts.sections, SHT_DYNSYM)?;
    versions_told(parts, known, section, symbols)
}

// The section whose texts are the dynamic strings: the dynamic list, or without one the dynamic symbols.
fn dynamic_strings_user(sections: &[SectionHeader]) -> Option<SectionHeader>
    ensures { result ≡ user_by sections.now }
{
    first_there(
        section_of_type(sections, SHT_DYNAMIC),
        section_of_type(sections, SHT_DYNSYM),
    )
}

// Whether sections of a type may have texts in the dynamic strings.
fn may_use_dynamic_strings(kind: u32) -> bool
    ensures { result ≡ is_one_of users_of_texts kind }
{
    kind == SHT_NULL
        || kind == SHT_DYNAMIC
        || kind == SHT_DYNSYM
        || kind == SHT_GNU_VERDEF
        || kind == SHT_GNU_VERNEED
}

// A section that has texts in the dynamic strings, and may not.
fn strings_flaw(user: Option<SectionHeader>, section: SectionHeader) -> Option<Flaw>
    ensures { result ≡ strings_by user section }
{
    let user = user?;
    flaw_unless(
        section.sh_link != user.sh_link || may_use_dynamic_strings(section.sh_type),
        Flaw::ForeignStrings {
            link: section.sh_link,
        },
    )
}

// What of a section contradicts the rule where all version records are there.
#[tactic(auto, unfolding(crate::specs::Flaws::version_flaw))]
fn version_flaw(
    parts: &Headers<'_>,
    known: &[u16],
    user: Option<SectionHeader>,
    section: SectionHeader,
) -> Option<Flaw>
    requires known { known.now ≡ known_by (parts_model parts.now) }
    requires user { user ≡ user_by parts.now.sections.items }
    ensures { result ≡ flaw_by (parts_model parts.now) section }
{
    first_there(
        versions_flaw(parts, known, section),
        strings_flaw(user, section),
    )
}

// The first of some sections of which something contradicts the rule where all version records are there.
fn wrong_version(
    parts: &Headers<'_>,
    known: &[u16],
    user: Option<SectionHeader>,
    sections: &[SectionHeader],
) -> Option<(usize, Flaw)>
    requires known { known.now ≡ known_by (parts_model parts.now) }
    requires user { user ≡ user_by parts.now.sections.items }
    ensures { result ≡ first_flawed (λ _ s. flaw_by (parts_model parts.now) s) sections.now }
{
    for (number, section) in sections.iter().enumerate() {
        if let Some(flaw) = version_flaw(parts, known, user, *section) {
            return Some((number, flaw));
        }
    }
    None
}

// A section of version records that aren't all there.
fn records_flaw(defined: bool, needed: bool, section: SectionHeader) -> Option<Flaw>
    ensures { result ≡ records_by defined needed section }
{
    let is_whole = match section.sh_type {
        SHT_GNU_VERDEF => defined,
        SHT_GNU_VERNEED => needed,
        _ => true,
    };
    flaw_unless(
        is_whole,
        Flaw::PartialRecords {
            count: section.sh_info,
        },
    )
}

// The first of some sections of version records that aren't all there.
fn partial_records(defined: bool, needed: bool, sections: &[SectionHeader]) -> Option<(usize, Flaw)>
    ensures { result ≡ first_flawed (λ _ s. records_by defined needed s) sections.now }
{
    for (number, section) in sections.iter().enumerate() {
        if let Some(flaw) = records_flaw(defined, needed, *section) {
            return Some((number, flaw));
        }
    }
    None
}

// Appends the indices of the versions needed of a library.
fn push_indices(known: &mut Vec<u16>, versions: &[NeedNameNumbers]) -> Result<(), AllocError>
    ensures { OnOk result (known.new.items ≡ known.old.items ++ map (λ v. v.index) versions.now) }
{
    for version in versions {
        known.push(version.index)?;
    }
    Ok(())
}

// Appends the indices of needed versions.
fn push_needed(known: &mut Vec<u16>, needs: &[RawNeeds]) -> Result<(), AllocError>
    ensures { OnOk result (known.new.items ≡ known.old.items ++ indices_needed needs.now) }
{
    for need in needs {
        push_indices(known, &need.versions)?;
    }
    Ok(())
}

// Appends the indices of defined versions.
fn push_defined(known: &mut Vec<u16>, definitions: &[RawDefinition]) -> Result<(), AllocError>
    ensures { OnOk result (known.new.items ≡ known.old.items ++ indices_defined definitions.now) }
{
    for definition in definitions {
        known.push(definition.index)?;
    }
    Ok(())
}

// The indices of all defined and needed versions.
fn known_versions(
    alloc: Global,
    definitions: &[RawDefinition],
    needs: &[RawNeeds],
) -> Result<Vec<u16>, AllocError>
    ensures { IfOk result (λ known.
        known.items ≡ indices_defined definitions.now ++ indices_needed needs.now) }
{
    let mut known = Vec::new(alloc);
    push_defined(&mut known, definitions)?;
    push_needed(&mut known, needs)?;
    Ok(known)
}

// What contradicts the rule, by whether all version records are there, and by which versions are known.
#[tactic(auto, unfolding(crate::specs::Flaws::broken_versions))]
fn wrong_by_walks(
    parts: &Headers<'_>,
    defined: bool,
    needed: bool,
    known: &[u16],
) -> Option<(usize, Flaw)>
    requires defined { defined ≡ are_definitions_whole (parts_model parts.now) }
    requires needed { needed ≡ are_needs_whole (parts_model parts.now) }
    requires known { known.now ≡ known_by (parts_model parts.now) }
    ensures { result ≡ all_by (parts_model parts.now) }
{
    match partial_records(defined, needed, &parts.sections) {
        Some(partial) => Some(partial),
        None => {
            let user = dynamic_strings_user(&parts.sections);
            wrong_version(parts, known, user, &parts.sections)
        }
    }
}

/// What contradicts the rule on versions.
pub fn broken_versions(
    alloc: Global,
    parts: &Headers<'_>,
) -> Result<Option<(usize, Flaw)>, AllocError>
    ensures { IfOk result (λ answer. answer ≡ all_by (parts_model parts.now)) }
{
    let defined = walk_definitions(alloc, parts)?;
    let needed = walk_needs(alloc, parts)?;
    let known = known_versions(alloc, &defined.values, &needed.values)?;
    Ok(wrong_by_walks(parts, defined.is_whole, needed.is_whole, &known))
}
