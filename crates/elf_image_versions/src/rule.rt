ghost use Rattle.std.specs.Prelude.{◌≡◌, ◌^◌, IfOk, length};
ghost use Rattle.std.specs.List.{list_all};
ghost use Rattle.elf_format.specs.Form.{records};
ghost use Rattle.elf_format.specs.Options.{is_one_of};
ghost use Rattle.elf_image_rules.specs.Read.{parts_model};
ghost use Rattle.elf_format.specs.Rules.{are_dynamic_strings_own as strings_own, are_versions_right as versions_right, dynamic_strings_user as strings_user, version_symbols_agree as symbols_agree};
ghost use Rattle.elf_format.specs.Versions.{version_id};
ghost use Rattle.elf_image_versions.specs.WalkSteps.{AreDefinitions, AreNeeds, is_low_or_marked, leaves_texts_of, users_of_texts};

use crate::known::mark_known;
use crate::walks::Walk;
use elf_format::constants::{
    SHT_DYNAMIC, SHT_DYNSYM, SHT_GNU_VERDEF, SHT_GNU_VERNEED, SHT_GNU_VERSYM, SHT_NULL,
    VER_NDX_FIRST,
};
use elf_format::form::Form;
use elf_format::lookups::{section_bytes, section_of_type};
use elf_format::numbers::{part, read_version_id};
use elf_format::records::SectionHeader;
use elf_format::versions::{RawDefinition, RawNeeds};
use elf_image_rules::headers::Headers;
use std::alloc::{AllocError, Global};

// Whether each of so many version symbols is below VER_NDX_FIRST or has a mark. Those past the end of the
// bytes have the index 0.
fn are_marked(form: Form, marks: &[bool], count: u64, bytes: &[u8]) -> bool
    requires { length marks.now ≡ 2 ^ 16 }
    ensures { result
        ≡ list_all (is_low_or_marked marks.now) (records (version_id form) 2 count bytes.now) }
{
    let mut rest = bytes;
    for _ in 0..count {
        if rest.is_empty() {
            return true;
        }
        let id = read_version_id(form, part(rest, 0, 2));
        if id.index >= VER_NDX_FIRST && !marks[id.index as usize] {
            return false;
        }
        rest = part(rest, 2, rest.len());
    }
    true
}

// Whether there is a version for each dynamic symbol, and each from VER_NDX_FIRST on is known.
fn version_symbols_agree(
    alloc: Global,
    parts: &Headers<'_>,
    section: SectionHeader,
    definitions: &Walk<RawDefinition>,
    needs: &Walk<RawNeeds>,
) -> Result<bool, AllocError>
    requires definitions { AreDefinitions (parts_model parts.now) definitions.now }
    requires needs { AreNeeds (parts_model parts.now) needs.now }
    ensures { IfOk result (λ b. b ≡ symbols_agree (parts_model parts.now) section) }
{
    let Some(symbols) = section_of_type(&parts.sections, SHT_DYNSYM) else {
        return Ok(false);
    };
    let count = section.sh_size / 2;
    if count != symbols.sh_size / parts.form.symbol_size() as u64 {
        return Ok(false);
    }
    let marks = mark_known(alloc, &definitions.values, &needs.values)?;
    let bytes = section_bytes(parts.file, section);
    Ok(are_marked(parts.form, &marks, count, bytes))
}

// The section whose texts are the dynamic strings: the dynamic list, or without one the dynamic symbols.
fn dynamic_strings_user(sections: &[SectionHeader]) -> Option<SectionHeader>
    ensures { result ≡ strings_user sections.now }
{
    match section_of_type(sections, SHT_DYNAMIC) {
        Some(list) => Some(list),
        None => section_of_type(sections, SHT_DYNSYM),
    }
}

// Whether sections of a type may have texts in the dynamic strings.
fn may_use_dynamic_strings(kind: u32) -> bool
    ensures { result ≡ is_one_of users_of_texts kind }
{
    kind == SHT_NULL
        || kind == SHT_DYNAMIC
        || kind == SHT_DYNSYM
        || kind == SHT_GNU_VERDEF
        || kind == SHT_GNU_VERNEED
}

// Whether only sections of types that may have texts in the dynamic strings have texts where a
// section has its own.
fn are_texts_own(sections: &[SectionHeader], user: SectionHeader) -> bool
    ensures { result ≡ list_all (leaves_texts_of user) sections.now }
{
    sections.iter().all(|s| s.sh_link != user.sh_link || may_use_dynamic_strings(s.sh_type))
}

// Whether only the list, the dynamic symbols and the version records have texts in the dynamic strings.
fn are_dynamic_strings_own(sections: &[SectionHeader]) -> bool
    ensures { result ≡ strings_own sections.now }
{
    match dynamic_strings_user(sections) {
        None => true,
        Some(user) => are_texts_own(sections, user),
    }
}

/// Whether the version symbols, the version records and the users of the dynamic strings are right (GNU symbol
/// versioning). Error: `AllocError`.
pub fn are_versions_right(
    alloc: Global,
    parts: &Headers<'_>,
    definitions: &Walk<RawDefinition>,
    needs: &Walk<RawNeeds>,
) -> Result<bool, AllocError>
    requires definitions { AreDefinitions (parts_model parts.now) definitions.now }
    requires needs { AreNeeds (parts_model parts.now) needs.now }
    ensures { IfOk result (λ b. b ≡ versions_right (parts_model parts.now)) }
{
    let are_whole = definitions.is_whole && needs.is_whole;
    if !are_whole || !are_dynamic_strings_own(&parts.sections) {
        return Ok(false);
    }
    match section_of_type(&parts.sections, SHT_GNU_VERSYM) {
        None => Ok(true),
        Some(section) => version_symbols_agree(alloc, parts, section, definitions, needs),
    }
}
