ghost use Rattle.std.specs.Prelude.{◌≡◌, ◌≤◌, length, map, IfErr};
ghost use Rattle.patch_bytes.specs.ByteString.{bytes_of_each};
ghost use Rattle.patch_bytes.specs.Memory.{memory_of, text_at};
ghost use Rattle.elf_format.specs.declared.constants.TheConstants.{SHT_GNU_VERDEF as VERDEFS, SHT_GNU_VERNEED as VERNEEDS};
ghost use Rattle.elf_format.specs.File.{section_of_type as first_section};
ghost use Rattle.elf_format.specs.Image.{definitions_read, needs_read};
ghost use Rattle.elf_image_versions.specs.VersionsModel.{definition_model, name_model, needs_model};
ghost use Rattle.elf_format.specs.Options.{each};
ghost use Rattle.elf_format.specs.Answers.{Gives};
ghost use Rattle.elf_format.specs.declared.view_fault.ViewFault.TheVariants.{Absent};
ghost use Rattle.elf_image_rules.specs.Read.{parts_model};
ghost use Rattle.elf_format.specs.Rules.{raw_entries};
ghost use Rattle.elf_format.specs.Versions.{shown_definition, shown_need, shown_need_name};
ghost use Rattle.elf_image_versions.specs.WalkSteps.{defined_in, needed_in};

use crate::texts::dynamic_texts;
use crate::version::{VersionDef, VersionNeed, VersionNeedName};
use elf_format::constants::{SHT_GNU_VERDEF, SHT_GNU_VERNEED};
use elf_format::lookups::section_of_type;
use elf_format::records::{EntryNumbers, NeedNameNumbers};
use elf_format::texts::text;
use elf_format::versions::{RawDefinition, RawNeeds};
use elf_format::view_fault::ViewFault;
use elf_image_rules::headers::Headers;
use patch_bytes::ByteString;
use std::alloc::Global;

// Texts by where they stand.
fn kept_texts<'data>(
    alloc: Global,
    room: usize,
    texts: &'data [u8],
    places: &[u32],
) -> Result<Vec<ByteString<'data>>, ViewFault>
    requires { length texts.now ≤ room }
    ensures { Gives (λ v. bytes_of_each v.items) result
        (each (text_at room (memory_of texts.now)) places.now) }
{
    let mut made = Vec::new(alloc);
    for place in places {
        let one = text(room, texts, *place as u64)?;
        made.push(ByteString::borrowed(one))?;
    }
    Ok(made)
}

// A defined version with its names.
#[tactic(auto, unfolding(elf_format::specs::Versions::shown_definition))]
fn definition<'data>(
    alloc: Global,
    room: usize,
    texts: &'data [u8],
    raw: &RawDefinition,
) -> Result<VersionDef<'data>, ViewFault>
    requires { length texts.now ≤ room }
    ensures { Gives definition_model result
        (shown_definition room (memory_of texts.now) raw.now) }
{
    let names = kept_texts(alloc, room, texts, &raw.names)?;
    Ok(VersionDef {
        index: raw.index,
        flags: raw.flags,
        names,
    })
}

// Defined versions with their names.
fn kept_definitions<'data>(
    alloc: Global,
    room: usize,
    texts: &'data [u8],
    walked: &[RawDefinition],
) -> Result<Vec<VersionDef<'data>>, ViewFault>
    requires { length texts.now ≤ room }
    ensures { Gives (λ v. map definition_model v.items) result
        (each (shown_definition room (memory_of texts.now)) walked.now) }
{
    let mut made = Vec::new(alloc);
    for raw in walked {
        let one = definition(alloc, room, texts, raw)?;
        made.push(one)?;
    }
    Ok(made)
}

// A needed version with its name.
#[tactic(auto, unfolding(elf_format::specs::Versions::shown_need_name))]
fn need_name<'data>(
    room: usize,
    texts: &'data [u8],
    raw: NeedNameNumbers,
) -> Result<VersionNeedName<'data>, ViewFault>
    requires { length texts.now ≤ room }
    ensures shown { Gives name_model result (shown_need_name room (memory_of texts.now) raw) }
    ensures absent { IfErr result (λ fault. fault ≡ Absent) }
{
    let name = text(room, texts, raw.name as u64)?;
    Ok(VersionNeedName {
        index: raw.index,
        name: ByteString::borrowed(name),
        flags: raw.flags,
    })
}

// Needed versions with their names.
fn need_names<'data>(
    alloc: Global,
    room: usize,
    texts: &'data [u8],
    versions: &[NeedNameNumbers],
) -> Result<Vec<VersionNeedName<'data>>, ViewFault>
    requires { length texts.now ≤ room }
    ensures { Gives (λ v. map name_model v.items) result
        (each (shown_need_name room (memory_of texts.now)) versions.now) }
{
    let mut made = Vec::new(alloc);
    for version in versions {
        let one = need_name(room, texts, *version)?;
        made.push(one)?;
    }
    Ok(made)
}

// The versions needed of one library, with its name.
#[tactic(auto, unfolding(elf_format::specs::Versions::shown_need))]
fn need<'data>(
    alloc: Global,
    room: usize,
    texts: &'data [u8],
    raw: &RawNeeds,
) -> Result<VersionNeed<'data>, ViewFault>
    requires { length texts.now ≤ room }
    ensures { Gives needs_model result (shown_need room (memory_of texts.now) raw.now) }
{
    let file = text(room, texts, raw.file as u64)?;
    let versions = need_names(alloc, room, texts, &raw.versions)?;
    Ok(VersionNeed {
        file: ByteString::borrowed(file),
        versions,
    })
}

// Needed versions, library by library.
fn kept_needs<'data>(
    alloc: Global,
    room: usize,
    texts: &'data [u8],
    walked: &[RawNeeds],
) -> Result<Vec<VersionNeed<'data>>, ViewFault>
    requires { length texts.now ≤ room }
    ensures { Gives (λ v. map needs_model v.items) result
        (each (shown_need room (memory_of texts.now)) walked.now) }
{
    let mut made = Vec::new(alloc);
    for raw in walked {
        let one = need(alloc, room, texts, raw)?;
        made.push(one)?;
    }
    Ok(made)
}

/// The versions that the file defines, with their texts; `Absent` where one of these isn't there, `Memory` where
/// there isn't enough memory.
pub fn definitions<'data>(
    alloc: Global,
    parts: &Headers<'data>,
    raw: &[EntryNumbers],
    walked: &[RawDefinition],
) -> Result<Vec<VersionDef<'data>>, ViewFault>
    requires raw { raw.now ≡ raw_entries (parts_model parts.now) }
    requires walked { walked.now ≡ defined_in (parts_model parts.now) }
    ensures { Gives (λ v. map definition_model v.items) result
        (definitions_read (parts_model parts.now)
        (first_section VERDEFS parts.now.sections.items)) }
{
    let Some(section) = section_of_type(&parts.sections, SHT_GNU_VERDEF) else {
        return Ok(Vec::new(alloc));
    };
    let texts = dynamic_texts(parts, raw, section);
    kept_definitions(alloc, parts.file.len(), texts, walked)
}

/// The versions that the file needs, library by library, with their texts; `Absent` where one of these isn't there,
/// `Memory` where there isn't enough memory.
pub fn needs<'data>(
    alloc: Global,
    parts: &Headers<'data>,
    raw: &[EntryNumbers],
    walked: &[RawNeeds],
) -> Result<Vec<VersionNeed<'data>>, ViewFault>
    requires raw { raw.now ≡ raw_entries (parts_model parts.now) }
    requires walked { walked.now ≡ needed_in (parts_model parts.now) }
    ensures { Gives (λ v. map needs_model v.items) result
        (needs_read (parts_model parts.now) (first_section VERNEEDS parts.now.sections.items)) }
{
    let Some(section) = section_of_type(&parts.sections, SHT_GNU_VERNEED) else {
        return Ok(Vec::new(alloc));
    };
    let texts = dynamic_texts(parts, raw, section);
    kept_needs(alloc, parts.file.len(), texts, walked)
}
