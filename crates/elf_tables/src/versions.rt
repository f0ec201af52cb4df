ghost use Rattle.std.specs.Prelude.{◌≡◌, ◌≢◌, ℕ, ◌<◌, ◌≤◌, ◌^◌, [], ◌∷◌, ◌++◌, true, false, is_some, length, map, nat_lt, Some, IfOk, MatchResult, OnOk, if◌then◌else◌};
ghost use Rattle.std.specs.List.{AllByRecursion, list_all, list_any};
ghost use Rattle.patch_bytes.specs.ByteString.{bytes_of_each};
ghost use Rattle.patch_bytes.specs.declared.number.Wide.{Wide};
ghost use Rattle.patch_bytes.specs.Memory.{memory_of};
ghost use Rattle.elf_format.specs.Form.{records};
ghost use Rattle.elf_format.specs.Hashes.{gabi_hash};
ghost use Rattle.elf_format.specs.Versions.{version_id};
ghost use Rattle.elf_format.specs.Views.{defined_versions};
ghost use Rattle.elf_image.specs.ImageModel.{definition_model};
ghost use Rattle.elf_tables.specs.declared.fault.TableFault.TheVariants.{NumberTooLarge};
ghost use Rattle.elf_tables.specs.Strings.{PlacesStand, place_of};
ghost use Rattle.elf_tables.specs.VersionRecords.{version_number as number_of_version, are_names_too_many, chained, definition_size, definition_table, fields, halves, has_definition_texts, is_index_too_large, own_name, place_in, placed_definition, spelled_definition, spelled_definition_name, version_fields};
ghost use Rattle.elf_tables.specs.VersionSteps.{DefinitionFits};

use crate::fault::TableFault;
use crate::finished::Finished;
use crate::hash::sysv_hash;
use crate::{push_halves, push_words};
use elf_image::constants::VERSYM_HIDDEN;
use elf_image::{VersionDef, VersionId};
use patch_bytes::{ByteOrder2, ByteString};
use std::alloc::{AllocError, Global};

// The number of a symbol's version.
fn version_number(id: VersionId) -> u16
    requires { is_index_too_large id ≡ false }
    ensures { result ≡ number_of_version id }
{
    if id.hidden {
        id.index + VERSYM_HIDDEN
    } else {
        id.index
    }
}

/// The versions of symbols, in the order of the symbols (GNU symbol versioning, `.gnu.version`). `NumberTooLarge` where an
/// index is past its 15 bits.
pub fn build_versym(
    alloc: Global,
    ids: &[VersionId],
    order: ByteOrder2,
) -> Result<Vec<u8>, TableFault>
    ensures bytes { MatchResult result
        (λ bytes. (bytes.items ≡ fields order (version_fields ids.now))
        × (list_any is_index_too_large ids.now ≡ false))
        (λ fault. fault ≡ NumberTooLarge → list_any is_index_too_large ids.now ≡ true) }
    ensures read { IfOk result (λ bytes. (wide : Wide)
        → records (version_id (record { wide = wide; order = order })) 2 (length ids.now)
        bytes.items
        ≡ ids.now) }
{
    let mut bytes = Vec::new(alloc);
    for id in ids {
        if id.index >= VERSYM_HIDDEN {
            return Err(TableFault::NumberTooLarge);
        }
        push_halves(&mut bytes, order, &[version_number(*id)])?;
    }
    Ok(bytes)
}

// The hash of a defined version's own name.
fn own_hash(names: &[ByteString<'_>]) -> u32
    ensures { result ≡ gabi_hash (own_name (bytes_of_each names.now)) }
{
    match names.first() {
        Some(name) => sysv_hash(name.as_slice()),
        None => sysv_hash(&[]),
    }
}

// How far behind a record of so many bytes the next one stands.
pub(crate) fn next_distance(has_next: bool, size: u32) -> u32
    ensures { result ≡ (if has_next then size else 0) }
{
    if has_next { size } else { 0 }
}

// Appends the names of a defined version, by where they stand in a table.
fn push_names(
    bytes: &mut Vec<u8>,
    names: &[ByteString<'_>],
    table: &Finished<'_>,
    order: ByteOrder2,
) -> Result<(), TableFault>
    requires { list_all (λ name. is_some (place_of table.now name.bytes)) names.now ≡ true }
    ensures { MatchResult result
        (λ _. (bytes.new.items ≡ bytes.old.items
        ++ chained (spelled_definition_name order) (λ name. 8)
        (map (place_in table.now) (bytes_of_each names.now)))
        × AllByRecursion (λ place. place < 2 ^ 32)
        (map (place_in table.now) (bytes_of_each names.now)))
        (λ fault. fault ≢ NumberTooLarge) }
{
    for (i, name) in names.iter().enumerate() {
        let place = table.offset_of(name.as_slice()).unwrap();
        let next = next_distance(i + 1 < names.len(), 8);
        push_words(bytes, order, &[place, next])?;
    }
    Ok(())
}

// Appends the numbers of two bytes that a defined version begins with.
fn push_front(
    bytes: &mut Vec<u8>,
    order: ByteOrder2,
    flags: u16,
    index: u16,
    count: u16,
) -> Result<(), AllocError>
    ensures made { OnOk result (bytes.new.items
        ≡ bytes.old.items ++ fields order (halves (1 ∷ flags ∷ index ∷ count ∷ []))) }
    ensures flags { flags < 2 ^ 16 }
    ensures index { index < 2 ^ 16 }
{
    push_halves(bytes, order, &[1, flags, index, count])
}

// Appends a defined version with its names.
fn push_definition(
    bytes: &mut Vec<u8>,
    version: &VersionDef<'_>,
    table: &Finished<'_>,
    order: ByteOrder2,
    has_next: bool,
) -> Result<(), TableFault>
    requires { list_all (λ name. is_some (place_of table.now name.bytes))
        version.now.names.items
        ≡ true }
    ensures { let placed = placed_definition table.now (definition_model version.now) in
        MatchResult result
        (λ _. (bytes.new.items ≡ bytes.old.items
        ++ spelled_definition order placed (if has_next then definition_size placed else 0))
        × DefinitionFits placed)
        (λ fault. fault ≡ NumberTooLarge
        → are_names_too_many (definition_model version.now) ≡ true) }
{
    let count = version.names.len();
    if count > 0xffff {
        return Err(TableFault::NumberTooLarge);
    }
    let next = next_distance(has_next, 20 + 8 * count as u32);
    push_front(bytes, order, version.flags, version.index, count as u16)?;
    push_words(bytes, order, &[own_hash(&version.names), 20, next])?;
    push_names(bytes, &version.names, table, order)
}

/// The table of defined versions (GNU symbol versioning, `.gnu.version_d`), record behind record. The texts stand in the
/// string table `names`. `NumberTooLarge` where a version has more names than 16 bits can count.
pub fn build_verdef(
    alloc: Global,
    records: &[VersionDef<'_>],
    names: &Finished<'_>,
    order: ByteOrder2,
) -> Result<Vec<u8>, TableFault>
    requires { has_definition_texts names.now (map definition_model records.now) ≡ true }
    ensures bytes { let kept = map definition_model records.now in MatchResult result
        (λ bytes. (bytes.items ≡ definition_table order (map (placed_definition names.now) kept))
        × (list_any are_names_too_many kept ≡ false))
        (λ fault. fault ≡ NumberTooLarge → list_any are_names_too_many kept ≡ true) }
    ensures read { IfOk result (λ bytes. (wide : Wide) (room : ℕ) → PlacesStand names.now
        → length names.now.bytes ≤ room
        → defined_versions (record { wide = wide; order = order }) room
        (record {
          bytes = memory_of bytes.items;
          texts = memory_of names.now.bytes;
          count = length records.now;
        })
        ≡ Some (map definition_model records.now)) }
{
    let mut bytes = Vec::new(alloc);
    for (i, version) in records.iter().enumerate() {
        push_definition(&mut bytes, version, names, order, i + 1 < records.len())?;
    }
    Ok(bytes)
}
