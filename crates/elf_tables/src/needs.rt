ghost use Rattle.std.specs.Prelude.{◌≡◌, ◌≢◌, ℕ, ◌<◌, ◌≤◌, ◌^◌, [], ◌∷◌, ◌++◌, ◌&&◌, true, false, is_some, length, map, Some, IfOk, MatchResult, OnOk, if◌then◌else◌};
ghost use Rattle.std.specs.List.{AllByRecursion, list_all, list_any};
ghost use Rattle.patch_bytes.specs.declared.number.Wide.{Wide};
ghost use Rattle.patch_bytes.specs.Memory.{memory_of};
ghost use Rattle.elf_format.specs.Views.{needed_versions};
ghost use Rattle.elf_image.specs.ImageModel.{name_model, needs_model};
ghost use Rattle.elf_tables.specs.declared.fault.TableFault.TheVariants.{NumberTooLarge};
ghost use Rattle.elf_tables.specs.Strings.{PlacesStand, place_of};
ghost use Rattle.elf_tables.specs.VersionRecords.{are_versions_too_many, chained, fields, halves, has_needs_texts, needs_size, needs_table, placed_name, placed_needs, spelled_need_name, spelled_needs};
ghost use Rattle.elf_tables.specs.VersionSteps.{NameFits, NeedsFit};

use crate::fault::TableFault;
use crate::finished::Finished;
use crate::hash::sysv_hash;
use crate::versions::next_distance;
use crate::{push_halves, push_words};
use elf_image::{VersionNeed, VersionNeedName};
use patch_bytes::ByteOrder2;
use std::alloc::{AllocError, Global};

// Appends the flags and the number of a needed version.
fn push_marks(
    bytes: &mut Vec<u8>,
    order: ByteOrder2,
    flags: u16,
    index: u16,
) -> Result<(), AllocError>
    ensures made { OnOk result (bytes.new.items
        ≡ bytes.old.items ++ fields order (halves (flags ∷ index ∷ []))) }
    ensures flags { flags < 2 ^ 16 }
    ensures index { index < 2 ^ 16 }
{
    push_halves(bytes, order, &[flags, index])
}

// Appends a needed version, by where its name stands in a table.
fn push_need_name(
    bytes: &mut Vec<u8>,
    version: &VersionNeedName<'_>,
    table: &Finished<'_>,
    order: ByteOrder2,
    has_next: bool,
) -> Result<(), TableFault>
    requires { is_some (place_of table.now version.now.name.bytes) ≡ true }
    ensures { let placed = placed_name table.now (name_model version.now) in MatchResult result
        (λ _. (bytes.new.items ≡ bytes.old.items
        ++ spelled_need_name order placed (if has_next then 16 else 0))
        × NameFits placed)
        (λ fault. fault ≢ NumberTooLarge) }
{
    let hash = sysv_hash(version.name.as_slice());
    let place = table.offset_of(version.name.as_slice()).unwrap();
    let next = next_distance(has_next, 16);
    push_words(bytes, order, &[hash])?;
    push_marks(bytes, order, version.flags, version.index)?;
    push_words(bytes, order, &[place, next])?;
    Ok(())
}

// Appends the versions needed of a library, by where their names stand in a table.
fn push_need_names(
    bytes: &mut Vec<u8>,
    versions: &[VersionNeedName<'_>],
    table: &Finished<'_>,
    order: ByteOrder2,
) -> Result<(), TableFault>
    requires { list_all (λ v. is_some (place_of table.now v.name))
        (map name_model versions.now)
        ≡ true }
    ensures { let placed = map (placed_name table.now) (map name_model versions.now) in
        MatchResult result
        (λ _. (bytes.new.items
        ≡ bytes.old.items ++ chained (spelled_need_name order) (λ v. 16) placed)
        × AllByRecursion NameFits placed)
        (λ fault. fault ≢ NumberTooLarge) }
{
    for (i, version) in versions.iter().enumerate() {
        push_need_name(bytes, version, table, order, i + 1 < versions.len())?;
    }
    Ok(())
}

// Appends a library with the versions needed of it.
fn push_needs(
    bytes: &mut Vec<u8>,
    needs: &VersionNeed<'_>,
    table: &Finished<'_>,
    order: ByteOrder2,
    has_next: bool,
) -> Result<(), TableFault>
    requires file { is_some (place_of table.now needs.now.file.bytes) ≡ true }
    requires names { list_all (λ v. is_some (place_of table.now v.name))
        (map name_model needs.now.versions.items)
        ≡ true }
    ensures { let placed = placed_needs table.now (needs_model needs.now) in
        MatchResult result
        (λ _. (bytes.new.items ≡ bytes.old.items
        ++ spelled_needs order placed (if has_next then needs_size placed else 0))
        × NeedsFit placed)
        (λ fault. fault ≡ NumberTooLarge
        → are_versions_too_many (needs_model needs.now) ≡ true) }
{
    let count = needs.versions.len();
    if count > 0xffff {
        return Err(TableFault::NumberTooLarge);
    }
    let file = table.offset_of(needs.file.as_slice()).unwrap();
    let next = next_distance(has_next, 16 + 16 * count as u32);
    push_halves(bytes, order, &[1, count as u16])?;
    push_words(bytes, order, &[file, 16, next])?;
    push_need_names(bytes, &needs.versions, table, order)
}

/// The table of needed versions (GNU symbol versioning, `.gnu.version_r`), record behind record. The texts stand in the
/// string table `names`. `NumberTooLarge` where more versions are needed of a library than 16 bits can count.
pub fn build_verneed(
    alloc: Global,
    records: &[VersionNeed<'_>],
    names: &Finished<'_>,
    order: ByteOrder2,
) -> Result<Vec<u8>, TableFault>
    requires { has_needs_texts names.now (map needs_model records.now) ≡ true }
    ensures bytes { let kept = map needs_model records.now in MatchResult result
        (λ bytes. (bytes.items ≡ needs_table order (map (placed_needs names.now) kept))
        × (list_any are_versions_too_many kept ≡ false))
        (λ fault. fault ≡ NumberTooLarge → list_any are_versions_too_many kept ≡ true) }
    ensures read { IfOk result (λ bytes. (wide : Wide) (room : ℕ) → PlacesStand names.now
        → length names.now.bytes ≤ room
        → needed_versions (record { wide = wide; order = order }) room
        (record {
          bytes = memory_of bytes.items;
          texts = memory_of names.now.bytes;
          count = length records.now;
        })
        ≡ Some (map needs_model records.now)) }
{
    let mut bytes = Vec::new(alloc);
    for (i, needs) in records.iter().enumerate() {
        push_needs(&mut bytes, needs, names, order, i + 1 < records.len())?;
    }
    Ok(bytes)
}
