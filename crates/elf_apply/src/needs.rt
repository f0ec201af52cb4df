//! Needed versions of which libraries have other names (GNU symbol versioning, `Elfxx_Verneed`).
ghost use Rattle.std.specs.Prelude.{◌≡◌, IfOk, map};
ghost use Rattle.std.specs.List.{list_any};
ghost use Rattle.elf_apply.specs.Drafted.{AreNeedsAfter};
ghost use Rattle.elf_apply.specs.Needs.{has_file_in, with_file_by};
ghost use Rattle.elf_edits.specs.EditModel.{pairs_model};
ghost use Rattle.elf_image.specs.ImageModel.{name_model, needs_model};

use elf_edits::entries::new_name;
use elf_edits::lookups::map_of;
use elf_image::{VersionNeed, VersionNeedName};
use std::alloc::{AllocError, Global};
use std::collections::HashMap;

// A copy of a needed version.
fn copied_version<'data>(
    alloc: Global,
    version: &VersionNeedName<'data>,
) -> Result<VersionNeedName<'data>, AllocError>
    ensures { IfOk result (λ copy. name_model copy ≡ name_model version.now) }
{
    let name = version.name.try_clone(alloc)?;
    Ok(VersionNeedName {
        index: version.index,
        name,
        flags: version.flags,
    })
}

// Copies of needed versions.
fn copied_versions<'data>(
    alloc: Global,
    versions: &[VersionNeedName<'data>],
) -> Result<Vec<VersionNeedName<'data>>, AllocError>
    ensures { IfOk result (λ copies. map name_model copies.items ≡ map name_model versions.now) }
{
    let mut made = Vec::with_capacity(alloc, versions.len())?;
    for version in versions {
        made.push(copied_version(alloc, version)?)?;
    }
    Ok(made)
}

// The versions that are needed of a library, which has the name that a map has for its own, if it has one.
fn replaced_need<'data>(
    alloc: Global,
    names: &HashMap<&[u8], &[u8]>,
    need: &VersionNeed<'data>,
) -> Result<VersionNeed<'data>, AllocError>
    ensures { IfOk result (λ made. needs_model made
        ≡ with_file_by names.now.entries (needs_model need.now)) }
{
    let file = new_name(alloc, names, &need.file)?;
    let versions = copied_versions(alloc, need.versions.as_slice())?;
    Ok(VersionNeed { file, versions })
}

// The versions that are needed of all libraries, in order; each library has the name that a map has
// for its own, if it has one.
fn replaced_needs<'data>(
    alloc: Global,
    names: &HashMap<&[u8], &[u8]>,
    needs: &[VersionNeed<'data>],
) -> Result<Vec<VersionNeed<'data>>, AllocError>
    ensures { IfOk result (λ made. map needs_model made.items
        ≡ map (with_file_by names.now.entries) (map needs_model needs.now)) }
{
    let mut made = Vec::with_capacity(alloc, needs.len())?;
    for need in needs {
        made.push(replaced_need(alloc, names, need)?)?;
    }
    Ok(made)
}

// Whether a map has a name for the library.
fn has_file(names: &HashMap<&[u8], &[u8]>, need: &VersionNeed<'_>) -> bool
    ensures { result ≡ has_file_in names.now.entries (needs_model need.now) }
{
    names.contains_key(need.file.as_slice())
}

// Whether a map has a name for one of the libraries.
fn has_any_file(names: &HashMap<&[u8], &[u8]>, needs: &[VersionNeed<'_>]) -> bool
    ensures { result ≡ list_any (has_file_in names.now.entries) (map needs_model needs.now) }
{
    for need in needs {
        if has_file(names, need) {
            return true;
        }
    }
    false
}

// The needed versions with the names that some pairs have for those of libraries, where they have one; `None` where they have
// none. The cost is in proportion to the versions and the pairs.
pub(crate) fn rename_files<'data>(
    alloc: Global,
    pairs: &[(Vec<u8>, Vec<u8>)],
    needs: &[VersionNeed<'data>],
) -> Result<Option<Vec<VersionNeed<'data>>>, AllocError>
    ensures { IfOk result (AreNeedsAfter (pairs_model pairs.now) (map needs_model needs.now)) }
{
    let names = map_of(alloc, pairs)?;
    if !has_any_file(&names, needs) {
        return Ok(None);
    }
    Ok(Some(replaced_needs(alloc, &names, needs)?))
}
