ghost use Rattle.std.specs.Prelude.{◌≡◌, map, IfOk};
ghost use Rattle.elf_image_versions.specs.VersionsModel.{AreSameVersions, definition_model, name_model, needs_model};

use patch_bytes::ByteString;
use std::alloc::{AllocError, Global};

/// A version that the file defines (GNU symbol versioning, `Elfxx_Verdef`).
#[derive(Debug, Drop)]
pub struct VersionDef<'data> {
    /// The number by which symbols name the version (`vd_ndx`).
    pub index: u16,
    /// 1 for the file's own name, 2 for a version that no symbol has (`vd_flags`).
    pub flags: u16,
    /// The version's own name, then those of the versions that it comes after.
    pub names: Vec<ByteString<'data>>,
}

/// The versions that the file needs of one library (GNU symbol versioning, `Elfxx_Verneed`).
#[derive(Debug, Drop)]
pub struct VersionNeed<'data> {
    /// The library's name.
    pub file: ByteString<'data>,
    /// The versions that are needed of the library, in order.
    pub versions: Vec<VersionNeedName<'data>>,
}

/// One needed version (GNU symbol versioning, `Elfxx_Vernaux`).
#[derive(Debug, Drop)]
pub struct VersionNeedName<'data> {
    /// The number by which symbols name the version (`vna_other`).
    pub index: u16,
    /// The version's name.
    pub name: ByteString<'data>,
    /// 2 where the file can do without the version (`vna_flags`).
    pub flags: u16,
}

/// The versions of dynamic symbols that the file has records of (GNU symbol versioning).
#[derive(Debug, Drop)]
pub struct Versions<'data> {
    /// The versions that the file defines.
    pub definitions: Vec<VersionDef<'data>>,
    /// The versions that the file needs, library by library.
    pub needs: Vec<VersionNeed<'data>>,
}

impl<'data> Versions<'data> {
    /// A copy of the versions: borrowed texts are lent again, owned ones copied. Error:
    /// `AllocError`.
    pub fn try_clone(&self, alloc: Global) -> Result<Versions<'data>, AllocError>
        ensures { IfOk result (λ copy. AreSameVersions self.now copy) }
    {
        let definitions = copied_definitions(alloc, &self.definitions)?;
        let needs = copied_needs(alloc, &self.needs)?;
        Ok(Versions { definitions, needs })
    }
}

// Copies of texts.
fn copied_texts<'data>(
    alloc: Global,
    texts: &[ByteString<'data>],
) -> Result<Vec<ByteString<'data>>, AllocError>
    ensures { IfOk result (λ copies. copies.items ≡ texts.now) }
{
    let mut made = Vec::with_capacity(alloc, texts.len())?;
    for text in texts {
        let one = text.try_clone(alloc)?;
        made.push(one)?;
    }
    Ok(made)
}

// Copies of defined versions.
fn copied_definitions<'data>(
    alloc: Global,
    definitions: &[VersionDef<'data>],
) -> Result<Vec<VersionDef<'data>>, AllocError>
    ensures { IfOk result (λ copies.
        map definition_model copies.items ≡ map definition_model definitions.now) }
{
    let mut made = Vec::with_capacity(alloc, definitions.len())?;
    for definition in definitions {
        let names = copied_texts(alloc, &definition.names)?;
        made.push(VersionDef {
            index: definition.index,
            flags: definition.flags,
            names,
        })?;
    }
    Ok(made)
}

// A copy of a needed version.
fn copied_name<'data>(
    alloc: Global,
    version: &VersionNeedName<'data>,
) -> Result<VersionNeedName<'data>, AllocError>
    ensures { IfOk result (λ copy. name_model copy ≡ name_model version.now) }
{
    let name = version.name.try_clone(alloc)?;
    Ok(VersionNeedName {
        index: version.index,
        name,
        flags: version.flags,
    })
}

// Copies of the needed versions of one library.
fn copied_names<'data>(
    alloc: Global,
    versions: &[VersionNeedName<'data>],
) -> Result<Vec<VersionNeedName<'data>>, AllocError>
    ensures { IfOk result (λ copies. map name_model copies.items ≡ map name_model versions.now) }
{
    let mut made = Vec::with_capacity(alloc, versions.len())?;
    for version in versions {
        let one = copied_name(alloc, version)?;
        made.push(one)?;
    }
    Ok(made)
}

// A copy of the versions needed of one library.
fn copied_need<'data>(
    alloc: Global,
    need: &VersionNeed<'data>,
) -> Result<VersionNeed<'data>, AllocError>
    ensures { IfOk result (λ copy. needs_model copy ≡ needs_model need.now) }
{
    let file = need.file.try_clone(alloc)?;
    let versions = copied_names(alloc, &need.versions)?;
    Ok(VersionNeed { file, versions })
}

// Copies of needed versions, library by library.
fn copied_needs<'data>(
    alloc: Global,
    needs: &[VersionNeed<'data>],
) -> Result<Vec<VersionNeed<'data>>, AllocError>
    ensures { IfOk result (λ copies. map needs_model copies.items ≡ map needs_model needs.now) }
{
    let mut made = Vec::with_capacity(alloc, needs.len())?;
    for need in needs {
        let one = copied_need(alloc, need)?;
        made.push(one)?;
    }
    Ok(made)
}
