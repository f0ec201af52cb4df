ghost use Rattle.std.specs.Prelude.{◌≡◌, IfOk, map};
ghost use Rattle.elf_image.specs.ImageModel.{name_model, needs_model};
ghost use Rattle.elf_layout_sizes.specs.Staying.{unmarked_names, unmarked_needs};
ghost use Rattle.elf_layout_plan.specs.Needs.{written_needs};
ghost use Rattle.elf_write_spec.specs.Ready.{IsEditedReady};

use elf_image::{Builder, VersionNeed, VersionNeedName};
use elf_layout_sizes::StayingNeeds;
use patch_bytes::ByteString;
use std::alloc::{AllocError, Global};

// A needed version, whose name is lent.
fn lent_name<'n>(name: &'n VersionNeedName<'_>) -> VersionNeedName<'n>
    ensures { name_model result ≡ name_model name.entry.now }
{
    VersionNeedName {
        index: name.index,
        name: ByteString::borrowed(name.name.as_slice()),
        flags: name.flags,
    }
}

// The versions that stay of those that are needed of a library.
fn names_staying<'n>(
    alloc: Global,
    names: &'n [VersionNeedName<'_>],
    staying: &StayingNeeds,
) -> Result<Vec<VersionNeedName<'n>>, AllocError>
    ensures { IfOk result (λ kept. map name_model kept.items
        ≡ unmarked_names staying.now.marks (map name_model names.entry.now)) }
{
    let mut kept = Vec::new(alloc);
    for name in names {
        if staying.does_version_stay(name.index) {
            kept.push(lent_name(name))?;
        }
    }
    Ok(kept)
}

// The records of libraries that stay, each with its versions that stay.
fn needs_staying<'n>(
    alloc: Global,
    needs: &'n [VersionNeed<'_>],
    staying: &StayingNeeds,
) -> Result<Vec<VersionNeed<'n>>, AllocError>
    ensures { IfOk result (λ kept. map needs_model kept.items
        ≡ unmarked_needs staying.now.marks (map needs_model needs.entry.now)) }
{
    let mut kept = Vec::new(alloc);
    for need in needs {
        if !staying.does_need_stay(need) {
            continue;
        }
        let versions = names_staying(alloc, &need.versions, staying)?;
        let file = ByteString::borrowed(need.file.as_slice());
        kept.push(VersionNeed { file, versions })?;
    }
    Ok(kept)
}

// The needed versions that are written, with texts that are lent.
pub(super) fn written_needs_of<'n, 'data>(
    alloc: Global,
    read: &Builder<'data>,
    image: &'n Builder<'data>,
) -> Result<Vec<VersionNeed<'n>>, AllocError>
    requires { IsEditedReady read.now image.now }
    ensures { IfOk result (λ kept. map needs_model kept.items
        ≡ written_needs read.now image.entry.now) }
{
    let staying = StayingNeeds::new(alloc, read, image)?;
    needs_staying(alloc, &image.versions().needs, &staying)
}
