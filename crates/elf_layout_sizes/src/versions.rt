//! The sizes of version records.
ghost use Rattle.std.specs.Prelude.{◌≡◌, ◌+◌, ◌*◌, ◌<◌, ◌^◌, map, SomeIff};
ghost use Rattle.elf_image.specs.ImageModel.{definition_model, needs_model};
ghost use Rattle.elf_layout_plan.specs.Sizes.{definitions_size as size_of_definitions, needs_size as size_of_needs};
ghost use Rattle.elf_layout_plan.specs.Staying.{unmarked_needs};

use elf_layout_plan::{StayingNeeds, VersionDef, VersionNeed};

// A size with a part more: so many bytes, and so many for each of a count. `None` where it is past 64 bits.
pub(crate) fn grown(size: u64, front: u64, each: u64, count: usize) -> Option<u64>
    ensures { let all = size + (front + each * count) in SomeIff result (all < 2 ^ 64) all }
{
    let parts = each.checked_mul(count as u64)?;
    let part = front.checked_add(parts)?;
    size.checked_add(part)
}

// The size of the table of needed versions, of those that stay (GNU symbol versioning). `None` where it is past 64
// bits.
pub(crate) fn needs_size(needs: &[VersionNeed<'_>], staying: &StayingNeeds) -> Option<u64>
    ensures { let left = unmarked_needs staying.now.marks (map needs_model needs.now) in
        SomeIff result (size_of_needs left < 2 ^ 64) (size_of_needs left) }
{
    let mut size = 0;
    for need in needs {
        if staying.does_need_stay(need) {
            let count = staying.count_versions(need);
            size = grown(size, 16, 16, count)?;
        }
    }
    Some(size)
}

// The size of the table of defined versions (GNU symbol versioning). `None` where it is past 64 bits.
pub(crate) fn definitions_size(definitions: &[VersionDef<'_>]) -> Option<u64>
    ensures { let size = size_of_definitions (map definition_model definitions.now) in
        SomeIff result (size < 2 ^ 64) size }
{
    let mut size = 0;
    for definition in definitions {
        size = grown(size, 20, 8, definition.names.len())?;
    }
    Some(size)
}
