ghost use Rattle.std.specs.Prelude.{◌≡◌, ◌^◌, ◌++◌, length, map, IfOk};
ghost use Rattle.elf_image_versions.specs.WalkSteps.{AreMarked, AreUnmarked, indices_defined, indices_needed, marked};

use elf_format::records::NeedNameNumbers;
use elf_format::versions::{RawDefinition, RawNeeds};
use std::alloc::{AllocError, Global};

// How many numbers an index has.
const INDICES: usize = 65536;

// Marks the indices of defined versions.
fn mark_definitions(marks: &mut [bool], definitions: &[RawDefinition])
    requires { length marks.old ≡ 2 ^ 16 }
    ensures { marks.new ≡ marked (indices_defined definitions.now) marks.old }
{
    for definition in definitions {
        marks[definition.index as usize] = true;
    }
}

// Marks the indices of the versions needed of one library.
fn mark_names(marks: &mut [bool], names: &[NeedNameNumbers])
    requires { length marks.old ≡ 2 ^ 16 }
    ensures { marks.new ≡ marked (map (λ v. v.index) names.now) marks.old }
{
    for name in names {
        marks[name.index as usize] = true;
    }
}

// Marks the indices of needed versions.
fn mark_needs(marks: &mut [bool], needs: &[RawNeeds])
    requires { length marks.old ≡ 2 ^ 16 }
    ensures { marks.new ≡ marked (indices_needed needs.now) marks.old }
{
    for need in needs {
        mark_names(marks, &need.versions);
    }
}

// So many places without a mark.
fn unmarked(alloc: Global, room: usize) -> Result<Vec<bool>, AllocError>
    ensures { IfOk result (λ v. AreUnmarked room v.items) }
{
    vec![in alloc; false; room]
}

// A mark at the index of each defined and each needed version.
pub(crate) fn mark_known(
    alloc: Global,
    definitions: &[RawDefinition],
    needs: &[RawNeeds],
) -> Result<Vec<bool>, AllocError>
    ensures { IfOk result (λ v.
        AreMarked (indices_defined definitions.now ++ indices_needed needs.now) v.items) }
{
    let mut marks = unmarked(alloc, INDICES)?;
    mark_definitions(&mut marks, definitions);
    mark_needs(&mut marks, needs);
    Ok(marks)
}
