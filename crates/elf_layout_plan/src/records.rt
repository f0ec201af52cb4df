//! The records of needed versions of which some version stays.
ghost use Rattle.std.specs.Prelude.{◌≡◌, ◌&&◌, length, map, not};
ghost use Rattle.elf_tables.specs.ImageModel.{name_model, needs_model};
ghost use Rattle.elf_layout_plan.specs.Needs.{is_empty};
ghost use Rattle.elf_layout_plan.specs.Staying.{is_unmarked, unmarked_names, unmarked_needs};

use crate::marks::is_marked;
use crate::{VersionNeed, VersionNeedName};

// How many versions stay.
pub(crate) fn count_unmarked(names: &[VersionNeedName<'_>], marks: &[bool]) -> usize
    ensures { result ≡ length (unmarked_names marks.now (map name_model names.now)) }
{
    let mut count = 0;
    for name in names {
        if !is_marked(marks, name.index) {
            count += 1;
        }
    }
    count
}

// Whether the record of a library stays.
pub(crate) fn does_need_stay(need: &VersionNeed<'_>, marks: &[bool]) -> bool
    ensures { result ≡ is_unmarked marks.now (needs_model need.now) }
{
    need.versions.is_empty() || count_unmarked(&need.versions, marks) != 0
}

// How many records stay.
pub(crate) fn count_needs(needs: &[VersionNeed<'_>], marks: &[bool]) -> usize
    ensures { result ≡ length (unmarked_needs marks.now (map needs_model needs.now)) }
{
    let mut count = 0;
    for need in needs {
        if does_need_stay(need, marks) {
            count += 1;
        }
    }
    count
}

// Whether the record of some library stays.
fn do_needs_stay(needs: &[VersionNeed<'_>], marks: &[bool]) -> bool
    ensures { result ≡ not (is_empty (unmarked_needs marks.now (map needs_model needs.now))) }
{
    for need in needs {
        if does_need_stay(need, marks) {
            return true;
        }
    }
    false
}

// Whether there are records, and none of them stays.
pub(crate) fn are_needs_gone(needs: &[VersionNeed<'_>], marks: &[bool]) -> bool
    ensures { result ≡ (not (is_empty (map needs_model needs.now))
        && is_empty (unmarked_needs marks.now (map needs_model needs.now))) }
{
    !needs.is_empty() && !do_needs_stay(needs, marks)
}
