//! The entries of a dynamic list that are of needed versions (GNU symbol versioning, `DT_VERNEED`, `DT_VERNEEDNUM`).
ghost use Rattle.std.specs.Prelude.{◌≡◌, length, map};
ghost use Rattle.elf_format.specs.Image.{lists_tag as is_tag_listed};
ghost use Rattle.elf_format.specs.Options.{is_some_and};
ghost use Rattle.elf_tables.specs.ImageModel.{entry_model};
ghost use Rattle.elf_layout_plan.specs.Needs.{lists_needs as name_needs};
ghost use Rattle.elf_layout_plan.specs.Staying.{is_of_needs as is_entry_of_needs, staying_entries};

use crate::format_constants::{DT_SYMTAB, DT_VERNEED, DT_VERNEEDNUM, DT_VERSYM};
use crate::{Builder, Dynamic};

// Whether an entry of the dynamic list has a tag.
fn lists_tag(entries: &[Dynamic<'_>], tag: u64) -> bool
    ensures { result ≡ is_tag_listed tag (map entry_model entries.now) }
{
    for entry in entries {
        if entry.has_tag(tag) {
            return true;
        }
    }
    false
}

// Whether the dynamic list names the symbols, their versions, the needed versions and how many there are.
fn lists_needs(entries: &[Dynamic<'_>]) -> bool
    ensures { result ≡ name_needs (map entry_model entries.now) }
{
    lists_tag(entries, DT_SYMTAB)
        && lists_tag(entries, DT_VERSYM)
        && lists_tag(entries, DT_VERNEED)
        && lists_tag(entries, DT_VERNEEDNUM)
}

// Whether the dynamic list leads a loader to the needed versions.
pub(crate) fn leads_to_needs(image: &Builder<'_>) -> bool
    ensures { result ≡ is_some_and name_needs image.now.entries }
{
    match image.dynamic_data() {
        Some(entries) => lists_needs(entries),
        None => false,
    }
}

// Whether an entry of the dynamic list is of needed versions.
pub(crate) fn is_of_needs(entry: &Dynamic<'_>) -> bool
    ensures { result ≡ is_entry_of_needs (entry_model entry.now) }
{
    entry.has_tag(DT_VERNEED) || entry.has_tag(DT_VERNEEDNUM)
}

// How many entries of a dynamic list stay.
pub(crate) fn count_staying(entries: &[Dynamic<'_>], without_needs: bool) -> usize
    ensures { result ≡ length (staying_entries without_needs (map entry_model entries.now)) }
{
    let mut count = 0;
    for entry in entries {
        if !(without_needs && is_of_needs(entry)) {
            count += 1;
        }
    }
    count
}
