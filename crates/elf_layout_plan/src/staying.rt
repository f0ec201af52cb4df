//! What is known once of the needed versions of an edited image.
ghost use Rattle.std.specs.Prelude.{◌≡◌, ◌&&◌, IfOk, IsTrue, false, not, true};
ghost use Rattle.elf_format.specs.Options.{is_some_and};
ghost use Rattle.elf_tables.specs.Kept.{image_at_read};
ghost use Rattle.elf_tables.specs.SymbolsRead.{OfRead};
ghost use Rattle.elf_layout_plan.specs.Needs.{is_empty, lists_needs, written_needs};
ghost use Rattle.elf_layout_plan.specs.Staying.{unmarked_needs};

use crate::entries::{count_staying, is_of_needs, leads_to_needs};
use crate::marks::{dropped_marks, is_marked};
use crate::records::{are_needs_gone, count_needs, count_unmarked, does_need_stay};
use crate::{Builder, Dynamic, VersionNeed};
use std::alloc::{AllocError, Global};
use std::marker::Model;

// Whether all needed versions are known to stay, without a look at symbols: the dynamic list doesn't lead a loader to
// them, or the dynamic symbols are those that were read.
fn do_all_stay(image: &Builder<'_>) -> bool
    ensures stay { IsTrue result
        → OfRead image.now (λ read. written_needs read image.now ≡ image.now.needs) }
    ensures leads { result ≡ false → is_some_and lists_needs image.now.entries ≡ true }
{
    !leads_to_needs(image) || image.keeps_dynamic_symbols()
}

// Marks the versions that go: a dynamic symbol had each at read, and none has it now.
fn marks_of(alloc: Global, read: &Builder<'_>, image: &Builder<'_>) -> Result<Vec<bool>, AllocError>
    requires { read.now ≡ image_at_read image.now }
    ensures { IfOk result (λ marks. unmarked_needs marks.items image.now.needs
        ≡ written_needs read.now image.now) }
{
    // the image was read from its source
    let _source = image.source();
    if do_all_stay(image) {
        return Ok(Vec::new(alloc));
    }
    let marks = dropped_marks(alloc, read.dynamic_symbols(), image.dynamic_symbols())?;
    Ok(marks)
}

// Whether there are needed versions, and none of them is written.
fn is_without_needs(image: &Builder<'_>, marks: &[bool]) -> bool
    ensures { result ≡ (not (is_empty image.now.needs)
        && is_empty (unmarked_needs marks.now image.now.needs)) }
{
    are_needs_gone(&image.versions().needs, marks)
}

/// Which needed versions of an edited image stay, and whether the dynamic list that is written has the tags of needed
/// versions (GNU symbol versioning, `.gnu.version_r`).
#[derive(Drop)]
pub struct StayingNeeds {
    // Marks of the versions that go, by their indices; none past them.
    marks: Vec<bool>,
    // Whether records were there, and none is left.
    are_gone: bool,
}

impl Model for StayingNeeds {
    ghost use Rattle.elf_layout_plan.specs.Staying.{Staying};
    ghost use Rattle.elf_layout_plan.specs.StayingModel.{staying_model};

    ghost Value = { Staying };

    ghost view = { staying_model };
}

impl StayingNeeds {
    ghost use Rattle.std.specs.Prelude.{◌≡◌, IfOk, length, map};
    ghost use Rattle.elf_format.specs.Image.{Image};
    ghost use Rattle.elf_tables.specs.Kept.{image_at_read};
    ghost use Rattle.elf_tables.specs.ImageModel.{entry_model, needs_model};
    ghost use Rattle.elf_layout_plan.specs.Staying.{does_entry_stay, does_version_stay, is_unmarked, staying_entries, unmarked_names, unmarked_needs};
    ghost use Rattle.elf_layout_plan.specs.WrittenNeeds.{AreWritten};

    /// What stays of an image that was read: all. Takes no memory.
    pub fn all(alloc: Global) -> StayingNeeds
        ensures { (read : Image) → AreWritten read read result }
    {
        StayingNeeds {
            marks: Vec::new(alloc),
            are_gone: false,
        }
    }

    /// What stays of an edited image, for a caller that has the image as its source was read. Symbols are looked at only
    /// where the dynamic symbols aren't as they were read. Error: `AllocError`.
    pub fn new(
        alloc: Global,
        read: &Builder<'_>,
        image: &Builder<'_>,
    ) -> Result<StayingNeeds, AllocError>
        requires { read.now ≡ image_at_read image.now }
        ensures { IfOk result (AreWritten read.now image.now) }
    {
        let marks = marks_of(alloc, read, image)?;
        let are_gone = is_without_needs(image, &marks);
        Ok(StayingNeeds { marks, are_gone })
    }

    /// Whether a version stays, told by the number by which symbols name it. Takes no memory.
    pub fn does_version_stay(&self, index: u16) -> bool
        ensures { result ≡ does_version_stay self.now index }
    {
        !is_marked(&self.marks, index)
    }

    /// How many of the versions that are needed of a library stay. Takes no memory.
    pub fn count_versions(&self, need: &VersionNeed<'_>) -> usize
        ensures { result ≡ length (unmarked_names self.now.marks (needs_model need.now).versions) }
    {
        count_unmarked(&need.versions, &self.marks)
    }

    /// Whether the record of a library stays. Takes no memory.
    pub fn does_need_stay(&self, need: &VersionNeed<'_>) -> bool
        ensures { result ≡ is_unmarked self.now.marks (needs_model need.now) }
    {
        does_need_stay(need, &self.marks)
    }

    /// How many records stay. Takes no memory.
    pub fn count_needs(&self, needs: &[VersionNeed<'_>]) -> usize
        ensures { result ≡ length (unmarked_needs self.now.marks (map needs_model needs.now)) }
    {
        count_needs(needs, &self.marks)
    }

    /// Whether records were there, and none is left: then the tags of needed versions go with them. Takes no memory.
    pub fn are_needs_gone(&self) -> bool
        ensures { result ≡ self.now.are_gone }
    {
        self.are_gone
    }

    /// Whether an entry of the dynamic list stays. Takes no memory.
    pub fn does_entry_stay(&self, entry: &Dynamic<'_>) -> bool
        ensures { result ≡ does_entry_stay self.now.are_gone (entry_model entry.now) }
    {
        !(self.are_gone && is_of_needs(entry))
    }

    /// How many entries of a dynamic list stay. Takes no memory.
    pub fn count_entries(&self, entries: &[Dynamic<'_>]) -> usize
        ensures { result
            ≡ length (staying_entries self.now.are_gone (map entry_model entries.now)) }
    {
        count_staying(entries, self.are_gone)
    }
}
