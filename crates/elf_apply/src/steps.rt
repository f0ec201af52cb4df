//! One edit, and a batch of edits, upon an image.
ghost use Rattle.std.specs.Prelude.{◌≡◌, ◌==◌, IfOk, IsOk, IsSome, IsTrue, None as none, Some as some, [], map, option_map, unwrap_or};
ghost use Rattle.std.specs.List.{AllPass};
ghost use Rattle.elf_edits.specs.Cause.{MipsImage as mips_image, cause_if, facts_of, list_missing};
ghost use Rattle.elf_edits.specs.Decided.{all_edited, first_refusal as first_refusal_of};
ghost use Rattle.elf_edits.specs.Edit.{SetPageSize, ForceRpath, ForceRunpath, dropped_tags, task_of};
ghost use Rattle.elf_edits.specs.EditModel.{edit_model};
ghost use Rattle.elf_edits.specs.Facts.{facts_model};
ghost use Rattle.elf_edits.specs.Texts.{has_some};
ghost use Rattle.elf_format.specs.declared.constants.TheConstants.{EM_MIPS as MIPS};
ghost use Rattle.elf_image.specs.DynamicList.{can_follow, is_free_tag};
ghost use Rattle.elf_image.specs.ImageModel.{entry_model};
ghost use Rattle.elf_image.specs.Options.{first_there};
ghost use Rattle.elf_apply.specs.Drafted.{IsShrunkOf, ListsEntries, OnlyShows, with_retagged, with_tag_dropped, with_tags_dropped};
ghost use Rattle.elf_apply.specs.Taken.{RemovedAre, TakesBatch, TakesEdit, TakesInPlace, edits_model, shrink_model};
ghost use Rattle.elf_apply.specs.Told.{cause_told, refusal_model};

use crate::batch::ElfBatchError;
use crate::draft::Draft;
use crate::error::{ElfError, ModifyCause, Result};
use crate::refusals::{cause_error, list_refusal, page_size_refusal};
use elf_edits::list::any_with_tag;
use elf_edits::{Cause, ElfEdit, Facts, Task, cause_of, image_facts};
use elf_edits_shrink::{ProbeAnswer, Removed, ShrunkList, shrink_cause, shrink_list};
use elf_image::constants::{DT_RPATH, DT_RUNPATH};
use elf_image::{Builder, Dynamic};
use std::alloc::{AllocError, Global};
use std::slice;

// The image, of which a proof then knows that each entry of its list may stand there.
fn known_image<'s, 'data>(builder: &'s Builder<'data>) -> &'s Builder<'data>
    ensures same { result.now ≡ builder.now }
    ensures lists { ListsEntries builder.now }
{
    let _source = builder.source();
    builder
}

// What the edits of a batch write, none of which is refused.
fn draft_of<'data>(
    alloc: Global,
    builder: &Builder<'data>,
    edits: &[ElfEdit],
) -> std::result::Result<Draft<'data>, AllocError>
    requires { first_refusal_of (facts_of builder.now) 0 (edits_model edits.now) ≡ none }
    ensures { IfOk result (OnlyShows builder.now (all_edited (edits_model edits.now) builder.now)) }
{
    let builder = known_image(builder);
    let mut draft = Draft::new();
    for edit in edits {
        draft.write(alloc, builder, edit)?;
    }
    Ok(draft)
}

// The first edit that is refused, and why.
fn first_refusal<'e>(
    alloc: Global,
    edits: &'e [ElfEdit],
    facts: &Facts<'_>,
) -> std::result::Result<Option<(usize, Cause<'e>)>, AllocError>
    ensures { IfOk result (λ found. option_map refusal_model found
        ≡ first_refusal_of (facts_model facts.now) 0 (edits_model edits.now)) }
{
    for (index, edit) in edits.iter().enumerate() {
        let found = cause_of(alloc, edit, facts)?;
        if let Some(cause) = found {
            return Ok(Some((index, cause)));
        }
    }
    Ok(None)
}

/// A batch of edits: all of them, or none. An empty batch is accepted without memory. The error tells the edit that was
/// refused, counted from 0.
pub fn apply(
    builder: &mut Builder<'_>,
    alloc: Global,
    edits: &[ElfEdit],
) -> std::result::Result<(), ElfBatchError>
    ensures takes { TakesBatch (edits_model edits.now) builder.old builder.new result }
    ensures none { edits.now ≡ [] → IsOk result }
{
    if edits.is_empty() {
        return Ok(());
    }
    let refusal = first_refusal(alloc, edits, &image_facts(builder))?;
    if let Some((index, cause)) = refusal {
        let fault = cause_error(alloc, cause);
        return Err(ElfBatchError { index, fault });
    }
    let draft = draft_of(alloc, builder, edits)?;
    draft.put_in_place(alloc, builder)?;
    Ok(())
}

/// One edit: a batch of one. Errors: `Modify` with the cause that stands against it, `Memory`; the image is then as it
/// was.
pub fn edit(builder: &mut Builder<'_>, alloc: Global, edit: &ElfEdit) -> Result<()>
    ensures { TakesEdit (edit_model edit.now) builder.old builder.new result }
{
    match apply(builder, alloc, slice::from_ref(edit)) {
        Ok(()) => Ok(()),
        Err(refused) => Err(refused.fault),
    }
}

// The entries of the dynamic list, none without one.
fn entries<'s, 'data>(builder: &'s Builder<'data>) -> &'s [Dynamic<'data>]
    ensures { map entry_model result.now ≡ unwrap_or builder.now.entries [] }
{
    builder.dynamic_data().unwrap_or_default()
}

// Gives every entry with the one tag the other, where there is one.
fn retag(builder: &mut Builder<'_>, old: u64, new: u64)
    requires { IsTrue (can_follow new old) }
    ensures { builder.new ≡ with_retagged old new builder.old }
{
    if any_with_tag(entries(builder), old) {
        builder.retag_all(old, new);
    }
}

// Drops every entry with a tag, which is of no table, where there is one.
fn drop_tag(builder: &mut Builder<'_>, tag: u64)
    requires { IsTrue (is_free_tag tag) }
    ensures { builder.new ≡ with_tag_dropped tag builder.old }
{
    if any_with_tag(entries(builder), tag) {
        builder.delete_dynamic_tag(tag);
    }
}

// Drops every entry with one of some tags, which are of no table.
fn drop_tags(builder: &mut Builder<'_>, tags: &[u64])
    requires { AllPass is_free_tag tags.now }
    ensures { builder.new ≡ with_tags_dropped tags.now builder.old }
{
    for tag in tags {
        drop_tag(builder, *tag);
    }
}

// Why the dynamic list can't be edited, whatever the edit writes.
fn list_cause(edit: &ElfEdit, facts: &Facts<'_>) -> Option<ModifyCause>
    requires { IsSome (task_of (edit_model edit.now)) }
    ensures { option_map cause_told result
        ≡ option_map some (first_there (cause_if (facts.now.machine == MIPS) mips_image)
        (list_missing (task_of (edit_model edit.now)) (facts_model facts.now))) }
{
    match edit.task() {
        Some(task) => list_refusal(facts, task),
        None => None,
    }
}

/// Makes an edit that drops entries by their tags. Takes no memory. Errors: `Modify`.
pub fn drop_tagged(builder: &mut Builder<'_>, edit: &ElfEdit) -> Result<()>
    requires { IsTrue (has_some (dropped_tags (edit_model edit.now))) }
    ensures { TakesInPlace (edit_model edit.now) builder.old builder.new result }
{
    if let Some(cause) = list_cause(edit, &image_facts(builder)) {
        return Err(ElfError::Modify(cause));
    }
    drop_tags(builder, edit.dropped_tags());
    Ok(())
}

/// Makes every `DT_RPATH` a `DT_RUNPATH`. Takes no memory. Errors: `Modify`.
pub fn use_runpath(builder: &mut Builder<'_>) -> Result<()>
    ensures { TakesInPlace ForceRunpath builder.old builder.new result }
{
    if let Some(cause) = list_refusal(&image_facts(builder), Task::ForceRunpath) {
        return Err(ElfError::Modify(cause));
    }
    retag(builder, DT_RPATH, DT_RUNPATH);
    Ok(())
}

/// Makes every `DT_RUNPATH` a `DT_RPATH`. Takes no memory. Errors: `Modify`.
pub fn use_rpath(builder: &mut Builder<'_>) -> Result<()>
    ensures { TakesInPlace ForceRpath builder.old builder.new result }
{
    if let Some(cause) = list_refusal(&image_facts(builder), Task::ForceRpath) {
        return Err(ElfError::Modify(cause));
    }
    retag(builder, DT_RUNPATH, DT_RPATH);
    Ok(())
}

/// Sets the page size, in bytes: the alignment of each `PT_LOAD` (gABI, Program Header, `p_align`). Takes no memory.
/// Errors: `Modify`.
pub fn set_page_size(builder: &mut Builder<'_>, size: u32) -> Result<()>
    ensures { TakesInPlace (SetPageSize size) builder.old builder.new result }
{
    if let Some(cause) = page_size_refusal(&image_facts(builder), size) {
        return Err(ElfError::Modify(cause));
    }
    builder.set_load_align(size);
    Ok(())
}

// The list with run paths that shrink, where no cause stands against it.
fn shrink_image_list<'data>(
    alloc: Global,
    builder: &Builder<'data>,
    prefixes: &[Vec<u8>],
    probe: &[ProbeAnswer<'_>],
) -> std::result::Result<ShrunkList<'data>, AllocError>
    ensures { IfOk result (IsShrunkOf (shrink_model prefixes.now probe.now) builder.now) }
{
    let machine = builder.header().e_machine;
    shrink_list(alloc, machine, prefixes, probe, entries(builder))
}

/// Shrinks the run paths, and answers the directories that went. Errors: `Modify`, `Memory`; the image is then as
/// it was.
pub fn shrink_run_paths(
    builder: &mut Builder<'_>,
    alloc: Global,
    prefixes: &[Vec<u8>],
    probe: &[ProbeAnswer<'_>],
) -> Result<Vec<Removed>>
    ensures takes { TakesEdit (shrink_model prefixes.now probe.now) builder.old builder.new result }
    ensures removed { IfOk result (RemovedAre (shrink_model prefixes.now probe.now) builder.old) }
{
    if let Some(cause) = shrink_cause(prefixes, &image_facts(builder)) {
        return Err(cause_error(alloc, cause));
    }
    let made = shrink_image_list(alloc, known_image(builder), prefixes, probe)?;
    let ShrunkList { entries, removed } = made;
    if !removed.is_empty() {
        builder.set_dynamic(entries);
    }
    Ok(removed)
}
