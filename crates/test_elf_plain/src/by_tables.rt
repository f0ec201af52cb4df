ghost use Rattle.std.specs.Prelude.{◌≡◌, option_map};
ghost use Rattle.elf_format.specs.Answers.{Gives};
ghost use Rattle.elf_format.specs.Seen.{flags_of_stack};
ghost use Rattle.test_elf_plain.specs.PlainViews.{definitions_when_wanted, needs_when_wanted, symbols_when_wanted};
ghost use Rattle.test_elf_plain.specs.PlainViews.{definitions_model, libraries_model, symbols_model};
ghost use Rattle.test_elf_plain.specs.PlainViews.{outline_model, table_source_model, tables_model, view_model};
ghost use Rattle.elf_format.specs.Views.{defined_versions, needed_versions, view_of};

use crate::chains::read_chain;
use crate::names::show_each;
use crate::source::{TableSource, TableSources};
use crate::symbols::show_symbols;
use crate::view::{EntryView, Outline, ShownDefinition, ShownNeeds, ShownSymbol, ShownView};
use elf_format::constants::{
    DT_SYMTAB, DT_VERDEF, DT_VERDEFNUM, DT_VERNEED, DT_VERNEEDNUM, DT_VERSYM, PT_GNU_STACK,
};
use elf_format::form::Form;
use elf_format::lookups::{has_tag, segment_of_type};
use elf_format::records::{EntryNumbers, SegmentHeader};
use elf_format::versions::{RawDefinition, RawNeeds};
use elf_format::view_fault::ViewFault;
use std::alloc::Global;

// The flags of the first PT_GNU_STACK.
pub(crate) fn stack_flags(segments: &[SegmentHeader]) -> Option<u32>
    ensures { result ≡ flags_of_stack segments.now }
{
    let segment = segment_of_type(segments, PT_GNU_STACK)?;
    Some(segment.p_flags)
}

// The view of a file without a dynamic list.
pub(crate) fn bare_view(outline: Outline<'_>) -> ShownView<'_>
    ensures { view_model result ≡ outline_model outline.entry }
{
    ShownView {
        os_abi: outline.os_abi,
        stack_flags: outline.stack_flags,
        interpreter: outline.interpreter,
        entries: None,
        symbols: None,
        definitions: None,
        needs: None,
    }
}

// The defined versions of a table.
#[tactic(auto, unfolding(elf_format::specs::Views::defined_versions))]
fn definitions_of(
    alloc: Global,
    form: Form,
    room: usize,
    table: &TableSource<'_>,
) -> Result<Vec<ShownDefinition>, ViewFault>
    ensures { Gives definitions_model result
        (defined_versions form room (table_source_model table.now)) }
{
    let raw = read_chain::<RawDefinition>(alloc, form, &table.bytes, table.count, 0)?;
    show_each::<ShownDefinition>(alloc, room, &table.texts, &raw)
}

// The needed versions of a table.
#[tactic(auto, unfolding(elf_format::specs::Views::needed_versions))]
fn needs_of(
    alloc: Global,
    form: Form,
    room: usize,
    table: &TableSource<'_>,
) -> Result<Vec<ShownNeeds>, ViewFault>
    ensures { Gives libraries_model result
        (needed_versions form room (table_source_model table.now)) }
{
    let raw = read_chain::<RawNeeds>(alloc, form, &table.bytes, table.count, 0)?;
    show_each::<ShownNeeds>(alloc, room, &table.texts, &raw)
}

// The dynamic symbols, where the list names their table.
fn asked_symbols(
    alloc: Global,
    form: Form,
    room: usize,
    raw: &[EntryNumbers],
    tables: &TableSources<'_>,
) -> Result<Option<Vec<ShownSymbol>>, ViewFault>
    ensures { Gives (option_map symbols_model) result
        (symbols_when_wanted form room raw.now (tables_model tables.now)) }
{
    if !has_tag(raw, DT_SYMTAB) {
        return Ok(None);
    }
    let with_versions = has_tag(raw, DT_VERSYM);
    let shown = show_symbols(
        alloc,
        form,
        room,
        with_versions,
        &tables.symbols,
        &tables.versions,
    )?;
    Ok(Some(shown))
}

// The defined versions, where the list names and counts them.
fn asked_definitions(
    alloc: Global,
    form: Form,
    room: usize,
    raw: &[EntryNumbers],
    table: &TableSource<'_>,
) -> Result<Option<Vec<ShownDefinition>>, ViewFault>
    ensures { Gives (option_map definitions_model) result
        (definitions_when_wanted form room raw.now (table_source_model table.now)) }
{
    let named = has_tag(raw, DT_VERDEF);
    let counted = has_tag(raw, DT_VERDEFNUM);
    if !(named && counted) {
        return Ok(None);
    }
    let shown = definitions_of(alloc, form, room, table)?;
    Ok(Some(shown))
}

// The needed versions, where the list names and counts them.
fn asked_needs(
    alloc: Global,
    form: Form,
    room: usize,
    raw: &[EntryNumbers],
    table: &TableSource<'_>,
) -> Result<Option<Vec<ShownNeeds>>, ViewFault>
    ensures { Gives (option_map libraries_model) result
        (needs_when_wanted form room raw.now (table_source_model table.now)) }
{
    let named = has_tag(raw, DT_VERNEED);
    let counted = has_tag(raw, DT_VERNEEDNUM);
    if !(named && counted) {
        return Ok(None);
    }
    let shown = needs_of(alloc, form, room, table)?;
    Ok(Some(shown))
}

// The view by its dynamic entries and the tables that they name.
pub(crate) fn show_tables<'a>(
    alloc: Global,
    form: Form,
    room: usize,
    outline: Outline<'a>,
    raw: &[EntryNumbers],
    tables: &TableSources<'_>,
) -> Result<ShownView<'a>, ViewFault>
    ensures { Gives view_model result
        (view_of form room (outline_model outline.entry) raw.now (tables_model tables.now)) }
{
    let entries = show_each::<EntryView>(alloc, room, &tables.entry_texts, raw)?;
    let symbols = asked_symbols(alloc, form, room, raw, tables)?;
    let definitions = asked_definitions(alloc, form, room, raw, &tables.definitions)?;
    let needs = asked_needs(alloc, form, room, raw, &tables.needs)?;
    Ok(ShownView {
        os_abi: outline.os_abi,
        stack_flags: outline.stack_flags,
        interpreter: outline.interpreter,
        entries: Some(entries),
        symbols,
        definitions,
        needs,
    })
}
