ghost use Rattle.std.specs.Prelude.{◌≡◌, IfErr, option_map};
ghost use Rattle.elf_format.specs.declared.constants.TheConstants.{PT_DYNAMIC as DYNAMIC_SEGMENT};
ghost use Rattle.elf_format.specs.declared.view_fault.ViewFault.TheVariants.{Absent};
ghost use Rattle.elf_format.specs.File.{segment_of_type as first_segment};
ghost use Rattle.elf_format.specs.Answers.{Gives, borrowed};
ghost use Rattle.test_elf_plain.specs.PlainViews.{holds_symbol_size, loaded_by_dynamic, loaded_interpreter_of, outline_model, view_model};
ghost use Rattle.elf_format.specs.Views.{loader_view as shown_to_loader};

use crate::by_tables::{bare_view, show_tables, stack_flags};
use crate::by_tags::tables_by_tags;
use crate::entries::entries_from;
use crate::source::{Loaded, Source};
use crate::view::{Outline, ShownView};
use elf_format::constants::{DT_SYMENT, PT_DYNAMIC, PT_INTERP};
use elf_format::form::Form;
use elf_format::lookups::{segment_of_type, value_of_tag};
use elf_format::opening::{file_part, open, segments};
use elf_format::records::{EntryNumbers, SegmentHeader};
use elf_format::view_fault::ViewFault;
use std::alloc::Global;

// The bytes of the interpreter's segment, where there is one.
fn loaded_interpreter<'a>(
    file: &'a [u8],
    segments: &[SegmentHeader],
) -> Result<Option<&'a [u8]>, ViewFault>
    ensures shown { Gives (option_map borrowed) result
        (loaded_interpreter_of file.now segments.now) }
    ensures absent { IfErr result (λ fault. fault ≡ Absent) }
{
    let Some(segment) = segment_of_type(segments, PT_INTERP) else {
        return Ok(None);
    };
    let bytes = file_part(file, segment.p_offset, segment.p_filesz)?;
    Ok(Some(bytes))
}

// Whether the size of a symbol is the one that DT_SYMENT holds, where that is there.
fn is_symbol_size(form: Form, raw: &[EntryNumbers]) -> bool
    ensures { result ≡ holds_symbol_size form raw.now }
{
    match value_of_tag(raw, DT_SYMENT) {
        None => true,
        Some(size) => size == form.symbol_size() as u64,
    }
}

// The loader's view by the dynamic segment, or without one.
fn show_loaded<'a>(
    alloc: Global,
    form: Form,
    file: &'a [u8],
    outline: Outline<'a>,
    segments: &[SegmentHeader],
    symbol_count: u64,
) -> Result<ShownView<'a>, ViewFault>
    ensures { Gives view_model result (loaded_by_dynamic form file.now (outline_model outline.entry)
        segments.now symbol_count (first_segment DYNAMIC_SEGMENT segments.now)) }
{
    let Some(list) = segment_of_type(segments, PT_DYNAMIC) else {
        return Ok(bare_view(outline));
    };
    let source = Source::Segments(Loaded {
        file,
        segments,
        start: Some(list.p_vaddr),
        size: None,
    });
    let raw = entries_from(alloc, form, file.len(), &source)?;
    if !is_symbol_size(form, &raw) {
        return Err(ViewFault::Absent);
    }
    let tables = tables_by_tags(file, segments, symbol_count, &raw);
    show_tables(alloc, form, file.len(), outline, &raw, &tables)
}

/// What a loader sees of a file, accepted or not: by its program headers and its dynamic list alone, with
/// `symbol_count` dynamic symbols, which these don't tell (gABI, Program Loading and Dynamic Linking).
/// `Absent` where it sees nothing, `Memory` where there isn't enough memory.
pub fn loader_view(
    alloc: Global,
    file: &[u8],
    symbol_count: u64,
) -> Result<ShownView<'_>, ViewFault>
    ensures { Gives view_model result (shown_to_loader file.now symbol_count) }
{
    let (form, header) = open(file)?;
    let segments = segments(alloc, file, form, header)?;
    let outline = Outline {
        os_abi: header.os_abi,
        stack_flags: stack_flags(&segments),
        interpreter: loaded_interpreter(file, &segments)?,
    };
    show_loaded(alloc, form, file, outline, &segments, symbol_count)
}
