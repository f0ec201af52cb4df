//! The dynamic entries, and the rules on the dynamic section, the interpreter and the tables that the
//! dynamic list names.

pub(crate) mod tables;

ghost use Rattle.std.specs.Prelude.{◌≡◌, ◌≢◌, IfErr, IfOk, is_some};
ghost use Rattle.elf_format.specs.Memory.{memory_of};
ghost use Rattle.elf_format.specs.declared.fault.ElfFault.TheVariants.{Memory};
ghost use Rattle.elf_format.specs.Dynamic.{entries_at};
ghost use Rattle.elf_format.specs.Stages.{link_rules};
ghost use Rattle.elf_image_rules.specs.Read.{Passes, parts_model};
ghost use Rattle.elf_format.specs.Rules.{are_tables_linked, checked, dynamic_section_agrees as section_agrees, is_dynamic_section_right as dynamic_section_right, is_interpreter_right as interpreter_right, raw_entries as entries_of};

use crate::dynamic::tables::are_dynamic_tables_right;
use crate::headers::Headers;
use elf_format::constants::{PT_DYNAMIC, PT_INTERP, SHT_DYNAMIC};
use elf_format::fault::ElfFault;
use elf_format::form::Form;
use elf_format::lookups::{
    bytes_of, interpreter_section, section_bytes, section_of_type, segment_of_type,
};
use elf_format::numbers::{part, read_entry_numbers};
use elf_format::records::{EntryNumbers, SectionHeader, SegmentHeader};
use elf_format::tables::read_entries;
use elf_format::view_fault::ViewFault;
use std::alloc::{AllocError, Global};

/// The dynamic entries before `DT_NULL`, or none where no dynamic section has a `DT_NULL` (gABI, Dynamic Section).
pub fn raw_entries(alloc: Global, parts: &Headers<'_>) -> Result<Vec<EntryNumbers>, AllocError>
    ensures { IfOk result (λ v. v.items ≡ entries_of (parts_model parts.now)) }
{
    let list = bytes_of(parts.file, section_of_type(&parts.sections, SHT_DYNAMIC));
    match read_entries(alloc, parts.form, parts.file.len(), list) {
        Ok(raw) => Ok(raw),
        Err(ViewFault::Absent) => Ok(Vec::new(alloc)),
        Err(ViewFault::Memory) => Err(AllocError),
    }
}

// Whether a DT_NULL lies whole in the bytes, as one of the first `room` entries.
fn has_end(form: Form, room: usize, bytes: &[u8]) -> bool
    ensures { result ≡ is_some (entries_at room form (memory_of bytes.now) 0) }
{
    let size = form.entry_size();
    let mut rest = bytes;
    for _ in 0..room {
        if rest.len() < size {
            return false;
        }
        let (first, after) = rest.split_at(size);
        let entry = read_entry_numbers(form, first);
        if entry.d_tag == 0 {
            return true;
        }
        rest = after;
    }
    false
}

// Whether PT_DYNAMIC and the dynamic section stand at one place, and DT_NULL lies in both.
fn dynamic_section_agrees(parts: &Headers<'_>, segment: SegmentHeader, list: SectionHeader) -> bool
    ensures { result ≡ section_agrees (parts_model parts.now) segment list }
{
    let bytes = part(
        section_bytes(parts.file, list),
        0,
        segment.p_filesz as usize,
    );
    segment.p_offset == list.sh_offset
        && segment.p_vaddr == list.sh_addr
        && list.is_allocated()
        && has_end(parts.form, parts.file.len(), bytes)
}

// Whether PT_DYNAMIC and the dynamic section are both there and agree, or neither is there.
pub(crate) fn is_dynamic_section_right(parts: &Headers<'_>) -> bool
    ensures { result ≡ dynamic_section_right (parts_model parts.now) }
{
    let segment = segment_of_type(&parts.segments, PT_DYNAMIC);
    let list = section_of_type(&parts.sections, SHT_DYNAMIC);
    match (segment, list) {
        (None, None) => true,
        (Some(segment), Some(list)) => dynamic_section_agrees(parts, segment, list),
        _ => false,
    }
}

// Whether PT_INTERP, where it is there, stands where a section of PROGBITS does.
pub(crate) fn is_interpreter_right(parts: &Headers<'_>) -> bool
    ensures { result ≡ interpreter_right (parts_model parts.now) }
{
    match segment_of_type(&parts.segments, PT_INTERP) {
        None => true,
        Some(segment) => interpreter_section(segment, &parts.sections).is_some(),
    }
}

/// The fault of the first rule that fails, of those on links, the dynamic section, the interpreter and the
/// tables that the list names.
#[tactic(auto, unfolding(elf_format::specs::Rules::checked))]
pub fn check_links(linked: bool, parts: &Headers<'_>, raw: &[EntryNumbers]) -> Result<(), ElfFault>
    requires linked { linked ≡ are_tables_linked (parts_model parts.now) }
    requires raw { raw.now ≡ entries_of (parts_model parts.now) }
    ensures passes { Passes (parts_model parts.now) result
        (checked link_rules (parts_model parts.now)) }
    ensures why { IfErr result (λ fault. fault ≢ Memory) }
{
    if !linked {
        return Err(ElfFault::Disagree(6));
    }
    if !is_dynamic_section_right(parts) {
        return Err(ElfFault::Disagree(7));
    }
    if !is_interpreter_right(parts) {
        return Err(ElfFault::Disagree(8));
    }
    if !are_dynamic_tables_right(parts, raw) {
        return Err(ElfFault::Disagree(9));
    }
    Ok(())
}
