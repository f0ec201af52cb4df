ghost use Rattle.std.specs.Prelude.{◌≡◌, ◌+◌, ◌*◌, ◌≤◌, ◌<◌, length, Some, IfErr, IfOk};
ghost use Rattle.patch_bytes.specs.Memory.{bytes_at, memory_of};
ghost use Rattle.elf_format.specs.Dynamic.{entries_at};
ghost use Rattle.elf_format.specs.Form.{records};
ghost use Rattle.elf_format.specs.Answers.{Gives, borrowed};
ghost use Rattle.elf_format.specs.declared.view_fault.ViewFault.TheVariants.{Absent};
ghost use Rattle.elf_format.specs.Records.{entry_size, section_header, segment_header, symbol_numbers};
ghost use Rattle.elf_format.specs.Versions.{version_id};

use crate::form::Form;
use crate::numbers::{
    read_entry_numbers, read_section_header, read_segment_header, read_symbol_numbers,
    read_version_id,
};
use crate::records::{EntryNumbers, SectionHeader, SegmentHeader, SymbolNumbers};
use crate::version_id::VersionId;
use crate::view_fault::ViewFault;
use std::alloc::{AllocError, Global};

/// The bytes of a range, where they are all there; else `Absent`. An empty range is there.
pub fn range(bytes: &[u8], place: u64, size: u64) -> Result<&[u8], ViewFault>
    ensures shown { Gives borrowed result (bytes_at size (memory_of bytes.now) place) }
    ensures absent { IfErr result (λ fault. fault ≡ Absent) }
{
    let length = bytes.len() as u64;
    if size == 0 {
        return Ok(&[]);
    }
    if place > length || size > length - place {
        return Err(ViewFault::Absent);
    }
    Ok(&bytes[place as usize..(place + size) as usize])
}

/// A record of a table whose records have one size.
pub trait Record: Drop {
    ghost use Rattle.std.specs.Prelude.{ℕ, List};
    ghost use Rattle.elf_format.specs.declared.form.Form.{Form};

    ghost decode: { Form → List ℕ → Self };

    /// What the bytes of the record show.
    fn read(form: Form, bytes: &[u8]) -> Self
        ensures { result ≡ decode form bytes.now };
}

impl Record for SegmentHeader {
    ghost decode = { segment_header };

    fn read(form: Form, bytes: &[u8]) -> Self {
        read_segment_header(form, bytes)
    }
}

impl Record for SectionHeader {
    ghost decode = { section_header };

    fn read(form: Form, bytes: &[u8]) -> Self {
        read_section_header(form, bytes)
    }
}

impl Record for SymbolNumbers {
    ghost decode = { symbol_numbers };

    fn read(form: Form, bytes: &[u8]) -> Self {
        read_symbol_numbers(form, bytes)
    }
}

impl Record for Option<VersionId> {
    ghost decode = { λ form bytes. Some (version_id form bytes) };

    fn read(form: Form, bytes: &[u8]) -> Self {
        Some(read_version_id(form, bytes))
    }
}

/// The records of a table, which have one size and stand end to end: program headers (gABI, Program Header), section
/// headers (gABI, Sections), symbols (gABI, Symbol Table) or versions of symbols (GNU symbol versioning,
/// `.gnu.version`).
pub fn read_records<R: Record>(
    alloc: Global,
    form: Form,
    size: usize,
    count: usize,
    bytes: &[u8],
) -> Result<Vec<R>, AllocError>
    requires { count * size ≤ length bytes.now }
    ensures { IfOk result (λ v. v.items ≡ records (R.decode form) size count bytes.now) }
{
    let mut made = Vec::new(alloc);
    let mut rest = bytes;
    for _ in 0..count {
        let (record, after) = rest.split_at(size);
        made.push(R::read(form, record))?;
        rest = after;
    }
    Ok(made)
}

/// The dynamic entries before the first `DT_NULL`, which is one of the first `room` entries (gABI, Dynamic
/// Section); `Absent` without it, `Memory` where there isn't enough memory.
pub fn read_entries(
    alloc: Global,
    form: Form,
    room: usize,
    bytes: &[u8],
) -> Result<Vec<EntryNumbers>, ViewFault>
    ensures { Gives (λ v. v.items) result (entries_at room form (memory_of bytes.now) 0) }
{
    let size = form.entry_size();
    let mut made = Vec::new(alloc);
    let mut rest = bytes;
    for _ in 0..room {
        if rest.len() < size {
            return Err(ViewFault::Absent);
        }
        let (first, after) = rest.split_at(size);
        let entry = read_entry_numbers(form, first);
        if entry.d_tag == 0 {
            return Ok(made);
        }
        made.push(entry)?;
        rest = after;
    }
    Err(ViewFault::Absent)
}
