ghost use Rattle.elf_format.specs.Dynamic.{entries_at};
ghost use Rattle.elf_format.specs.Answers.{Gives};
ghost use Rattle.test_elf_plain.specs.PlainViews.{source_model};

use crate::source::{Source, read_bytes};
use elf_format::form::Form;
use elf_format::numbers::read_entry_numbers;
use elf_format::records::EntryNumbers;
use elf_format::view_fault::ViewFault;
use std::alloc::Global;

// The dynamic entries before the first DT_NULL, which is one of the first `room` entries.
pub(crate) fn entries_from(
    alloc: Global,
    form: Form,
    room: usize,
    source: &Source<'_>,
) -> Result<Vec<EntryNumbers>, ViewFault>
    ensures { Gives (λ v. v.items) result (entries_at room form (source_model source.now) 0) }
{
    let size = form.entry_size() as u128;
    let mut made = Vec::new(alloc);
    let mut place = 0;
    for _ in 0..room {
        let record = read_bytes(alloc, source, place, size)?;
        let entry = read_entry_numbers(form, &record);
        if entry.d_tag == 0 {
            return Ok(made);
        }
        made.push(entry)?;
        place += size;
    }
    Err(ViewFault::Absent)
}
