ghost use Rattle.std.specs.Prelude.{◌≡◌, ◌≤◌, IfOk, IfSome, length, option_map};
ghost use Rattle.patch_bytes.specs.Memory.{memory_of};
ghost use Rattle.elf_image_versions.specs.WalkSteps.{IsWalk, step_of};

use crate::walks::Walk;
use elf_format::form::Form;
use std::alloc::{AllocError, Global};

// A record of a chain, whether all that belongs to it is there, and how far behind the next one stands.
#[derive(Drop)]
pub(crate) struct Linked<T> {
    pub(crate) value: T,
    pub(crate) is_whole: bool,
    pub(crate) next: u32,
}

// What stands in a chain of records, each of which tells how far behind the next one stands (GNU symbol versioning).
pub(crate) trait ChainRecord: Drop {
    ghost use Rattle.std.specs.Prelude.{ℕ, Option};
    ghost use Rattle.patch_bytes.specs.Memory.{Memory};
    ghost use Rattle.elf_format.specs.declared.form.Form.{Form};
    ghost use Rattle.elf_format.specs.Versions.{Step};

    ghost step_at: { Form → Memory → ℕ → Option (Step Self) };

    // The record at a place with what belongs to it, as far as that can be walked; `None` where it isn't there.
    fn read(
        alloc: Global,
        form: Form,
        bytes: &[u8],
        place: u64,
    ) -> Result<Option<Linked<Self>>, AllocError>
        ensures step { IfOk result (λ o.
            option_map step_of o ≡ step_at form (memory_of bytes.now) place) }
        ensures within { IfOk result (λ o. IfSome o (λ _. place ≤ length bytes.now)) };
}

// The records of a chain, the first at `start`, as far as they can be walked.
pub(crate) fn walk<R: ChainRecord>(
    alloc: Global,
    form: Form,
    bytes: &[u8],
    count: u64,
    start: u64,
) -> Result<Walk<R>, AllocError>
    ensures { IfOk result (λ w. IsWalk (R.step_at form (memory_of bytes.now)) count start
        w.values.items w.is_whole) }
{
    // a length is so small that no place behind a record overflows
    let _length = bytes.len();
    let mut values = Vec::new(alloc);
    let mut place = start;
    for i in 0..count {
        let Some(record) = R::read(alloc, form, bytes, place)? else {
            return Ok(Walk {
                values,
                is_whole: false,
            });
        };
        let is_whole = record.is_whole;
        let next = record.next as u64;
        values.push(record.value)?;
        if !is_whole {
            return Ok(Walk {
                values,
                is_whole: false,
            });
        }
        if next == 0 && i + 1 < count {
            return Ok(Walk {
                values,
                is_whole: false,
            });
        }
        place += next;
    }
    Ok(Walk {
        values,
        is_whole: true,
    })
}
