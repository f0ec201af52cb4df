ghost use Rattle.elf_format.specs.Versions.{definition_at, definition_name_at};

use crate::absence::allow_absent;
use crate::chain::{ChainRecord, Linked, walk};
use elf_format::form::Form;
use elf_format::numbers::{half_at, word_at};
use elf_format::tables::range;
use elf_format::versions::RawDefinition;
use std::alloc::{AllocError, Global};

// A name of a defined version (Elfxx_Verdaux), by the offset of its text.
impl ChainRecord for u32 {
    ghost step_at = { definition_name_at };

    fn read(
        _alloc: Global,
        form: Form,
        bytes: &[u8],
        place: u64,
    ) -> Result<Option<Linked<u32>>, AllocError> {
        let Some(record) = allow_absent(range(bytes, place, 8))? else {
            return Ok(None);
        };
        Ok(Some(Linked {
            value: word_at(form, record, 0),
            is_whole: true,
            next: word_at(form, record, 4),
        }))
    }
}

// A defined version (Elfxx_Verdef).
impl ChainRecord for RawDefinition {
    ghost step_at = { definition_at };

    fn read(
        alloc: Global,
        form: Form,
        bytes: &[u8],
        place: u64,
    ) -> Result<Option<Linked<RawDefinition>>, AllocError> {
        // a length is so small that the place of the names doesn't overflow
        let _length = bytes.len();
        let Some(record) = allow_absent(range(bytes, place, 20))? else {
            return Ok(None);
        };
        let count = half_at(form, record, 6) as u64;
        let start = place + word_at(form, record, 12) as u64;
        let names = walk::<u32>(alloc, form, bytes, count, start)?;
        let is_whole = names.is_whole;
        let value = RawDefinition {
            index: half_at(form, record, 4),
            flags: half_at(form, record, 2),
            names: names.values,
        };
        let next = word_at(form, record, 16);
        Ok(Some(Linked {
            value,
            is_whole,
            next,
        }))
    }
}
