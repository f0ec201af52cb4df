ghost use Rattle.elf_format.specs.Versions.{need_at, need_name_at};

use crate::absence::allow_absent;
use crate::chain::{ChainRecord, Linked, walk};
use elf_format::form::Form;
use elf_format::numbers::{half_at, word_at};
use elf_format::records::NeedNameNumbers;
use elf_format::tables::range;
use elf_format::versions::RawNeeds;
use std::alloc::{AllocError, Global};

// A needed version (Elfxx_Vernaux).
impl ChainRecord for NeedNameNumbers {
    ghost step_at = { need_name_at };

    fn read(
        _alloc: Global,
        form: Form,
        bytes: &[u8],
        place: u64,
    ) -> Result<Option<Linked<NeedNameNumbers>>, AllocError> {
        let Some(record) = allow_absent(range(bytes, place, 16))? else {
            return Ok(None);
        };
        let value = NeedNameNumbers {
            index: half_at(form, record, 6),
            name: word_at(form, record, 8),
            flags: half_at(form, record, 4),
        };
        Ok(Some(Linked {
            value,
            is_whole: true,
            next: word_at(form, record, 12),
        }))
    }
}

// The versions needed of one library (Elfxx_Verneed).
impl ChainRecord for RawNeeds {
    ghost step_at = { need_at };

    fn read(
        alloc: Global,
        form: Form,
        bytes: &[u8],
        place: u64,
    ) -> Result<Option<Linked<RawNeeds>>, AllocError> {
        // a length is so small that the place of the versions doesn't overflow
        let _length = bytes.len();
        let Some(record) = allow_absent(range(bytes, place, 16))? else {
            return Ok(None);
        };
        let count = half_at(form, record, 2) as u64;
        let start = place + word_at(form, record, 8) as u64;
        let versions = walk::<NeedNameNumbers>(alloc, form, bytes, count, start)?;
        let is_whole = versions.is_whole;
        let value = RawNeeds {
            file: word_at(form, record, 4),
            versions: versions.values,
        };
        let next = word_at(form, record, 12);
        Ok(Some(Linked {
            value,
            is_whole,
            next,
        }))
    }
}
