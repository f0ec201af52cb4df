ghost use Rattle.std.specs.Prelude.{◌≡◌, ◌++◌, map, OnOk};
ghost use Rattle.patch_bytes.specs.Number.{bytes_of};
ghost use Rattle.elf_tables.specs.Fields.{field_model, fields};

use crate::numbers::{half_bytes, long_bytes, word_bytes};
use patch_bytes::ByteOrder2;
use std::alloc::AllocError;

/// A number as a record has it, by how many bytes it takes.
#[derive(Clone, Copy, Debug)]
pub enum Field {
    /// One byte.
    Byte(u8),
    /// Two bytes.
    Half(u16),
    /// Four bytes.
    Word(u32),
    /// Eight bytes.
    Long(u64),
}

// Appends a number.
fn push_field(bytes: &mut Vec<u8>, order: ByteOrder2, field: Field) -> Result<(), AllocError>
    ensures { OnOk result (bytes.new.items
        ≡ bytes.old.items ++ bytes_of order (field_model field).0 (field_model field).1) }
{
    match field {
        Field::Byte(number) => Ok(bytes.push(number)?),
        Field::Half(number) => bytes.extend_from_slice(&half_bytes(order, number)),
        Field::Word(number) => bytes.extend_from_slice(&word_bytes(order, number)),
        Field::Long(number) => bytes.extend_from_slice(&long_bytes(order, number)),
    }
}

/// Appends numbers, each in the byte order of the file (gABI, ELF Identification, `EI_DATA`). Where memory is refused some of
/// them may be there already.
pub fn push_fields(
    bytes: &mut Vec<u8>,
    order: ByteOrder2,
    numbers: &[Field],
) -> Result<(), AllocError>
    ensures { OnOk result (bytes.new.items
        ≡ bytes.old.items ++ fields order (map field_model numbers.now)) }
{
    for field in numbers {
        push_field(bytes, order, *field)?;
    }
    Ok(())
}
