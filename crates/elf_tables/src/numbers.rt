ghost use Rattle.std.specs.Prelude.{◌≡◌, ◌<◌, ◌++◌, map, OnOk};
ghost use Rattle.patch_bytes.specs.Number.{bytes_of};
ghost use Rattle.elf_tables.specs.Fields.{fields, halves, words};

use patch_bytes::ByteOrder2;
use std::alloc::AllocError;

// The bytes of a number of two bytes. It is turned as a whole, which takes one instruction, and not byte by byte.
pub(crate) fn half_bytes(order: ByteOrder2, number: u16) -> [u8; 2]
    ensures { result ≡ bytes_of order 2 number }
{
    let turned = match order {
        ByteOrder2::Little => number.swap_bytes(),
        ByteOrder2::Big => number,
    };
    turned.to_be_bytes()
}

// The bytes of a number of four bytes.
pub(crate) fn word_bytes(order: ByteOrder2, number: u32) -> [u8; 4]
    ensures { result ≡ bytes_of order 4 number }
{
    let turned = match order {
        ByteOrder2::Little => number.swap_bytes(),
        ByteOrder2::Big => number,
    };
    turned.to_be_bytes()
}

// The bytes of a number of eight bytes.
pub(crate) fn long_bytes(order: ByteOrder2, number: u64) -> [u8; 8]
    ensures { result ≡ bytes_of order 8 number }
{
    let turned = match order {
        ByteOrder2::Little => number.swap_bytes(),
        ByteOrder2::Big => number,
    };
    turned.to_be_bytes()
}

/// Appends numbers of two bytes. Where memory is refused some of them may be there already.
pub fn push_halves(
    bytes: &mut Vec<u8>,
    order: ByteOrder2,
    numbers: &[u16],
) -> Result<(), AllocError>
    ensures { OnOk result (bytes.new.items ≡ bytes.old.items ++ fields order (halves numbers.now)) }
{
    for number in numbers {
        bytes.extend_from_slice(&half_bytes(order, *number))?;
    }
    Ok(())
}

/// Appends numbers of four bytes. Where memory is refused some of them may be there already.
pub fn push_words(bytes: &mut Vec<u8>, order: ByteOrder2, numbers: &[u32]) -> Result<(), AllocError>
    ensures { OnOk result (bytes.new.items ≡ bytes.old.items ++ fields order (words numbers.now)) }
{
    for number in numbers {
        bytes.extend_from_slice(&word_bytes(order, *number))?;
    }
    Ok(())
}
