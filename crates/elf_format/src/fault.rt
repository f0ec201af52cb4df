ghost use Rattle.std.specs.Prelude.{◌≡◌};
ghost use Rattle.elf_format.specs.declared.fault.ElfFault.TheVariants.{Memory};

use std::alloc::{AllocError, AllocFailed};
use std::error::Error;
use std::fmt;

/// Why an ELF file is refused, or can't be written.
#[derive(Clone, Copy, Debug, PartialEq, Eq)]
pub enum ElfFault {
    /// The first four bytes aren't those of an ELF file.
    BadMagic,
    /// A header, a table or a range lies past the end of the file.
    Truncated,
    /// A class, byte order, version, type or size that isn't read.
    Unsupported,
    /// Headers or tables contradict each other: the number of the read rule that fails.
    Disagree(u8),
    /// A text lies outside its string table, or has no NUL there.
    BadText,
    /// A number is past its field.
    NumberTooLarge,
    /// There isn't enough memory.
    Memory,
}

impl fmt::Display for ElfFault {
    fn fmt<W: fmt::Write>(&self, f: &mut fmt::Formatter<W>) -> fmt::Result {
        f.write_str(match self {
            ElfFault::BadMagic => "BadMagic",
            ElfFault::Truncated => "Truncated",
            ElfFault::Unsupported => "Unsupported",
            ElfFault::Disagree(_) => "Disagree",
            ElfFault::BadText => "BadText",
            ElfFault::NumberTooLarge => "NumberTooLarge",
            ElfFault::Memory => "Memory",
        })
    }
}

impl Error for ElfFault {}

impl From<AllocError> for ElfFault {
    ghost from_gives = { λ _ e. e ≡ Memory };

    fn from(_fault: AllocError) -> ElfFault {
        ElfFault::Memory
    }
}

impl<T: Drop> From<AllocFailed<T>> for ElfFault {
    ghost from_gives = { λ _ e. e ≡ Memory };

    fn from(_fault: AllocFailed<T>) -> ElfFault {
        ElfFault::Memory
    }
}
