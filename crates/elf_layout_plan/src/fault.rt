ghost use Rattle.std.specs.Prelude.{◌≡◌};
ghost use Rattle.elf_layout_plan.specs.declared.fault.LayoutFault.TheVariants.{Memory};
ghost use Rattle.elf_layout_plan.specs.Faults.{fault_of_table};

use elf_tables::TableFault;
use std::alloc::{AllocError, AllocFailed};
use std::error::Error;
use std::fmt;

/// Why no place was found for what is written.
#[derive(Clone, Copy, Debug, PartialEq, Eq)]
pub enum LayoutFault {
    /// Two blocks overlap, and neither can move.
    Overlap,
    /// An address, an offset or a count is past its field or its limit.
    NumberTooLarge,
    /// There isn't enough memory.
    Memory,
}

impl fmt::Display for LayoutFault {
    fn fmt<W: fmt::Write>(&self, f: &mut fmt::Formatter<W>) -> fmt::Result {
        f.write_str(match self {
            LayoutFault::Overlap => "Overlap",
            LayoutFault::NumberTooLarge => "NumberTooLarge",
            LayoutFault::Memory => "Memory",
        })
    }
}

impl Error for LayoutFault {}

impl From<AllocError> for LayoutFault {
    ghost from_gives = { λ _ e. e ≡ Memory };

    fn from(_fault: AllocError) -> LayoutFault {
        LayoutFault::Memory
    }
}

impl<T: Drop> From<AllocFailed<T>> for LayoutFault {
    ghost from_gives = { λ _ e. e ≡ Memory };

    fn from(_fault: AllocFailed<T>) -> LayoutFault {
        LayoutFault::Memory
    }
}

impl From<TableFault> for LayoutFault {
    ghost from_gives = { λ fault answer. answer ≡ fault_of_table fault };

    fn from(fault: TableFault) -> LayoutFault {
        match fault {
            TableFault::NumberTooLarge => LayoutFault::NumberTooLarge,
            TableFault::Memory => LayoutFault::Memory,
        }
    }
}
