ghost use Rattle.std.specs.Prelude.{◌≡◌};
ghost use Rattle.elf_format.specs.declared.view_fault.ViewFault.TheVariants.{Memory};

use std::alloc::{AllocError, AllocFailed};
use std::error::Error;
use std::fmt;

/// Why nothing is shown.
#[derive(Clone, Copy, Debug, PartialEq, Eq)]
pub enum ViewFault {
    /// A byte that the view needs isn't there, or a text doesn't end.
    Absent,
    /// There isn't enough memory.
    Memory,
}

impl fmt::Display for ViewFault {
    fn fmt<W: fmt::Write>(&self, f: &mut fmt::Formatter<W>) -> fmt::Result {
        f.write_str(match self {
            ViewFault::Absent => "Absent",
            ViewFault::Memory => "Memory",
        })
    }
}

impl Error for ViewFault {}

impl From<AllocError> for ViewFault {
    ghost from_gives = { λ _ e. e ≡ Memory };

    fn from(_fault: AllocError) -> ViewFault {
        ViewFault::Memory
    }
}

impl<T: Drop> From<AllocFailed<T>> for ViewFault {
    ghost from_gives = { λ _ e. e ≡ Memory };

    fn from(_fault: AllocFailed<T>) -> ViewFault {
        ViewFault::Memory
    }
}
