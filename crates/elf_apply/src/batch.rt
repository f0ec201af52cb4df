ghost use Rattle.std.specs.Prelude.{◌≡◌};
ghost use Rattle.elf_apply.specs.declared.error.ElfError.TheVariants.{Memory};

use crate::error::ElfError;
use std::alloc::{AllocError, AllocFailed};
use thiserror::Error;

/// Why a batch of edits was refused.
#[derive(Debug, Drop, Error)]
#[error("ElfBatchError")]
pub struct ElfBatchError {
    /// The edit that is refused, counted from 0. It tells nothing where there was no memory.
    pub index: usize,
    /// Why the edit is refused.
    pub fault: ElfError,
}

impl From<AllocError> for ElfBatchError {
    ghost from_gives = { λ _ e. e.fault ≡ Memory };

    fn from(_refused: AllocError) -> ElfBatchError {
        ElfBatchError {
            index: 0,
            fault: ElfError::Memory,
        }
    }
}

impl<T: Drop> From<AllocFailed<T>> for ElfBatchError {
    ghost from_gives = { λ _ e. e.fault ≡ Memory };

    fn from(_refused: AllocFailed<T>) -> ElfBatchError {
        ElfBatchError {
            index: 0,
            fault: ElfError::Memory,
        }
    }
}
