//! Why a command for an ELF file is not done.
ghost use Rattle.std.specs.Prelude.{◌≡◌};
ghost use Rattle.elf_commands_edits.specs.ElfErrors.{answer_to_elf, answer_to_elf_batch, answer_to_read, answer_to_replaced, answer_to_words};
ghost use Rattle.elf_commands_edits.specs.declared.error.ElfCommandError.TheVariants.{Io, Memory};

use crate::files::{ElfBatchError, ElfError};
use byte_store::{ReadError, ReplaceError};
use command_words::{EditFault, EditsError};
use std::alloc::{AllocError, AllocFailed};
use std::io;
use thiserror::Error;

/// Why a command for an ELF file was not done.
#[derive(Debug, Drop, Error)]
pub enum ElfCommandError {
    /// The bytes are no ELF file that is read, the one edit was refused, the edited image has no bytes, or what the
    /// file says was not printed.
    #[error("error while patching ELF file")]
    Elf(ElfError),
    /// One of several edits was refused.
    #[error("ELF batch refused")]
    ElfBatch(ElfBatchError),
    /// The file could not be read or written, or the lines of the directories that went were not printed.
    #[error("file error")]
    Io(io::Error),
    /// The words of `apply` are no list of edits.
    #[error("invalid edit list")]
    Edits(EditFault),
    /// There was no memory.
    #[error("out of memory")]
    Memory,
}

impl From<ElfError> for ElfCommandError {
    ghost from_gives = { λ e answer. answer ≡ answer_to_elf e };

    fn from(error: ElfError) -> ElfCommandError {
        match error {
            ElfError::Memory => ElfCommandError::Memory,
            error => ElfCommandError::Elf(error),
        }
    }
}

impl From<ElfBatchError> for ElfCommandError {
    ghost from_gives = { λ e answer. answer ≡ answer_to_elf_batch e };

    fn from(error: ElfBatchError) -> ElfCommandError {
        match error.fault {
            ElfError::Memory => ElfCommandError::Memory,
            fault => ElfCommandError::ElfBatch(ElfBatchError {
                index: error.index,
                fault,
            }),
        }
    }
}

impl From<ReplaceError> for ElfCommandError {
    ghost from_gives = { λ e answer. answer ≡ answer_to_replaced e };

    fn from(error: ReplaceError) -> ElfCommandError {
        match error {
            ReplaceError::Memory => ElfCommandError::Memory,
            ReplaceError::Write(fault) => ElfCommandError::Io(fault.error),
        }
    }
}

impl From<EditsError> for ElfCommandError {
    ghost from_gives = { λ e answer. answer ≡ answer_to_words e };

    fn from(error: EditsError) -> ElfCommandError {
        match error {
            EditsError::Memory => ElfCommandError::Memory,
            EditsError::Fault(fault) => ElfCommandError::Edits(fault),
        }
    }
}

impl From<ReadError> for ElfCommandError {
    ghost from_gives = { λ e answer. answer ≡ answer_to_read e };

    fn from(error: ReadError) -> ElfCommandError {
        match error {
            ReadError::Memory => ElfCommandError::Memory,
            ReadError::Io(error) => ElfCommandError::Io(error),
        }
    }
}

impl From<io::Error> for ElfCommandError {
    ghost from_gives = { λ e answer. answer ≡ Io e };

    fn from(error: io::Error) -> ElfCommandError {
        ElfCommandError::Io(error)
    }
}

impl From<AllocError> for ElfCommandError {
    ghost from_gives = { λ _ answer. answer ≡ Memory };

    fn from(_error: AllocError) -> ElfCommandError {
        ElfCommandError::Memory
    }
}

impl<T: Drop> From<AllocFailed<T>> for ElfCommandError {
    ghost from_gives = { λ _ answer. answer ≡ Memory };

    fn from(_error: AllocFailed<T>) -> ElfCommandError {
        ElfCommandError::Memory
    }
}
