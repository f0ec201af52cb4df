//! Why a command for a Mach-O file is not done.
ghost use Rattle.std.specs.Prelude.{◌≡◌};
ghost use Rattle.macho_commands.specs.Errors.{answer_to, answer_to_batch, answer_to_read, answer_to_signing, answer_to_words};
ghost use Rattle.macho_commands.specs.declared.error.MachoCommandError.TheVariants.{Io, Memory};

use arwen_macho::macho::{MachoBatchError, MachoError};
use byte_store::ReadError;
use command_words::{EditFault, EditsError};
use macho_signing::SigningFault;
use std::alloc::{AllocError, AllocFailed};
use std::io;
use thiserror::Error;

/// Why a command for a Mach-O file was not done.
#[derive(Debug, Drop, Error)]
pub enum MachoCommandError {
    /// The bytes are no Mach-O file that is read, or the one edit was refused.
    #[error("error while patching Mach-O file")]
    Macho(MachoError),
    /// One of several edits was refused.
    #[error("Mach-O batch refused")]
    MachoBatch(MachoBatchError),
    /// The file could not be read or written.
    #[error("file error")]
    Io(io::Error),
    /// The words of `apply` are no list of edits.
    #[error("invalid edit list")]
    Edits(EditFault),
    /// A code signature was not read, or not made to fit.
    #[error("error in code signature")]
    Signing(SigningFault),
    /// Some pages of a code signature do not fit.
    #[error("some pages do not fit")]
    Unfit,
    /// There was no memory.
    #[error("out of memory")]
    Memory,
}

impl From<MachoError> for MachoCommandError {
    ghost from_gives = { λ e answer. answer ≡ answer_to e };

    fn from(error: MachoError) -> MachoCommandError {
        match error {
            MachoError::Memory => MachoCommandError::Memory,
            error => MachoCommandError::Macho(error),
        }
    }
}

impl From<MachoBatchError> for MachoCommandError {
    ghost from_gives = { λ e answer. answer ≡ answer_to_batch e };

    fn from(error: MachoBatchError) -> MachoCommandError {
        match error.fault {
            MachoError::Memory => MachoCommandError::Memory,
            fault => MachoCommandError::MachoBatch(MachoBatchError {
                index: error.index,
                fault,
            }),
        }
    }
}

impl From<EditsError> for MachoCommandError {
    ghost from_gives = { λ e answer. answer ≡ answer_to_words e };

    fn from(error: EditsError) -> MachoCommandError {
        match error {
            EditsError::Memory => MachoCommandError::Memory,
            EditsError::Fault(fault) => MachoCommandError::Edits(fault),
        }
    }
}

impl From<SigningFault> for MachoCommandError {
    ghost from_gives = { λ e answer. answer ≡ answer_to_signing e };

    fn from(fault: SigningFault) -> MachoCommandError {
        match fault {
            SigningFault::Memory => MachoCommandError::Memory,
            fault => MachoCommandError::Signing(fault),
        }
    }
}

impl From<ReadError> for MachoCommandError {
    ghost from_gives = { λ e answer. answer ≡ answer_to_read e };

    fn from(error: ReadError) -> MachoCommandError {
        match error {
            ReadError::Memory => MachoCommandError::Memory,
            ReadError::Io(error) => MachoCommandError::Io(error),
        }
    }
}

impl From<io::Error> for MachoCommandError {
    ghost from_gives = { λ e answer. answer ≡ Io e };

    fn from(error: io::Error) -> MachoCommandError {
        MachoCommandError::Io(error)
    }
}

impl From<AllocError> for MachoCommandError {
    ghost from_gives = { λ _ answer. answer ≡ Memory };

    fn from(_error: AllocError) -> MachoCommandError {
        MachoCommandError::Memory
    }
}

impl<T: Drop> From<AllocFailed<T>> for MachoCommandError {
    ghost from_gives = { λ _ answer. answer ≡ Memory };

    fn from(_error: AllocFailed<T>) -> MachoCommandError {
        MachoCommandError::Memory
    }
}
