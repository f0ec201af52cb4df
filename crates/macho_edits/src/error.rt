ghost use Rattle.std.specs.Prelude.{◌≡◌};
ghost use Rattle.macho_edits.specs.declared.error.MachoError.TheVariants.{Memory};
ghost use Rattle.macho_edits.specs.Converted.{of_builder, of_fault};

use crate::commands::CommandBuilderError;
use macho_image::MachFault;
use std::alloc::{AllocError, AllocFailed};
use thiserror::Error;

/// Why a Mach-O file was not parsed, or an edit of it was refused.
#[derive(Debug, Drop, Error)]
pub enum MachoError {
    /// A check of the file's bytes fails: the first one.
    #[error("error while parsing Mach-O file")]
    Parsing(MachFault),
    /// A slice of a fat file is a Unix archive.
    #[error("unix archive is not supported as fat file format")]
    UnixArchive,
    /// The new command cannot be built.
    #[error("error when creating a new command: {0}")]
    CommandBuilderError(CommandBuilderError),
    /// No rpath command has this text.
    #[error("requested rpath is missing: {0}")]
    RpathMissing(String),
    /// No command that loads a library has this text.
    #[error("requested dylib name is missing: {0}")]
    DylibNameMissing(String),
    /// No command holds the library's own name.
    #[error("LC_ID_DYLIB is missing or file is not a shared library")]
    DylibIdMissing,
    /// The load commands would end past where they may: offsets in the file, or in its slice.
    #[error("no room: {needed} > {available}")]
    NoRoom {
        /// Where the commands would end.
        needed: u64,
        /// The greatest offset where the commands may end.
        available: u64,
    },
    /// There was no memory.
    #[error("out of memory")]
    Memory,
}

impl From<CommandBuilderError> for MachoError {
    ghost from_gives = { λ inner e. e ≡ of_builder inner };

    fn from(inner: CommandBuilderError) -> MachoError {
        match inner {
            CommandBuilderError::Memory => MachoError::Memory,
            refused => MachoError::CommandBuilderError(refused),
        }
    }
}

impl From<MachFault> for MachoError {
    ghost from_gives = { λ fault e. e ≡ of_fault fault };

    fn from(fault: MachFault) -> MachoError {
        match fault {
            MachFault::Memory => MachoError::Memory,
            other => MachoError::Parsing(other),
        }
    }
}

impl From<AllocError> for MachoError {
    ghost from_gives = { λ _ e. e ≡ Memory };

    fn from(_refused: AllocError) -> MachoError {
        MachoError::Memory
    }
}

impl<T: Drop> From<AllocFailed<T>> for MachoError {
    ghost from_gives = { λ _ e. e ≡ Memory };

    fn from(_refused: AllocFailed<T>) -> MachoError {
        MachoError::Memory
    }
}
