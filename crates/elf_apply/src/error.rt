ghost use Rattle.std.specs.Prelude.{◌≡◌};
ghost use Rattle.elf_apply.specs.Causes.{of_fault};
ghost use Rattle.elf_apply.specs.declared.error.ElfError.TheVariants.{Io, Memory};

use elf_edits::Task;
use elf_image::ElfFault;
use std::alloc::{AllocError, AllocFailed};
use std::io;
use thiserror::Error;

/// Why an edit of an ELF file was refused.
#[derive(Debug, Drop, Error)]
pub enum ModifyCause {
    /// The file has no dynamic section; what was to be done.
    #[error("No dynamic section found; can't {0}")]
    NoDynamic(Task),
    /// The file has no interpreter.
    #[error("No interp section found; can't set interpreter")]
    NoInterp,
    /// No ABI has this name, which is given in small letters.
    #[error("Unknown ABI {0}")]
    UnknownAbi(String),
    /// A page size that is no power of two, or below 1024.
    #[error("Page size must be a power of 2 and >= 1024, got {0}")]
    BadPageSize(u32),
    /// The file has no run path.
    #[error("No DT_RPATH entry found")]
    NoRunPath,
    /// Two blocks that never move overlap.
    #[error("Overlapping immovable sections")]
    Overlap,
    /// A text that was handed in has a NUL in it.
    #[error("NUL in a text")]
    NulInText,
    /// Files for MIPS are read alone.
    #[error("MIPS images can't be modified")]
    MipsImage,
    /// A relocation names the symbol.
    #[error("Symbol is used by a relocation")]
    SymbolInRelocation,
    /// The dynamic symbols can't get other numbers.
    #[error("Symbol table can't be renumbered")]
    CannotRenumber,
    /// Something else needs the section.
    #[error("Section is in use")]
    SectionInUse,
    /// There would be more program headers than a file can have.
    #[error("Too many program headers")]
    TooManyHeaders,
}

/// Why an ELF file was not read, edited or written.
#[derive(Debug, Drop, Error)]
pub enum ElfError {
    /// A writer failed.
    #[error("I/O error occurred while writing the file")]
    Io(io::Error),
    /// The bytes are refused: the fault of the first read rule that they break.
    #[error("A parse error occurred while reading the file")]
    Parse(ElfFault),
    /// The file can't be written.
    #[error("A validation error occurred while writing the file")]
    Write(ElfFault),
    /// The edit is refused.
    #[error("A validation error occurred while modifying the file")]
    Modify(ModifyCause),
    /// Never made: texts are bytes.
    #[error("Non-UTF-8 DT_NEEDED entry")]
    InvalidDtNeededEncoding,
    /// There was no memory.
    #[error("out of memory")]
    Memory,
}

/// The result of what is done with an ELF file.
pub type Result<T> = std::result::Result<T, ElfError>;

impl From<ElfFault> for ElfError {
    ghost from_gives = { λ fault e. e ≡ of_fault fault };

    fn from(fault: ElfFault) -> ElfError {
        match fault {
            ElfFault::Memory => ElfError::Memory,
            other => ElfError::Parse(other),
        }
    }
}

impl From<io::Error> for ElfError {
    ghost from_gives = { λ inner e. e ≡ Io inner };

    fn from(inner: io::Error) -> ElfError {
        ElfError::Io(inner)
    }
}

impl From<AllocError> for ElfError {
    ghost from_gives = { λ _ e. e ≡ Memory };

    fn from(_refused: AllocError) -> ElfError {
        ElfError::Memory
    }
}

impl<T: Drop> From<AllocFailed<T>> for ElfError {
    ghost from_gives = { λ _ e. e ≡ Memory };

    fn from(_refused: AllocFailed<T>) -> ElfError {
        ElfError::Memory
    }
}
