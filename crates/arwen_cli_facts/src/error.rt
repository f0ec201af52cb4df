//! Why nothing is told of a file.
ghost use Rattle.std.specs.Prelude.{◌≡◌};
ghost use Rattle.arwen_cli_facts.specs.Refusals.{of_elf, of_macho};
ghost use Rattle.arwen_cli_facts.specs.declared.error.ShowError.TheVariants.{Io, Memory};

use arwen_elf::elf::ElfError;
use arwen_macho::macho::MachoError;
use std::alloc::{AllocError, AllocFailed};
use std::{fmt, io};
use thiserror::Error;

/// Why nothing is told of a file.
#[derive(Debug, Drop, Error)]
pub enum ShowError {
    /// The file begins as none that is read here.
    #[error("neither an ELF file nor a Mach-O file")]
    UnknownFormat,
    /// An ELF file that is refused.
    #[error("error while reading ELF file")]
    Elf(ElfError),
    /// A Mach-O file that is refused.
    #[error("error while reading Mach-O file")]
    Macho(MachoError),
    /// The file could not be read, or what is told was not written.
    #[error("file error")]
    Io(io::Error),
    /// There was no memory.
    #[error("out of memory")]
    Memory,
}

impl From<ElfError> for ShowError {
    ghost from_gives = { λ e answer. answer ≡ of_elf e };

    fn from(error: ElfError) -> ShowError {
        match error {
            ElfError::Memory => ShowError::Memory,
            error => ShowError::Elf(error),
        }
    }
}

impl From<MachoError> for ShowError {
    ghost from_gives = { λ e answer. answer ≡ of_macho e };

    fn from(error: MachoError) -> ShowError {
        match error {
            MachoError::Memory => ShowError::Memory,
            error => ShowError::Macho(error),
        }
    }
}

impl From<io::Error> for ShowError {
    ghost from_gives = { λ e answer. answer ≡ Io e };

    fn from(error: io::Error) -> ShowError {
        ShowError::Io(error)
    }
}

impl From<AllocError> for ShowError {
    ghost from_gives = { λ _ answer. answer ≡ Memory };

    fn from(_refused: AllocError) -> ShowError {
        ShowError::Memory
    }
}

impl<T: Drop> From<AllocFailed<T>> for ShowError {
    ghost from_gives = { λ _ answer. answer ≡ Memory };

    fn from(_refused: AllocFailed<T>) -> ShowError {
        ShowError::Memory
    }
}

/// An error with its causes, from the outermost on.
#[derive(Clone, Copy)]
pub struct ShowCauses<'a> {
    /// The error.
    pub error: &'a ShowError,
}

impl fmt::Display for ShowCauses<'_> {
    fn fmt<W: fmt::Write>(&self, f: &mut fmt::Formatter<W>) -> fmt::Result {
        let outer = self.error;
        match outer {
            ShowError::Elf(fault) => {
                let causes = ElfCauses { fault };
                write!(f, "{outer}: {causes}")
            }
            ShowError::Macho(fault) => {
                let causes = MachoCauses { fault };
                write!(f, "{outer}: {causes}")
            }
            ShowError::Io(fault) => write!(f, "{outer}: {fault}"),
            ShowError::UnknownFormat | ShowError::Memory => write!(f, "{outer}"),
        }
    }
}

/// A fault of an ELF file with its causes.
#[derive(Clone, Copy)]
pub struct ElfCauses<'a> {
    /// The fault.
    pub fault: &'a ElfError,
}

impl fmt::Display for ElfCauses<'_> {
    fn fmt<W: fmt::Write>(&self, f: &mut fmt::Formatter<W>) -> fmt::Result {
        let fault = self.fault;
        match fault {
            ElfError::Io(cause) => write!(f, "{fault}: {cause}"),
            ElfError::Parse(cause) | ElfError::Write(cause) => write!(f, "{fault}: {cause}"),
            ElfError::Modify(cause) => write!(f, "{fault}: {cause}"),
            ElfError::InvalidDtNeededEncoding | ElfError::Memory => write!(f, "{fault}"),
        }
    }
}

/// A fault of a Mach-O file with its causes.
#[derive(Clone, Copy)]
pub struct MachoCauses<'a> {
    /// The fault.
    pub fault: &'a MachoError,
}

impl fmt::Display for MachoCauses<'_> {
    fn fmt<W: fmt::Write>(&self, f: &mut fmt::Formatter<W>) -> fmt::Result {
        let fault = self.fault;
        match fault {
            MachoError::Parsing(cause) => write!(f, "{fault}: {cause}"),
            _ => write!(f, "{fault}"),
        }
    }
}
