//! What the program answers when it does not do what was asked.
ghost use Rattle.std.specs.Prelude.{◌≡◌, Some};
ghost use Rattle.arwen_cli_faults.specs.Fault.{answer_to_elf_command, answer_to_macho_command, answer_to_read, answer_to_show_command, answer_to_words, fault_told, or_elf_memory, or_memory, status_of, words_told};
ghost use Rattle.arwen_cli_faults.specs.declared.error.ArwenError.TheVariants.{Elf, ElfBatch, Io, Macho, MachoBatch, Memory};

use crate::causes::{FaultHead, LastCause};
use arwen_cli_show::ShowCommandError;
use arwen_macho::macho::{MachoBatchError, MachoError};
use byte_store::ReadError;
use command_words::{EditFault, EditsError};
use elf_commands::ElfCommandError;
use elf_commands::files::{ElfBatchError, ElfError};
use macho_commands::MachoCommandError;
use macho_signing::SigningFault;
use std::alloc::{AllocError, AllocFailed};
use std::error::Error;
use std::{fmt, io};

/// Why the program did not do what was asked.
#[derive(Debug, Drop)]
pub enum ArwenError {
    /// An edit of a Mach-O file was refused.
    Macho(MachoError),
    /// An ELF file was not read, or what it says was not printed.
    Elf(ElfError),
    /// A file could not be read, created or written.
    Io(io::Error),
    /// The line is wrong, or asks for help.
    Line {
        /// The text to print, with its line ends.
        text: String,
        /// The status to end with: 0 for help, else 2.
        status: u8,
    },
    /// There was no memory.
    Memory,
    /// The words of `apply` are no list of edits.
    Edits(EditFault),
    /// One of several edits of a Mach-O file was refused.
    MachoBatch(MachoBatchError),
    /// One of several edits of an ELF file was refused.
    ElfBatch(ElfBatchError),
    /// Of some files nothing is told; a line on the standard error said why of each of them.
    NotAllShown,
    /// A code signature was not read, or not made to fit.
    Signing(SigningFault),
    /// Some pages of a code signature do not fit.
    NotAllFit,
}

impl ArwenError {
    /// The status that the program ends with.
    pub fn status(&self) -> u8
        ensures { result ≡ status_of self.now }
    {
        match self {
            ArwenError::Line { status, .. } => *status,
            ArwenError::Edits(_) => 2,
            _ => 1,
        }
    }

    /// What kind of fault it is, in words.
    pub fn words(&self) -> &'static str
        ensures { result.now ≡ words_told self.now }
    {
        match self {
            ArwenError::Macho(_) => "error while patching Mach-O file",
            ArwenError::Elf(_) => "error while patching ELF file",
            ArwenError::Io(_) => "file error",
            ArwenError::Line { .. } => "invalid command line",
            ArwenError::Memory => "out of memory",
            ArwenError::Edits(_) => "invalid edit list",
            ArwenError::MachoBatch(_) => "Mach-O batch refused",
            ArwenError::ElfBatch(_) => "ELF batch refused",
            ArwenError::NotAllShown => "some files are not shown",
            ArwenError::Signing(_) => "error in code signature",
            ArwenError::NotAllFit => "some pages do not fit",
        }
    }

    /// The fault as one line of text, its causes joined by `: `.
    pub fn line(&self) -> FaultLine<'_>
        ensures { fault_told result ≡ self.now }
    {
        FaultLine { error: self }
    }
}

impl From<MachoCommandError> for ArwenError {
    ghost from_gives = { λ e answer. answer ≡ answer_to_macho_command e };

    fn from(error: MachoCommandError) -> ArwenError {
        match error {
            MachoCommandError::Macho(fault) => ArwenError::from(fault),
            MachoCommandError::MachoBatch(fault) => ArwenError::from(fault),
            MachoCommandError::Io(fault) => ArwenError::Io(fault),
            MachoCommandError::Edits(fault) => ArwenError::Edits(fault),
            MachoCommandError::Signing(fault) => ArwenError::Signing(fault),
            MachoCommandError::Unfit => ArwenError::NotAllFit,
            MachoCommandError::Memory => ArwenError::Memory,
        }
    }
}

impl From<ElfCommandError> for ArwenError {
    ghost from_gives = { λ e answer. answer ≡ answer_to_elf_command e };

    fn from(error: ElfCommandError) -> ArwenError {
        match error {
            ElfCommandError::Elf(fault) => ArwenError::from(fault),
            ElfCommandError::ElfBatch(fault) => ArwenError::from(fault),
            ElfCommandError::Io(fault) => ArwenError::Io(fault),
            ElfCommandError::Edits(fault) => ArwenError::Edits(fault),
            ElfCommandError::Memory => ArwenError::Memory,
        }
    }
}

impl From<ShowCommandError> for ArwenError {
    ghost from_gives = { λ e answer. answer ≡ answer_to_show_command e };

    fn from(error: ShowCommandError) -> ArwenError {
        match error {
            ShowCommandError::NotAll => ArwenError::NotAllShown,
            ShowCommandError::Io(fault) => ArwenError::Io(fault),
            ShowCommandError::Memory => ArwenError::Memory,
        }
    }
}

impl From<MachoError> for ArwenError {
    ghost from_gives = { λ e answer. answer ≡ or_memory (Macho e) e };

    fn from(error: MachoError) -> ArwenError {
        match error {
            MachoError::Memory => ArwenError::Memory,
            error => ArwenError::Macho(error),
        }
    }
}

impl From<ElfError> for ArwenError {
    ghost from_gives = { λ e answer. answer ≡ or_elf_memory (Elf e) e };

    fn from(error: ElfError) -> ArwenError {
        match error {
            ElfError::Memory => ArwenError::Memory,
            error => ArwenError::Elf(error),
        }
    }
}

impl From<MachoBatchError> for ArwenError {
    ghost from_gives = { λ e answer. answer ≡ or_memory (MachoBatch e) e.fault };

    fn from(error: MachoBatchError) -> ArwenError {
        match error.fault {
            MachoError::Memory => ArwenError::Memory,
            fault => ArwenError::MachoBatch(MachoBatchError {
                index: error.index,
                fault,
            }),
        }
    }
}

impl From<ElfBatchError> for ArwenError {
    ghost from_gives = { λ e answer. answer ≡ or_elf_memory (ElfBatch e) e.fault };

    fn from(error: ElfBatchError) -> ArwenError {
        match error.fault {
            ElfError::Memory => ArwenError::Memory,
            fault => ArwenError::ElfBatch(ElfBatchError {
                index: error.index,
                fault,
            }),
        }
    }
}

impl From<EditsError> for ArwenError {
    ghost from_gives = { λ e answer. answer ≡ answer_to_words e };

    fn from(error: EditsError) -> ArwenError {
        match error {
            EditsError::Memory => ArwenError::Memory,
            EditsError::Fault(fault) => ArwenError::Edits(fault),
        }
    }
}

impl From<ReadError> for ArwenError {
    ghost from_gives = { λ e answer. answer ≡ answer_to_read e };

    fn from(error: ReadError) -> ArwenError {
        match error {
            ReadError::Memory => ArwenError::Memory,
            ReadError::Io(error) => ArwenError::Io(error),
        }
    }
}

impl From<io::Error> for ArwenError {
    ghost from_gives = { λ e answer. answer ≡ Io e };

    fn from(error: io::Error) -> ArwenError {
        ArwenError::Io(error)
    }
}

impl From<AllocError> for ArwenError {
    ghost from_gives = { λ _ answer. answer ≡ Memory };

    fn from(_error: AllocError) -> ArwenError {
        ArwenError::Memory
    }
}

impl<T: Drop> From<AllocFailed<T>> for ArwenError {
    ghost from_gives = { λ _ answer. answer ≡ Memory };

    fn from(_error: AllocFailed<T>) -> ArwenError {
        ArwenError::Memory
    }
}

impl fmt::Display for ArwenError {
    ghost output = { λ e. Some (words_told e) };

    fn fmt<W: fmt::Write>(&self, f: &mut fmt::Formatter<W>) -> fmt::Result {
        let words = self.words();
        write!(f, "{words}")
    }
}

impl Error for ArwenError {}

/// A fault with its causes, from the outermost on. It ends at a text that already holds the next.
#[derive(Clone, Copy)]
pub struct FaultLine<'a> {
    /// The fault.
    pub error: &'a ArwenError,
}

impl fmt::Display for FaultLine<'_> {
    fn fmt<W: fmt::Write>(&self, f: &mut fmt::Formatter<W>) -> fmt::Result {
        let head = FaultHead { error: self.error };
        let last = LastCause { error: self.error };
        write!(f, "{head}{last}")
    }
}
