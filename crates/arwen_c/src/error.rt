//! Why a call is refused.
ghost use Rattle.std.specs.Prelude.{◌≡◌};
ghost use Rattle.arwen_c.specs.Errors.{of_list, of_shown, of_words};
ghost use Rattle.arwen_c.specs.declared.error.CallError.TheVariants.{Elf, Macho, Memory};

use arwen_c_edits::{ListError, ListFault};
use arwen_cli_show::ShowError;
use command_words::{EditFault, EditsError};
use elf_commands::ElfCommandError;
use macho_commands::MachoCommandError;
use std::alloc::{AllocError, AllocFailed};

/// Why a call is refused.
#[derive(Drop)]
pub enum CallError {
    /// The array is no list of edits for the file.
    Array(ListFault),
    /// The words are no list of edits for the file.
    Words(EditFault),
    /// A word is no UTF-8: it stands in the group of this number.
    NoText(usize),
    /// The file begins neither as an ELF file nor as a Mach-O file.
    UnknownFormat,
    /// An ELF file, or an edit of one.
    Elf(ElfCommandError),
    /// A Mach-O file, or an edit of one.
    Macho(MachoCommandError),
    /// There was no memory.
    Memory,
}

impl From<ListError> for CallError {
    ghost from_gives = { λ e answer. answer ≡ of_list e };

    fn from(error: ListError) -> CallError {
        match error {
            ListError::Fault(fault) => CallError::Array(fault),
            ListError::Memory => CallError::Memory,
        }
    }
}

impl From<EditsError> for CallError {
    ghost from_gives = { λ e answer. answer ≡ of_words e };

    fn from(error: EditsError) -> CallError {
        match error {
            EditsError::Fault(fault) => CallError::Words(fault),
            EditsError::Memory => CallError::Memory,
        }
    }
}

impl From<ElfCommandError> for CallError {
    ghost from_gives = { λ e answer. answer ≡ Elf e };

    fn from(error: ElfCommandError) -> CallError {
        CallError::Elf(error)
    }
}

impl From<MachoCommandError> for CallError {
    ghost from_gives = { λ e answer. answer ≡ Macho e };

    fn from(error: MachoCommandError) -> CallError {
        CallError::Macho(error)
    }
}

impl From<ShowError> for CallError {
    ghost from_gives = { λ e answer. answer ≡ of_shown e };

    fn from(error: ShowError) -> CallError {
        match error {
            ShowError::UnknownFormat => CallError::UnknownFormat,
            ShowError::Elf(fault) => CallError::Elf(ElfCommandError::Elf(fault)),
            ShowError::Macho(fault) => CallError::Macho(MachoCommandError::Macho(fault)),
            // A list of bytes takes what is written to it, unless memory runs out.
            ShowError::Io(_) => CallError::Memory,
            ShowError::Memory => CallError::Memory,
        }
    }
}

impl From<AllocError> for CallError {
    ghost from_gives = { λ _ answer. answer ≡ Memory };

    fn from(_refused: AllocError) -> CallError {
        CallError::Memory
    }
}

impl<T: Drop> From<AllocFailed<T>> for CallError {
    ghost from_gives = { λ _ answer. answer ≡ Memory };

    fn from(_refused: AllocFailed<T>) -> CallError {
        CallError::Memory
    }
}
