//! Why not all is done that a line asks of a file.
ghost use Rattle.std.specs.Prelude.{◌≡◌};
ghost use Rattle.elf_commands.specs.ElfCommandError.TheVariants.{Memory};
ghost use Rattle.elf_commands.specs.ElfErrors.{answer_to_elf, answer_to_read};
ghost use Rattle.arwen_cli_patchelf.specs.declared.error.PatchelfError.TheVariants.{Command};

use crate::printing::Print;
use byte_store::ReadError;
use elf_commands::ElfCommandError;
use elf_commands::files::ElfError;
use std::alloc::AllocError;

/// Why not all is done that a line of `patchelf` asks of a file.
#[derive(Drop)]
pub enum PatchelfError {
    /// The file has no place for what is to be printed: no interpreter, or no dynamic section, in which run paths and needed
    /// libraries stand.
    Absent(Print),
    /// As a command for ELF files answers it.
    Command(ElfCommandError),
}

impl From<ElfCommandError> for PatchelfError {
    ghost from_gives = { λ e error. error ≡ Command e };

    fn from(error: ElfCommandError) -> Self {
        PatchelfError::Command(error)
    }
}

impl From<ElfError> for PatchelfError {
    ghost from_gives = { λ e error. error ≡ Command (answer_to_elf e) };

    fn from(error: ElfError) -> Self {
        PatchelfError::Command(ElfCommandError::from(error))
    }
}

impl From<ReadError> for PatchelfError {
    ghost from_gives = { λ e error. error ≡ Command (answer_to_read e) };

    fn from(error: ReadError) -> Self {
        PatchelfError::Command(ElfCommandError::from(error))
    }
}

impl From<AllocError> for PatchelfError {
    ghost from_gives = { λ _ error. error ≡ Command Memory };

    fn from(_error: AllocError) -> Self {
        PatchelfError::Command(ElfCommandError::Memory)
    }
}
