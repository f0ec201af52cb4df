//! The texts of errors, in one line each.
use crate::error::CallError;
use arwen_c_edits::ListFault;
use arwen_cli_show::{ElfCauses, MachoCauses};
use command_words::EditFault;
use elf_commands::ElfCommandError;
use macho_commands::MachoCommandError;
use std::alloc::{AllocError, Global};

/// An error with its causes.
pub(crate) fn text_of(alloc: Global, error: &CallError) -> Result<String, AllocError> {
    match error {
        CallError::Array(fault) => array_text(alloc, fault),
        CallError::Words(fault) => words_text(alloc, fault),
        CallError::NoText(group) => no_text(alloc, *group),
        CallError::UnknownFormat => {
            String::from_str(alloc, "neither an ELF file nor a Mach-O file")
        }
        CallError::Elf(error) => elf_text(alloc, error),
        CallError::Macho(error) => macho_text(alloc, error),
        CallError::Memory => String::from_str(alloc, "out of memory"),
    }
}

/// What is wrong with an array.
fn array_text(alloc: Global, fault: &ListFault) -> Result<String, AllocError> {
    format!(in alloc; "invalid edit list: {fault}")
}

/// What is wrong with words.
fn words_text(alloc: Global, fault: &EditFault) -> Result<String, AllocError> {
    format!(in alloc; "invalid edit list: {fault}")
}

/// The text for a word that is no UTF-8.
fn no_text(alloc: Global, group: usize) -> Result<String, AllocError> {
    format!(in alloc; "invalid edit list: group {group}: a word is no UTF-8")
}

/// An error of an ELF file with its causes.
fn elf_text(alloc: Global, error: &ElfCommandError) -> Result<String, AllocError> {
    match error {
        ElfCommandError::Elf(fault) => {
            let causes = ElfCauses { fault };
            causes.to_string(alloc)
        }
        ElfCommandError::ElfBatch(batch) => {
            let index = batch.index;
            let causes = ElfCauses {
                fault: &batch.fault,
            };
            format!(in alloc; "edit {index}: {causes}")
        }
        ElfCommandError::Edits(fault) => words_text(alloc, fault),
        other => other.to_string(alloc),
    }
}

/// An error of a Mach-O file with its causes.
fn macho_text(alloc: Global, error: &MachoCommandError) -> Result<String, AllocError> {
    match error {
        MachoCommandError::Macho(fault) => {
            let causes = MachoCauses { fault };
            causes.to_string(alloc)
        }
        MachoCommandError::MachoBatch(batch) => {
            let index = batch.index;
            let causes = MachoCauses {
                fault: &batch.fault,
            };
            format!(in alloc; "edit {index}: {causes}")
        }
        MachoCommandError::Edits(fault) => words_text(alloc, fault),
        MachoCommandError::Signing(fault) => format!(in alloc; "{error}: {fault}"),
        other => other.to_string(alloc),
    }
}
