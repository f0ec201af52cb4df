//! The causes of a fault as text.
ghost use Rattle.std.specs.Prelude.{◌≡◌, ◌++◌, Some, IfOk, string_bytes};
ghost use Rattle.arwen_cli_faults.specs.Causes.{AreCauses, head_words};
ghost use Rattle.command_words.specs.Rows.{Text};

use crate::error::ArwenError;
use arwen_cli_show::{ElfCauses, MachoCauses};
use arwen_macho::macho::MachoBatchError;
use elf_commands::files::ElfBatchError;
use std::alloc::{AllocError, Global};
use std::fmt;

/// The causes of a fault, from the outermost on: its words, of a refused list which edit it is, and what is behind it. Error:
/// `AllocError`.
pub fn causes_text(alloc: Global, error: &ArwenError) -> Result<String, AllocError>
    ensures { IfOk result (λ text. AreCauses error.now (string_bytes text)) }
{
    let head = FaultHead { error };
    let text = format!(in alloc; "{head}")?;
    match error {
        ArwenError::Line { .. }
        | ArwenError::Memory
        | ArwenError::NotAllShown
        | ArwenError::NotAllFit => Ok(text),
        _ => with_last(alloc, text, error),
    }
}

/// A text with the last cause of a fault behind it.
fn with_last(alloc: Global, text: String, error: &ArwenError) -> Result<String, AllocError>
    ensures { IfOk result (λ whole. (last : Text)
        × (string_bytes whole ≡ string_bytes text ++ last)) }
{
    let mut text = text;
    let cause = LastCause { error };
    let last = format!(in alloc; "{cause}")?;
    text.push_str(last.as_str())?;
    Ok(text)
}

/// What stands before the last cause of a fault: its words, and of a refused list which edit it is. A fault without a cause has
/// nothing else, and one of the line its text.
#[derive(Clone, Copy)]
pub(crate) struct FaultHead<'a> {
    pub(crate) error: &'a ArwenError,
}

impl fmt::Display for FaultHead<'_> {
    ghost output = { λ head. Some (head_words head.error.now) };

    fn fmt<W: fmt::Write>(&self, f: &mut fmt::Formatter<W>) -> fmt::Result {
        let error = self.error;
        match error {
            ArwenError::Line { text, .. } => write!(f, "{text}"),
            ArwenError::Memory | ArwenError::NotAllShown | ArwenError::NotAllFit => {
                write!(f, "{error}")
            }
            ArwenError::ElfBatch(ElfBatchError { index, .. })
            | ArwenError::MachoBatch(MachoBatchError { index, .. }) => {
                write!(f, "{error}: edit {index}: ")
            }
            _ => write!(f, "{error}: "),
        }
    }
}

/// The last cause of a fault; nothing where it has none.
#[derive(Clone, Copy)]
pub(crate) struct LastCause<'a> {
    pub(crate) error: &'a ArwenError,
}

impl fmt::Display for LastCause<'_> {
    fn fmt<W: fmt::Write>(&self, f: &mut fmt::Formatter<W>) -> fmt::Result {
        match self.error {
            ArwenError::Macho(fault) => write!(f, "{}", MachoCauses { fault }),
            ArwenError::MachoBatch(MachoBatchError { fault, .. }) => {
                write!(f, "{}", MachoCauses { fault })
            }
            ArwenError::Elf(fault) => write!(f, "{}", ElfCauses { fault }),
            ArwenError::ElfBatch(ElfBatchError { fault, .. }) => {
                write!(f, "{}", ElfCauses { fault })
            }
            ArwenError::Io(fault) => write!(f, "{fault}"),
            ArwenError::Edits(fault) => write!(f, "{fault}"),
            ArwenError::Signing(fault) => write!(f, "{fault}"),
            ArwenError::Line { .. }
            | ArwenError::Memory
            | ArwenError::NotAllShown
            | ArwenError::NotAllFit => Ok(()),
        }
    }
}
