//! Why an array is no list of edits.
ghost use Rattle.std.specs.Prelude.{◌≡◌};
ghost use Rattle.arwen_c_edits.specs.Faults.{list_error};
ghost use Rattle.arwen_c_edits.specs.declared.fault.ListError.TheVariants as list;
ghost use Rattle.arwen_c_edits.specs.declared.fault.ReadError.TheVariants.{Memory};

use std::alloc::{AllocError, AllocFailed};
use thiserror::Error;

/// What is wrong with an edit.
#[derive(Clone, Copy, Debug, PartialEq, Eq, Error)]
pub enum WrongEdit {
    /// No edit has this number.
    #[error("no edit has this kind")]
    UnknownKind,
    /// The edit takes another number of texts.
    #[error("the edit takes another number of texts")]
    WrongCount,
    /// A text is no UTF-8, or no decimal number of 32 bits, where it has to be.
    #[error("a text is no UTF-8, or no decimal number of 32 bits")]
    NoText,
    /// The edit is one of the other kind of file.
    #[error("the edit is for files of the other format")]
    OtherFormat,
}

/// The first wrong edit of a list, and what is wrong with it.
#[derive(Clone, Copy, Debug, PartialEq, Eq, Error)]
#[error("edit {index}: {wrong}")]
pub struct ListFault {
    /// The edit, counted from 0.
    pub index: usize,
    /// What is wrong with the edit.
    pub wrong: WrongEdit,
}

/// Why an edit was not read.
#[derive(Debug, Drop)]
pub enum ReadError {
    /// The edit is wrong.
    Wrong(WrongEdit),
    /// There was no memory.
    Memory,
}

impl From<AllocError> for ReadError {
    ghost from_gives = { λ _ answer. answer ≡ Memory };

    fn from(_refused: AllocError) -> ReadError {
        ReadError::Memory
    }
}

/// Why a list was not read.
#[derive(Debug, Drop, Error)]
pub enum ListError {
    /// An edit is wrong.
    #[error(transparent)]
    Fault(ListFault),
    /// There was no memory.
    #[error("out of memory")]
    Memory,
}

impl From<AllocError> for ListError {
    ghost from_gives = { λ _ answer. answer ≡ list.Memory };

    fn from(_refused: AllocError) -> ListError {
        ListError::Memory
    }
}

impl<T: Drop> From<AllocFailed<T>> for ListError {
    ghost from_gives = { λ _ answer. answer ≡ list.Memory };

    fn from(_refused: AllocFailed<T>) -> ListError {
        ListError::Memory
    }
}

/// The error of a list whose edit of this number was not read.
pub(crate) fn error_at(index: usize, error: ReadError) -> ListError
    ensures { result ≡ list_error index error }
{
    match error {
        ReadError::Wrong(wrong) => ListError::Fault(ListFault { index, wrong }),
        ReadError::Memory => ListError::Memory,
    }
}
