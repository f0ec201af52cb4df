//! What the edits of ELF files take, by their numbers.
ghost use Rattle.std.specs.Prelude.{◌≡◌};
ghost use Rattle.arwen_c_edits.specs.ElfEdits.{elf_takes as takes_told, is_macho_kind as is_macho_told, no_elf_kind as no_kind_told};

use crate::fault::WrongEdit;
use crate::numbers::{
    ELF_ADD_DEBUG_TAG, ELF_ADD_NEEDED, ELF_ADD_RPATH, ELF_CLEAR_EXEC_STACK,
    ELF_CLEAR_SYMBOL_VERSION, ELF_DELETE_SECTIONS, ELF_DELETE_SYMBOLS, ELF_FORCE_RPATH,
    ELF_NO_DEFAULT_LIB, ELF_REMOVE_NEEDED, ELF_REMOVE_RPATH, ELF_RENAME_DYNAMIC_SYMBOLS,
    ELF_RENAME_SECTIONS, ELF_RENAME_SYMBOLS, ELF_REPLACE_LIBRARY, ELF_REPLACE_NEEDED,
    ELF_SET_EXEC_STACK, ELF_SET_INTERPRETER, ELF_SET_OS_ABI, ELF_SET_PAGE_SIZE, ELF_SET_RPATH,
    ELF_SET_SONAME, MACHO_ADD_RPATH, MACHO_CHANGE_INSTALL_ID, MACHO_CHANGE_INSTALL_NAME,
    MACHO_CHANGE_RPATH, MACHO_DELETE_RPATH,
};

/// What an edit of an ELF file takes.
#[derive(Clone, Copy, Debug)]
pub enum Takes {
    /// No text.
    Nothing,
    /// One text.
    OneText,
    /// Any number of names.
    Names,
    /// Pairs of an old name and a new one.
    Pairs,
    /// The name of an ABI.
    Abi,
    /// A page size.
    PageSize,
}

/// What the edit of a number takes; `None` for a number of none.
#[tactic(auto, unfolding(crate::specs::ElfEdits::elf_takes))]
pub(crate) fn elf_takes(kind: u32) -> Option<Takes>
    ensures { result ≡ takes_told kind }
{
    match kind {
        ELF_ADD_DEBUG_TAG
        | ELF_CLEAR_EXEC_STACK
        | ELF_FORCE_RPATH
        | ELF_NO_DEFAULT_LIB
        | ELF_REMOVE_RPATH
        | ELF_SET_EXEC_STACK => Some(Takes::Nothing),
        ELF_CLEAR_SYMBOL_VERSION | ELF_SET_INTERPRETER | ELF_SET_RPATH | ELF_SET_SONAME => {
            Some(Takes::OneText)
        }
        ELF_ADD_NEEDED
        | ELF_ADD_RPATH
        | ELF_DELETE_SECTIONS
        | ELF_DELETE_SYMBOLS
        | ELF_REMOVE_NEEDED => Some(Takes::Names),
        ELF_RENAME_DYNAMIC_SYMBOLS
        | ELF_RENAME_SECTIONS
        | ELF_RENAME_SYMBOLS
        | ELF_REPLACE_LIBRARY
        | ELF_REPLACE_NEEDED => Some(Takes::Pairs),
        ELF_SET_OS_ABI => Some(Takes::Abi),
        ELF_SET_PAGE_SIZE => Some(Takes::PageSize),
        _ => None,
    }
}

/// Whether a number is that of an edit of Mach-O files.
#[tactic(auto, unfolding(crate::specs::ElfEdits::is_macho_kind))]
fn is_macho_kind(kind: u32) -> bool
    ensures { result ≡ is_macho_told kind }
{
    match kind {
        MACHO_ADD_RPATH
        | MACHO_CHANGE_INSTALL_ID
        | MACHO_CHANGE_INSTALL_NAME
        | MACHO_CHANGE_RPATH
        | MACHO_DELETE_RPATH => true,
        _ => false,
    }
}

/// What is wrong with an edit of no number of ELF files.
pub(crate) fn no_elf_kind(kind: u32) -> WrongEdit
    ensures { result ≡ no_kind_told kind }
{
    if is_macho_kind(kind) {
        WrongEdit::OtherFormat
    } else {
        WrongEdit::UnknownKind
    }
}
