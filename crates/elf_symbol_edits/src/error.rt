//! What an edit answers where it isn't made.
ghost use Rattle.std.specs.Prelude.{◌≡◌};
ghost use Rattle.elf_symbol_edits.specs.declared.error.SymbolEditError.TheVariants.{Memory};

use crate::cause::Cause;
use std::alloc::AllocError;

/// Why an edit was not made.
#[derive(Clone, Copy, Debug, PartialEq, Eq)]
pub enum SymbolEditError {
    /// The edit is refused.
    Refused(Cause),
    /// There was no memory.
    Memory,
}

impl From<AllocError> for SymbolEditError {
    ghost from_gives = { λ _ e. e ≡ Memory };

    fn from(_refused: AllocError) -> SymbolEditError {
        SymbolEditError::Memory
    }
}
