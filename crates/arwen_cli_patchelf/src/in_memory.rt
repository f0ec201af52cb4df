//! What steps that are made in memory need.
ghost use Rattle.std.specs.Prelude.{◌≡◌, IfOk, map, string_bytes};
ghost use Rattle.arwen_cli_patchelf.specs.Made.{answer_in_memory};

use elf_commands::ElfCommandError;
use std::alloc::{AllocError, Global};

/// The same texts, owned apart. Error: `AllocError`.
pub(crate) fn texts_copied(alloc: Global, texts: &[String]) -> Result<Vec<String>, AllocError>
    ensures { IfOk result (λ copies. map string_bytes copies.items ≡ map string_bytes texts.now) }
{
    let mut copies = Vec::with_capacity(alloc, texts.len())?;
    for text in texts {
        copies.push(String::from_str(alloc, text.as_str())?)?;
    }
    Ok(copies)
}

/// The error of a step that is made in memory, where calls fail only for want of it.
pub(crate) fn in_memory(error: ElfCommandError) -> ElfCommandError
    ensures { result ≡ answer_in_memory error }
{
    match error {
        ElfCommandError::Io(_) => ElfCommandError::Memory,
        error => error,
    }
}
