//! Causes, and the errors that tell them.
ghost use Rattle.std.specs.Prelude.{◌≡◌, ◌==◌, Err, Some as some, not, option_map};
ghost use Rattle.elf_edits.specs.Abi.{lowercase_name};
ghost use Rattle.elf_edits.specs.Cause.{BadPageSize as bad_page_size, MipsImage as mips_image, NoDynamic as no_dynamic, TooManyHeaders as too_many_headers, UnknownAbi, cause_if, is_page_size};
ghost use Rattle.elf_edits.specs.Edit.{words_of};
ghost use Rattle.elf_edits.specs.CauseModel.{cause_model};
ghost use Rattle.elf_format.specs.declared.constants.TheConstants.{EM_MIPS as MIPS};
ghost use Rattle.elf_image.specs.Options.{first_there};
ghost use Rattle.elf_apply.specs.Told.{Refuses, cause_told};

use crate::error::{ElfError, ModifyCause};
use elf_edits::constants::SMALLEST_PAGE;
use elf_edits::{Cause, Facts, Task};
use elf_image::constants::EM_MIPS;
use std::alloc::Global;

// The error that tells a cause: a name with its ASCII letters lowered. Where there is no memory for the name, the error
// tells that.
pub(crate) fn cause_error(alloc: Global, cause: Cause<'_>) -> ElfError
    ensures { Refuses result (Err (cause_model cause.entry)) }
{
    match cause {
        Cause::MipsImage => ElfError::Modify(ModifyCause::MipsImage),
        Cause::NoDynamic(task) => ElfError::Modify(ModifyCause::NoDynamic(task)),
        Cause::NoInterpreter => ElfError::Modify(ModifyCause::NoInterp),
        Cause::NulInText => ElfError::Modify(ModifyCause::NulInText),
        Cause::UnknownAbi(name) => unknown_abi(alloc, name),
        Cause::BadPageSize(size) => ElfError::Modify(ModifyCause::BadPageSize(size)),
        Cause::NoRunPath => ElfError::Modify(ModifyCause::NoRunPath),
        Cause::CannotRenumber => ElfError::Modify(ModifyCause::CannotRenumber),
        Cause::TooManyHeaders => ElfError::Modify(ModifyCause::TooManyHeaders),
    }
}

// No ABI has this name.
fn unknown_abi(alloc: Global, name: &str) -> ElfError
    ensures { Refuses result (Err (UnknownAbi (lowercase_name name.now))) }
{
    match name.to_ascii_lowercase(alloc) {
        Ok(name) => ElfError::Modify(ModifyCause::UnknownAbi(name)),
        Err(_) => ElfError::Memory,
    }
}

// Why a dynamic list can't be edited, whatever the edit writes. Takes no memory.
pub(crate) fn list_refusal(facts: &Facts<'_>, task: Task) -> Option<ModifyCause>
    ensures { option_map cause_told result
        ≡ option_map some (first_there (cause_if (facts.now.machine == MIPS) mips_image)
        (cause_if (not facts.now.has_list) (no_dynamic (words_of task)))) }
{
    if facts.machine == EM_MIPS {
        Some(ModifyCause::MipsImage)
    } else if !facts.has_list {
        Some(ModifyCause::NoDynamic(task))
    } else {
        None
    }
}

// Why the page size can't be set. Takes no memory.
pub(crate) fn page_size_refusal(facts: &Facts<'_>, size: u32) -> Option<ModifyCause>
    ensures { option_map cause_told result
        ≡ option_map some (first_there (cause_if (facts.now.machine == MIPS) mips_image)
        (cause_if (not (is_page_size size)) (bad_page_size size))) }
{
    if facts.machine == EM_MIPS {
        Some(ModifyCause::MipsImage)
    } else if size.is_power_of_two() && size >= SMALLEST_PAGE {
        None
    } else {
        Some(ModifyCause::BadPageSize(size))
    }
}

// Why no program header for the stack can be added. Takes no memory.
pub(crate) fn stack_refusal(facts: &Facts<'_>) -> Option<ModifyCause>
    ensures { option_map cause_told result
        ≡ option_map some (first_there (cause_if (facts.now.machine == MIPS) mips_image)
        (cause_if facts.now.is_full too_many_headers)) }
{
    if facts.machine == EM_MIPS {
        Some(ModifyCause::MipsImage)
    } else if facts.is_full {
        Some(ModifyCause::TooManyHeaders)
    } else {
        None
    }
}
