//! Why an edit is refused.
ghost use Rattle.std.specs.Prelude.{◌≡◌, IfOk, false, option_map};
ghost use Rattle.std.specs.List.{list_any};
ghost use Rattle.elf_edits.specs.Cause.{CannotRenumber as cannot_renumber, cause_if, first_cause as first_of_causes, interpreter_missing, list_missing, own_cause as cause_of_its_own};
ghost use Rattle.elf_edits.specs.CauseModel.{cause_model};
ghost use Rattle.elf_edits.specs.Edit.{edit_model, is_rename, task_of};
ghost use Rattle.elf_edits.specs.Facts.{facts_model, names_fixed};
ghost use Rattle.elf_edits.specs.Symbols.{has_new_name};
ghost use Rattle.elf_edits.specs.TextModel.{pairs_model};
ghost use Rattle.elf_image.specs.Options.{first_there};

use crate::abi::abi_number;
use crate::constants::SMALLEST_PAGE;
use crate::edit::{ElfEdit, Task};
use crate::facts::Facts;
use crate::symbols::rename_any;
use elf_image::constants::EM_MIPS;
use elf_image_symbols::SymbolsNow;
use std::alloc::{AllocError, Global};

/// Why an edit of an ELF file is refused.
#[derive(Drop)]
pub enum Cause<'e> {
    /// Files for MIPS are read alone.
    MipsImage,
    /// The file has no dynamic section; what was to be done.
    NoDynamic(Task),
    /// The file has no interpreter.
    NoInterpreter,
    /// A text that was handed in has a NUL in it.
    NulInText,
    /// No ABI has this name, whatever the case of its ASCII letters.
    UnknownAbi(&'e str),
    /// A page size that is no power of two, or below 1024.
    BadPageSize(u32),
    /// The file has no run path.
    NoRunPath,
    /// A dynamic symbol is to have another name, and hash tables or relocations can't follow.
    CannotRenumber,
    /// There would be more program headers than a file can have.
    TooManyHeaders,
}

// What stands against other names of dynamic symbols, of those that have to keep them.
fn rename_cause(
    alloc: Global,
    pairs: &[(Vec<u8>, Vec<u8>)],
    fixed: &Option<SymbolsNow<'_>>,
) -> Result<Option<Cause<'static>>, AllocError>
    ensures { IfOk result (λ found. option_map cause_model found
        ≡ cause_if (list_any (has_new_name (pairs_model pairs.now)) (names_fixed fixed.now))
        cannot_renumber) }
{
    match fixed {
        None => Ok(None),
        Some(symbols) => {
            let is_found = rename_any(alloc, pairs, symbols)?;
            Ok(is_found.then_some(Cause::CannotRenumber))
        }
    }
}

// What stands against an edit of its kind alone, apart from what stands against other names.
fn plain_cause<'e>(edit: &'e ElfEdit, facts: &Facts<'_>) -> Option<Cause<'e>>
    requires { is_rename (edit_model edit.now) ≡ false }
    ensures { option_map cause_model result
        ≡ cause_of_its_own (edit_model edit.now) (facts_model facts.now) }
{
    match edit {
        ElfEdit::SetOsAbi(name) => if abi_number(name.as_str()).is_none() {
            Some(Cause::UnknownAbi(name.as_str()))
        } else {
            None
        },
        ElfEdit::SetPageSize(size) => if size.is_power_of_two() && *size >= SMALLEST_PAGE {
            None
        } else {
            Some(Cause::BadPageSize(*size))
        },
        ElfEdit::ClearExecStack => if facts.is_full {
            Some(Cause::TooManyHeaders)
        } else {
            None
        },
        ElfEdit::SetExecStack => if facts.is_full {
            Some(Cause::TooManyHeaders)
        } else {
            None
        },
        _ => None,
    }
}

// What stands against an edit of its kind alone.
fn own_cause<'e>(
    alloc: Global,
    edit: &'e ElfEdit,
    facts: &Facts<'_>,
) -> Result<Option<Cause<'e>>, AllocError>
    ensures { IfOk result (λ found. option_map cause_model found
        ≡ cause_of_its_own (edit_model edit.now) (facts_model facts.now)) }
{
    match edit {
        ElfEdit::RenameDynamicSymbols(pairs) => {
            rename_cause(alloc, pairs.as_slice(), &facts.fixed_symbols)
        }
        other => Ok(plain_cause(other, facts)),
    }
}

// What an edit needs and isn't there: the dynamic section, or the interpreter.
fn missing_part<'e>(edit: &'e ElfEdit, facts: &Facts<'_>) -> Option<Cause<'e>>
    ensures { option_map cause_model result
        ≡ first_there (list_missing (task_of (edit_model edit.now)) (facts_model facts.now))
        (interpreter_missing (edit_model edit.now) (facts_model facts.now)) }
{
    if let ElfEdit::SetInterpreter(_) = edit {
        return if facts.has_interpreter {
            None
        } else {
            Some(Cause::NoInterpreter)
        };
    }
    match edit.task() {
        Some(task) if !facts.has_list => Some(Cause::NoDynamic(task)),
        _ => None,
    }
}

/// The first cause that stands against an edit of an image with these facts: the machine, what the edit needs and isn't
/// there, a NUL in a text, and then what stands against this edit alone; `None` where none does. The cost is in proportion
/// to the edit's texts, and to the symbols where one is renamed. Only to look for names of symbols takes memory. Error:
/// `AllocError`.
pub fn cause_of<'e>(
    alloc: Global,
    edit: &'e ElfEdit,
    facts: &Facts<'_>,
) -> Result<Option<Cause<'e>>, AllocError>
    ensures { IfOk result (λ found. option_map cause_model found
        ≡ first_of_causes (edit_model edit.now) (facts_model facts.now)) }
{
    if facts.machine == EM_MIPS {
        return Ok(Some(Cause::MipsImage));
    }
    let missing = missing_part(edit, facts);
    if missing.is_some() {
        return Ok(missing);
    }
    if edit.holds_nul() {
        return Ok(Some(Cause::NulInText));
    }
    own_cause(alloc, edit, facts)
}
