//! What is put down where words or edits are refused.
ghost use Rattle.std.specs.Prelude.{◌≢◌, OnOk, string_bytes};
ghost use Rattle.test_cases_files.specs.Words.{EndsLine};

use command_words::EditsError;
use elf_commands::files::{ElfError, ModifyCause};
use std::alloc::AllocError;

/// Puts down why words are no edits.
pub fn put_no_edits(error: &EditsError, out: &mut String) -> Result<(), AllocError>
    ensures fault { OnOk result (error.now ≢ EditsError.Memory) }
    ensures line { OnOk result (EndsLine (string_bytes out.new)) }
{
    match error {
        EditsError::Fault(fault) => write!(out, "{fault}")?,
        EditsError::Memory => return Err(AllocError),
    }
    out.push('\n')
}

/// Puts down the line of a refused edit.
pub fn put_refused(index: usize, fault: &ElfError, out: &mut String) -> Result<(), AllocError>
    ensures fault { OnOk result (fault.now ≢ ElfError.Memory) }
    ensures line { OnOk result (EndsLine (string_bytes out.new)) }
{
    match fault {
        ElfError::Memory => return Err(AllocError),
        ElfError::Modify(cause) => put_cause(index, cause, out)?,
        other => write!(out, "edit {index} refused: {other}")?,
    }
    out.push('\n')
}

/// Puts down that a cause stands against an edit.
fn put_cause(index: usize, cause: &ModifyCause, out: &mut String) -> Result<(), AllocError> {
    write!(out, "edit {index} refused: {cause}")
}
