//! What plans make of bytes in memory.
ghost use Rattle.std.specs.Prelude.{ℕ, List, IfErr, IfOk, map};
ghost use Rattle.elf_commands.specs.ElfEngine.{bytes_left};
ghost use Rattle.elf_commands.specs.Groups.{group_model};
ghost use Rattle.arwen_cli_patchelf.specs.Plans.{plan_model};
ghost use Rattle.arwen_cli_patchelf.specs.Made.{IsEditedWith, IsMadeOf, IsShrunkTo, TellsUnedited, TellsUnmade, TellsUnshrunk, prefixes_model};

use crate::first_found::shrunk_bytes;
use crate::plans::Plan;
use elf_commands::elf::{Probe, edit_each};
use elf_commands::{ElfCommandError, GroupEdit};
use std::alloc::Global;

/// The bytes that a plan makes of those of a file, or `None` where they stay as they were: its edits are made of those with shrunk
/// run paths. A file with a dynamic list but without a run path has nothing to shrink, and is edited as it is.
///
/// # Errors
///
/// Those of the first of the two steps that is refused, and `Memory`; never `Io`.
pub fn made_bytes<P: Probe>(
    alloc: Global,
    bytes: &[u8],
    plan: &Plan,
    probe: &P,
) -> Result<Option<Vec<u8>>, ElfCommandError>
    ensures made { IfOk result (λ new. IsMadeOf (P.may_find probe.now) (plan_model plan.now)
        bytes.now (bytes_left bytes.now new)) }
    ensures err { IfErr result
        (TellsUnmade (P.may_find probe.now) (plan_model plan.now) bytes.now) }
{
    match shrunk(alloc, bytes, &plan.shrinks, probe)? {
        Some(shrunk) => edited_shrunk(alloc, shrunk, plan.edits()),
        None => edited(alloc, bytes, plan.edits()),
    }
}

/// The bytes with shrunk run paths, where these are to shrink; `None` where nothing goes.
fn shrunk<P: Probe>(
    alloc: Global,
    bytes: &[u8],
    shrinks: &Option<Vec<String>>,
    probe: &P,
) -> Result<Option<Vec<u8>>, ElfCommandError>
    ensures shrunk { IfOk result (λ new. IsShrunkTo (P.may_find probe.now)
        (prefixes_model shrinks.now) bytes.now (bytes_left bytes.now new)) }
    ensures err { IfErr result
        (TellsUnshrunk (P.may_find probe.now) (prefixes_model shrinks.now) bytes.now) }
{
    match shrinks {
        Some(prefixes) => shrunk_bytes(alloc, bytes, prefixes.as_slice(), probe),
        None => Ok(None),
    }
}

/// Shrunk bytes with these edits.
fn edited_shrunk(
    alloc: Global,
    bytes: Vec<u8>,
    edits: &[GroupEdit],
) -> Result<Option<Vec<u8>>, ElfCommandError>
    ensures edited { IfOk result (λ new. (old : List ℕ) →
        IsEditedWith (map group_model edits.now) bytes.items (bytes_left old new)) }
    ensures err { IfErr result (TellsUnedited (map group_model edits.now) bytes.items) }
{
    let new = edited(alloc, bytes.as_slice(), edits)?;
    match new {
        Some(new) => Ok(Some(new)),
        None => Ok(Some(bytes)),
    }
}

/// Bytes with these edits; `None` where they stay as they were.
fn edited(
    alloc: Global,
    bytes: &[u8],
    edits: &[GroupEdit],
) -> Result<Option<Vec<u8>>, ElfCommandError>
    ensures edited { IfOk result (λ new.
        IsEditedWith (map group_model edits.now) bytes.now (bytes_left bytes.now new)) }
    ensures err { IfErr result (TellsUnedited (map group_model edits.now) bytes.now) }
{
    if edits.is_empty() {
        return Ok(None);
    }
    edit_each(alloc, bytes, edits)
}
