//! Plans, made of the bytes of stores.
ghost use Rattle.std.specs.Prelude.{◌≡◌, None, IfErr, IfOk, IsOkAnd, IsTrue, OnOk};
ghost use Rattle.byte_store.specs.Fault.{IsOkAndSame};
ghost use Rattle.byte_store.specs.Known.{Becomes, IsAll};
ghost use Rattle.elf_commands.specs.ElfEngine.{bytes_left};
ghost use Rattle.elf_commands.specs.ElfStores.{WritesEnd};
ghost use Rattle.elf_commands.specs.Failures.{HasCause, HasCauseAt, HasWriteCause};
ghost use Rattle.arwen_cli_patchelf.specs.Plans.{plan_model};
ghost use Rattle.arwen_cli_patchelf.specs.Made.{AsksNothing};
ghost use Rattle.arwen_cli_patchelf.specs.Patched.{FailsPatch, FailsPatchAt, IsPatched, IsPatchedAt, IsUnwritten};

use crate::making::made_bytes;
use crate::plans::Plan;
use byte_store::{Store, replace};
use command_words::{NotDone, OpensOnce, load};
use elf_commands::ElfCommandError;
use elf_commands::elf::{Probe, open_path};
use std::alloc::Global;

/// Makes a plan of the bytes of the store at a path, all or nothing, and hands the store back. A plan that asks for nothing opens
/// none.
///
/// # Errors
///
/// Those of `patch_store`, and `Io` with what the opening answered. The store that was opened comes with the error, with
/// what it left there.
pub fn patch_path<'p, O: OpensOnce<'p> + Drop, P: Probe>(
    alloc: Global,
    files: O,
    path: &'p str,
    plan: &Plan,
    probe: &P,
) -> Result<Option<O::Opened>, NotDone<O::Opened, ElfCommandError>>
    ensures patched { IfOk result (IsPatchedAt O.Opened.contents (P.may_find probe.now)
        (plan_model plan.now) (O.contents files path.now)) }
    ensures idle { AsksNothing (plan_model plan.now) → IsOkAnd result (λ store. store ≡ None) }
    ensures left { IfErr result (λ refused. FailsPatchAt
        O.Opened.may_fail_write O.Opened.may_take_none O.Opened.failed O.Opened.contents
        (P.may_find probe.now) (plan_model plan.now) (O.contents files path.now)
        refused.error refused.store) }
    ensures cause { IfErr result (λ refused. HasCauseAt (O.may_fail files path.now)
        O.Opened.may_fail_read O.Opened.may_fail_write O.Opened.may_take_none O.Opened.failed
        (O.contents files path.now) refused.error refused.store) }
{
    if asks_nothing(plan) {
        return Ok(None);
    }
    let mut store = open_path(files, path)?;
    match patch_store(alloc, &mut store, plan, probe) {
        Ok(()) => Ok(Some(store)),
        Err(error) => Err(NotDone {
            error,
            store: Some(store),
        }),
    }
}

/// Makes a plan of the bytes of a store, all or nothing: run paths shrink, and then the edits are made of what comes of that; what
/// differs is written. A plan that asks for nothing looks at nothing; for any other the store is opened for writing even where
/// nothing differs. What shrinking leaves out is not told, nor are the notes of the edits.
///
/// # Errors
///
/// `Io` with what a read or a write answered, and those of `made_bytes`.
pub fn patch_store<S: Store, P: Probe>(
    alloc: Global,
    store: &mut S,
    plan: &Plan,
    probe: &P,
) -> Result<(), ElfCommandError>
    ensures patched { OnOk result (IsPatched (P.may_find probe.now) (plan_model plan.now)
        (S.contents store.old) (S.contents store.new)) }
    ensures idle { AsksNothing (plan_model plan.now) → IsOkAndSame result store.old store.new }
    ensures left { IfErr result (FailsPatch
        (WritesEnd S.may_fail_write S.may_take_none (S.failed store.old) (S.failed store.new))
        (P.may_find probe.now) (plan_model plan.now)
        (S.contents store.old) (S.contents store.new)) }
    ensures cause { IfErr result (HasCause S.may_fail_read S.may_fail_write S.may_take_none
        (S.contents store.old) (S.failed store.old) (S.failed store.new)) }
{
    if asks_nothing(plan) {
        return Ok(());
    }
    let bytes = load(alloc, store)?;
    let new = made_bytes(alloc, bytes.as_slice(), plan, probe)?;
    write_made(
        alloc,
        store,
        bytes.as_slice(),
        left_of(bytes.as_slice(), &new),
    )
}

/// The bytes that there are after an answer that has new ones, or none.
fn left_of<'b>(bytes: &'b [u8], new: &'b Option<Vec<u8>>) -> &'b [u8]
    ensures { result.now ≡ bytes_left bytes.entry.now new.entry.now }
{
    match new {
        Some(new) => new.as_slice(),
        None => bytes,
    }
}

/// Turns the bytes of a store into others, and opens it for writing even where they are the same.
fn write_made<S: Store>(
    alloc: Global,
    store: &mut S,
    bytes: &[u8],
    made: &[u8],
) -> Result<(), ElfCommandError>
    requires { IsAll (S.contents store.old) bytes.now }
    ensures written { OnOk result
        (Becomes (λ _. made.now) (S.contents store.old) (S.contents store.new)) }
    ensures left { IfErr result (IsUnwritten
        (WritesEnd S.may_fail_write S.may_take_none (S.failed store.old) (S.failed store.new))
        bytes.now made.now (S.contents store.old) (S.contents store.new)) }
    ensures cause { IfErr result (HasWriteCause S.may_fail_write S.may_take_none
        (S.failed store.old) (S.failed store.new)) }
{
    store.open_for_writing()?;
    Ok(replace(alloc, store, bytes, made)?)
}

/// Whether a plan asks for nothing.
fn asks_nothing(plan: &Plan) -> bool
    ensures yes { IsTrue result → AsksNothing (plan_model plan.now) }
    ensures no { AsksNothing (plan_model plan.now) → IsTrue result }
{
    plan.shrinks.is_none() && plan.edits().is_empty()
}
