//! Plans, made of the bytes of one file and written to another.
ghost use Rattle.std.specs.Prelude.{◌≡◌, None, IfErr, IfOk};
ghost use Rattle.std.specs.Io.KnownBytes.{Appends};
ghost use Rattle.byte_store.specs.Known.{Stays};
ghost use Rattle.elf_commands.specs.Counted.{sink_failures, sink_inner};
ghost use Rattle.elf_commands.specs.ElfCommandError.TheVariants.{Io};
ghost use Rattle.elf_commands.specs.ElfStores.{IsKeptAt};
ghost use Rattle.elf_commands.specs.Failures.{HasReadCause, HasReadCauseAt};
ghost use Rattle.arwen_cli_patchelf.specs.Plans.{plan_model};
ghost use Rattle.arwen_cli_patchelf.specs.Made.{IsMadeOf, TellsUnmade};
ghost use Rattle.arwen_cli_patchelf.specs.Output.{HasOutputCause, IsCutOff, StopsIn};
ghost use Rattle.arwen_cli_patchelf.specs.Patched.{HoldsBytes, HoldsKnown, IsMadeKnown, TellsPlanPath};

use crate::making::made_bytes;
use crate::plans::Plan;
use byte_store::{Creates, Store};
use command_words::{NotDone, OpensOnce, load};
use elf_commands::ElfCommandError;
use elf_commands::elf::Probe;
use elf_commands::files::{Sink, write_all_counted};
use std::alloc::Global;
use std::io;
use std::io::Write;

/// Why what a plan makes was not written to a new file.
#[derive(Drop)]
pub struct NotWritten<W> {
    /// The cause.
    pub error: ElfCommandError,
    /// The file, with the first of the bytes and the count of the writes that failed; none where no file was created.
    pub file: Option<Sink<W>>,
}

/// Makes a plan of the bytes of the store at a path, and writes them whole to a file that is created at another path, as
/// `write_store` does. The store and the file are handed back.
///
/// # Errors
///
/// Those of `write_store`, and `Io` with what the opening answered. The store that was opened comes with the error.
pub fn write_path<'p, O: OpensOnce<'p>, C: Creates<'p>, P: Probe>(
    alloc: Global,
    source: O,
    path: &'p str,
    files: &C,
    output: &'p str,
    plan: &Plan,
    probe: &P,
) -> Result<(O::Opened, C::Created), NotDone<O::Opened, NotWritten<C::Created>>>
    ensures written { IfOk result (λ done. HoldsKnown C.is_new (P.may_find probe.now)
        (plan_model plan.now) (O.contents source path.now) (C.Created.contents done.1)) }
    ensures kept { IfOk result (λ done.
        Stays (O.contents source path.now) (O.Opened.contents done.0)) }
    ensures tells { IfErr result (λ refused. TellsPlanPath (P.may_find probe.now)
        (plan_model plan.now) (O.contents source path.now) refused.error.error) }
    ensures left { IfErr result (λ refused. IsKeptAt (O.may_fail source path.now)
        O.Opened.contents (O.contents source path.now) refused.error.error refused.store) }
    ensures cause { IfErr result (λ refused. HasOutputCause (λ e. HasReadCauseAt
        (O.may_fail source path.now) O.Opened.may_fail_read O.Opened.failed
        (O.contents source path.now) e refused.store)
        (C.may_fail files.now output.now) C.is_new C.Created.contents
        sink_inner sink_failures (P.may_find probe.now) (plan_model plan.now)
        (O.contents source path.now) refused.error.error refused.error.file) }
{
    let mut store = match source.open_once(path) {
        Ok(store) => store,
        Err(error) => return Err(not_opened(error)),
    };
    match write_store(alloc, &mut store, files, output, plan, probe) {
        Ok(file) => Ok((store, file)),
        Err(error) => Err(NotDone {
            error,
            store: Some(store),
        }),
    }
}

/// The answer to an opening that failed.
fn not_opened<S, W>(error: io::Error) -> NotDone<S, NotWritten<W>>
    ensures error { result.error.error ≡ Io error }
    ensures file { result.error.file ≡ None }
    ensures store { result.store ≡ None }
{
    NotDone {
        error: not_created(error),
        store: None,
    }
}

/// The same where no file was created for this error.
fn not_created<W>(error: io::Error) -> NotWritten<W>
    ensures error { result.error ≡ Io error }
    ensures file { result.file ≡ None }
{
    NotWritten {
        error: ElfCommandError::Io(error),
        file: None,
    }
}

/// Makes a plan of the bytes of a store, which keeps them, and writes them whole to a file that is created at a path once all of
/// them are there, also where nothing is changed.
///
/// # Errors
///
/// `Io` with what a read, the creation or a write answered; the file comes with it where a write failed. The others tell
/// why the plan is not made, and create nothing.
pub fn write_store<'p, S: Store, C: Creates<'p>, P: Probe>(
    alloc: Global,
    store: &mut S,
    files: &C,
    output: &'p str,
    plan: &Plan,
    probe: &P,
) -> Result<C::Created, NotWritten<C::Created>>
    ensures written { IfOk result (λ file. HoldsKnown C.is_new (P.may_find probe.now)
        (plan_model plan.now) (S.contents store.old) (C.Created.contents file)) }
    ensures kept { Stays (S.contents store.old) (S.contents store.new) }
    ensures tells { IfErr result (λ refused. TellsPlanPath (P.may_find probe.now)
        (plan_model plan.now) (S.contents store.old) refused.error) }
    ensures cause { IfErr result (λ refused. HasOutputCause
        (HasReadCause S.may_fail_read (S.contents store.old)
        (S.failed store.old) (S.failed store.new))
        (C.may_fail files.now output.now) C.is_new C.Created.contents
        sink_inner sink_failures (P.may_find probe.now) (plan_model plan.now)
        (S.contents store.old) refused.error refused.file) }
{
    match made_of(alloc, store, plan, probe) {
        Ok(made) => write_new(files, output, made.as_slice()),
        Err(error) => Err(NotWritten { error, file: None }),
    }
}

/// The bytes that a plan makes of those of a store.
fn made_of<S: Store, P: Probe>(
    alloc: Global,
    store: &mut S,
    plan: &Plan,
    probe: &P,
) -> Result<Vec<u8>, ElfCommandError>
    ensures made { IfOk result (λ made. IsMadeKnown (P.may_find probe.now)
        (plan_model plan.now) (S.contents store.old) made.items) }
    ensures kept { Stays (S.contents store.old) (S.contents store.new) }
    ensures tells { IfErr result (TellsPlanPath (P.may_find probe.now)
        (plan_model plan.now) (S.contents store.old)) }
    ensures cause { IfErr result (HasReadCause S.may_fail_read (S.contents store.old)
        (S.failed store.old) (S.failed store.new)) }
{
    let bytes = load(alloc, store)?;
    made_whole(alloc, bytes, plan, probe)
}

/// All bytes that a plan makes of these.
fn made_whole<P: Probe>(
    alloc: Global,
    bytes: Vec<u8>,
    plan: &Plan,
    probe: &P,
) -> Result<Vec<u8>, ElfCommandError>
    ensures made { IfOk result (λ made. IsMadeOf (P.may_find probe.now) (plan_model plan.now)
        bytes.items made.items) }
    ensures err { IfErr result
        (TellsUnmade (P.may_find probe.now) (plan_model plan.now) bytes.items) }
{
    let new = made_bytes(alloc, bytes.as_slice(), plan, probe)?;
    match new {
        Some(made) => Ok(made),
        None => Ok(bytes),
    }
}

/// Creates a file, and writes bytes to it.
fn write_new<'p, C: Creates<'p>>(
    files: &C,
    path: &'p str,
    bytes: &[u8],
) -> Result<C::Created, NotWritten<C::Created>>
    ensures written { IfOk result (λ file.
        HoldsBytes C.is_new bytes.now (C.Created.contents file)) }
    ensures err { IfErr result (λ refused. IsCutOff (C.may_fail files.now path.now) C.is_new
        C.Created.contents sink_inner sink_failures bytes.now refused.error refused.file) }
{
    match files.create(path) {
        Ok(file) => write_whole(file, bytes),
        Err(error) => Err(not_created(error)),
    }
}

/// Writes all bytes to a file.
fn write_whole<W: Write + Drop>(file: W, bytes: &[u8]) -> Result<W, NotWritten<W>>
    ensures written { IfOk result (λ made.
        Appends (W.contents file) (W.contents made) bytes.now) }
    ensures err { IfErr result (λ refused. StopsIn W.contents sink_inner sink_failures
        bytes.now (W.contents file) refused.error refused.file) }
{
    let mut counted = Sink::new(file);
    match write_all_counted(bytes, &mut counted) {
        Ok(()) => Ok(counted.into_inner()),
        Err(error) => Err(NotWritten {
            error: ElfCommandError::Io(error),
            file: Some(counted),
        }),
    }
}
