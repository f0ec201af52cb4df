//! Lines of patchelf, run.
ghost use Rattle.std.specs.Prelude.{◌≡◌, IfErr, IfOk, OnOk, map, option_map, string_bytes};
ghost use Rattle.arwen_cli_patchelf.specs.Counted.{sink_failures, sink_inner};
ghost use Rattle.arwen_cli_patchelf.specs.Patched.{TellsPlanPath};
ghost use Rattle.arwen_cli_patchelf.specs.Printing.{IfCommand, PrintsAll, TellsPrints};
ghost use Rattle.arwen_cli_patchelf.specs.Plans.{plan_model};
ghost use Rattle.arwen_cli_tools.specs.Answered.{IsAnswered, IsEditAnswered, IsOutputAnswered, IsPrintAnswered, known_files, known_outputs};
ghost use Rattle.arwen_cli_tools.specs.Runs.{CanBeMade, EndsFiles, IsDone, IsFaultEnding, Stops};

use crate::causes::elf_fault_line;
use crate::ending::Ending;
use arwen_cli_patchelf::commands::ElfCommandError;
use arwen_cli_patchelf::commands::elf::Probe;
use arwen_cli_patchelf::commands::files::CountedWrite;
use arwen_cli_patchelf::{
    NotWritten, PatchelfError, Plan, Print, patch_path, print_path, write_path,
};
use byte_store::{Creates, Opens};
use command_words::{FileBytes, NotDone};
use std::alloc::{AllocError, Global};

/// Does what a line asks of the files at these paths, in order, and answers how it ends. Of each it prints first what is
/// asked for, and then makes the plan: in place, or at the path of the output. The first of which not all is done ends it,
/// with a line that names it and the causes, for which it is read once more. Error: `AllocError`, where there was no memory for
/// that line.
pub fn files_ending<'p, F: Opens<'p>, C: Creates<'p>, B: FileBytes, P: Probe, W: CountedWrite>(
    alloc: Global,
    files: &F,
    outputs: &C,
    reader: &B,
    paths: &'p [String],
    prints: &[Print],
    plan: &Plan,
    output: Option<&'p str>,
    probe: &P,
    out: &mut W,
) -> Result<Ending, AllocError>
    ensures { IfOk result (EndsFiles W.contents W.failed (P.may_find probe.now) prints.now
        (plan_model plan.now) (F.contents files.now) (IsAnswered
        (known_files (F.contents files.now) (F.may_fail files.now) F.Opened.may_fail_read
        F.Opened.may_fail_write F.Opened.may_take_none F.Opened.failed)
        (known_outputs (C.may_fail outputs.now) C.is_new C.Created.contents
        sink_inner sink_failures)
        (P.may_find probe.now) (plan_model plan.now) (option_map (λ path. path.now) output.entry))
        (B.contents reader.now) (map string_bytes paths.now) out.old out.new) }
{
    for path in paths {
        let path = path.as_str();
        match run_file(
            alloc, files, outputs, path, prints, plan, output, probe, out,
        ) {
            Ok(()) => {}
            Err(error) => return fault_ending(alloc, reader, plan, path, error),
        }
    }
    Ok(Ending::Done)
}

/// How a line ends by the fault of the file at a path.
fn fault_ending<B: FileBytes>(
    alloc: Global,
    reader: &B,
    plan: &Plan,
    path: &str,
    error: PatchelfError,
) -> Result<Ending, AllocError>
    ensures { IfOk result (IsFaultEnding (plan_model plan.now) (B.contents reader.now path.now)
        path.now error) }
{
    let line = elf_fault_line(alloc, reader, plan, path, error)?;
    Ok(Ending::Failed(line))
}

/// Does what a line asks of the file at a path.
fn run_file<'p, F: Opens<'p>, C: Creates<'p>, P: Probe, W: CountedWrite>(
    alloc: Global,
    files: &F,
    outputs: &C,
    path: &'p str,
    prints: &[Print],
    plan: &Plan,
    output: Option<&'p str>,
    probe: &P,
    out: &mut W,
) -> Result<(), PatchelfError>
    ensures done { OnOk result (IsDone (P.may_find probe.now) prints.now (plan_model plan.now)
        (F.contents files.now) path.now (W.contents out.old) (W.contents out.new)) }
    ensures stopped { IfErr result (Stops W.contents W.failed (P.may_find probe.now) prints.now
        (plan_model plan.now) (F.contents files.now) (IsAnswered
        (known_files (F.contents files.now) (F.may_fail files.now) F.Opened.may_fail_read
        F.Opened.may_fail_write F.Opened.may_take_none F.Opened.failed)
        (known_outputs (C.may_fail outputs.now) C.is_new C.Created.contents
        sink_inner sink_failures)
        (P.may_find probe.now) (plan_model plan.now) (option_map (λ path. path.now) output.entry))
        path.now out.old out.new) }
{
    print_file(alloc, files, path, prints, out)?;
    match output {
        Some(output) => Ok(write_file(alloc, files, outputs, path, output, plan, probe)?),
        None => Ok(edit_file(alloc, files, path, plan, probe)?),
    }
}

/// Prints what a line asks of the file at a path.
fn print_file<'p, O: Opens<'p>, W: CountedWrite>(
    alloc: Global,
    files: &O,
    path: &'p str,
    prints: &[Print],
    out: &mut W,
) -> Result<(), PatchelfError>
    ensures printed { OnOk result (PrintsAll prints.now (O.contents files.now path.now)
        (W.contents out.old) (W.contents out.new)) }
    ensures tells { IfErr result (TellsPrints W.contents W.failed prints.now
        (O.contents files.now path.now) out.old out.new) }
    ensures cause { IfErr result (IfCommand (IsPrintAnswered
        (known_files (O.contents files.now) (O.may_fail files.now) O.Opened.may_fail_read
        O.Opened.may_fail_write O.Opened.may_take_none O.Opened.failed)
        path.now)) }
{
    match print_path(alloc, files, path, prints, out) {
        Ok(_) => Ok(()),
        Err(NotDone { error, store }) => {
            drop(store);
            Err(error)
        }
    }
}

/// Writes the bytes of a file, with its plan made, to the path of the output.
fn write_file<'p, F: Opens<'p>, C: Creates<'p>, P: Probe>(
    alloc: Global,
    files: &F,
    outputs: &C,
    path: &'p str,
    output: &'p str,
    plan: &Plan,
    probe: &P,
) -> Result<(), ElfCommandError>
    ensures made { OnOk result (CanBeMade (P.may_find probe.now) (plan_model plan.now)
        (F.contents files.now path.now)) }
    ensures tells { IfErr result (TellsPlanPath (P.may_find probe.now) (plan_model plan.now)
        (F.contents files.now path.now)) }
    ensures cause { IfErr result (IsOutputAnswered
        (known_files (F.contents files.now) (F.may_fail files.now) F.Opened.may_fail_read
        F.Opened.may_fail_write F.Opened.may_take_none F.Opened.failed)
        (known_outputs (C.may_fail outputs.now) C.is_new C.Created.contents
        sink_inner sink_failures)
        (P.may_find probe.now) (plan_model plan.now) output.now path.now) }
{
    match write_path(alloc, files, path, outputs, output, plan, probe) {
        Ok(_) => Ok(()),
        Err(refused) => Err(error_in(refused)),
    }
}

/// The error for which a plan isn't written to another file.
fn error_in<S: Drop, W: Drop>(refused: NotDone<S, NotWritten<W>>) -> ElfCommandError
    ensures { result ≡ refused.error.error }
{
    let NotDone { error, store } = refused;
    drop(store);
    error.error
}

/// Makes a plan in the file at a path. One that asks for nothing opens it for reading all the same.
fn edit_file<'p, O: Opens<'p>, P: Probe>(
    alloc: Global,
    files: &O,
    path: &'p str,
    plan: &Plan,
    probe: &P,
) -> Result<(), ElfCommandError>
    ensures made { OnOk result (CanBeMade (P.may_find probe.now) (plan_model plan.now)
        (O.contents files.now path.now)) }
    ensures tells { IfErr result (TellsPlanPath (P.may_find probe.now) (plan_model plan.now)
        (O.contents files.now path.now)) }
    ensures cause { IfErr result (IsEditAnswered
        (known_files (O.contents files.now) (O.may_fail files.now) O.Opened.may_fail_read
        O.Opened.may_fail_write O.Opened.may_take_none O.Opened.failed)
        path.now) }
{
    match patch_path(alloc, files, path, plan, probe) {
        Ok(Some(_)) => Ok(()),
        Ok(None) => {
            files.open(path)?;
            Ok(())
        }
        Err(NotDone { error, store }) => {
            drop(store);
            Err(error)
        }
    }
}
