//! Why files aren't edited, in words.
ghost use Rattle.std.specs.Prelude.{◌≡◌, [], IfOk, string_bytes};
ghost use Rattle.arwen_cli_faults.specs.Fault.{answer_to_elf_command, answer_to_macho_command};
ghost use Rattle.arwen_cli_faults.specs.Telling.{IsFileFault};
ghost use Rattle.arwen_cli_patchelf.specs.Plans.{plan_model};
ghost use Rattle.arwen_cli_tools.specs.Causes.{IsElfFaultLine, IsNamesFaultLine, TellsCommand, TellsEdits, TellsElf, TellsNames, TellsRefused, absent_words as absent_told};

use crate::ending::{joined, three};
use arwen_cli_faults::{ArwenError, causes_text, file_fault_line, file_line};
use arwen_cli_install_names::NamesError;
use arwen_cli_patchelf::commands::ElfCommandError;
use arwen_cli_patchelf::commands::files::ElfBatchError;
use arwen_cli_patchelf::{PatchelfError, Plan, Print};
use command_words::FileBytes;
use macho_commands::MachoCommandError;
use std::alloc::{AllocError, Global};

/// The line that tells why not all is done that a line of patchelf asks of the file at a path: the causes, and in brackets
/// what the last one leaves open, for which the file is read again.
pub(crate) fn elf_fault_line<F: FileBytes>(
    alloc: Global,
    files: &F,
    plan: &Plan,
    path: &str,
    error: PatchelfError,
) -> Result<String, AllocError>
    ensures { IfOk result (λ line. IsElfFaultLine (plan_model plan.now)
        (F.contents files.now path.now) path.now error (string_bytes line)) }
{
    let told = match error {
        PatchelfError::Absent(print) => file_line(alloc, path, absent_words(print), &None),
        PatchelfError::Command(error) => command_line(alloc, files, plan, path, error),
    };
    joined(alloc, "patchelf: ", told?.as_str())
}

/// What a file has no place for that lacks this print.
fn absent_words(print: Print) -> &'static str
    ensures { result.now ≡ absent_told print }
{
    match print {
        Print::Interpreter => "no interpreter",
        _ => "no dynamic section",
    }
}

/// What is told where the edits of a plan aren't made.
fn command_line<F: FileBytes>(
    alloc: Global,
    files: &F,
    plan: &Plan,
    path: &str,
    error: ElfCommandError,
) -> Result<String, AllocError>
    ensures { IfOk result (λ told. TellsCommand (plan_model plan.now)
        (F.contents files.now path.now) path.now error (string_bytes told)) }
{
    match error {
        ElfCommandError::ElfBatch(refused) => refused_line(alloc, plan, path, refused),
        error => edits_line(alloc, files, plan, path, error),
    }
}

/// What is told of an edit of a plan that is refused: the option that asks for it, and why.
fn refused_line(
    alloc: Global,
    plan: &Plan,
    path: &str,
    refused: ElfBatchError,
) -> Result<String, AllocError>
    ensures { IfOk result (λ told. TellsRefused (plan_model plan.now)
        path.now refused.index refused.fault (string_bytes told)) }
{
    let option = plan.option_of(refused.index);
    let fault = ArwenError::from(ElfCommandError::Elf(refused.fault));
    let why = causes_text(alloc, &fault);
    drop(fault);
    let causes = three(alloc, option, ": ", why?.as_str())?;
    file_line(alloc, path, causes.as_str(), &None)
}

/// What is told of a fault of the edits of a plan.
fn edits_line<F: FileBytes>(
    alloc: Global,
    files: &F,
    plan: &Plan,
    path: &str,
    error: ElfCommandError,
) -> Result<String, AllocError>
    ensures { IfOk result (λ told. TellsEdits (plan_model plan.now)
        (F.contents files.now path.now) path.now error (string_bytes told)) }
{
    let fault = ArwenError::from(error);
    let told = file_fault_line(alloc, files, path, plan.edits(), &fault);
    drop(fault);
    told
}

/// The line that tells why the Mach-O file at a path isn't edited: the causes, and in brackets what the last one leaves open,
/// for which the file is read again.
pub(crate) fn names_fault_line<F: FileBytes>(
    alloc: Global,
    files: &F,
    path: &str,
    error: NamesError,
) -> Result<String, AllocError>
    ensures { IfOk result (λ line. IsNamesFaultLine (F.contents files.now path.now)
        path.now error (string_bytes line)) }
{
    let told = names_line(alloc, files, path, error)?;
    joined(alloc, "install_name_tool: ", told.as_str())
}

/// What is told where a Mach-O file isn't edited.
fn names_line<F: FileBytes>(
    alloc: Global,
    files: &F,
    path: &str,
    error: NamesError,
) -> Result<String, AllocError>
    ensures { IfOk result (λ told. TellsNames (F.contents files.now path.now)
        path.now error (string_bytes told)) }
{
    match error {
        NamesError::Unlike => file_line(alloc, path, "its slices need unlike edits", &None),
        NamesError::Command(error) => macho_line(alloc, files, path, error),
    }
}

/// What is told where a command for Mach-O files isn't done.
fn macho_line<F: FileBytes>(
    alloc: Global,
    files: &F,
    path: &str,
    error: MachoCommandError,
) -> Result<String, AllocError>
    ensures { IfOk result (λ told. IsFileFault (F.contents files.now path.now) [] path.now
        (answer_to_macho_command error) (string_bytes told)) }
{
    let fault = ArwenError::from(error);
    let told = file_fault_line(alloc, files, path, &[], &fault);
    drop(fault);
    told
}
