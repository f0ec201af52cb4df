//! What is said of lines that aren't run.
ghost use Rattle.std.specs.Prelude.{◌≡◌, IfOk, codes, string_bytes};
ghost use Rattle.arwen_cli_install_names.specs.Line.{name_refused_model};
ghost use Rattle.arwen_cli_patchelf_lines.specs.Refusals.{refused_model};
ghost use Rattle.arwen_cli_tools.specs.Texts.{EndsUnread, EndsUnreadNames, EndsWords, TellsCause, TellsIo, TellsValue, map_line, map_words as words_of_map, name_refusal_line, refusal_line};

use crate::ending::{Ending, joined, three};
use arwen_cli_install_names::{NameLineError, NameRefused};
use arwen_cli_options::LineFault;
use arwen_cli_patchelf_lines::{LineError, MapWrong, Refused, ValueCause, ValueRefused};
use std::alloc::{AllocError, Global};
use std::io;

/// What is said in the name of a tool.
#[derive(Clone, Copy)]
pub(crate) struct Sayings {
    /// The tool's name.
    pub(crate) name: &'static str,
    /// How it is called, and its options.
    pub(crate) help: &'static str,
    /// Its version.
    pub(crate) version: &'static str,
}

/// What is said in patchelf's name.
const PATCHELF: Sayings = Sayings {
    name: "patchelf",
    help: "Usage: patchelf OPTION.. FILE..

Prints what ELF files tell a loader, and then edits each of them in its place.
All edits of a line are made of a file, or none.

Prints, to the standard output:
  --print-interpreter            the interpreter
  --print-os-abi                 the ABI
  --print-soname                 the library's own name
  --print-rpath                  the run path
  --print-needed                 the needed libraries
  --print-execstack              whether the stack may be run

Edits:
  --set-interpreter PATH         set the interpreter (also --interpreter)
  --set-os-abi ABI               set the ABI
  --set-soname NAME              set the library's own name
  --set-rpath PATH               set the run path
  --add-rpath PATH               add to the run path
  --remove-rpath                 remove the run path
  --shrink-rpath                 leave out directories without a needed library
  --allowed-rpath-prefixes LIST  with --shrink-rpath: leave out those that none
                                 of these begins, which colons separate
  --force-rpath                  keep the run path in DT_RPATH
  --add-needed NAME              add a needed library
  --remove-needed NAME           remove a needed library
  --replace-needed OLD NEW       rename a needed library
  --no-default-lib               leave out the default directories
  --add-debug-tag                add an entry for a debugger
  --clear-symbol-version NAME    let the symbol be of no version
  --rename-dynamic-symbols MAP   rename symbols, by a file with an old name and a
                                 new one on each line
  --clear-execstack              forbid that the stack is run
  --set-execstack                let the stack be run

Others:
  --output FILE                  write the edited file there
  --page-size SIZE, --no-sort, --debug
                                 passed over
  -h, --help                     print this text
  --version                      print the version

A value that begins with @ stands in the file that is named behind it.
--no-clobber-old-sections is absent.
",
    version: "patchelf 0.18.0: its options, by arwen 0.1.0\n",
};

/// What is said in install_name_tool's name.
const INSTALL_NAME_TOOL: Sayings = Sayings {
    name: "install_name_tool",
    help: "Usage: install_name_tool OPTION.. FILE

Edits the names and run paths of a Mach-O file in its place.
All edits of a line are made, or none: those of -prepend_rpath first, then
the others, both in the order of the line.

Options:
  -add_rpath PATH      add a run path
  -prepend_rpath PATH  add a run path in front
  -rpath OLD NEW       change a run path
  -delete_rpath PATH   remove a run path
  -delete_all_rpaths   remove all run paths
  -change OLD NEW      change the name by which a library is loaded
  -id NAME             change the library's own name
  -h, --help           print this text
  -V, --version        print the version
",
    version: "install_name_tool: its options, by arwen 0.1.0\n",
};

/// What is said in patchelf's name.
pub(crate) fn patchelf_says() -> Sayings
    ensures { result.name.now ≡ codes "patchelf" }
{
    PATCHELF
}

/// What is said in install_name_tool's name.
pub(crate) fn name_tool_says() -> Sayings
    ensures { result.name.now ≡ codes "install_name_tool" }
{
    INSTALL_NAME_TOOL
}

/// How a line of patchelf ends that isn't read. Error: `AllocError`, where there was no memory to read it or to tell why.
pub(crate) fn unread_line(
    alloc: Global,
    said: Sayings,
    error: &LineError<'_>,
) -> Result<Ending, AllocError>
    ensures { IfOk result (EndsUnread said error.now) }
{
    match error {
        LineError::Words(fault) => words_ending(alloc, said, fault),
        LineError::Refused(refused) => Ok(Ending::Failed(refused_line(alloc, refused)?)),
        LineError::Value(refused) => Ok(Ending::Failed(value_line(alloc, refused)?)),
        LineError::Memory => Err(AllocError),
    }
}

/// How a line of install_name_tool ends that isn't read. Error: `AllocError`, where there was no memory to read it or to tell
/// why.
pub(crate) fn unread_names(
    alloc: Global,
    said: Sayings,
    error: &NameLineError<'_>,
) -> Result<Ending, AllocError>
    ensures { IfOk result (EndsUnreadNames said error.now) }
{
    match error {
        NameLineError::Words(fault) => words_ending(alloc, said, fault),
        NameLineError::Refused(refused) => Ok(Ending::Failed(name_line(alloc, refused)?)),
    }
}

/// How a line of a tool ends whose words are no line to run.
fn words_ending(alloc: Global, said: Sayings, fault: &LineFault<'_>) -> Result<Ending, AllocError>
    ensures { IfOk result (EndsWords said fault.now) }
{
    match fault {
        LineFault::Help => Ok(Ending::Told(String::from_str(alloc, said.help)?)),
        LineFault::Version => Ok(Ending::Told(String::from_str(alloc, said.version)?)),
        LineFault::Unknown(word) => {
            Ok(Ending::Failed(three(alloc, said.name, ": unknown option ", *word)?))
        }
        LineFault::Missing(name) => {
            Ok(Ending::Failed(three(alloc, said.name, ": a value is missing behind ", *name)?))
        }
        LineFault::Memory => Err(AllocError),
    }
}

/// The line that tells why a line of patchelf is refused.
#[tactic(auto, unfolding(crate::specs::Texts::refusal_line))]
fn refused_line(alloc: Global, refused: &Refused) -> Result<String, AllocError>
    ensures { IfOk result (λ line. string_bytes line ≡ refusal_line (refused_model refused.now)) }
{
    match refused {
        Refused::Absent(name) => three(alloc, "patchelf: ", *name, " is absent here"),
        Refused::NoFile => String::from_str(alloc, "patchelf: no file is named"),
        Refused::SeveralFiles => String::from_str(alloc, "patchelf: --output takes one file"),
        Refused::SetAndAdd => {
            String::from_str(
                alloc,
                "patchelf: --set-rpath and --add-rpath exclude each other",
            )
        }
    }
}

/// The line that tells why a value wasn't read from its file.
fn value_line(alloc: Global, refused: &ValueRefused<'_>) -> Result<String, AllocError>
    ensures { IfOk result (λ line. TellsValue refused.now (string_bytes line)) }
{
    let cause = cause_text(alloc, &refused.cause)?;
    let of_file = three(alloc, refused.path, ": ", cause.as_str())?;
    let of_option = three(alloc, refused.option, ": ", of_file.as_str())?;
    joined(alloc, "patchelf: ", of_option.as_str())
}

/// Why a value wasn't read.
fn cause_text(alloc: Global, cause: &ValueCause) -> Result<String, AllocError>
    ensures { IfOk result (λ text. TellsCause cause.now (string_bytes text)) }
{
    match cause {
        ValueCause::Io(error) => io_text(alloc, error),
        ValueCause::NotText => String::from_str(alloc, "not UTF-8 text"),
        ValueCause::Map(wrong, line) => map_text(alloc, *wrong, *line),
        ValueCause::Memory => Err(AllocError),
    }
}

/// That a file isn't read, and why.
fn io_text(alloc: Global, error: &io::Error) -> Result<String, AllocError>
    ensures { IfOk result (λ text. TellsIo (string_bytes text)) }
{
    let why = format!(in alloc; "{error}")?;
    joined(alloc, "getting info about the file: ", why.as_str())
}

/// What is wrong with a line of a map of names.
fn map_text(alloc: Global, wrong: MapWrong, line: usize) -> Result<String, AllocError>
    ensures { IfOk result (λ text. string_bytes text ≡ map_line wrong line) }
{
    let number = line.to_string(alloc)?;
    let told = three(alloc, number.as_str(), ": ", map_words(wrong))?;
    joined(alloc, "line ", told.as_str())
}

/// What is wrong with a line of a map of names, in words.
fn map_words(wrong: MapWrong) -> &'static str
    ensures { result.now ≡ words_of_map wrong }
{
    match wrong {
        MapWrong::OneName => "an old name without a new one",
        MapWrong::Twice => "this old name stands on a line before",
        MapWrong::Version => "a name with a version",
    }
}

/// The line that tells why a line of install_name_tool is refused.
#[tactic(auto, unfolding(crate::specs::Texts::name_refusal_line))]
fn name_line(alloc: Global, refused: &NameRefused) -> Result<String, AllocError>
    ensures { IfOk result (λ line.
        string_bytes line ≡ name_refusal_line (name_refused_model refused.now)) }
{
    match refused {
        NameRefused::NoFile => String::from_str(alloc, "install_name_tool: no file is named"),
        NameRefused::SeveralFiles => {
            String::from_str(alloc, "install_name_tool: more than one file is named")
        }
    }
}
