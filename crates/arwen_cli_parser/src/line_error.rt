//! Why a line's words are no command to do, and what is said then.
ghost use Rattle.std.specs.Prelude.{◌≡◌, None, Some, IfErr, IfOk, MatchResult};
ghost use Rattle.arwen_cli_parser.specs.Asked.{asked_status};
ghost use Rattle.arwen_cli_parser.specs.declared.line_error.LineError.TheVariants.{Memory};

use std::alloc::{AllocError, AllocFailed, Global};

/// Why a line's words are no command to do.
#[derive(Drop)]
pub enum LineError {
    /// The line is wrong, or asks for help.
    Text {
        /// The text to print, with its line ends.
        text: String,
        /// The status to end with: 0 for help, else 2.
        status: u8,
    },
    /// There was no memory.
    Memory,
}

impl From<AllocError> for LineError {
    ghost from_gives = { λ _ answer. answer ≡ Memory };

    fn from(_error: AllocError) -> LineError {
        LineError::Memory
    }
}

impl<T: Drop> From<AllocFailed<T>> for LineError {
    ghost from_gives = { λ _ answer. answer ≡ Memory };

    fn from(_error: AllocFailed<T>) -> LineError {
        LineError::Memory
    }
}

/// What the program says where no command is named.
pub const USAGE: &str = "Patches finished Mach-O and ELF files, and prints what ELF files say.

Usage: arwen <COMMAND>

Commands:
  macho  Edit a Mach-O file (`arwen help macho` lists the edits)
  elf    Edit or print an ELF file (`arwen help elf` lists the commands)
  show   Tell what files are, and what they ask of a loader
  help   Print this text, or the help of the command behind it

Lines of other tools:
  patchelf           Take a line of patchelf 0.18 (`--help` behind it lists the options)
  install-name-tool  Take a line of install_name_tool (`--help` behind it lists the options)

Options:
  -q, --quiet    Leave out notes; also behind the command's name
  -h, --help     Print this text
  -V, --version  Print the version
";

/// The usage text, as the fault of a line.
pub fn usage(alloc: Global, status: u8) -> Result<LineError, AllocError>
    ensures { IfOk result (λ fault. asked_status fault ≡ Some status) }
{
    line_of(alloc, USAGE, status)
}

/// A fault of a line, or want of memory for it.
pub fn or_memory(fault: Result<LineError, AllocError>) -> LineError
    ensures { MatchResult fault (λ fault. result ≡ fault) (λ _. result ≡ LineError.Memory) }
{
    match fault {
        Ok(fault) => fault,
        Err(_) => LineError::Memory,
    }
}

/// A value, or the usage text as the fault of a line where there is none.
pub fn or_usage<T>(alloc: Global, value: Option<T>) -> Result<T, LineError>
    ensures ok { IfOk result (λ found. value ≡ Some found) }
    ensures none { IfErr result (λ _. value ≡ None) }
{
    match value {
        Some(value) => Ok(value),
        None => Err(or_memory(usage(alloc, 2))),
    }
}

/// A text, as the fault of a line.
pub fn line_of(alloc: Global, text: &str, status: u8) -> Result<LineError, AllocError>
    ensures { IfOk result (λ fault. asked_status fault ≡ Some status) }
{
    let text = String::from_str(alloc, text)?;
    Ok(LineError::Text { text, status })
}
