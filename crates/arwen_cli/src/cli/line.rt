//! What the words of a line mean.
ghost use Rattle.std.specs.Prelude.{◌≡◌, None, Some, codes, false, IfErr, IfOk, MatchResult, map};
ghost use Rattle.arwen_cli.specs.Fault.{IsOfLine, answer_to_line};
ghost use Rattle.arwen_cli.specs.Meaning.{Meaning};
ghost use Rattle.command_words.specs.Rows.{given_model, meant_with};
ghost use Rattle.arwen_cli_faults.specs.Meaning.{elf_lines, elf_command_model, reading_of};
ghost use Rattle.macho_commands.specs.Meaning.{macho_lines};
ghost use Rattle.macho_commands.specs.Meaning.{macho_command_model};
ghost use Rattle.arwen_cli.specs.Meaning.{shown};
ghost use Rattle.arwen_cli.specs.Line.{meaning_of};
ghost use Rattle.arwen_cli_parser.specs.Asked.{has_option};
ghost use Rattle.arwen_cli.specs.Moving.{MeansMoving, takes_leave as takes_the_leave};
ghost use Rattle.arwen_cli_faults.specs.Args.{ShowMeaning, meaning_of_args, args_model};
ghost use Rattle.arwen_cli_parser.specs.Parser.{MayRefuse, MayRefuseReading, MayRefuseTaken, MeansBy, MeansTaken};

use crate::cli::build::BUILT;
use crate::cli::{ArwenError, Command, ElfCommand, MachoCommand};
use arwen_cli_faults::commands::{elf, elf_table};
use arwen_cli_faults::show::{Args, ArgsFault, HELP, parse_args};
use arwen_cli_options::{is_moved_by, without_move, without_quiet, without_sign};
use arwen_cli_parser::{
    First, LineError, USAGE, line_of, or_memory, or_usage, parse_values, usage,
};
use command_words::{ValueError, Values, find_row};
use macho_commands::macho_table;
use std::alloc::{AllocError, Global};

/// The program's name and its version, the first line that `--version` prints.
const VERSION: &str = "arwen 0.1.0, port of arwen 0.0.5\n";

/// The first word of the commands for Mach-O files.
const MACHO: First = First {
    word: "macho",
    shown_as: "arwen macho",
    about: "Edit a Mach-O file",
};

/// The first word of the commands for ELF files.
const ELF: First = First {
    word: "elf",
    shown_as: "arwen elf",
    about: "Edit or print an ELF file",
};

/// The command that a line's words mean, those behind the program's name. A line that asks for help,
/// and one that is wrong, is answered by `ArwenError::Line` with the text to print. Words `-q` and `--quiet` are passed
/// over, and `--sign` where the first word is `macho`. A word `--move-dynamic` where the first word is `elf` gives the edit
/// leave that the dynamic section moves: it is made as `apply` makes it.
pub fn parse_line(alloc: Global, words: &[&str]) -> Result<Command, ArwenError>
    ensures means { IfOk result (λ command. has_option (map (λ w. w.now) words.now) ≡ false
        → meaning_of (map (λ w. w.now) words.now) ≡ Some (shown command)) }
    ensures refused { IfErr result (λ error. has_option (map (λ w. w.now) words.now) ≡ false
        → (meaning : Meaning) → meaning_of (map (λ w. w.now) words.now) ≡ Some meaning
        → error ≡ ArwenError.Memory) }
    ensures err { IfErr result (λ error. IsOfLine error) }
{
    match read_line(alloc, words) {
        Ok(command) => Ok(command),
        Err(error) => Err(line_answer(error)),
    }
}

/// What the program answers for a line that means no command.
fn line_answer(error: LineError) -> ArwenError
    ensures { result ≡ answer_to_line error }
{
    match error {
        LineError::Text { text, status } => ArwenError::Line { text, status },
        LineError::Memory => ArwenError::Memory,
    }
}

/// The command that a line's words mean, or why they are none.
pub(crate) fn read_line(alloc: Global, words: &[&str]) -> Result<Command, LineError>
    ensures means { IfOk result (λ command. has_option (map (λ w. w.now) words.now) ≡ false
        → meaning_of (map (λ w. w.now) words.now) ≡ Some (shown command)) }
    ensures refused { IfErr result (λ error. has_option (map (λ w. w.now) words.now) ≡ false
        → (meaning : Meaning) → meaning_of (map (λ w. w.now) words.now) ≡ Some meaning
        → error ≡ LineError.Memory) }
{
    let audible = without_quiet(alloc, words)?;
    let heard = without_sign(alloc, audible.as_slice())?;
    parse_audible(alloc, heard.as_slice())
}

/// The same of words without `-q` and `--sign`.
fn parse_audible(alloc: Global, words: &[&str]) -> Result<Command, LineError>
    ensures means { IfOk result (λ command. has_option (map (λ w. w.now) words.now) ≡ false
        → meaning_of (map (λ w. w.now) words.now) ≡ Some (shown command)) }
    ensures refused { IfErr result (λ error. has_option (map (λ w. w.now) words.now) ≡ false
        → (meaning : Meaning) → meaning_of (map (λ w. w.now) words.now) ≡ Some meaning
        → error ≡ LineError.Memory) }
{
    if is_moved_by(words) {
        return Ok(Command::Elf(parse_moving(alloc, words)?));
    }
    parse_heard(alloc, words)
}

/// The command of a line of an ELF file with `--move-dynamic`; where `apply` has no words for it, the parser tells that it has no
/// such option.
fn parse_moving(alloc: Global, words: &[&str]) -> Result<ElfCommand, LineError>
    ensures { IfOk result (λ command.
        MeansMoving (map (λ w. w.now) words.now) (elf_command_model command)) }
{
    let heard = without_move(alloc, words)?;
    let (name, values) = parse_values(alloc, ELF, elf_table(), heard.as_slice())?;
    if !takes_leave(name) {
        return Err(no_leave(alloc, words));
    }
    let command = ElfCommand::with_leave(alloc, name, values)?;
    or_usage(alloc, command)
}

/// Whether the command of a name is `apply`, or an edit that it takes.
fn takes_leave(name: &str) -> bool
    ensures { result ≡ takes_the_leave name.now }
{
    if name == elf::apply::NAME {
        return true;
    }
    match find_row(elf_table(), name) {
        Some(row) => row.is_edit,
        None => false,
    }
}

/// The fault of a line with an option that its command doesn't have.
fn no_leave(alloc: Global, words: &[&str]) -> LineError {
    match parse_elf(alloc, words) {
        Ok(_) => or_memory(usage(alloc, 2)),
        Err(fault) => fault,
    }
}

/// The same of words without `--move-dynamic` too.
fn parse_heard(alloc: Global, words: &[&str]) -> Result<Command, LineError>
    ensures means { IfOk result (λ command. has_option (map (λ w. w.now) words.now) ≡ false
        → meaning_of (map (λ w. w.now) words.now) ≡ Some (shown command)) }
    ensures refused { IfErr result (λ error. has_option (map (λ w. w.now) words.now) ≡ false
        → (meaning : Meaning) → meaning_of (map (λ w. w.now) words.now) ≡ Some meaning
        → error ≡ LineError.Memory) }
{
    let Some(first) = words.first() else {
        return Err(usage(alloc, 2)?);
    };
    match *first {
        "macho" => Ok(Command::Macho(parse_macho(alloc, words)?)),
        "elf" => Ok(Command::Elf(parse_elf(alloc, words)?)),
        "show" => Ok(Command::Show(parse_show(alloc, &words[1..])?)),
        word => Err(or_memory(other_line(alloc, word, words))),
    }
}

/// The answer to a line that names no command by its first word.
fn other_line(alloc: Global, first: &str, words: &[&str]) -> Result<LineError, AllocError> {
    match first {
        "help" => help(alloc, words.get(1)),
        "-h" | "--help" => usage(alloc, 0),
        "-V" | "--version" => version(alloc),
        _ => unknown_word(alloc, first),
    }
}

/// The answer to `--version`: name and version, and how the program was built.
fn version(alloc: Global) -> Result<LineError, AllocError> {
    let text = format!(in alloc; "{VERSION}{BUILT}")?;
    Ok(LineError::Text { text, status: 0 })
}

/// The help that a line asks for by `help`, with the word behind it.
fn help(alloc: Global, topic: Option<&&str>) -> Result<LineError, AllocError> {
    match topic {
        Some(word) if *word == "macho" => help_of(alloc, parse_macho(alloc, &["macho", "--help"])),
        Some(word) if *word == "elf" => help_of(alloc, parse_elf(alloc, &["elf", "--help"])),
        Some(word) if *word == "show" => line_of(alloc, HELP, 0),
        Some(word) => unknown_word(alloc, word),
        None => usage(alloc, 0),
    }
}

/// The help that a parse answered.
fn help_of<T: Drop>(alloc: Global, answer: Result<T, LineError>) -> Result<LineError, AllocError> {
    match answer {
        Ok(_) => usage(alloc, 0),
        Err(fault) => Ok(fault),
    }
}

/// The answer to a word that is no first word of a line.
fn unknown_word(alloc: Global, word: &str) -> Result<LineError, AllocError> {
    let text = format!(in alloc; "error: unrecognized command '{word}'\n\n{USAGE}")?;
    Ok(LineError::Text { text, status: 2 })
}

/// The command of a line whose first word is `macho`.
fn parse_macho(alloc: Global, words: &[&str]) -> Result<MachoCommand, LineError>
    ensures means { IfOk result (λ command. MeansBy (codes "macho") macho_lines
        (map (λ w. w.now) words.now) (macho_command_model command)) }
    ensures refused { IfErr result (MayRefuse (codes "macho") macho_lines
        (map (λ w. w.now) words.now)) }
{
    let (name, values) = parse_values(alloc, MACHO, macho_table(), words)?;
    or_usage(alloc, MachoCommand::with_values(name, values))
}

/// The command of a line whose first word is `elf`. A value that is not what the command takes, as
/// a page size that is no number, is a fault of the line.
fn parse_elf(alloc: Global, words: &[&str]) -> Result<ElfCommand, LineError>
    ensures means { IfOk result (λ command. MeansTaken (codes "elf") elf_lines
        (map (λ w. w.now) words.now) (elf_command_model command)) }
    ensures refused { IfErr result (MayRefuseTaken (codes "elf") elf_lines
        (map (λ w. w.now) words.now)) }
{
    let (name, values) = parse_values(alloc, ELF, elf_table(), words)?;
    elf_command(alloc, name, values)
}

/// What a line asks for whose first word is `show`, by the words behind it.
fn parse_show(alloc: Global, words: &[&str]) -> Result<Args, LineError>
    ensures means { IfOk result (λ args.
        meaning_of_args (map (λ w. w.now) words.now) ≡ Some (args_model args)) }
    ensures refused { IfErr result (λ error. (meaning : ShowMeaning)
        → meaning_of_args (map (λ w. w.now) words.now) ≡ Some meaning → error ≡ LineError.Memory) }
{
    match parse_args(alloc, words) {
        Ok(args) => Ok(args),
        Err(fault) => Err(no_args(alloc, fault)),
    }
}

/// The answer to words behind `show` that ask for no file to be shown.
fn no_args(alloc: Global, fault: ArgsFault<'_>) -> LineError
    ensures { fault.entry ≡ ArgsFault.Memory → result ≡ LineError.Memory }
{
    match fault {
        ArgsFault::Memory => LineError::Memory,
        fault => or_memory(args_line(alloc, &fault)),
    }
}

/// What is said of such words.
fn args_line(alloc: Global, fault: &ArgsFault<'_>) -> Result<LineError, AllocError> {
    let text = format!(in alloc; "{fault}")?;
    let status = fault.status();
    Ok(LineError::Text { text, status })
}

/// The command for ELF files of a name with its values.
fn elf_command(alloc: Global, name: &str, values: Values) -> Result<ElfCommand, LineError>
    ensures means { IfOk result (λ command.
        meant_with elf_lines name.now (given_model values) ≡ Some (reading_of command)) }
    ensures refused { IfErr result
        (MayRefuseReading (meant_with elf_lines name.now (given_model values))) }
{
    match ElfCommand::with_values(alloc, name, values) {
        Ok(command) => or_usage(alloc, command),
        Err(error) => Err(no_value(alloc, error)),
    }
}

/// The answer to values that are not what a command takes.
fn no_value(alloc: Global, error: ValueError) -> LineError
    ensures { error ≡ ValueError.Memory → result ≡ LineError.Memory }
{
    match error {
        ValueError::Memory => LineError::Memory,
        fault => or_memory(value_line(alloc, &fault)),
    }
}

/// What is said of such values.
fn value_line(alloc: Global, fault: &ValueError) -> Result<LineError, AllocError> {
    let text = format!(in alloc; "error: {fault}\n")?;
    Ok(LineError::Text { text, status: 2 })
}
