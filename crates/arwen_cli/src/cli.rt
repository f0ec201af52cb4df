//! The command line: what the words of a line mean, and doing it.
ghost use Rattle.std.specs.Prelude.{◌≡◌, false, IfErr, IsSome, OnOk, map};
ghost use Rattle.arwen_cli.specs.Line.{ElfMayFail, LineMayFail, MachoMayFail, MeaningMayFail, ShowMayFail, meaning_of};
ghost use Rattle.arwen_cli_parser.specs.Asked.{has_option};
ghost use Rattle.arwen_cli.specs.Meaning.{shown};
ghost use Rattle.arwen_cli_options.specs.Lines.{notes_asked};
ghost use Rattle.arwen_cli.specs.Signing.{signing_asked};
ghost use Rattle.arwen_cli_faults.specs.Meaning.{elf_command_model};
ghost use Rattle.macho_commands.specs.Meaning.{macho_command_model};

mod build;
mod command;
mod file;
mod line;
mod telling;

pub use arwen_cli_faults::commands::elf::{
    FileProbe, Probe, edit_path, edit_store, print_path, print_store, run_elf, shrink_path,
    shrink_store,
};
pub use arwen_cli_faults::commands::{
    ElfCommand, ElfCommandError, GroupEdit, SymbolTexts, elf, parse_elf_edits, plain_edits,
};
use arwen_cli_faults::show::Args;
pub use arwen_cli_faults::{ArwenError, FaultLine, show};
use arwen_cli_options::{is_quiet, is_signed_by};
pub use command::Command;
pub use command_words::{
    EditFault, EditKind, EditsError, FileBytes, KeyValueError, MOST_BYTES, NotDone, Notes,
    RegularBytes, ValueError, parse_key_val,
};
pub use file::read_bytes;
pub use line::parse_line;
pub use macho_commands::{
    MachoCommand, MachoCommandError, Signing, add, apply, change, delete, install_id, install_name,
    macho_execute, macho_execute_telling, parse_macho_edits, patch_path, patch_store, run_macho,
    sign, verify, verify_bytes,
};
use std::rt::Files;
pub use telling::fault_line;

/// Does what the words behind the program's name ask. A line that asks for help, and one that is
/// wrong, is answered by `ArwenError::Line`. Notes go to the standard error once an edit is made, unless a word `-q` or
/// `--quiet` leaves them out. A word `--sign` on a line of a Mach-O file makes the code signatures of what is edited fit; a
/// word `--move-dynamic` on a line of an ELF file gives leave that its dynamic section moves, where it has no room.
pub fn execute<R: Files + Print + Eprint + AllocGlobal>(
    rt: &R,
    words: &[&str],
) -> Result<(), ArwenError>
    ensures ok { OnOk result (has_option (map (λ w. w.now) words.now) ≡ false
        → IsSome (meaning_of (map (λ w. w.now) words.now))) }
    ensures err { IfErr result (λ e. has_option (map (λ w. w.now) words.now) ≡ false
        → LineMayFail (meaning_of (map (λ w. w.now) words.now)) e) }
{
    let command = parse_line(rt.alloc(), words)?;
    execute_command(rt, command, notes_for(words), signing_for(words))
}

/// Whether the words of a line leave notes out. Takes no memory.
fn notes_for(words: &[&str]) -> Notes
    ensures { result ≡ notes_asked (map (λ w. w.now) words.now) }
{
    if is_quiet(words) {
        Notes::LeftOut
    } else {
        Notes::Wanted
    }
}

/// Whether the words of a line ask for signatures that fit. Takes no memory.
fn signing_for(words: &[&str]) -> Signing
    ensures { result ≡ signing_asked (map (λ w. w.now) words.now) }
{
    if is_signed_by(words) {
        Signing::Renewed
    } else {
        Signing::Left
    }
}

/// Does what a command asks.
fn execute_command<R: Files + Print + Eprint + AllocGlobal>(
    rt: &R,
    command: Command,
    notes: Notes,
    signing: Signing,
) -> Result<(), ArwenError>
    ensures { IfErr result (MeaningMayFail (shown command)) }
{
    match command {
        Command::Macho(macho) => execute_macho(rt, macho, notes, signing),
        Command::Elf(elf) => execute_elf(rt, elf, notes),
        Command::Show(args) => execute_show(rt, args),
    }
}

/// Does what is asked of a Mach-O file.
fn execute_macho<R: Files + Print + Eprint + AllocGlobal>(
    rt: &R,
    macho: MachoCommand,
    notes: Notes,
    signing: Signing,
) -> Result<(), ArwenError>
    ensures { IfErr result (MachoMayFail (macho_command_model macho)) }
{
    Ok(macho_execute_telling(rt, macho, notes, signing)?)
}

/// Does what is asked of an ELF file.
fn execute_elf<R: Files + Print + Eprint + AllocGlobal>(
    rt: &R,
    elf: ElfCommand,
    notes: Notes,
) -> Result<(), ArwenError>
    ensures { IfErr result (ElfMayFail (elf_command_model elf)) }
{
    Ok(elf::execute_telling(rt, elf, notes)?)
}

/// Tells what files are.
fn execute_show<R: Files + Print + Eprint + AllocGlobal>(
    rt: &R,
    args: Args,
) -> Result<(), ArwenError>
    ensures { IfErr result ShowMayFail }
{
    Ok(show::execute(rt, args)?)
}
