//! Commands for ELF files, each done by the function of its own module.

use arwen_cli::cli::{ArwenError, Command, ElfCommand, ElfCommandError, elf, macho_execute, show};

/// Does what a command asks.
pub(crate) fn execute(rt: &HostRuntime, command: Command) -> Result<(), ArwenError> {
    match command {
        Command::Macho(command) => Ok(macho_execute(rt, command)?),
        Command::Elf(command) => Ok(execute_mark(rt, command)?),
        Command::Show(args) => Ok(show::execute(rt, args)?),
    }
}

/// Does a command that takes a path alone and edits the file, or another one.
fn execute_mark(rt: &HostRuntime, command: ElfCommand) -> Result<(), ElfCommandError> {
    match command {
        ElfCommand::AddDebugTag(args) => elf::add_debug_tag::execute(rt, args),
        ElfCommand::ClearExecStack(args) => elf::clear_execstack::execute(rt, args),
        ElfCommand::ForceRpath(args) => elf::force_rpath::execute(rt, args),
        ElfCommand::NoDefaultLib(args) => elf::no_default_lib::execute(rt, args),
        ElfCommand::RemoveRpath(args) => elf::remove_rpath::execute(rt, args),
        ElfCommand::SetExecStack(args) => elf::set_execstack::execute(rt, args),
        other => execute_value(rt, other),
    }
}

/// Does a command that takes a value, or another one.
fn execute_value(rt: &HostRuntime, command: ElfCommand) -> Result<(), ElfCommandError> {
    match command {
        ElfCommand::AddRpath(args) => elf::add_rpath::execute(rt, args),
        ElfCommand::SetRpath(args) => elf::set_rpath::execute(rt, args),
        ElfCommand::SetInterpreter(args) => elf::set_interpreter::execute(rt, args),
        ElfCommand::SetOsAbi(args) => elf::set_os_abi::execute(rt, args),
        ElfCommand::SetSoname(args) => elf::set_soname::execute(rt, args),
        ElfCommand::SetPageSize(args) => elf::set_page_size::execute(rt, args),
        ElfCommand::ClearSymbolVersion(args) => elf::clear_version_symbol::execute(rt, args),
        other => execute_words(rt, other),
    }
}

/// Does a command that takes any number of words, or another one.
fn execute_words(rt: &HostRuntime, command: ElfCommand) -> Result<(), ElfCommandError> {
    match command {
        ElfCommand::AddNeeded(args) => elf::add_needed::execute(rt, args),
        ElfCommand::RemoveNeeded(args) => elf::remove_needed::execute(rt, args),
        ElfCommand::ReplaceNeeded(args) => elf::replace_needed::execute(rt, args),
        ElfCommand::ReplaceLibrary(args) => elf::replace_library::execute(rt, args),
        ElfCommand::RenameDynamicSymbols(args) => { elf::rename_dynamic_symbols::execute(rt, args) }
        ElfCommand::Apply(args) => elf::apply::execute(rt, args),
        ElfCommand::ShrinkRpath(args) => elf::shrink_rpath::execute(rt, args),
        ElfCommand::RenameSymbols(args) => elf::rename_symbols::execute(rt, args),
        ElfCommand::DeleteSymbols(args) => elf::delete_symbols::execute(rt, args),
        ElfCommand::RenameSections(args) => elf::rename_sections::execute(rt, args),
        ElfCommand::DeleteSections(args) => elf::delete_sections::execute(rt, args),
        other => execute_print(rt, other),
    }
}

/// Does a command that prints; any other is done by the function for all commands.
fn execute_print(rt: &HostRuntime, command: ElfCommand) -> Result<(), ElfCommandError> {
    match command {
        ElfCommand::PrintRpath(args) => elf::print_rpath::execute(rt, args),
        ElfCommand::PrintNeeded(args) => elf::print_needed::execute(rt, args),
        ElfCommand::PrintSoname(args) => elf::print_soname::execute(rt, args),
        ElfCommand::PrintInterpreter(args) => elf::print_interpreter::execute(rt, args),
        ElfCommand::PrintOsAbi(args) => elf::print_os_abi::execute(rt, args),
        ElfCommand::PrintExecStack(args) => elf::print_execstack::execute(rt, args),
        other => elf::execute(rt, other),
    }
}
