//! The commands for ELF files: of each the call that does it.
ghost use Rattle.std.specs.Prelude.{IfErr};
ghost use Rattle.elf_commands.specs.ElfEngine.{ElfMayFail};
ghost use Rattle.elf_commands_lines.specs.Meaning.{elf_command_model};
ghost use Rattle.elf_commands.specs.Prints.{PrintMayFail};

mod editing;
mod engine;
mod noting;
mod opening;
mod printing;
mod shrinking;
mod typed;

pub use crate::asked::asked_by;
use command_words::Notes;
pub use editing::{edit_path, edit_store};
use editing::{edit_file, edit_telling};
use elf_commands_edits::ElfCommandError;
pub use elf_commands_edits::{FileProbe, Probe};
use elf_commands_lines::ElfCommand;
pub use engine::run_elf;
pub use opening::open_path;
use printing::print_file;
pub use printing::{print_path, print_store};
use shrinking::shrink_file;
pub use shrinking::{shrink_path, shrink_store};
use std::rt::Files;
pub use typed::{edit_bytes, edit_each, edited_pieces};

/// Does what is asked of an ELF file, and tells no notes. What is printed goes to the standard output, and which
/// directories `shrink-rpath` leaves out to the standard error.
pub fn execute<R: Files + Print + Eprint + AllocGlobal>(
    rt: &R,
    elf: ElfCommand,
) -> Result<(), ElfCommandError>
    ensures { IfErr result (ElfMayFail (elf_command_model elf)) }
{
    execute_telling(rt, elf, Notes::LeftOut)
}

/// The same. Once an edit is made, its notes go to the standard error, where they are wanted; whether that fails
/// doesn't matter.
pub fn execute_telling<R: Files + Print + Eprint + AllocGlobal>(
    rt: &R,
    elf: ElfCommand,
    notes: Notes,
) -> Result<(), ElfCommandError>
    ensures { IfErr result (ElfMayFail (elf_command_model elf)) }
{
    match elf {
        ElfCommand::ShrinkRpath(args) => shrink_file(rt, args),
        other => execute_unprobed(rt, other, notes),
    }
}

/// The same of a command that looks for no libraries.
fn execute_unprobed<R: Files + Print + Eprint + AllocGlobal>(
    rt: &R,
    elf: ElfCommand,
    notes: Notes,
) -> Result<(), ElfCommandError>
    ensures { IfErr result (ElfMayFail (elf_command_model elf)) }
{
    if elf.is_print() {
        print_file(rt, elf)
    } else {
        edit_telling(rt, elf, notes)
    }
}

/// `add-debug-tag`: adds an entry for a debugger (gABI, Dynamic Section, DT_DEBUG).
pub mod add_debug_tag {
    use super::{ElfCommand, ElfCommandError, Files, edit_file};
    pub use elf_commands_lines::commands::add_debug_tag::{Args, NAME};

    /// Edits the file.
    pub fn execute<R: Files + AllocGlobal>(rt: &R, args: Args) -> Result<(), ElfCommandError>
        ensures { IfErr result (ElfMayFail (elf_command_model (ElfCommand.AddDebugTag args))) }
    {
        edit_file(rt, ElfCommand::AddDebugTag(args))
    }
}

/// `clear-exec-stack`: takes the permission to run from the stack (GNU extension, PT_GNU_STACK).
pub mod clear_execstack {
    use super::{ElfCommand, ElfCommandError, Files, edit_file};
    pub use elf_commands_lines::commands::clear_execstack::{Args, NAME};

    /// Edits the file.
    pub fn execute<R: Files + AllocGlobal>(rt: &R, args: Args) -> Result<(), ElfCommandError>
        ensures { IfErr result (ElfMayFail (elf_command_model (ElfCommand.ClearExecStack args))) }
    {
        edit_file(rt, ElfCommand::ClearExecStack(args))
    }
}

/// `force-rpath`: makes every DT_RUNPATH a DT_RPATH (gABI, Dynamic Section).
pub mod force_rpath {
    use super::{ElfCommand, ElfCommandError, Files, edit_file};
    pub use elf_commands_lines::commands::force_rpath::{Args, NAME};

    /// Edits the file.
    pub fn execute<R: Files + AllocGlobal>(rt: &R, args: Args) -> Result<(), ElfCommandError>
        ensures { IfErr result (ElfMayFail (elf_command_model (ElfCommand.ForceRpath args))) }
    {
        edit_file(rt, ElfCommand::ForceRpath(args))
    }
}

/// `no-default-lib`: leaves out the default directories of libraries (DT_FLAGS_1, DF_1_NODEFLIB).
pub mod no_default_lib {
    use super::{ElfCommand, ElfCommandError, Files, edit_file};
    pub use elf_commands_lines::commands::no_default_lib::{Args, NAME};

    /// Edits the file.
    pub fn execute<R: Files + AllocGlobal>(rt: &R, args: Args) -> Result<(), ElfCommandError>
        ensures { IfErr result (ElfMayFail (elf_command_model (ElfCommand.NoDefaultLib args))) }
    {
        edit_file(rt, ElfCommand::NoDefaultLib(args))
    }
}

/// `remove-rpath`: removes the run path (gABI, Dynamic Section).
pub mod remove_rpath {
    use super::{ElfCommand, ElfCommandError, Files, edit_file};
    pub use elf_commands_lines::commands::remove_rpath::{Args, NAME};

    /// Edits the file.
    pub fn execute<R: Files + AllocGlobal>(rt: &R, args: Args) -> Result<(), ElfCommandError>
        ensures { IfErr result (ElfMayFail (elf_command_model (ElfCommand.RemoveRpath args))) }
    {
        edit_file(rt, ElfCommand::RemoveRpath(args))
    }
}

/// `set-exec-stack`: gives the stack the permission to run (GNU extension, PT_GNU_STACK).
pub mod set_execstack {
    use super::{ElfCommand, ElfCommandError, Files, edit_file};
    pub use elf_commands_lines::commands::set_execstack::{Args, NAME};

    /// Edits the file.
    pub fn execute<R: Files + AllocGlobal>(rt: &R, args: Args) -> Result<(), ElfCommandError>
        ensures { IfErr result (ElfMayFail (elf_command_model (ElfCommand.SetExecStack args))) }
    {
        edit_file(rt, ElfCommand::SetExecStack(args))
    }
}

/// `add-rpath`: adds a directory to the run path (gABI, Dynamic Section).
pub mod add_rpath {
    use super::{ElfCommand, ElfCommandError, Files, edit_file};
    pub use elf_commands_lines::commands::add_rpath::{Args, NAME};

    /// Edits the file.
    pub fn execute<R: Files + AllocGlobal>(rt: &R, args: Args) -> Result<(), ElfCommandError>
        ensures { IfErr result (ElfMayFail (elf_command_model (ElfCommand.AddRpath args))) }
    {
        edit_file(rt, ElfCommand::AddRpath(args))
    }
}

/// `set-rpath`: sets the run path (gABI, Dynamic Section).
pub mod set_rpath {
    use super::{ElfCommand, ElfCommandError, Files, edit_file};
    pub use elf_commands_lines::commands::set_rpath::{Args, NAME};

    /// Edits the file.
    pub fn execute<R: Files + AllocGlobal>(rt: &R, args: Args) -> Result<(), ElfCommandError>
        ensures { IfErr result (ElfMayFail (elf_command_model (ElfCommand.SetRpath args))) }
    {
        edit_file(rt, ElfCommand::SetRpath(args))
    }
}

/// `set-interpreter`: sets the interpreter (gABI, Program Interpreter).
pub mod set_interpreter {
    use super::{ElfCommand, ElfCommandError, Files, edit_file};
    pub use elf_commands_lines::commands::set_interpreter::{Args, NAME};

    /// Edits the file.
    pub fn execute<R: Files + AllocGlobal>(rt: &R, args: Args) -> Result<(), ElfCommandError>
        ensures { IfErr result (ElfMayFail (elf_command_model (ElfCommand.SetInterpreter args))) }
    {
        edit_file(rt, ElfCommand::SetInterpreter(args))
    }
}

/// `set-os-abi`: sets the ABI byte (gABI, ELF Identification, EI_OSABI).
pub mod set_os_abi {
    use super::{ElfCommand, ElfCommandError, Files, edit_file};
    pub use elf_commands_lines::commands::set_os_abi::{Args, NAME};

    /// Edits the file.
    pub fn execute<R: Files + AllocGlobal>(rt: &R, args: Args) -> Result<(), ElfCommandError>
        ensures { IfErr result (ElfMayFail (elf_command_model (ElfCommand.SetOsAbi args))) }
    {
        edit_file(rt, ElfCommand::SetOsAbi(args))
    }
}

/// `set-soname`: sets the library's own name (gABI, Dynamic Section, DT_SONAME).
pub mod set_soname {
    use super::{ElfCommand, ElfCommandError, Files, edit_file};
    pub use elf_commands_lines::commands::set_soname::{Args, NAME};

    /// Edits the file.
    pub fn execute<R: Files + AllocGlobal>(rt: &R, args: Args) -> Result<(), ElfCommandError>
        ensures { IfErr result (ElfMayFail (elf_command_model (ElfCommand.SetSoname args))) }
    {
        edit_file(rt, ElfCommand::SetSoname(args))
    }
}

/// `set-page-size`: sets the page size (gABI, Program Header, p_align of each PT_LOAD).
pub mod set_page_size {
    use super::{ElfCommand, ElfCommandError, Files, edit_file};
    pub use elf_commands_lines::commands::set_page_size::{Args, NAME};

    /// Edits the file.
    pub fn execute<R: Files + AllocGlobal>(rt: &R, args: Args) -> Result<(), ElfCommandError>
        ensures { IfErr result (ElfMayFail (elf_command_model (ElfCommand.SetPageSize args))) }
    {
        edit_file(rt, ElfCommand::SetPageSize(args))
    }
}

/// `clear-symbol-version`: makes the version of symbols of a name that of a global symbol (GNU symbol versioning).
pub mod clear_version_symbol {
    use super::{ElfCommand, ElfCommandError, Files, edit_file};
    pub use elf_commands_lines::commands::clear_version_symbol::{Args, NAME};

    /// Edits the file.
    pub fn execute<R: Files + AllocGlobal>(rt: &R, args: Args) -> Result<(), ElfCommandError>
        ensures { IfErr result
            (ElfMayFail (elf_command_model (ElfCommand.ClearSymbolVersion args))) }
    {
        edit_file(rt, ElfCommand::ClearSymbolVersion(args))
    }
}

/// `add-needed`: adds needed libraries (gABI, Dynamic Section, DT_NEEDED).
pub mod add_needed {
    use super::{ElfCommand, ElfCommandError, Files, edit_file};
    pub use elf_commands_lines::commands::add_needed::{Args, NAME};

    /// Edits the file.
    pub fn execute<R: Files + AllocGlobal>(rt: &R, args: Args) -> Result<(), ElfCommandError>
        ensures { IfErr result (ElfMayFail (elf_command_model (ElfCommand.AddNeeded args))) }
    {
        edit_file(rt, ElfCommand::AddNeeded(args))
    }
}

/// `remove-needed`: removes needed libraries (gABI, Dynamic Section, DT_NEEDED).
pub mod remove_needed {
    use super::{ElfCommand, ElfCommandError, Files, edit_file};
    pub use elf_commands_lines::commands::remove_needed::{Args, NAME};

    /// Edits the file.
    pub fn execute<R: Files + AllocGlobal>(rt: &R, args: Args) -> Result<(), ElfCommandError>
        ensures { IfErr result (ElfMayFail (elf_command_model (ElfCommand.RemoveNeeded args))) }
    {
        edit_file(rt, ElfCommand::RemoveNeeded(args))
    }
}

/// `replace-needed`: replaces needed libraries, all at once (gABI, Dynamic Section, DT_NEEDED).
pub mod replace_needed {
    use super::{ElfCommand, ElfCommandError, Files, edit_file};
    pub use elf_commands_lines::commands::replace_needed::{Args, NAME};

    /// Edits the file.
    pub fn execute<R: Files + AllocGlobal>(rt: &R, args: Args) -> Result<(), ElfCommandError>
        ensures { IfErr result (ElfMayFail (elf_command_model (ElfCommand.ReplaceNeeded args))) }
    {
        edit_file(rt, ElfCommand::ReplaceNeeded(args))
    }
}

/// `replace-library`: replaces needed libraries, all at once, with the versions that are needed of them (gABI, Dynamic Section,
/// DT_NEEDED; GNU symbol versioning, `Elfxx_Verneed`, `vn_file`).
pub mod replace_library {
    use super::{ElfCommand, ElfCommandError, Files, edit_file};
    pub use elf_commands_lines::commands::replace_library::{Args, NAME};

    /// Edits the file.
    pub fn execute<R: Files + AllocGlobal>(rt: &R, args: Args) -> Result<(), ElfCommandError>
        ensures { IfErr result (ElfMayFail (elf_command_model (ElfCommand.ReplaceLibrary args))) }
    {
        edit_file(rt, ElfCommand::ReplaceLibrary(args))
    }
}

/// `rename-dynamic-symbols`: gives dynamic symbols other names, all at once (gABI, Symbol Table, st_name).
pub mod rename_dynamic_symbols {
    use super::{ElfCommand, ElfCommandError, Files, edit_file};
    pub use elf_commands_lines::commands::rename_dynamic_symbols::{Args, NAME};

    /// Edits the file.
    pub fn execute<R: Files + AllocGlobal>(rt: &R, args: Args) -> Result<(), ElfCommandError>
        ensures { IfErr result
            (ElfMayFail (elf_command_model (ElfCommand.RenameDynamicSymbols args))) }
    {
        edit_file(rt, ElfCommand::RenameDynamicSymbols(args))
    }
}

/// `apply`: makes several edits, all or none.
pub mod apply {
    use super::{ElfCommand, ElfCommandError, Files, edit_file};
    pub use elf_commands_lines::commands::apply::{Args, NAME};

    /// Edits the file.
    pub fn execute<R: Files + AllocGlobal>(rt: &R, args: Args) -> Result<(), ElfCommandError>
        ensures { IfErr result (ElfMayFail (elf_command_model (ElfCommand.Apply args))) }
    {
        edit_file(rt, ElfCommand::Apply(args))
    }
}

/// `shrink-rpath`: leaves out of the run path the directories that have no needed library.
pub mod shrink_rpath {
    use super::{ElfCommand, ElfCommandError, Files, shrink_file};
    pub use elf_commands_lines::commands::shrink_rpath::{Args, NAME};

    /// Edits the file. Which directories went is told on the standard error.
    pub fn execute<R: Files + Eprint + AllocGlobal>(
        rt: &R,
        args: Args,
    ) -> Result<(), ElfCommandError>
        ensures { IfErr result (ElfMayFail (elf_command_model (ElfCommand.ShrinkRpath args))) }
    {
        shrink_file(rt, args)
    }
}

/// `rename-symbols`: gives symbols other names, all at once, for link editors and for the loader (gABI, Symbol Table, st_name).
pub mod rename_symbols {
    use super::{ElfCommand, ElfCommandError, Files, edit_file};
    pub use elf_commands_lines::commands::rename_symbols::{Args, NAME};

    /// Edits the file.
    pub fn execute<R: Files + AllocGlobal>(rt: &R, args: Args) -> Result<(), ElfCommandError>
        ensures { IfErr result (ElfMayFail (elf_command_model (ElfCommand.RenameSymbols args))) }
    {
        edit_file(rt, ElfCommand::RenameSymbols(args))
    }
}

/// `delete-symbols`: deletes symbols, for link editors and for the loader (gABI, Symbol Table).
pub mod delete_symbols {
    use super::{ElfCommand, ElfCommandError, Files, edit_file};
    pub use elf_commands_lines::commands::delete_symbols::{Args, NAME};

    /// Edits the file.
    pub fn execute<R: Files + AllocGlobal>(rt: &R, args: Args) -> Result<(), ElfCommandError>
        ensures { IfErr result (ElfMayFail (elf_command_model (ElfCommand.DeleteSymbols args))) }
    {
        edit_file(rt, ElfCommand::DeleteSymbols(args))
    }
}

/// `rename-sections`: gives sections other names, all at once (gABI, Sections, sh_name).
pub mod rename_sections {
    use super::{ElfCommand, ElfCommandError, Files, edit_file};
    pub use elf_commands_lines::commands::rename_sections::{Args, NAME};

    /// Edits the file.
    pub fn execute<R: Files + AllocGlobal>(rt: &R, args: Args) -> Result<(), ElfCommandError>
        ensures { IfErr result (ElfMayFail (elf_command_model (ElfCommand.RenameSections args))) }
    {
        edit_file(rt, ElfCommand::RenameSections(args))
    }
}

/// `delete-sections`: deletes sections, with what goes along (gABI, Sections).
pub mod delete_sections {
    use super::{ElfCommand, ElfCommandError, Files, edit_file};
    pub use elf_commands_lines::commands::delete_sections::{Args, NAME};

    /// Edits the file.
    pub fn execute<R: Files + AllocGlobal>(rt: &R, args: Args) -> Result<(), ElfCommandError>
        ensures { IfErr result (ElfMayFail (elf_command_model (ElfCommand.DeleteSections args))) }
    {
        edit_file(rt, ElfCommand::DeleteSections(args))
    }
}

/// `print-rpath`: prints the run path.
pub mod print_rpath {
    use super::{ElfCommand, ElfCommandError, Files, print_file};
    pub use elf_commands_lines::commands::print_rpath::{Args, NAME};

    /// Prints to the standard output.
    pub fn execute<R: Files + Print + AllocGlobal>(
        rt: &R,
        args: Args,
    ) -> Result<(), ElfCommandError>
        ensures { IfErr result PrintMayFail }
    {
        print_file(rt, ElfCommand::PrintRpath(args))
    }
}

/// `print-needed`: prints the needed libraries.
pub mod print_needed {
    use super::{ElfCommand, ElfCommandError, Files, print_file};
    pub use elf_commands_lines::commands::print_needed::{Args, NAME};

    /// Prints to the standard output.
    pub fn execute<R: Files + Print + AllocGlobal>(
        rt: &R,
        args: Args,
    ) -> Result<(), ElfCommandError>
        ensures { IfErr result PrintMayFail }
    {
        print_file(rt, ElfCommand::PrintNeeded(args))
    }
}

/// `print-soname`: prints the library's own name.
pub mod print_soname {
    use super::{ElfCommand, ElfCommandError, Files, print_file};
    pub use elf_commands_lines::commands::print_soname::{Args, NAME};

    /// Prints to the standard output.
    pub fn execute<R: Files + Print + AllocGlobal>(
        rt: &R,
        args: Args,
    ) -> Result<(), ElfCommandError>
        ensures { IfErr result PrintMayFail }
    {
        print_file(rt, ElfCommand::PrintSoname(args))
    }
}

/// `print-interpreter`: prints the interpreter.
pub mod print_interpreter {
    use super::{ElfCommand, ElfCommandError, Files, print_file};
    pub use elf_commands_lines::commands::print_interpreter::{Args, NAME};

    /// Prints to the standard output.
    pub fn execute<R: Files + Print + AllocGlobal>(
        rt: &R,
        args: Args,
    ) -> Result<(), ElfCommandError>
        ensures { IfErr result PrintMayFail }
    {
        print_file(rt, ElfCommand::PrintInterpreter(args))
    }
}

/// `print-os-abi`: prints the ABI byte.
pub mod print_os_abi {
    use super::{ElfCommand, ElfCommandError, Files, print_file};
    pub use elf_commands_lines::commands::print_os_abi::{Args, NAME};

    /// Prints to the standard output.
    pub fn execute<R: Files + Print + AllocGlobal>(
        rt: &R,
        args: Args,
    ) -> Result<(), ElfCommandError>
        ensures { IfErr result PrintMayFail }
    {
        print_file(rt, ElfCommand::PrintOsAbi(args))
    }
}

/// `print-exec-stack`: prints whether the stack may be run.
pub mod print_execstack {
    use super::{ElfCommand, ElfCommandError, Files, print_file};
    pub use elf_commands_lines::commands::print_execstack::{Args, NAME};

    /// Prints to the standard output.
    pub fn execute<R: Files + Print + AllocGlobal>(
        rt: &R,
        args: Args,
    ) -> Result<(), ElfCommandError>
        ensures { IfErr result PrintMayFail }
    {
        print_file(rt, ElfCommand::PrintExecStack(args))
    }
}
