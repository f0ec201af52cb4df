//! What a line asks for.
use arwen_cli_faults::commands::ElfCommand;
use arwen_cli_faults::show::Args;
use macho_commands::MachoCommand;

/// What is asked for.
#[derive(Debug, Drop)]
pub enum Command {
    /// Something of a Mach-O file.
    Macho(MachoCommand),
    /// Something of an ELF file.
    Elf(ElfCommand),
    /// To be told what files are.
    Show(Args),
}
