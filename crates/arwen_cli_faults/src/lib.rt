//! Faults, told: why a command for a file is not done, of either kind of file, as the line that the program prints.
#![tactic(auto)]

mod asked;
mod causes;
mod error;
mod overlap;
mod telling;

pub use crate::asked::edits_of;
pub use crate::causes::causes_text;
pub use crate::error::{ArwenError, FaultLine};
pub use crate::telling::file_fault_line;
pub use arwen_cli_show as show;
pub use arwen_cli_show::file_line;
pub use elf_commands as commands;
