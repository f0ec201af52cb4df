//! Runs lines of other tools: those of `patchelf` for ELF files, and of `install_name_tool` for Mach-O files.
#![tactic(auto)]

mod causes;
mod elf_lines;
mod ending;
mod files;
mod name_lines;
mod peers;
mod running;
mod texts;

pub use crate::elf_lines::files_ending;
pub use crate::ending::Ending;
pub use crate::files::LineFiles;
pub use crate::name_lines::name_words;
pub use crate::peers::{Peer, helped_peer, peer_of};
pub use crate::running::run_line;
