//! What a file is and what it asks of a loader, told as text for people and as JSON, and the command that tells it.
//!
//! `show_bytes` writes what is told of the bytes of a file, `show_paths` of the files at paths. `parse_args` reads the words
//! of a line, and `execute` does what they ask.
#![tactic(auto)]

pub mod args;
pub mod command;
mod elf_json;
mod elf_lines;
mod lines;
mod macho_json;
mod macho_lines;
mod members;
mod notes;
pub mod show;
mod signature_json;
mod signature_lines;

pub use crate::args::{Args, ArgsFault, HELP, parse_args};
pub use crate::command::{ShowCommandError, execute, show_paths};
pub use crate::show::{Style, show_bytes};
pub use arwen_cli_facts::{
    ElfCauses, MachoCauses, ShowError, Summary, Told, bracket_of, elf_words, file_line,
    macho_words, rule_of, summarize,
};
