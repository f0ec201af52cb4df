//! The commands for ELF files as the words of a line name them: their names and values, the table that reads them, and the edits
//! that they ask for.
#![tactic(auto)]

mod command;
pub mod commands;
mod elf_words;
mod groups;
mod symbol_texts;
mod tables;
mod texts;

pub use command::ElfCommand;
pub use elf_words::parse_elf_edits;
pub use groups::{GroupEdit, has_symbols, plain_edits};
pub use symbol_texts::SymbolTexts;
pub use tables::elf_table;
pub use texts::texts_of;
