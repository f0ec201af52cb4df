//! The commands for ELF files: what each asks for, what it does to the bytes of a file or prints of them,
//! and the file itself.
#![tactic(auto)]

mod asked;
pub mod elf;

pub use elf_commands_edits::{ElfCommandError, apply_each, apply_edits, files, laws};
pub use elf_commands_lines::{
    ElfCommand, GroupEdit, SymbolTexts, elf_table, parse_elf_edits, plain_edits,
};
pub use elf_edits::ElfEdit;
