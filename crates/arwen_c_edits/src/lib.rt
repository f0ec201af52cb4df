//! Edits as callers in C hand them in, a kind and its texts each, read as edits of ELF files or of Mach-O files.
#![tactic(auto)]

mod elf_kinds;
mod elf_list;
mod elf_values;
mod fault;
mod lent;
mod macho_list;
mod numbers;
mod texts;

pub use crate::elf_list::read_elf_edits;
pub use crate::elf_values::ReadEdit;
pub use crate::fault::{ListError, ListFault, WrongEdit};
pub use crate::lent::{LentEdit, LentText};
pub use crate::macho_list::read_macho_edits;
