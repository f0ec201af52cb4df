//! What a file is to which an edited ELF image is written by a plan: the bytes of headers, tables and contents, and what a reader
//! and a loader find in them. The definitions, with laws; and the bytes of relocations whose symbols get other numbers, with those
//! numbers from an order of the symbols.
#![tactic(auto)]

mod entry;
pub mod laws;
pub mod numbers;
pub mod relocations;
pub mod rows;

pub use crate::numbers::new_numbers;
pub use crate::relocations::{do_relocations_fit, renumber_relocations};
pub use elf_layout_plan::{TableFault, is_numbered};
