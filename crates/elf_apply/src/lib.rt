//! Edits carried out upon the image of an ELF file: one, or a batch of which all are made or none; and what an edit that is
//! refused tells.
#![tactic(auto)]

pub mod batch;
mod draft;
pub mod error;
pub mod ext;
mod needs;
mod refusals;
pub mod steps;
pub mod symbols;

pub use elf_edits_shrink::{ProbeAnswer, Reason, Removed, shrink_questions};
pub use elf_symbol_edits::SymbolEdit;
