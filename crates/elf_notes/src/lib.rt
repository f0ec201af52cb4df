//! What a user should know of edits of an ELF file that were made, and the lines that tell it.
#![tactic(auto)]

mod behind;
pub mod findings;
mod headers;
mod lines;
mod names;
pub mod notes;
mod old_place;
mod read_only;
mod sets;
mod symbols;

pub use crate::findings::{Findings, findings_of};
pub use crate::lines::note_lines;
pub use crate::notes::{ElfNotes, notes_of};
