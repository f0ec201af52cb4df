//! Where texts stand in the string tables of a written ELF file, and the records of versions that name them.
#![tactic(auto)]

mod left;
pub mod made;
pub mod texts;
mod told;
pub mod versions;

pub use elf_layout_sizes::StayingNeeds;
