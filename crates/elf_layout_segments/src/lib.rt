//! What each program header of an edited ELF file goes by: a section, notes, its table, or itself; how many program headers
//! more it needs; and the rounds that this takes.
#![tactic(auto)]

mod anchor_search;
pub mod anchors;
mod file_ranges;
pub mod forecasts;
mod keys;
mod leasts;
pub mod reading;
pub mod rising;
pub mod rounds;
mod sections;
mod splits;
pub mod starts;

pub use elf_layout_moves::{find_move_sections, marks, resizing};
