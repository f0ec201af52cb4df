//! Which sections of an edited ELF file move, so that no two blocks of memory overlap.
#![tactic(auto)]

mod block_moves;
pub mod blocks;
pub mod laws;
pub mod limits;
pub mod marks;
pub mod moving;
mod old_order;
pub mod resizing;

pub use crate::moving::find_move_sections;
pub use crate::resizing::Resizing;
pub use elf_layout_plan::LayoutFault;
