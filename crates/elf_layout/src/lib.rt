//! Where everything of an edited ELF file goes: where its sections stand, those that move too, its program headers and its
//! header tables.
#![tactic(auto)]

mod added;
mod flags;
mod headings;
pub mod layout;
mod limits;
mod memory;
pub mod moving;
mod places;
mod reaches;
mod sized;
mod slots;
mod standing;
mod tables;
mod targets;
mod unloaded;
mod written;

pub use crate::layout::{lay_out, lay_out_from_read, lay_out_from_sizes};
pub use crate::moving::{find_move_sections, move_sections};
pub use elf_layout_plan::{Finished, LayoutFault, Plan, SectionPlace};
pub use elf_layout_sizes::{NewSizes, new_sizes_with_strings, sizes_of};
