//! Edits of what an ELF file shows: what each one means, why one is refused, and the dynamic list and symbols after it.
#![tactic(auto)]

pub mod abi;
pub mod cause;
mod changes;
pub mod constants;
pub mod edit;
pub mod entries;
pub mod facts;
pub mod laws;
pub mod list;
pub mod lookups;
pub mod of_image;
pub mod rows;
pub mod symbols;
pub mod texts;

pub use crate::cause::{Cause, cause_of};
pub use crate::edit::{ElfEdit, Task, edit_list};
pub use crate::facts::Facts;
pub use crate::list::NewList;
pub use crate::of_image::image_facts;
pub use crate::symbols::edit_symbols;
pub use elf_image_uses::{
    can_renumber, has_opaque_user, is_section_used, is_symbol_used, remaining_segments,
    symbols_along, table_number,
};
