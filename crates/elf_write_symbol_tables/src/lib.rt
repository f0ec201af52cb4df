//! The bytes of the two symbol tables of an edited image (gABI, Symbol Table).
#![tactic(auto)]

mod dynamic;
mod names;
mod records;
mod statics;

pub use crate::dynamic::dynamic_symbols_content;
pub use crate::statics::static_symbols_content;
pub use elf_write_strings::{StayingNeeds, made, texts, versions};
pub use elf_write_symbols::{
    NewSections, Renumbering, Reordering, do_relocations_fit_in, gabi_content, gnu_content,
    new_number, order_of, relocations_content, renumbering_of, versions_content,
};
