//! How large each section of an edited ELF file is to be, and the string tables that are made anew.
#![tactic(auto)]

mod kinds;
mod known;
mod links;
mod other_texts;
mod sizes;
mod strings;
mod tables;
mod texts;
mod users;
mod versions;

pub use crate::links::dynamic_strings_number;
pub use crate::sizes::{NewSizes, new_sizes_of, new_sizes_with_strings, sizes_of};
pub use crate::strings::made_table;
pub use elf_layout_plan::StayingNeeds;
