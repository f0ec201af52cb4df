//! The bytes of sections that hold or number symbols, in the order in which a written file has its
//! symbols.
#![tactic(auto)]

mod hashes;
mod numbers;
mod relocations;
mod renumbering;
mod section_numbers;
mod sections;
mod versions;

pub use crate::hashes::{gabi_content, gnu_content};
pub use crate::numbers::NewNumbers;
pub use crate::relocations::{do_relocations_fit_in, relocations_content};
pub use crate::renumbering::{Renumbering, Reordering, order_of, renumbering_of};
pub use crate::section_numbers::{NewSections, new_number, new_sections, new_symbol_section};
pub use crate::versions::versions_content;
