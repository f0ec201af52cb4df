//! What of an ELF image stands in the way of renaming, renumbering or removing symbols and sections, and what goes along with
//! sections that are removed. Sections and symbols are told by the numbers that they had at read, in rising order.
#![tactic(auto)]

mod along;
mod hash_tables;
mod kept;
mod needed;
mod numbers;
mod relocations;
mod renumbering;
pub mod rows;

pub use crate::along::{deserted_segments, remaining_segments, symbols_along};
pub use crate::kept::table_number;
pub use crate::needed::is_section_used;
pub use crate::relocations::is_symbol_used;
pub use crate::renumbering::{can_renumber, has_opaque_user};
