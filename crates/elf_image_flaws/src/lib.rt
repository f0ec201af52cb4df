//! What of an ELF file contradicts the read rules on links between tables, on texts and on versions, and the line in which that is
//! told: the first section of which a number, a symbol, a relocation or a version record fails a test of the rule.
#![tactic(auto)]

pub mod detail;
pub mod flaws;
mod line;
pub mod links;
pub mod names;
mod records;
mod symbols;
mod tag_names;
pub mod versions;

pub use crate::detail::{Detail, Piece};
pub use crate::flaws::Flaw;
pub use crate::links::broken_links;
pub use crate::names::broken_texts;
pub use crate::versions::{MOST_VERSIONS, broken_versions};
