//! Why an ELF file is refused: which read rule it breaks first, and what contradicts it. Computed after the refusal, by
//! the reader itself: there is no second one.
#![tactic(auto)]

pub mod broken;
mod dynamic;
mod headers;
pub mod laws;
mod meetings;
mod placed;
pub mod reason;
pub mod rule;
mod tables;

pub use crate::broken::broken_rule;
pub use crate::reason::{Reason, explain_refusal};
pub use crate::rule::Rule;
pub use elf_image_flaws::{Detail, Flaw, MOST_VERSIONS, Piece};
