//! The records of symbol versions in a file (GNU symbol versioning): walked as far as they stand in their section,
//! held against the read rule on versions, and kept with their texts.
#![tactic(auto)]

mod absence;
mod chain;
mod definitions;
pub mod kept;
mod known;
mod needs;
pub mod rule;
pub mod texts;
pub mod version;
pub mod walks;

pub use elf_image_rules::{dynamic, headers, linked};
