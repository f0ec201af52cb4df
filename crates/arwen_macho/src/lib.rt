//! Edits the load commands of Mach-O files: run paths, library names and the library's own name.
#![tactic(auto)]

mod change;
mod fat;
mod front;
pub mod laws;
pub mod macho;
pub mod rows;

pub use macho_edits::{commands, patcher, utils};
