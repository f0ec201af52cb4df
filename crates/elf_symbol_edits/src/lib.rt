//! Edits of the symbols and sections of an ELF image by their names: what each one means, why it is refused, and making it.
#![tactic(auto)]

mod cause;
mod deletion;
mod edit;
mod error;
pub mod laws;
mod making;
mod names;
pub mod rows;
mod sections;
mod symbols;

pub use crate::cause::{Cause, cause_of};
pub use crate::edit::SymbolEdit;
pub use crate::error::SymbolEditError;
pub use crate::making::make;
