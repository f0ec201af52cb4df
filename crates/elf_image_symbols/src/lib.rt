//! The symbols of a section, each read from the file's bytes when it is asked for, and with what edits made of them (gABI, Symbol
//! Table; GNU symbol versioning).
#![tactic(auto)]

mod change;
mod changes;
pub mod edited_symbols;
pub mod lists;
mod names;
mod numbers;
pub mod rows;
pub mod symbol;
pub mod symbols;
pub mod symbols_now;

pub use crate::edited_symbols::EditedSymbols;
pub use crate::symbol::Symbol;
pub use crate::symbols::Symbols;
pub use crate::symbols_now::SymbolsNow;
pub use elf_format::{ByteString, records, version_id};
