//! What lines of `install_name_tool` do: they are read, and the file is edited as their options mean of it, over stores and files.
#![tactic(auto)]

mod editing;
mod equal_edits;
mod line;
mod name_edits;
mod naming;

pub use crate::editing::{NamesError, name_store};
pub use crate::line::{NameLine, NameLineError, NameRefused, read_name_line};
pub use crate::naming::edits_for;
