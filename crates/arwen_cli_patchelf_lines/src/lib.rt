//! What lines of `patchelf` ask for: their words are read, with the values that stand in files.
#![tactic(auto)]

mod line;
mod name_maps;
mod refusals;
mod values;

pub use crate::line::{Line, LineError, read_line};
pub use crate::name_maps::MapWrong;
pub use crate::refusals::Refused;
pub use crate::values::{ValueCause, ValueRefused};
