//! Lines of a program, read by a parser that is told its commands by a table, and what is said of lines that mean none.
#![tactic(auto)]

pub mod line_error;
pub mod parser;

pub use line_error::{LineError, USAGE, line_of, or_memory, or_usage, usage};
pub use parser::{First, parse_values};
