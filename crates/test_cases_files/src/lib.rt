//! What tests by files of lines have in common: reading the files, the words of a line, and running lines on the files
//! that they name. And the lines of layouts: plans, and layouts beside a slow and plain way.
#![tactic(auto)]

pub mod elf;
mod files;
pub mod layouts;
pub mod plans;
mod refused;
mod running;
pub mod words;

pub use files::{read_file, text_of};
pub use refused::{put_no_edits, put_refused};
pub use running::{Cases, run_cases};
