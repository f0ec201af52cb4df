//! The command line of the program `arwen`: what a line means, and the commands that do it. Beside it the libraries below,
//! by the paths of the Rust crate, so that a caller needs this one alone.
#![tactic(auto)]

pub mod cli;
pub mod elf;

pub use arwen_macho::{commands, macho, patcher, utils};
