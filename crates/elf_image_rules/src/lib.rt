//! The read rules of ELF files that are checked before an image is made, but those on where segments and sections
//! stand: on identification and headers, on tables and their links, and on the dynamic section. Each is checked in
//! time in proportion to what it looks at, or to that times its logarithm.
#![tactic(auto)]

pub mod dynamic;
pub mod headers;
mod kind;
pub mod linked;

pub use elf_format::{constants, fault, range, records};
