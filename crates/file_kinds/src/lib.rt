//! What a file is by its first bytes, and what of a refusal that leaves open: the words that stand in brackets behind a
//! fault.
#![tactic(auto)]

pub mod kinds;
pub mod reasons;

pub use crate::kinds::{FileKind, kind_of};
pub use crate::reasons::{elf_reason, macho_reason};
