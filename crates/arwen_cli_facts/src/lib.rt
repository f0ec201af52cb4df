//! What a file is, and what it asks of a loader: facts of ELF and Mach-O files, each told once; or why nothing is told of it.
//!
//! `summarize` reads bytes and answers their `Summary`. `refusal_of` says of bytes that are refused what the error leaves
//! open. `signature_summary` answers what the code signature of a thin Mach-O file, or of a slice, says, or why it isn't read.
#![tactic(auto)]

pub mod elf;
pub mod error;
pub mod line;
pub mod macho;
pub mod names;
pub mod refusal;
pub mod signature;
pub mod signature_names;
pub mod summary;
mod text;

pub use crate::elf::{ElfKind, ElfSummary, NeededLibrary};
pub use crate::error::{ElfCauses, MachoCauses, ShowCauses, ShowError};
pub use crate::line::{bracket_of, file_line};
pub use crate::macho::{MachoSummary, SliceSummary};
pub use crate::refusal::{Refusal, Told, elf_words, macho_words, refusal_of, rule_of};
pub use crate::signature::{SignatureContents, SignatureKind, SignatureSummary, signature_summary};
pub use crate::summary::{Summary, summarize};
