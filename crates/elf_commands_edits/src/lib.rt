//! What commands need of ELF files: edits that commands and groups of words ask for, of either kind, with their texts; and what
//! `shrink-rpath` looks for in the directories of a run path, with the lines that tell which of them went.
#![tactic(auto)]

pub mod error;
pub mod files;
pub mod groups;
pub mod images;
pub mod laws;
pub mod probing;
pub mod shrinking;
pub mod standard_error;
pub mod storing;

pub use crate::error::ElfCommandError;
pub use crate::groups::{apply_batch, apply_each, apply_edits};
pub use crate::images::{changed_bytes, pieces_and_text, pieces_of};
pub use crate::probing::{FileProbe, Probe, answers_of, removal_text};
pub use crate::shrinking::{Shrunk, pieces_by_answers, shrink_image, tell_removed};
pub use crate::standard_error::{StandardError, tell};
pub use crate::storing::make_opened;
