//! Code signatures of Mach-O files: the directories of page hashes are read, pages that no longer fit are found, and their
//! hashes are made anew.
//!
//! The layouts are those of Apple's `cs_blobs.h`. All numbers of a signature are in big-endian order, whatever the order of
//! the file.
#![tactic(auto)]

mod blobs;
pub mod directory;
pub mod fault;
mod field;
pub mod laws;
pub mod pages;
pub mod renewal;
pub mod rows;
pub mod signature;

pub use crate::directory::{Directory, HashKind};
pub use crate::fault::SignatureFault;
pub use crate::pages::{PageHash, UnfitPage};
pub use crate::renewal::{ByteRange, Slot, lay_slots};
pub use crate::signature::{Signature, read_signature, read_signature_bytes};
