//! The bytes of an edited ELF file: what its sections hold, laid where the plan says, over what stays of the file that was read.
#![tactic(auto)]

mod base;
pub mod bytes;
pub mod counted;
mod data;
pub mod difference;
mod laying;
mod pieces;
mod spans;
mod spelled;

pub use crate::bytes::{image_bytes, made_bytes};
pub use crate::counted::{CountedWrite, Sink, write_all_counted};
pub use crate::difference::{image_pieces, image_pieces_from_read, image_pieces_with_strings};
