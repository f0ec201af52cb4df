//! The writer of ELF files: the image of a file, what is read from it, its edits, and the bytes that it is written as.
#![tactic(auto)]

mod edits;
pub mod new_file;
mod output;
mod symbols;
mod values;
pub mod writer;

pub use crate::new_file::NotWritten;
pub use crate::writer::{Needed, Writer};
pub use elf_apply::{ProbeAnswer, Reason, Removed, SymbolEdit, batch, error, ext};
pub use elf_layout::{LayoutFault, Plan, lay_out};
pub use elf_write::{
    CountedWrite, Sink, image_bytes, image_pieces, image_pieces_from_read, write_all_counted,
};
