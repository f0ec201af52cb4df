//! Reads, and prints, what a loader takes from ELF files: run path, needed libraries, name, interpreter, ABI
//! byte and stack permission.
#![tactic(auto)]

pub mod elf;
mod writing;

pub use crate::writing::write_whole;
pub use arwen_elf_writer::{
    CountedWrite, LayoutFault, Plan, Sink, image_bytes, image_pieces, image_pieces_from_read,
    lay_out, write_all_counted,
};
pub use elf_image::machine_of;
