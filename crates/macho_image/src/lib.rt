//! Reads thin Mach-O files: header, load commands, their texts, and where file content begins.
//!
//! The layouts are those of Apple's `mach-o/loader.h` and `mach-o/fat.h`.
#![tactic(auto)]

pub mod command;
pub mod fat;
pub mod field;
pub mod format;
pub mod image;
pub mod kind;
pub mod laws;
mod one_command;
mod parse;
mod segment;
pub mod text;

pub use crate::command::{
    CommandVariant, Dylib, DylibCommand, LoadCommand, LoadCommandHeader, RpathCommand,
};
pub use crate::fat::{FatArch, fat_archs, is_fat};
pub use crate::format::{Ctx, Header, MachFault};
pub use crate::image::{MachO, Prepared};
pub use crate::parse::{Listed, header_size, read_commands};
