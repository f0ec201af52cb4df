//! ELF files: the container that the program works with, over the writer that holds a file's image.

pub mod changes;
pub mod container;
pub mod rewriter;

pub use crate::elf::container::{ElfContainer, before_nul};
pub use crate::elf::rewriter::{
    BuilderExt, ElfBatchError, ElfEdit, ElfError, ModifyCause, Needed, NotWritten, ProbeAnswer,
    Reason, Removed, SymbolEdit, Task, Writer,
};
