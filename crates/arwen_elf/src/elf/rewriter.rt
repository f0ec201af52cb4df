//! The writer: the image of an ELF file, what is read from it, and its edits.

pub use arwen_elf_writer::batch::{self, ElfBatchError};
pub use arwen_elf_writer::error::{self, ElfError, ModifyCause, Result};
pub use arwen_elf_writer::ext::{self, BuilderExt};
pub use arwen_elf_writer::{
    Needed, NotWritten, ProbeAnswer, Reason, Removed, SymbolEdit, Writer, new_file, writer,
};
pub use elf_edits::{ElfEdit, Task};
