//! ELF files under edits, for the crates of tests above.
pub use elf_commands::files::{
    BuilderExt, ElfBatchError, ElfContainer, ElfEdit, ElfError, ModifyCause, Needed, ProbeAnswer,
    Reason, Removed, Task, Writer, changes, container, rewriter,
};
