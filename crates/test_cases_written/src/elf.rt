//! ELF files under edits, for the crates of tests above.
pub use arwen_elf::elf::{
    BuilderExt, ElfBatchError, ElfContainer, ElfEdit, ElfError, ModifyCause, Needed, ProbeAnswer,
    Reason, Removed, Task, Writer, changes, container, rewriter,
};
pub use arwen_elf::machine_of;
