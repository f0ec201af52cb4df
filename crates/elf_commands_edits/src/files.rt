//! ELF files under edits, and what goes with them, for the crates above.
pub use arwen_elf::elf::{
    BuilderExt, ElfBatchError, ElfContainer, ElfEdit, ElfError, ModifyCause, Needed, ProbeAnswer,
    Reason, Removed, Task, Writer, changes, container, rewriter,
};
pub use arwen_elf::{CountedWrite, Sink, machine_of, write_all_counted, write_whole};
