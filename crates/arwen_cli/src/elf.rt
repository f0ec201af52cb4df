//! ELF files: the container that the program works with, and what goes with it.
pub use arwen_cli_faults::commands::files::{
    BuilderExt, CountedWrite, ElfBatchError, ElfContainer, ElfEdit, ElfError, ModifyCause, Needed,
    ProbeAnswer, Reason, Removed, Sink, Task, Writer, changes, container, machine_of, rewriter,
    write_all_counted,
};
pub use elf_apply::error::Result;
pub use elf_format::ElfFault;
