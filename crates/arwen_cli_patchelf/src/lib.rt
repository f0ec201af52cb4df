//! What lines of `patchelf` do to files: what they ask for is printed, and their plan, a list of edits by the options that ask for
//! them, is made of the bytes of stores and files.
#![tactic(auto)]

mod error;
mod first_found;
mod in_memory;
mod making;
mod option_edits;
mod patching;
mod plans;
mod print_texts;
mod printing;
mod unheard;
mod writing;

pub use crate::error::PatchelfError;
pub use crate::making::made_bytes;
pub use crate::patching::{patch_path, patch_store};
pub use crate::plans::{Plan, plan_of};
pub use crate::printing::{Print, print_path, prints_asked};
pub use crate::writing::{NotWritten, write_path, write_store};
pub use elf_commands as commands;
