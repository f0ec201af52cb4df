//! The commands for Mach-O files: what each asks for, and what it does to the bytes of a file and to the
//! file itself.
#![tactic(auto)]

mod command;
mod commands;
mod edits;
mod engine;
mod error;
pub mod laws;
mod noting;
mod renewed;
mod signing;
mod sliced;
mod tables;
mod verifying;

pub use command::MachoCommand;
pub use commands::{add, apply, batch, change, delete, install_id, install_name, sign, verify};
pub use edits::parse_macho_edits;
pub use engine::{
    macho_execute, macho_execute_telling, patch_path, patch_store, run_macho, run_macho_telling,
};
pub use error::MachoCommandError;
pub use macho_commands_stores::Verdict;
pub use signing::Signing;
pub use tables::macho_table;
pub use verifying::verify_bytes;
