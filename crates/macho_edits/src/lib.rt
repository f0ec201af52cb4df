//! What each edit of a Mach-O file does to its list of load commands: the commands that are built, the command that
//! an edit is about, the list that is left, and the room that commands have.
#![tactic(auto)]

pub mod batch;
pub mod commands;
pub mod draft;
pub mod error;
pub mod patcher;
pub mod room;
pub mod utils;
