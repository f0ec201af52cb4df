//! Options of lines: what lines of `patchelf` and of `install_name_tool` ask for, their options with their values; and of own lines
//! the options that stand anywhere before `--` and change what the command does.
#![tactic(auto)]

pub mod asked;
mod flags;
pub mod lines;
pub mod options;
pub mod tables;

pub use crate::asked::AskedOption;
pub use crate::lines::{
    is_moved_by, is_quiet, is_signed_by, without_move, without_quiet, without_sign,
};
pub use crate::options::{Form, Given, LineFault, OptionRow, parse_words};
