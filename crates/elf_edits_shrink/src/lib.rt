//! Run paths that shrink: what has to be looked for, which directories go and why, and the dynamic list without them.
#![tactic(auto)]

pub mod cause;
pub mod laws;
pub mod lists;
pub mod probe;
pub mod questions;
pub mod removal;
pub mod rows;
mod search;

pub use crate::cause::shrink_cause;
pub use crate::lists::{ShrunkList, shrink_list};
pub use crate::probe::ProbeAnswer;
pub use crate::questions::shrink_questions;
pub use crate::removal::{Reason, Removed};
