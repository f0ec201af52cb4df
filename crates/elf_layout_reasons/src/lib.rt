//! Why an edited ELF file has no layout: which two blocks of memory overlap that never move, and what may be done about it.
//! Computed after the refusal, by the rounds in which the layout looks.
#![tactic(auto)]

pub mod advice;
mod pairs;
mod rounds;
pub mod stuck;
pub mod texts;

pub use crate::advice::{Advice, Part, advice_for, name_of, part_of};
pub use crate::stuck::{MOST_BLOCKS, StuckPair, stuck_pair};
pub use crate::texts::{advice_text, pair_text, part_text};
