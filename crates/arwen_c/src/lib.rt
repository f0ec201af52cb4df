//! Edits of ELF and Mach-O files in memory, and what they tell, for callers in C: `include/arwen.h` declares what is exported.
//!
//! `export` holds the functions that C calls. Each hands what it is lent to a function of `calls`, and puts what that answers
//! into an answer: bytes and a text, or the number and the text of a cause.
#![tactic(auto)]

mod answer;
mod calls;
mod cause_rows;
mod causes;
mod error;
mod export;
mod groups;
pub mod status;
mod texts;
mod verified;
mod words;

pub use crate::answer::{Answer, Made};
pub use crate::calls::{applied, applied_words, shown, signed};
pub use crate::error::CallError;
pub use crate::export::{
    arwen_apply, arwen_apply_words, arwen_cause_text, arwen_show, arwen_sign, arwen_verify,
    arwen_version,
};
