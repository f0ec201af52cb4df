//! A layout of an edited image that is found slowly and plainly, for tests: each two blocks are looked at, nothing is
//! sorted, and every number has 128 bits.
#![tactic(auto)]

mod blocks;
mod following;
pub mod plain;
pub mod slow;
pub mod standing;
mod written;
