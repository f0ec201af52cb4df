//! Hash tables of dynamic symbols, made anew, with the order and the versions of the symbols that go with them.
#![tactic(auto)]

mod chains;
mod filter;
pub mod gabi;
pub mod gnu;
mod hashes;
pub mod laws;
pub mod order;
pub mod rows;
pub mod versions;

pub use crate::gabi::build_hash;
pub use crate::gnu::{GnuSizes, build_gnu_hash};
pub use crate::hashes::gnu_hashes;
pub use crate::order::order_for_gnu_hash;
pub use crate::versions::build_versym;
pub use elf_tables::TableFault;
