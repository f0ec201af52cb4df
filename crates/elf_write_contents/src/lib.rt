//! What stands in an edited ELF file: the numbers of its headers and of its dynamic entries, and the bytes of each section's
//! content, by the plan that says where everything goes.
#![tactic(auto)]

pub mod contents;
mod entries;
mod fits;
mod headers;
pub mod prepared;

pub use elf_write_symbol_tables::made::strings_from;
