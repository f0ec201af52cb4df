//! Plain readers that answer what the definitions say, one step after another. They are slow, and meant
//! for small files and for tests. And small files with what the definitions answer for them.
#![tactic(auto)]

pub mod by_sections;
pub mod by_tables;
pub mod by_tags;
pub mod chains;
pub mod entries;
pub mod loaded;
pub mod names;
pub mod rows;
pub mod source;
pub mod symbols;
pub mod view;
pub mod whole_view;

pub use crate::loaded::loader_view;
pub use crate::view::ShownView;
pub use crate::whole_view::section_view;
pub use elf_format::ViewFault;
