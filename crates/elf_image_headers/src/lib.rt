//! The parts of an image of an ELF file: program headers, sections and the entries of the dynamic list.
#![tactic(auto)]

pub mod dynamic;
pub mod entries;
pub mod section;
pub mod segment;
pub mod segments;
pub mod spare;

pub use crate::dynamic::Dynamic;
pub use crate::section::Section;
pub use crate::segment::Segment;
