//! ELF files: what they are made of, which ones are accepted, and what an accepted file shows, through
//! its section headers as well as to a loader that knows its program headers alone. With functions that read
//! single records, tables and texts of them.
#![tactic(auto)]

pub mod constants;
pub mod entries;
pub mod fault;
pub mod form;
pub mod header;
pub mod laws;
pub mod lookups;
pub mod machine;
pub mod numbers;
pub mod opening;
pub mod range;
pub mod records;
pub mod section_data;
pub mod tables;
pub mod texts;
pub mod version_id;
pub mod versions;
pub mod view_fault;

pub use crate::fault::ElfFault;
pub use crate::form::Form;
pub use crate::header::Header;
pub use crate::section_data::SectionData;
pub use crate::version_id::VersionId;
pub use crate::view_fault::ViewFault;
pub use patch_bytes::{ByteOrder2, ByteString, Wide};
