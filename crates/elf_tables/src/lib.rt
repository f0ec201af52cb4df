//! Records and tables of ELF files, made from what they are to hold: file header, program and section headers, symbols,
//! dynamic entries, string tables, hashes of names, version tables.
#![tactic(auto)]

pub mod fault;
pub mod fields;
pub mod finished;
pub mod hash;
mod keyed;
mod laid;
pub mod laws;
pub mod needs;
pub mod numbers;
pub mod rows;
pub mod spelled;
pub mod strings;
pub mod versions;

pub use crate::fault::TableFault;
pub use crate::fields::{Field, push_fields};
pub use crate::finished::Finished;
pub use crate::hash::{gnu_hash, gnu_hash_of_front, sysv_hash, sysv_hash_of_front};
pub use crate::needs::build_verneed;
pub use crate::numbers::{push_halves, push_words};
pub use crate::strings::StringTable;
pub use crate::versions::{build_verdef, build_versym};
pub use elf_image::{
    Builder, Dynamic, Form, Section, Segment, SymbolsNow, VersionDef, VersionId, VersionNeed,
    VersionNeedName, constants, is_movable_type, loads_end,
};
