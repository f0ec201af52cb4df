//! The image of an ELF file: all that is kept of a file that the read rules accept, to be looked at, edited
//! and written.
#![tactic(auto)]

pub mod builder;
mod copies;
mod edits;
pub mod laws;
mod lookups;
mod read;
mod section_edits;
mod symbol_edits;

pub use crate::builder::{Builder, Segment};
pub use elf_format::machine::machine_of;
pub use elf_format::{
    ElfFault, Form, Header, SectionData, VersionId, constants, laws as format_laws, records,
};
pub use elf_image_headers::segments::loads_end;
pub use elf_image_headers::spare::is_movable_type;
pub use elf_image_headers::{Dynamic, Section, dynamic, section, segment};
pub use elf_image_symbols::{EditedSymbols, Symbol, Symbols, SymbolsNow};
pub use elf_image_versions::version::{self, VersionDef, VersionNeed, VersionNeedName, Versions};
