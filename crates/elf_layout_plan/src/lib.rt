//! What a plan of an edited ELF file is: how large each section is to be, which sections move, and where all of them stand.
//! The definitions, with laws and small images for which they are computed; the walk over blocks of memory that tells which
//! of them must move so that no two overlap; and which needed versions stay, with their entries of the dynamic list (GNU symbol
//! versioning).
#![tactic(auto)]

pub mod block;
pub mod constants;
mod entries;
pub mod fault;
pub mod laws;
mod marks;
pub mod numbered;
pub mod plan;
mod records;
pub mod rows;
pub mod source;
mod staying;
pub mod steps;
pub mod walk;

pub use crate::block::Block;
pub use crate::fault::LayoutFault;
pub use crate::numbered::is_numbered;
pub use crate::plan::{Plan, PlanParts, SectionPlace};
pub use crate::source::read_source;
pub use crate::staying::StayingNeeds;
pub use crate::steps::Steps;
pub use crate::walk::walk_blocks;
pub use elf_tables::{
    Builder, Dynamic, Finished, Form, Section, Segment, StringTable, SymbolsNow, TableFault,
    VersionDef, VersionId, VersionNeed, VersionNeedName, constants as format_constants,
    is_movable_type, loads_end,
};
