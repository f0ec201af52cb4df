ghost use Rattle.std.specs.Prelude.{IfOk};
ghost use Rattle.elf_image_rules.specs.Read.{parts_model};
ghost use Rattle.elf_image_versions.specs.WalkSteps.{AreDefinitions, AreNeeds};

use crate::chain::walk;
use elf_format::constants::{SHT_GNU_VERDEF, SHT_GNU_VERNEED};
use elf_format::lookups::{section_bytes, section_of_type};
use elf_format::versions::{RawDefinition, RawNeeds};
use elf_image_rules::headers::Headers;
use std::alloc::{AllocError, Global};

/// Version records as far as they can be walked, and whether all are there.
#[derive(Drop)]
pub struct Walk<T> {
    /// The records, in order.
    pub values: Vec<T>,
    /// Whether each that the section header, or the record before them, counts is there, with all that belongs to it.
    pub is_whole: bool,
}

/// The defined versions of .gnu.version_d (GNU symbol versioning, `Elfxx_Verdef`), none without that section.
/// Error: `AllocError`.
pub fn walk_definitions(
    alloc: Global,
    parts: &Headers<'_>,
) -> Result<Walk<RawDefinition>, AllocError>
    ensures { IfOk result (λ w. AreDefinitions (parts_model parts.now) w) }
{
    let Some(section) = section_of_type(&parts.sections, SHT_GNU_VERDEF) else {
        return Ok(Walk {
            values: Vec::new(alloc),
            is_whole: true,
        });
    };
    let bytes = section_bytes(parts.file, section);
    walk(alloc, parts.form, bytes, section.sh_info as u64, 0)
}

/// The needed versions of .gnu.version_r (GNU symbol versioning, `Elfxx_Verneed`), library by library, none without that
/// section. Error: `AllocError`.
pub fn walk_needs(alloc: Global, parts: &Headers<'_>) -> Result<Walk<RawNeeds>, AllocError>
    ensures { IfOk result (λ w. AreNeeds (parts_model parts.now) w) }
{
    let Some(section) = section_of_type(&parts.sections, SHT_GNU_VERNEED) else {
        return Ok(Walk {
            values: Vec::new(alloc),
            is_whole: true,
        });
    };
    let bytes = section_bytes(parts.file, section);
    walk(alloc, parts.form, bytes, section.sh_info as u64, 0)
}
