ghost use Rattle.std.specs.Prelude.{◌≡◌, IfOk};
ghost use Rattle.elf_format.specs.Records.{symbols_in};
ghost use Rattle.elf_write_strings.specs.PlacedTexts.{AreSectionsAt, IsUnedited};
ghost use Rattle.elf_write_strings.specs.VersionPlaces.{content_in};

use crate::versions::headers_of;
use elf_format::records::{SectionHeader, SymbolNumbers};
use elf_format::tables::read_records;
use elf_image::Builder;
use elf_image_rules::headers::Headers;
use std::alloc::{AllocError, Global};

// The records of a section of symbols with these bytes.
pub(super) fn records_of(
    alloc: Global,
    read: &Builder<'_>,
    content: &[u8],
) -> Result<Vec<SymbolNumbers>, AllocError>
    ensures { IfOk result (λ records. records.items ≡ symbols_in read.now.form content.now) }
{
    let form = read.form();
    let size = form.symbol_size();
    read_records(alloc, form, size, content.len() / size, content)
}

// The section headers of a file's header tables.
fn sections_of(headers: Headers<'_>) -> Vec<SectionHeader>
    ensures { result.items ≡ headers.entry.sections.items }
{
    headers.sections
}

// The section headers that were read.
pub(super) fn header_records(
    alloc: Global,
    read: &Builder<'_>,
) -> Result<Vec<SectionHeader>, AllocError>
    requires unedited { IsUnedited read.now }
    ensures { IfOk result (λ headers. AreSectionsAt
        (content_in read.now.sections read.now.header.e_shstrndx) read.now.sections headers.items) }
{
    Ok(sections_of(headers_of(alloc, read)?))
}
