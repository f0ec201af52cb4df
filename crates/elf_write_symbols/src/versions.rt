//! The versions of dynamic symbols (GNU symbol versioning, `.gnu.version`).
ghost use Rattle.std.specs.Prelude.{◌≡◌, ◌*◌, IfOk, length};
ghost use Rattle.elf_format.specs.declared.constants.TheConstants.{SHT_GNU_VERSYM};
ghost use Rattle.elf_hashes.specs.Versions.{AreVersionsOf};
ghost use Rattle.elf_image.specs.ImageModel.{section_model};
ghost use Rattle.elf_image.specs.SymbolsRead.{HasDynamicSymbolsOf};
ghost use Rattle.elf_write_spec.specs.Final.{dynamic_order, final};
ghost use Rattle.elf_write_spec.specs.Ready.{IsEditedReady, IsSectionOfType};
ghost use Rattle.elf_write_symbols.specs.Renumbering.{IsReorderingFor};

use crate::renumbering::Reordering;
use elf_format::numbers::counted;
use elf_hashes::build_versym;
use elf_image::{Builder, Section};
use elf_write_spec::TableFault;
use patch_bytes::ByteString;
use std::alloc::{AllocError, Global};

// The versions as they were read, of symbols that are as they were.
fn versions_copied<'data>(
    read: &Builder<'data>,
    image: &Builder<'data>,
    section: &Section<'data>,
) -> ByteString<'data>
    requires ready { IsEditedReady read.now image.now }
    requires same { HasDynamicSymbolsOf read.now image.now }
    requires at { IsSectionOfType SHT_GNU_VERSYM image.now (section_model section.now) }
    ensures { AreVersionsOf image.now.form (final read.now image.now).dynamic_symbols
        result.bytes }
{
    ByteString::borrowed(section.content)
}

// The versions of the symbols in their new order.
fn versions_by(
    alloc: Global,
    read: &Builder<'_>,
    image: &Builder<'_>,
    section: &Section<'_>,
    order: &[usize],
) -> Result<Vec<u8>, AllocError>
    requires ready { IsEditedReady read.now image.now }
    requires at { IsSectionOfType SHT_GNU_VERSYM image.now (section_model section.now) }
    requires order { order.now ≡ dynamic_order read.now image.now }
    ensures { IfOk result (λ bytes. AreVersionsOf image.now.form
        (final read.now image.now).dynamic_symbols bytes.items) }
{
    match build_versym(alloc, image.dynamic_symbols(), order, image.form()) {
        Ok(bytes) => Ok(bytes),
        Err(TableFault::Memory) => Err(AllocError),
        Err(TableFault::NumberTooLarge) => unreachable!(),
    }
}

// The versions of the symbols in their new order, which may be that of the list.
fn versions_anew(
    alloc: Global,
    read: &Builder<'_>,
    image: &Builder<'_>,
    reordering: &Option<Reordering>,
    section: &Section<'_>,
) -> Result<Vec<u8>, AllocError>
    requires ready { IsEditedReady read.now image.now }
    requires reordering { IsReorderingFor read.now image.now reordering.now }
    requires at { IsSectionOfType SHT_GNU_VERSYM image.now (section_model section.now) }
    ensures { IfOk result (λ bytes. AreVersionsOf image.now.form
        (final read.now image.now).dynamic_symbols bytes.items) }
{
    match reordering {
        Some(reordering) => versions_by(alloc, read, image, section, &reordering.order),
        None => {
            let order = counted(alloc, image.dynamic_symbols().len())?;
            versions_by(alloc, read, image, section, &order)
        }
    }
}

/// The bytes of a section with the versions of the dynamic symbols (GNU symbol versioning, `.gnu.version`), in the new order of
/// these: as they were read where the symbols are. Error: `AllocError`.
pub fn versions_content<'data>(
    alloc: Global,
    read: &Builder<'data>,
    image: &Builder<'data>,
    reordering: &Option<Reordering>,
    section: &Section<'data>,
) -> Result<ByteString<'data>, AllocError>
    requires ready { IsEditedReady read.now image.now }
    requires reordering { IsReorderingFor read.now image.now reordering.now }
    requires at { IsSectionOfType SHT_GNU_VERSYM image.now (section_model section.now) }
    ensures sized { IfOk result (λ content. length content.bytes
        ≡ 2 * length image.now.dynamic_symbols) }
    ensures versions { IfOk result (λ content. AreVersionsOf image.now.form
        (final read.now image.now).dynamic_symbols content.bytes) }
{
    if image.keeps_dynamic_symbols() {
        return Ok(versions_copied(read, image, section));
    }
    let bytes = versions_anew(alloc, read, image, reordering, section)?;
    Ok(ByteString::owned(bytes))
}
