//! Hash tables of dynamic symbols (gABI, Hash Table; GNU hash section).
ghost use Rattle.std.specs.Prelude.{◌≡◌, ◌≤◌, IfOk, Some, length};
ghost use Rattle.patch_bytes.specs.Memory.{memory_of};
ghost use Rattle.elf_format.specs.Hashes.{GnuHeader, gnu_header};
ghost use Rattle.elf_format.specs.declared.constants.TheConstants.{SHT_GNU_HASH, SHT_HASH};
ghost use Rattle.elf_hashes.specs.Found.{hashed_names};
ghost use Rattle.elf_hashes.specs.Gabi.{IsGabiTable};
ghost use Rattle.elf_hashes.specs.Gnu.{IsGnuTable};
ghost use Rattle.elf_image.specs.ImageModel.{section_model};
ghost use Rattle.elf_write_spec.specs.Plan.{resized};
ghost use Rattle.elf_write_spec.specs.Sizes.{hash_size};
ghost use Rattle.elf_write_spec.specs.Contents.{IsGabiContent, IsGnuContent, gabi_buckets, sizes_in};
ghost use Rattle.elf_write_spec.specs.Final.{final};
ghost use Rattle.elf_write_spec.specs.Ready.{IsEditedReady, IsSectionOfType};
ghost use Rattle.elf_write_symbols.specs.Renumbering.{IsReordering, IsReorderingFor};

use crate::renumbering::Reordering;
use elf_format::form::Form;
use elf_format::numbers::word_at;
use elf_hashes::{GnuSizes, build_gnu_hash, build_hash};
use elf_image::{Builder, Section};
use elf_write_spec::TableFault;
use patch_bytes::ByteString;
use std::alloc::{AllocError, Global};

// The gABI's hash table of the symbols in their new order, as many buckets as it had.
fn gabi_anew(
    alloc: Global,
    read: &Builder<'_>,
    image: &Builder<'_>,
    reordering: &Reordering,
    section: &Section<'_>,
) -> Result<Vec<u8>, AllocError>
    requires ready { IsEditedReady read.now image.now }
    requires reordering { IsReordering read.now image.now reordering.now }
    requires at { IsSectionOfType SHT_HASH image.now (section_model section.now) }
    ensures { IfOk result (λ bytes. IsGabiTable image.now.form
        (gabi_buckets image.now.form section.now.content.now)
        (hashed_names (final read.now image.now).dynamic_symbols) bytes.items) }
{
    let form = image.form();
    let buckets = word_at(form, section.content, 0);
    match build_hash(
        alloc,
        image.dynamic_symbols(),
        &reordering.order,
        buckets,
        form,
    ) {
        Ok(bytes) => Ok(bytes),
        Err(TableFault::Memory) => Err(AllocError),
        Err(TableFault::NumberTooLarge) => unreachable!(),
    }
}

/// The bytes of the gABI's hash table (gABI, Hash Table): as they were read where the names of the dynamic symbols are, else
/// made of the symbols in their new order, as many buckets as there were. Error: `AllocError`.
pub fn gabi_content<'data>(
    alloc: Global,
    read: &Builder<'data>,
    image: &Builder<'data>,
    reordering: &Option<Reordering>,
    section: &Section<'data>,
) -> Result<ByteString<'data>, AllocError>
    requires ready { IsEditedReady read.now image.now }
    requires reordering { IsReorderingFor read.now image.now reordering.now }
    requires at { IsSectionOfType SHT_HASH image.now (section_model section.now) }
    ensures sized { IfOk result (λ content. length content.bytes
        ≡ hash_size read.now image.now (section_model section.now)) }
    ensures table { IfOk result (λ content.
        IsGabiContent (resized image.now) (section_model section.now) content.bytes) }
{
    let Some(reordering) = reordering else {
        return Ok(ByteString::borrowed(section.content));
    };
    let bytes = gabi_anew(alloc, read, image, reordering, section)?;
    Ok(ByteString::owned(bytes))
}

// The sizes that a GNU hash table tells.
fn sizes(form: Form, content: &[u8]) -> GnuSizes
    requires { 16 ≤ length content.now }
    ensures { (header : GnuHeader) → gnu_header form (memory_of content.now) ≡ Some header
        → result ≡ sizes_in header }
{
    GnuSizes {
        buckets: word_at(form, content, 0),
        filter_words: word_at(form, content, 8),
        filter_shift: word_at(form, content, 12),
    }
}

// The GNU hash table of the symbols in their new order, of the sizes that it had.
fn gnu_anew(
    alloc: Global,
    read: &Builder<'_>,
    image: &Builder<'_>,
    reordering: &Reordering,
    section: &Section<'_>,
) -> Result<Vec<u8>, AllocError>
    requires ready { IsEditedReady read.now image.now }
    requires reordering { IsReordering read.now image.now reordering.now }
    requires at { IsSectionOfType SHT_GNU_HASH image.now (section_model section.now) }
    ensures { IfOk result (λ bytes. (header : GnuHeader)
        → gnu_header image.now.form (memory_of section.now.content.now) ≡ Some header
        → IsGnuTable image.now.form (sizes_in header)
        (hashed_names (final read.now image.now).dynamic_symbols) bytes.items) }
{
    let form = image.form();
    let sizes = sizes(form, section.content);
    match build_gnu_hash(
        alloc,
        image.dynamic_symbols(),
        &reordering.order,
        &reordering.hashes,
        sizes,
        form,
    ) {
        Ok(bytes) => Ok(bytes),
        Err(TableFault::Memory) => Err(AllocError),
        Err(TableFault::NumberTooLarge) => unreachable!(),
    }
}

/// The bytes of the GNU hash table (GNU hash section): as they were read where the names of the dynamic symbols are, else made
/// of the symbols in their new order, with buckets, words of the filter and shift as there were. Error: `AllocError`.
pub fn gnu_content<'data>(
    alloc: Global,
    read: &Builder<'data>,
    image: &Builder<'data>,
    reordering: &Option<Reordering>,
    section: &Section<'data>,
) -> Result<ByteString<'data>, AllocError>
    requires ready { IsEditedReady read.now image.now }
    requires reordering { IsReorderingFor read.now image.now reordering.now }
    requires at { IsSectionOfType SHT_GNU_HASH image.now (section_model section.now) }
    ensures sized { IfOk result (λ content. length content.bytes
        ≡ hash_size read.now image.now (section_model section.now)) }
    ensures table { IfOk result (λ content.
        IsGnuContent (resized image.now) (section_model section.now) content.bytes) }
{
    let Some(reordering) = reordering else {
        return Ok(ByteString::borrowed(section.content));
    };
    let bytes = gnu_anew(alloc, read, image, reordering, section)?;
    Ok(ByteString::owned(bytes))
}
