//! The bytes of each section that is written.
ghost use Rattle.std.specs.Prelude.{◌≡◌, ◌<◌, ◌==◌, ◌*◌, IfOk, IsTrue, false, length, slice_index, unwrap_or};
ghost use Rattle.std.specs.List.{list_all};
ghost use Rattle.patch_bytes.specs.ByteString.{bytes_of_each};
ghost use Rattle.elf_format.specs.declared.constants.TheConstants.{SHT_GNU_VERSYM as VERSYM};
ghost use Rattle.elf_format.specs.Options.{is_some_and};
ghost use Rattle.elf_write_symbol_tables.specs.Versions.{AreVersionsOf};
ghost use Rattle.elf_tables.specs.Fields.{do_fields_fit};
ghost use Rattle.elf_tables.specs.Spelled.{entry_fields};
ghost use Rattle.elf_image.specs.Kept.{interpreter_number as number_of_interpreter, kept_sections};
ghost use Rattle.elf_layout_plan.specs.Plan.{resized};
ghost use Rattle.elf_image.specs.ImageModel.{section_model};
ghost use Rattle.elf_write_symbol_tables.specs.Fits.{do_numbers_fit_in, do_section_relocations_fit};
ghost use Rattle.elf_write_symbol_tables.specs.Renumbering.{IsRenumbering, IsReorderingFor};
ghost use Rattle.elf_write_contents.specs.ContentSteps.{IsBytesAt, IsNumbering, IsRelocated, made_or};
ghost use Rattle.elf_write_symbol_tables.specs.WrittenStrings.{AreStrings};
ghost use Rattle.elf_write_spec.specs.Contents.{AreVersionsIn};
ghost use Rattle.elf_write_spec.specs.Final.{final};
ghost use Rattle.elf_write_spec.specs.Ready.{IsEditedReady, IsSectionOfType};
ghost use Rattle.elf_write_contents.specs.Inner.{AreContents, AreRaw, IsPlanned};

use crate::entries::list_content;
use elf_format::records::EntryNumbers;
use elf_format::section_data::SectionData;
use elf_image::constants::{
    SHT_DYNAMIC, SHT_DYNSYM, SHT_GNU_HASH, SHT_GNU_VERDEF, SHT_GNU_VERNEED, SHT_GNU_VERSYM,
    SHT_HASH, SHT_STRTAB, SHT_SYMTAB,
};
use elf_image::{Builder, Section};
use elf_layout_plan::{Plan, is_numbered};
use elf_write_symbol_tables::made::{Made, made_of};
use elf_write_symbol_tables::versions::{definitions_content, needs_content};
use elf_write_symbol_tables::{
    Renumbering, Reordering, dynamic_symbols_content, gabi_content, gnu_content,
    relocations_content, static_symbols_content, versions_content,
};
use patch_bytes::ByteString;
use std::alloc::{AllocError, Global};

/// The bytes of each section, in the order of the sections; none where it has none in the file. What stays as it was read is
/// not copied. Errors: a growth was refused.
pub fn contents<'a, 'data>(
    alloc: Global,
    read: &'a Builder<'data>,
    image: &'a Builder<'data>,
    plan: &Plan,
    made: &'a [Made<'_>],
    renumbering: &Renumbering,
    raw: &[EntryNumbers],
) -> Result<Vec<ByteString<'a>>, AllocError>
    requires planned { IsPlanned read.now image.now plan.now }
    requires strings { AreStrings read.now image.now made.now }
    requires renumbering { IsRenumbering read.now image.now renumbering.now }
    requires relocations { IsTrue (list_all (do_section_relocations_fit read.now image.now)
        (kept_sections image.now)) }
    requires raw { AreRaw (resized image.now) plan.now made.now raw.now }
    requires fit { IsTrue (list_all (λ e. do_fields_fit (entry_fields image.now.form e))
        raw.now) }
    ensures { IfOk result (λ contents. AreContents (resized image.entry.now) plan.now
        made.entry.now raw.now (kept_sections image.entry.now) plan.now.places
        (bytes_of_each contents.items)) }
{
    let interpreter = read.interpreter_number();
    let mut contents = Vec::new(alloc);
    for i in 0..image.sections().len() {
        let bytes = if is_numbered(interpreter, image.read_section(i)) {
            interpreter_content(image, &image.sections()[i])
        } else {
            section_content(alloc, read, image, plan, made, renumbering, raw, i)?
        };
        contents.push(bytes)?;
    }
    Ok(contents)
}

// The bytes of the interpreter's section: its name, which is as it was read where no program header names it any more.
fn interpreter_content<'a, 'data>(
    image: &'a Builder<'data>,
    section: &'a Section<'data>,
) -> ByteString<'a>
    ensures { result.bytes
        ≡ unwrap_or image.entry.now.interpreter (section_model section.entry.now).content }
{
    let Some(name) = image.interp_data() else {
        return ByteString::borrowed(section.content);
    };
    ByteString::borrowed(name)
}

// The bytes of a string table that had that number: those of the table that is told anew, else those that were read.
fn strings_content<'a, 'data>(
    made: &'a [Made<'_>],
    section: &'a Section<'data>,
    number: usize,
) -> ByteString<'a>
    ensures { result.bytes ≡ made_or made.entry.now number section.entry.now.content.now }
{
    let Some(made) = made_of(made, number) else {
        return ByteString::borrowed(section.content);
    };
    ByteString::borrowed(made.table.bytes())
}

// The bytes of the section at a position, which isn't the interpreter's.
fn section_content<'a, 'data>(
    alloc: Global,
    read: &'a Builder<'data>,
    image: &'a Builder<'data>,
    plan: &Plan,
    made: &'a [Made<'_>],
    renumbering: &Renumbering,
    raw: &[EntryNumbers],
    i: usize,
) -> Result<ByteString<'a>, AllocError>
    requires planned { IsPlanned read.now image.now plan.now }
    requires strings { AreStrings read.now image.now made.now }
    requires renumbering { IsRenumbering read.now image.now renumbering.now }
    requires relocations { IsTrue (list_all (do_section_relocations_fit read.now image.now)
        (kept_sections image.now)) }
    requires raw { AreRaw (resized image.now) plan.now made.now raw.now }
    requires fit { IsTrue (list_all (λ e. do_fields_fit (entry_fields image.now.form e))
        raw.now) }
    requires within { i < length image.now.sections }
    requires apart { is_some_and (λ n. n == slice_index image.now.section_numbers i)
        (number_of_interpreter read.now) ≡ false }
    ensures { IfOk result (λ content.
        IsBytesAt image.entry.now plan.now made.entry.now raw.now i content.bytes) }
{
    let section = &image.sections()[i];
    match section.sh_type {
        SHT_DYNAMIC => {
            let size = plan.places()[i].sh_size;
            let bytes = list_content(alloc, image.form(), raw, size)?;
            Ok(ByteString::owned(bytes))
        }
        SHT_STRTAB => Ok(strings_content(made, section, image.read_section(i))),
        SHT_SYMTAB => static_symbols_content(alloc, read, image, made, renumbering, section),
        SHT_DYNSYM => dynamic_symbols_content(alloc, read, image, made, renumbering, section),
        SHT_GNU_VERDEF => {
            let bytes = definitions_content(alloc, read, image, made, section)?;
            Ok(ByteString::owned(bytes))
        }
        SHT_GNU_VERNEED => {
            let bytes = needs_content(alloc, read, image, made, section)?;
            Ok(ByteString::owned(bytes))
        }
        _ => numbering_content(alloc, read, image, renumbering, section),
    }
}

// Bytes that hold the versions of the symbols are those that were read, where no version changed.
fn show_versions(
    read: &Builder<'_>,
    image: &Builder<'_>,
    section: &Section<'_>,
    content: &[u8],
    bytes: &[u8],
)
    requires ready { IsEditedReady read.now image.now }
    requires at { IsSectionOfType VERSYM image.now (section_model section.now) }
    requires content { content.now ≡ (section_model section.now).content }
    requires versions { AreVersionsOf image.now.form (final read.now image.now).dynamic_symbols
        bytes.now }
    ensures { AreVersionsIn (resized image.now) (section_model section.now) bytes.now }
{}

// The bytes of the section of versions.
fn symbol_versions<'data>(
    alloc: Global,
    read: &Builder<'data>,
    image: &Builder<'data>,
    reordering: &Option<Reordering>,
    section: &Section<'data>,
) -> Result<ByteString<'data>, AllocError>
    requires ready { IsEditedReady read.now image.now }
    requires reordering { IsReorderingFor read.now image.now reordering.now }
    requires at { IsSectionOfType VERSYM image.now (section_model section.now) }
    ensures sized { IfOk result (λ content. length content.bytes
        ≡ 2 * length image.now.dynamic_symbols) }
    ensures versions { IfOk result (λ content.
        AreVersionsIn (resized image.now) (section_model section.now) content.bytes) }
{
    let bytes = versions_content(alloc, read, image, reordering, section)?;
    show_versions(read, image, section, section.content, bytes.as_slice());
    Ok(bytes)
}

// The bytes of a section that numbers the dynamic symbols, or of one that is as it was read: none of those of which the
// bytes are made by types above.
fn numbering_content<'data>(
    alloc: Global,
    read: &Builder<'data>,
    image: &Builder<'data>,
    renumbering: &Renumbering,
    section: &Section<'data>,
) -> Result<ByteString<'data>, AllocError>
    requires ready { IsEditedReady read.now image.now }
    requires renumbering { IsRenumbering read.now image.now renumbering.now }
    requires at { IsSectionOfType section.now.sh_type image.now (section_model section.now) }
    requires fit { IsTrue (do_numbers_fit_in read.now image.now (section_model section.now)) }
    ensures { IfOk result (λ content. IsNumbering read.now image.now
        (section_model section.now) content.bytes) }
{
    match section.sh_type {
        SHT_GNU_VERSYM => symbol_versions(alloc, read, image, &renumbering.dynamic, section),
        SHT_HASH => gabi_content(alloc, read, image, &renumbering.dynamic, section),
        SHT_GNU_HASH => gnu_content(alloc, read, image, &renumbering.dynamic, section),
        _ => relocated_content(alloc, read, image, renumbering, section),
    }
}

// The bytes of a section of relocations that is one, or of one that is as it was read.
fn relocated_content<'data>(
    alloc: Global,
    read: &Builder<'data>,
    image: &Builder<'data>,
    renumbering: &Renumbering,
    section: &Section<'data>,
) -> Result<ByteString<'data>, AllocError>
    requires ready { IsEditedReady read.now image.now }
    requires renumbering { IsRenumbering read.now image.now renumbering.now }
    requires at { IsSectionOfType section.now.sh_type image.now (section_model section.now) }
    requires fit { IsTrue (do_numbers_fit_in read.now image.now (section_model section.now)) }
    ensures { IfOk result (λ content. IsRelocated (resized image.now)
        (section_model section.now) content.bytes) }
{
    match section.kind {
        SectionData::Relocation => { relocations_content(alloc, read, image, renumbering, section) }
        _ => Ok(ByteString::borrowed(section.content)),
    }
}
