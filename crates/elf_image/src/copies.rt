//! Copies of an image: what is borrowed is lent again, what is owned is copied.
ghost use Rattle.std.specs.Prelude.{◌≡◌, map, IfOk};
ghost use Rattle.elf_image.specs.Copies.{listed_parts_model};
ghost use Rattle.elf_image.specs.ImageModel.{entry_model, section_model};
ghost use Rattle.elf_image.specs.ImageSteps.{listed_model};

use crate::builder::Builder;
use crate::read::Listed;
use crate::version::Versions;
use elf_image_headers::dynamic::Dynamic;
use elf_image_headers::section::Section;
use elf_image_headers::segment;
use patch_bytes::ByteString;
use std::alloc::{AllocError, Global};

impl<'data> Builder<'data> {
    /// A copy of the image: what is borrowed is lent again, what is owned copied. Error:
    /// `AllocError`.
    pub fn try_clone(&self, alloc: Global) -> Result<Builder<'data>, AllocError>
        ensures { IfOk result (λ copy. copy ≡ self.now) }
    {
        let texts = copied_texts(
            alloc,
            &self.sections,
            &self.dynamic,
            &self.versions,
            &self.interpreter,
        )?;
        let tables = copied_tables(alloc, &self.segments, &self.section_numbers)?;
        let lists = self.lists.try_clone(alloc)?;
        Ok(Builder {
            source: self.source,
            changed: self.changed,
            form: self.form,
            header: self.header,
            segments: tables.segments,
            sections: texts.sections,
            lists,
            versions: texts.listed.versions,
            dynamic: texts.listed.dynamic,
            interpreter: texts.interpreter,
            section_numbers: tables.section_numbers,
            page_size: self.page_size,
            moves_dynamic: self.moves_dynamic,
        })
    }
}

// Copies of what has texts, besides symbols.
#[derive(Drop)]
struct Texts<'data> {
    sections: Vec<Section<'data>>,
    listed: Listed<'data>,
    interpreter: Option<ByteString<'data>>,
}

// Copies of what has numbers alone.
#[derive(Drop)]
struct Tables {
    segments: Vec<segment::Segment>,
    section_numbers: Vec<usize>,
}

// Copies of the sections, the dynamic list, the versions and the interpreter of an image.
fn copied_texts<'data>(
    alloc: Global,
    sections: &[Section<'data>],
    dynamic: &Option<Vec<Dynamic<'data>>>,
    versions: &Versions<'data>,
    interpreter: &Option<ByteString<'data>>,
) -> Result<Texts<'data>, AllocError>
    ensures sections { IfOk result (λ texts.
        map section_model texts.sections.items ≡ map section_model sections.now) }
    ensures listed { IfOk result (λ texts.
        listed_model texts.listed ≡ listed_parts_model dynamic.now versions.now) }
    ensures interpreter { IfOk result (λ texts. texts.interpreter ≡ interpreter.now) }
{
    let sections = copied_sections(alloc, sections)?;
    let listed = copied_listed(alloc, dynamic, versions)?;
    let interpreter = copied_interpreter(alloc, interpreter)?;
    Ok(Texts {
        sections,
        listed,
        interpreter,
    })
}

// Copies of program headers and of numbers of sections.
fn copied_tables(
    alloc: Global,
    segments: &[segment::Segment],
    numbers: &[usize],
) -> Result<Tables, AllocError>
    ensures segments { IfOk result (λ tables. tables.segments.items ≡ segments.now) }
    ensures numbers { IfOk result (λ tables. tables.section_numbers.items ≡ numbers.now) }
{
    let segments = Vec::from_slice(alloc, segments)?;
    let section_numbers = Vec::from_slice(alloc, numbers)?;
    Ok(Tables {
        segments,
        section_numbers,
    })
}

// Copies of a dynamic list and of versions.
fn copied_listed<'data>(
    alloc: Global,
    dynamic: &Option<Vec<Dynamic<'data>>>,
    versions: &Versions<'data>,
) -> Result<Listed<'data>, AllocError>
    ensures { IfOk result (λ copies.
        listed_model copies ≡ listed_parts_model dynamic.now versions.now) }
{
    let versions = versions.try_clone(alloc)?;
    let dynamic = match dynamic {
        None => None,
        Some(list) => Some(copied_entries(alloc, list)?),
    };
    Ok(Listed { dynamic, versions })
}

// A copy of an interpreter.
fn copied_interpreter<'data>(
    alloc: Global,
    interpreter: &Option<ByteString<'data>>,
) -> Result<Option<ByteString<'data>>, AllocError>
    ensures { IfOk result (λ copy. copy ≡ interpreter.now) }
{
    match interpreter {
        None => Ok(None),
        Some(bytes) => Ok(Some(bytes.try_clone(alloc)?)),
    }
}

// Copies of sections.
fn copied_sections<'data>(
    alloc: Global,
    sections: &[Section<'data>],
) -> Result<Vec<Section<'data>>, AllocError>
    ensures { IfOk result (λ copies.
        map section_model copies.items ≡ map section_model sections.now) }
{
    let mut made = Vec::with_capacity(alloc, sections.len())?;
    for section in sections {
        let name = section.name.try_clone(alloc)?;
        made.push(Section {
            name,
            kind: section.kind,
            sh_type: section.sh_type,
            sh_flags: section.sh_flags,
            sh_addr: section.sh_addr,
            sh_offset: section.sh_offset,
            sh_size: section.sh_size,
            sh_link: section.sh_link,
            sh_info: section.sh_info,
            sh_addralign: section.sh_addralign,
            sh_entsize: section.sh_entsize,
            content: section.content,
        })?;
    }
    Ok(made)
}

// Copies of entries.
fn copied_entries<'data>(
    alloc: Global,
    entries: &[Dynamic<'data>],
) -> Result<Vec<Dynamic<'data>>, AllocError>
    ensures { IfOk result (λ copies. map entry_model copies.items ≡ map entry_model entries.now) }
{
    let mut made = Vec::with_capacity(alloc, entries.len())?;
    for entry in entries {
        let one = entry.try_clone(alloc)?;
        made.push(one)?;
    }
    Ok(made)
}
