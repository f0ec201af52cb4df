//! What is told of an ELF file.
ghost use Rattle.std.specs.Prelude.{◌≡◌, ◌∷◌, [], ◌++◌, IfOk, MatchResult, OnOk, is_some, map, option_map};
ghost use Rattle.elf_image.specs.Answers.{borrowed};
ghost use Rattle.elf_image.specs.Image.{image_of, shown};
ghost use Rattle.elf_image.specs.ImageModel.{entry_model, name_model, needs_model, section_model};
ghost use Rattle.arwen_elf.specs.Causes.{RefusesRead};
ghost use Rattle.arwen_elf.specs.Prints.{lossily};
ghost use Rattle.arwen_elf.specs.Reads.{entries_shown, needed_shown, soname_shown, text_if as text_if_told};
ghost use Rattle.arwen_cli_facts.specs.ElfFacts.{AreElfFacts, NamesOf, elf_facts, elf_model, flags_1_of, has_pie_flag, kind_of as kind_told, library_facts, library_model, number_if_tagged, number_tagged, size_of_type as size_told, spare_entries as spare_told, text_tagged, versions_if, versions_needed as versions_told};
ghost use Rattle.arwen_cli_facts.specs.Texts.{texts_model};

use crate::text::{text_if, text_of};
use arwen_elf::elf::{ElfError, Writer, before_nul};
use elf_image::constants::{DT_FLAGS_1, DT_RPATH, DT_RUNPATH, ET_EXEC, SHT_DYNAMIC};
use elf_image::version::{VersionNeed, VersionNeedName};
use elf_image::{Builder, Dynamic, Form, Section};
use std::alloc::{AllocError, Global};

/// The bit of DT_FLAGS_1 that marks a program which may be loaded anywhere (an extension of the gABI's dynamic
/// section).
pub const DF_1_PIE: u64 = 0x0800_0000;

/// What an ELF file is for.
#[derive(Clone, Copy, PartialEq, Eq)]
pub enum ElfKind {
    /// A program with addresses of its own (`ET_EXEC`).
    Program,
    /// A program that may be loaded anywhere: `DF_1_PIE` says so, or it has an interpreter and no name of its own.
    PieProgram,
    /// A program without an interpreter that may be loaded anywhere: it relocates itself.
    StaticPie,
    /// A library, or a loader.
    Library,
}

/// A library that an ELF file needs.
#[derive(Drop)]
pub struct NeededLibrary {
    /// The library's name (`DT_NEEDED`).
    pub name: String,
    /// The versions that are needed of the library, in order (GNU symbol versioning).
    pub versions: Vec<String>,
}

/// What is told of an ELF file. Texts have U+FFFD for what is no character.
#[derive(Drop)]
pub struct ElfSummary {
    /// What the file is for.
    pub kind: ElfKind,
    /// The machine that the file's code is for (gABI, ELF Header, `e_machine`).
    pub machine: u16,
    /// The class and the byte order (gABI, ELF Identification).
    pub form: Form,
    /// The ABI byte (`EI_OSABI`).
    pub os_abi: u8,
    /// The interpreter (`PT_INTERP`), up to its NUL.
    pub interpreter: Option<String>,
    /// The library's own name (`DT_SONAME`).
    pub soname: Option<String>,
    /// The libraries that the file needs, one for each entry (`DT_NEEDED`).
    pub needed: Vec<NeededLibrary>,
    /// The run path of the first `DT_RPATH`.
    pub rpath: Option<String>,
    /// The run path of the first `DT_RUNPATH`.
    pub runpath: Option<String>,
    /// The flags of the first `PT_GNU_STACK`: whether the stack may be read (4), written (2) and run (1).
    pub stack_flags: Option<u32>,
    /// The flags of the first `DT_FLAGS_1`.
    pub flags_1: Option<u64>,
    /// How many dynamic entries can be added before the section has to grow; `None` without a dynamic section.
    pub spare_entries: Option<u64>,
}

/// The texts that stand once in a file.
#[derive(Drop)]
pub(crate) struct ElfNames {
    pub(crate) interpreter: Option<String>,
    pub(crate) soname: Option<String>,
    pub(crate) rpath: Option<String>,
    pub(crate) runpath: Option<String>,
}

/// What is told of the bytes of an ELF file that every read rule accepts; what its section headers show and what a loader
/// sees by its program headers alone then agree. Errors: `Parse` with the fault of the first rule that doesn't hold,
/// `Memory`.
pub fn elf_summary(alloc: Global, bytes: &[u8]) -> Result<ElfSummary, ElfError>
    ensures told { MatchResult result
        (λ s. AreElfFacts bytes.now (elf_model s))
        (λ e. RefusesRead e (image_of bytes.now)) }
{
    let writer = Writer::read(alloc, bytes)?;
    Ok(summary_of(alloc, writer)?)
}

/// What is told of an image that was read.
fn summary_of(alloc: Global, writer: Writer<'_>) -> Result<ElfSummary, AllocError>
    ensures { IfOk result (λ s. elf_model s ≡ elf_facts writer.entry) }
{
    let summary = summary_lent(alloc, &writer);
    drop(writer);
    summary
}

/// What is told of an image that is lent.
fn summary_lent(alloc: Global, writer: &Writer<'_>) -> Result<ElfSummary, AllocError>
    ensures { IfOk result (λ s. elf_model s ≡ elf_facts writer.now) }
{
    let flags_1 = number_of_tag(entries_of(writer), DT_FLAGS_1);
    let needed = needed_libraries(alloc, writer)?;
    let names = names_of(alloc, writer)?;
    Ok(summary_with(writer, flags_1, needed, names))
}

/// What is told of an image with these texts.
fn summary_with(
    writer: &Writer<'_>,
    flags_1: Option<u64>,
    needed: Vec<NeededLibrary>,
    names: ElfNames,
) -> ElfSummary
    requires flags { flags_1 ≡ flags_1_of writer.now }
    requires needed { map library_model needed.items
        ≡ map (library_facts writer.now.needs) (needed_shown (shown writer.now)) }
    requires names { NamesOf writer.now names }
    ensures { elf_model result ≡ elf_facts writer.now }
{
    let image = writer.builder();
    let ElfNames {
        interpreter,
        soname,
        rpath,
        runpath,
    } = names;
    ElfSummary {
        kind: kind_of_image(writer, flags_1),
        machine: image.header().e_machine,
        form: image.form(),
        os_abi: image.header().os_abi,
        interpreter,
        soname,
        needed,
        rpath,
        runpath,
        stack_flags: writer.elf_gnu_exec_stack(),
        flags_1,
        spare_entries: spare_entries(image),
    }
}

/// What an image is for, by its type and by what marks a program.
fn kind_of_image(writer: &Writer<'_>, flags_1: Option<u64>) -> ElfKind
    ensures { result ≡ kind_told writer.now.header.e_type (has_pie_flag flags_1)
        (is_some (shown writer.now).interpreter) (is_some (soname_shown (shown writer.now))) }
{
    let has_interpreter = writer.elf_interpreter().is_some();
    let has_soname = writer.elf_soname().is_some();
    kind_of(
        writer.header().e_type,
        is_marked_pie(flags_1),
        has_interpreter,
        has_soname,
    )
}

/// What a file of a type is for.
fn kind_of(e_type: u16, is_pie: bool, has_interpreter: bool, has_soname: bool) -> ElfKind
    ensures { result ≡ kind_told e_type is_pie has_interpreter has_soname }
{
    if e_type == ET_EXEC {
        return ElfKind::Program;
    }
    match (is_pie, has_interpreter, has_soname) {
        (true, true, _) => ElfKind::PieProgram,
        (true, false, _) => ElfKind::StaticPie,
        (false, true, false) => ElfKind::PieProgram,
        (false, true, true) => ElfKind::Library,
        (false, false, _) => ElfKind::Library,
    }
}

/// Whether the flags mark a program that may be loaded anywhere.
fn is_marked_pie(flags_1: Option<u64>) -> bool
    ensures { result ≡ has_pie_flag flags_1 }
{
    match flags_1 {
        None => false,
        Some(flags) => flags & DF_1_PIE != 0,
    }
}

/// The entries of the dynamic list, none without one.
fn entries_of<'a, 'data>(writer: &'a Writer<'data>) -> &'a [Dynamic<'data>]
    ensures { map entry_model result.now ≡ entries_shown (shown writer.entry.now) }
{
    writer.builder().dynamic_data().unwrap_or_default()
}

/// The number of the first entry with a tag.
fn number_of_tag(entries: &[Dynamic<'_>], tag: u64) -> Option<u64>
    ensures { result ≡ number_tagged tag (map entry_model entries.now) }
{
    for entry in entries {
        if let Some(number) = number_if(entry, tag) {
            return Some(number);
        }
    }
    None
}

/// The number of an entry with a tag.
fn number_if(entry: &Dynamic<'_>, tag: u64) -> Option<u64>
    ensures { result ≡ number_if_tagged tag (entry_model entry.now) }
{
    match entry {
        Dynamic::Integer { tag: own, val } if *own == tag => Some(*val),
        _ => None,
    }
}

/// The text of the first entry with a tag.
fn text_of_tag<'a>(entries: &'a [Dynamic<'_>], tag: u64) -> Option<&'a [u8]>
    ensures { option_map borrowed result ≡ text_tagged tag (map entry_model entries.now) }
{
    for entry in entries {
        if let Some(text) = text_if_tagged(entry, tag) {
            return Some(text);
        }
    }
    None
}

/// The text of an entry with a tag.
fn text_if_tagged<'a>(entry: &'a Dynamic<'_>, tag: u64) -> Option<&'a [u8]>
    ensures { option_map borrowed result ≡ text_if_told (tag ∷ []) (entry_model entry.now) }
{
    match entry {
        Dynamic::Text { tag: own, val } if *own == tag => Some(val.as_slice()),
        _ => None,
    }
}

/// The texts that stand once in an image.
fn names_of(alloc: Global, writer: &Writer<'_>) -> Result<ElfNames, AllocError>
    ensures { IfOk result (NamesOf writer.now) }
{
    let interpreter = text_if(alloc, writer.elf_interpreter().map(before_nul))?;
    let soname = text_if(alloc, writer.elf_soname())?;
    let rpath = text_if(alloc, text_of_tag(entries_of(writer), DT_RPATH))?;
    let runpath = text_if(alloc, text_of_tag(entries_of(writer), DT_RUNPATH))?;
    Ok(ElfNames {
        interpreter,
        soname,
        rpath,
        runpath,
    })
}

/// The libraries that an image needs.
fn needed_libraries(alloc: Global, writer: &Writer<'_>) -> Result<Vec<NeededLibrary>, AllocError>
    ensures { IfOk result (λ made. map library_model made.items
        ≡ map (library_facts writer.now.needs) (needed_shown (shown writer.now))) }
{
    let needs = writer.builder().versions().needs.as_slice();
    let mut made = Vec::new(alloc);
    for name in writer.elf_needed() {
        put_library(alloc, &mut made, name, needs)?;
    }
    Ok(made)
}

/// Puts a library of this name, with the versions that are needed of it, behind others.
fn put_library(
    alloc: Global,
    made: &mut Vec<NeededLibrary>,
    name: &[u8],
    needs: &[VersionNeed<'_>],
) -> Result<(), AllocError>
    ensures { OnOk result (map library_model made.new.items ≡ map library_model made.old.items
        ++ library_facts (map needs_model needs.now) name.now ∷ []) }
{
    made.push(needed_library(alloc, name, needs)?)?;
    Ok(())
}

/// A library of this name, with the versions that are needed of it.
fn needed_library(
    alloc: Global,
    name: &[u8],
    needs: &[VersionNeed<'_>],
) -> Result<NeededLibrary, AllocError>
    ensures { IfOk result (λ made.
        library_model made ≡ library_facts (map needs_model needs.now) name.now) }
{
    let versions = versions_needed(alloc, name, needs)?;
    let name = text_of(alloc, name)?;
    Ok(NeededLibrary { name, versions })
}

/// The versions that are needed of a library.
fn versions_needed(
    alloc: Global,
    name: &[u8],
    needs: &[VersionNeed<'_>],
) -> Result<Vec<String>, AllocError>
    ensures { IfOk result (λ made.
        texts_model made.items ≡ versions_told name.now (map needs_model needs.now)) }
{
    let mut made = Vec::new(alloc);
    for need in needs {
        put_versions_if(alloc, &mut made, name, need)?;
    }
    Ok(made)
}

/// Puts the versions that are needed of a library behind others, where they are needed of this one.
fn put_versions_if(
    alloc: Global,
    made: &mut Vec<String>,
    name: &[u8],
    need: &VersionNeed<'_>,
) -> Result<(), AllocError>
    ensures { OnOk result (texts_model made.new.items
        ≡ texts_model made.old.items ++ versions_if name.now (needs_model need.now)) }
{
    if need.file.as_slice() != name {
        return Ok(());
    }
    put_versions(alloc, made, need.versions.as_slice())
}

/// Puts the names of versions behind other texts.
fn put_versions(
    alloc: Global,
    made: &mut Vec<String>,
    versions: &[VersionNeedName<'_>],
) -> Result<(), AllocError>
    ensures { OnOk result (texts_model made.new.items
        ≡ texts_model made.old.items
        ++ map (λ v. lossily v.name) (map name_model versions.now)) }
{
    for version in versions {
        made.push(text_of(alloc, version.name.as_slice())?)?;
    }
    Ok(())
}

/// How many dynamic entries can be added before the section has to grow.
fn spare_entries(image: &Builder<'_>) -> Option<u64>
    ensures { result ≡ spare_told image.now }
{
    let list = image.dynamic_data()?;
    let places = size_of_type(image.sections(), SHT_DYNAMIC) / image.form().entry_size();
    Some(places.saturating_sub(list.len() + 1) as u64)
}

/// How many bytes the first section of a type has, 0 without one.
fn size_of_type(sections: &[Section<'_>], kind: u32) -> usize
    ensures { result ≡ size_told kind (map section_model sections.now) }
{
    for section in sections {
        if section.sh_type == kind {
            return section.content.len();
        }
    }
    0
}
