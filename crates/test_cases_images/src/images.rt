//! The image of a file.
ghost use Rattle.std.specs.Prelude.{◌<◌, length};

use crate::lists::{print_definitions, print_entries, print_needs, print_segments, print_symbols};
use elf_image::constants::SHT_DYNSYM;
use elf_image::{Builder, ElfFault, Header, Section, SectionData};
use patch_bytes::{ByteOrder2, Wide};
use std::alloc::{AllocError, Global};
use std::io;
use test_cases_written::rows::{Row, Text};

/// The image of a file, read again where memory was refused.
pub(crate) fn read<'f>(alloc: Global, bytes: &'f [u8]) -> Result<Builder<'f>, ElfFault> {
    match Builder::read(alloc, bytes) {
        Err(ElfFault::Memory) => Builder::read(alloc, bytes),
        read => read,
    }
}

/// Prints the image of bytes.
pub(crate) fn print_image(rt: &HostRuntime, bytes: &[u8], image: &Builder<'_>) -> io::Result<()> {
    print_outline(rt, bytes, image)?;
    print_headers(rt, image)?;
    print_lists(rt, image)?;
    print_places(rt, image)?;
    print_copies(rt, image)
}

/// What an image shows besides lists.
#[derive(Debug, Drop)]
struct Outline<'a> {
    class: Wide,
    order: ByteOrder2,
    header: &'a Header,
    interpreter: Option<&'a [u8]>,
    page_size: Option<u32>,
    is_changed: bool,
    is_source: bool,
}

fn outline_of<'a>(bytes: &[u8], image: &'a Builder<'_>) -> Outline<'a> {
    Outline {
        class: image.class(),
        order: image.order(),
        header: image.header(),
        interpreter: image.interp_data(),
        page_size: image.page_size(),
        is_changed: image.changed(),
        is_source: image.source() == bytes,
    }
}

fn print_outline(rt: &HostRuntime, bytes: &[u8], image: &Builder<'_>) -> io::Result<()> {
    println!(rt; "{:?}", outline_of(bytes, image))
}

fn print_headers(rt: &HostRuntime, image: &Builder<'_>) -> io::Result<()> {
    print_segments(rt, image.segments())?;
    print_sections(rt, image)
}

/// The numbers of a section header.
fn numbers(section: &Section<'_>) -> [u64; 9] {
    [
        section.sh_type as u64,
        section.sh_flags,
        section.sh_addr,
        section.sh_offset,
        section.sh_size,
        section.sh_link as u64,
        section.sh_info as u64,
        section.sh_addralign,
        section.sh_entsize,
    ]
}

/// What the bytes of a section are, the number that it had at read, and where the section stands that it leans on.
fn facts(image: &Builder<'_>, i: usize) -> (SectionData, usize, Option<usize>)
    requires { i < length image.now.sections }
{
    let kind = image.sections()[i].kind;
    (kind, image.read_section(i), image.link_position(i))
}

/// Prints of each section its name, facts, numbers and bytes.
fn print_sections(rt: &HostRuntime, image: &Builder<'_>) -> io::Result<()> {
    for i in 0..image.sections().len() {
        print_section(rt, &image.sections()[i], facts(image, i))?;
    }
    Ok(())
}

fn print_section(
    rt: &HostRuntime,
    section: &Section<'_>,
    facts: (SectionData, usize, Option<usize>),
) -> io::Result<()> {
    let (name, bytes) = (Text(section.name.as_slice()), Row(section.content));
    println!(rt; "section {name} {:?}{bytes}", (facts, numbers(section)))
}

fn print_lists(rt: &HostRuntime, image: &Builder<'_>) -> io::Result<()> {
    print_symbols(rt, "symbol", image.symbols())?;
    print_symbols(rt, "dynamic symbol", image.dynamic_symbols())?;
    print_versions(rt, image)?;
    print_entries(rt, image.dynamic_data())
}

fn print_versions(rt: &HostRuntime, image: &Builder<'_>) -> io::Result<()> {
    let versions = image.versions();
    print_definitions(rt, &versions.definitions)?;
    print_needs(rt, &versions.needs)
}

/// Where parts of an image stand, and whether they have their numbers of read.
#[derive(Debug, Drop)]
struct Places {
    fifth: Option<usize>,
    past_all: Option<usize>,
    dynamic_symbols: Option<usize>,
    of_no_type: Option<usize>,
    interpreter: Option<usize>,
    strings: Option<usize>,
    segments_read: usize,
    are_symbols_numbered: (bool, bool),
    are_symbols_kept: bool,
}

fn places_of(image: &Builder<'_>) -> Places {
    Places {
        fifth: image.section_position(4),
        past_all: image.section_position(40),
        dynamic_symbols: image.type_position(SHT_DYNSYM),
        of_no_type: image.type_position(99),
        interpreter: image.interpreter_position(),
        strings: image.dynamic_strings_position(),
        segments_read: image.read_segment_count(),
        are_symbols_numbered: (
            are_symbols_numbered(image),
            are_dynamic_symbols_numbered(image),
        ),
        are_symbols_kept: image.keeps_static_symbols() && image.keeps_dynamic_symbols(),
    }
}

fn print_places(rt: &HostRuntime, image: &Builder<'_>) -> io::Result<()> {
    println!(rt; "{:?}", places_of(image))
}

/// Whether each static symbol has its position as its number.
fn are_symbols_numbered(image: &Builder<'_>) -> bool {
    for i in 0..image.symbols().len() {
        if image.read_symbol(i) != i {
            return false;
        }
    }
    true
}

/// Whether each dynamic symbol has its position as its number.
fn are_dynamic_symbols_numbered(image: &Builder<'_>) -> bool {
    for i in 0..image.dynamic_symbols().len() {
        if image.read_dynamic_symbol(i) != i {
            return false;
        }
    }
    true
}

/// Prints whether a copy of the image shows the same, and the image that is read once more from an edited copy.
fn print_copies(rt: &HostRuntime, image: &Builder<'_>) -> io::Result<()> {
    let (is_copied, is_read) = match copies_made(rt.alloc(), image) {
        Err(_) => copies_made(rt.alloc(), image)?,
        Ok(made) => made,
    };
    println!(rt; "copied {is_copied}, read again {is_read}")
}

fn copies_made(alloc: Global, image: &Builder<'_>) -> Result<(bool, bool), AllocError> {
    let is_copied = is_copy_same(alloc, image)?;
    Ok((is_copied, is_same_when_read_again(alloc, image)?))
}

/// What an image shows, as text.
fn text_of(alloc: Global, image: &Builder<'_>) -> Result<String, AllocError> {
    format!(in alloc; "{image:?}")
}

/// Whether images show the same.
fn is_same(alloc: Global, one: &Builder<'_>, other: &Builder<'_>) -> Result<bool, AllocError> {
    let text = text_of(alloc, one)?;
    Ok(text_of(alloc, other)? == text)
}

fn is_copy_same(alloc: Global, image: &Builder<'_>) -> Result<bool, AllocError> {
    let copy = image.try_clone(alloc)?;
    is_same(alloc, image, &copy)
}

/// A copy of an image with another ABI byte.
fn edited<'d>(alloc: Global, image: &Builder<'d>) -> Result<Builder<'d>, AllocError> {
    let mut copy = image.try_clone(alloc)?;
    copy.set_os_abi(97);
    Ok(copy)
}

/// Whether an edited copy keeps its symbols, and what is read once more of it shows what the image does.
fn is_same_when_read_again(alloc: Global, image: &Builder<'_>) -> Result<bool, AllocError> {
    let copy = edited(alloc, image)?;
    keeps_all(alloc, image, &copy)
}

/// Whether a copy keeps its symbols, and what is read once more of it shows what the image does.
fn keeps_all(alloc: Global, image: &Builder<'_>, copy: &Builder<'_>) -> Result<bool, AllocError> {
    let keeps = copy.keeps_static_symbols() && copy.keeps_dynamic_symbols();
    Ok(keeps && is_read_same(alloc, image, copy)?)
}

/// Whether what is read once more of a copy shows what the image does.
fn is_read_same(
    alloc: Global,
    image: &Builder<'_>,
    copy: &Builder<'_>,
) -> Result<bool, AllocError> {
    let read = copy.read_source(alloc)?;
    is_same(alloc, image, &read)
}
