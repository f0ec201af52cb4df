//! What takes a block of memory, and what may be done where two overlap that never move.
ghost use Rattle.std.specs.Prelude.{◌≡◌, Some};
ghost use Rattle.elf_format.specs.Options.{is_some_and};
ghost use Rattle.elf_layout_reasons.specs.Advice.{advice_for as advice_by, advice_words, is_grown_list as grown_list, name_of as name_by, part_of as part_by, part_words, section_of as section_by};

use crate::stuck::StuckPair;
use elf_format::constants::SHT_DYNAMIC;
use elf_format::form::Form;
use elf_image::Builder;
use elf_layout_moves::blocks::MemoryBlock;
use std::fmt;

/// What takes a block of memory.
#[derive(Clone, Copy, Debug, PartialEq, Eq)]
pub enum Part {
    /// The file header.
    FileHeader,
    /// The program header table.
    HeaderTable,
    /// Where a loaded segment starts, or where its file part or its memory ends.
    SegmentEdge,
    /// The section at a position.
    Section(usize),
}

impl fmt::Display for Part {
    ghost output = { λ part. Some (part_words part) };

    fn fmt<W: fmt::Write>(&self, f: &mut fmt::Formatter<W>) -> fmt::Result {
        match self {
            Part::FileHeader => write!(f, "the file header"),
            Part::HeaderTable => write!(f, "the program header table"),
            Part::SegmentEdge => write!(f, "the edge of a loaded segment"),
            Part::Section(position) => write!(f, "section {position}"),
        }
    }
}

/// What may be done where two blocks overlap that never move.
#[derive(Clone, Copy, Debug, PartialEq, Eq)]
pub enum Advice {
    /// The dynamic section grows past its spare entries: link with more of them, or let the edit need fewer entries.
    SpareEntries,
    /// The program header table grows past its room.
    SpareHeaders,
}

impl Advice {
    /// What is missing, in words.
    pub fn words(self) -> &'static str
        ensures { result.now ≡ advice_words self }
    {
        match self {
            Advice::SpareEntries => "no spare entry (--move-dynamic lets it move)",
            Advice::SpareHeaders => "no room for a further entry",
        }
    }
}

impl fmt::Display for Advice {
    ghost output = { λ advice. Some (advice_words advice) };

    fn fmt<W: fmt::Write>(&self, f: &mut fmt::Formatter<W>) -> fmt::Result {
        let words = self.words();
        write!(f, "{words}")
    }
}

// What takes a block of a file of a form.
fn part_in(form: Form, block: MemoryBlock) -> Part
    ensures { result ≡ part_by form block }
{
    match block.section {
        Some(position) => Part::Section(position),
        None if block.size == 0 => Part::SegmentEdge,
        None if block.size == form.file_header_size() as u128 => Part::FileHeader,
        None => Part::HeaderTable,
    }
}

/// What takes a block of an image.
pub fn part_of(image: &Builder<'_>, block: MemoryBlock) -> Part
    ensures { result ≡ part_by image.now.form block }
{
    part_in(image.form(), block)
}

// Whether a block is that of the dynamic section and takes more bytes than the section had.
fn is_grown_list(image: &Builder<'_>, block: MemoryBlock) -> bool
    ensures { result ≡ is_some_and (grown_list block) (section_by image.now block) }
{
    let Some(position) = block.section else {
        return false;
    };
    match image.sections().get(position) {
        None => false,
        Some(section) => {
            section.sh_type == SHT_DYNAMIC && (section.sh_size as u128) < block.size
        }
    }
}

/// What may be done where two blocks of an image overlap, by the one that starts first; `None` where nothing is known.
pub fn advice_for(image: &Builder<'_>, pair: &StuckPair) -> Option<Advice>
    ensures { result ≡ advice_by image.now pair.now.earlier }
{
    if is_grown_list(image, pair.earlier) {
        return Some(Advice::SpareEntries);
    }
    match part_of(image, pair.earlier) {
        Part::HeaderTable => Some(Advice::SpareHeaders),
        _ => None,
    }
}

/// The name of a section, empty for what is no section of the image.
pub fn name_of<'a>(image: &'a Builder<'_>, part: Part) -> &'a [u8]
    ensures { result.now ≡ name_by image.now part }
{
    let Part::Section(position) = part else {
        return &[];
    };
    match image.sections().get(position) {
        None => &[],
        Some(section) => section.name.as_slice(),
    }
}
