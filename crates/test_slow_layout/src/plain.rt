//! An edited image as plain records, each number in 128 bits.
ghost use Rattle.std.specs.Prelude.{◌≡◌, IfOk, map, slice_get, unwrap_or};
ghost use Rattle.elf_image.specs.ImageModel.{section_model, segment_model};
ghost use Rattle.test_slow_layout.specs.Plain.{AreParts, IsPlain, part_with, piece_with};

use elf_format::constants::{
    PF_X, PT_INTERP, PT_LOAD, SHF_ALLOC, SHF_EXECINSTR, SHF_TLS, SHF_WRITE, SHT_DYNAMIC,
    SHT_DYNSYM, SHT_NOBITS, SHT_NOTE, SHT_NULL, SHT_PROGBITS,
};
use elf_image::{Builder, Section, Segment};
use elf_layout_plan::constants::{PF_R, PF_W};
use patch_bytes::Wide;
use std::alloc::{AllocError, Global};

/// A section with its new size.
#[derive(Clone, Copy)]
pub struct Part {
    /// Where the section stands among the sections of the edited image, from 0.
    pub position: usize,
    /// The section's number at read.
    pub(crate) number: usize,
    /// The section's type (gABI, Sections).
    pub sh_type: u32,
    /// The section's flags (gABI, Sections).
    pub sh_flags: u64,
    pub(crate) link: u32,
    pub(crate) address: u128,
    pub(crate) offset: u128,
    /// The section's size at read.
    pub(crate) old: u128,
    pub(crate) size: u128,
    pub(crate) align: u128,
}

impl Part {
    /// The section is in memory when the program runs.
    pub(crate) fn is_loaded(&self) -> bool {
        self.sh_flags & SHF_ALLOC != 0
    }

    /// The section is one of those that have bytes in the file.
    pub(crate) fn is_in_file(&self) -> bool {
        self.sh_type != SHT_NULL && self.sh_type != SHT_NOBITS
    }

    /// The section had bytes in the file.
    pub(crate) fn had_bytes(&self) -> bool {
        self.is_in_file() && self.old != 0
    }

    /// The section takes memory of its own.
    pub(crate) fn takes_memory(&self) -> bool {
        let of_threads = self.sh_type == SHT_NOBITS && self.sh_flags & SHF_TLS != 0;
        self.is_loaded() && self.sh_type != SHT_NULL && !of_threads
    }
}

/// A program header (gABI, Program Header).
#[derive(Clone, Copy)]
pub struct Piece {
    /// The segment's type.
    pub p_type: u32,
    /// The segment's flags.
    pub p_flags: u32,
    /// Where its bytes begin in the file.
    pub offset: u128,
    /// Where the bytes of the program header are loaded.
    pub address: u128,
    /// The segment's physical address.
    pub physical: u128,
    /// How many bytes it has in the file.
    pub in_file: u128,
    /// How many bytes it has in memory.
    pub in_memory: u128,
    /// The segment's alignment.
    pub align: u128,
}

impl Piece {
    pub(crate) fn is_loaded(&self) -> bool {
        self.p_type == PT_LOAD
    }

    /// The segment's part of the file has all of a range.
    pub(crate) fn has(&self, offset: u128, size: u128) -> bool {
        self.offset <= offset
            && offset.saturating_add(size) <= self.offset.saturating_add(self.in_file)
    }

    /// The segment has the range, and shows it at the address.
    pub(crate) fn shows(&self, offset: u128, size: u128, address: u128) -> bool {
        self.has(offset, size)
            && address.saturating_add(self.offset) == self.address.saturating_add(offset)
    }

    /// Where its part of the file ends.
    pub(crate) fn file_end(&self) -> u128 {
        self.offset.saturating_add(self.in_file)
    }

    /// Where its memory ends.
    pub(crate) fn memory_end(&self) -> u128 {
        self.address.saturating_add(self.in_memory)
    }
}

/// The image that was read, the edited one and the new sizes.
#[derive(Drop)]
pub struct Plain {
    pub(crate) read_parts: Vec<Part>,
    /// The sections of the edited image.
    pub parts: Vec<Part>,
    pub(crate) read_pieces: Vec<Piece>,
    pub(crate) pieces: Vec<Piece>,
    pub(crate) facts: Facts,
}

impl Plain {
    /// Some loaded segment of the edited image has a range, and shows it at the address.
    pub(crate) fn shows(&self, offset: u128, size: u128, address: u128) -> bool {
        for piece in &self.pieces {
            if piece.is_loaded() && piece.shows(offset, size, address) {
                return true;
            }
        }
        false
    }

    /// The flags of a loaded segment for a section: all but notes may be written where the dynamic section may move.
    pub(crate) fn segment_flags(&self, part: &Part) -> u32 {
        if part.sh_type == SHT_NOTE {
            return PF_R;
        }
        let write = if self.facts.moves_dynamic || part.sh_flags & SHF_WRITE != 0 {
            PF_W
        } else {
            0
        };
        let run = if part.sh_flags & SHF_EXECINSTR != 0 {
            PF_X
        } else {
            0
        };
        PF_R | write | run
    }
}

/// What else is asked of an image.
#[derive(Clone, Copy)]
pub(crate) struct Facts {
    /// The size of the file header.
    pub(crate) file_header: u128,
    /// The size of a program header.
    pub(crate) program_header: u128,
    /// The size of a word.
    pub(crate) word: u128,
    /// The largest number that a word holds.
    pub(crate) most: u128,
    pub(crate) machine: u16,
    pub(crate) e_phoff: u128,
    pub(crate) page_size: Option<u128>,
    pub(crate) source_size: u128,
    /// The number of the interpreter's section.
    pub(crate) interpreter: Option<usize>,
    /// The number of the dynamic strings.
    pub(crate) strings: Option<usize>,
    /// The dynamic section may move.
    pub(crate) moves_dynamic: bool,
}

fn part_of(section: &Section<'_>, position: usize, number: usize, size: u64) -> Part
    ensures { result ≡ part_with (section_model section.now) position number size }
{
    Part {
        position,
        number,
        sh_type: section.sh_type,
        sh_flags: section.sh_flags,
        link: section.sh_link,
        address: u128::from(section.sh_addr),
        offset: u128::from(section.sh_offset),
        old: u128::from(section.sh_size),
        size: u128::from(size),
        align: u128::from(section.sh_addralign).max(1),
    }
}

fn piece_of(segment: &Segment<'_>) -> Piece
    ensures { result ≡ piece_with (segment_model segment.now) }
{
    Piece {
        p_type: segment.p_type(),
        p_flags: segment.p_flags(),
        offset: u128::from(segment.p_offset()),
        address: u128::from(segment.p_vaddr()),
        physical: u128::from(segment.p_paddr()),
        in_file: u128::from(segment.p_filesz()),
        in_memory: u128::from(segment.p_memsz()),
        align: u128::from(segment.p_align()),
    }
}

fn pieces_of(alloc: Global, segments: &[Segment<'_>]) -> Result<Vec<Piece>, AllocError>
    ensures { IfOk result (λ pieces.
        pieces.items ≡ map piece_with (map segment_model segments.now)) }
{
    let mut pieces = Vec::new(alloc);
    for segment in segments {
        pieces.push(piece_of(segment))?;
    }
    Ok(pieces)
}

/// The size that is told for a position, or a section's own where none is.
fn size_at(sizes: &[u64], position: usize, own: u64) -> u64
    ensures { result ≡ unwrap_or (slice_get sizes.now position) own }
{
    match sizes.get(position) {
        Some(size) => *size,
        None => own,
    }
}

/// The sections of an image, with these sizes.
fn parts_of(alloc: Global, image: &Builder<'_>, sizes: &[u64]) -> Result<Vec<Part>, AllocError>
    ensures { IfOk result (λ parts. AreParts image.now sizes.now parts.items) }
{
    let sections = image.sections();
    let mut parts = Vec::new(alloc);
    for position in 0..sections.len() {
        let section = &sections[position];
        let size = size_at(sizes, position, section.sh_size);
        let number = image.read_section(position);
        parts.push(part_of(section, position, number, size))?;
    }
    Ok(parts)
}

/// The first section that stands where PT_INTERP says, in the image that was read.
fn interpreter_of(parts: &[Part], pieces: &[Piece]) -> Option<usize> {
    let piece = pieces.iter().find(|piece| piece.p_type == PT_INTERP)?;
    for part in parts {
        if part.sh_type == SHT_PROGBITS
            && part.offset == piece.offset
            && part.address == piece.address
            && part.old == piece.in_file
        {
            return Some(part.number);
        }
    }
    None
}

/// The section that the first of a type links to.
fn link_of(parts: &[Part], sh_type: u32) -> Option<usize> {
    for part in parts {
        if part.sh_type == sh_type {
            return Some(part.link as usize);
        }
    }
    None
}

fn facts_of(image: &Builder<'_>, interpreter: Option<usize>, strings: Option<usize>) -> Facts {
    let (file_header, program_header, word, most) = match image.class() {
        Wide::W32 => (52, 32, 4, u128::from(u32::MAX)),
        Wide::W64 => (64, 56, 8, u128::from(u64::MAX)),
    };
    Facts {
        file_header,
        program_header,
        word,
        most,
        machine: image.header().e_machine,
        e_phoff: u128::from(image.header().e_phoff),
        page_size: match image.page_size() {
            Some(size) => Some(u128::from(size)),
            None => None,
        },
        source_size: image.source().len() as u128,
        interpreter,
        strings,
        moves_dynamic: image.may_dynamic_move(),
    }
}

/// Reads them out: of the image as it was read, and of the edited one with the new sizes of its sections in bytes.
pub fn plain_of(
    alloc: Global,
    read: &Builder<'_>,
    image: &Builder<'_>,
    sizes: &[u64],
) -> Result<Plain, AllocError>
    ensures { IfOk result (IsPlain read.now image.now sizes.now) }
{
    let read_parts = parts_of(alloc, read, &[])?;
    let parts = parts_of(alloc, image, sizes)?;
    let read_pieces = pieces_of(alloc, read.segments())?;
    let pieces = pieces_of(alloc, image.segments())?;
    let interpreter = interpreter_of(&read_parts, &read_pieces);
    let strings = match link_of(&parts, SHT_DYNAMIC) {
        Some(number) => Some(number),
        None => link_of(&parts, SHT_DYNSYM),
    };
    let facts = facts_of(image, interpreter, strings);
    Ok(Plain {
        read_parts,
        parts,
        read_pieces,
        pieces,
        facts,
    })
}
