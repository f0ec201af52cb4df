//! The sections of an image by the numbers that tell where a program header goes.
ghost use Rattle.std.specs.Prelude.{◌≡◌, IfOk};
ghost use Rattle.elf_layout_segments.specs.Sections.{first_wanted, indexed_sections};

use elf_format::constants::{SHF_ALLOC, SHT_NOBITS, SHT_NOTE, SHT_NULL};
use elf_format::range::Range;
use elf_image::Builder;
use std::alloc::{AllocError, Global};

// A section without its name and its bytes: its position among those that are there, and its number at read.
#[derive(Clone, Copy)]
pub(crate) struct SectionAt {
    pub(crate) position: usize,
    pub(crate) number: usize,
    pub(crate) sh_type: u32,
    pub(crate) sh_flags: u64,
    pub(crate) sh_addr: u64,
    pub(crate) sh_offset: u64,
    pub(crate) sh_size: u64,
}

// What kind of section is looked for.
#[derive(Clone, Copy)]
pub(crate) enum Wanted {
    // A section of a type.
    OfType(u32),
    // The one with a number at read.
    Numbered(usize),
}

impl SectionAt {
    ghost use Rattle.elf_format.specs.Places.{file_range, occupies_memory};
    ghost use Rattle.elf_layout_segments.specs.Sections.{has_bytes_at, is_loaded_note_at, is_wanted, place_at};

    // Whether the section takes memory.
    pub(crate) fn is_loaded(self) -> bool
        ensures { result ≡ occupies_memory (place_at self) }
    {
        self.sh_flags & SHF_ALLOC != 0
    }

    // Whether the section has bytes in the file.
    pub(crate) fn has_bytes(self) -> bool
        ensures { result ≡ has_bytes_at self }
    {
        self.sh_type != SHT_NULL && self.sh_type != SHT_NOBITS && self.sh_size != 0
    }

    // The bytes of the file that the section names.
    pub(crate) fn file_range(self) -> Range
        ensures { result ≡ file_range (place_at self) }
    {
        Range {
            start: self.sh_offset,
            size: self.sh_size,
        }
    }

    // Whether the section is a loaded note section.
    pub(crate) fn is_loaded_note(self) -> bool
        ensures { result ≡ is_loaded_note_at self }
    {
        self.sh_type == SHT_NOTE && self.is_loaded()
    }

    // Whether the section is of the kind that is wanted.
    fn is_wanted(self, wanted: Wanted) -> bool
        ensures { result ≡ is_wanted wanted self }
    {
        match wanted {
            Wanted::OfType(kind) => self.sh_type == kind,
            Wanted::Numbered(number) => number == self.number,
        }
    }
}

// The sections that are there, in order.
pub(crate) fn sections_of(alloc: Global, image: &Builder<'_>) -> Result<Vec<SectionAt>, AllocError>
    ensures { IfOk result (λ made. made.items ≡ indexed_sections image.now) }
{
    let _source = image.source();
    let sections = image.sections();
    let mut made = Vec::with_capacity(alloc, sections.len())?;
    for i in 0..sections.len() {
        let section = &sections[i];
        made.push(SectionAt {
            position: i,
            number: image.read_section(i),
            sh_type: section.sh_type,
            sh_flags: section.sh_flags,
            sh_addr: section.sh_addr,
            sh_offset: section.sh_offset,
            sh_size: section.sh_size,
        })?;
    }
    Ok(made)
}

// Where the first section of a kind stands.
pub(crate) fn first(sections: &[SectionAt], wanted: Wanted) -> Option<usize>
    ensures { result ≡ first_wanted wanted sections.now }
{
    for section in sections {
        if section.is_wanted(wanted) {
            return Some(section.position);
        }
    }
    None
}
