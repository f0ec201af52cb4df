//! Where parts of a file stand in its image, by the numbers that they had at read.
ghost use Rattle.std.specs.Prelude.{◌≡◌, ◌<◌, length, map, position};
ghost use Rattle.elf_image.specs.ImageModel.{section_model};
ghost use Rattle.elf_image.specs.Kept.{interpreter_number as number_of_interpreter, link_of_type as link_of_kind, stands_as_interpreter as stands_there};
ghost use Rattle.elf_image.specs.Lookups.{CountsReadSegments, dynamic_strings_position as strings_position, interpreter_position as interpreter_at, link_position as link_at, section_position as section_at, type_position as type_at};

use crate::builder::Builder;
use elf_format::constants::{SHT_DYNAMIC, SHT_DYNSYM};
use elf_format::numbers::{part, read_file_header};
use elf_format::records::SegmentHeader;
use elf_image_headers::section::Section;
use elf_image_headers::spare::{interpreter_segment, link_in_sections, stands_as_interpreter};

impl<'data> Builder<'data> {
    /// Where the section that had this number at read stands now (gABI, Sections); `None` where it is gone, or where
    /// none had it. Takes no memory.
    pub fn section_position(&self, number: usize) -> Option<usize>
        ensures { result ≡ section_at self.now number }
    {
        self.section_numbers.iter().position(|n| *n == number)
    }

    /// Where the section stands now that the one at a position names by its `sh_link` (gABI, Sections), which keeps
    /// the number of read; `None` where that section is gone. Takes no memory.
    pub fn link_position(&self, i: usize) -> Option<usize>
        requires { i < length self.now.sections }
        ensures { result ≡ link_at self.now i }
    {
        let number = self.sections[i].sh_link as usize;
        self.section_position(number)
    }

    /// Where the first section of a type stands (gABI, Sections, `sh_type`). Takes no memory.
    pub fn type_position(&self, kind: u32) -> Option<usize>
        ensures { result ≡ type_at self.now kind }
    {
        self.sections
            .iter()
            .position(|section| section.sh_type == kind)
    }

    /// Where the section with the interpreter's bytes stands (gABI, Program Header, `PT_INTERP`); `None` without one.
    /// Takes no memory.
    pub fn interpreter_position(&self) -> Option<usize>
        ensures { result ≡ interpreter_at self.now }
    {
        let segment = interpreter_segment(&self.segments)?;
        interpreter_section(segment, &self.sections)
    }

    /// The number at read of the section with the interpreter's bytes (gABI, Program Header, `PT_INTERP`); `None`
    /// without one. Takes no memory.
    pub fn interpreter_number(&self) -> Option<usize>
        ensures { result ≡ number_of_interpreter self.now }
    {
        // the image has as many numbers of sections as sections
        let _source = self.source();
        let at = self.interpreter_position()?;
        Some(self.read_section(at))
    }

    /// The number of the section that the first of a type links to (gABI, Sections, `sh_link`); `None` without one of
    /// that type. Takes no memory.
    pub fn link_of_type(&self, kind: u32) -> Option<usize>
        ensures { result ≡ link_of_kind kind self.now }
    {
        // the image has as many numbers of sections as sections
        let _source = self.source();
        link_in_sections(kind, self.sections())
    }

    /// Where the dynamic strings stand (gABI, Dynamic Section, `DT_STRTAB`): the section that the dynamic list links
    /// to, or without a list the one that the dynamic symbols link to. Takes no memory.
    pub fn dynamic_strings_position(&self) -> Option<usize>
        ensures { result ≡ strings_position self.now }
    {
        let user = match self.type_position(SHT_DYNAMIC) {
            Some(list) => list,
            None => self.type_position(SHT_DYNSYM)?,
        };
        self.link_position(user)
    }

    /// How many program headers were read (gABI, ELF Header, `e_phnum`). Takes no memory.
    pub fn read_segment_count(&self) -> usize
        ensures { CountsReadSegments self.now result }
    {
        let size = self.form.file_header_size();
        let header = read_file_header(self.form, part(self.source, 0, size));
        header.e_phnum as usize
    }
}

// Where the first section stands that has the bytes of the interpreter's program header.
fn interpreter_section(segment: SegmentHeader, sections: &[Section<'_>]) -> Option<usize>
    ensures { result ≡ position (stands_there segment) (map section_model sections.now) }
{
    sections
        .iter()
        .position(|section| stands_as_interpreter(segment, section))
}
