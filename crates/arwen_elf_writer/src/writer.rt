ghost use Rattle.std.specs.Prelude.{◌≡◌, ◌∷◌, [], Ok, IfOk, MatchResult, map, option_map};
ghost use Rattle.elf_image.specs.Image.{image_of, shown};
ghost use Rattle.elf_image.specs.ImageModel.{entry_model};
ghost use Rattle.elf_image.specs.Answers.{borrowed};
ghost use Rattle.elf_apply.specs.Causes.{RefusesRead};
ghost use Rattle.arwen_elf_writer.specs.PageSizes.{page_size_for};
ghost use Rattle.arwen_elf_writer.specs.Reads.{entries_shown, text_if, first_of, needed_shown, runpath_shown, searched_shown, soname_shown, texts_tagged};
ghost use Rattle.arwen_elf_writer.specs.WriterModel.{ShowsBothViews, needed_left};

use elf_apply::error::ElfError;
use elf_apply::ext::BuilderExt;
use elf_format::machine::default_page_size;
use elf_image::constants::{DT_NEEDED, DT_RPATH, DT_RUNPATH, DT_SONAME};
use elf_image::{Builder, Dynamic, Header};
use std::alloc::Global;
use std::marker::Model;
use std::slice::Iter;

/// An ELF file whose image is read, and later edited and written.
#[derive(Debug, Drop)]
pub struct Writer<'data> {
    pub(crate) builder: Builder<'data>,
}

impl<'data> Model for Writer<'data> {
    ghost use Rattle.elf_image.specs.Image.{Image};

    ghost Value = { Image };

    ghost use Rattle.arwen_elf_writer.specs.WriterModel.{image_model};

    ghost view = { image_model };
}

/// The texts of the DT_NEEDED entries (gABI, Dynamic Section), in order, equal ones too.
#[derive(Debug, Drop)]
pub struct Needed<'a> {
    rest: Iter<'a, Dynamic<'a>>,
}

impl<'a> Iterator for Needed<'a> {
    ghost use Rattle.std.specs.Iterator.{YieldsFirstBy, item_count};
    ghost use Rattle.arwen_elf_writer.specs.WriterModel.{needed_left};

    type Item = &'a [u8];

    ghost next_gives = { YieldsFirstBy borrowed needed_left };

    ghost remaining = { item_count needed_left };

    fn next(&mut self) -> Option<&'a [u8]> {
        while let Some(entry) = self.rest.next() {
            if let Some(text) = tagged_text(entry, &[DT_NEEDED]) {
                return Some(text);
            }
        }
        None
    }
}

// The text of an entry with one of these tags.
fn tagged_text<'a>(entry: &'a Dynamic<'_>, tags: &[u64]) -> Option<&'a [u8]>
    ensures { option_map borrowed result ≡ text_if tags.now (entry_model entry.now) }
{
    match entry {
        Dynamic::Text { tag, val } if tags.contains(tag) => Some(val.as_slice()),
        _ => None,
    }
}

// The text of the first entry with one of these tags.
fn first_text<'a>(entries: &'a [Dynamic<'_>], tags: &[u64]) -> Option<&'a [u8]>
    ensures { option_map borrowed result
        ≡ first_of (texts_tagged tags.now (map entry_model entries.now)) }
{
    for entry in entries {
        if let Some(text) = tagged_text(entry, tags) {
            return Some(text);
        }
    }
    None
}

impl<'data> Writer<'data> {
    /// Reads a file: its image where every read rule holds. An image shows what the section headers show, and what
    /// a loader sees by the program headers alone (gABI, Sections and Program Header). Errors: `Parse` with the fault
    /// of the first rule that doesn't hold, `Memory`.
    pub fn read(alloc: Global, bytes: &'data [u8]) -> Result<Writer<'data>, ElfError>
        ensures reads { MatchResult result (λ w. image_of bytes.entry.now ≡ Ok w)
            (λ e. RefusesRead e (image_of bytes.entry.now)) }
        ensures shows { IfOk result (λ w. ShowsBothViews bytes.entry.now w) }
    {
        let builder = Builder::read(alloc, bytes)?;
        Ok(Writer { builder })
    }

    /// The file's image. Takes no memory.
    pub fn builder(&self) -> &Builder<'data>
        ensures { result.now ≡ self.now }
    {
        &self.builder
    }

    /// What the file header says (gABI, ELF Header). Takes no memory.
    pub fn header(&self) -> &Header
        ensures { result.now ≡ self.now.header }
    {
        self.builder.header()
    }

    /// The text of the first DT_RPATH or DT_RUNPATH entry (gABI, Dynamic Section). Takes no memory.
    pub fn elf_runpath(&self) -> Option<&[u8]>
        ensures { option_map borrowed result ≡ runpath_shown (shown self.now) }
    {
        first_text(self.entries(), &[DT_RPATH, DT_RUNPATH])
    }

    /// The text of the first DT_RUNPATH entry, else that of the first DT_RPATH entry: the run path that a loader searches
    /// (gABI, Shared Object Dependencies). Takes no memory.
    pub fn searched_runpath(&self) -> Option<&[u8]>
        ensures { option_map borrowed result ≡ searched_shown (shown self.now) }
    {
        match first_text(self.entries(), &[DT_RUNPATH]) {
            None => first_text(self.entries(), &[DT_RPATH]),
            found => found,
        }
    }

    // The entries of the dynamic list, none without one.
    pub(crate) fn entries(&self) -> &[Dynamic<'data>]
        ensures { map entry_model result.now ≡ entries_shown (shown self.now) }
    {
        self.builder.dynamic_data().unwrap_or_default()
    }

    /// The texts of the DT_NEEDED entries (gABI, Dynamic Section), in order. Takes no memory.
    pub fn elf_needed(&self) -> Needed<'_>
        ensures { needed_left result ≡ needed_shown (shown self.now) }
    {
        Needed {
            rest: self.entries().iter(),
        }
    }

    /// The text of the first DT_SONAME entry (gABI, Dynamic Section). Takes no memory.
    pub fn elf_soname(&self) -> Option<&[u8]>
        ensures { option_map borrowed result ≡ soname_shown (shown self.now) }
    {
        first_text(self.entries(), &[DT_SONAME])
    }

    /// The bytes of the interpreter's section with their NUL (gABI, Program Interpreter); none without a PT_INTERP.
    /// Takes no memory.
    pub fn elf_interpreter(&self) -> Option<&[u8]>
        ensures { option_map borrowed result ≡ (shown self.now).interpreter }
    {
        self.builder.interp_data()
    }

    /// The flags of the first PT_GNU_STACK (GNU extension): `PF_X` in them lets the stack be run (gABI, Program
    /// Header, `p_flags`). Takes no memory.
    pub fn elf_gnu_exec_stack(&self) -> Option<u32>
        ensures { result ≡ (shown self.now).stack_flags }
    {
        let segment = self.builder.gnu_stack()?;
        Some(segment.p_flags())
    }

    /// The page size that was set, else the default one of the file's machine (gABI, ELF Header, `e_machine`), in
    /// bytes. Takes no memory.
    pub fn elf_get_page_size(&self) -> u32
        ensures { result ≡ page_size_for self.now }
    {
        match self.builder.page_size() {
            Some(size) => size,
            None => default_page_size(self.builder.header().e_machine),
        }
    }
}
