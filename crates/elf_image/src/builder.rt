ghost use Rattle.std.specs.Prelude.{◌≡◌, ◌<◌, length, map, slice_index, IfOk, option_map};
ghost use Rattle.elf_image.specs.ImageModel.{definition_model, entry_model, needs_model, section_model, segment_model};
ghost use Rattle.elf_format.specs.Answers.{borrowed};

use crate::version::Versions;
use elf_format::form::Form;
use elf_format::header::Header;
use elf_image_headers::dynamic::Dynamic;
use elf_image_headers::section::Section;
use elf_image_headers::segment;
use elf_image_symbols::SymbolsNow;
use elf_image_symbols::lists::EditedLists;
use patch_bytes::{ByteOrder2, ByteString, Wide};
use std::alloc::{AllocError, Global};
use std::marker::Model;

/// A program header of an image. It holds numbers alone, so that its lifetime, written as that of the image's other
/// parts, binds nothing.
pub type Segment<'data> = segment::Segment;

/// The image of an ELF file that every read rule accepts: what the file shows, to be looked at, edited and
/// written. Texts and contents stay slices of the file's bytes until they are edited.
#[derive(Debug, Drop)]
pub struct Builder<'data> {
    pub(crate) source: &'data [u8],
    pub(crate) changed: bool,
    pub(crate) form: Form,
    pub(crate) header: Header,
    pub(crate) segments: Vec<Segment<'data>>,
    pub(crate) sections: Vec<Section<'data>>,
    pub(crate) lists: EditedLists<'data>,
    pub(crate) versions: Versions<'data>,
    pub(crate) dynamic: Option<Vec<Dynamic<'data>>>,
    pub(crate) interpreter: Option<ByteString<'data>>,
    // The number at read of the section that stands now at each position.
    pub(crate) section_numbers: Vec<usize>,
    pub(crate) page_size: Option<u32>,
    pub(crate) moves_dynamic: bool,
}

impl<'data> Model for Builder<'data> {
    ghost use Rattle.elf_format.specs.Image.{Image};

    ghost Value = { Image };

    ghost use Rattle.elf_image.specs.BuilderModel.{image_model};

    ghost view = { image_model };

    ghost use Rattle.elf_image.specs.BuilderModel.{IsKept};

    ghost invariant = { IsKept };
}

impl<'data> Builder<'data> {
    ghost use Rattle.elf_image.specs.Edited.{IsEdited};
    ghost use Rattle.elf_image_symbols.specs.Loan.{numbers_now, symbols_now};

    /// The class (gABI, ELF Identification, `EI_CLASS`). Takes no memory.
    pub fn class(&self) -> Wide
        ensures { result ≡ self.now.form.wide }
    {
        self.form.wide
    }

    /// The byte order (gABI, ELF Identification, `EI_DATA`). Takes no memory.
    pub fn order(&self) -> ByteOrder2
        ensures { result ≡ self.now.form.order }
    {
        self.form.order
    }

    /// How the numbers of the file are spelled: the class and the byte order (gABI, ELF Header, ELF Identification). Takes
    /// no memory.
    pub fn form(&self) -> Form
        ensures { result ≡ self.now.form }
    {
        self.form
    }

    /// What the file header says (gABI, ELF Header). Takes no memory.
    pub fn header(&self) -> &Header
        ensures { result.now ≡ self.now.header }
    {
        &self.header
    }

    /// The program headers (gABI, Program Header), in order. Takes no memory.
    pub fn segments(&self) -> &[Segment<'data>]
        ensures { map segment_model result.now ≡ self.now.segments }
    {
        self.segments.as_slice()
    }

    /// The sections with their names and bytes (gABI, Sections), in order, the first of them the null
    /// section. Takes no memory.
    pub fn sections(&self) -> &[Section<'data>]
        ensures { map section_model result.now ≡ self.now.sections }
    {
        self.sections.as_slice()
    }

    /// The symbols for a link editor (gABI, Symbol Table, `SHT_SYMTAB`); none without that section. Takes no
    /// memory.
    pub fn symbols(&self) -> SymbolsNow<'_>
        ensures symbols { symbols_now result ≡ self.now.symbols }
        ensures numbers { numbers_now result ≡ self.now.symbol_numbers }
    {
        self.lists.symbols.lend()
    }

    /// The symbols for a loader with their versions (gABI, Symbol Table, `SHT_DYNSYM`); none without that
    /// section. Takes no memory.
    pub fn dynamic_symbols(&self) -> SymbolsNow<'_>
        ensures symbols { symbols_now result ≡ self.now.dynamic_symbols }
        ensures numbers { numbers_now result ≡ self.now.dynamic_symbol_numbers }
    {
        self.lists.dynamic_symbols.lend()
    }

    /// The versions that the file defines and needs (GNU symbol versioning). Takes no memory.
    pub fn versions(&self) -> &Versions<'data>
        ensures definitions { map definition_model result.now.definitions.items
            ≡ self.now.definitions }
        ensures needs { map needs_model result.now.needs.items ≡ self.now.needs }
    {
        &self.versions
    }

    /// The dynamic list before its DT_NULL (gABI, Dynamic Section); `None` without a dynamic section. Takes no
    /// memory.
    pub fn dynamic_data(&self) -> Option<&[Dynamic<'data>]>
        ensures { option_map (λ list. map entry_model list.now) result ≡ self.now.entries }
    {
        match &self.dynamic {
            None => None,
            Some(list) => Some(list.as_slice()),
        }
    }

    /// The bytes of the interpreter's section with their NUL (gABI, Program Interpreter); `None` without a
    /// PT_INTERP. Takes no memory.
    pub fn interp_data(&self) -> Option<&[u8]>
        ensures { option_map borrowed result ≡ self.now.interpreter }
    {
        match &self.interpreter {
            None => None,
            Some(bytes) => Some(bytes.as_slice()),
        }
    }

    /// The page size that was set, in bytes. Takes no memory.
    pub fn page_size(&self) -> Option<u32>
        ensures { result ≡ self.now.page_size }
    {
        self.page_size
    }

    /// Whether leave was given that the dynamic section moves. Takes no memory.
    pub fn may_dynamic_move(&self) -> bool
        ensures { result ≡ self.now.moves_dynamic }
    {
        self.moves_dynamic
    }

    /// Whether something was edited. Takes no memory.
    pub fn changed(&self) -> bool
        ensures { result ≡ self.now.changed }
    {
        self.changed
    }

    /// The file's bytes as read. Takes no memory.
    pub fn source(&self) -> &'data [u8]
        ensures source { result.now ≡ self.now.source }
        // what every image is: one that was read from these bytes, and edited
        ensures edited { IsEdited self.now }
    {
        self.source
    }

    /// The number that the section at a position had at read. Takes no memory.
    pub fn read_section(&self, i: usize) -> usize
        requires { i < length self.now.sections }
        ensures { result ≡ slice_index self.now.section_numbers i }
    {
        self.section_numbers[i]
    }

    /// The number that the symbol for a link editor at a position had at read. Takes no memory.
    pub fn read_symbol(&self, i: usize) -> usize
        requires { i < length self.now.symbols }
        ensures { result ≡ slice_index self.now.symbol_numbers i }
    {
        self.symbols().read_number(i)
    }

    /// The number that the symbol for a loader at a position had at read. Takes no memory.
    pub fn read_dynamic_symbol(&self, i: usize) -> usize
        requires { i < length self.now.dynamic_symbols }
        ensures { result ≡ slice_index self.now.dynamic_symbol_numbers i }
    {
        self.dynamic_symbols().read_number(i)
    }
}
