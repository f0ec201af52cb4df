//! The blocks of memory that an image takes.
ghost use Rattle.std.specs.Prelude.{ℕ, ◌≡◌, ◌&&◌, ◌+◌, ◌*◌, ◌^◌, ◌<◌, ◌≤◌, ◌∷◌, ◌++◌, [], IfOk, IsTrue, OnOk, ◌==◌, None, Some, false, true, length, slice_get, map};
ghost use Rattle.std.specs.List.{flat_map, list_any};
ghost use Rattle.elf_format.specs.File.{is_loaded, loads_of};
ghost use Rattle.elf_format.specs.Image.{ImageSection};
ghost use Rattle.elf_format.specs.Options.{list_at};
ghost use Rattle.elf_format.specs.Placement.{file_part, shows_at};
ghost use Rattle.elf_format.specs.Ranges.{lies_in, range};
ghost use Rattle.elf_format.specs.Records.{segment_header_size};
ghost use Rattle.elf_image.specs.ImageModel.{section_model, segment_model};
ghost use Rattle.elf_format.specs.Places.{occupies_file};
ghost use Rattle.elf_image.specs.Kept.{dynamic_strings_number, interpreter_number, place_at_read};
ghost use Rattle.elf_image.specs.Segments.{loads_end as end_of_loads};
ghost use Rattle.elf_layout_plan.specs.Memory.{blocks_with, edge_blocks, fixed_block, header_blocks, loaded_over, table_size_with, takes_memory};
ghost use Rattle.elf_layout_moves.specs.ImageBlocks.{AreNumbered, address_of, is_section_behind, is_section_out, is_section_displaced, made_block, priority_with, section_blocks_from};
ghost use Rattle.elf_layout_moves.specs.Growth.{table_start as start_of_table};
ghost use Rattle.elf_layout_moves.specs.Limits.{end_with};

use crate::resizing::Resizing;
use elf_format::constants::{
    PT_LOAD, SHF_ALLOC, SHF_TLS, SHT_DYNAMIC, SHT_DYNSYM, SHT_NOBITS, SHT_NULL, SHT_STRTAB,
};
use elf_layout_plan::{Builder, Section, Segment, is_movable_type, is_numbered, loads_end};
use std::alloc::{AllocError, Global};
use std::marker::Model;

/// A range of memory that something takes, with how readily it moves and which section's it is.
#[derive(Clone, Copy)]
pub struct MemoryBlock {
    /// The first address of the block.
    pub start: u128,
    /// How many bytes the block takes.
    pub size: u128,
    /// How readily the block moves, the more the greater; 0 where it can't move.
    pub priority: u8,
    /// The position of the section whose block it is.
    pub section: Option<usize>,
    /// Whether what it is to hold can't stand where it stood: it was empty, or its loaded segment went.
    pub is_displaced: bool,
    /// Whether the block marks the start of a loaded segment.
    pub is_load_start: bool,
}

impl Model for MemoryBlock {
    ghost use Rattle.elf_layout_plan.specs.Blocks.{Block};

    ghost Value = { Block };

    ghost view = { λ b. record {
      start = b.start;
      size = b.size;
      priority = b.priority;
      section = b.section;
      is_displaced = b.is_displaced;
      is_load_start = b.is_load_start;
    } };

    ghost inverse = { λ b. record {
      start = b.start;
      size = b.size;
      priority = b.priority;
      section = b.section;
      is_displaced = b.is_displaced;
      is_load_start = b.is_load_start;
    } };
}

impl MemoryBlock {
    ghost use Rattle.std.specs.Prelude.{◌≡◌};
    ghost use Rattle.elf_layout_plan.specs.Blocks.{rank};

    /// How blocks come that start together and have one size: the starts of loaded segments, then what is no section, then
    /// sections by their positions. Takes no memory.
    pub fn rank(&self) -> u128
        ensures { result ≡ rank self.now }
    {
        if self.is_load_start {
            return 0;
        }
        match self.section {
            None => 1,
            Some(position) => position as u128 + 2,
        }
    }
}

// A block that never moves and is no section.
fn fixed(start: u128, size: u128) -> MemoryBlock
    ensures { result ≡ fixed_block start size }
{
    MemoryBlock {
        start,
        size,
        priority: 0,
        section: None,
        is_displaced: false,
        is_load_start: false,
    }
}

// The start of a loaded segment.
fn load_start(start: u128) -> MemoryBlock
    ensures { result ≡ record (fixed_block start 0) { is_load_start = true } }
{
    MemoryBlock {
        start,
        size: 0,
        priority: 0,
        section: None,
        is_displaced: false,
        is_load_start: true,
    }
}

// Whether a range of the file lies in the file part of a loaded segment.
fn is_loaded_part(p: &Segment<'_>, start: u64, size: u128) -> bool
    requires { size < 2 ^ 80 }
    ensures value { result ≡ (is_loaded (segment_model p.now)
        && lies_in (range start size) (file_part (segment_model p.now))) }
    ensures behind { IsTrue result → (segment_model p.now).p_offset ≤ start }
{
    p.p_type() == PT_LOAD
        && p.p_offset() <= start
        && u128::from(start) + size <= u128::from(p.p_offset()) + u128::from(p.p_filesz())
}

// The address of a range of the file, by the first loaded segment whose file part has all of it.
fn address_in(segments: &[Segment<'_>], start: u64, size: u128) -> Option<u128>
    requires { size < 2 ^ 80 }
    ensures value { result ≡ address_of start
        (loaded_over (range start size) (map segment_model segments.now)) }
    ensures near { (address : ℕ) → result ≡ Some address → address < 2 ^ 66 }
{
    for p in segments {
        if is_loaded_part(p, start, size) {
            return Some(u128::from(p.p_vaddr()) + u128::from(start) - u128::from(p.p_offset()));
        }
    }
    None
}

// Puts a block that never moves behind others, where it has an address.
fn push_at(made: &mut Vec<MemoryBlock>, start: Option<u128>, size: u128) -> Result<(), AllocError>
    ensures { OnOk result (made.new.items
        ≡ made.old.items ++ list_at (λ address. fixed_block address size ∷ []) start) }
{
    if let Some(address) = start {
        made.push(fixed(address, size))?;
    }
    Ok(())
}

// How many bytes the program header table had at read.
fn table_size_at_read(read: &Builder<'_>) -> u128
    ensures value { result ≡ length read.now.segments * segment_header_size read.now.form }
    ensures small { result < 2 ^ 80 }
{
    read.segments().len() as u128 * read.form().segment_header_size() as u128
}

// How many bytes it has with so many entries more than the image has segments.
fn table_size(image: &Builder<'_>, added: usize) -> u128
    ensures value { result
        ≡ (length image.now.segments + added) * segment_header_size image.now.form }
    ensures small { result < 2 ^ 79 }
{
    let count = image.segments().len() as u128 + added as u128;
    count * image.form().segment_header_size() as u128
}

/// Whether a program header table of so many entries more than an image has segments is empty.
pub fn has_empty_table(r: &Resizing<'_, '_>, added: usize) -> bool
    ensures { result ≡ (table_size_with r.now added == 0) }
{
    table_size(r.image, added) == 0
}

/// Where the program header table stands in memory: an address, if a loaded segment had all of it. Looks at all segments.
pub fn table_start(r: &Resizing<'_, '_>) -> Option<u128>
    ensures value { result ≡ start_of_table r.now }
    ensures near { (address : ℕ) → result ≡ Some address → address < 2 ^ 66 }
{
    let start = r.read.header().e_phoff;
    address_in(r.read.segments(), start, table_size_at_read(r.read))
}

/// Where the program header table ends in memory with so many entries more than the image has segments, by where it stands: an
/// address; 0 where no loaded segment had all of it.
pub fn table_end_from(r: &Resizing<'_, '_>, start: Option<u128>, added: usize) -> u128
    requires start { start ≡ start_of_table r.now }
    requires near { (address : ℕ) → start ≡ Some address → address < 2 ^ 66 }
    ensures value { result ≡ end_with r.now added }
    ensures near { result < 2 ^ 80 }
{
    match start {
        Some(start) => start + table_size(r.image, added),
        None => 0,
    }
}

/// Where the program header table ends in memory with so many entries more than the image has
/// segments, with a look at all segments.
pub fn table_end(r: &Resizing<'_, '_>, added: usize) -> u128
    ensures value { result ≡ end_with r.now added }
    ensures near { result < 2 ^ 80 }
{
    table_end_from(r, table_start(r), added)
}

// Puts the file header and the program header table behind other blocks, each where a loaded segment had all of it at read.
fn push_headers(
    made: &mut Vec<MemoryBlock>,
    r: &Resizing<'_, '_>,
    added: usize,
) -> Result<(), AllocError>
    ensures { OnOk result (made.new.items ≡ made.old.items ++ header_blocks r.now added) }
{
    let segments = r.read.segments();
    let size = r.read.form().file_header_size() as u128;
    push_at(made, address_in(segments, 0, size), size)?;
    let start = r.read.header().e_phoff;
    let table = address_in(segments, start, table_size_at_read(r.read));
    push_at(made, table, table_size(r.image, added))
}

// Puts the start of a loaded segment behind other blocks, and where its file part and its memory end.
fn push_edges(made: &mut Vec<MemoryBlock>, p: &Segment<'_>) -> Result<(), AllocError>
    ensures { OnOk result (made.new.items
        ≡ made.old.items ++ edge_blocks (segment_model p.now)) }
{
    let start = u128::from(p.p_vaddr());
    made.push(load_start(start))?;
    made.push(fixed(start + u128::from(p.p_filesz()), 0))?;
    made.push(fixed(start + u128::from(p.p_memsz()), 0))?;
    Ok(())
}

// Puts the start of each loaded segment behind other blocks, and where its file part and its memory
// end.
fn push_all_edges(made: &mut Vec<MemoryBlock>, segments: &[Segment<'_>]) -> Result<(), AllocError>
    ensures { OnOk result (made.new.items ≡ made.old.items
        ++ flat_map edge_blocks (loads_of (map segment_model segments.now))) }
{
    for p in segments {
        if p.p_type() == PT_LOAD {
            push_edges(made, p)?;
        }
    }
    Ok(())
}

// Whether a segment shows a range of the file at an address.
fn is_shown_by(p: &Segment<'_>, offset: u64, size: u64, address: u64) -> bool
    ensures { result ≡ shows_at (segment_model p.now) (range offset size) address }
{
    p.p_offset() <= offset
        && u128::from(offset) + u128::from(size)
            <= u128::from(p.p_offset()) + u128::from(p.p_filesz())
        && u128::from(address) + u128::from(p.p_offset())
            == u128::from(p.p_vaddr()) + u128::from(offset)
}

// Whether some loaded segment shows a range of the file at an address.
fn is_shown(segments: &[Segment<'_>], offset: u64, size: u64, address: u64) -> bool
    ensures { result ≡ list_any (λ p. shows_at p (range offset size) address)
        (loads_of (map segment_model segments.now)) }
{
    for p in segments {
        if p.p_type() == PT_LOAD && is_shown_by(p, offset, size, address) {
            return true;
        }
    }
    false
}

// Whether a section has its bytes in the file.
fn is_in_file(section: &Section<'_>) -> bool
    ensures { result ≡ occupies_file (place_at_read (section_model section.now)) }
{
    section.sh_type != SHT_NULL && section.sh_type != SHT_NOBITS
}

// Whether no loaded segment shows a section that was empty with its new size, or the file header stands in it.
fn is_out_of_loads(image: &Builder<'_>, section: &Section<'_>, size: u64) -> bool
    ensures { result ≡ is_section_out image.now (section_model section.now) size }
{
    let (offset, address) = (section.sh_offset, section.sh_addr);
    !is_shown(image.segments(), offset, size, address)
        || offset < image.form().file_header_size() as u64
}

// Whether a section with bytes stands where no loaded segment reaches, by where these end.
fn is_behind_loads(section: &Section<'_>, loads_end: u128) -> bool
    ensures { result ≡ is_section_behind loads_end (section_model section.now) }
{
    section.sh_flags & SHF_ALLOC != 0
        && is_in_file(section)
        && section.sh_size != 0
        && loads_end <= u128::from(section.sh_addr)
}

// Whether a section of the file that has bytes now can't stand where it stood.
fn is_displaced_at(image: &Builder<'_>, section: &Section<'_>, size: u64, loads_end: u128) -> bool
    requires { loads_end ≡ end_of_loads image.now.segments }
    ensures { result ≡ is_section_displaced image.now (section_model section.now) size }
{
    is_in_file(section)
        && size != 0
        && (section.sh_size == 0 && is_out_of_loads(image, section, size)
            || is_behind_loads(section, loads_end))
}

// Whether a section takes memory of its own.
fn is_in_memory(section: &Section<'_>) -> bool
    ensures { result ≡ takes_memory (section_model section.now) }
{
    section.sh_flags & SHF_ALLOC != 0
        && section.sh_type != SHT_NULL
        && !(section.sh_type == SHT_NOBITS && section.sh_flags & SHF_TLS != 0)
}

// The number of the section with the dynamic strings.
fn number_of_strings(image: &Builder<'_>) -> Option<usize>
    ensures { result ≡ dynamic_strings_number image.now }
{
    match image.link_of_type(SHT_DYNAMIC) {
        Some(number) => Some(number),
        None => image.link_of_type(SHT_DYNSYM),
    }
}

// How readily a section moves that had this number at read; the dynamic section does where it has leave.
fn priority_at(
    section: &Section<'_>,
    number: usize,
    interpreter: Option<usize>,
    strings: Option<usize>,
    leave: bool,
) -> u8
    ensures { result ≡ priority_with interpreter strings leave (section_model section.now) number }
{
    if is_numbered(interpreter, number) {
        1
    } else if is_movable_type(section.sh_type)
        || section.sh_type == SHT_STRTAB && is_numbered(strings, number)
        || section.sh_type == SHT_DYNAMIC && leave
    {
        2
    } else {
        0
    }
}

// The block of the section at a position.
fn block_at(
    r: &Resizing<'_, '_>,
    position: usize,
    interpreter: Option<usize>,
    strings: Option<usize>,
    loads_end: u128,
) -> MemoryBlock
    requires end { loads_end ≡ end_of_loads r.now.image.segments }
    requires within { position < length r.now.image.sections }
    requires sized { position < length r.now.sizes }
    ensures { (s : ImageSection) → slice_get r.now.image.sections position ≡ Some s
        → result ≡ made_block r.now interpreter strings position s }
{
    let section = &r.image.sections()[position];
    let number = r.image.read_section(position);
    let size = r.sizes[position];
    MemoryBlock {
        start: u128::from(section.sh_addr),
        size: u128::from(size),
        priority: priority_at(
            section,
            number,
            interpreter,
            strings,
            r.image.may_dynamic_move(),
        ),
        section: Some(position),
        is_displaced: is_displaced_at(r.image, section, size, loads_end),
        is_load_start: false,
    }
}

// Puts the block of the section at a position behind other blocks, where it takes memory.
fn push_section(
    made: &mut Vec<MemoryBlock>,
    r: &Resizing<'_, '_>,
    position: usize,
    interpreter: Option<usize>,
    strings: Option<usize>,
    loads_end: u128,
) -> Result<(), AllocError>
    requires numbered { AreNumbered r.now.image }
    requires sized { length r.now.sizes ≡ length r.now.image.sections }
    requires interpreter { interpreter ≡ interpreter_number r.now.read }
    requires strings { strings ≡ dynamic_strings_number r.now.image }
    requires end { loads_end ≡ end_of_loads r.now.image.segments }
    requires within { position < length r.now.image.sections }
    ensures { OnOk result (made.new.items ++ section_blocks_from r.now (position + 1)
        ≡ made.old.items ++ section_blocks_from r.now position) }
{
    if is_in_memory(&r.image.sections()[position]) {
        made.push(block_at(r, position, interpreter, strings, loads_end))?;
    }
    Ok(())
}

// Puts the blocks of the sections that take memory behind other blocks.
fn push_sections(
    made: &mut Vec<MemoryBlock>,
    r: &Resizing<'_, '_>,
    interpreter: Option<usize>,
    strings: Option<usize>,
) -> Result<(), AllocError>
    requires numbered { AreNumbered r.now.image }
    requires sized { length r.now.sizes ≡ length r.now.image.sections }
    requires interpreter { interpreter ≡ interpreter_number r.now.read }
    requires strings { strings ≡ dynamic_strings_number r.now.image }
    ensures { OnOk result (made.new.items ≡ made.old.items ++ section_blocks_from r.now 0) }
{
    let end = loads_end(r.image.segments());
    for position in 0..r.image.sections().len() {
        push_section(made, r, position, interpreter, strings, end)?;
    }
    Ok(())
}

/// Every block of an image, with a program header table of so many entries more than it has segments. Error: `AllocError`.
pub fn blocks_of(
    alloc: Global,
    r: &Resizing<'_, '_>,
    added: usize,
) -> Result<Vec<MemoryBlock>, AllocError>
    requires numbered { AreNumbered r.now.image }
    requires sized { length r.now.sizes ≡ length r.now.image.sections }
    ensures { IfOk result (λ made. made.items ≡ blocks_with r.now added) }
{
    let mut made = Vec::new(alloc);
    push_headers(&mut made, r, added)?;
    push_all_edges(&mut made, r.image.segments())?;
    let interpreter = r.read.interpreter_number();
    let strings = number_of_strings(r.image);
    push_sections(&mut made, r, interpreter, strings)?;
    Ok(made)
}
