ghost use Rattle.std.specs.Prelude.{◌≡◌, ◌≤◌, ◌<◌, ◌^◌, length, IfOk};
ghost use Rattle.patch_bytes.specs.Number.{field, high_first_value, low_first_value, number_at};
ghost use Rattle.elf_format.specs.Form.{field_of};
ghost use Rattle.elf_format.specs.Image.{counted as numbers_below};
ghost use Rattle.elf_format.specs.Versions.{version_id};
ghost use Rattle.elf_format.specs.Records.{entry_numbers, file_header, section_header, segment_header, symbol_numbers};

use crate::constants::VERSYM_HIDDEN;
use crate::form::Form;
use crate::records::{EntryNumbers, FileHeader, SectionHeader, SegmentHeader, SymbolNumbers};
use crate::version_id::VersionId;
use byteorder::{BigEndian, ByteOrder, LittleEndian};
use patch_bytes::{ByteOrder2, Wide};
use std::alloc::{AllocError, Global};

// The number that eight bytes at most spell byte by byte, the lowest first.
fn low_by_byte(bytes: &[u8]) -> u64
    requires { length bytes.now ≤ 8 }
    ensures { result ≡ low_first_value bytes.now }
{
    let mut number = 0;
    for i in 0..bytes.len() {
        number = number * 256 + bytes[bytes.len() - 1 - i] as u64;
    }
    number
}

// The number that eight bytes at most spell byte by byte, the highest first.
fn high_by_byte(bytes: &[u8]) -> u64
    requires { length bytes.now ≤ 8 }
    ensures { result ≡ high_first_value bytes.now }
{
    let mut number = 0;
    for byte in bytes {
        number = number * 256 + *byte as u64;
    }
    number
}

// The number that eight bytes at most spell, the lowest first: at once where they are a whole field.
#[inline(always)]
fn low_first(bytes: &[u8]) -> u64
    requires { length bytes.now ≤ 8 }
    ensures { result ≡ low_first_value bytes.now }
{
    match bytes.len() {
        1 => bytes[0] as u64,
        2 => LittleEndian::read_u16(bytes) as u64,
        4 => LittleEndian::read_u32(bytes) as u64,
        8 => LittleEndian::read_u64(bytes),
        _ => low_by_byte(bytes),
    }
}

// The number that eight bytes at most spell, the highest first: at once where they are a whole
// field.
#[inline(always)]
fn high_first(bytes: &[u8]) -> u64
    requires { length bytes.now ≤ 8 }
    ensures { result ≡ high_first_value bytes.now }
{
    match bytes.len() {
        1 => bytes[0] as u64,
        2 => BigEndian::read_u16(bytes) as u64,
        4 => BigEndian::read_u32(bytes) as u64,
        8 => BigEndian::read_u64(bytes),
        _ => high_by_byte(bytes),
    }
}

/// The bytes of a field at a position, as far as they are there. Takes no memory.
#[inline(always)]
pub fn part(bytes: &[u8], position: usize, width: usize) -> &[u8]
    ensures { result.now ≡ field width position bytes.now }
{
    if position >= bytes.len() {
        return &[];
    }
    let rest = &bytes[position..];
    if width >= rest.len() {
        return rest;
    }
    &rest[..width]
}

// The number in a field, as far as its bytes are there.
#[inline(always)]
fn number_in(order: ByteOrder2, bytes: &[u8], place: (usize, usize)) -> u64
    requires { place.1 ≤ 8 }
    ensures value { result ≡ number_at order place.1 place.0 bytes.now }
    ensures below { result < 256 ^ place.1 }
{
    let field = part(bytes, place.0, place.1);
    match order {
        ByteOrder2::Little => low_first(field),
        ByteOrder2::Big => high_first(field),
    }
}

/// The number in a field that has one place in 32-bit files and another in 64-bit files, each as its position
/// and its width in bytes; 0 past the end.
#[inline(always)]
pub fn read_field(form: Form, bytes: &[u8], narrow: (usize, usize), wide: (usize, usize)) -> u64
    requires narrow { narrow.1 ≤ 8 }
    requires wide { wide.1 ≤ 8 }
    ensures { result ≡ field_of form narrow wide bytes.now }
{
    match form.wide {
        Wide::W32 => number_in(form.order, bytes, narrow),
        Wide::W64 => number_in(form.order, bytes, wide),
    }
}

// The number in a field of four bytes that has one position in 32-bit files and another in 64-bit
// files.
#[inline(always)]
fn word(form: Form, bytes: &[u8], narrow: usize, wide: usize) -> u32
    ensures { result ≡ field_of form (narrow, 4) (wide, 4) bytes.now }
{
    match form.wide {
        Wide::W32 => number_in(form.order, bytes, (narrow, 4)) as u32,
        Wide::W64 => number_in(form.order, bytes, (wide, 4)) as u32,
    }
}

/// The number in a field of two bytes that has one position in 32-bit files and another in 64-bit files.
#[inline(always)]
pub fn read_half(form: Form, bytes: &[u8], narrow: usize, wide: usize) -> u16
    ensures { result ≡ field_of form (narrow, 2) (wide, 2) bytes.now }
{
    match form.wide {
        Wide::W32 => number_in(form.order, bytes, (narrow, 2)) as u16,
        Wide::W64 => number_in(form.order, bytes, (wide, 2)) as u16,
    }
}

#[inline(always)]
fn read_byte(form: Form, bytes: &[u8], narrow: usize, wide: usize) -> u8
    ensures { result ≡ field_of form (narrow, 1) (wide, 1) bytes.now }
{
    match form.wide {
        Wide::W32 => number_in(form.order, bytes, (narrow, 1)) as u8,
        Wide::W64 => number_in(form.order, bytes, (wide, 1)) as u8,
    }
}

/// The number in a field of four bytes that has one position in files of both classes.
#[inline(always)]
pub fn word_at(form: Form, bytes: &[u8], position: usize) -> u32
    ensures { result ≡ field_of form (position, 4) (position, 4) bytes.now }
{
    word(form, bytes, position, position)
}

/// The number in a field of two bytes that has one position in files of both classes.
pub fn half_at(form: Form, bytes: &[u8], position: usize) -> u16
    ensures { result ≡ field_of form (position, 2) (position, 2) bytes.now }
{
    read_half(form, bytes, position, position)
}

/// The file header that bytes hold (gABI, ELF Header).
#[tactic(auto, unfolding(crate::specs::Records::file_header))]
pub fn read_file_header(form: Form, bytes: &[u8]) -> FileHeader
    ensures { result ≡ file_header form bytes.now }
{
    FileHeader {
        os_abi: read_byte(form, bytes, 7, 7),
        abi_version: read_byte(form, bytes, 8, 8),
        e_type: half_at(form, bytes, 16),
        e_machine: half_at(form, bytes, 18),
        e_entry: read_field(form, bytes, (24, 4), (24, 8)),
        e_phoff: read_field(form, bytes, (28, 4), (32, 8)),
        e_shoff: read_field(form, bytes, (32, 4), (40, 8)),
        e_flags: word(form, bytes, 36, 48),
        e_phentsize: read_half(form, bytes, 42, 54),
        e_phnum: read_half(form, bytes, 44, 56),
        e_shentsize: read_half(form, bytes, 46, 58),
        e_shnum: read_half(form, bytes, 48, 60),
        e_shstrndx: read_half(form, bytes, 50, 62),
    }
}

/// The program header that bytes hold (gABI, Program Header).
#[tactic(auto, unfolding(crate::specs::Records::segment_header))]
pub fn read_segment_header(form: Form, bytes: &[u8]) -> SegmentHeader
    ensures { result ≡ segment_header form bytes.now }
{
    SegmentHeader {
        p_type: word_at(form, bytes, 0),
        p_flags: word(form, bytes, 24, 4),
        p_offset: read_field(form, bytes, (4, 4), (8, 8)),
        p_vaddr: read_field(form, bytes, (8, 4), (16, 8)),
        p_paddr: read_field(form, bytes, (12, 4), (24, 8)),
        p_filesz: read_field(form, bytes, (16, 4), (32, 8)),
        p_memsz: read_field(form, bytes, (20, 4), (40, 8)),
        p_align: read_field(form, bytes, (28, 4), (48, 8)),
    }
}

/// The section header that bytes hold (gABI, Sections).
#[tactic(auto, unfolding(crate::specs::Records::section_header))]
pub fn read_section_header(form: Form, bytes: &[u8]) -> SectionHeader
    ensures { result ≡ section_header form bytes.now }
{
    SectionHeader {
        sh_name: word_at(form, bytes, 0),
        sh_type: word_at(form, bytes, 4),
        sh_flags: read_field(form, bytes, (8, 4), (8, 8)),
        sh_addr: read_field(form, bytes, (12, 4), (16, 8)),
        sh_offset: read_field(form, bytes, (16, 4), (24, 8)),
        sh_size: read_field(form, bytes, (20, 4), (32, 8)),
        sh_link: word(form, bytes, 24, 40),
        sh_info: word(form, bytes, 28, 44),
        sh_addralign: read_field(form, bytes, (32, 4), (48, 8)),
        sh_entsize: read_field(form, bytes, (36, 4), (56, 8)),
    }
}

/// The symbol that bytes hold (gABI, Symbol Table).
#[inline(always)]
#[tactic(auto, unfolding(crate::specs::Records::symbol_numbers))]
pub fn read_symbol_numbers(form: Form, bytes: &[u8]) -> SymbolNumbers
    ensures { result ≡ symbol_numbers form bytes.now }
{
    SymbolNumbers {
        st_name: word_at(form, bytes, 0),
        st_info: read_byte(form, bytes, 12, 4),
        st_other: read_byte(form, bytes, 13, 5),
        st_shndx: read_half(form, bytes, 14, 6),
        st_value: read_field(form, bytes, (4, 4), (8, 8)),
        st_size: read_field(form, bytes, (8, 4), (16, 8)),
    }
}

/// The dynamic entry that bytes hold (gABI, Dynamic Section).
#[tactic(auto, unfolding(crate::specs::Records::entry_numbers))]
pub fn read_entry_numbers(form: Form, bytes: &[u8]) -> EntryNumbers
    ensures { result ≡ entry_numbers form bytes.now }
{
    EntryNumbers {
        d_tag: read_field(form, bytes, (0, 4), (0, 8)),
        d_value: read_field(form, bytes, (4, 4), (8, 8)),
    }
}

/// The version of a symbol that bytes hold (GNU symbol versioning, `.gnu.version`).
#[tactic(auto, unfolding(crate::specs::Versions::version_id))]
pub fn read_version_id(form: Form, bytes: &[u8]) -> VersionId
    ensures { result ≡ version_id form bytes.now }
{
    let number = half_at(form, bytes, 0);
    VersionId {
        index: number % VERSYM_HIDDEN,
        hidden: number >= VERSYM_HIDDEN,
    }
}

/// The numbers from 0 on, as many as that: those of the sections or symbols of a file.
#[tactic(auto, unfolding(crate::specs::Image::counted))]
pub fn counted(alloc: Global, count: usize) -> Result<Vec<usize>, AllocError>
    ensures { IfOk result (λ v. v.items ≡ numbers_below count) }
{
    let mut made = Vec::with_capacity(alloc, count)?;
    for i in 0..count {
        made.push(i)?;
    }
    Ok(made)
}
