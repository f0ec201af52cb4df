//! Each record is appended to bytes, as its class and byte order have it. The caller sees that each number fits its field:
//! in a 32-bit file addresses, offsets and sizes have 32 bits.
ghost use Rattle.std.specs.Prelude.{◌≡◌, [], ◌∷◌, ◌++◌, map, IsTrue, OnOk};
ghost use Rattle.elf_tables.specs.Fields.{do_fields_fit, does_field_fit, field_model, fields};
ghost use Rattle.elf_tables.specs.Spelled.{class_number as number_of_class, class_word as word_of_class, entry_fields, file_header_fields, header_fields, identification_fields, order_number as number_of_order, narrow_segment_fields, narrow_symbol_fields, section_fields, segment_fields, symbol_fields, wide_segment_fields, wide_symbol_fields};
ghost use Rattle.elf_tables.specs.Spelled.{spelled_entry, spelled_file_header, spelled_section_header, spelled_segment_header, spelled_symbol};

use crate::fields::{Field, push_fields};
use crate::numbers::{half_bytes, long_bytes, word_bytes};
use elf_format::constants::{ELFCLASS32, ELFCLASS64, ELFDATA2LSB, ELFDATA2MSB};
use elf_format::form::Form;
use elf_format::records::{EntryNumbers, FileHeader, SectionHeader, SegmentHeader, SymbolNumbers};
use patch_bytes::{ByteOrder2, Wide};
use std::alloc::AllocError;

// An address, an offset or a size: a word of the class.
fn class_word(form: Form, number: u64) -> Field
    requires { IsTrue (does_field_fit (word_of_class form number)) }
    ensures { field_model result ≡ word_of_class form number }
{
    match form.wide {
        Wide::W32 => Field::Word(number as u32),
        Wide::W64 => Field::Long(number),
    }
}

// The numbers of a program header of a 32-bit file.
fn narrow_segment(p: SegmentHeader) -> [Field; 8]
    requires { IsTrue (do_fields_fit (narrow_segment_fields p)) }
    ensures { map field_model result ≡ narrow_segment_fields p }
{
    [
        Field::Word(p.p_type),
        Field::Word(p.p_offset as u32),
        Field::Word(p.p_vaddr as u32),
        Field::Word(p.p_paddr as u32),
        Field::Word(p.p_filesz as u32),
        Field::Word(p.p_memsz as u32),
        Field::Word(p.p_flags),
        Field::Word(p.p_align as u32),
    ]
}

// The numbers of a program header of a 64-bit file.
fn wide_segment(p: SegmentHeader) -> [Field; 8]
    ensures { map field_model result ≡ wide_segment_fields p }
{
    [
        Field::Word(p.p_type),
        Field::Word(p.p_flags),
        Field::Long(p.p_offset),
        Field::Long(p.p_vaddr),
        Field::Long(p.p_paddr),
        Field::Long(p.p_filesz),
        Field::Long(p.p_memsz),
        Field::Long(p.p_align),
    ]
}

/// Appends a program header (gABI, Program Header).
pub fn push_segment_header(
    bytes: &mut Vec<u8>,
    form: Form,
    header: SegmentHeader,
) -> Result<(), AllocError>
    requires { IsTrue (do_fields_fit (segment_fields form header)) }
    ensures { OnOk result (bytes.new.items
        ≡ bytes.old.items ++ spelled_segment_header form header) }
{
    match form.wide {
        Wide::W32 => push_fields(bytes, form.order, &narrow_segment(header)),
        Wide::W64 => push_fields(bytes, form.order, &wide_segment(header)),
    }
}

/// Appends a dynamic entry (gABI, Dynamic Section).
pub fn push_entry(bytes: &mut Vec<u8>, form: Form, entry: EntryNumbers) -> Result<(), AllocError>
    requires { IsTrue (do_fields_fit (entry_fields form entry)) }
    ensures { OnOk result (bytes.new.items ≡ bytes.old.items ++ spelled_entry form entry) }
{
    let tag = class_word(form, entry.d_tag);
    let value = class_word(form, entry.d_value);
    push_fields(bytes, form.order, &[tag, value])
}

/// Appends a section header (gABI, Sections).
pub fn push_section_header(
    bytes: &mut Vec<u8>,
    form: Form,
    header: SectionHeader,
) -> Result<(), AllocError>
    requires { IsTrue (do_fields_fit (section_fields form header)) }
    ensures { OnOk result (bytes.new.items
        ≡ bytes.old.items ++ spelled_section_header form header) }
{
    push_fields(bytes, form.order, &section_numbers(form, header))
}

// The numbers of a section header.
fn section_numbers(form: Form, s: SectionHeader) -> [Field; 10]
    requires { IsTrue (do_fields_fit (section_fields form s)) }
    ensures { map field_model result ≡ section_fields form s }
{
    [
        Field::Word(s.sh_name),
        Field::Word(s.sh_type),
        class_word(form, s.sh_flags),
        class_word(form, s.sh_addr),
        class_word(form, s.sh_offset),
        class_word(form, s.sh_size),
        Field::Word(s.sh_link),
        Field::Word(s.sh_info),
        class_word(form, s.sh_addralign),
        class_word(form, s.sh_entsize),
    ]
}

// The four bytes of a symbol that are no word: what it is, how it is seen, its section.
fn kind_bytes(order: ByteOrder2, y: SymbolNumbers) -> [u8; 4]
    ensures { result ≡ fields order ((1, y.st_info) ∷ (1, y.st_other) ∷ (2, y.st_shndx) ∷ []) }
{
    let section = half_bytes(order, y.st_shndx);
    [y.st_info, y.st_other, section[0], section[1]]
}

// Appends a symbol of a 32-bit file.
fn push_narrow_symbol(
    bytes: &mut Vec<u8>,
    order: ByteOrder2,
    y: SymbolNumbers,
) -> Result<(), AllocError>
    requires { IsTrue (do_fields_fit (narrow_symbol_fields y)) }
    ensures { OnOk result (bytes.new.items
        ≡ bytes.old.items ++ fields order (narrow_symbol_fields y)) }
{
    bytes.extend_from_slice(&word_bytes(order, y.st_name))?;
    bytes.extend_from_slice(&word_bytes(order, y.st_value as u32))?;
    bytes.extend_from_slice(&word_bytes(order, y.st_size as u32))?;
    bytes.extend_from_slice(&kind_bytes(order, y))
}

// Appends a symbol of a 64-bit file.
fn push_wide_symbol(
    bytes: &mut Vec<u8>,
    order: ByteOrder2,
    y: SymbolNumbers,
) -> Result<(), AllocError>
    ensures { OnOk result (bytes.new.items
        ≡ bytes.old.items ++ fields order (wide_symbol_fields y)) }
{
    bytes.extend_from_slice(&word_bytes(order, y.st_name))?;
    bytes.extend_from_slice(&kind_bytes(order, y))?;
    bytes.extend_from_slice(&long_bytes(order, y.st_value))?;
    bytes.extend_from_slice(&long_bytes(order, y.st_size))
}

/// Appends a symbol, its name by where it stands in a string table (gABI, Symbol Table).
pub fn push_symbol(bytes: &mut Vec<u8>, form: Form, symbol: SymbolNumbers) -> Result<(), AllocError>
    requires { IsTrue (do_fields_fit (symbol_fields form symbol)) }
    ensures { OnOk result (bytes.new.items ≡ bytes.old.items ++ spelled_symbol form symbol) }
{
    match form.wide {
        Wide::W32 => push_narrow_symbol(bytes, form.order, symbol),
        Wide::W64 => push_wide_symbol(bytes, form.order, symbol),
    }
}

// The byte of the class.
fn class_number(wide: Wide) -> u8
    ensures { result ≡ number_of_class wide }
{
    match wide {
        Wide::W32 => ELFCLASS32,
        Wide::W64 => ELFCLASS64,
    }
}

// The byte of the byte order.
fn order_number(order: ByteOrder2) -> u8
    ensures { result ≡ number_of_order order }
{
    match order {
        ByteOrder2::Little => ELFDATA2LSB,
        ByteOrder2::Big => ELFDATA2MSB,
    }
}

// The sixteen bytes that a file begins with.
fn identification(form: Form, header: FileHeader) -> [Field; 16]
    ensures { map field_model result ≡ identification_fields form header }
{
    [
        Field::Byte(0x7f),
        Field::Byte(0x45),
        Field::Byte(0x4c),
        Field::Byte(0x46),
        Field::Byte(class_number(form.wide)),
        Field::Byte(order_number(form.order)),
        Field::Byte(1),
        Field::Byte(header.os_abi),
        Field::Byte(header.abi_version),
        Field::Byte(0),
        Field::Byte(0),
        Field::Byte(0),
        Field::Byte(0),
        Field::Byte(0),
        Field::Byte(0),
        Field::Byte(0),
    ]
}

// The numbers of a file header, behind the sixteen bytes that a file begins with.
fn header_numbers(form: Form, h: FileHeader) -> [Field; 13]
    requires { IsTrue (do_fields_fit (header_fields form h)) }
    ensures { map field_model result ≡ header_fields form h }
{
    [
        Field::Half(h.e_type),
        Field::Half(h.e_machine),
        Field::Word(1),
        class_word(form, h.e_entry),
        class_word(form, h.e_phoff),
        class_word(form, h.e_shoff),
        Field::Word(h.e_flags),
        Field::Half(form.file_header_size() as u16),
        Field::Half(h.e_phentsize),
        Field::Half(h.e_phnum),
        Field::Half(h.e_shentsize),
        Field::Half(h.e_shnum),
        Field::Half(h.e_shstrndx),
    ]
}

/// Appends a file header (gABI, ELF Header).
pub fn push_file_header(
    bytes: &mut Vec<u8>,
    form: Form,
    header: FileHeader,
) -> Result<(), AllocError>
    requires { IsTrue (do_fields_fit (file_header_fields form header)) }
    ensures { OnOk result (bytes.new.items ≡ bytes.old.items ++ spelled_file_header form header) }
{
    push_fields(bytes, form.order, &identification(form, header))?;
    push_fields(bytes, form.order, &header_numbers(form, header))
}
