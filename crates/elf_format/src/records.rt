//! The records of ELF files as the numbers that they hold, whatever their class.
ghost use Rattle.std.specs.Prelude.{◌≡◌};

use crate::constants::{
    PT_LOAD, SHF_ALLOC, SHF_INFO_LINK, SHF_TLS, SHT_DYNSYM, SHT_GNU_VERDEF, SHT_GNU_VERNEED,
    SHT_NOBITS, SHT_NULL, SHT_REL, SHT_RELA, SHT_SYMTAB,
};
use crate::range::Range;

/// The file header (gABI, ELF Header).
#[derive(Clone, Copy)]
pub struct FileHeader {
    pub os_abi: u8,
    pub abi_version: u8,
    pub e_type: u16,
    pub e_machine: u16,
    pub e_entry: u64,
    pub e_phoff: u64,
    pub e_shoff: u64,
    pub e_flags: u32,
    pub e_phentsize: u16,
    pub e_phnum: u16,
    pub e_shentsize: u16,
    pub e_shnum: u16,
    pub e_shstrndx: u16,
}

/// A program header (gABI, Program Header).
#[derive(Clone, Copy, Debug)]
pub struct SegmentHeader {
    pub p_type: u32,
    pub p_flags: u32,
    pub p_offset: u64,
    pub p_vaddr: u64,
    pub p_paddr: u64,
    pub p_filesz: u64,
    pub p_memsz: u64,
    pub p_align: u64,
}

impl SegmentHeader {
    ghost use Rattle.elf_format.specs.Placement.{file_part, holds, memory_part};
    ghost use Rattle.elf_format.specs.File.{is_loaded};
    ghost use Rattle.elf_format.specs.Places.{place_of};

    /// Whether the segment is loaded (gABI, Program Header, `PT_LOAD`).
    pub fn is_loaded(self) -> bool
        ensures { result ≡ is_loaded self }
    {
        self.p_type == PT_LOAD
    }

    /// The bytes of the file that it covers (gABI, Program Header, `p_offset` and `p_filesz`).
    pub fn file_part(self) -> Range
        ensures { result ≡ file_part self }
    {
        Range {
            start: self.p_offset,
            size: self.p_filesz,
        }
    }

    /// The addresses that it takes (gABI, Program Header, `p_vaddr` and `p_memsz`).
    pub fn memory_part(self) -> Range
        ensures { result ≡ memory_part self }
    {
        Range {
            start: self.p_vaddr,
            size: self.p_memsz,
        }
    }

    /// Whether a section lies in its file part, as far from the start of that as from its address.
    pub fn holds(self, section: SectionHeader) -> bool
        ensures { result ≡ holds self (place_of section) }
    {
        section.file_range().lies_in(self.file_part())
            && section.sh_addr as u128 + self.p_offset as u128
                == self.p_vaddr as u128 + section.sh_offset as u128
    }
}

/// A section header (gABI, Sections).
#[derive(Clone, Copy)]
pub struct SectionHeader {
    pub sh_name: u32,
    pub sh_type: u32,
    pub sh_flags: u64,
    pub sh_addr: u64,
    pub sh_offset: u64,
    pub sh_size: u64,
    pub sh_link: u32,
    pub sh_info: u32,
    pub sh_addralign: u64,
    pub sh_entsize: u64,
}

impl SectionHeader {
    ghost use Rattle.elf_format.specs.File.{has_file_bytes, is_allocated};
    ghost use Rattle.elf_format.specs.Placement.{is_stored, is_uninitialized};
    ghost use Rattle.elf_format.specs.Places.{file_range, place_of};
    ghost use Rattle.elf_format.specs.Rules.{has_section_info, is_relocation_section, is_symbol_table};

    /// The bytes of the file that it names (gABI, Sections, `sh_offset` and `sh_size`).
    pub fn file_range(self) -> Range
        ensures { result ≡ file_range (place_of self) }
    {
        Range {
            start: self.sh_offset,
            size: self.sh_size,
        }
    }

    /// Whether the section takes up memory when the program runs (gABI, Sections, `SHF_ALLOC`).
    pub fn is_allocated(self) -> bool
        ensures { result ≡ is_allocated self }
    {
        self.sh_flags & SHF_ALLOC != 0
    }

    /// Whether the section takes up bytes of the file (gABI, Sections: `SHT_NULL` and `SHT_NOBITS`
    /// don't).
    pub fn has_file_bytes(self) -> bool
        ensures { result ≡ has_file_bytes self }
    {
        self.sh_type != SHT_NULL && self.sh_type != SHT_NOBITS
    }

    /// Whether the section is allocated and has bytes, and has them in the file.
    pub fn is_stored(self) -> bool
        ensures { result ≡ is_stored (place_of self) }
    {
        self.is_allocated() && self.has_file_bytes() && self.sh_size != 0
    }

    /// Whether the section is allocated and has zeros in place of bytes in the file, and isn't of
    /// threads (gABI, Sections, `SHT_NOBITS` and `SHF_TLS`).
    pub fn is_uninitialized(self) -> bool
        ensures { result ≡ is_uninitialized (place_of self) }
    {
        self.sh_type == SHT_NOBITS && self.is_allocated() && self.sh_flags & SHF_TLS == 0
    }

    /// Whether the section is a symbol table (gABI, Sections, `SHT_SYMTAB` and `SHT_DYNSYM`).
    pub fn is_symbol_table(self) -> bool
        ensures { result ≡ is_symbol_table self }
    {
        self.sh_type == SHT_SYMTAB || self.sh_type == SHT_DYNSYM
    }

    /// Whether the section has relocations (gABI, Sections, `SHT_REL` and `SHT_RELA`).
    pub fn is_relocation_section(self) -> bool
        ensures { result ≡ is_relocation_section self }
    {
        self.sh_type == SHT_REL || self.sh_type == SHT_RELA
    }

    /// Whether its `sh_info` is a section's number (gABI, Sections, `sh_info` and `SHF_INFO_LINK`).
    pub fn has_section_info(self) -> bool
        ensures { result ≡ has_section_info self }
    {
        self.is_relocation_section()
            || self.sh_flags & SHF_INFO_LINK != 0
                && ![
                    SHT_NULL,
                    SHT_SYMTAB,
                    SHT_DYNSYM,
                    SHT_GNU_VERDEF,
                    SHT_GNU_VERNEED,
                ]
                .iter()
                .any(|kind| *kind == self.sh_type)
    }
}

/// A symbol, its name by where it stands in a string table (gABI, Symbol Table).
#[derive(Clone, Copy)]
pub struct SymbolNumbers {
    pub st_name: u32,
    pub st_info: u8,
    pub st_other: u8,
    pub st_shndx: u16,
    pub st_value: u64,
    pub st_size: u64,
}

/// A dynamic entry (gABI, Dynamic Section).
#[derive(Clone, Copy)]
pub struct EntryNumbers {
    pub d_tag: u64,
    pub d_value: u64,
}

/// A needed version, its name by where it stands (GNU symbol versioning, Elfxx_Vernaux).
#[derive(Clone, Copy)]
pub struct NeedNameNumbers {
    pub index: u16,
    pub name: u32,
    pub flags: u16,
}
