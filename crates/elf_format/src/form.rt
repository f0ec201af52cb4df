ghost use Rattle.std.specs.Prelude.{◌≡◌, ◌<◌};

use crate::constants::SHT_RELA;
use patch_bytes::{ByteOrder2, Wide};

/// How the numbers of a file are spelled (gABI, ELF Header, ELF Identification).
#[derive(Clone, Copy, Debug, PartialEq, Eq)]
pub struct Form {
    /// The class.
    pub wide: Wide,
    /// The byte order.
    pub order: ByteOrder2,
}

impl Form {
    ghost use Rattle.elf_format.specs.Records.{entry_size, file_header_size, relocation_size, section_header_size, segment_header_size, symbol_size};

    /// How many bytes the file header takes (gABI, ELF Header, `e_ehsize`).
    pub fn file_header_size(self) -> usize
        ensures { result ≡ file_header_size self }
    {
        match self.wide {
            Wide::W32 => 52,
            Wide::W64 => 64,
        }
    }

    /// How many bytes a program header takes (gABI, ELF Header, `e_phentsize`).
    pub fn segment_header_size(self) -> usize
        ensures { result ≡ segment_header_size self }
    {
        match self.wide {
            Wide::W32 => 32,
            Wide::W64 => 56,
        }
    }

    /// How many bytes a section header takes (gABI, ELF Header, `e_shentsize`).
    pub fn section_header_size(self) -> usize
        ensures value { result ≡ section_header_size self }
        ensures positive { 0 < result }
    {
        match self.wide {
            Wide::W32 => 40,
            Wide::W64 => 64,
        }
    }

    /// How many bytes a symbol takes (gABI, Symbol Table).
    pub fn symbol_size(self) -> usize
        ensures value { result ≡ symbol_size self }
        ensures positive { 0 < result }
    {
        match self.wide {
            Wide::W32 => 16,
            Wide::W64 => 24,
        }
    }

    /// How many bytes a dynamic entry takes (gABI, Dynamic Section).
    pub fn entry_size(self) -> usize
        ensures { result ≡ entry_size self }
    {
        match self.wide {
            Wide::W32 => 8,
            Wide::W64 => 16,
        }
    }

    /// How many bytes a relocation in a section of a type takes (gABI, Relocation).
    pub fn relocation_size(self, kind: u32) -> usize
        ensures value { result ≡ relocation_size self kind }
        ensures positive { 0 < result }
    {
        match self.wide {
            Wide::W32 if kind == SHT_RELA => 12,
            Wide::W32 => 8,
            Wide::W64 if kind == SHT_RELA => 24,
            Wide::W64 => 16,
        }
    }
}
