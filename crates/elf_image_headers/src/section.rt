use elf_format::ByteString;
use elf_format::section_data::SectionData;

/// A section (gABI, Sections). Offsets and sizes are in bytes.
#[derive(Debug, Drop)]
pub struct Section<'data> {
    /// The section's name, a text of the section of names.
    pub name: ByteString<'data>,
    /// What the section's bytes are.
    pub kind: SectionData,
    /// What the section is for, as `SHT_DYNSYM`.
    pub sh_type: u32,
    /// `SHF_ALLOC` for a section that takes memory, and other flags.
    pub sh_flags: u64,
    /// Where the section stands in memory, 0 where it takes none.
    pub sh_addr: u64,
    /// Where the section stands in the file.
    pub sh_offset: u64,
    /// How many bytes it has, in the file or, where it has none there, in memory.
    pub sh_size: u64,
    /// The number of a section that this one leans on; which, the type says.
    pub sh_link: u32,
    /// A section's number, a count of records or of local symbols, as the type says.
    pub sh_info: u32,
    /// What the section's address is a multiple of, 0 or 1 for anything.
    pub sh_addralign: u64,
    /// The size of an entry, where all have one size.
    pub sh_entsize: u64,
    /// The bytes of the file that the section header names; none for an uninitialized section.
    pub content: &'data [u8],
}
