use elf_format::version_id::VersionId;

/// A symbol (gABI, Symbol Table).
#[derive(Clone, Copy, Debug)]
pub struct Symbol<'data> {
    /// The symbol's name, empty for none.
    pub name: &'data [u8],
    /// Binding in the upper four bits, type in the lower.
    pub st_info: u8,
    /// Visibility.
    pub st_other: u8,
    /// The section that the symbol is defined in, 0 for none.
    pub st_shndx: u16,
    /// An address, an offset or an alignment.
    pub st_value: u64,
    /// In bytes.
    pub st_size: u64,
    /// Of a dynamic symbol, where the file has versions.
    pub version: Option<VersionId>,
}
