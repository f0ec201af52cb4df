/// What the bytes of a section are (gABI, Sections, `sh_type`; GNU hash and symbol versioning).
#[derive(Clone, Copy, Debug, PartialEq, Eq)]
pub enum SectionData {
    /// Bytes that are kept as they are.
    Opaque,
    /// No bytes in the file; zeros in memory.
    Uninitialized,
    /// The dynamic list.
    Dynamic,
    /// Relocations against a symbol table, or against none.
    Relocation,
    /// Notes, which are kept as they are.
    Note,
    /// Texts, each with a NUL behind it.
    Strings,
    /// Symbols for a link editor.
    Symbols,
    /// Symbols for a loader.
    DynamicSymbols,
    /// A hash table over the dynamic symbols, as the gABI has it.
    Hash,
    /// The GNU hash table over the dynamic symbols.
    GnuHash,
    /// A version number for each dynamic symbol.
    GnuVersym,
    /// The versions that the file defines.
    GnuVerdef,
    /// The versions that the file needs of others.
    GnuVerneed,
}
