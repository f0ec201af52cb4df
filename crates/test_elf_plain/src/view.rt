use elf_format::version_id::VersionId;

/// An entry of the dynamic list, with a copy of its text.
#[derive(Debug, Drop)]
pub enum EntryView {
    /// The tag of an entry whose number follows from the file's layout.
    Auto(u64),
    /// A tag and its number.
    Integer(u64, u64),
    /// A tag and the text that its number names.
    Text(u64, Vec<u8>),
}

/// A dynamic symbol, with its name and its version.
#[derive(Debug, Drop)]
pub struct ShownSymbol {
    /// The symbol's name, without the NUL.
    pub name: Vec<u8>,
    /// Binding and type.
    pub st_info: u8,
    /// Visibility.
    pub st_other: u8,
    /// The section that it is defined in.
    pub st_shndx: u16,
    /// The symbol's value, mostly an address.
    pub st_value: u64,
    /// How many bytes it has.
    pub st_size: u64,
    /// The symbol's version, where there is a table of versions.
    pub version: Option<VersionId>,
}

/// A defined version, with its names.
#[derive(Debug, Drop)]
pub struct ShownDefinition {
    /// The index by which symbols name it.
    pub index: u16,
    /// The version's flags.
    pub flags: u16,
    /// The version's own name, and those of the versions that it follows.
    pub names: Vec<Vec<u8>>,
}

/// A needed version, with its name.
#[derive(Debug, Drop)]
pub struct ShownName {
    /// The index by which symbols name it.
    pub index: u16,
    /// The version's name, without the NUL.
    pub name: Vec<u8>,
    /// The version's flags.
    pub flags: u16,
}

/// The versions needed of one library, with its name.
#[derive(Debug, Drop)]
pub struct ShownNeeds {
    /// The library's name.
    pub file: Vec<u8>,
    /// The versions, in the order of their chain.
    pub versions: Vec<ShownName>,
}

/// What a file shows: its bytes are copied, but for the interpreter's, which lie in one piece of the file.
#[derive(Debug, Drop)]
pub struct ShownView<'a> {
    /// The ABI byte.
    pub os_abi: u8,
    /// The flags of the first PT_GNU_STACK.
    pub stack_flags: Option<u32>,
    /// The bytes of the first PT_INTERP, with their NUL.
    pub interpreter: Option<&'a [u8]>,
    /// The dynamic list, up to its first DT_NULL.
    pub entries: Option<Vec<EntryView>>,
    /// The dynamic symbols, where the list names a table of them.
    pub symbols: Option<Vec<ShownSymbol>>,
    /// The defined versions, where the list names them.
    pub definitions: Option<Vec<ShownDefinition>>,
    /// The needed versions, where the list names them.
    pub needs: Option<Vec<ShownNeeds>>,
}

/// What is shown besides the dynamic list and its tables.
#[derive(Clone, Copy)]
pub struct Outline<'a> {
    /// The ABI byte.
    pub os_abi: u8,
    /// The flags of the first PT_GNU_STACK.
    pub stack_flags: Option<u32>,
    /// The bytes of the first PT_INTERP, with their NUL.
    pub interpreter: Option<&'a [u8]>,
}
