ghost use Rattle.std.specs.Prelude.{◌≡◌};
ghost use Rattle.macho_image.specs.Command.{variant_size};

/// `LC_SEGMENT` of loader.h: a segment of a 32-bit file.
pub const LC_SEGMENT: u32 = 0x1;

/// `LC_SYMTAB`: the symbol table.
pub const LC_SYMTAB: u32 = 0x2;

/// `LC_LOAD_DYLIB`: a library that is loaded.
pub const LC_LOAD_DYLIB: u32 = 0xc;

/// `LC_ID_DYLIB`: the library's own name.
pub const LC_ID_DYLIB: u32 = 0xd;

/// `LC_SEGMENT_64`: a segment of a 64-bit file.
pub const LC_SEGMENT_64: u32 = 0x19;

/// `LC_LAZY_LOAD_DYLIB`: a library that is loaded at its first use.
pub const LC_LAZY_LOAD_DYLIB: u32 = 0x20;

/// `LC_LOAD_WEAK_DYLIB`: a library that may be missing.
pub const LC_LOAD_WEAK_DYLIB: u32 = 0x8000_0018;

/// `LC_RPATH`: a run path.
pub const LC_RPATH: u32 = 0x8000_001c;

/// `LC_REEXPORT_DYLIB`: a library whose symbols are passed on.
pub const LC_REEXPORT_DYLIB: u32 = 0x8000_001f;

/// `LC_LOAD_UPWARD_DYLIB`: a library that itself needs this one.
pub const LC_LOAD_UPWARD_DYLIB: u32 = 0x8000_0023;

/// The bytes of `load_command`, which every load command begins with.
pub const LOAD_COMMAND_SIZE: usize = 8;

/// The bytes of `rpath_command` before its text.
pub const RPATH_COMMAND_SIZE: usize = 12;

/// The bytes of `dylib_command` before its text.
pub const DYLIB_COMMAND_SIZE: usize = 24;

/// The bytes of `symtab_command`.
pub const SYMTAB_COMMAND_SIZE: usize = 24;

/// `load_command` of loader.h: what every load command begins with.
#[derive(Clone, Copy, Debug, PartialEq, Eq)]
pub struct LoadCommandHeader {
    /// The kind.
    pub cmd: u32,
    /// The command's bytes, these eight among them.
    pub cmdsize: u32,
}

/// `rpath_command` of loader.h, 12 bytes and a text.
#[derive(Clone, Copy, Debug, PartialEq, Eq)]
pub struct RpathCommand {
    /// `LC_RPATH`.
    pub cmd: u32,
    /// The command's bytes.
    pub cmdsize: u32,
    /// Where the text begins in the command.
    pub path: u32,
}

/// `dylib` of loader.h: what a library command tells of a library.
#[derive(Clone, Copy, Debug, PartialEq, Eq)]
pub struct Dylib {
    /// Where the name begins in the command.
    pub name: u32,
    /// When the library was built.
    pub timestamp: u32,
    /// The library's version.
    pub current_version: u32,
    /// The oldest version that the library stands in for.
    pub compatibility_version: u32,
}

/// `dylib_command` of loader.h, 24 bytes and a text.
#[derive(Clone, Copy, Debug, PartialEq, Eq)]
pub struct DylibCommand {
    /// One of the six kinds of library commands.
    pub cmd: u32,
    /// The command's bytes.
    pub cmdsize: u32,
    /// The library.
    pub dylib: Dylib,
}

/// A load command by its kind.
#[derive(Clone, Copy, Debug, PartialEq, Eq)]
pub enum CommandVariant {
    /// A run path.
    Rpath(RpathCommand),
    /// A library that is loaded.
    LoadDylib(DylibCommand),
    /// A library that itself needs this one.
    LoadUpwardDylib(DylibCommand),
    /// A library whose symbols are passed on.
    ReexportDylib(DylibCommand),
    /// A library that may be missing.
    LoadWeakDylib(DylibCommand),
    /// A library that is loaded at its first use.
    LazyLoadDylib(DylibCommand),
    /// The library's own name.
    IdDylib(DylibCommand),
    /// A segment, of either width.
    Segment(LoadCommandHeader),
    /// The symbol table.
    Symtab(LoadCommandHeader),
    /// A command of another kind, whose bytes are kept as they are.
    Other(LoadCommandHeader),
}

impl CommandVariant {
    /// The command's bytes, as it says itself. Takes no memory.
    pub fn cmdsize(&self) -> usize
        ensures { result ≡ variant_size self.now }
    {
        let size = match self {
            CommandVariant::Rpath(command) => command.cmdsize,
            CommandVariant::LoadDylib(command)
            | CommandVariant::LoadUpwardDylib(command)
            | CommandVariant::ReexportDylib(command)
            | CommandVariant::LoadWeakDylib(command)
            | CommandVariant::LazyLoadDylib(command)
            | CommandVariant::IdDylib(command) => command.cmdsize,
            CommandVariant::Segment(command)
            | CommandVariant::Symtab(command)
            | CommandVariant::Other(command) => command.cmdsize,
        };
        size as usize
    }
}

/// A load command and where it stands.
#[derive(Clone, Copy, Debug, PartialEq, Eq)]
pub struct LoadCommand {
    /// Where the command begins in the file or slice, in bytes.
    pub offset: usize,
    /// The command.
    pub command: CommandVariant,
}
