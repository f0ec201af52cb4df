ghost use Rattle.std.specs.Prelude.{◌≡◌};
ghost use Rattle.elf_format.specs.Options.{first_there as first_of};
ghost use Rattle.elf_image_flaws.specs.Flaws.{flaw_unless as unless_by};

/// What of a section contradicts a read rule. Symbols, versions and relocations have their numbers in the section.
#[derive(Clone, Copy)]
pub enum Flaw {
    /// The section is the second one of a type that may come once.
    Repeated { sh_type: u32 },
    /// The section links to a section that isn't there (gABI, Sections, `sh_link`).
    NoLink { link: u32 },
    /// The section links to a section of another type than the one that is wanted.
    WrongLink { link: u32, wanted: u32 },
    /// The section's size isn't that of whole entries.
    Partial { size: u64, unit: u64 },
    /// A symbol of a section that isn't there (gABI, Symbol Table, `st_shndx`).
    NoSymbolSection { symbol: usize, section: u16 },
    /// A relocation that names a symbol which isn't there (gABI, Relocation).
    NoRelocationSymbol { relocation: usize, symbol: u64 },
    /// The section names a section that isn't there (gABI, Sections, `sh_info`).
    NoInfoSection { section: u32 },
    /// The section's name is no text of the section names (gABI, Sections, `sh_name`).
    NoName { place: u32 },
    /// A symbol whose name is no text of its string table (gABI, Symbol Table, `st_name`).
    NoSymbolName { symbol: usize, place: u32 },
    /// A place in its version records where no text of the dynamic strings is.
    NoRecordText { place: u32 },
    /// Not all version records that it counts are there (GNU symbol versioning).
    PartialRecords { count: u32 },
    /// The section has another number of versions than there are dynamic symbols (GNU symbol
    /// versioning, `.gnu.version`).
    OtherCount { versions: u64, symbols: u64 },
    /// A symbol of a version that is neither defined nor needed.
    UnknownVersion { symbol: usize, index: u16 },
    /// The section links to the dynamic strings, and is of a type that may not.
    ForeignStrings { link: u32 },
}

// A flaw, unless a test holds.
pub(crate) fn flaw_unless(right: bool, flaw: Flaw) -> Option<Flaw>
    ensures { result ≡ unless_by right flaw }
{
    if right { None } else { Some(flaw) }
}

/// The first of two that is there.
pub fn first_there<T: Copy>(first: Option<T>, second: Option<T>) -> Option<T>
    ensures { result ≡ first_of first second }
{
    match first {
        Some(told) => Some(told),
        None => second,
    }
}
