use elf_format::fault::ElfFault;
use std::fmt;

/// A read rule, in the order in which a read looks at them (see the read rules in docs/FORMATS-ELF.md).
#[derive(Clone, Copy, Debug, PartialEq, Eq)]
pub enum Rule {
    /// There are the 16 bytes of the identification.
    Identification,
    /// The first four bytes are those of an ELF file.
    Magic,
    /// Class, byte order and version are known.
    Class,
    /// The file header lies in the file.
    FileHeader,
    /// A program or a shared library, with section headers and tables that are read.
    FileKind,
    /// Both header tables lie in the file.
    HeaderTables,
    /// The bytes of each section and of each loaded segment lie in the file.
    RangesInFile,
    /// A loaded segment has no more bytes in the file than in memory.
    FileParts,
    /// Loaded segments share no address and no byte of the file.
    SegmentsApart,
    /// A loaded segment shows each allocated section at its address, and these share no byte.
    SectionsLoaded,
    /// No uninitialized section crosses the end of a segment's file part.
    UninitializedData,
    /// What comes once comes once, and tables link to tables of the kinds that they need.
    TableLinks,
    /// `PT_DYNAMIC` and the dynamic section agree.
    DynamicSection,
    /// `PT_INTERP` stands where a section does.
    Interpreter,
    /// The tags of the dynamic list agree with the tables that they name.
    DynamicTables,
    /// Each text that is used ends in its string table.
    Texts,
    /// Symbols have versions, and version records are whole.
    Versions,
    /// The program header table is loaded, where a `PT_PHDR` asks for it.
    LoadedHeaderTable,
}

impl Rule {
    ghost use Rattle.std.specs.Prelude.{◌≡◌};
    ghost use Rattle.elf_image_reasons.specs.ReadTests.{fault_of_rule};

    /// The fault that a read answers for a file that breaks this rule first.
    pub fn fault(self) -> ElfFault
        ensures { result ≡ fault_of_rule self }
    {
        match self {
            Rule::Identification => ElfFault::Truncated,
            Rule::Magic => ElfFault::BadMagic,
            Rule::Class => ElfFault::Unsupported,
            Rule::FileHeader => ElfFault::Truncated,
            Rule::FileKind => ElfFault::Unsupported,
            Rule::HeaderTables => ElfFault::Truncated,
            Rule::RangesInFile => ElfFault::Truncated,
            Rule::FileParts => ElfFault::Disagree(2),
            Rule::SegmentsApart => ElfFault::Disagree(3),
            Rule::SectionsLoaded => ElfFault::Disagree(4),
            Rule::UninitializedData => ElfFault::Disagree(5),
            Rule::TableLinks => ElfFault::Disagree(6),
            Rule::DynamicSection => ElfFault::Disagree(7),
            Rule::Interpreter => ElfFault::Disagree(8),
            Rule::DynamicTables => ElfFault::Disagree(9),
            Rule::Texts => ElfFault::BadText,
            Rule::Versions => ElfFault::Disagree(11),
            Rule::LoadedHeaderTable => ElfFault::Disagree(12),
        }
    }
}

impl Rule {
    // The name in which a rule is told.
    fn name(self) -> &'static str {
        match self {
            Rule::Identification => "identification",
            Rule::Magic => "magic",
            Rule::Class => "class, byte order and version",
            Rule::FileHeader => "file header",
            Rule::FileKind => "file kind",
            Rule::HeaderTables => "header tables",
            Rule::RangesInFile => "ranges in the file",
            Rule::FileParts => "file parts of segments",
            Rule::SegmentsApart => "segments apart",
            Rule::SectionsLoaded => "sections loaded",
            Rule::UninitializedData => "uninitialized data clear of file ends",
            Rule::TableLinks => "one of each and linked",
            Rule::DynamicSection => "dynamic section",
            Rule::Interpreter => "interpreter",
            Rule::DynamicTables => "dynamic tables",
            Rule::Texts => "texts",
            Rule::Versions => "versions",
            Rule::LoadedHeaderTable => "header table loaded",
        }
    }
}

impl fmt::Display for Rule {
    fn fmt<W: fmt::Write>(&self, f: &mut fmt::Formatter<W>) -> fmt::Result {
        f.write_str(self.name())
    }
}
