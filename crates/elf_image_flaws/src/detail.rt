use crate::flaws::Flaw;
use crate::line::write_detail;
use std::fmt;

/// What of a file has a range of its bytes.
#[derive(Clone, Copy)]
pub enum Piece {
    /// The program header table.
    SegmentTable,
    /// The section header table.
    SectionTable,
    /// The program header of a number.
    Segment(usize),
    /// The section of a number.
    Section(usize),
}

/// What contradicts a read rule. Offsets, addresses and sizes count bytes; sections and program headers have the numbers of
/// their header tables.
#[derive(Clone, Copy)]
pub enum Detail {
    /// The file has so few bytes.
    Length {
        length: usize,
    },
    /// The bytes of class, byte order and version.
    Class {
        class: u8,
        order: u8,
        version: u8,
    },
    /// The file is neither a program nor a shared library (`e_type`).
    FileType {
        e_type: u16,
    },
    /// There are no section headers.
    NoSections,
    /// A range that ends past the end of the file.
    PastEnd {
        piece: Piece,
        start: u64,
        size: u64,
        length: usize,
    },
    /// A loaded segment with more bytes in the file than in memory.
    MoreInFile {
        segment: usize,
        in_file: u64,
        in_memory: u64,
    },
    /// A section that no loaded segment shows at its address, or that begins at the file's start.
    NotShown {
        section: usize,
        offset: u64,
        address: u64,
    },
    /// Two loaded segments that share an address, or two of them or two stored sections that share a byte of the file.
    Shared {
        first: Piece,
        second: Piece,
        in_memory: bool,
    },
    /// An uninitialized section that crosses the end of a segment's file part.
    Crosses {
        section: usize,
        address: u64,
        size: u64,
    },
    /// A section, with what of it contradicts the rule.
    Flawed {
        section: usize,
        flaw: Flaw,
    },
    /// A program header of `PT_DYNAMIC` or a dynamic section without the other.
    Alone {
        piece: Piece,
    },
    /// `PT_DYNAMIC` and the dynamic section at different places.
    Apart {
        offset: u64,
        address: u64,
        section_offset: u64,
        section_address: u64,
    },
    /// `PT_INTERP`, with no section just there.
    NoSection {
        offset: u64,
        address: u64,
        size: u64,
    },
    /// A table tag that comes more than once.
    RepeatedTag {
        tag: u64,
    },
    /// A table tag that is missing.
    MissingTag {
        tag: u64,
    },
    /// A tag whose value isn't that of its table, or that has none.
    Tag {
        tag: u64,
        value: u64,
    },
    /// A tag whose value is no place of a text that ends in the dynamic strings.
    Text {
        tag: u64,
        value: u64,
    },
    /// The program header table, in no loaded segment.
    Unloaded {
        offset: u64,
        size: u64,
    },
}

impl fmt::Display for Piece {
    fn fmt<W: fmt::Write>(&self, f: &mut fmt::Formatter<W>) -> fmt::Result {
        match self {
            Piece::SegmentTable => f.write_str("the program header table"),
            Piece::SectionTable => f.write_str("the section header table"),
            Piece::Segment(number) => write!(f, "program header {number}"),
            Piece::Section(number) => write!(f, "section {number}"),
        }
    }
}

impl fmt::Display for Detail {
    fn fmt<W: fmt::Write>(&self, f: &mut fmt::Formatter<W>) -> fmt::Result {
        write_detail(*self, f)
    }
}
