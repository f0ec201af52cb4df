//! The bytes of records, which were made by hand from the tables of the gABI.

use crate::support::same;
use elf_format::form::Form;
use elf_format::records::{EntryNumbers, FileHeader, SectionHeader, SegmentHeader, SymbolNumbers};
use elf_format::{ByteOrder2, Wide};
use elf_tables::spelled::{
    push_entry, push_file_header, push_section_header, push_segment_header, push_symbol,
};
use std::alloc::{AllocError, Global};

const NARROW: Form = Form {
    wide: Wide::W32,
    order: ByteOrder2::Little,
};

const WIDE: Form = Form {
    wide: Wide::W64,
    order: ByteOrder2::Big,
};

// A kind of record.
#[derive(Clone, Copy)]
enum Kind {
    Segment,
    Section,
    Symbol,
    Entry,
    Header,
}

const SEGMENT: SegmentHeader = SegmentHeader {
    p_type: 1,
    p_flags: 5,
    p_offset: 0x1234,
    p_vaddr: 0x40_1234,
    p_paddr: 0x50_1234,
    p_filesz: 0x10,
    p_memsz: 0x20,
    p_align: 0x1000,
};

const SECTION: SectionHeader = SectionHeader {
    sh_name: 17,
    sh_type: 0x6fff_fff6,
    sh_flags: 2,
    sh_addr: 0x40_0320,
    sh_offset: 0x320,
    sh_size: 0x24,
    sh_link: 6,
    sh_info: 3,
    sh_addralign: 8,
    sh_entsize: 4,
};

const SYMBOL: SymbolNumbers = SymbolNumbers {
    st_name: 9,
    st_info: 0x12,
    st_other: 2,
    st_shndx: 0xfff1,
    st_value: 0x1_1234,
    st_size: 7,
};

const ENTRY: EntryNumbers = EntryNumbers {
    d_tag: 0x6fff_fffb,
    d_value: 0x800,
};

const HEADER: FileHeader = FileHeader {
    os_abi: 3,
    abi_version: 1,
    e_type: 3,
    e_machine: 62,
    e_entry: 0x1040,
    e_phoff: 64,
    e_shoff: 0x3000,
    e_flags: 7,
    e_phentsize: 56,
    e_phnum: 9,
    e_shentsize: 64,
    e_shnum: 28,
    e_shstrndx: 27,
};

// The bytes of a record of a form.
fn bytes_of(alloc: Global, kind: Kind, form: Form) -> Result<Vec<u8>, AllocError> {
    let mut bytes = Vec::new(alloc);
    let pushed = match kind {
        Kind::Segment => push_segment_header(&mut bytes, form, SEGMENT),
        Kind::Section => push_section_header(&mut bytes, form, SECTION),
        Kind::Symbol => push_symbol(&mut bytes, form, SYMBOL),
        Kind::Entry => push_entry(&mut bytes, form, ENTRY),
        Kind::Header => push_file_header(&mut bytes, form, HEADER),
    };
    pushed?;
    Ok(bytes)
}

// Records, their form, and their bytes.
type Row = (&'static str, Kind, Form, &'static [u8]);

static ROWS: [Row; 10] = [
    (
        "narrow segment",
        Kind::Segment,
        NARROW,
        b"\x01\x00\x00\x00\x34\x12\x00\x00\x34\x12\x40\x00\x34\x12\x50\x00\x10\x00\x00\x00\x20\x00\x00\x00\x05\x00\x00\x00\x00\x10\x00\x00",
    ),
    (
        "wide segment",
        Kind::Segment,
        WIDE,
        b"\x00\x00\x00\x01\x00\x00\x00\x05\x00\x00\x00\x00\x00\x00\x12\x34\x00\x00\x00\x00\x00\x40\x12\x34\x00\x00\x00\x00\x00\x50\x12\x34\x00\x00\x00\x00\x00\x00\x00\x10\x00\x00\x00\x00\x00\x00\x00\x20\x00\x00\x00\x00\x00\x00\x10\x00",
    ),
    (
        "narrow section",
        Kind::Section,
        NARROW,
        b"\x11\x00\x00\x00\xf6\xff\xff\x6f\x02\x00\x00\x00\x20\x03\x40\x00\x20\x03\x00\x00\x24\x00\x00\x00\x06\x00\x00\x00\x03\x00\x00\x00\x08\x00\x00\x00\x04\x00\x00\x00",
    ),
    (
        "wide section",
        Kind::Section,
        WIDE,
        b"\x00\x00\x00\x11\x6f\xff\xff\xf6\x00\x00\x00\x00\x00\x00\x00\x02\x00\x00\x00\x00\x00\x40\x03\x20\x00\x00\x00\x00\x00\x00\x03\x20\x00\x00\x00\x00\x00\x00\x00\x24\x00\x00\x00\x06\x00\x00\x00\x03\x00\x00\x00\x00\x00\x00\x00\x08\x00\x00\x00\x00\x00\x00\x00\x04",
    ),
    (
        "narrow symbol",
        Kind::Symbol,
        NARROW,
        b"\x09\x00\x00\x00\x34\x12\x01\x00\x07\x00\x00\x00\x12\x02\xf1\xff",
    ),
    (
        "wide symbol",
        Kind::Symbol,
        WIDE,
        b"\x00\x00\x00\x09\x12\x02\xff\xf1\x00\x00\x00\x00\x00\x01\x12\x34\x00\x00\x00\x00\x00\x00\x00\x07",
    ),
    (
        "narrow entry",
        Kind::Entry,
        NARROW,
        b"\xfb\xff\xff\x6f\x00\x08\x00\x00",
    ),
    (
        "wide entry",
        Kind::Entry,
        WIDE,
        b"\x00\x00\x00\x00\x6f\xff\xff\xfb\x00\x00\x00\x00\x00\x00\x08\x00",
    ),
    (
        "narrow header",
        Kind::Header,
        NARROW,
        b"\x7f\x45\x4c\x46\x01\x01\x01\x03\x01\x00\x00\x00\x00\x00\x00\x00\x03\x00\x3e\x00\x01\x00\x00\x00\x40\x10\x00\x00\x40\x00\x00\x00\x00\x30\x00\x00\x07\x00\x00\x00\x34\x00\x38\x00\x09\x00\x40\x00\x1c\x00\x1b\x00",
    ),
    (
        "wide header",
        Kind::Header,
        WIDE,
        b"\x7f\x45\x4c\x46\x02\x02\x01\x03\x01\x00\x00\x00\x00\x00\x00\x00\x00\x03\x00\x3e\x00\x00\x00\x01\x00\x00\x00\x00\x00\x00\x10\x40\x00\x00\x00\x00\x00\x00\x00\x40\x00\x00\x00\x00\x00\x00\x30\x00\x00\x00\x00\x07\x00\x40\x00\x38\x00\x09\x00\x40\x00\x1c\x00\x1b",
    ),
];

#[test]
fn spells_records(rt: HostRuntime) {
    for (what, kind, form, want) in &ROWS {
        let found = sure!(&rt; bytes_of(rt.alloc(), *kind, *form));
        same(&rt, what, &found.as_slice(), want);
    }
}
