// The lines in which details are told: words, with a `#` where a number, a name or a piece stands.
use crate::detail::{Detail, Piece};
use crate::flaws::Flaw;
use crate::tag_names::{tag_meaning, tag_name};
use elf_format::constants::SHT_STRTAB;
use std::fmt;

// What stands in the place of a `#`.
#[derive(Clone, Copy)]
enum Part {
    Words(&'static str),
    // In decimal digits.
    Count(usize),
    // In hexadecimal digits.
    Hex(u64),
    Piece(Piece),
    // By its name, or by its number.
    Tag(u64),
}

// Nothing stands there.
const NONE: Part = Part::Words("");

// One part, two of them, and three.
fn one(first: Part) -> [Part; 4] {
    [first, NONE, NONE, NONE]
}

fn two(first: Part, second: Part) -> [Part; 4] {
    [first, second, NONE, NONE]
}

fn three(first: Part, second: Part, third: Part) -> [Part; 4] {
    [first, second, third, NONE]
}

// A tag by its name, or by its number.
fn write_tag<W: fmt::Write>(tag: u64, f: &mut fmt::Formatter<W>) -> fmt::Result {
    match tag_name(tag) {
        Some(name) => f.write_str(name),
        None => write!(f, "tag 0x{tag:x}"),
    }
}

fn write_part<W: fmt::Write>(part: Part, f: &mut fmt::Formatter<W>) -> fmt::Result {
    match part {
        Part::Words(words) => f.write_str(words),
        Part::Count(number) => write!(f, "{number}"),
        Part::Hex(number) => write!(f, "0x{number:x}"),
        Part::Piece(piece) => write!(f, "{piece}"),
        Part::Tag(tag) => write_tag(tag, f),
    }
}

// Words with the parts in their places.
fn write_line<W: fmt::Write>(
    words: &str,
    parts: [Part; 4],
    f: &mut fmt::Formatter<W>,
) -> fmt::Result {
    let mut rest = words;
    for part in parts {
        let Some((before, behind)) = rest.split_once('#') else {
            return f.write_str(rest);
        };
        f.write_str(before)?;
        write_part(part, f)?;
        rest = behind;
    }
    f.write_str(rest)
}

// The line of a detail.
pub(crate) fn write_detail<W: fmt::Write>(
    detail: Detail,
    f: &mut fmt::Formatter<W>,
) -> fmt::Result {
    write_line(words_of(detail), parts_of(detail), f)
}

// The words of a detail: of the first bytes, the file header, or where sections and segments stand.
fn words_of(detail: Detail) -> &'static str {
    match detail {
        Detail::Length { length: 0 } => "the file is empty",
        Detail::Length { .. } => "the file has # bytes",
        Detail::Class { .. } => "the bytes are #, # and #",
        Detail::FileType { .. } => "e_type is #",
        Detail::NoSections => "there are no section headers",
        Detail::PastEnd { .. } => "# has # bytes from # on, the file ends at #",
        Detail::MoreInFile { .. } => "# has # bytes in the file, # in memory",
        Detail::NotShown { .. } => "no loaded segment shows section # of offset # at its address #",
        Detail::Crosses { .. } => "a segment's file part ends within the # bytes of section # at #",
        Detail::Unloaded { .. } => {
            "no loaded segment has the # bytes of the program header table from # on"
        }
        _ => more_words(detail),
    }
}

// The words of the other details: of two pieces, of a section by itself, or of the dynamic list.
fn more_words(detail: Detail) -> &'static str {
    match detail {
        Detail::Flawed { flaw, .. } => flaw_words(flaw),
        Detail::Shared {
            in_memory: true,
            ..
        } => "# and # share an address",
        Detail::Shared { .. } => "# and # share a byte of the file",
        Detail::Alone { .. } => "# is there alone",
        Detail::Apart { .. } => {
            "PT_DYNAMIC is at offset # and address #, the dynamic section at # and #"
        }
        Detail::NoSection { .. } => "no section of # bytes stands at offset # and address #",
        Detail::RepeatedTag { .. } => "# comes more than once",
        Detail::MissingTag { .. } => "# is missing",
        Detail::Tag { .. } => "# is #, #",
        Detail::Text { .. } => "# is #, no text of the dynamic strings begins there and ends",
        _ => "",
    }
}

// The words of what of a section contradicts a rule: of its links and numbers.
fn flaw_words(flaw: Flaw) -> &'static str {
    match flaw {
        Flaw::Repeated { .. } => "# is a second one of type #",
        Flaw::NoLink { .. } => "# links to section #, which isn't there",
        Flaw::WrongLink {
            wanted: SHT_STRTAB,
            ..
        } => "# links to section #, which is no string table",
        Flaw::WrongLink { .. } => "# links to section #, which is no table of dynamic symbols",
        Flaw::Partial { .. } => "# has # bytes, and an entry has #",
        Flaw::NoSymbolSection { .. } => "symbol # of # is of section #, which isn't there",
        Flaw::NoRelocationSymbol { .. } => "relocation # of # names symbol #, which isn't there",
        Flaw::NoInfoSection { .. } => "# names section # in sh_info, which isn't there",
        _ => text_words(flaw),
    }
}

// The words of what of a section's texts and versions contradicts a rule.
fn text_words(flaw: Flaw) -> &'static str {
    match flaw {
        Flaw::NoName { .. } => "the name of # is at #, no text begins there and ends",
        Flaw::NoSymbolName { .. } => {
            "the name of symbol # of # is at #, no text begins there and ends"
        }
        Flaw::NoRecordText { .. } => {
            "a version record of # has a text at #, none begins there and ends"
        }
        Flaw::PartialRecords { .. } => "# counts # version records, and not all are there",
        Flaw::OtherCount { .. } => "# has # versions, and there are # dynamic symbols",
        Flaw::UnknownVersion { .. } => {
            "the version of symbol # in # is #, which is neither defined nor needed"
        }
        Flaw::ForeignStrings { .. } => "# links to section #, which has the dynamic strings",
        _ => "",
    }
}

// The parts of a detail: of the first bytes or the file header.
fn parts_of(detail: Detail) -> [Part; 4] {
    match detail {
        Detail::Length { length: 0 } => [NONE, NONE, NONE, NONE],
        Detail::Length { length } => one(Part::Count(length)),
        Detail::Class {
            class,
            order,
            version,
        } => three(
            Part::Count(class as usize),
            Part::Count(order as usize),
            Part::Count(version as usize),
        ),
        Detail::FileType { e_type } => one(Part::Count(e_type as usize)),
        _ => placed_parts(detail),
    }
}

// Of where a piece stands.
fn placed_parts(detail: Detail) -> [Part; 4] {
    match detail {
        Detail::PastEnd {
            piece,
            start,
            size,
            length,
        } => [
            Part::Piece(piece),
            Part::Hex(size),
            Part::Hex(start),
            Part::Hex(length as u64),
        ],
        Detail::NotShown {
            section,
            offset,
            address,
        } => three(Part::Count(section), Part::Hex(offset), Part::Hex(address)),
        Detail::Crosses {
            section,
            address,
            size,
        } => three(Part::Hex(size), Part::Count(section), Part::Hex(address)),
        _ => segment_parts(detail),
    }
}

// Of where a segment stands, or of two pieces.
fn segment_parts(detail: Detail) -> [Part; 4] {
    match detail {
        Detail::MoreInFile {
            segment,
            in_file,
            in_memory,
        } => three(
            Part::Piece(Piece::Segment(segment)),
            Part::Hex(in_file),
            Part::Hex(in_memory),
        ),
        Detail::Unloaded { offset, size } => two(Part::Hex(size), Part::Hex(offset)),
        Detail::Shared { first, second, .. } => two(Part::Piece(first), Part::Piece(second)),
        Detail::Alone { piece } => one(Part::Piece(piece)),
        _ => listed_parts(detail),
    }
}

// Of what a segment stands for, or of a tag.
fn listed_parts(detail: Detail) -> [Part; 4] {
    match detail {
        Detail::Apart {
            offset,
            address,
            section_offset,
            section_address,
        } => [
            Part::Hex(offset),
            Part::Hex(address),
            Part::Hex(section_offset),
            Part::Hex(section_address),
        ],
        Detail::NoSection {
            offset,
            address,
            size,
        } => three(Part::Hex(size), Part::Hex(offset), Part::Hex(address)),
        _ => tag_parts(detail),
    }
}

// Of a section by itself: the symbol or relocation, if it is one of these, the section, and numbers.
fn flaw_parts(section: Part, flaw: Flaw) -> [Part; 4] {
    let first = first_number(flaw);
    match item_of(flaw) {
        Some(item) => three(Part::Count(item), section, first),
        None => three(section, first, second_number(flaw)),
    }
}

// The symbol or the relocation of a section.
fn item_of(flaw: Flaw) -> Option<usize> {
    match flaw {
        Flaw::NoSymbolSection { symbol, .. }
        | Flaw::NoSymbolName { symbol, .. }
        | Flaw::UnknownVersion { symbol, .. } => Some(symbol),
        Flaw::NoRelocationSymbol { relocation, .. } => Some(relocation),
        _ => None,
    }
}

// What is wrong: a number of a section, of a symbol or of a version, or a count.
fn first_number(flaw: Flaw) -> Part {
    match flaw {
        Flaw::NoLink { link } | Flaw::WrongLink { link, .. } | Flaw::ForeignStrings { link } => {
            Part::Count(link as usize)
        }
        Flaw::NoSymbolSection { section, .. } => Part::Count(section as usize),
        Flaw::NoRelocationSymbol { symbol, .. } => Part::Count(symbol as usize),
        Flaw::NoInfoSection { section } => Part::Count(section as usize),
        Flaw::PartialRecords { count } => Part::Count(count as usize),
        Flaw::OtherCount { versions, .. } => Part::Count(versions as usize),
        Flaw::UnknownVersion { index, .. } => Part::Count(index as usize),
        _ => hex_number(flaw),
    }
}

// What is wrong, as a number in hex: a type, a size or a place of a text.
fn hex_number(flaw: Flaw) -> Part {
    match flaw {
        Flaw::Repeated { sh_type } => Part::Hex(sh_type as u64),
        Flaw::Partial { size, .. } => Part::Hex(size),
        Flaw::NoName { place } | Flaw::NoSymbolName { place, .. } | Flaw::NoRecordText { place } =>
            Part::Hex(place as u64),
        _ => NONE,
    }
}

// What a wrong number is held against: the size of an entry, or the number of dynamic symbols.
fn second_number(flaw: Flaw) -> Part {
    match flaw {
        Flaw::Partial { unit, .. } => Part::Hex(unit),
        Flaw::OtherCount { symbols, .. } => Part::Count(symbols as usize),
        _ => NONE,
    }
}

// Of a tag, or of a section by itself.
fn tag_parts(detail: Detail) -> [Part; 4] {
    match detail {
        Detail::Flawed { section, flaw } => flaw_parts(Part::Piece(Piece::Section(section)), flaw),
        Detail::RepeatedTag { tag } | Detail::MissingTag { tag } => one(Part::Tag(tag)),
        Detail::Tag { tag, value } => three(
            Part::Tag(tag),
            Part::Hex(value),
            Part::Words(tag_meaning(tag)),
        ),
        Detail::Text { tag, value } => two(Part::Tag(tag), Part::Hex(value)),
        _ => [NONE, NONE, NONE, NONE],
    }
}
