//! What each program header goes by, and how many more are needed.
use crate::plain::{Part, Piece, Plain};
use elf_format::constants::{
    PT_DYNAMIC, PT_GNU_PROPERTY, PT_GNU_RELRO, PT_INTERP, PT_LOAD, PT_NOTE, PT_PHDR, SHT_DYNAMIC,
    SHT_NOTE,
};

/// What a program header goes by.
#[derive(Clone, Copy)]
pub(crate) enum Anchor<'a> {
    Itself,
    HeaderTable,
    OneSection(&'a Part),
    Notes,
}

/// The section shares a byte of the file with the program header.
fn shares_bytes(piece: &Piece, part: &Part) -> bool {
    part.had_bytes()
        && piece.in_file != 0
        && part.offset < piece.file_end()
        && piece.offset < part.offset.saturating_add(part.old)
}

/// The program header is for notes, and was over two note sections or more and over no other section.
fn is_over_notes(plain: &Plain, piece: &Piece) -> bool {
    let mut count: u32 = 0;
    for part in &plain.read_parts {
        if shares_bytes(piece, part) {
            if part.sh_type != SHT_NOTE || !part.is_loaded() || !piece.has(part.offset, part.old) {
                return false;
            }
            count = count.saturating_add(1);
        }
    }
    (piece.p_type == PT_NOTE || piece.p_type == PT_GNU_PROPERTY) && count >= 2
}

/// The section is one of those that shared bytes with the program header.
pub(crate) fn is_under(plain: &Plain, piece: &Piece, part: &Part) -> bool {
    for old in &plain.read_parts {
        if old.number == part.number && shares_bytes(piece, old) {
            return true;
        }
    }
    false
}

/// The section that the program header is just over: of several one that is loaded, or else the first one.
fn section_under<'a>(plain: &'a Plain, piece: &Piece) -> Option<&'a Part> {
    match section_just_under(plain, piece, true) {
        None => section_just_under(plain, piece, false),
        found => found,
    }
}

/// The first section that the program header is just over, of those that are loaded or not.
fn section_just_under<'a>(plain: &'a Plain, piece: &Piece, is_loaded: bool) -> Option<&'a Part> {
    for part in &plain.parts {
        if part.had_bytes()
            && part.offset == piece.offset
            && part.old == piece.in_file
            && part.is_loaded() == is_loaded
        {
            return Some(part);
        }
    }
    None
}

/// A section, or without one another anchor.
fn section_or<'a>(part: Option<&'a Part>, other: Anchor<'a>) -> Anchor<'a> {
    match part {
        Some(part) => Anchor::OneSection(part),
        None => other,
    }
}

fn interpreter(plain: &Plain) -> Option<&Part> {
    for part in &plain.parts {
        if matches!(plain.facts.interpreter, Some(it) if it == part.number) {
            return Some(part);
        }
    }
    None
}

/// What a program header goes by.
pub(crate) fn anchor_of<'a>(plain: &'a Plain, piece: &Piece) -> Anchor<'a> {
    let dynamic = plain.parts.iter().find(|part| part.sh_type == SHT_DYNAMIC);
    match piece.p_type {
        PT_LOAD => Anchor::Itself,
        PT_PHDR => section_or(section_under(plain, piece), Anchor::HeaderTable),
        PT_DYNAMIC => section_or(dynamic, Anchor::Itself),
        PT_INTERP => section_or(interpreter(plain), Anchor::Itself),
        PT_GNU_RELRO if plain.facts.moves_dynamic => Anchor::Itself,
        _ if piece.in_file == 0 => Anchor::Itself,
        _ if is_over_notes(plain, piece) => Anchor::Notes,
        _ => section_or(section_under(plain, piece), Anchor::Itself),
    }
}

/// The section is one of those that move.
pub(crate) fn is_moved(moved: &[Part], part: &Part) -> bool {
    for other in moved {
        if other.position == part.position {
            return true;
        }
    }
    false
}

/// One of the sections moves, or stays, that shared bytes with a program header.
pub(crate) fn is_any_under(plain: &Plain, moved: &[Part], piece: &Piece, does_move: bool) -> bool {
    for part in &plain.parts {
        if is_under(plain, piece, part) && is_moved(moved, part) == does_move {
            return true;
        }
    }
    false
}

/// No section before this one of those that move needs a segment of these flags.
pub(crate) fn is_first_of_flags(plain: &Plain, moved: &[Part], place: usize, p_flags: u32) -> bool {
    for (i, part) in moved.iter().enumerate() {
        if i < place && plain.segment_flags(part) == p_flags {
            return false;
        }
    }
    true
}

/// Whether a program header is split in two.
fn is_split(plain: &Plain, moved: &[Part], piece: &Piece) -> bool {
    match anchor_of(plain, piece) {
        Anchor::Notes => {
            is_any_under(plain, moved, piece, true) && is_any_under(plain, moved, piece, false)
        }
        _ => false,
    }
}

/// How many program headers more the sections that move need.
pub(crate) fn headers_needed(plain: &Plain, moved: &[Part]) -> usize {
    let mut count: usize = 0;
    for (i, part) in moved.iter().enumerate() {
        if is_first_of_flags(plain, moved, i, plain.segment_flags(part)) {
            count = count.saturating_add(1);
        }
    }
    for piece in &plain.pieces {
        if is_split(plain, moved, piece) {
            count = count.saturating_add(1);
        }
    }
    count
}
