//! The program headers that are written.
use crate::following::{Anchor, anchor_of, is_any_under, is_moved, is_under};
use crate::plain::{Part, Piece, Plain};
use crate::standing::{Slot, Standing, slot_at};
use elf_format::constants::{PT_DYNAMIC, PT_INTERP};
use std::alloc::AllocError;

fn memory_size(piece: &Piece, size: u128) -> u128 {
    let is_named = piece.p_type == PT_DYNAMIC || piece.p_type == PT_INTERP;
    if is_named || piece.in_memory == piece.in_file {
        size
    } else if piece.in_memory < piece.in_file {
        piece.in_memory
    } else {
        piece.in_memory.max(size)
    }
}

/// Adds the program header at these bytes, and at the address if there is one. A physical address that would fall below
/// 0 becomes one that fits no field.
fn lead(
    pieces: &mut Vec<Piece>,
    piece: &Piece,
    offset: u128,
    size: u128,
    address: Option<u128>,
) -> Result<(), AllocError> {
    let address = address.unwrap_or(piece.address);
    let raised = piece.physical.saturating_add(address);
    push(
        pieces,
        Piece {
            offset,
            address,
            physical: raised.checked_sub(piece.address).unwrap_or(u128::MAX),
            in_file: size,
            in_memory: memory_size(piece, size),
            ..*piece
        },
    )
}

fn push(pieces: &mut Vec<Piece>, piece: Piece) -> Result<(), AllocError> {
    pieces.push(piece)?;
    Ok(())
}

/// The address where a section stands, if it is loaded.
fn loaded_at(part: &Part, slot: &Slot) -> Option<u128> {
    if part.is_loaded() {
        Some(slot.address)
    } else {
        None
    }
}

/// Where notes stand: from the first one in the file to the end of the last.
#[derive(Clone, Copy)]
struct Span {
    start: u128,
    end: u128,
    address: Option<u128>,
}

/// Where notes stand, with one more.
fn with_note(found: Option<Span>, note: &Part, slot: &Slot) -> Span {
    let (start, end) = (slot.offset, slot.offset.saturating_add(slot.size));
    match found {
        Some(span) if span.start <= start => Span {
            end: span.end.max(end),
            ..span
        },
        Some(span) => Span {
            start,
            end: span.end.max(end),
            address: loaded_at(note, slot),
        },
        None => Span {
            start,
            end,
            address: loaded_at(note, slot),
        },
    }
}

/// Where the notes stand of a program header that move, or those that stay.
fn span_of(
    plain: &Plain,
    standing: &Standing,
    moved: &[Part],
    piece: &Piece,
    do_move: bool,
) -> Option<Span> {
    let mut found = None;
    for part in &plain.parts {
        if is_under(plain, piece, part) && is_moved(moved, part) == do_move {
            if let Some(slot) = slot_at(&standing.slots, part.position) {
                found = Some(with_note(found, part, &slot));
            }
        }
    }
    found
}

/// Adds the program header over notes, if there are any.
fn lead_notes(
    pieces: &mut Vec<Piece>,
    piece: &Piece,
    span: Option<Span>,
) -> Result<(), AllocError> {
    let Some(span) = span else {
        return Ok(());
    };
    let size = span.end.saturating_sub(span.start);
    lead(pieces, piece, span.start, size, span.address)
}

/// Adds what becomes of a program header over notes.
fn add_notes(
    pieces: &mut Vec<Piece>,
    plain: &Plain,
    standing: &Standing,
    moved: &[Part],
    piece: &Piece,
) -> Result<(), AllocError> {
    if !is_any_under(plain, moved, piece, true) {
        return push(pieces, *piece);
    }
    lead_notes(pieces, piece, span_of(plain, standing, moved, piece, false))?;
    lead_notes(pieces, piece, span_of(plain, standing, moved, piece, true))
}

/// Adds what becomes of a program header over a section.
fn add_over_section(
    pieces: &mut Vec<Piece>,
    standing: &Standing,
    piece: &Piece,
    part: &Part,
) -> Result<(), AllocError> {
    match slot_at(&standing.slots, part.position) {
        Some(slot) => lead(
            pieces,
            piece,
            slot.offset,
            slot.size,
            loaded_at(part, &slot),
        ),
        None => push(pieces, *piece),
    }
}

/// Adds what becomes of a program header, where the table of all has this size.
fn add(
    pieces: &mut Vec<Piece>,
    plain: &Plain,
    standing: &Standing,
    moved: &[Part],
    (piece, table_size): (&Piece, u128),
) -> Result<(), AllocError> {
    match anchor_of(plain, piece) {
        Anchor::Itself => push(pieces, *piece),
        Anchor::HeaderTable => push(
            pieces,
            Piece {
                in_file: table_size,
                in_memory: table_size,
                ..*piece
            },
        ),
        Anchor::OneSection(part) => add_over_section(pieces, standing, piece, part),
        Anchor::Notes => add_notes(pieces, plain, standing, moved, piece),
    }
}

/// Where the last loaded program header stands of a list.
fn last_load(pieces: &[Piece]) -> Option<usize> {
    let mut last = None;
    for (i, piece) in pieces.iter().enumerate() {
        if piece.is_loaded() {
            last = Some(i);
        }
    }
    last
}

/// Adds program headers to a list.
fn push_all(all: &mut Vec<Piece>, pieces: &[Piece]) -> Result<(), AllocError> {
    for piece in pieces {
        all.push(*piece)?;
    }
    Ok(())
}

/// Adds what becomes of every program header, of this size in all, and the added ones behind the last loaded one.
pub(crate) fn add_all(
    pieces: &mut Vec<Piece>,
    plain: &Plain,
    standing: &Standing,
    moved: &[Part],
    table_size: u128,
) -> Result<(), AllocError> {
    let last = last_load(&plain.pieces);
    for (i, piece) in plain.pieces.iter().enumerate() {
        add(pieces, plain, standing, moved, (piece, table_size))?;
        if matches!(last, Some(at) if at == i) {
            push_all(pieces, &standing.loads)?;
        }
    }
    Ok(())
}
