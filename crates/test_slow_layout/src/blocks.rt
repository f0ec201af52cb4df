//! Blocks of memory, each looked at beside each other one.
use crate::plain::{Facts, Part, Piece, Plain};
use elf_format::constants::{
    SHT_DYNAMIC, SHT_DYNSYM, SHT_GNU_HASH, SHT_GNU_VERDEF, SHT_GNU_VERNEED, SHT_GNU_VERSYM,
    SHT_HASH, SHT_NOTE, SHT_STRTAB,
};
use std::alloc::{AllocError, Global};

/// A range of memory that something takes.
#[derive(Clone, Copy)]
pub(crate) struct Block {
    start: u128,
    size: u128,
    /// How blocks come that start together and have one size: starts of loaded segments, what is no section, and
    /// sections by their positions.
    rank: u128,
    priority: u8,
    is_displaced: bool,
}

/// The rank of a start of a loaded segment.
const LOAD_START: u128 = 0;

/// The rank of what is no section.
const NO_SECTION: u128 = 1;

/// The rank of the first section.
const SECTION: u128 = 2;

fn fixed(start: u128, size: u128, rank: u128) -> Block {
    Block {
        start,
        size,
        rank,
        priority: 0,
        is_displaced: false,
    }
}

/// The first loaded segment that has all of a range.
pub(crate) fn loaded_over(pieces: &[Piece], offset: u128, size: u128) -> Option<&Piece> {
    for piece in pieces {
        if piece.is_loaded() && piece.has(offset, size) {
            return Some(piece);
        }
    }
    None
}

/// The loaded segment that had all of the program header table.
pub(crate) fn table_load(plain: &Plain) -> Option<&Piece> {
    let size = (plain.read_pieces.len() as u128).saturating_mul(plain.facts.program_header);
    loaded_over(&plain.read_pieces, plain.facts.e_phoff, size)
}

/// Where a loaded segment shows an offset.
fn address_at(piece: &Piece, offset: u128) -> u128 {
    piece
        .address
        .saturating_add(offset)
        .saturating_sub(piece.offset)
}

fn add_headers(blocks: &mut Vec<Block>, plain: &Plain, added: usize) -> Result<(), AllocError> {
    let header = plain.facts.file_header;
    if let Some(piece) = loaded_over(&plain.read_pieces, 0, header) {
        blocks.push(fixed(address_at(piece, 0), header, NO_SECTION))?;
    }
    if let Some(piece) = table_load(plain) {
        let count = (plain.pieces.len() as u128).saturating_add(added as u128);
        let size = count.saturating_mul(plain.facts.program_header);
        let start = address_at(piece, plain.facts.e_phoff);
        blocks.push(fixed(start, size, NO_SECTION))?;
    }
    Ok(())
}

fn add_edges(blocks: &mut Vec<Block>, piece: &Piece) -> Result<(), AllocError> {
    let file_end = piece.address.saturating_add(piece.in_file);
    blocks.push(fixed(piece.address, 0, LOAD_START))?;
    blocks.push(fixed(file_end, 0, NO_SECTION))?;
    blocks.push(fixed(piece.memory_end(), 0, NO_SECTION))?;
    Ok(())
}

/// How readily a section moves.
fn priority_of(facts: &Facts, part: &Part) -> u8 {
    let moves = match part.sh_type {
        SHT_NOTE | SHT_DYNSYM | SHT_HASH | SHT_GNU_HASH => true,
        SHT_GNU_VERSYM | SHT_GNU_VERDEF | SHT_GNU_VERNEED => true,
        SHT_STRTAB => matches!(facts.strings, Some(it) if it == part.number),
        SHT_DYNAMIC => facts.moves_dynamic,
        _ => false,
    };
    if matches!(facts.interpreter, Some(it) if it == part.number) {
        1
    } else if moves {
        2
    } else {
        0
    }
}

/// What the section is to hold can't stand where it stood, where anything is loaded: nothing shows the bytes that it had there, or,
/// where it was empty, those that it gets.
fn is_displaced(plain: &Plain, part: &Part) -> bool {
    if !part.is_in_file() || part.size == 0 {
        return false;
    }
    let is_in_header = part.old == 0 && part.offset < plain.facts.file_header;
    let size = if part.old == 0 { part.size } else { part.old };
    let is_any_loaded = plain.pieces.iter().any(|piece| piece.is_loaded());
    is_any_loaded && (is_in_header || !plain.shows(part.offset, size, part.address))
}

/// The block of a section.
fn block_of(plain: &Plain, part: &Part) -> Block {
    Block {
        start: part.address,
        size: part.size,
        rank: part.position as u128 + SECTION,
        priority: priority_of(&plain.facts, part),
        is_displaced: is_displaced(plain, part),
    }
}

/// Every block, with so many program headers more.
pub(crate) fn blocks_with(
    alloc: Global,
    plain: &Plain,
    added: usize,
) -> Result<Vec<Block>, AllocError> {
    let mut blocks = Vec::new(alloc);
    add_headers(&mut blocks, plain, added)?;
    for piece in &plain.pieces {
        if piece.is_loaded() {
            add_edges(&mut blocks, piece)?;
        }
    }
    for part in &plain.parts {
        if part.takes_memory() {
            blocks.push(block_of(plain, part))?;
        }
    }
    Ok(blocks)
}

/// The first of two blocks is the earlier one.
fn is_earlier(a: &Block, b: &Block) -> bool {
    if a.start != b.start {
        return a.start < b.start;
    }
    if a.size != b.size {
        return a.size < b.size;
    }
    a.rank <= b.rank
}

/// The first of two blocks is the earlier one, and overlaps the later one.
fn overlaps(earlier: &Block, later: &Block) -> bool {
    let kept_out = earlier.is_displaced && later.rank == LOAD_START
        || earlier.rank == LOAD_START && later.is_displaced;
    is_earlier(earlier, later)
        && (later.start < earlier.start.saturating_add(earlier.size) || kept_out)
}

/// Two blocks overlap that can't move.
pub(crate) fn is_stuck(blocks: &[Block]) -> bool {
    for (i, a) in blocks.iter().enumerate() {
        for (j, b) in blocks.iter().enumerate() {
            if i != j && overlaps(a, b) && a.priority == 0 && b.priority == 0 {
                return true;
            }
        }
    }
    false
}

/// A block comes before the one at a place, if there is one.
fn is_before(blocks: &[Block], block: &Block, place: Option<usize>) -> bool {
    let Some(place) = place else {
        return true;
    };
    match blocks.get(place) {
        Some(other) => !is_earlier(other, block),
        None => true,
    }
}

/// The earliest block that isn't done.
fn earliest(blocks: &[Block], done: &[bool]) -> Option<usize> {
    let mut found = None;
    for (i, block) in blocks.iter().enumerate() {
        let is_done = matches!(done.get(i), Some(true));
        if !is_done && is_before(blocks, block, found) {
            found = Some(i);
        }
    }
    found
}

fn mark(marks: &mut [bool], at: usize) {
    if let Some(mark) = marks.get_mut(at) {
        *mark = true;
    }
}

/// Which blocks are displaced.
fn displaced_marks(alloc: Global, blocks: &[Block]) -> Result<Vec<bool>, AllocError> {
    let mut marks = Vec::new(alloc);
    for block in blocks {
        marks.push(block.is_displaced)?;
    }
    Ok(marks)
}

/// Marks the block that moves of two, and tells which one stays, the last one or the next one.
fn mark_overlap(blocks: &[Block], last: usize, next: usize, moves: &mut [bool]) -> usize {
    let (Some(a), Some(b)) = (blocks.get(last), blocks.get(next)) else {
        return next;
    };
    if a.start.saturating_add(a.size) <= b.start {
        return next;
    }
    if a.priority < b.priority {
        mark(moves, next);
        return last;
    }
    mark(moves, last);
    next
}

/// Which blocks move, of blocks none of which are stuck: the last one that stays is looked at beside the next one.
pub(crate) fn moving(alloc: Global, blocks: &[Block]) -> Result<Vec<bool>, AllocError> {
    let mut moves = displaced_marks(alloc, blocks)?;
    let mut done = displaced_marks(alloc, blocks)?;
    mark_moving(blocks, &mut moves, &mut done);
    Ok(moves)
}

/// Marks the blocks that move, of those that aren't done.
fn mark_moving(blocks: &[Block], moves: &mut [bool], done: &mut [bool]) {
    let mut last: Option<usize> = None;
    for _ in 0..blocks.len() {
        if let Some(next) = earliest(blocks, done) {
            last = match last {
                None => Some(next),
                Some(last) => Some(mark_overlap(blocks, last, next, moves)),
            };
            mark(done, next);
        }
    }
}

/// The position is that of a block that moves.
pub(crate) fn does_move(blocks: &[Block], moves: &[bool], position: usize) -> bool {
    for (i, block) in blocks.iter().enumerate() {
        let is_its = block.rank == position as u128 + SECTION;
        if is_its && matches!(moves.get(i), Some(true)) {
            return true;
        }
    }
    false
}

/// Of two blocks that overlap the first one moves.
fn gives_way(a: &Block, b: &Block) -> bool {
    if overlaps(a, b) {
        a.priority > 0 && b.priority <= a.priority
    } else {
        overlaps(b, a) && b.priority < a.priority
    }
}

/// The block at a place overlaps another one against which it moves.
fn has_cause(blocks: &[Block], place: usize, block: &Block) -> bool {
    for (i, other) in blocks.iter().enumerate() {
        if i != place && gives_way(block, other) {
            return true;
        }
    }
    false
}

/// The block at a place overlaps none of those that stay.
fn is_apart(blocks: &[Block], moves: &[bool], place: usize, block: &Block) -> bool {
    for (i, other) in blocks.iter().enumerate() {
        let stays = matches!(moves.get(i), Some(false));
        if i != place && stays && overlaps(block, other) {
            return false;
        }
    }
    true
}

/// Each block that moves has a cause, and those that stay are apart.
pub(crate) fn is_right(blocks: &[Block], moves: &[bool]) -> bool {
    for (i, block) in blocks.iter().enumerate() {
        let is_one = match moves.get(i) {
            Some(true) => has_cause(blocks, i, block),
            _ => is_apart(blocks, moves, i, block),
        };
        if !is_one {
            return false;
        }
    }
    true
}
