//! A layout that is found slowly and plainly: all pairs, nothing sorted, every number in 128 bits.
ghost use Rattle.std.specs.Prelude.{◌≡◌, ◌↔◌, IfOk, IsTrue, All};
ghost use Rattle.test_slow_layout.specs.Slow.{AreWithin, DoesFit, DoesPieceFit, DoesSlotFit, FitsIfFound};

use crate::blocks::{Block, blocks_with, does_move, is_right, is_stuck, moving};
use crate::following::headers_needed;
use crate::plain::{Part, Piece, Plain};
use crate::standing::{Slot, Standing, standing_of};
use crate::written::add_all;
use elf_format::constants::{PN_XNUM, SHN_LORESERVE};
use std::alloc::{AllocError, Global};

/// Where everything goes.
#[derive(Drop)]
pub struct Slow {
    /// Where sections and tables stand.
    pub standing: Standing,
    /// The program headers that are written.
    pub pieces: Vec<Piece>,
    /// How many rounds were gone through.
    pub rounds: usize,
    /// With how many program headers more the last one was.
    pub looked: usize,
}

/// What comes of a look.
#[derive(Drop)]
pub enum Found {
    /// Everything stands there.
    Plan(Slow),
    /// Two blocks overlap that can't move.
    Overlap,
    /// A number doesn't fit its field.
    TooLarge,
    /// What the slow way finds isn't what the definitions say.
    Wrong,
}

/// What comes of a round.
#[derive(Clone, Copy)]
enum Round {
    /// Sections move, if any.
    Moved,
    /// Two blocks overlap that can't move.
    Stuck,
    /// What the slow way finds isn't what the definitions say.
    Wrong,
}

/// The last round, in which sections move that need no more program headers than it looked with.
#[derive(Clone, Copy)]
struct Last {
    rounds: usize,
    looked: usize,
    needed: usize,
}

/// One section stands before another in memory: by address, size at read and position.
fn comes_before(a: &Part, b: &Part) -> bool {
    if a.address != b.address {
        return a.address < b.address;
    }
    if a.old != b.old {
        return a.old < b.old;
    }
    a.position < b.position
}

/// How many of some sections stand before one in memory.
fn count_before(parts: &[Part], part: &Part) -> usize {
    let mut count: usize = 0;
    for other in parts {
        if comes_before(other, part) {
            count = count.saturating_add(1);
        }
    }
    count
}

/// Puts down the sections that move in the order in which they stood in memory.
fn put_moved(
    plain: &Plain,
    blocks: &[Block],
    moves: &[bool],
    moved: &mut Vec<Part>,
) -> Result<(), AllocError> {
    for place in 0..plain.parts.len() {
        for part in &plain.parts {
            if does_move(blocks, moves, part.position)
                && count_before(&plain.parts, part) == place
            {
                moved.push(*part)?;
            }
        }
    }
    Ok(())
}

/// A round with so many program headers more, which puts down the sections that move.
fn round_with(
    alloc: Global,
    plain: &Plain,
    added: usize,
    moved: &mut Vec<Part>,
) -> Result<Round, AllocError> {
    let blocks = blocks_with(alloc, plain, added)?;
    if is_stuck(&blocks) {
        return Ok(Round::Stuck);
    }
    let moves = moving(alloc, &blocks)?;
    if !is_right(&blocks, &moves) {
        return Ok(Round::Wrong);
    }
    moved.clear();
    put_moved(plain, &blocks, &moves, moved)?;
    Ok(Round::Moved)
}

/// Whether numbers fit a word of the file's class.
fn do_fit(plain: &Plain, numbers: &[u128]) -> bool
    ensures { IsTrue result ↔ AreWithin plain.now numbers.now }
{
    for number in numbers {
        if *number > plain.facts.most {
            return false;
        }
    }
    true
}

/// Whether the numbers of a program header fit their fields, type and flags apart.
#[tactic(auto, unfolding(crate::specs::Slow::DoesPieceFit))]
fn does_piece_fit(plain: &Plain, piece: &Piece) -> bool
    ensures { IsTrue result ↔ DoesPieceFit plain.now piece.now }
{
    let numbers = [
        piece.in_file,
        piece.in_memory,
        piece.align,
        piece.offset,
        piece.address,
        piece.physical,
    ];
    do_fit(plain, &numbers)
}

/// Whether the numbers of all program headers fit their fields, types and flags apart.
fn do_pieces_fit(plain: &Plain, pieces: &[Piece]) -> bool
    ensures { IsTrue result ↔ All (DoesPieceFit plain.now) pieces.now }
{
    for piece in pieces {
        if !does_piece_fit(plain, piece) {
            return false;
        }
    }
    true
}

/// Whether the numbers fit that tell where sections stand.
fn do_slots_fit(plain: &Plain, slots: &[Slot]) -> bool
    ensures { IsTrue result ↔ All (DoesSlotFit plain.now) slots.now }
{
    for slot in slots {
        if !do_fit(plain, &[slot.offset, slot.address, slot.size]) {
            return false;
        }
    }
    true
}

/// Whether all numbers of a layout fit their fields, and sections and program headers can be counted.
fn does_fit(plain: &Plain, standing: &Standing, pieces: &[Piece]) -> bool
    ensures { IsTrue result ↔ DoesFit plain.now standing.now pieces.now }
{
    do_pieces_fit(plain, pieces)
        && do_slots_fit(plain, &standing.slots)
        && do_fit(plain, &[standing.e_phoff, standing.e_shoff])
        && plain.parts.len() < usize::from(SHN_LORESERVE)
        && pieces.len() < usize::from(PN_XNUM)
}

/// What follows from the sections that move in the last round.
fn last_round(alloc: Global, plain: &Plain, moved: &[Part], last: Last) -> Result<Found, AllocError>
    ensures { IfOk result (FitsIfFound plain.now) }
{
    let headers = plain.pieces.len().saturating_add(last.needed) as u128;
    let table_size = headers.saturating_mul(plain.facts.program_header);
    let standing = standing_of(alloc, plain, moved, table_size)?;
    let mut pieces = Vec::new(alloc);
    add_all(&mut pieces, plain, &standing, moved, table_size)?;
    if !does_fit(plain, &standing, &pieces) {
        return Ok(Found::TooLarge);
    }
    Ok(Found::Plan(Slow {
        standing,
        pieces,
        rounds: last.rounds,
        looked: last.looked,
    }))
}

/// Goes through rounds, each with as many program headers more as the one before needed, and puts down the sections
/// that move in the last one.
fn go_through(
    alloc: Global,
    plain: &Plain,
    moved: &mut Vec<Part>,
) -> Result<(Round, Last), AllocError> {
    let most = plain.pieces.len().saturating_add(6);
    let mut last = Last {
        rounds: 0,
        looked: 0,
        needed: 0,
    };
    for rounds in 1..most {
        last.rounds = rounds;
        last.looked = last.needed;
        let round = round_with(alloc, plain, last.looked, moved)?;
        last.needed = headers_needed(plain, moved);
        if !matches!(round, Round::Moved) || last.needed <= last.looked {
            return Ok((round, last));
        }
    }
    Ok((Round::Wrong, last))
}

/// Looks in rounds for where everything goes. Of a layout that is found each number fits its field.
pub fn lay_out_slowly(alloc: Global, plain: &Plain) -> Result<Found, AllocError>
    ensures { IfOk result (FitsIfFound plain.now) }
{
    let mut moved = Vec::new(alloc);
    let (round, last) = go_through(alloc, plain, &mut moved)?;
    match round {
        Round::Moved => last_round(alloc, plain, &moved, last),
        Round::Stuck => Ok(Found::Overlap),
        Round::Wrong => Ok(Found::Wrong),
    }
}
