//! What is said of blocks, found by a look at each two of them.
ghost use Rattle.std.specs.Prelude.{◌≡◌, ◌↔◌, ◌<◌, IsTrue, false, length};
ghost use Rattle.elf_layout_plan.specs.MovedBlocks.{EarlierMoves, HasCause, HasStuck, IsEarlier, IsOrdered, IsStuck, LaterMoves, MoveForCause, Overlap, StayApart};

use elf_layout_plan::Block;

// The first of two blocks is the earlier one.
fn is_earlier(a: &Block, b: &Block) -> bool
    ensures { IsTrue result ↔ IsEarlier a.now b.now }
{
    a.start < b.start || (a.start == b.start && a.size <= b.size)
}

// The earlier of two blocks ends past the start of the later one.
fn is_over(earlier: &Block, later: &Block) -> bool
    ensures { IsTrue result ↔ Overlap earlier.now later.now }
{
    u128::from(later.start) < u128::from(earlier.start) + u128::from(earlier.size)
}

// Two blocks overlap, and neither can move.
fn is_stuck(earlier: &Block, later: &Block) -> bool
    ensures { IsTrue result ↔ IsStuck earlier.now later.now }
{
    is_over(earlier, later) && earlier.priority == 0 && later.priority == 0
}

// Of two blocks that overlap the earlier one moves.
fn does_earlier_move(earlier: &Block, later: &Block) -> bool
    ensures { IsTrue result ↔ EarlierMoves earlier.now later.now }
{
    is_over(earlier, later) && earlier.priority > 0 && later.priority <= earlier.priority
}

// Of two blocks that overlap the later one moves.
fn does_later_move(earlier: &Block, later: &Block) -> bool
    ensures { IsTrue result ↔ LaterMoves earlier.now later.now }
{
    is_over(earlier, later) && earlier.priority < later.priority
}

// Two blocks overlap, and neither moves.
fn clash(earlier: &Block, earlier_moves: bool, later: &Block, later_moves: bool) -> bool
    ensures { IsTrue result ↔ ((earlier_moves ≡ false) × (later_moves ≡ false)
        × Overlap earlier.now later.now) }
{
    !earlier_moves && !later_moves && is_over(earlier, later)
}

// Each block stands behind those that are earlier.
pub(crate) fn is_ordered(blocks: &[Block]) -> bool
    ensures { IsTrue result ↔ IsOrdered blocks.now }
{
    for first in 0..blocks.len() {
        for second in first + 1..blocks.len() {
            if !is_earlier(&blocks[first], &blocks[second]) {
                return false;
            }
        }
    }
    true
}

// Some two blocks overlap, and neither can move.
pub(crate) fn has_stuck(blocks: &[Block]) -> bool
    ensures { IsTrue result ↔ HasStuck blocks.now }
{
    for first in 0..blocks.len() {
        for second in first + 1..blocks.len() {
            if is_stuck(&blocks[first], &blocks[second]) {
                return true;
            }
        }
    }
    false
}

// No two of the blocks that don't move overlap.
pub(crate) fn stay_apart(blocks: &[Block], moves: &[bool]) -> bool
    requires { length moves.now ≡ length blocks.now }
    ensures { IsTrue result ↔ StayApart blocks.now moves.now }
{
    for first in 0..blocks.len() {
        for second in first + 1..blocks.len() {
            let (one, other) = (moves[first], moves[second]);
            if clash(&blocks[first], one, &blocks[second], other) {
                return false;
            }
        }
    }
    true
}

// A block overlaps another one against which it moves.
fn has_cause(blocks: &[Block], place: usize) -> bool
    requires { place < length blocks.now }
    ensures { IsTrue result ↔ HasCause blocks.now place }
{
    for before in 0..place {
        if does_later_move(&blocks[before], &blocks[place]) {
            return true;
        }
    }
    for behind in place + 1..blocks.len() {
        if does_earlier_move(&blocks[place], &blocks[behind]) {
            return true;
        }
    }
    false
}

// Each block that moves does so against one that it overlaps.
pub(crate) fn move_for_cause(blocks: &[Block], moves: &[bool]) -> bool
    requires { length moves.now ≡ length blocks.now }
    ensures { IsTrue result ↔ MoveForCause blocks.now moves.now }
{
    for place in 0..blocks.len() {
        if moves[place] && !has_cause(blocks, place) {
            return false;
        }
    }
    true
}
