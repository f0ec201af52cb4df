//! The least numbers of stretches of a list, by a sparse table: rows of the least of 2, 4, 8 .. numbers side by side.
ghost use Rattle.std.specs.Prelude.{ℕ, List, ◌≡◌, ◌<◌, ◌≤◌, ◌+◌, IfOk, length, min, slice_index};
ghost use Rattle.elf_layout_segments.specs.Leasts.{AreLeastBelow, AreLeastIn, AreLeastOf, AreStretchesOf, IsLeast, numbers_at};

use elf_layout_moves::limits::NEVER;
use std::alloc::{AllocError, Global};

// The places of a list from one on up to another one.
#[derive(Clone, Copy)]
pub(crate) struct Stretch {
    pub(crate) from: usize,
    pub(crate) until: usize,
}

// The lesser of the number at a place of a row, and of the one that stands so far behind it.
fn lesser_at(row: &[u128], place: usize, width: usize) -> u128
    requires { place < length row.now }
    ensures { (numbers : List ℕ) → AreLeastOf numbers width row.now
        → IsLeast (numbers_at numbers place (width + width)) result }
{
    if width < row.len() - place {
        row[place].min(row[place + width])
    } else {
        row[place]
    }
}

// The least of twice as many numbers, by those of a row.
fn doubled(alloc: Global, row: &[u128], width: usize) -> Result<Vec<u128>, AllocError>
    ensures { (numbers : List ℕ) → AreLeastOf numbers width row.now
        → IfOk result (λ made. AreLeastOf numbers (width + width) made.items) }
{
    let mut made = Vec::with_capacity(alloc, row.len())?;
    for place in 0..row.len() {
        made.push(lesser_at(row, place, width))?;
    }
    Ok(made)
}

// The lesser of the numbers at two places of a row.
fn lesser_of(row: &[u128], first: usize, last: usize) -> u128
    requires first { first < length row.now }
    requires last { last < length row.now }
    ensures { result ≡ min (slice_index row.now first) (slice_index row.now last) }
{
    row[first].min(row[last])
}

// Answers for stretches of at least `width` numbers and less than twice as many, by the least of so many side by side.
fn answer(row: &[u128], width: usize, asked: &[Stretch], answers: &mut [u128])
    requires some { 0 < width }
    requires within { AreStretchesOf (length row.now) asked.now }
    requires many { length answers.old ≡ length asked.now }
    ensures { (numbers : List ℕ) → AreLeastOf numbers width row.now
        → AreLeastBelow numbers asked.now width answers.old
        → AreLeastBelow numbers asked.now (width + width) answers.new }
{
    for j in 0..asked.len() {
        let stretch = asked[j];
        let length = stretch.until.saturating_sub(stretch.from);
        if width <= length && length - width < width {
            answers[j] = lesser_of(row, stretch.from, stretch.until - width);
        }
    }
}

// The least number of each stretch, NEVER for an empty one.
pub(crate) fn leasts_in(
    alloc: Global,
    numbers: Vec<u128>,
    asked: &[Stretch],
) -> Result<Vec<u128>, AllocError>
    requires { AreStretchesOf (length numbers.items) asked.now }
    ensures { IfOk result (λ found. AreLeastIn numbers.items asked.now found.items) }
{
    let mut answers = vec![in alloc; NEVER; asked.len()]?;
    let mut row = numbers;
    let mut width = 1usize;
    while width <= row.len() {
        answer(&row, width, asked, &mut answers);
        row = doubled(alloc, &row, width)?;
        width += width;
    }
    Ok(answers)
}
