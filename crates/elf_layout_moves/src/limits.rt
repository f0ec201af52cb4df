//! With which program header tables sections move.
ghost use Rattle.std.specs.Prelude.{ℕ, List, ◌≡◌, ◌≢◌, ◌<◌, ◌≤◌, ◌+◌, All, IfErr, IfOk, length, min, slice_index_or, slice_set, []};
ghost use Rattle.elf_layout_plan.specs.Refusals.{IsStuckBy};
ghost use Rattle.elf_layout_moves.specs.Limits.{AreLimits, AreLimitsOf, limit_at as limit_there};

use crate::blocks::{MemoryBlock, blocks_of, has_empty_table, table_end};
use crate::moving::find_moved;
use crate::resizing::Resizing;
use elf_layout_plan::LayoutFault;
use std::alloc::{AllocError, Global};

/// A limit that no table reaches.
pub const NEVER: u128 = u128::MAX;

/// What is known of longer program header tables from one number of entries on.
#[derive(Drop)]
pub struct Limits {
    /// For each section the least end of the table with which it moves: an address.
    pub limits: Vec<u128>,
    /// The limits tell of longer tables that end before this address.
    pub bound: u128,
}

/// The limit of the section at a position.
pub fn limit_at(limits: &[u128], position: usize) -> u128
    ensures { result ≡ limit_there limits.now position }
{
    if position < limits.len() {
        limits[position]
    } else {
        NEVER
    }
}

// Lowers the limit of the section at a position.
fn lower(limits: &mut Vec<u128>, position: usize, limit: u128)
    ensures { limits.new.items ≡ slice_set limits.old.items position
        (min (slice_index_or limits.old.items position limit) limit) }
{
    if position < limits.len() && limit < limits[position] {
        limits[position] = limit;
    }
}

// The limits of sections that move already.
fn limits_of_moved(alloc: Global, count: usize, moved: &[usize]) -> Result<Vec<u128>, AllocError>
    requires { All (λ position. position < count) moved.now }
    ensures { (from : ℕ) → IfOk result (λ limits.
        AreLimitsOf count from moved.now [] limits.items) }
{
    let mut limits = vec![in alloc; NEVER; count]?;
    for position in moved {
        limits[*position] = 0;
    }
    Ok(limits)
}

// Lowers the limits of sections whose blocks start at an address or behind it.
fn lower_behind(limits: &mut Vec<u128>, blocks: &[MemoryBlock], from: u128)
    ensures { (count : ℕ) (moved : List ℕ) → AreLimitsOf count from moved [] limits.old.items
        → AreLimitsOf count from moved blocks.now limits.new.items }
{
    for block in blocks {
        if let Some(position) = block.section {
            if block.start >= from {
                lower(limits, position, block.start.saturating_add(1));
            }
        }
    }
}

// The first address behind the start of a block that starts at an address or behind it, and that isn't of a table or a note.
fn bound_behind(blocks: &[MemoryBlock], from: u128) -> u128
    ensures within { result ≤ NEVER }
    ensures bound { All (λ b. from ≤ b.start → b.priority ≢ 2 → result ≤ b.start + 1) blocks.now }
{
    let mut bound = NEVER;
    for block in blocks {
        if block.start >= from && block.priority != 2 && block.start < bound {
            bound = block.start + 1;
        }
    }
    bound
}

/// The limits of all sections, from `added` program headers more on. Errors: `Overlap` where two blocks overlap of which none can
/// move; `Memory`.
pub fn limits_from(alloc: Global, r: &Resizing<'_, '_>, added: usize) -> Result<Limits, LayoutFault>
    ensures limits { IfOk result (λ found. AreLimits r.now added found.bound found.limits.items) }
    ensures fault { IfErr result (IsStuckBy r.now.image added) }
{
    let _image = r.image.source();
    let moved = find_moved(alloc, r, added)?;
    let blocks = blocks_of(alloc, r, added)?;
    let end = table_end(r, added);
    let mut limits = limits_of_moved(alloc, r.image.sections().len(), &moved)?;
    lower_behind(&mut limits, &blocks, end);
    let bound = if has_empty_table(r, added) {
        0
    } else {
        bound_behind(&blocks, end)
    };
    Ok(Limits { limits, bound })
}
