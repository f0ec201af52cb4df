// Which blocks of memory move so that no two of the others overlap.
ghost use Rattle.std.specs.Prelude.{◌≡◌, ◌==◌, ◌<◌, ◌↔◌, not, false, length, filter, All, IfErr, IfOk, IsErr, IsPermutation, IsTrue, OnOk, map, slice_get};
ghost use Rattle.std.specs.List.{filter_map, list_any};
ghost use Rattle.elf_layout_plan.specs.MovedBlocks.{HasStuck, IsOrdered, MoveForCause, StayApart, marks_of};
ghost use Rattle.elf_layout_plan.specs.declared.fault.LayoutFault.TheVariants.{Overlap};
ghost use Rattle.elf_layout_plan.specs.Marks.{marked_of};
ghost use Rattle.elf_layout_plan.specs.Blocks.{Block as Taken, has_cause, has_load, have_causes, is_stuck, movers, movers_in_order, moves_as_displaced, moving_sections, stay_apart};
ghost use Rattle.elf_layout_moves.specs.BlockSteps.{AreClear, AreMovers, AreOrdered, AreRanges, AreTold, HasStuckFault, IsRangeOf, IsStuckFault, IsWhole};

use crate::blocks::MemoryBlock;
use elf_layout_plan::{Block, LayoutFault, Steps, walk_blocks};
use std::alloc::{AllocError, Global};
use std::marker::Brand;
use std::sync::ledger::{Blank, Ledger};

// Whether some loaded segment starts at one of the blocks.
fn is_some_load(blocks: &[MemoryBlock]) -> bool
    ensures { result ≡ has_load blocks.now }
{
    blocks.iter().any(|b| b.is_load_start)
}

// Whether one of the blocks can't move.
fn is_some_fixed(blocks: &[MemoryBlock]) -> bool
    ensures { result ≡ list_any (λ b. b.priority == 0) blocks.now }
{
    blocks.iter().any(|b| b.priority == 0)
}

// The displaced blocks, where there is a loaded segment: each of them overlaps its start.
fn displaced_blocks(
    alloc: Global,
    blocks: &[MemoryBlock],
    loaded: bool,
) -> Result<Vec<MemoryBlock>, AllocError>
    ensures { IfOk result (λ found.
        found.items ≡ filter (λ b. moves_as_displaced loaded b) blocks.now) }
{
    blocks
        .iter()
        .copied()
        .filter(|b| loaded && b.is_displaced)
        .collect(alloc)
}

// The blocks that aren't displaced, of which none is kept out by another one.
fn inside_blocks(
    alloc: Global,
    blocks: &[MemoryBlock],
    loaded: bool,
) -> Result<Vec<MemoryBlock>, AllocError>
    ensures { IfOk result (λ found.
        found.items ≡ filter (λ b. not (moves_as_displaced loaded b)) blocks.now) }
{
    blocks
        .iter()
        .copied()
        .filter(|b| !(loaded && b.is_displaced))
        .collect(alloc)
}

// Puts blocks in the order of their starts, then of their sizes, then of their ranks.
fn put_in_order(blocks: &mut [MemoryBlock])
    ensures ordered { AreOrdered blocks.new }
    ensures same { IsPermutation blocks.old blocks.new }
{
    blocks.sort_unstable_by_key(|b| (b.start, b.size, b.rank()));
}

// The range of the block at a place of the order, by places in place of addresses: it ends before the first block that starts
// at the block's end or later.
fn range_at(sorted: &[MemoryBlock], place: usize) -> Block
    requires ordered { AreOrdered sorted.now }
    requires within { place < length sorted.now }
    ensures { (x : Taken) → slice_get sorted.now place ≡ Some x
        → IsRangeOf sorted.now place x result }
{
    let block = &sorted[place];
    let reach = sorted.partition_point(|b| b.start.saturating_sub(block.start) < block.size);
    Block {
        start: place as u64,
        size: reach.saturating_sub(place) as u64,
        priority: block.priority,
    }
}

// The ranges of all blocks. A block may start or end past 64 bits; a place of the order doesn't.
fn ranges(alloc: Global, sorted: &[MemoryBlock]) -> Result<Vec<Block>, AllocError>
    requires { AreOrdered sorted.now }
    ensures { IfOk result (λ made. AreRanges sorted.now made.items) }
{
    let mut made = Vec::with_capacity(alloc, sorted.len())?;
    for place in 0..sorted.len() {
        made.push(range_at(sorted, place))?;
    }
    Ok(made)
}

// The walk over ranges, on a ledger of its own.
fn walk_on<L: Ledger>(blank: Blank, ranges: &[Block], marks: &mut [bool]) -> Result<(), LayoutFault>
    requires name { blank.name ≡ L.name }
    requires parts { blank.parts ≡ L.parts }
    requires one { blank.parts ≡ 1 }
    requires ordered { IsOrdered ranges.now }
    requires marks { length marks.old ≡ length ranges.now }
    requires unmarked { All (λ moved. moved ≡ false) marks.old }
    ensures refused { IsErr result ↔ HasStuck ranges.now }
    ensures fault { IfErr result (λ fault. fault ≡ Overlap) }
    ensures apart { OnOk result (StayApart ranges.now marks.new) }
    ensures cause { OnOk result (MoveForCause ranges.now marks.new) }
    ensures chosen { OnOk result (marks.new ≡ marks_of ranges.now) }
    ensures marks { length marks.new ≡ length marks.old }
{
    let mut steps = Steps::<L>::new(blank);
    walk_blocks(ranges, marks, &mut steps)
}

// Marks the ranges that move.
fn marks(alloc: Global, ranges: &[Block]) -> Result<Vec<bool>, LayoutFault>
    requires { IsOrdered ranges.now }
    ensures free { OnOk result (¬ HasStuck ranges.now) }
    ensures apart { IfOk result (λ marks. StayApart ranges.now marks.items) }
    ensures cause { IfOk result (λ marks. MoveForCause ranges.now marks.items) }
    ensures chosen { IfOk result (λ marks. marks.items ≡ marks_of ranges.now) }
    ensures many { IfOk result (λ marks. length marks.items ≡ length ranges.now) }
    ensures fault { IfErr result (HasStuckFault ranges.now) }
{
    let mut marks = vec![in alloc; false; ranges.len()]?;
    walk_on::<Brand>(Blank::new(1), ranges, &mut marks)?;
    Ok(marks)
}

// The blocks that are marked.
fn marked_blocks(
    alloc: Global,
    blocks: &[MemoryBlock],
    marks: &[bool],
) -> Result<Vec<MemoryBlock>, AllocError>
    requires { length marks.now ≡ length blocks.now }
    ensures { IfOk result (λ found. found.items ≡ marked_of blocks.now marks.now) }
{
    let mut found = Vec::new(alloc);
    for place in 0..blocks.len() {
        if marks[place] {
            found.push(blocks[place])?;
        }
    }
    Ok(found)
}

// The blocks that move, of blocks in their order of which none is kept out by another one: those that the walk marks.
fn walk_in_order(alloc: Global, sorted: &[MemoryBlock]) -> Result<Vec<MemoryBlock>, LayoutFault>
    requires ordered { AreOrdered sorted.now }
    requires clear { AreClear sorted.now }
    ensures movers { IfOk result (λ movers. AreMovers sorted.now movers.items) }
    ensures chosen { IfOk result (λ found. found.items ≡ movers_in_order sorted.now) }
    ensures fault { IfErr result (IsStuckFault sorted.now) }
{
    let ranges = ranges(alloc, sorted)?;
    let marks = marks(alloc, &ranges)?;
    let found = marked_blocks(alloc, sorted, &marks)?;
    Ok(found)
}

// The blocks that move, in their order, of blocks of which none is kept out by another one.
fn others_in_order(
    alloc: Global,
    blocks: &[MemoryBlock],
    loaded: bool,
) -> Result<Vec<MemoryBlock>, AllocError>
    ensures ordered { IfOk result (λ sorted. AreOrdered sorted.items) }
    ensures same { IfOk result (λ sorted.
        IsPermutation (filter (λ b. not (moves_as_displaced loaded b)) blocks.now) sorted.items) }
{
    let mut others = inside_blocks(alloc, blocks, loaded)?;
    put_in_order(&mut others);
    Ok(others)
}

// The blocks that move, so that no two of the others overlap: the displaced ones, and what the walk marks of the others.
fn movers_of(alloc: Global, blocks: &[MemoryBlock]) -> Result<Vec<MemoryBlock>, LayoutFault>
    requires whole { All IsWhole blocks.now }
    requires told { AreTold blocks.now }
    ensures movers { IfOk result (λ movers. AreMovers blocks.now movers.items) }
    ensures chosen { IfOk result (λ found. found.items ≡ movers blocks.now) }
    ensures fault { IfErr result (IsStuckFault blocks.now) }
{
    let loaded = is_some_load(blocks);
    let mut movers = displaced_blocks(alloc, blocks, loaded)?;
    if is_some_fixed(&movers) {
        return Err(LayoutFault::Overlap);
    }
    let others = others_in_order(alloc, blocks, loaded)?;
    let found = walk_in_order(alloc, &others)?;
    movers.extend_from_slice(&found)?;
    Ok(movers)
}

// The positions of the sections whose blocks these are.
fn sections_of(alloc: Global, blocks: &[MemoryBlock]) -> Result<Vec<usize>, AllocError>
    ensures { IfOk result (λ found. found.items ≡ filter_map (λ b. b.section) blocks.now) }
{
    blocks.iter().filter_map(|b| b.section).collect(alloc)
}

// The positions of the sections that move so that no two of the other blocks overlap.
pub(crate) fn moved_positions(
    alloc: Global,
    blocks: &[MemoryBlock],
) -> Result<Vec<usize>, LayoutFault>
    requires whole { All IsWhole blocks.now }
    requires told { AreTold blocks.now }
    ensures causes { IfOk result (λ moved. IsTrue (have_causes blocks.now moved.items)) }
    ensures apart { IfOk result (λ moved. IsTrue (stay_apart moved.items blocks.now)) }
    ensures chosen { IfOk result (λ moved. moved.items ≡ moving_sections blocks.now) }
    ensures free { OnOk result (is_stuck blocks.now ≡ false) }
    ensures fault { IfErr result (IsStuckFault blocks.now) }
{
    let movers = movers_of(alloc, blocks)?;
    let moved = sections_of(alloc, &movers)?;
    Ok(moved)
}
