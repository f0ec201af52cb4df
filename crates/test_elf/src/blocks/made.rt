//! Lists of blocks that are made, and the walk over them against plain functions that look at all pairs.

use crate::blocks::plain::{has_stuck, is_ordered, move_for_cause, stay_apart};
use crate::blocks::walk::moved;
use elf_layout_plan::Block;
use std::alloc::{AllocError, Global};

// A short list of blocks in their order, another one for each number.
fn made(alloc: Global, number: u32) -> Result<Vec<Block>, AllocError> {
    let mut blocks = Vec::new(alloc);
    let mut state = number;
    for _ in 0..number % 8 {
        state = state.wrapping_mul(1_664_525).wrapping_add(1_013_904_223);
        blocks.push(Block {
            start: u64::from(state >> 27),
            size: u64::from((state >> 20) % 9),
            priority: ((state >> 11) % 3) as u8,
        })?;
    }
    blocks.sort_unstable_by_key(|block| (block.start, block.size));
    Ok(blocks)
}

// Whether the walk refused just what is stuck, and else moved what it is to move.
fn is_right(blocks: &[Block], moves: Option<&[bool]>) -> bool {
    match moves {
        None => has_stuck(blocks),
        Some(moves) => {
            moves.len() == blocks.len()
                && !has_stuck(blocks)
                && stay_apart(blocks, moves)
                && move_for_cause(blocks, moves)
        }
    }
}

#[test]
fn walks_over_made_lists(rt: HostRuntime) {
    for number in 0..4000 {
        let list = sure!(&rt; made(rt.alloc(), number));
        let blocks = list.as_slice();
        assert!(rt; is_ordered(blocks), "{number}: the order of blocks");
        let moves = sure!(&rt; moved(rt.alloc(), blocks));
        assert!(rt; is_right(blocks, moves.as_deref()), "{number}: the walk");
    }
}
