//! The walk over given blocks, with its marks.
ghost use Rattle.std.specs.Prelude.{◌≡◌, All, false, length};
ghost use Rattle.elf_layout_plan.specs.MovedBlocks.{IsOrdered};

use elf_layout_plan::{Block, LayoutFault, Steps, walk_blocks};
use std::alloc::{AllocError, Global};
use std::marker::Brand;
use std::sync::ledger::{Blank, Ledger};

// The walk over blocks in their order, on a ledger of its own.
fn walk_on<L: Ledger>(blank: Blank, blocks: &[Block], moves: &mut [bool]) -> Result<(), LayoutFault>
    requires name { blank.name ≡ L.name }
    requires parts { blank.parts ≡ L.parts }
    requires one { blank.parts ≡ 1 }
    requires ordered { IsOrdered blocks.now }
    requires marks { length moves.old ≡ length blocks.now }
    requires unmarked { All (λ moved. moved ≡ false) moves.old }
    ensures { length moves.new ≡ length moves.old }
{
    let mut steps = Steps::<L>::new(blank);
    walk_blocks(blocks, moves, &mut steps)
}

// Which of blocks in their order the walk moves, unless it refuses them.
pub(crate) fn moved(alloc: Global, blocks: &[Block]) -> Result<Option<Vec<bool>>, AllocError>
    requires { IsOrdered blocks.now }
{
    let mut moves = vec![in alloc; false; blocks.len()]?;
    match walk_on::<Brand>(Blank::new(1), blocks, &mut moves) {
        Ok(()) => Ok(Some(moves)),
        Err(_) => Ok(None),
    }
}
