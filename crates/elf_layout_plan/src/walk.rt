ghost use Rattle.std.specs.Prelude.{◌≡◌, ◌+◌, ◌↔◌, ◌≤◌, All, IfErr, IsErr, OnOk, false, length};
ghost use Rattle.elf_layout_plan.specs.declared.fault.LayoutFault.TheVariants.{Overlap};
ghost use Rattle.elf_layout_plan.specs.MovedBlocks.{HasStuck, IsOrdered, MoveForCause, StayApart, marks_of};
ghost use Rattle.elf_layout_plan.specs.Meeting.{IsMeeting};

use crate::block::Block;
use crate::fault::LayoutFault;
use crate::steps::Steps;
use std::sync::ledger::Ledger;

// What becomes of two blocks, the earlier one and the later one.
#[derive(Clone, Copy, PartialEq, Eq)]
enum Meeting {
    // The two blocks don't overlap.
    Apart,
    // The two blocks overlap, and the earlier one moves.
    Earlier,
    // The two blocks overlap, and the later one moves.
    Later,
    // The two blocks overlap, and neither can move.
    Stuck,
}

// Compares two blocks, which is one step.
fn compare_blocks<L: Ledger>(earlier: &Block, later: &Block, steps: &mut Steps<L>) -> Meeting
    ensures meeting { IsMeeting earlier.now later.now result }
    ensures step { steps.new ≡ steps.old + 1 }
{
    steps.tick();
    if u128::from(earlier.start) + u128::from(earlier.size) <= u128::from(later.start) {
        Meeting::Apart
    } else if earlier.priority < later.priority {
        Meeting::Later
    } else if earlier.priority > 0 {
        Meeting::Earlier
    } else {
        Meeting::Stuck
    }
}

/// Marks the blocks that move so that no two of the others overlap, by one sweep over them: the last block that stays is
/// compared with the next one. `Overlap` where two blocks overlap that can't move; the marks then tell nothing.
///
/// A comparison of two blocks is one step. Takes no memory.
pub fn walk_blocks<L: Ledger>(
    blocks: &[Block],
    moves: &mut [bool],
    steps: &mut Steps<L>,
) -> Result<(), LayoutFault>
    requires ordered { IsOrdered blocks.now }
    requires marks { length moves.old ≡ length blocks.now }
    requires unmarked { All (λ moved. moved ≡ false) moves.old }

    ensures refused { IsErr result ↔ HasStuck blocks.now }
    ensures fault { IfErr result (λ fault. fault ≡ Overlap) }

    ensures apart { OnOk result (StayApart blocks.now moves.new) }
    ensures cause { OnOk result (MoveForCause blocks.now moves.new) }
    ensures chosen { OnOk result (moves.new ≡ marks_of blocks.now) }

    ensures marks { length moves.new ≡ length moves.old }
    ensures steps { steps.new ≤ steps.old + length blocks.now }
{
    let mut last = 0;
    for next in 1..blocks.len() {
        match compare_blocks(&blocks[last], &blocks[next], steps) {
            Meeting::Apart => last = next,
            Meeting::Later => moves[next] = true,
            Meeting::Earlier => {
                moves[last] = true;
                last = next;
            }
            Meeting::Stuck => return Err(LayoutFault::Overlap),
        }
    }
    Ok(())
}
