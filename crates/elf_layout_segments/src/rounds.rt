ghost use Rattle.std.specs.Prelude.{IfErr, IfOk, IsTrue};
ghost use Rattle.elf_layout_plan.specs.Rounds.{are_chosen, do_move};
ghost use Rattle.elf_layout_moves.specs.Inner.{IsStuckAt};
ghost use Rattle.elf_layout_segments.specs.AnchorPositions.{AreAnchors, IsEnded, IsNoEnd};

use crate::anchors::AnchorAt;
use crate::forecasts::forecast_from;
use elf_layout_moves::blocks::{table_end_from, table_start};
use elf_layout_moves::moving::find_moved;
use elf_layout_moves::resizing::Resizing;
use elf_layout_plan::LayoutFault;
use std::alloc::Global;

/// How rounds came to an end.
#[derive(Drop)]
pub struct Rounds {
    /// The positions of the sections that move, in the order in which they stood in memory.
    pub moved: Vec<usize>,
    /// How many rounds there were.
    pub count: usize,
    /// How many program headers more the last round looked with.
    pub looked: usize,
}

// The sections that move in the last round, which looks with `looked` program headers more.
fn last_moved(alloc: Global, r: &Resizing<'_, '_>, looked: usize) -> Result<Vec<usize>, LayoutFault>
    ensures moved { IfOk result (λ moved. IsTrue (do_move r.now looked moved.items)) }
    ensures chosen { IfOk result (λ moved. IsTrue (are_chosen r.now looked moved.items)) }
    ensures fault { IfErr result (IsStuckAt r.now looked) }
{
    // The read tells the proof that the sizes are those of the image.
    let _sizes = r.sizes;
    find_moved(alloc, r, looked)
}

/// Looks in rounds for the sections that move: each with as many program headers more as those of the round before it need.
pub fn look_in_rounds(
    alloc: Global,
    r: &Resizing<'_, '_>,
    anchors: &[AnchorAt],
) -> Result<Rounds, LayoutFault>
    requires { AreAnchors r.now anchors.now }
    ensures ended { IfOk result (λ rounds. IsEnded r.now rounds) }
    ensures fault { IfErr result (IsNoEnd r.now) }
{
    // The read tells the proof how many there can be, and so that no more rounds than fit a usize are counted.
    let _headers = anchors.len();
    let start = table_start(r);
    let mut known = forecast_from(alloc, r, anchors, 0)?;
    let mut looked = 0;
    let mut count = 1;
    loop {
        let end = table_end_from(r, start, looked);
        known.renew(alloc, r, anchors, looked, end)?;
        let needed = known.needed(end);
        if needed <= looked as u128 {
            let moved = last_moved(alloc, r, looked)?;
            return Ok(Rounds {
                moved,
                count,
                looked,
            });
        }
        looked = needed as usize;
        count += 1;
    }
}
