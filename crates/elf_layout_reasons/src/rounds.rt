// The rounds in which the layout looks, up to the one that finds two blocks that overlap and never move.
ghost use Rattle.std.specs.Prelude.{◌≡◌, ◌<◌, ◌^◌, IfNone, IfOk, IfSome, true};
ghost use Rattle.elf_layout_plan.specs.Rounds.{is_stuck_with};
ghost use Rattle.elf_layout_moves.specs.Limits.{end_with};
ghost use Rattle.elf_layout_segments.specs.AnchorPositions.{AreAnchors};
ghost use Rattle.elf_layout_segments.specs.Forecasts.{IsForecast};
ghost use Rattle.elf_layout_reasons.specs.Stuck.{DoRoundsEnd, IsRound, IsStuckInRound};

use elf_layout_moves::blocks::{table_end_from, table_start};
use elf_layout_moves::resizing::Resizing;
use elf_layout_plan::LayoutFault;
use elf_layout_segments::anchors::AnchorAt;
use elf_layout_segments::forecasts::{Forecast, forecast_from};
use std::alloc::{AllocError, Global};

// What is needed from the first round on; `None` where two blocks overlap in it that never move.
fn first_forecast(
    alloc: Global,
    r: &Resizing<'_, '_>,
    anchors: &[AnchorAt],
) -> Result<Option<Forecast>, AllocError>
    requires { AreAnchors r.now anchors.now }
    ensures is { IfOk result (λ answer. IfSome answer (λ f. IsForecast r.now f)) }
    ensures stuck { IfOk result (λ answer. IfNone answer (is_stuck_with r.now 0 ≡ true)) }
{
    match forecast_from(alloc, r, anchors, 0) {
        Ok(forecast) => Ok(Some(forecast)),
        Err(LayoutFault::Overlap) => Ok(None),
        Err(LayoutFault::NumberTooLarge) => unreachable!(),
        Err(LayoutFault::Memory) => Err(AllocError),
    }
}

// How many program headers more a round needs that looks with `looked`, with which the table ends at an address: by a forecast,
// which is made anew where it doesn't tell of so many; `None` where two blocks overlap that never move.
fn needed_with(
    alloc: Global,
    r: &Resizing<'_, '_>,
    anchors: &[AnchorAt],
    known: &mut Forecast,
    looked: usize,
    end: u128,
) -> Result<Option<usize>, AllocError>
    requires anchors { AreAnchors r.now anchors.now }
    requires known { IsForecast r.now known.old }
    requires end { end ≡ end_with r.now looked }
    requires near { end < 2 ^ 80 }
    ensures known { IfOk result (λ answer. IfSome answer (λ needed.
        IsForecast r.now known.new)) }
    ensures needed { IfOk result (λ answer. IfSome answer (λ needed. IsRound r.now looked needed)) }
    ensures stuck { IfOk result (λ answer. IfNone answer
        (is_stuck_with r.now looked ≡ true)) }
{
    match known.renew(alloc, r, anchors, looked, end) {
        Ok(()) => Ok(Some(known.needed(end) as usize)),
        Err(LayoutFault::Overlap) => Ok(None),
        Err(LayoutFault::NumberTooLarge) => unreachable!(),
        Err(LayoutFault::Memory) => Err(AllocError),
    }
}

// With how many program headers more the round looks that finds two blocks that overlap and never move; `None` where the
// rounds come to an end.
pub(crate) fn stuck_count(
    alloc: Global,
    r: &Resizing<'_, '_>,
    anchors: &[AnchorAt],
) -> Result<Option<usize>, AllocError>
    requires { AreAnchors r.now anchors.now }
    ensures stuck { IfOk result (λ answer. IfSome answer (IsStuckInRound r.now)) }
    ensures ended { IfOk result (λ answer. IfNone answer (DoRoundsEnd r.now)) }
{
    let Some(mut known) = first_forecast(alloc, r, anchors)? else {
        return Ok(Some(0));
    };
    let start = table_start(r);
    let mut looked = 0;
    loop {
        let end = table_end_from(r, start, looked);
        let Some(needed) = needed_with(alloc, r, anchors, &mut known, looked, end)? else {
            return Ok(Some(looked));
        };
        if needed <= looked {
            return Ok(None);
        }
        looked = needed;
    }
}
