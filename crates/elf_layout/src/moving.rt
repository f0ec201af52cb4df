ghost use Rattle.std.specs.Prelude.{◌≡◌, ◌+◌, ◌≤◌, IfErr, IfOk};
ghost use Rattle.elf_layout_plan.specs.declared.fault.LayoutFault.TheVariants.{Overlap};
ghost use Rattle.elf_layout.specs.Promises.{IsPromised};
ghost use Rattle.elf_layout_plan.specs.Plan.{IsPlan, most_added, resized};
ghost use Rattle.elf_layout_plan.specs.Refusals.{IsNoPlan, IsStuckAsked, sizes_of_image};
ghost use Rattle.elf_layout_plan.specs.Rounds.{IsAsked};

use crate::layout::{plan_from, promised};
use elf_image::Builder;
use elf_layout_plan::{LayoutFault, Plan, read_source};
pub use elf_layout_segments::find_move_sections;
use std::alloc::Global;

/// Where everything goes. `Overlap` where two blocks of memory overlap that can't move, with a number of program headers
/// that is asked for; `NumberTooLarge` where an address, an offset or a count is past its field or limit.
pub fn move_sections(alloc: Global, image: &Builder<'_>, sizes: &[u64]) -> Result<Plan, LayoutFault>
    requires { sizes.now ≡ sizes_of_image image.now }
    ensures plan { IfOk result (λ plan. IsPlan (resized image.now) plan) }
    ensures fault { IfErr result (IsNoPlan image.now) }

    ensures stuck { IfErr result (λ fault.
        fault ≡ Overlap → IsStuckAsked (resized image.now)) }
    ensures asked { IfOk result (λ plan. IsAsked (resized image.now) plan.looked) }
    ensures rounds { IfOk result (λ plan. plan.rounds ≤ most_added image.now + 1) }

    ensures promises { IfOk result (λ plan. IsPromised image.now plan) }
{
    let read = read_source(alloc, image)?;
    let plan = plan_from(alloc, &read, image, sizes)?;
    Ok(promised(image, plan))
}
