ghost use Rattle.std.specs.Prelude.{◌≡◌, ◌+◌, ◌≤◌, IfErr, IfOk, IsTrue, OnOk};
ghost use Rattle.elf_layout_plan.specs.declared.fault.LayoutFault.TheVariants.{Overlap};
ghost use Rattle.elf_layout_plan.specs.Added.{header_count};
ghost use Rattle.elf_image.specs.Kept.{image_at_read};
ghost use Rattle.elf_layout_plan.specs.Plan.{IsPlan, most_added, resized};
ghost use Rattle.elf_layout_plan.specs.PlanModel.{parts_model};
ghost use Rattle.elf_layout_plan.specs.Refusals.{IsNoPlan, IsStuckAsked, do_sizes_of_image_fit, sizes_of_image};
ghost use Rattle.elf_layout_plan.specs.Rounds.{IsAsked};
ghost use Rattle.elf_layout_segments.specs.Inner.{AreMarks};
ghost use Rattle.elf_layout_segments.specs.AnchorPositions.{AreAnchors, IsEnded};
ghost use Rattle.elf_layout.specs.Inner.{AreParts, HasNoPlan, IsStanding, StandsTooFar};
ghost use Rattle.elf_layout.specs.Promises.{IsPromised};
ghost use Rattle.elf_layout.specs.Refused.{IsNoLayout};

use crate::limits::do_parts_fit;
use crate::standing::{Standing, find_places};
use crate::written::written_segments;
use elf_image::Builder;
use elf_layout_plan::laws::{
    fixed_sections_stay, plans_are_apart, plans_are_one, plans_are_placed, plans_show_notes,
};
use elf_layout_plan::{LayoutFault, Plan, PlanParts, read_source};
use elf_layout_segments::anchors::{AnchorAt, anchors, headers_needed, kept_end};
use elf_layout_segments::marks::marks_of;
use elf_layout_segments::resizing::Resizing;
use elf_layout_segments::rounds::{Rounds, look_in_rounds};
use elf_layout_sizes::new_sizes_of;
use std::alloc::{AllocError, Global};

// Where everything stands once the sections at these positions move, with so many program headers.
fn standing_for(
    alloc: Global,
    r: &Resizing<'_, '_>,
    anchors: &[AnchorAt],
    moved: &[usize],
    marks: &[bool],
    headers: usize,
) -> Result<Standing, LayoutFault>
    requires anchors { AreAnchors r.now anchors.now }
    requires marks { AreMarks r.now moved.now marks.now }
    requires headers { headers ≡ header_count r.now moved.now }
    ensures stands { IfOk result (λ standing. IsStanding r.now moved.now standing) }
    ensures fault { IfErr result (StandsTooFar r.now moved.now) }
{
    let end = kept_end(alloc, r, anchors, moved, marks, headers)?;
    find_places(alloc, r, moved, marks, end, headers)
}

// How many program headers are written once the sections at these positions move.
fn headers_for(
    alloc: Global,
    r: &Resizing<'_, '_>,
    anchors: &[AnchorAt],
    moved: &[usize],
    marks: &[bool],
) -> Result<usize, AllocError>
    requires anchors { AreAnchors r.now anchors.now }
    requires marks { AreMarks r.now moved.now marks.now }
    ensures { IfOk result (λ headers. headers ≡ header_count r.now moved.now) }
{
    let needed = headers_needed(alloc, r, anchors, moved, marks)?;
    Ok(r.image.segments().len() + needed)
}

// What follows from where everything stands, with so many program headers.
fn parts_of_plan(
    alloc: Global,
    r: &Resizing<'_, '_>,
    anchors: &[AnchorAt],
    rounds: &Rounds,
    marks: &[bool],
    headers: usize,
    standing: Standing,
) -> Result<PlanParts, LayoutFault>
    requires anchors { AreAnchors r.now anchors.now }
    requires marks { AreMarks r.now rounds.now.moved.items marks.now }
    requires headers { headers ≡ header_count r.now rounds.now.moved.items }
    requires standing { IsStanding r.now rounds.now.moved.items standing }
    ensures parts { IfOk result (λ parts. AreParts r.now rounds.now (parts_model parts)) }
    ensures fault { IfErr result (StandsTooFar r.now rounds.now.moved.items) }
{
    let moved = rounds.moved.as_slice();
    let segments = written_segments(alloc, r, anchors, moved, marks, &standing, headers)?;
    Ok(PlanParts {
        places: standing.places,
        segments,
        e_phoff: standing.e_phoff,
        e_shoff: standing.e_shoff,
        rounds: rounds.count,
        looked: rounds.looked,
    })
}

// What follows from the sections that move in the last round.
fn parts_after(
    alloc: Global,
    r: &Resizing<'_, '_>,
    anchors: &[AnchorAt],
    rounds: &Rounds,
    marks: &[bool],
) -> Result<PlanParts, LayoutFault>
    requires anchors { AreAnchors r.now anchors.now }
    requires marks { AreMarks r.now rounds.now.moved.items marks.now }
    ensures parts { IfOk result (λ parts. AreParts r.now rounds.now (parts_model parts)) }
    ensures fault { IfErr result (StandsTooFar r.now rounds.now.moved.items) }
{
    let headers = headers_for(alloc, r, anchors, &rounds.moved, marks)?;
    let standing = standing_for(alloc, r, anchors, &rounds.moved, marks, headers)?;
    parts_of_plan(alloc, r, anchors, rounds, marks, headers, standing)
}

// A plan after the last round, if every number fits.
fn plan_after(
    alloc: Global,
    r: &Resizing<'_, '_>,
    anchors: &[AnchorAt],
    rounds: &Rounds,
) -> Result<Plan, LayoutFault>
    requires anchors { AreAnchors r.now anchors.now }
    requires ended { IsEnded r.now rounds.now }
    ensures plan { IfOk result (λ plan. IsPlan r.now plan) }
    ensures fault { IfErr result (HasNoPlan r.now) }
{
    let marks = marks_of(alloc, r, &rounds.moved)?;
    let parts = parts_after(alloc, r, anchors, rounds, &marks)?;
    if !do_parts_fit(r.image, &parts) {
        return Err(LayoutFault::NumberTooLarge);
    }
    Ok(Plan::new(parts))
}

// Where everything goes, for an image with its new sizes.
pub(crate) fn plan_of(alloc: Global, r: &Resizing<'_, '_>) -> Result<Plan, LayoutFault>
    ensures plan { IfOk result (λ plan. IsPlan (resized r.now.image) plan) }
    ensures fault { IfErr result (IsNoPlan r.now.image) }

    ensures stuck { IfErr result (λ fault.
        fault ≡ Overlap → IsStuckAsked (resized r.now.image)) }
    ensures asked { IfOk result (λ plan. IsAsked (resized r.now.image) plan.looked) }
    ensures rounds { IfOk result (λ plan. plan.rounds ≤ most_added r.now.image + 1) }
{
    // The read tells the proof that the sizes are those of the image.
    let _sizes = r.sizes;
    let anchors = anchors(alloc, r)?;
    let rounds = look_in_rounds(alloc, r, &anchors)?;
    plan_after(alloc, r, &anchors, &rounds)
}

// The plan of an edited image with new sizes, with the image that was read from the same bytes.
pub(crate) fn plan_from<'data>(
    alloc: Global,
    read: &Builder<'data>,
    image: &Builder<'data>,
    sizes: &[u64],
) -> Result<Plan, LayoutFault>
    requires read { read.now ≡ image_at_read image.now }
    requires sizes { sizes.now ≡ sizes_of_image image.now }
    ensures plan { IfOk result (λ plan. IsPlan (resized image.now) plan) }
    ensures fault { IfErr result (IsNoPlan image.now) }

    ensures stuck { IfErr result (λ fault.
        fault ≡ Overlap → IsStuckAsked (resized image.now)) }
    ensures asked { IfOk result (λ plan. IsAsked (resized image.now) plan.looked) }
    ensures rounds { IfOk result (λ plan. plan.rounds ≤ most_added image.now + 1) }
{
    plan_of(alloc, &Resizing { read, image, sizes })
}

// A plan of an image, of which it is known that the image was read and edited: so it is the only one, placed as the read rules ask,
// apart in memory, and shows the notes.
pub(crate) fn promised(image: &Builder<'_>, plan: Plan) -> Plan
    requires { IsPlan (resized image.now) plan }
    ensures same { result ≡ plan }
    ensures promises { IsPromised image.now result }
{
    fixed_sections_stay();
    plans_are_apart();
    plans_are_one();
    plans_are_placed();
    plans_show_notes();
    let _source = image.source();
    plan
}

/// Where everything goes, as `lay_out_from_read` tells it, for a caller that has the new sizes of the sections too.
pub fn lay_out_from_sizes<'data>(
    alloc: Global,
    read: &Builder<'data>,
    image: &Builder<'data>,
    sizes: &[u64],
) -> Result<Plan, LayoutFault>
    requires read { read.now ≡ image_at_read image.now }
    requires sizes { sizes.now ≡ sizes_of_image image.now }
    ensures plan { IfOk result (λ plan. IsPlan (resized image.now) plan) }
    ensures promises { IfOk result (λ plan. IsPromised image.now plan) }
    ensures fault { IfErr result (IsNoPlan image.now) }

    ensures stuck { IfErr result (λ fault.
        fault ≡ Overlap → IsStuckAsked (resized image.now)) }
    ensures asked { IfOk result (λ plan. IsAsked (resized image.now) plan.looked) }
    ensures rounds { IfOk result (λ plan. plan.rounds ≤ most_added image.now + 1) }
{
    let plan = plan_from(alloc, read, image, sizes)?;
    Ok(promised(image, plan))
}

/// Where everything goes, as `lay_out` tells it, for a caller that has the image as its source was read.
pub fn lay_out_from_read<'data>(
    alloc: Global,
    read: &Builder<'data>,
    image: &Builder<'data>,
) -> Result<Plan, LayoutFault>
    requires { read.now ≡ image_at_read image.now }
    ensures plan { IfOk result (λ plan. IsPlan (resized image.now) plan) }
    ensures fit { OnOk result (IsTrue (do_sizes_of_image_fit image.now)) }
    ensures promises { IfOk result (λ plan. IsPromised image.now plan) }
    ensures fault { IfErr result (IsNoLayout image.now) }

    ensures stuck { IfErr result (λ fault.
        fault ≡ Overlap → IsStuckAsked (resized image.now)) }
    ensures asked { IfOk result (λ plan. IsAsked (resized image.now) plan.looked) }
    ensures rounds { IfOk result (λ plan. plan.rounds ≤ most_added image.now + 1) }
{
    let sizes = new_sizes_of(alloc, read, image)?;
    let plan = plan_from(alloc, read, image, &sizes)?;
    Ok(promised(image, plan))
}

/// Where everything goes, with the new sizes of the sections. `Overlap` where two blocks of memory overlap that can't move, with a
/// number of program headers that is asked for; `NumberTooLarge` where a size, an address, an offset or a count is past its field
/// or limit. The image's source is read once more.
pub fn lay_out(alloc: Global, image: &Builder<'_>) -> Result<Plan, LayoutFault>
    ensures plan { IfOk result (λ plan. IsPlan (resized image.now) plan) }
    ensures fit { OnOk result (IsTrue (do_sizes_of_image_fit image.now)) }
    ensures promises { IfOk result (λ plan. IsPromised image.now plan) }
    ensures fault { IfErr result (IsNoLayout image.now) }

    ensures stuck { IfErr result (λ fault.
        fault ≡ Overlap → IsStuckAsked (resized image.now)) }
    ensures asked { IfOk result (λ plan. IsAsked (resized image.now) plan.looked) }
    ensures rounds { IfOk result (λ plan. plan.rounds ≤ most_added image.now + 1) }
{
    let read = read_source(alloc, image)?;
    lay_out_from_read(alloc, &read, image)
}
