ghost use Rattle.std.specs.Prelude.{◌≡◌, ◌∷◌, ◌++◌, IfErr, IfOk, OnOk, map};
ghost use Rattle.std.specs.List.{flat_map};
ghost use Rattle.elf_layout_plan.specs.Added.{header_count};
ghost use Rattle.elf_layout_plan.specs.PlanModel.{place_model};
ghost use Rattle.elf_layout_plan.specs.Standing.{places as places_of};
ghost use Rattle.elf_layout_plan.specs.Written.{behind_last_load, written_from};
ghost use Rattle.elf_layout_segments.specs.Inner.{AreMarks};
ghost use Rattle.elf_layout_segments.specs.AnchorPositions.{AreAnchors};
ghost use Rattle.elf_layout.specs.Inner.{AreWritten, IsStanding, StandsTooFar};
ghost use Rattle.elf_layout.specs.Targets.{added_behind, left_behind as left_at};

use crate::headings::push_written;
use crate::standing::Standing;
use crate::targets::notes_of;
use elf_format::records::SegmentHeader;
use elf_layout_plan::{LayoutFault, SectionPlace};
use elf_layout_segments::anchors::AnchorAt;
use elf_layout_segments::reading::{sections_have_sizes, segment_at};
use elf_layout_segments::resizing::Resizing;
use std::alloc::{AllocError, Global};

// How many loaded segments are left behind a header, where so many are left before it.
fn left_behind(p: SegmentHeader, left: usize) -> usize
    ensures { result ≡ left_at p left }
{
    if p.is_loaded() && 0 < left {
        left - 1
    } else {
        left
    }
}

// Puts a header behind others, and others behind it where it is the last of those that are left that is loaded.
fn push_next(
    made: &mut Vec<SegmentHeader>,
    p: SegmentHeader,
    loads: &[SegmentHeader],
    left: usize,
) -> Result<(), AllocError>
    ensures { OnOk result (made.new.items
        ≡ made.old.items ++ (p ∷ added_behind loads.now p left)) }
{
    made.push(p)?;
    if p.is_loaded() && left == 1 {
        made.extend_from_slice(loads)?;
    }
    Ok(())
}

// The headers, with others behind the last one that is loaded.
fn with_loads(
    alloc: Global,
    headers: &[SegmentHeader],
    loads: &[SegmentHeader],
) -> Result<Vec<SegmentHeader>, AllocError>
    ensures { IfOk result (λ made. made.items ≡ behind_last_load loads.now headers.now) }
{
    let mut made = Vec::new(alloc);
    let mut left = headers.iter().filter(|p| p.is_loaded()).count();
    for p in headers {
        push_next(&mut made, *p, loads, left)?;
        left = left_behind(*p, left);
    }
    Ok(made)
}

// What becomes of each program header.
fn all_written(
    alloc: Global,
    r: &Resizing<'_, '_>,
    anchors: &[AnchorAt],
    moved: &[usize],
    marks: &[bool],
    places: &[SectionPlace],
    headers: usize,
) -> Result<Vec<SegmentHeader>, LayoutFault>
    requires anchors { AreAnchors r.now anchors.now }
    requires marks { AreMarks r.now moved.now marks.now }
    requires places { map place_model places.now ≡ places_of r.now moved.now }
    requires headers { headers ≡ header_count r.now moved.now }
    ensures written { IfOk result (λ made. made.items
        ≡ flat_map (written_from r.now moved.now) r.now.image.segments) }
    ensures fault { IfErr result (StandsTooFar r.now moved.now) }
{
    sections_have_sizes(r);
    let form = r.form();
    let size = headers as u128 * form.segment_header_size() as u128;
    let notes = notes_of(alloc, r, marks, places)?;
    let mut made = Vec::new(alloc);
    for i in 0..anchors.len() {
        let p = segment_at(r, i);
        match push_written(form, &mut made, places, &notes, size, p, &anchors[i]) {
            Ok(()) => {}
            Err(fault) => return Err(fault),
        }
    }
    Ok(made)
}

// The program headers that are written, as many as `headers`, once sections stand where they stand.
pub(crate) fn written_segments(
    alloc: Global,
    r: &Resizing<'_, '_>,
    anchors: &[AnchorAt],
    moved: &[usize],
    marks: &[bool],
    standing: &Standing,
    headers: usize,
) -> Result<Vec<SegmentHeader>, LayoutFault>
    requires anchors { AreAnchors r.now anchors.now }
    requires marks { AreMarks r.now moved.now marks.now }
    requires standing { IsStanding r.now moved.now standing.now }
    requires headers { headers ≡ header_count r.now moved.now }
    ensures written { IfOk result (λ segments. AreWritten r.now moved.now segments.items) }
    ensures fault { IfErr result (StandsTooFar r.now moved.now) }
{
    let made = all_written(alloc, r, anchors, moved, marks, &standing.places, headers)?;
    let all = with_loads(alloc, &made, &standing.loads)?;
    Ok(all)
}
