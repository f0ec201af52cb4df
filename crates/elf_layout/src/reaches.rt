//! Where sections come to stand that begin in a range of the file: the first of them, and the end of the last.
ghost use Rattle.std.specs.Prelude.{◌≡◌, ◌≤◌, IfOk, IsPermutation, length, map};
ghost use Rattle.std.specs.List.Sorted.{IsNonDecreasingBy};
ghost use Rattle.elf_layout_plan.specs.PlanModel.{place_model};
ghost use Rattle.elf_layout_segments.specs.SplitCounts.{chosen_begins};
ghost use Rattle.elf_layout_segments.specs.Sections.{indexed_sections};
ghost use Rattle.elf_layout.specs.Reaches.{AreJoined, BeginBefore, IsTree, IsTreeOver, joined as joined_of, joined_all, over, reach_at as reach_of, reach_in, start_of};

use elf_format::range::Range;
use elf_layout_plan::SectionPlace;
use elf_layout_segments::resizing::Resizing;
use elf_layout_segments::starts::{Begin, begins_of};
use std::alloc::{AllocError, Global};

// Where the first of several sections comes to stand in the file, its position, and where the last of them ends.
#[derive(Clone, Copy)]
pub(crate) struct Reach {
    pub(crate) offset: u64,
    pub(crate) position: usize,
    pub(crate) end: u128,
}

// Sections in the order in which they begin in the file. The tree says of each where it comes to stand; behind that it
// joins its own entries two by two, up to a last one for all.
#[derive(Drop)]
pub(crate) struct Reaches {
    pub(crate) begins: Vec<Begin>,
    pub(crate) tree: Vec<Option<Reach>>,
}

// Where the section at a position comes to stand.
pub(crate) fn reach_at(places: &[SectionPlace], position: usize) -> Option<Reach>
    ensures { result ≡ reach_of (map place_model places.now) position }
{
    if position < places.len() {
        let place = places[position];
        Some(Reach {
            offset: place.sh_offset,
            position,
            end: place.sh_offset as u128 + place.sh_size as u128,
        })
    } else {
        None
    }
}

// The first of two, and the end of the last. Where both begin together, the one with the lower position is the first.
fn joined(some: Option<Reach>, more: Option<Reach>) -> Option<Reach>
    ensures { result ≡ joined_of some more }
{
    match some {
        None => more,
        Some(a) => match more {
            None => some,
            Some(b) => {
                let end = if a.end < b.end { b.end } else { a.end };
                let is_before = b.offset < a.offset
                    || b.offset == a.offset && b.position < a.position;
                let first = if is_before { b } else { a };
                Some(Reach {
                    offset: first.offset,
                    position: first.position,
                    end,
                })
            }
        },
    }
}

// The tree over where sections come to stand.
fn tree_over(
    alloc: Global,
    places: &[SectionPlace],
    begins: &[Begin],
) -> Result<Vec<Option<Reach>>, AllocError>
    ensures { IfOk result (λ tree.
        IsTreeOver (map place_model places.now) begins.now tree.items) }
{
    let mut tree = Vec::new(alloc);
    for begin in begins {
        let pushed = tree.push(reach_at(places, begin.position));
        pushed?;
    }
    let inner = begins.len().saturating_sub(1);
    for k in 0..inner {
        let next = joined(tree[2 * k], tree[2 * k + 1]);
        tree.push(next)?;
    }
    Ok(tree)
}

// What a tree says from one place on up to another, joined, where so many sections stand in front.
fn reach_between(tree: &[Option<Reach>], count: usize, low: usize, high: usize) -> Option<Reach>
    requires tree { IsTree count tree.now }
    requires high { high ≤ length tree.now }
    ensures { result ≡ over tree.now low high }
{
    if high <= low {
        None
    } else if low % 2 == 1 {
        joined(tree[low], reach_between(tree, count, low + 1, high))
    } else if high % 2 == 1 {
        joined(reach_between(tree, count, low, high - 1), tree[high - 1])
    } else {
        reach_between(tree, count, count + low / 2, count + high / 2)
    }
}

// How many sections begin before an offset.
fn count_before(begins: &[Begin], offset: u128) -> usize
    requires { IsNonDecreasingBy start_of begins.now }
    ensures { BeginBefore begins.now offset result }
{
    begins.partition_point(|b| u128::from(b.start) < offset)
}

// Where the sections come to stand that begin in a range.
pub(crate) fn reach_over(places: &[SectionPlace], reaches: &Reaches, part: Range) -> Option<Reach>
    requires { AreJoined (map place_model places.now) reaches.now }
    ensures { result
        ≡ joined_all (map (reach_in (map place_model places.now) part) reaches.now.begins.items) }
{
    let low = count_before(&reaches.begins, u128::from(part.start));
    let high = count_before(&reaches.begins, part.end());
    reach_between(&reaches.tree, reaches.begins.len(), low, high)
}

// The sections with bytes that move, or those that stay.
pub(crate) fn reaches_of(
    alloc: Global,
    r: &Resizing<'_, '_>,
    marks: &[bool],
    places: &[SectionPlace],
    moving: bool,
) -> Result<Reaches, AllocError>
    ensures begins { IfOk result (λ found.
        let begins = chosen_begins moving marks.now (indexed_sections r.now.image) in
        IsPermutation begins found.begins.items) }
    ensures joined { IfOk result (AreJoined (map place_model places.now)) }
{
    let mut begins = begins_of(alloc, r, marks, moving)?;
    begins.sort_unstable_by_key(|b| b.start);
    let tree = tree_over(alloc, places, &begins)?;
    Ok(Reaches { begins, tree })
}
