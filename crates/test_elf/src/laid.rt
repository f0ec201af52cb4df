//! Files with as many sections and program headers as there can be, read and laid out.

use crate::files::{Counts, file};
use crate::support::same;
use elf_image::Builder;
use elf_layout::lay_out;
use std::alloc::Global;

// How many sections and program headers a file is read with, and how many places, program headers and rounds the plan of
// it has.
type Found = ((usize, usize), Option<(usize, usize, usize)>);

// How many places, program headers and rounds the plan of an image has.
fn planned(alloc: Global, image: &Builder<'_>) -> Option<(usize, usize, usize)> {
    let plan = lay_out(alloc, image).ok()?;
    Some((plan.places().len(), plan.segments().len(), plan.rounds()))
}

// Adds a program header for the stack behind the others, where there is none, once more where memory was refused.
fn add_header(alloc: Global, image: &mut Builder<'_>) {
    for _ in 0..2 {
        if image.stack().is_none() {
            let _ = image.push_stack(alloc, 6);
        }
    }
}

// What is found of a file, with one more program header or none. The plan is asked for once more where memory was refused.
fn found(alloc: Global, bytes: &[u8], has_more: bool) -> Option<Found> {
    let mut image = Builder::read(alloc, bytes).ok()?;
    let sizes = (image.sections().len(), image.segments().len());
    if has_more {
        add_header(alloc, &mut image);
    }
    let plan = planned(alloc, &image);
    if plan.is_none() {
        return Some((sizes, planned(alloc, &image)));
    }
    Some((sizes, plan))
}

// A file, whether it gets one more program header, and what is found of it.
struct Row {
    what: &'static str,
    counts: Counts,
    has_more: bool,
    want: Found,
}

static ROWS: [Row; 3] = [
    Row {
        what: "as many sections as there can be, and few program headers",
        counts: Counts {
            notes: 65_277,
            headers: 2,
            over: 10,
            first: 64 + 56 * 3,
            room: 0,
        },
        has_more: false,
        want: ((65_279, 3), Some((65_279, 3, 1))),
    },
    Row {
        what: "many program headers over many notes",
        counts: Counts {
            notes: 30_000,
            headers: 60_000,
            over: 10,
            first: 64 + 56 * 60_001,
            room: 0,
        },
        has_more: false,
        want: ((30_002, 60_001), Some((30_002, 60_001, 1))),
    },
    // Fewer program headers, which may become two each, room for these, and one header more, for
    // which notes have to move. The table of program headers reaches over 14 notes with each header
    // that it gains, and 25, 375 and 5,275 headers are wanted until it reaches over all notes; then
    // one is enough, of the segment that they move to.
    Row {
        what: "many program headers over moving notes",
        counts: Counts {
            notes: 30_000,
            headers: 30_000,
            over: 10,
            first: 64 + 56 * 30_001,
            room: 300_000,
        },
        has_more: true,
        want: ((30_002, 30_001), Some((30_002, 30_003, 4))),
    },
];

// Each file is read once more where memory was refused.
#[test]
fn many_sections_and_headers(rt: HostRuntime) {
    for row in &ROWS {
        let bytes = sure!(&rt; file(rt.alloc(), &row.counts));
        let mut what = found(rt.alloc(), &bytes, row.has_more);
        if what.is_none() {
            what = found(rt.alloc(), &bytes, row.has_more);
        }
        same(&rt, row.what, &what, &Some(row.want));
    }
}
