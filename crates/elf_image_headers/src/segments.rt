//! Changes of a list of program headers, and the one for the stack among them (gABI, Program Header).
ghost use Rattle.std.specs.Prelude.{◌≡◌, ◌<◌, ◌^◌, ◌==◌, if◌then◌else◌, map, position};
ghost use Rattle.elf_format.specs.declared.constants.TheConstants.{PT_GNU_STACK as STACK};
ghost use Rattle.elf_format.specs.Placement.{memory_part};
ghost use Rattle.elf_format.specs.Ranges.{end_of};
ghost use Rattle.elf_image_headers.specs.PartModels.{segment_model};
ghost use Rattle.elf_image_headers.specs.Segments.{added_stack as added_header, loads_end as end_of_loads, with_load_align, with_stack_flags};

use crate::segment::{STACK_ALIGN, Segment};
use elf_format::constants::{PT_GNU_STACK, PT_LOAD};
use elf_format::records::SegmentHeader;

/// A program header for the stack with these flags, as it is added to a file. Takes no memory.
pub fn added_stack(flags: u32) -> Segment
    ensures { segment_model result ≡ added_header flags }
{
    Segment {
        numbers: SegmentHeader {
            p_type: PT_GNU_STACK,
            p_flags: flags,
            p_offset: 0,
            p_vaddr: 0,
            p_paddr: 0,
            p_filesz: 0,
            p_memsz: 0,
            p_align: STACK_ALIGN,
        },
    }
}

/// Gives every loaded segment an alignment, in bytes. Takes no memory.
pub fn align_loads(segments: &mut Vec<Segment>, align: u64)
    ensures { map segment_model segments.new.items
        ≡ with_load_align align (map segment_model segments.old.items) }
{
    for i in 0..segments.len() {
        segments[i].align_load(align);
    }
}

/// Where the first program header for the stack stands. Takes no memory.
pub fn stack_position(segments: &[Segment]) -> Option<usize>
    ensures { result ≡ position (λ p. (segment_model p).p_type == STACK) segments.now }
{
    segments
        .iter()
        .position(|segment| segment.p_type() == PT_GNU_STACK)
}

/// Gives the first program header for the stack flags, where there is one. Takes no memory.
pub fn flag_stack(segments: &mut Vec<Segment>, flags: u32)
    ensures { map segment_model segments.new.items
        ≡ with_stack_flags flags (map segment_model segments.old.items) }
{
    let Some(at) = stack_position(segments) else {
        return;
    };
    let segment = &mut segments[at];
    segment.numbers.p_flags = flags;
}

// Where a segment ends in memory, 0 where it doesn't count.
pub(crate) fn end_if(counts: bool, segment: &Segment) -> u128
    ensures value { result
        ≡ (if counts then end_of (memory_part (segment_model segment.now)) else 0) }
    ensures near { result < 2 ^ 65 }
{
    if counts {
        u128::from(segment.p_vaddr()) + u128::from(segment.p_memsz())
    } else {
        0
    }
}

/// Where the loaded segments end in memory; 0 without one. Takes no memory.
pub fn loads_end(segments: &[Segment]) -> u128
    ensures value { result ≡ end_of_loads (map segment_model segments.now) }
    ensures near { result < 2 ^ 65 }
{
    let mut end = 0;
    for segment in segments {
        end = end_if(segment.p_type() == PT_LOAD, segment).max(end);
    }
    end
}
