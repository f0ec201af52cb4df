// Where the program header table stands.
ghost use Rattle.std.specs.Prelude.{◌≡◌, ◌+◌, ◌*◌, ◌<◌, ◌≤◌, ◌^◌, IfSome, IfNone, is_some, map};
ghost use Rattle.elf_format.specs.Records.{segment_header_size};
ghost use Rattle.elf_image.specs.ImageModel.{segment_model};
ghost use Rattle.elf_layout_plan.specs.Memory.{loaded_over, table_load};
ghost use Rattle.elf_layout_plan.specs.Standing.{next_table as table_next};
ghost use Rattle.elf_layout.specs.Unloaded.{has_all, start_behind, table_behind};

use elf_format::constants::PT_LOAD;
use elf_image::{Builder, Segment};
use elf_layout_segments::resizing::Resizing;
use patch_bytes::Wide;

// A table's offset, and the end of all that stands before what comes next.
#[derive(Clone, Copy)]
pub(crate) struct TablePlace {
    pub(crate) offset: u64,
    pub(crate) end: u64,
}

// Whether a loaded segment has all of a range of the file.
fn has_range(segment: &Segment<'_>, start: u128, size: u128) -> bool
    requires start { start < 2 ^ 64 }
    requires size { size < 2 ^ 70 }
    ensures { result ≡ has_all (record { start = start; size = size }) (segment_model segment.now) }
{
    let from = u128::from(segment.p_offset());
    segment.p_type() == PT_LOAD
        && from <= start
        && start + size <= from + u128::from(segment.p_filesz())
}

// Whether one of the segments has all of a range of the file, and is loaded.
fn is_range_loaded(segments: &[Segment<'_>], start: u128, size: u128) -> bool
    requires start { start < 2 ^ 64 }
    requires size { size < 2 ^ 70 }
    ensures { result ≡ is_some
        (loaded_over (record { start = start; size = size }) (map segment_model segments.now)) }
{
    for segment in segments {
        if has_range(segment, start, size) {
            return true;
        }
    }
    false
}

// How many bytes a program header takes.
fn entry_size(image: &Builder<'_>) -> usize
    ensures value { result ≡ segment_header_size image.now.form }
    ensures small { result ≤ 56 }
{
    match image.class() {
        Wide::W32 => 32,
        Wide::W64 => 56,
    }
}

// Whether a loaded segment had all of the program header table at read.
fn is_table_loaded(r: &Resizing<'_, '_>) -> bool
    ensures { result ≡ is_some (table_load r.now) }
{
    let segments = r.read.segments();
    let size = segments.len() as u128 * entry_size(r.read) as u128;
    is_range_loaded(segments, u128::from(r.read.header().e_phoff), size)
}

// The next multiple of a word of the class; `None` past the last offset of 64 bits.
pub(crate) fn next_table(r: &Resizing<'_, '_>, end: u64) -> Option<u64>
    ensures next { IfSome result (λ next. next ≡ table_next r.now end) }
    ensures far { IfNone result (2 ^ 64 ≤ table_next r.now end) }
{
    match r.image.class() {
        Wide::W32 => end.checked_next_multiple_of(4),
        Wide::W64 => end.checked_next_multiple_of(8),
    }
}

// The program header table, once the segments end there, and the end of both; `None` past the last offset of 64 bits.
pub(crate) fn place_table(r: &Resizing<'_, '_>, end: u64, headers: usize) -> Option<TablePlace>
    ensures offset { IfSome result (λ place. place.offset ≡ table_behind r.now end) }
    ensures end { IfSome result (λ place. place.end ≡ start_behind r.now end headers) }
    ensures far { IfNone result (2 ^ 64 ≤ start_behind r.now end headers) }
{
    if is_table_loaded(r) {
        return Some(TablePlace {
            offset: r.image.header().e_phoff,
            end,
        });
    }
    let Some(offset) = next_table(r, end) else {
        return None;
    };
    let behind = u128::from(offset) + headers as u128 * entry_size(r.image) as u128;
    if behind > u128::from(u64::MAX) {
        return None;
    }
    Some(TablePlace {
        offset,
        end: behind as u64,
    })
}
