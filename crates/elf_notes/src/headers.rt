//! Programs that look for their program headers in memory.
ghost use Rattle.std.specs.Prelude.{◌≡◌, ◌<◌, ◌^◌, map};
ghost use Rattle.std.specs.List.{list_any};
ghost use Rattle.elf_format.specs.Ranges.{range};
ghost use Rattle.elf_image.specs.ImageModel.{segment_model};
ghost use Rattle.elf_notes.specs.Notes.{has_loose_headers as are_headers_loose, has_range as is_range_there, header_table, shares_page as is_page_shared};

use elf_format::constants::{ET_EXEC, PT_LOAD};
use elf_image::{Builder, Segment};

/// Whether a file is a program that may look for its program headers in memory, where they are by the page of a loaded segment
/// alone.
pub(crate) fn has_loose_headers(image: &Builder<'_>) -> bool
    ensures { result ≡ are_headers_loose image.now }
{
    let header = image.header();
    header.e_type == ET_EXEC
        && image.interp_data().is_none()
        && !are_headers_loaded(image)
        && does_any_share(image.segments(), header.e_phoff)
}

/// Whether a loaded segment has all of the program header table.
fn are_headers_loaded(image: &Builder<'_>) -> bool
    ensures { result ≡ list_any (is_range_there (header_table image.now)) image.now.segments }
{
    let segments = image.segments();
    let size = segments.len() as u128 * image.form().segment_header_size() as u128;
    is_in_any(segments, image.header().e_phoff, size)
}

/// Whether a loaded segment has a range of the file.
fn is_in_any(segments: &[Segment<'_>], start: u64, size: u128) -> bool
    requires { size < 2 ^ 70 }
    ensures { result ≡ list_any (is_range_there (range start size))
        (map segment_model segments.now) }
{
    for segment in segments {
        if has_range(segment, start, size) {
            return true;
        }
    }
    false
}

/// Whether a segment is loaded and has the range.
fn has_range(segment: &Segment<'_>, start: u64, size: u128) -> bool
    requires { size < 2 ^ 70 }
    ensures { result ≡ is_range_there (range start size) (segment_model segment.now) }
{
    segment.p_type() == PT_LOAD
        && segment.p_offset() <= start
        && u128::from(start) + size
            <= u128::from(segment.p_offset()) + u128::from(segment.p_filesz())
}

/// Whether the bytes of a loaded segment begin in the page that has an offset of the file.
fn does_any_share(segments: &[Segment<'_>], offset: u64) -> bool
    ensures { result ≡ list_any (is_page_shared offset) (map segment_model segments.now) }
{
    for segment in segments {
        if shares_page(segment, offset) {
            return true;
        }
    }
    false
}

/// Whether a segment is loaded, and its bytes begin in the page that has an offset of the file.
fn shares_page(segment: &Segment<'_>, offset: u64) -> bool
    ensures { result ≡ is_page_shared offset (segment_model segment.now) }
{
    segment.p_type() == PT_LOAD
        && segment.p_filesz() != 0
        && segment.p_offset() / 4096 == offset / 4096
}
