// The end of memory, and the alignment of what is loaded.
ghost use Rattle.std.specs.Prelude.{◌≡◌, ◌+◌, ◌<◌, ◌^◌, ◌&&◌, ◌==◌, map, slice_get};
ghost use Rattle.elf_format.specs.File.{is_loaded, loads_of};
ghost use Rattle.elf_format.specs.Placement.{is_stored};
ghost use Rattle.elf_image.specs.Kept.{place_at_read};
ghost use Rattle.elf_image.specs.ImageModel.{segment_model};
ghost use Rattle.elf_layout_plan.specs.Added.{greatest, load_alignment as align_of_loads, memory_end as end_of_memory};
ghost use Rattle.elf_layout_plan.specs.Memory.{SizedSection, sized_sections};
ghost use Rattle.elf_layout.specs.Numbers.{numbers_of};
ghost use Rattle.elf_layout.specs.Slots.{end_at, has_memory, value_where};

use crate::sized::{SectionNumbers, section_count, sized_at};
use elf_format::constants::{PT_LOAD, SHF_ALLOC, SHF_TLS, SHT_NOBITS, SHT_NULL};
use elf_format::machine::default_page_size;
use elf_image::{Segment, loads_end};
use elf_layout_segments::resizing::Resizing;

// Whether a section has bytes of the file in memory.
fn is_stored_there(section: SectionNumbers) -> bool
    ensures { (s : SizedSection) → section ≡ numbers_of s
        → result ≡ is_stored (place_at_read s.kept.section) }
{
    section.sh_flags & SHF_ALLOC != 0
        && section.sh_type != SHT_NULL
        && section.sh_type != SHT_NOBITS
        && section.sh_size != 0
}

// Whether a section takes memory of its own, had some at read, and didn't lose the loaded segment that it stood in, by where
// these end.
fn had_memory(section: SectionNumbers, loads_end: u128) -> bool
    ensures { (s : SizedSection) → section ≡ numbers_of s → result ≡ has_memory loads_end s }
{
    section.sh_flags & SHF_ALLOC != 0
        && section.sh_type != SHT_NULL
        && !(section.sh_type == SHT_NOBITS && section.sh_flags & SHF_TLS != 0)
        && section.sh_size != 0
        && !(is_stored_there(section) && loads_end <= u128::from(section.sh_addr))
}

// The end in memory of the section at a position, 0 where it takes none that counts.
fn section_end_at(r: &Resizing<'_, '_>, position: usize, loads_end: u128) -> u128
    ensures end { result ≡ end_at loads_end (slice_get (sized_sections r.now) position) }
    ensures near { result < 2 ^ 65 }
{
    let Some(section) = sized_at(r, position) else {
        return 0;
    };
    if had_memory(section, loads_end) {
        u128::from(section.sh_addr) + u128::from(section.sh_size)
    } else {
        0
    }
}

// The ends of the loaded segments, and of the sections that take memory, had some at read, and didn't lose their loaded segment.
pub(crate) fn memory_end(r: &Resizing<'_, '_>) -> u128
    ensures end { result ≡ end_of_memory r.now }
    ensures near { result < 2 ^ 65 }
{
    let loads = loads_end(r.image.segments());
    let mut end = loads;
    for position in 0..section_count(r) {
        end = section_end_at(r, position, loads).max(end);
    }
    end
}

// The alignment of a segment, 0 where it isn't loaded.
fn load_align(segment: &Segment<'_>) -> u64
    ensures { result ≡ value_where is_loaded (λ p. p.p_align) (segment_model segment.now) }
{
    if segment.p_type() == PT_LOAD {
        segment.p_align()
    } else {
        0
    }
}

// The greatest alignment of the loaded segments.
fn greatest_align(segments: &[Segment<'_>]) -> u64
    ensures { result ≡ greatest 0
        (map (λ p. p.p_align) (loads_of (map segment_model segments.now))) }
{
    let mut found = 0;
    for segment in segments {
        found = load_align(segment).max(found);
    }
    found
}

// The page size that was set, or without one the greatest alignment of the loaded segments that were read, or the machine's
// pages where they tell none.
#[tactic(auto, unfolding(elf_layout_plan::specs::Added::load_alignment))]
pub(crate) fn load_alignment(r: &Resizing<'_, '_>) -> u64
    ensures { result ≡ align_of_loads r.now.read r.now.image }
{
    if let Some(size) = r.image.page_size() {
        return u64::from(size);
    }
    let found = greatest_align(r.read.segments());
    if found == 0 {
        u64::from(default_page_size(r.read.header().e_machine))
    } else {
        found
    }
}
