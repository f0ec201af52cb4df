// The numbers of sections, with their new sizes.
ghost use Rattle.std.specs.Prelude.{◌≡◌, ◌<◌, length, option_map, slice_get};
ghost use Rattle.elf_layout_plan.specs.Memory.{sized_sections};
ghost use Rattle.elf_layout.specs.Numbers.{numbers_of};

use elf_layout_segments::resizing::Resizing;

// The numbers of a section that its place hangs on, and its new size.
#[derive(Clone, Copy)]
pub(crate) struct SectionNumbers {
    pub(crate) sh_type: u32,
    pub(crate) sh_flags: u64,
    pub(crate) sh_addr: u64,
    pub(crate) sh_offset: u64,
    pub(crate) sh_size: u64,
    pub(crate) sh_addralign: u64,
    pub(crate) size: u64,
    pub(crate) position: usize,
}

// The section at a position; `None` where there is none.
pub(crate) fn sized_at(r: &Resizing<'_, '_>, position: usize) -> Option<SectionNumbers>
    ensures { result ≡ option_map numbers_of (slice_get (sized_sections r.now) position) }
{
    let _source = r.image.source();
    let sections = r.image.sections();
    if position >= sections.len() || position >= r.sizes.len() {
        return None;
    }
    let section = &sections[position];
    Some(SectionNumbers {
        sh_type: section.sh_type,
        sh_flags: section.sh_flags,
        sh_addr: section.sh_addr,
        sh_offset: section.sh_offset,
        sh_size: section.sh_size,
        sh_addralign: section.sh_addralign,
        size: r.sizes[position],
        position,
    })
}

// How many sections there are.
pub(crate) fn section_count(r: &Resizing<'_, '_>) -> usize
    ensures { result ≡ length (sized_sections r.now) }
{
    let _source = r.image.source();
    r.image.sections().len()
}

// The section at a position that is there.
pub(crate) fn section_here(r: &Resizing<'_, '_>, position: usize) -> SectionNumbers
    requires { position < length (sized_sections r.now) }
    ensures { Some result ≡ option_map numbers_of (slice_get (sized_sections r.now) position) }
{
    let Some(section) = sized_at(r, position) else {
        unreachable!()
    };
    section
}
