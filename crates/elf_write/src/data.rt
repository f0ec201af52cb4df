//! Which sections are data of the program, and which are written anew.
ghost use Rattle.std.specs.Prelude.{◌≡◌};
ghost use Rattle.elf_image.specs.ImageModel.{section_model};
ghost use Rattle.elf_write.specs.LayingSteps.{is_data_at, is_rewritten_at, leaves_place_at};

use elf_format::SectionData;
use elf_format::constants::{SHF_ALLOC, SHT_DYNAMIC, SHT_NOBITS, SHT_NULL};
use elf_image::{Builder, Section};
use elf_layout_plan::is_numbered;

// Whether a section that had that number is data of the program.
pub(crate) fn is_data(section: &Section<'_>, number: usize, interpreter: Option<usize>) -> bool
    ensures { result ≡ is_data_at interpreter number (section_model section.now) }
{
    let is_opaque = matches!(section.kind, SectionData::Opaque);
    section.sh_flags & SHF_ALLOC != 0 && is_opaque && !is_numbered(interpreter, number)
}

// Whether a section that had that number is written anew: it takes memory and bytes of the file, and is no data.
fn is_rewritten(section: &Section<'_>, number: usize, interpreter: Option<usize>) -> bool
    ensures { result ≡ is_rewritten_at interpreter number (section_model section.now) }
{
    section.sh_flags & SHF_ALLOC != 0
        && section.sh_type != SHT_NULL
        && section.sh_type != SHT_NOBITS
        && !is_data(section, number, interpreter)
}

// Whether a section that had that number is written anew, and nobody looks for it where it stood:
// for a dynamic section that may move some programs do, by `_DYNAMIC`.
pub(crate) fn leaves_place(
    image: &Builder<'_>,
    section: &Section<'_>,
    number: usize,
    interpreter: Option<usize>,
) -> bool
    ensures { result ≡ leaves_place_at interpreter image.now.moves_dynamic number
        (section_model section.now) }
{
    is_rewritten(section, number, interpreter)
        && !(section.sh_type == SHT_DYNAMIC && image.may_dynamic_move())
}
