ghost use Rattle.std.specs.Prelude.{◌≡◌};
ghost use Rattle.std.specs.List.{list_all};
ghost use Rattle.elf_layout_plan.specs.Plan.{does_place_fit as place_fits, does_segment_fit as segment_fits};
ghost use Rattle.elf_layout_plan.specs.PlanModel.{parts_model, place_model};
ghost use Rattle.elf_layout_plan.specs.Sizes.{fits_field};
ghost use Rattle.elf_layout_plan.specs.Plan.{does_plan_fit as parts_fit};

use elf_format::constants::{PN_XNUM, SHN_LORESERVE};
use elf_format::form::Form;
use elf_format::records::SegmentHeader;
use elf_image::Builder;
use elf_layout_plan::{PlanParts, SectionPlace};
use patch_bytes::Wide;

// Whether a number fits a field for addresses, offsets and sizes.
fn does_field_fit(form: Form, number: u64) -> bool
    ensures { result ≡ fits_field form number }
{
    match form.wide {
        Wide::W32 => number <= u64::from(u32::MAX),
        Wide::W64 => true,
    }
}

fn does_place_fit(form: Form, s: &SectionPlace) -> bool
    ensures { result ≡ place_fits form (place_model s.now) }
{
    does_field_fit(form, s.sh_addr)
        && does_field_fit(form, s.sh_offset)
        && does_field_fit(form, s.sh_size)
}

fn does_segment_fit(form: Form, p: &SegmentHeader) -> bool
    ensures { result ≡ segment_fits form p.now }
{
    does_field_fit(form, p.p_offset)
        && does_field_fit(form, p.p_vaddr)
        && does_field_fit(form, p.p_paddr)
        && does_field_fit(form, p.p_filesz)
        && does_field_fit(form, p.p_memsz)
        && does_field_fit(form, p.p_align)
}

fn do_places_fit(form: Form, places: &[SectionPlace]) -> bool
    ensures { result ≡ list_all (λ s. place_fits form (place_model s)) places.now }
{
    places.iter().all(|s| does_place_fit(form, s))
}

fn do_segments_fit(form: Form, segments: &[SegmentHeader]) -> bool
    ensures { result ≡ list_all (segment_fits form) segments.now }
{
    segments.iter().all(|p| does_segment_fit(form, p))
}

// Whether each number of a plan fits its field, and there are no more sections and program headers than plain numbering has
// (gABI, ELF Header, e_phnum and e_shnum).
#[tactic(auto, using(crate::proofs::PlacesFit::all_places_fit, crate::proofs::PlacesFit::as_many), unfolding(elf_layout_plan::specs::Plan::does_plan_fit))]
pub(crate) fn do_parts_fit(image: &Builder<'_>, parts: &PlanParts) -> bool
    ensures { result ≡ parts_fit image.now.form (parts_model parts.now) }
{
    let form = image.form();
    do_places_fit(form, &parts.places)
        && do_segments_fit(form, &parts.segments)
        && does_field_fit(form, parts.e_phoff)
        && does_field_fit(form, parts.e_shoff)
        && parts.segments.len() < usize::from(PN_XNUM)
        && parts.places.len() < usize::from(SHN_LORESERVE)
}
