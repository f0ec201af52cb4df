//! The values of dynamic entries that follow from tables (gABI, Dynamic Section).
ghost use Rattle.std.specs.Prelude.{◌≡◌, length, option_map};
ghost use Rattle.elf_format.specs.declared.constants.TheConstants.{DT_STRSZ as STRSZ, DT_STRTAB as STRTAB};
ghost use Rattle.elf_image.specs.Kept.{image_at_read};
ghost use Rattle.elf_layout_plan.specs.Plan.{resized};
ghost use Rattle.elf_layout_plan.specs.PlanModel.{place_model};
ghost use Rattle.elf_write_spec.specs.Contents.{address_of_type as address_of_kind, strings_place as place_of_strings, table_value as value_of_table};
ghost use Rattle.elf_write_spec.specs.Final.{final};
ghost use Rattle.elf_layout_plan.specs.WrittenNeeds.{AreWritten};
ghost use Rattle.elf_write_contents.specs.EntrySteps.{place_at as place_there};

use elf_image::Builder;
use elf_image::constants::{
    DT_GNU_HASH, DT_HASH, DT_STRSZ, DT_STRTAB, DT_SYMENT, DT_SYMTAB, DT_VERDEF, DT_VERDEFNUM,
    DT_VERNEED, DT_VERSYM, SHT_DYNSYM, SHT_GNU_HASH, SHT_GNU_VERDEF, SHT_GNU_VERNEED,
    SHT_GNU_VERSYM, SHT_HASH,
};
use elf_layout_plan::{Plan, SectionPlace};
use elf_write_symbol_tables::StayingNeeds;

// Where the section at a position comes to stand.
fn place_at(plan: &Plan, position: Option<usize>) -> Option<SectionPlace>
    ensures { option_map place_model result ≡ place_there plan.now position }
{
    plan.places().get(position?).copied()
}

// The address of the first section of a type; 0 without one.
fn address_of_type(image: &Builder<'_>, plan: &Plan, kind: u32) -> u64
    ensures { result ≡ address_of_kind image.now plan.now kind }
{
    // the image has as many numbers of sections as sections
    let _source = image.source();
    match place_at(plan, image.type_position(kind)) {
        Some(place) => place.sh_addr,
        None => 0,
    }
}

// Where the dynamic strings come to stand.
fn strings_place(image: &Builder<'_>, plan: &Plan) -> Option<SectionPlace>
    ensures { option_map place_model result ≡ place_of_strings image.now plan.now }
{
    // the image has as many numbers of sections as sections
    let _source = image.source();
    place_at(plan, image.dynamic_strings_position())
}

// The address of the dynamic strings; 0 without them.
fn strings_address(image: &Builder<'_>, plan: &Plan) -> u64
    ensures { result ≡ value_of_table (resized image.now) plan.now STRTAB }
{
    match strings_place(image, plan) {
        Some(place) => place.sh_addr,
        None => 0,
    }
}

// The size of the dynamic strings; 0 without them.
fn strings_size(image: &Builder<'_>, plan: &Plan) -> u64
    ensures { result ≡ value_of_table (resized image.now) plan.now STRSZ }
{
    match strings_place(image, plan) {
        Some(place) => place.sh_size,
        None => 0,
    }
}

// How many records of needed versions are written.
fn count_needs(image: &Builder<'_>, staying: &StayingNeeds) -> u64
    requires { AreWritten (image_at_read image.now) image.now staying.now }
    ensures { result ≡ length (final (image_at_read image.now) image.now).needs }
{
    staying.count_needs(&image.versions().needs) as u64
}

// The value of a tag that follows from a table: its address, its size, the size of its records or
// their count.
pub(super) fn table_value(image: &Builder<'_>, plan: &Plan, staying: &StayingNeeds, tag: u64) -> u64
    requires { AreWritten (image_at_read image.now) image.now staying.now }
    ensures { result ≡ value_of_table (resized image.now) plan.now tag }
{
    match tag {
        DT_STRTAB => strings_address(image, plan),
        DT_STRSZ => strings_size(image, plan),
        DT_SYMTAB => address_of_type(image, plan, SHT_DYNSYM),
        DT_SYMENT => image.form().symbol_size() as u64,
        DT_HASH => address_of_type(image, plan, SHT_HASH),
        DT_GNU_HASH => address_of_type(image, plan, SHT_GNU_HASH),
        DT_VERSYM => address_of_type(image, plan, SHT_GNU_VERSYM),
        DT_VERDEF => address_of_type(image, plan, SHT_GNU_VERDEF),
        DT_VERDEFNUM => image.versions().definitions.len() as u64,
        DT_VERNEED => address_of_type(image, plan, SHT_GNU_VERNEED),
        _ => count_needs(image, staying),
    }
}
