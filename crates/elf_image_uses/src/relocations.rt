//! Symbols that relocations name.
ghost use Rattle.std.specs.Prelude.{◌≡◌, ◌&&◌, not};
ghost use Rattle.std.specs.List.{list_any};
ghost use Rattle.std.specs.List.Sorted.{IsNonDecreasing};
ghost use Rattle.elf_format.specs.Options.{is_one_of};
ghost use Rattle.elf_format.specs.Records.{relocation as relocation_of, relocations_in};
ghost use Rattle.elf_image.specs.ImageModel.{section_model};
ghost use Rattle.elf_image_uses.specs.Relocated.{is_against as is_section_against, is_symbol_used as are_symbols_used};
ghost use Rattle.elf_image_uses.specs.Staying.{staying};
ghost use Rattle.elf_image_uses.specs.Steps.{has_name_of as has_one_name_of, names_one_of as is_one_named};

use crate::kept::{kept_at, kept_count};
use crate::numbers::{contains, is_numbered};
use elf_format::SectionData;
use elf_format::numbers::read_field;
use elf_image::{Builder, Form, Section};
use patch_bytes::Wide;

// The number of the symbol that a relocation names, which its bytes hold (gABI, Relocation, r_info).
#[tactic(auto, unfolding(elf_format::specs::Records::relocation))]
fn symbol_of(form: Form, kind: u32, bytes: &[u8]) -> u64
    ensures { result ≡ (relocation_of form kind bytes.now).r_symbol }
{
    let info = read_field(form, bytes, (4, 4), (8, 8));
    match form.wide {
        Wide::W32 => info / 0x100,
        Wide::W64 => info / 0x1_0000_0000,
    }
}

// Whether a relocation names one of some symbols, which isn't symbol 0.
fn names_one_of(form: Form, kind: u32, bytes: &[u8], numbers: &[usize]) -> bool
    requires { IsNonDecreasing numbers.now }
    ensures { result ≡ is_one_named numbers.now (relocation_of form kind bytes.now) }
{
    let symbol = symbol_of(form, kind, bytes);
    symbol != 0 && contains(numbers, symbol as usize)
}

// Whether one of the relocations in bytes names one of some symbols, which isn't symbol 0.
fn some_name_one_of(form: Form, kind: u32, content: &[u8], numbers: &[usize]) -> bool
    requires { IsNonDecreasing numbers.now }
    ensures { result ≡ list_any (is_one_named numbers.now) (relocations_in form kind content.now) }
{
    let size = form.relocation_size(kind);
    let mut rest = content;
    while rest.len() >= size {
        let (record, after) = rest.split_at(size);
        if names_one_of(form, kind, record, numbers) {
            return true;
        }
        rest = after;
    }
    false
}

// Whether a section's relocations are against a table of symbols.
fn is_against(table: Option<usize>, section: &Section<'_>) -> bool
    ensures { result ≡ is_section_against table (section_model section.now) }
{
    let are_relocations = matches!(section.kind, SectionData::Relocation);
    are_relocations && is_numbered(table, section.sh_link as usize)
}

// Whether a section has a relocation that names one of some symbols of a table.
fn has_name_of(form: Form, table: Option<usize>, numbers: &[usize], section: &Section<'_>) -> bool
    requires { IsNonDecreasing numbers.now }
    ensures { result ≡ has_one_name_of form table numbers.now (section_model section.now) }
{
    is_against(table, section) && some_name_one_of(form, section.sh_type, section.content, numbers)
}

// Whether a section stays and has such a relocation.
fn is_staying_user(
    form: Form,
    gone: &[usize],
    table: Option<usize>,
    numbers: &[usize],
    number: usize,
    section: &Section<'_>,
) -> bool
    requires gone { IsNonDecreasing gone.now }
    requires numbers { IsNonDecreasing numbers.now }
    ensures { result ≡ (not (is_one_of gone.now number)
        && has_one_name_of form table numbers.now (section_model section.now)) }
{
    !contains(gone, number) && has_name_of(form, table, numbers, section)
}

/// Whether a relocation of a section that stays, where those with some numbers go, names one of some symbols of the table of
/// symbols with a number, which its section links to (gABI, Relocation, `r_info`; Sections, `sh_link`). Symbol 0 is no symbol.
/// Takes no memory.
pub fn is_symbol_used(
    image: &Builder<'_>,
    table: Option<usize>,
    numbers: &[usize],
    gone: &[usize],
) -> bool
    requires numbers { IsNonDecreasing numbers.now }
    requires gone { IsNonDecreasing gone.now }
    ensures { result
        ≡ are_symbols_used image.now.form table numbers.now (staying gone.now image.now) }
{
    let form = image.form();
    for i in 0..kept_count(image) {
        let (number, section) = kept_at(image, i);
        if is_staying_user(form, gone, table, numbers, number, section) {
            return true;
        }
    }
    false
}
