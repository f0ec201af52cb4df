//! Sections that can't go.
ghost use Rattle.std.specs.Prelude.{◌≡◌, [], ◌∷◌, ◌&&◌, ◌||◌, not};
ghost use Rattle.std.specs.List.{list_any};
ghost use Rattle.std.specs.List.Sorted.{IsNonDecreasing};
ghost use Rattle.elf_format.specs.Options.{is_one_of};
ghost use Rattle.elf_image.specs.Loan.{symbols_now};
ghost use Rattle.elf_image.specs.ImageModel.{section_model};
ghost use Rattle.elf_image.specs.Kept.{dynamic_strings_number as number_of_strings};
ghost use Rattle.elf_image_uses.specs.Needed.{is_info_number as has_section_number, is_lasting, is_section_used as are_sections_used, lasting_types, names_section};
ghost use Rattle.elf_image_uses.specs.Staying.{going, staying};
ghost use Rattle.elf_image_uses.specs.Steps.{lasts as is_one_that_lasts, names_gone as names_one_that_goes};

use crate::kept::{kept_at, kept_count};
use crate::numbers::{contains, is_numbered};
use elf_format::constants::{
    SHF_INFO_LINK, SHT_DYNAMIC, SHT_DYNSYM, SHT_GNU_HASH, SHT_GNU_VERDEF, SHT_GNU_VERNEED,
    SHT_GNU_VERSYM, SHT_HASH, SHT_NULL, SHT_REL, SHT_RELA, SHT_SYMTAB,
};
use elf_image::{Builder, Section, SymbolsNow};

// Whether no section of a type goes.
fn is_lasting_type(kind: u32) -> bool
    ensures { result ≡ is_one_of lasting_types kind }
{
    [
        SHT_DYNAMIC,
        SHT_DYNSYM,
        SHT_HASH,
        SHT_GNU_HASH,
        SHT_GNU_VERSYM,
        SHT_GNU_VERDEF,
        SHT_GNU_VERNEED,
    ]
    .iter()
    .any(|other| *other == kind)
}

// Whether a section of that number and type lasts, by the numbers of the section of names and of the dynamic strings.
fn lasts(names: usize, strings: Option<usize>, number: usize, kind: u32) -> bool
    ensures { result ≡ is_one_that_lasts names strings number kind }
{
    number == 0 || number == names || is_numbered(strings, number) || is_lasting_type(kind)
}

// Whether a section goes and lasts.
fn goes_and_lasts(
    gone: &[usize],
    names: usize,
    strings: Option<usize>,
    number: usize,
    kind: u32,
) -> bool
    requires { IsNonDecreasing gone.now }
    ensures { result ≡ (is_one_of gone.now number
        && is_one_that_lasts names strings number kind) }
{
    contains(gone, number) && lasts(names, strings, number, kind)
}

// Whether one of the sections that go lasts, by the numbers of the sections of names and of the
// dynamic strings.
fn some_last(image: &Builder<'_>, gone: &[usize], names: usize, strings: Option<usize>) -> bool
    requires { IsNonDecreasing gone.now }
    ensures { result
        ≡ list_any (λ s. is_one_that_lasts names strings s.number s.section.sh_type)
        (going gone.now image.now) }
{
    for i in 0..kept_count(image) {
        let (number, section) = kept_at(image, i);
        if goes_and_lasts(gone, names, strings, number, section.sh_type) {
            return true;
        }
    }
    false
}

// The number of the section with the dynamic strings.
fn strings_number(image: &Builder<'_>) -> Option<usize>
    ensures { result ≡ number_of_strings image.now }
{
    match image.link_of_type(SHT_DYNAMIC) {
        Some(number) => Some(number),
        None => image.link_of_type(SHT_DYNSYM),
    }
}

// Whether one of the sections that go lasts.
fn is_lasting_gone(image: &Builder<'_>, gone: &[usize]) -> bool
    requires { IsNonDecreasing gone.now }
    ensures { result ≡ list_any (is_lasting image.now) (going gone.now image.now) }
{
    let names = image.header().e_shstrndx as usize;
    some_last(image, gone, names, strings_number(image))
}

// Whether sh_info of a section of a type is a count.
fn is_info_count(kind: u32) -> bool
    ensures { result ≡ is_one_of (SHT_NULL ∷ SHT_SYMTAB ∷ SHT_DYNSYM ∷ SHT_GNU_VERDEF
        ∷ SHT_GNU_VERNEED ∷ []) kind }
{
    [
        SHT_NULL,
        SHT_SYMTAB,
        SHT_DYNSYM,
        SHT_GNU_VERDEF,
        SHT_GNU_VERNEED,
    ]
    .iter()
    .any(|other| *other == kind)
}

// Whether sh_info of a section is a section's number.
fn is_info_number(section: &Section<'_>) -> bool
    ensures { result ≡ has_section_number (section_model section.now) }
{
    section.sh_type == SHT_REL
        || section.sh_type == SHT_RELA
        || section.sh_flags & SHF_INFO_LINK != 0 && !is_info_count(section.sh_type)
}

// Whether a section names one of those that go.
fn names_gone(gone: &[usize], section: &Section<'_>) -> bool
    requires { IsNonDecreasing gone.now }
    ensures { result ≡ names_one_that_goes gone.now (section_model section.now) }
{
    section.sh_type != SHT_NULL
        && (contains(gone, section.sh_link as usize)
            || is_info_number(section) && contains(gone, section.sh_info as usize))
}

// Whether a section stays and names one of those that go.
fn is_staying_user(gone: &[usize], number: usize, section: &Section<'_>) -> bool
    requires { IsNonDecreasing gone.now }
    ensures { result ≡ (not (is_one_of gone.now number)
        && names_one_that_goes gone.now (section_model section.now)) }
{
    !contains(gone, number) && names_gone(gone, section)
}

// Whether a section that stays names one of those that go.
fn is_gone_named(image: &Builder<'_>, gone: &[usize]) -> bool
    requires { IsNonDecreasing gone.now }
    ensures { result ≡ list_any (λ s. list_any (names_section s.section) gone.now)
        (staying gone.now image.now) }
{
    for i in 0..kept_count(image) {
        let (number, section) = kept_at(image, i);
        if is_staying_user(gone, number, section) {
            return true;
        }
    }
    false
}

// Whether one of some symbols is defined in one of the sections that go.
fn is_symbol_within(gone: &[usize], symbols: SymbolsNow<'_>) -> bool
    requires { IsNonDecreasing gone.now }
    ensures { result ≡ list_any (λ y. is_one_of gone.now y.st_shndx)
        (symbols_now symbols.entry) }
{
    for i in 0..symbols.len() {
        let numbers = symbols.numbers(i, 0);
        if contains(gone, numbers.st_shndx as usize) {
            return true;
        }
    }
    false
}

/// Whether sections, told by their numbers, can't go (gABI, Sections, Symbol Table): one of them is a section by which the
/// file is read, a section that stays names one of them, or a dynamic symbol is defined in one of them. Takes no memory.
pub fn is_section_used(image: &Builder<'_>, gone: &[usize]) -> bool
    requires { IsNonDecreasing gone.now }
    ensures { result ≡ are_sections_used image.now gone.now }
{
    is_lasting_gone(image, gone)
        || is_gone_named(image, gone)
        || is_symbol_within(gone, image.dynamic_symbols())
}
