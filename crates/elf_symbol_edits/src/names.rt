//! The numbers of symbols and sections with some names.
ghost use Rattle.std.specs.Prelude.{◌≡◌, ◌&&◌, ◌<◌, IfOk, not, ◌==◌};
ghost use Rattle.std.specs.HashSet.{keys};
ghost use Rattle.elf_edits.specs.Changes.{has_name};
ghost use Rattle.elf_edits.specs.TextModel.{texts_model};
ghost use Rattle.elf_edits.specs.Texts.{is_among};
ghost use Rattle.elf_image_symbols.specs.Loan.{numbers_now, symbols_now};
ghost use Rattle.elf_symbol_edits.specs.Named.{named_sections, numbers_passing, section_name, symbol_name};

use elf_edits::lookups::set_of;
use elf_image::Builder;
use elf_image_symbols::SymbolsNow;
use std::alloc::{AllocError, Global};
use std::collections::HashSet;

// Whether a number isn't 0, and a set has the name.
fn is_named(names: &HashSet<&[u8]>, number: usize, name: &[u8]) -> bool
    ensures { result ≡ (not (number == 0) && has_name (keys names.now) name.now) }
{
    number != 0 && names.contains(name)
}

// The numbers of the symbols whose names a set has, but 0.
fn symbols_in(
    alloc: Global,
    names: &HashSet<&[u8]>,
    symbols: &SymbolsNow<'_>,
) -> Result<Vec<usize>, AllocError>
    ensures { IfOk result (λ made. made.items
        ≡ numbers_passing (λ y. has_name (keys names.now) (symbol_name y))
        (numbers_now symbols.now) (symbols_now symbols.now)) }
{
    let mut made = Vec::new(alloc);
    for i in 0..symbols.len() {
        let number = symbols.read_number(i);
        if is_named(names, number, symbols.name(i)) {
            made.push(number)?;
        }
    }
    Ok(made)
}

// The numbers of the symbols with one of some names, but 0.
pub(crate) fn symbols_with(
    alloc: Global,
    names: &[Vec<u8>],
    symbols: &SymbolsNow<'_>,
) -> Result<Vec<usize>, AllocError>
    ensures { IfOk result (λ made. made.items
        ≡ numbers_passing (λ y. is_among (texts_model names.now) (symbol_name y))
        (numbers_now symbols.now) (symbols_now symbols.now)) }
{
    let set = set_of(alloc, names)?;
    symbols_in(alloc, &set, symbols)
}

// The numbers of the sections whose names a set has, but 0.
fn sections_in(
    alloc: Global,
    names: &HashSet<&[u8]>,
    image: &Builder<'_>,
) -> Result<Vec<usize>, AllocError>
    ensures { IfOk result (λ made. made.items
        ≡ numbers_passing (λ s. has_name (keys names.now) (section_name s))
        image.now.section_numbers image.now.sections) }
{
    // the image has as many numbers of sections as sections
    let _source = image.source();
    let sections = image.sections();
    let mut made = Vec::new(alloc);
    for i in 0..sections.len() {
        let number = image.read_section(i);
        if is_named(names, number, sections[i].name.as_slice()) {
            made.push(number)?;
        }
    }
    Ok(made)
}

// The numbers of the sections with one of some names, but 0.
pub(crate) fn sections_with(
    alloc: Global,
    names: &[Vec<u8>],
    image: &Builder<'_>,
) -> Result<Vec<usize>, AllocError>
    ensures { IfOk result (λ made. made.items
        ≡ named_sections (texts_model names.now) image.now) }
{
    let set = set_of(alloc, names)?;
    sections_in(alloc, &set, image)
}
