//! The numbers that sections get in a written file (gABI, Sections).
ghost use Rattle.std.specs.Prelude.{◌≡◌, IfOk, length, replicate, slice_index};
ghost use Rattle.elf_write_spec.specs.Final.{new_number as number_of, new_symbol_section as symbol_section_of};
ghost use Rattle.elf_write_spec.specs.Ready.{IsEditedReady};
ghost use Rattle.elf_write_symbols.specs.NewSections.{AreNewSections, all_sections};

use elf_format::constants::SHN_LORESERVE;
use elf_image::Builder;
use std::alloc::{AllocError, Global};

/// The numbers that sections get in a written file.
#[derive(Debug, Drop)]
pub struct NewSections {
    /// For each number at read, the new one; 0 where the section isn't there.
    pub numbers: Vec<u16>,
}

// Puts at the number at read of each section where the section stands.
fn number_sections(numbers: &mut [u16], read: &Builder<'_>, image: &Builder<'_>)
    requires ready { IsEditedReady read.now image.now }
    requires none { numbers.old ≡ replicate (length read.now.sections) 0 }
    ensures { numbers.new ≡ all_sections read.now image.now }
{
    for i in 0..image.sections().len() {
        let number = image.read_section(i);
        numbers[number] = i as u16;
    }
}

/// The new numbers of the sections of an image. Error: `AllocError`. Time grows with the number of sections.
pub fn new_sections(
    alloc: Global,
    read: &Builder<'_>,
    image: &Builder<'_>,
) -> Result<NewSections, AllocError>
    requires { IsEditedReady read.now image.now }
    ensures { IfOk result (AreNewSections read.now image.now) }
{
    let mut numbers = vec![in alloc; 0; read.sections().len()]?;
    number_sections(numbers.as_mut_slice(), read, image);
    Ok(NewSections { numbers })
}

// The new number of the section that was read at a number; 0 where none is there.
fn number_at(sections: &NewSections, number: usize) -> u16
    ensures { result ≡ slice_index sections.now.numbers.items number }
{
    match sections.numbers.get(number) {
        Some(new) => *new,
        None => 0,
    }
}

/// The number by which a written file names the section that was read at a number (gABI, Sections, `sh_link`); a number of none
/// stays. Takes no memory.
pub fn new_number(
    read: &Builder<'_>,
    image: &Builder<'_>,
    sections: &NewSections,
    number: u32,
) -> u32
    requires ready { IsEditedReady read.now image.now }
    requires sections { AreNewSections read.now image.now sections.now }
    ensures { result ≡ number_of image.now number }
{
    match number_at(sections, number as usize) {
        0 => number,
        new => u32::from(new),
    }
}

/// The number by which a written file names a symbol's section (gABI, Symbol Table, `st_shndx`): a
/// special number stays, and a section that isn't there is none. Takes no memory.
#[inline(always)]
pub fn new_symbol_section(
    read: &Builder<'_>,
    image: &Builder<'_>,
    sections: &NewSections,
    number: u16,
) -> u16
    requires ready { IsEditedReady read.now image.now }
    requires sections { AreNewSections read.now image.now sections.now }
    ensures { result ≡ symbol_section_of image.now number }
{
    if number >= SHN_LORESERVE {
        return number;
    }
    number_at(sections, number as usize)
}
