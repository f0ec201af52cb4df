//! What goes along with sections: symbols and program headers.
ghost use Rattle.std.specs.Prelude.{◌≡◌, ◌&&◌, ◌||◌, ◌==◌, [], ◌∷◌, IfOk, IsPermutation, filter, if◌then◌else◌, map, not};
ghost use Rattle.std.specs.List.{list_any};
ghost use Rattle.std.specs.List.Sorted.{IsNonDecreasing};
ghost use Rattle.elf_format.specs.declared.constants.TheConstants.{SHT_SYMTAB as SYMTAB};
ghost use Rattle.elf_format.specs.Options.{is_one_of, is_some_and};
ghost use Rattle.elf_image.specs.Deleted.{segments_left};
ghost use Rattle.elf_image.specs.ImageModel.{section_model, segment_model};
ghost use Rattle.elf_image.specs.Kept.{interpreter_number};
ghost use Rattle.elf_image_uses.specs.Along.{is_deserted, is_in_memory as takes_room, is_within, symbols_along as numbers_along};
ghost use Rattle.elf_image_uses.specs.Staying.{table_number as number_of_table};
ghost use Rattle.elf_image_uses.specs.Steps.{begins_of, deserted_by, numbers_with};

use crate::kept::{kept_at, kept_count, table_number};
use crate::numbers::contains;
use elf_format::constants::{
    PT_DYNAMIC, PT_GNU_STACK, PT_INTERP, PT_LOAD, SHF_ALLOC, SHT_NULL, SHT_SYMTAB,
};
use elf_format::records::SegmentHeader;
use elf_image::{Builder, Section, Segment};
use std::alloc::{AllocError, Global};

// Whether a section goes, where there is one.
fn does_go(gone: &[usize], number: Option<usize>) -> bool
    requires { IsNonDecreasing gone.now }
    ensures { result ≡ is_some_and (is_one_of gone.now) number }
{
    match number {
        Some(number) => contains(gone, number),
        None => false,
    }
}

// Whether a static symbol goes along, where its table does or doesn't: by its number, and that of its section.
fn goes_along(table: bool, gone: &[usize], number: usize, section: u16) -> bool
    requires { IsNonDecreasing gone.now }
    ensures { result ≡ (table || not (number == 0) && is_one_of gone.now section) }
{
    table || number != 0 && contains(gone, section as usize)
}

// The numbers of the static symbols that go along, where their table does or doesn't.
fn symbols_with(
    alloc: Global,
    image: &Builder<'_>,
    gone: &[usize],
    table: bool,
) -> Result<Vec<usize>, AllocError>
    requires { IsNonDecreasing gone.now }
    ensures { IfOk result (λ numbers. numbers.items ≡ numbers_with table gone.now image.now) }
{
    // the image has as many numbers of symbols as symbols
    let _source = image.source();
    let symbols = image.symbols();
    let mut made = Vec::new(alloc);
    for i in 0..symbols.len() {
        let number = image.read_symbol(i);
        let numbers = symbols.numbers(i, 0);
        if goes_along(table, gone, number, numbers.st_shndx) {
            made.push(number)?;
        }
    }
    Ok(made)
}

/// The numbers of the static symbols that go along with sections, in rising order: all with their table, else those but the
/// first that are defined in one of the sections (gABI, Symbol Table, `st_shndx`). Error: `AllocError`.
pub fn symbols_along(
    alloc: Global,
    image: &Builder<'_>,
    gone: &[usize],
) -> Result<Vec<usize>, AllocError>
    requires { IsNonDecreasing gone.now }
    ensures numbers { IfOk result (λ numbers. numbers.items ≡ numbers_along image.now gone.now) }
    ensures rising { IfOk result (λ numbers. IsNonDecreasing numbers.items) }
{
    // the numbers of an image's symbols rise
    let _source = image.source();
    let table = does_go(gone, table_number(image, SHT_SYMTAB));
    symbols_with(alloc, image, gone, table)
}

// Whether a section takes memory.
fn is_in_memory(section: &Section<'_>) -> bool
    ensures { result ≡ takes_room (section_model section.now) }
{
    section.sh_flags & SHF_ALLOC != 0 && section.sh_type != SHT_NULL
}

// Whether a section takes memory, and goes, or stays.
fn is_begin(gone: &[usize], go: bool, number: usize, section: &Section<'_>) -> bool
    requires { IsNonDecreasing gone.now }
    ensures { result
        ≡ ((if go then is_one_of gone.now number else not (is_one_of gone.now number))
        && takes_room (section_model section.now)) }
{
    let is_gone = contains(gone, number);
    let is_meant = if go { is_gone } else { !is_gone };
    is_meant && is_in_memory(section)
}

// Where the sections begin in memory that go, or those that stay.
fn begins(
    alloc: Global,
    image: &Builder<'_>,
    gone: &[usize],
    go: bool,
) -> Result<Vec<u64>, AllocError>
    requires { IsNonDecreasing gone.now }
    ensures { IfOk result (λ begins. begins.items ≡ begins_of go gone.now image.now) }
{
    let mut made = Vec::new(alloc);
    for i in 0..kept_count(image) {
        let (number, section) = kept_at(image, i);
        if is_begin(gone, go, number, section) {
            made.push(section.sh_addr)?;
        }
    }
    Ok(made)
}

// Where the sections that go, or those that stay, begin in memory, in rising order.
fn sorted_begins(
    alloc: Global,
    image: &Builder<'_>,
    gone: &[usize],
    go: bool,
) -> Result<Vec<u64>, AllocError>
    requires { IsNonDecreasing gone.now }
    ensures rising { IfOk result (λ begins. IsNonDecreasing begins.items) }
    ensures same { IfOk result (λ begins.
        IsPermutation (begins_of go gone.now image.now) begins.items) }
{
    let mut begins = begins(alloc, image, gone, go)?;
    begins.sort_unstable();
    Ok(begins)
}

// Whether one of some addresses in rising order lies in a program header's memory.
fn is_some_within(addresses: &[u64], p: SegmentHeader) -> bool
    requires { IsNonDecreasing addresses.now }
    ensures { result ≡ list_any (is_within p) addresses.now }
{
    let start = p.p_vaddr;
    let before = addresses.partition_point(|address| *address < start);
    before < addresses.len() && addresses[before] - start < p.p_memsz
}

// Whether a program header of a type stays, whatever goes.
fn is_lasting_type(kind: u32) -> bool
    ensures { result ≡ is_one_of (PT_LOAD ∷ PT_DYNAMIC ∷ PT_GNU_STACK ∷ []) kind }
{
    [PT_LOAD, PT_DYNAMIC, PT_GNU_STACK]
        .iter()
        .any(|other| *other == kind)
}

// Whether a program header is deserted, by where sections begin that go and that stay, and whether the interpreter's goes.
fn is_deserted_by(going: &[u64], staying: &[u64], interpreter: bool, p: SegmentHeader) -> bool
    requires going { IsNonDecreasing going.now }
    requires staying { IsNonDecreasing staying.now }
    ensures { result ≡ deserted_by going.now staying.now interpreter p }
{
    if p.p_type == PT_INTERP {
        return interpreter;
    }
    !is_lasting_type(p.p_type) && is_some_within(going, p) && !is_some_within(staying, p)
}

// Whether each of some program headers is deserted, by where sections begin that go and that stay.
fn deserted_of(
    alloc: Global,
    segments: &[Segment<'_>],
    going: &[u64],
    staying: &[u64],
    interpreter: bool,
) -> Result<Vec<bool>, AllocError>
    requires going { IsNonDecreasing going.now }
    requires staying { IsNonDecreasing staying.now }
    ensures { IfOk result (λ answers. answers.items
        ≡ map (λ p. deserted_by going.now staying.now interpreter (segment_model p))
        segments.now) }
{
    segments
        .iter()
        .map(|p| is_deserted_by(going, staying, interpreter, p.numbers()))
        .collect(alloc)
}

/// Whether each program header is deserted where sections go (gABI, Program Header): of those that begin in its memory one
/// goes and none stays. `PT_LOAD`, `PT_DYNAMIC` and `PT_GNU_STACK` never are; `PT_INTERP` goes with the interpreter's section.
/// Error: `AllocError`.
pub fn deserted_segments(
    alloc: Global,
    image: &Builder<'_>,
    gone: &[usize],
) -> Result<Vec<bool>, AllocError>
    requires { IsNonDecreasing gone.now }
    ensures { IfOk result (λ answers. answers.items
        ≡ map (is_deserted image.now gone.now) image.now.segments) }
{
    let going = sorted_begins(alloc, image, gone, true)?;
    let staying = sorted_begins(alloc, image, gone, false)?;
    let interpreter = does_go(gone, image.interpreter_number());
    deserted_of(alloc, image.segments(), &going, &staying, interpreter)
}

// The program headers that aren't deserted.
fn left_of<'data>(
    alloc: Global,
    segments: &[Segment<'data>],
    going: &[u64],
    staying: &[u64],
    interpreter: bool,
) -> Result<Vec<Segment<'data>>, AllocError>
    requires going { IsNonDecreasing going.now }
    requires staying { IsNonDecreasing staying.now }
    ensures { IfOk result (λ left. left.items
        ≡ filter (λ p. not (deserted_by going.now staying.now interpreter (segment_model p)))
        segments.now) }
{
    segments
        .iter()
        .filter(|p| !is_deserted_by(going, staying, interpreter, p.numbers()))
        .copied()
        .collect(alloc)
}

/// The program headers that are left where sections go, in order (gABI, Program Header): those that aren't deserted. Error:
/// `AllocError`.
pub fn remaining_segments<'data>(
    alloc: Global,
    image: &Builder<'data>,
    gone: &[usize],
) -> Result<Vec<Segment<'data>>, AllocError>
    requires { IsNonDecreasing gone.now }
    ensures { IfOk result (λ left.
        map segment_model left.items ≡ segments_left gone.now image.now) }
{
    let going = sorted_begins(alloc, image, gone, true)?;
    let staying = sorted_begins(alloc, image, gone, false)?;
    let interpreter = does_go(gone, image.interpreter_number());
    left_of(alloc, image.segments(), &going, &staying, interpreter)
}
