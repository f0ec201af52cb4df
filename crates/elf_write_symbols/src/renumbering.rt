//! The order that dynamic symbols get, and the numbers of all sections and symbols.
ghost use Rattle.std.specs.Prelude.{◌≡◌, ◌≢◌, ◌<◌, ◌^◌, IfOk, IfSome, MatchResult, Some, false, length, true};
ghost use Rattle.std.specs.List.{slice_get};
ghost use Rattle.elf_write_spec.specs.TableFault.TheVariants.{NumberTooLarge};
ghost use Rattle.elf_format.specs.declared.constants.TheConstants.{SHT_SYMTAB as SYMTAB};
ghost use Rattle.elf_format.specs.Hashes.{gnu_hash};
ghost use Rattle.elf_hashes.specs.Found.{found_hashes};
ghost use Rattle.elf_image.specs.Names.{are_names_changed};
ghost use Rattle.elf_image.specs.Staying.{table_number as table_number_of};
ghost use Rattle.elf_write_spec.specs.Final.{buckets_of, dynamic_order, is_static_renumbered};
ghost use Rattle.elf_write_spec.specs.Ready.{IsEditedReady};
ghost use Rattle.elf_write_symbols.specs.Renumbering.{AreStaticNumbersFor, IsRenumbering, IsReordering, IsReorderingFor, are_static_numbers_new as are_new, do_symbols_fit};

use crate::numbers::{NewNumbers, dynamic_numbers, static_numbers};
use crate::section_numbers::{NewSections, new_sections};
use crate::sections::{first_of_type, table_number};
use elf_format::constants::{SHT_DYNSYM, SHT_GNU_HASH, SHT_SYMTAB};
use elf_format::numbers::{counted, word_at};
use elf_hashes::{gnu_hashes, order_for_gnu_hash};
use elf_image::Builder;
use elf_write_spec::TableFault;
use std::alloc::Global;

/// The new order and the new numbers of the dynamic symbols of an image, some of which have other names than were read, or are
/// gone (GNU hash section).
#[derive(Debug, Drop)]
pub struct Reordering {
    /// For each new place, where its symbol stands in the image.
    pub order: Vec<usize>,
    /// The GNU hashes of the symbols as they stand in the image, of those that a look-up may find.
    pub hashes: Vec<Option<u32>>,
    /// The new numbers of the symbols.
    pub numbers: NewNumbers,
}

/// The new numbers of the sections and of the symbols of an image.
#[derive(Debug, Drop)]
pub struct Renumbering {
    /// The new numbers of sections.
    pub sections: NewSections,
    /// The dynamic ones, where they haven't, one by one, the names that were read.
    pub dynamic: Option<Reordering>,
    /// The static ones, where some are gone and others aren't.
    pub static_numbers: Option<NewNumbers>,
}

// How many buckets the GNU hash table has, which is made anew; `None` without such a table.
fn buckets(read: &Builder<'_>, image: &Builder<'_>) -> Option<u32>
    requires ready { IsEditedReady read.now image.now }
    requires changed { are_names_changed read.now image.now ≡ true }
    ensures value { result ≡ buckets_of image.now }
    ensures some { IfSome result (λ count. 0 < count) }
{
    let section = first_of_type(image, SHT_GNU_HASH)?;
    Some(word_at(image.form(), section.content, 0))
}

// The order that a GNU hash table asks for, by these hashes; without one that of the list.
fn new_order(
    alloc: Global,
    read: &Builder<'_>,
    image: &Builder<'_>,
    hashes: &[Option<u32>],
) -> Result<Vec<usize>, TableFault>
    requires ready { IsEditedReady read.now image.now }
    requires changed { are_names_changed read.now image.now ≡ true }
    requires few { length image.now.dynamic_symbols < 2 ^ 32 }
    requires hashes { hashes.now ≡ found_hashes gnu_hash image.now.dynamic_symbols }
    ensures { MatchResult result
        (λ order. order.items ≡ dynamic_order read.now image.now)
        (λ fault. fault ≢ NumberTooLarge) }
{
    let symbols = image.dynamic_symbols();
    match buckets(read, image) {
        Some(buckets) => order_for_gnu_hash(alloc, symbols, hashes, buckets),
        None => {
            let order = counted(alloc, symbols.len())?;
            Ok(order)
        }
    }
}

// The new order of the dynamic symbols, and their numbers.
fn reordered(
    alloc: Global,
    read: &Builder<'_>,
    image: &Builder<'_>,
) -> Result<Reordering, TableFault>
    requires ready { IsEditedReady read.now image.now }
    requires changed { are_names_changed read.now image.now ≡ true }
    requires few { length image.now.dynamic_symbols < 2 ^ 32 }
    ensures { MatchResult result
        (IsReordering read.now image.now)
        (λ fault. fault ≢ NumberTooLarge) }
{
    let hashes = gnu_hashes(alloc, image.dynamic_symbols())?;
    let order = new_order(alloc, read, image, hashes.as_slice())?;
    let numbers = dynamic_numbers(alloc, read, image, order.as_slice())?;
    let table = table_number(image, SHT_DYNSYM);
    Ok(Reordering {
        order,
        hashes,
        numbers: NewNumbers { table, numbers },
    })
}

// The new order of the dynamic symbols, and their numbers, where the names aren't those that were
// read.
fn reordering_of(
    alloc: Global,
    read: &Builder<'_>,
    image: &Builder<'_>,
) -> Result<Option<Reordering>, TableFault>
    requires { IsEditedReady read.now image.now }
    ensures { MatchResult result
        (IsReorderingFor read.now image.now)
        (λ fault. fault ≡ NumberTooLarge → do_symbols_fit read.now image.now ≡ false) }
{
    if image.keeps_dynamic_names() {
        return Ok(None);
    }
    if image.dynamic_symbols().len() > u32::MAX as usize {
        return Err(TableFault::NumberTooLarge);
    }
    let made = reordered(alloc, read, image)?;
    Ok(Some(made))
}

// Whether some static symbols went.
fn is_static_table_shorter(read: &Builder<'_>, image: &Builder<'_>) -> bool
    requires { IsEditedReady read.now image.now }
    ensures { result ≡ is_static_renumbered read.now image.now }
{
    image.symbols().len() != read.symbols().len()
}

// Whether some static symbols went, and others are there.
fn are_static_numbers_new(read: &Builder<'_>, image: &Builder<'_>, table: Option<usize>) -> bool
    requires ready { IsEditedReady read.now image.now }
    requires table { table ≡ table_number_of SYMTAB image.now }
    ensures { result ≡ are_new read.now image.now }
{
    is_static_table_shorter(read, image) && table.is_some()
}

// The new numbers of the static symbols, where some went and others are there.
fn static_numbers_of(
    alloc: Global,
    read: &Builder<'_>,
    image: &Builder<'_>,
) -> Result<Option<NewNumbers>, TableFault>
    requires { IsEditedReady read.now image.now }
    ensures { MatchResult result
        (AreStaticNumbersFor read.now image.now)
        (λ fault. fault ≡ NumberTooLarge → do_symbols_fit read.now image.now ≡ false) }
{
    let table = table_number(image, SHT_SYMTAB);
    if !are_static_numbers_new(read, image, table) {
        return Ok(None);
    }
    if image.symbols().len() > u32::MAX as usize {
        return Err(TableFault::NumberTooLarge);
    }
    let numbers = static_numbers(alloc, read, image)?;
    Ok(Some(NewNumbers { table, numbers }))
}

/// The new numbers of the sections and of the symbols of an image. Dynamic symbols that haven't, one by one, the names that were read stand in the
/// order that a GNU hash table asks for, or in that of the list without one (GNU hash section); static ones keep their order.
/// Those of a table stay where each of its symbols keeps its number. `NumberTooLarge` where there are more symbols to be
/// numbered than 32 bits can tell. Time grows with the number of sections, symbols and buckets.
pub fn renumbering_of(
    alloc: Global,
    read: &Builder<'_>,
    image: &Builder<'_>,
) -> Result<Renumbering, TableFault>
    requires { IsEditedReady read.now image.now }
    ensures { MatchResult result
        (IsRenumbering read.now image.now)
        (λ fault. fault ≡ NumberTooLarge → do_symbols_fit read.now image.now ≡ false) }
{
    let sections = new_sections(alloc, read, image)?;
    let dynamic = reordering_of(alloc, read, image)?;
    let static_numbers = static_numbers_of(alloc, read, image)?;
    Ok(Renumbering {
        sections,
        dynamic,
        static_numbers,
    })
}

/// Which symbol of the image stands at a place of the new order. Takes no memory.
#[inline(always)]
pub fn order_of(
    read: &Builder<'_>,
    image: &Builder<'_>,
    reordering: &Option<Reordering>,
    i: usize,
) -> usize
    requires ready { IsEditedReady read.now image.now }
    requires reordering { IsReorderingFor read.now image.now reordering.now }
    requires inside { i < length image.now.dynamic_symbols }
    ensures place { slice_get (dynamic_order read.now image.now) i ≡ Some result }
    ensures inside { result < length image.now.dynamic_symbols }
{
    match reordering {
        Some(reordering) => reordering.order[i],
        None => i,
    }
}
