//! The string tables of a written file in which a place isn't as it was read (gABI, String Table).
ghost use Rattle.std.specs.Prelude.{ℕ, ◌≡◌, IfErr, IfNone, IfOk, IfSome, IsTrue, MatchOption, None, Some, false, true};
ghost use Rattle.elf_image.specs.Kept.{dynamic_strings_number};
ghost use Rattle.elf_layout_plan.specs.Texts.{is_table_copied};
ghost use Rattle.elf_layout_sizes.specs.MadeTables.{IsMade, IsMadeOfDynamic};
ghost use Rattle.elf_tables.specs.declared.fault.TableFault.TheVariants.{NumberTooLarge};
ghost use Rattle.elf_write_spec.specs.Ready.{IsEditedReady};
ghost use Rattle.elf_write_strings.specs.MadeSteps.{AreDynamicTold, AreMore, AreStaticTold, AreTold, IsAsTold};
ghost use Rattle.elf_write_strings.specs.WrittenStrings.{AreAsRead, AreStrings, IsEditedTable, do_names_reach, made_of as made_at};

use crate::left::do_texts_move;
use crate::told::told_table;
use crate::versions::content_of;
use elf_image::Builder;
use elf_image::constants::{SHT_DYNAMIC, SHT_DYNSYM, SHT_SYMTAB};
use elf_layout_sizes::made_table;
use elf_tables::{Finished, TableFault};
use std::alloc::{AllocError, Global};

/// A string table of a written file, told anew: where each text stands in it (gABI, String Table).
#[derive(Drop)]
pub struct Made<'t> {
    /// The number of the table's section in the file that was read.
    pub number: usize,
    /// The table's bytes, and where each text stands in them.
    pub table: Finished<'t>,
    /// Whether the bytes are those that were read.
    pub is_copied: bool,
}

/// The first of these tables whose section had a number in the file that was read.
pub fn made_of<'m, 't>(made: &'m [Made<'t>], number: usize) -> Option<&'m Made<'t>>
    ensures none { IfNone result (made_at made.entry.now number ≡ None) }
    ensures some { IfSome result (λ m. made_at made.entry.now number ≡ Some m.now) }
{
    for table in made {
        if table.number == number {
            return Some(table);
        }
    }
    None
}

// The number of the dynamic strings in the file that was read.
fn strings_number(image: &Builder<'_>) -> Option<usize>
    ensures { result ≡ dynamic_strings_number image.now }
{
    match image.link_of_type(SHT_DYNAMIC) {
        Some(number) => Some(number),
        None => image.link_of_type(SHT_DYNSYM),
    }
}

// The table with that number at read, where it is made anew: the sizes of the image fit, so it isn't too long.
#[tactic(auto, using(crate::proofs::MadeShort::never_too_long))]
fn table_anew<'a, 'data>(
    alloc: Global,
    read: &'a Builder<'data>,
    image: &'a Builder<'data>,
    number: usize,
) -> Result<Option<Finished<'a>>, AllocError>
    requires ready { IsEditedReady read.now image.now }
    requires edited { IsEditedTable image.now number }
    ensures { IfOk result (λ made. MatchOption made
        (IsTrue (is_table_copied read.entry.now image.entry.now number))
        (IsMade read.entry.now image.entry.now number)) }
{
    match made_table(alloc, read, image, number) {
        Ok(table) => Ok(table),
        Err(TableFault::Memory) => Err(AllocError),
        Err(TableFault::NumberTooLarge) => unreachable!(),
    }
}

// The table with that number at read, where it is copied: told anew where texts move.
fn table_copied<'a, 'data>(
    alloc: Global,
    read: &'a Builder<'data>,
    image: &'a Builder<'data>,
    number: usize,
) -> Result<Option<Made<'a>>, TableFault>
    requires ready { IsEditedReady read.now image.now }
    requires edited { IsEditedTable image.now number }
    requires copied { is_table_copied read.now image.now number ≡ true }
    ensures table { IfOk result (IsAsTold read.entry.now image.entry.now number) }
    ensures fault { IfErr result (λ fault. fault ≡ NumberTooLarge
        → do_names_reach read.entry.now image.entry.now ≡ false) }
{
    if !do_texts_move(alloc, read, image, number)? {
        return Ok(None);
    }
    let content = content_of(read, number);
    if content.len() > 1 << 32 {
        return Err(TableFault::NumberTooLarge);
    }
    let table = told_table(alloc, read, number)?;
    Ok(Some(Made {
        number,
        table,
        is_copied: true,
    }))
}

// The table with that number at read, where it is told anew; `None` where it is copied with the places of its texts.
fn table_told<'a, 'data>(
    alloc: Global,
    read: &'a Builder<'data>,
    image: &'a Builder<'data>,
    number: usize,
) -> Result<Option<Made<'a>>, TableFault>
    requires ready { IsEditedReady read.now image.now }
    requires edited { IsEditedTable image.now number }
    ensures table { IfOk result (IsAsTold read.entry.now image.entry.now number) }
    ensures fault { IfErr result (λ fault. fault ≡ NumberTooLarge
        → do_names_reach read.entry.now image.entry.now ≡ false) }
{
    match table_anew(alloc, read, image, number)? {
        Some(table) => Ok(Some(Made {
            number,
            table,
            is_copied: false,
        })),
        None => table_copied(alloc, read, image, number),
    }
}

// Adds the table with that number at read, where it is told anew and not there already.
fn add_table<'a, 'data>(
    alloc: Global,
    read: &'a Builder<'data>,
    image: &'a Builder<'data>,
    number: usize,
    made: &mut Vec<Made<'a>>,
) -> Result<(), TableFault>
    requires ready { IsEditedReady read.now image.now }
    requires edited { IsEditedTable image.now number }
    requires told { AreTold read.now image.now made.old.items }
    ensures told { IfOk result (λ _. AreTold read.entry.now image.entry.now made.new.items) }
    ensures more { IfOk result (λ _. AreMore made.old.items made.new.items) }
    ensures own { IfOk result (λ _. made_at made.new.items number ≡ None
        → AreAsRead read.entry.now image.entry.now number) }
    ensures fault { IfErr result (λ fault. fault ≡ NumberTooLarge
        → do_names_reach read.entry.now image.entry.now ≡ false) }
{
    if made_of(made, number).is_some() {
        return Ok(());
    }
    if let Some(table) = table_told(alloc, read, image, number)? {
        made.push(table)?;
    }
    Ok(())
}

// Adds the dynamic strings, where these are told anew.
fn add_dynamic<'a, 'data>(
    alloc: Global,
    read: &'a Builder<'data>,
    image: &'a Builder<'data>,
    made: &mut Vec<Made<'a>>,
) -> Result<(), TableFault>
    requires ready { IsEditedReady read.now image.now }
    requires told { AreTold read.now image.now made.old.items }
    ensures told { IfOk result (λ _. AreTold read.entry.now image.entry.now made.new.items) }
    ensures dynamic { IfOk result (λ _. AreDynamicTold read.entry.now image.entry.now
        made.new.items) }
    ensures fault { IfErr result (λ fault. fault ≡ NumberTooLarge
        → do_names_reach read.entry.now image.entry.now ≡ false) }
{
    match strings_number(image) {
        Some(number) => add_table(alloc, read, image, number, made),
        None => Ok(()),
    }
}

// Adds the names of static symbols, where these are told anew.
fn add_static<'a, 'data>(
    alloc: Global,
    read: &'a Builder<'data>,
    image: &'a Builder<'data>,
    made: &mut Vec<Made<'a>>,
) -> Result<(), TableFault>
    requires ready { IsEditedReady read.now image.now }
    requires told { AreTold read.now image.now made.old.items }
    ensures told { IfOk result (λ _. AreTold read.entry.now image.entry.now made.new.items) }
    ensures more { IfOk result (λ _. AreMore made.old.items made.new.items) }
    ensures statics { IfOk result (λ _. AreStaticTold read.entry.now image.entry.now
        made.new.items) }
    ensures fault { IfErr result (λ fault. fault ≡ NumberTooLarge
        → do_names_reach read.entry.now image.entry.now ≡ false) }
{
    match image.link_of_type(SHT_SYMTAB) {
        Some(number) => add_table(alloc, read, image, number, made),
        None => Ok(()),
    }
}

// Adds the names of static symbols and those of sections to the dynamic strings.
fn add_names<'a, 'data>(
    alloc: Global,
    read: &'a Builder<'data>,
    image: &'a Builder<'data>,
    made: &mut Vec<Made<'a>>,
) -> Result<(), TableFault>
    requires ready { IsEditedReady read.now image.now }
    requires told { AreTold read.now image.now made.old.items }
    requires dynamic { AreDynamicTold read.now image.now made.old.items }
    ensures strings { IfOk result (λ _. AreStrings read.entry.now image.entry.now made.new.items) }
    ensures fault { IfErr result (λ fault. fault ≡ NumberTooLarge
        → do_names_reach read.entry.now image.entry.now ≡ false) }
{
    add_static(alloc, read, image, made)?;
    let names = image.header().e_shstrndx as usize;
    add_table(alloc, read, image, names, made)?;
    Ok(())
}

/// The string tables that are told anew: of the dynamic strings, the names of static symbols and the names of sections.
/// Each other table is copied with the places of its texts. Errors: `NumberTooLarge` where one of these is copied, texts
/// move, and 32 bits don't reach all of them; `Memory`.
pub fn made_strings<'a, 'data>(
    alloc: Global,
    read: &'a Builder<'data>,
    image: &'a Builder<'data>,
) -> Result<Vec<Made<'a>>, TableFault>
    requires { IsEditedReady read.now image.now }
    ensures strings { IfOk result (λ made.
        AreStrings read.entry.now image.entry.now made.items) }
    ensures fault { IfErr result (λ fault. fault ≡ NumberTooLarge
        → do_names_reach read.entry.now image.entry.now ≡ false) }
{
    let mut made = Vec::new(alloc);
    add_dynamic(alloc, read, image, &mut made)?;
    add_names(alloc, read, image, &mut made)?;
    Ok(made)
}

/// The string tables that are told anew, as `made_strings` gives them. Dynamic strings that were
/// made anew already are taken. Errors: those of `made_strings`.
pub fn strings_from<'a, 'data>(
    alloc: Global,
    read: &'a Builder<'data>,
    image: &'a Builder<'data>,
    strings: Option<Finished<'a>>,
) -> Result<Vec<Made<'a>>, TableFault>
    requires ready { IsEditedReady read.now image.now }
    requires strings { IfSome strings (IsMadeOfDynamic read.now image.now) }
    ensures strings { IfOk result (λ made.
        AreStrings read.entry.now image.entry.now made.items) }
    ensures fault { IfErr result (λ fault. fault ≡ NumberTooLarge
        → do_names_reach read.entry.now image.entry.now ≡ false) }
{
    let Some(table) = strings else {
        return made_strings(alloc, read, image);
    };
    let Some(number) = strings_number(image) else {
        return made_strings(alloc, read, image);
    };
    let mut made = Vec::new(alloc);
    made.push(Made {
        number,
        table,
        is_copied: false,
    })?;
    add_names(alloc, read, image, &mut made)?;
    Ok(made)
}
