//! The changes of symbols, in the order of their numbers.
ghost use Rattle.std.specs.Prelude.{◌≡◌, ◌+◌, ◌<◌, ◌≤◌, ◌↔◌, ℕ, All, IfOk, IsTrue, MatchResult, insert, length, map, option_copied, true, vec_capacity};
ghost use Rattle.std.specs.List.Sorted.{IsNonDecreasingBy};
ghost use Rattle.elf_format.specs.Image.{counted};
ghost use Rattle.elf_image_symbols.specs.Changes.{AreChanges, IsGapFor, IsPlaceOf, Leaves, change_at, change_of, number_of, starts_at as do_start_at, symbol_now};
ghost use Rattle.elf_image_symbols.specs.EditedList.{changed_at};
ghost use Rattle.elf_image_symbols.specs.Rising.{AreRising};

use crate::change::Change;
use crate::{ByteString, Symbols};
use std::alloc::{AllocError, Global};

// Where the change of the symbol with a number stands, or else where it would.
fn place_of(changes: &[Change<'_>], number: usize) -> Result<usize, usize>
    requires { IsNonDecreasingBy number_of changes.now }
    ensures { MatchResult result (IsPlaceOf changes.now number) (IsGapFor changes.now number) }
{
    let k = changes.partition_point(|change| change.number < number);
    if k == changes.len() {
        return Err(k);
    }
    if changes[k].number == number {
        Ok(k)
    } else {
        Err(k)
    }
}

// The change of the symbol with a number. Where nothing was edited, this costs the test of a length.
#[inline(always)]
pub(crate) fn find<'a, 'data>(
    changes: &'a [Change<'data>],
    number: usize,
) -> Option<&'a Change<'data>>
    requires { IsNonDecreasingBy number_of changes.now }
    ensures { option_copied result ≡ change_of changes.now number }
{
    if changes.is_empty() {
        return None;
    }
    match place_of(changes, number) {
        Ok(k) => Some(&changes[k]),
        Err(_) => None,
    }
}

// Puts a change at a position. There is room for the change.
fn insert_reserved<'data>(changes: &mut Vec<Change<'data>>, k: usize, change: Change<'data>)
    requires inside { k ≤ length changes.old.items }
    requires room { length changes.old.items < vec_capacity changes.old }
    ensures items { changes.new.items ≡ insert changes.old.items k change.entry }
    ensures room { vec_capacity changes.old ≤ vec_capacity changes.new }
{
    match changes.insert(k, change) {
        Ok(()) => {}
        Err(_) => unreachable!(),
    }
}

// Where the change of a symbol stands. Where there was none, one is put there that leaves the symbol as it was.
pub(crate) fn touch<'data>(
    changes: &mut Vec<Change<'data>>,
    table: &Symbols<'data>,
    number: usize,
) -> usize
    requires there { number < length table.now }
    requires changes { AreChanges table.now changes.old.items }
    requires room { length table.now ≤ vec_capacity changes.old }
    ensures place { IsPlaceOf changes.new.items number result }
    ensures changes { AreChanges table.now changes.new.items }
    ensures room { length table.now ≤ vec_capacity changes.new }
    ensures same { (m : ℕ) → symbol_now table.now changes.new.items m
        ≡ symbol_now table.now changes.old.items m }
{
    match place_of(changes, number) {
        Ok(k) => k,
        Err(k) => {
            let change = Change::idle(table, number);
            insert_reserved(changes, k, change);
            k
        }
    }
}

// Gives the symbol of the change at a position a name.
pub(crate) fn set_name<'data>(changes: &mut Vec<Change<'data>>, k: usize, name: ByteString<'data>)
    requires { k < length changes.old.items }
    ensures items { changes.new.items
        ≡ changed_at k (λ c. record c { name = name.entry }) changes.old.items }
    ensures room { vec_capacity changes.new ≡ vec_capacity changes.old }
{
    let change = &mut changes[k];
    change.name = name;
}

// Clears the version of the symbol of the change at a position.
pub(crate) fn set_cleared(changes: &mut Vec<Change<'_>>, k: usize)
    requires { k < length changes.old.items }
    ensures items { changes.new.items
        ≡ changed_at k (λ c. record c { is_cleared = true }) changes.old.items }
    ensures room { vec_capacity changes.new ≡ vec_capacity changes.old }
{
    changes[k].is_cleared = true;
}

// Whether all symbols with a change are as they were read.
pub(crate) fn are_idle(changes: &[Change<'_>], table: &Symbols<'_>) -> bool
    requires { All (λ c. number_of c < length table.now) changes.now }
    ensures { IsTrue result ↔ All (Leaves (λ y. y) table.now) changes.now }
{
    for change in changes {
        if !change.is_idle(table) {
            return false;
        }
    }
    true
}

// Whether all symbols with a change have the names that were read.
pub(crate) fn keep_names(changes: &[Change<'_>], table: &Symbols<'_>) -> bool
    requires { All (λ c. number_of c < length table.now) changes.now }
    ensures { IsTrue result ↔ All (Leaves (λ y. y.name) table.now) changes.now }
{
    for change in changes {
        if !change.keeps_name(table) {
            return false;
        }
    }
    true
}

// Copies of changes, with room for so many.
pub(crate) fn copy_changes<'data>(
    alloc: Global,
    changes: &[Change<'data>],
    room: usize,
) -> Result<Vec<Change<'data>>, AllocError>
    requires { length changes.now ≤ room }
    ensures items { IfOk result (λ copy. copy.items ≡ changes.now) }
    ensures room { IfOk result (λ copy. room ≤ vec_capacity copy) }
{
    let mut copy = Vec::with_capacity(alloc, room)?;
    for change in changes {
        let change = change.try_clone(alloc)?;
        copy.push_reserved(change);
    }
    Ok(copy)
}

// Whether the first of the changes that are left is of the symbol with a number.
fn starts_at(changes: &[Change<'_>], number: usize) -> bool
    ensures { result ≡ do_start_at number changes.now }
{
    if changes.is_empty() {
        return false;
    }
    changes[0].number == number
}

// The change of a symbol, where none of those before it is left, or else one that leaves it as it was.
fn change_or_idle<'data>(
    alloc: Global,
    changes: &[Change<'data>],
    table: &Symbols<'data>,
    number: usize,
) -> Result<Change<'data>, AllocError>
    requires there { number < length table.now }
    requires rising { AreRising number (length table.now) (map number_of changes.now) }
    ensures { IfOk result (λ change. change ≡ change_at table.now changes.now number) }
{
    if starts_at(changes, number) {
        changes[0].try_clone(alloc)
    } else {
        Ok(Change::idle(table, number))
    }
}

// The changes of the symbols behind one, where none of those before it is left.
fn changes_behind<'a, 'data>(changes: &'a [Change<'data>], number: usize) -> &'a [Change<'data>]
    ensures rising { (high : ℕ) → AreRising number high (map number_of changes.now)
        → AreRising (number + 1) high (map number_of result.now) }
    ensures same { (m : ℕ) → number < m → change_of result.now m ≡ change_of changes.now m }
{
    if starts_at(changes, number) {
        &changes[1..]
    } else {
        changes
    }
}

// A change of each symbol: those that there are, and else such as leave it as it was.
pub(crate) fn spread_changes<'data>(
    alloc: Global,
    changes: &[Change<'data>],
    table: &Symbols<'data>,
) -> Result<Vec<Change<'data>>, AllocError>
    requires { AreRising 0 (length table.now) (map number_of changes.now) }
    ensures items { IfOk result (λ spread. spread.items
        ≡ map (change_at table.now changes.now) (counted (length table.now))) }
    ensures room { IfOk result (λ spread. length table.now ≤ vec_capacity spread) }
{
    let count = table.len();
    let mut spread = Vec::with_capacity(alloc, count)?;
    let mut rest = changes;
    for number in 0..count {
        let change = change_or_idle(alloc, rest, table, number)?;
        spread.push_reserved(change);
        rest = changes_behind(rest, number);
    }
    Ok(spread)
}
