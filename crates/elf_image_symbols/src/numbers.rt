//! The numbers at read of symbols.
ghost use Rattle.std.specs.Prelude.{◌≡◌, ◌≤◌, IfOk, filter, length, vec_capacity};
ghost use Rattle.std.specs.List.Sorted.{IsNonDecreasing};
ghost use Rattle.elf_format.specs.Image.{counted};
ghost use Rattle.elf_format.specs.Options.{is_one_of};
ghost use Rattle.elf_image_symbols.specs.EditedList.{stays};
ghost use Rattle.elf_image_symbols.specs.Rising.{numbers_there};

use std::alloc::{AllocError, Global};

// Puts the numbers from 0 on, as many as that, in place of what is there. There is room for them.
fn fill(numbers: &mut Vec<usize>, count: usize)
    requires { count ≤ vec_capacity numbers.old }
    ensures items { numbers.new.items ≡ counted count }
    ensures room { vec_capacity numbers.new ≡ vec_capacity numbers.old }
{
    numbers.clear();
    for number in 0..count {
        numbers.push_reserved(number);
    }
}

// Lists the numbers of all of so many symbols, where all are there.
pub(crate) fn list_all(numbers: &mut Vec<usize>, are_all: bool, count: usize)
    requires { count ≤ vec_capacity numbers.old }
    ensures items { numbers.new.items ≡ numbers_there are_all count numbers.old.items }
    ensures room { vec_capacity numbers.new ≡ vec_capacity numbers.old }
{
    if are_all {
        fill(numbers, count);
    }
}

// Whether a number is one of those that rise.
fn is_among(numbers: &[usize], number: usize) -> bool
    requires { IsNonDecreasing numbers.now }
    ensures { result ≡ is_one_of numbers.now number }
{
    numbers.binary_search(&number).is_ok()
}

// Leaves those numbers that don't go.
fn retain_others(numbers: &mut Vec<usize>, gone: &[usize])
    requires { IsNonDecreasing gone.now }
    ensures items { numbers.new.items ≡ filter (stays gone.now) numbers.old.items }
    ensures room { vec_capacity numbers.new ≡ vec_capacity numbers.old }
{
    numbers.retain(|number| !is_among(gone, *number));
}

// Lists the numbers from 0 on, as many as that, but for those that go. There is room for all.
fn fill_others(numbers: &mut Vec<usize>, count: usize, gone: &[usize])
    requires room { count ≤ vec_capacity numbers.old }
    requires rising { IsNonDecreasing gone.now }
    ensures items { numbers.new.items ≡ filter (stays gone.now) (counted count) }
    ensures room { vec_capacity numbers.new ≡ vec_capacity numbers.old }
{
    numbers.clear();
    for number in 0..count {
        if !is_among(gone, number) {
            numbers.push_reserved(number);
        }
    }
}

// Lists the numbers that don't go, of all of so many symbols, or of those that are there.
pub(crate) fn list_others(numbers: &mut Vec<usize>, are_all: bool, count: usize, gone: &[usize])
    requires room { count ≤ vec_capacity numbers.old }
    requires rising { IsNonDecreasing gone.now }
    ensures items { numbers.new.items
        ≡ filter (stays gone.now) (numbers_there are_all count numbers.old.items) }
    ensures room { vec_capacity numbers.new ≡ vec_capacity numbers.old }
{
    if are_all {
        fill_others(numbers, count, gone);
    } else {
        retain_others(numbers, gone);
    }
}

// A copy of numbers, with room for so many.
pub(crate) fn copy_numbers(
    alloc: Global,
    numbers: &[usize],
    room: usize,
) -> Result<Vec<usize>, AllocError>
    ensures items { IfOk result (λ copy. copy.items ≡ numbers.now) }
    ensures room { IfOk result (λ copy. room ≤ vec_capacity copy) }
{
    let mut copy = Vec::with_capacity(alloc, room)?;
    copy.extend_from_slice(numbers)?;
    Ok(copy)
}
