//! The new numbers of symbols, by those at read.
ghost use Rattle.std.specs.Prelude.{◌≡◌, ◌<◌, ◌^◌, IfOk, length, replicate};
ghost use Rattle.elf_write_spec.specs.Final.{dynamic_order, new_dynamic_symbols, new_static_symbols};
ghost use Rattle.elf_write_spec.specs.Ready.{IsEditedReady};

use elf_image::Builder;
use std::alloc::{AllocError, Global};

/// The new numbers of the symbols of a table (gABI, Symbol Table).
#[derive(Debug, Drop)]
pub struct NewNumbers {
    /// The number at read of the table's section (gABI, Sections); `None` where no such section is there.
    pub table: Option<usize>,
    /// For each number at read, the new one; 0 where the symbol isn't there.
    pub numbers: Vec<u32>,
}

// Puts at the number at read of each dynamic symbol its place in the new order.
fn number_dynamic(numbers: &mut [u32], read: &Builder<'_>, image: &Builder<'_>, order: &[usize])
    requires ready { IsEditedReady read.now image.now }
    requires order { order.now ≡ dynamic_order read.now image.now }
    requires few { length image.now.dynamic_symbols < 2 ^ 32 }
    requires none { numbers.old ≡ replicate (length read.now.dynamic_symbols) 0 }
    ensures { numbers.new ≡ new_dynamic_symbols read.now image.now }
{
    let symbols = image.dynamic_symbols();
    for i in 0..order.len() {
        let number = symbols.read_number(order[i]);
        numbers[number] = i as u32;
    }
}

// The new number of each dynamic symbol that was read, for symbols in their new order.
pub(crate) fn dynamic_numbers(
    alloc: Global,
    read: &Builder<'_>,
    image: &Builder<'_>,
    order: &[usize],
) -> Result<Vec<u32>, AllocError>
    requires ready { IsEditedReady read.now image.now }
    requires order { order.now ≡ dynamic_order read.now image.now }
    requires few { length image.now.dynamic_symbols < 2 ^ 32 }
    ensures { IfOk result (λ numbers. numbers.items ≡ new_dynamic_symbols read.now image.now) }
{
    let mut numbers = vec![in alloc; 0; read.dynamic_symbols().len()]?;
    number_dynamic(numbers.as_mut_slice(), read, image, order);
    Ok(numbers)
}

// Puts at the number at read of each static symbol where the symbol stands.
fn number_static(numbers: &mut [u32], read: &Builder<'_>, image: &Builder<'_>)
    requires ready { IsEditedReady read.now image.now }
    requires few { length image.now.symbols < 2 ^ 32 }
    requires none { numbers.old ≡ replicate (length read.now.symbols) 0 }
    ensures { numbers.new ≡ new_static_symbols read.now image.now }
{
    let symbols = image.symbols();
    for i in 0..symbols.len() {
        let number = symbols.read_number(i);
        numbers[number] = i as u32;
    }
}

// The new number of each static symbol that was read.
pub(crate) fn static_numbers(
    alloc: Global,
    read: &Builder<'_>,
    image: &Builder<'_>,
) -> Result<Vec<u32>, AllocError>
    requires ready { IsEditedReady read.now image.now }
    requires few { length image.now.symbols < 2 ^ 32 }
    ensures { IfOk result (λ numbers. numbers.items ≡ new_static_symbols read.now image.now) }
{
    let mut numbers = vec![in alloc; 0; read.symbols().len()]?;
    number_static(numbers.as_mut_slice(), read, image);
    Ok(numbers)
}
