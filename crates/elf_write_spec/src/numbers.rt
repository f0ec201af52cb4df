//! The new numbers of symbols that stand in another order.
ghost use Rattle.std.specs.Prelude.{◌≡◌, ◌↔◌, ◌^◌, ◌<◌, ◌≤◌, length, IfOk, IsPermutation, MatchResult};
ghost use Rattle.elf_format.specs.Image.{counted};
ghost use Rattle.elf_tables.specs.declared.fault.TableFault.TheVariants.{NumberTooLarge};
ghost use Rattle.elf_write_spec.specs.Inverse.{IsInverse};

use elf_tables::TableFault;
use std::alloc::{AllocError, Global};

// Puts at each position of an order where that stands in it.
fn invert(numbers: &mut [u32], order: &[usize])
    requires long { length numbers.old ≡ length order.now }
    requires fits { length order.now ≤ 2 ^ 32 }
    requires once { IsPermutation (counted (length order.now)) order.now }
    ensures { IsInverse order.now numbers.new }
{
    for i in 0..order.len() {
        numbers[order[i]] = i as u32;
    }
}

/// The new number of each symbol where they stand in another order. `order` tells for each new position where the symbol
/// stood before, each of them once; the answer tells for each old position the new one. `NumberTooLarge` where a new
/// position is past 32 bits.
pub fn new_numbers(alloc: Global, order: &[usize]) -> Result<Vec<u32>, TableFault>
    requires { IsPermutation (counted (length order.now)) order.now }
    ensures { MatchResult result
        (λ numbers. IsInverse order.now numbers.items × (length order.now ≤ 2 ^ 32))
        (λ fault. (fault ≡ NumberTooLarge) ↔ (2 ^ 32 < length order.now)) }
{
    if order.len() as u64 > 0x1_0000_0000 {
        return Err(TableFault::NumberTooLarge);
    }
    let mut numbers = vec![in alloc; 0; order.len()]?;
    invert(numbers.as_mut_slice(), order);
    Ok(numbers)
}
