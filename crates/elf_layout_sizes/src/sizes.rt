ghost use Rattle.std.specs.Prelude.{◌≡◌, IfErr, IfOk, IfSome, IsTrue, MatchResult, OnOk, false, true};
ghost use Rattle.elf_image.specs.Kept.{image_at_read};
ghost use Rattle.elf_layout_plan.specs.Refusals.{AreNoSizes, do_sizes_of_image_fit, sizes_of_image};
ghost use Rattle.elf_layout_plan.specs.Sizes.{do_sizes_fit, new_sizes};
ghost use Rattle.elf_layout_sizes.specs.MadeTables.{IsMadeOfDynamic};
ghost use Rattle.elf_layout_plan.specs.TableFault.TheVariants.{NumberTooLarge};

use crate::kinds::Sizing;
use elf_layout_plan::{Builder, Finished, LayoutFault, TableFault, read_source};
use std::alloc::Global;

/// The new size of each section in bytes, in the order of the sections. `NumberTooLarge` where a size, or the offset of a
/// text in a string table that is made anew, is past its field.
pub fn sizes_of(alloc: Global, image: &Builder<'_>) -> Result<Vec<u64>, LayoutFault>
    ensures sizes { IfOk result (λ sizes. sizes.items ≡ sizes_of_image image.now) }
    ensures fit { OnOk result (IsTrue (do_sizes_of_image_fit image.now)) }
    ensures fault { IfErr result (AreNoSizes image.now) }
{
    let read = read_source(alloc, image)?;
    new_sizes_of(alloc, &read, image)
}

/// The new sizes of the sections, and the table of the dynamic strings, where it is made anew and was made for them.
#[derive(Drop)]
pub struct NewSizes<'t> {
    pub sizes: Vec<u64>,
    pub strings: Option<Finished<'t>>,
}

// The new sizes and the string table, with the fault of a table.
fn gathered<'a, 'data>(
    alloc: Global,
    read: &'a Builder<'data>,
    image: &'a Builder<'data>,
) -> Result<NewSizes<'a>, TableFault>
    requires { read.now ≡ image_at_read image.now }
    ensures sizes { MatchResult result
        (λ new. (new.sizes.items ≡ new_sizes read.entry.now image.entry.now)
        × (do_sizes_fit read.entry.now image.entry.now ≡ true))
        (λ fault. fault ≡ NumberTooLarge
        → do_sizes_fit read.entry.now image.entry.now ≡ false) }
    ensures strings { IfOk result (λ new.
        IfSome new.strings (IsMadeOfDynamic read.entry.now image.entry.now)) }
{
    let sizing = Sizing::new(alloc, read, image)?;
    let sizes = sizing.sizes(alloc)?;
    Ok(NewSizes {
        sizes,
        strings: sizing.into_strings(),
    })
}

/// The new sizes, as `sizes_of` tells them, with the table of the dynamic strings where it was made anew for them, for
/// a caller that has the image as its source was read.
pub fn new_sizes_with_strings<'a, 'data>(
    alloc: Global,
    read: &'a Builder<'data>,
    image: &'a Builder<'data>,
) -> Result<NewSizes<'a>, LayoutFault>
    requires { read.now ≡ image_at_read image.now }
    ensures sizes { IfOk result (λ new. new.sizes.items ≡ sizes_of_image image.entry.now) }
    ensures strings { IfOk result (λ new.
        IfSome new.strings (IsMadeOfDynamic read.entry.now image.entry.now)) }
    ensures fit { OnOk result (IsTrue (do_sizes_of_image_fit image.entry.now)) }
    ensures fault { IfErr result (AreNoSizes image.entry.now) }
{
    let new = gathered(alloc, read, image)?;
    Ok(new)
}

/// The new sizes, as `sizes_of` tells them, for a caller that has the image as its source was read.
pub fn new_sizes_of<'data>(
    alloc: Global,
    read: &Builder<'data>,
    image: &Builder<'data>,
) -> Result<Vec<u64>, LayoutFault>
    requires { read.now ≡ image_at_read image.now }
    ensures sizes { IfOk result (λ sizes. sizes.items ≡ sizes_of_image image.now) }
    ensures fit { OnOk result (IsTrue (do_sizes_of_image_fit image.now)) }
    ensures fault { IfErr result (AreNoSizes image.now) }
{
    let new = new_sizes_with_strings(alloc, read, image)?;
    Ok(new.sizes)
}
