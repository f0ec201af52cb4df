//! The calls of the layout one by one: new sizes, the sections that move, the plan by these sizes.
ghost use Rattle.std.specs.Prelude.{◌≡◌};
ghost use Rattle.elf_layout_plan.specs.Refusals.{sizes_of_image};

use crate::plans::lines::put_plan;
use elf_image::Builder;
use elf_layout::{LayoutFault, find_move_sections, move_sections, sizes_of};
use std::alloc::{AllocError, Global};

/// Puts down the new sizes of an image's sections, which of them move with more and more program headers, and the plan by
/// these sizes.
pub(crate) fn put_steps(
    alloc: Global,
    image: &Builder<'_>,
    out: &mut String,
) -> Result<(), AllocError> {
    match sizes_of(alloc, image) {
        Ok(sizes) => put_sized(alloc, image, sizes.as_slice(), out),
        Err(fault) => put_fault(fault, out),
    }
}

/// Puts down what comes of these sizes.
fn put_sized(
    alloc: Global,
    image: &Builder<'_>,
    sizes: &[u64],
    out: &mut String,
) -> Result<(), AllocError>
    requires { sizes.now ≡ sizes_of_image image.now }
{
    put_sizes(sizes, out)?;
    put_moved(alloc, image, sizes, 0, out)?;
    put_moved(alloc, image, sizes, 1, out)?;
    put_moved(alloc, image, sizes, 2, out)?;
    put_by_sizes(alloc, image, sizes, out)
}

/// Puts down the line of the sizes.
fn put_sizes(sizes: &[u64], out: &mut String) -> Result<(), AllocError> {
    out.push_str("sizes")?;
    for size in sizes {
        write!(out, " {size:x}")?;
    }
    out.push('\n')
}

/// Puts down the line of the sections that move with so many program headers more.
fn put_moved(
    alloc: Global,
    image: &Builder<'_>,
    sizes: &[u64],
    added: usize,
    out: &mut String,
) -> Result<(), AllocError>
    requires { sizes.now ≡ sizes_of_image image.now }
{
    match find_move_sections(alloc, image, sizes, added) {
        Ok(moved) => put_positions(added, moved.as_slice(), out),
        Err(fault) => put_stuck(added, fault, out),
    }
}

/// Puts down positions of sections.
fn put_positions(added: usize, positions: &[usize], out: &mut String) -> Result<(), AllocError> {
    write!(out, "with {added} more, moved:")?;
    for position in positions {
        write!(out, " {position}")?;
    }
    out.push('\n')
}

/// Puts down why no sections are found to move.
fn put_stuck(added: usize, fault: LayoutFault, out: &mut String) -> Result<(), AllocError> {
    write!(out, "with {added} more, ")?;
    put_fault(fault, out)
}

/// Puts down the plan by these sizes, or why there is none.
fn put_by_sizes(
    alloc: Global,
    image: &Builder<'_>,
    sizes: &[u64],
    out: &mut String,
) -> Result<(), AllocError>
    requires { sizes.now ≡ sizes_of_image image.now }
{
    match move_sections(alloc, image, sizes) {
        Ok(plan) => put_plan(&plan, out),
        Err(fault) => put_fault(fault, out),
    }
}

/// Puts down a fault, but for want of memory.
pub(crate) fn put_fault(fault: LayoutFault, out: &mut String) -> Result<(), AllocError> {
    match fault {
        LayoutFault::Memory => Err(AllocError),
        _ => writeln!(out, "{fault}"),
    }
}
