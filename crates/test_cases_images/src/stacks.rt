//! The calls on the program header for the stack.

use elf_image::Builder;
use std::alloc::{AllocError, Global};
use std::io;
use test_cases_written::edits::tell;
use test_cases_written::elf::{BuilderExt, ElfError};
use test_cases_written::words::{first, number};

/// Prints what comes of a call whose lent flags are set, and the image.
pub(crate) fn print_stack(
    rt: &HostRuntime,
    image: &mut Builder<'_>,
    words: &str,
) -> io::Result<()> {
    let (call, flags) = first(words);
    let flags = u32::try_from(number(flags)).unwrap_or(0);
    tell_old(rt, set(rt.alloc(), image, call, flags))?;
    print_image(rt, image)
}

/// Prints the flags that were there, or why none were lent.
fn tell_old(rt: &HostRuntime, answer: Result<Option<u32>, ElfError>) -> io::Result<()> {
    match answer {
        Ok(old) => println!(rt; "{old:?}"),
        Err(error) => tell(rt, &error),
    }
}

/// Prints the flags of the stack, how many program headers there are, and whether something was edited.
fn print_image(rt: &HostRuntime, image: &Builder<'_>) -> io::Result<()> {
    let flags = image.stack().map(|stack| stack.p_flags());
    let (count, is_changed) = (image.segments().len(), image.changed());
    println!(rt; "stack {flags:?}, {count} headers, changed {is_changed}")
}

/// Sets the flags that are lent, where they are, and gives those that were there.
fn set(
    alloc: Global,
    image: &mut Builder<'_>,
    call: &str,
    flags: u32,
) -> Result<Option<u32>, ElfError> {
    match call {
        "stack" => Ok(replaced(image.stack_mut(), flags)),
        "gnu-stack" => Ok(replaced(image.gnu_stack_mut(), flags)),
        "add-stack" => Ok(added(alloc, image, flags)?),
        _ => had_again(alloc, image, flags),
    }
}

/// Sets flags, and gives the old ones.
fn replaced(lent: Option<&mut u32>, flags: u32) -> Option<u32> {
    match lent {
        Some(lent) => Some(std::mem::replace(lent, flags)),
        None => None,
    }
}

/// Adds a header where there is none, again where memory was refused.
fn added(alloc: Global, image: &mut Builder<'_>, flags: u32) -> Result<Option<u32>, AllocError> {
    if image.stack().is_some() {
        return Ok(None);
    }
    if let Ok(lent) = image.add_stack(alloc) {
        return Ok(Some(std::mem::replace(lent, flags)));
    }
    if image.changed() {
        return Err(AllocError);
    }
    let lent = image.add_stack(alloc)?;
    Ok(Some(std::mem::replace(lent, flags)))
}

/// Has a header.
fn had(alloc: Global, image: &mut Builder<'_>, flags: u32) -> Result<Option<u32>, ElfError> {
    let lent = image.add_gnu_stack(alloc)?;
    Ok(Some(std::mem::replace(lent, flags)))
}

/// Has a header, again where memory was refused.
fn had_again(alloc: Global, image: &mut Builder<'_>, flags: u32) -> Result<Option<u32>, ElfError> {
    match had(alloc, image, flags) {
        Err(ElfError::Memory) if !image.changed() => had(alloc, image, flags),
        answer => answer,
    }
}
