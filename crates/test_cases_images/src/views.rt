//! What the plain readers show of a file.

use std::alloc::Global;
use std::io;
use test_cases_written::words::number;
use test_elf_plain::{ShownView, ViewFault, loader_view, section_view};

/// Prints what a file shows through its section headers.
pub(crate) fn print_by_sections(rt: &HostRuntime, bytes: &[u8]) -> io::Result<()> {
    println!(rt; "{:?}", by_sections(rt.alloc(), bytes))
}

/// The view, made again where memory was refused.
fn by_sections(alloc: Global, bytes: &[u8]) -> Result<ShownView<'_>, ViewFault> {
    match section_view(alloc, bytes) {
        Err(ViewFault::Memory) => section_view(alloc, bytes),
        view => view,
    }
}

/// Prints what a loader sees that is told of so many symbols.
pub(crate) fn print_loaded(rt: &HostRuntime, bytes: &[u8], words: &str) -> io::Result<()> {
    println!(rt; "{:?}", loaded(rt.alloc(), bytes, number(words)))
}

/// The view, made again where memory was refused.
fn loaded(alloc: Global, bytes: &[u8], count: u64) -> Result<ShownView<'_>, ViewFault> {
    match loader_view(alloc, bytes, count) {
        Err(ViewFault::Memory) => loader_view(alloc, bytes, count),
        view => view,
    }
}
