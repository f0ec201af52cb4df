//! What the writer and the container read of a file.

use crate::edits::tell;
use crate::rows::Text;
use arwen_elf::elf::{BuilderExt, ElfContainer, ElfError, Writer};
use std::alloc::Global;
use std::io;

/// Prints what the writer and the container read.
pub(crate) fn print_file(rt: &HostRuntime, file: &ElfContainer<'_>) -> io::Result<()> {
    println!(rt; "{:?}", (texts(&file.inner), numbers(file)))?;
    println!(rt; "stack {:?}", stack(&file.inner))?;
    print_needed(rt, &file.inner)?;
    print_directories(rt, file)
}

/// The run path, the file's own name and its interpreter.
fn texts<'f>(file: &'f Writer<'_>) -> [Option<&'f [u8]>; 3] {
    [
        file.elf_runpath(),
        file.elf_soname(),
        file.elf_interpreter(),
    ]
}

/// Type, machine, ABI byte, page size both ways, and whether the file holds its bytes.
fn numbers(file: &ElfContainer<'_>) -> ([u32; 5], bool) {
    let header = file.inner.header();
    let numbers = [
        header.e_type as u32,
        header.e_machine as u32,
        header.os_abi as u32,
        file.inner.elf_get_page_size(),
        file.get_page_size(),
    ];
    (numbers, file.bytes() == file.inner.builder().source())
}

/// The flags of the stack, both ways, and its alignment.
fn stack(file: &Writer<'_>) -> (Option<u32>, Option<u32>, Option<u64>) {
    let header = file.builder().gnu_stack();
    (
        file.elf_gnu_exec_stack(),
        header.map(|stack| stack.p_flags()),
        header.map(|stack| stack.p_align()),
    )
}

fn print_needed(rt: &HostRuntime, file: &Writer<'_>) -> io::Result<()> {
    for text in file.elf_needed() {
        println!(rt; "needed {}", Text(text))?;
    }
    Ok(())
}

/// The directories of the run path, asked for again where memory was refused.
fn directories(alloc: Global, file: &ElfContainer<'_>) -> Result<Vec<String>, ElfError> {
    match file.get_rpath(alloc) {
        Err(ElfError::Memory) => file.get_rpath(alloc),
        made => made,
    }
}

fn print_directories(rt: &HostRuntime, file: &ElfContainer<'_>) -> io::Result<()> {
    match directories(rt.alloc(), file) {
        Ok(directories) => println!(rt; "directories {directories:?}"),
        Err(error) => tell(rt, &error),
    }
}
