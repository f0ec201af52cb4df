//! What a writer gets of a file.

use crate::edits::tell;
use crate::taker::Taker;
use crate::words::{first, place};
use crate::written::container_bytes;
use arwen_elf::Sink;
use arwen_elf::elf::{ElfContainer, ElfError};
use std::alloc::Global;
use std::io;

/// Writes a file, once more where memory was refused and the writer has got nothing.
fn write_again(
    alloc: Global,
    file: &ElfContainer<'_>,
    sink: &mut Sink<Taker<'_>>,
) -> Result<(), ElfError> {
    match file.write(alloc, sink) {
        Err(ElfError::Memory) if sink.get_ref().taken() == Some(0) => file.write(alloc, sink),
        answer => answer,
    }
}

/// Prints what comes of writing a file to a writer that takes so many bytes, and so many at a time.
pub(crate) fn print_taken(
    rt: &HostRuntime,
    file: &ElfContainer<'_>,
    words: &str,
) -> io::Result<()> {
    let (room, step) = first(words);
    match container_bytes(rt.alloc(), file) {
        Ok(want) => print_answer(rt, file, Taker::new(&want, place(room), place(step))),
        Err(_) => print_answer(rt, file, Taker::new(&[], place(room), place(step))),
    }
}

/// Prints how many bytes a writer took, if they are the first ones that it wants, and what came of writing.
fn print_answer(rt: &HostRuntime, file: &ElfContainer<'_>, taker: Taker<'_>) -> io::Result<()> {
    let mut sink = Sink::new(taker);
    let answer = write_again(rt.alloc(), file, &mut sink);
    println!(rt; "{:?} {answer:?}", sink.get_ref().taken())
}

/// Prints how many fronts of what is written a writer gets, and then fails, that takes no more bytes than these.
pub(crate) fn print_fronts(
    rt: &HostRuntime,
    file: &ElfContainer<'_>,
    words: &str,
) -> io::Result<()> {
    match container_bytes(rt.alloc(), file) {
        Ok(want) => print_taken_fronts(rt, file, &want, place(words)),
        Err(error) => tell(rt, &error),
    }
}

/// Prints how many fronts of these bytes a writer gets, of so many bytes at a time.
fn print_taken_fronts(
    rt: &HostRuntime,
    file: &ElfContainer<'_>,
    want: &[u8],
    step: usize,
) -> io::Result<()> {
    let mut count = 0u64;
    for room in 0..want.len() {
        if is_front_taken(rt.alloc(), file, Taker::new(want, room, step), room) {
            count = count.wrapping_add(1);
        }
    }
    println!(rt; "{count} fronts are taken")
}

/// Whether a write fails for its writer, which has got so many bytes then.
fn is_front_taken(alloc: Global, file: &ElfContainer<'_>, taker: Taker<'_>, room: usize) -> bool {
    let mut sink = Sink::new(taker);
    let answer = write_again(alloc, file, &mut sink);
    matches!(answer, Err(ElfError::Io(_))) && sink.get_ref().taken() == Some(room)
}
