//! Why files are refused.

use crate::images::read;
use elf_image::ElfFault;
use std::alloc::Global;
use std::io;
use test_cases_written::edits::parse;
use test_cases_written::elf::{ElfError, Writer, machine_of};

/// The fault of a file as the image, the writer and the container tell it; `None` where the file is read.
type Faults = [Option<ElfFault>; 3];

/// The fault for which the image refuses a file.
fn image_fault(alloc: Global, bytes: &[u8]) -> Option<ElfFault> {
    match read(alloc, bytes) {
        Ok(_) => None,
        Err(fault) => Some(fault),
    }
}

/// The writer of a file, read again where memory was refused.
fn writer<'f>(alloc: Global, bytes: &'f [u8]) -> Result<Writer<'f>, ElfError> {
    match Writer::read(alloc, bytes) {
        Err(ElfError::Memory) => Writer::read(alloc, bytes),
        read => read,
    }
}

/// The fault of an answer; `Memory` for another error than one of a read rule.
fn fault_of<T>(answer: &Result<T, ElfError>) -> Option<ElfFault> {
    match answer {
        Ok(_) => None,
        Err(ElfError::Parse(fault)) => Some(*fault),
        Err(_) => Some(ElfFault::Memory),
    }
}

/// The fault for which the writer refuses a file.
fn writer_fault(alloc: Global, bytes: &[u8]) -> Option<ElfFault> {
    fault_of(&writer(alloc, bytes))
}

/// The fault for which the container refuses a file.
fn container_fault(alloc: Global, bytes: &[u8]) -> Option<ElfFault> {
    fault_of(&parse(alloc, bytes))
}

fn faults_of(alloc: Global, bytes: &[u8]) -> Faults {
    [
        image_fault(alloc, bytes),
        writer_fault(alloc, bytes),
        container_fault(alloc, bytes),
    ]
}

/// Prints the faults of a file.
pub(crate) fn print_faults(rt: &HostRuntime, bytes: &[u8]) -> io::Result<()> {
    println!(rt; "{:?}", faults_of(rt.alloc(), bytes))
}

/// Prints the machine that the first bytes of a file tell.
pub(crate) fn print_machine(rt: &HostRuntime, bytes: &[u8]) -> io::Result<()> {
    println!(rt; "{:?}", machine_of(bytes))
}

/// Prints how many fronts of a file all three refuse as cut, and the faults of other fronts.
pub(crate) fn print_fronts(rt: &HostRuntime, bytes: &[u8]) -> io::Result<()> {
    let mut count = 0u64;
    for n in 0..bytes.len() {
        let faults = faults_of(rt.alloc(), &bytes[..n]);
        if faults == [Some(ElfFault::Truncated); 3] {
            count = count.wrapping_add(1);
        } else {
            println!(rt; "{n} bytes: {faults:?}")?;
        }
    }
    println!(rt; "{count} fronts are truncated")
}
