//! The texts of errors.

use elf_image::ElfFault;
use patch_bytes::ByteString;
use std::alloc::{AllocError, AllocFailed};
use std::{fmt, io};
use test_cases_written::elf::{ElfError, ModifyCause, ProbeAnswer, Task};
use test_elf_plain::ViewFault;

/// Prints the texts of all errors.
pub(crate) fn print_texts(rt: &HostRuntime) -> io::Result<()> {
    print_faults(rt)?;
    print_errors(rt)?;
    print_memory(rt)?;
    print_causes(rt)?;
    print_answer(rt)
}

/// Prints an error by both its texts.
fn print_error<E: fmt::Display + fmt::Debug + Drop>(rt: &HostRuntime, error: E) -> io::Result<()> {
    println!(rt; "{error:?}: {error}")
}

const FAULTS: [ElfFault; 7] = [
    ElfFault::BadMagic,
    ElfFault::Truncated,
    ElfFault::Unsupported,
    ElfFault::Disagree(8),
    ElfFault::BadText,
    ElfFault::NumberTooLarge,
    ElfFault::Memory,
];

fn print_faults(rt: &HostRuntime) -> io::Result<()> {
    for fault in FAULTS {
        print_error(rt, fault)?;
    }
    print_error(rt, ViewFault::Absent)?;
    print_error(rt, ViewFault::Memory)
}

fn print_errors(rt: &HostRuntime) -> io::Result<()> {
    print_elf_error(rt, io::Error::from(io::ErrorKind::NotFound).into())?;
    print_elf_error(rt, ElfFault::Disagree(4).into())?;
    print_elf_error(rt, ElfError::Write(ElfFault::NumberTooLarge))?;
    print_elf_error(rt, ElfError::Modify(ModifyCause::Overlap))?;
    print_elf_error(rt, ElfError::InvalidDtNeededEncoding)
}

fn print_elf_error(rt: &HostRuntime, error: ElfError) -> io::Result<()> {
    print_error(rt, error)
}

/// Prints what want of memory becomes.
fn print_memory(rt: &HostRuntime) -> io::Result<()> {
    print_elf_error(rt, ElfError::Memory)?;
    print_elf_error(rt, ElfFault::Memory.into())?;
    print_elf_error(rt, AllocError.into())?;
    print_elf_error(rt, AllocFailed { value: 1u8 }.into())
}

/// The causes that have no values.
fn cause(number: u32) -> ModifyCause {
    match number {
        0 => ModifyCause::NoDynamic(Task::SetRpath),
        1 => ModifyCause::NoInterp,
        2 => ModifyCause::BadPageSize(1000),
        3 => ModifyCause::NoRunPath,
        4 => ModifyCause::Overlap,
        5 => ModifyCause::NulInText,
        6 => ModifyCause::MipsImage,
        7 => ModifyCause::SymbolInRelocation,
        8 => ModifyCause::CannotRenumber,
        9 => ModifyCause::SectionInUse,
        _ => ModifyCause::TooManyHeaders,
    }
}

fn print_causes(rt: &HostRuntime) -> io::Result<()> {
    for number in 0..11 {
        print_error(rt, cause(number))?;
    }
    match String::from_str(rt.alloc(), "ns") {
        Err(_) => print_error(
            rt,
            ModifyCause::UnknownAbi(String::from_str(rt.alloc(), "ns")?),
        ),
        Ok(name) => print_error(rt, ModifyCause::UnknownAbi(name)),
    }
}

fn print_answer(rt: &HostRuntime) -> io::Result<()> {
    let answer = ProbeAnswer {
        directory: ByteString::borrowed(b"/a"),
        needed: ByteString::borrowed(b"b"),
        machine: Some(62),
    };
    println!(rt; "{answer:?}")
}
