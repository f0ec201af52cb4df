//! What is printed of files, as `patchelf` has it.
ghost use Rattle.std.specs.Prelude.{◌≡◌, IfErr, IfOk, OnOk, option_map, string_bytes};
ghost use Rattle.std.specs.Io.KnownBytes.{Appends};
ghost use Rattle.elf_image.specs.Answers.{borrowed};
ghost use Rattle.elf_image.specs.Image.{shown};
ghost use Rattle.arwen_cli_patchelf.specs.PrintTexts.{abi_line as abi_told, abi_name as abi_named, is_absent as absent_told, later_abi_name as later_abi_named, line_or_empty as or_empty_line, print_text as text_told, stack_line as stack_told};
ghost use Rattle.arwen_cli_patchelf.specs.Printing.{IsTextOf, TellsNoText};
ghost use Rattle.arwen_cli_patchelf.specs.declared.printing.Print.TheVariants.{RunPath};

use crate::error::PatchelfError;
use crate::printing::Print;
use elf_commands::files::{ElfContainer, ElfError};
use elf_image::constants::PF_X;
use std::alloc::{AllocError, Global};
use std::io::Write;

/// What is printed of a file.
///
/// # Errors
///
/// `Absent` where the file has no place for it; else `Memory` alone.
pub(crate) fn text_of(
    alloc: Global,
    elf: &ElfContainer<'_>,
    print: Print,
) -> Result<Vec<u8>, PatchelfError>
    ensures is { IfOk result (λ text. IsTextOf print (shown elf.now.inner) text.items) }
    ensures err { IfErr result (TellsNoText print (shown elf.now.inner)) }
{
    if is_absent(elf, print) {
        return Err(PatchelfError::Absent(print));
    }
    Ok(print_text(alloc, elf, print)?)
}

/// Whether a file has no place for what is to be printed.
fn is_absent(elf: &ElfContainer<'_>, print: Print) -> bool
    ensures { result ≡ absent_told print (shown elf.now.inner) }
{
    match print {
        Print::Interpreter => elf.inner.elf_interpreter().is_none(),
        Print::RunPath | Print::Needed => elf.inner.builder().dynamic_data().is_none(),
        Print::OsAbi | Print::Soname | Print::ExecStack => false,
    }
}

/// What is printed of a file that has a place for it.
fn print_text(alloc: Global, elf: &ElfContainer<'_>, print: Print) -> Result<Vec<u8>, AllocError>
    ensures { IfOk result (λ text. text.items ≡ text_told print (shown elf.now.inner)) }
{
    let mut text = Vec::new(alloc);
    match put_text(alloc, elf, print, &mut text) {
        Ok(()) => Ok(text),
        Err(_) => Err(AllocError),
    }
}

/// Writes what is printed of a file.
fn put_text<W: Write>(
    alloc: Global,
    elf: &ElfContainer<'_>,
    print: Print,
    out: &mut W,
) -> Result<(), ElfError>
    ensures { OnOk result (Appends (W.contents out.old) (W.contents out.new)
        (text_told print (shown elf.now.inner))) }
{
    match print {
        Print::Interpreter => elf.print_interpreter(alloc, out),
        Print::OsAbi => put_abi(alloc, elf.inner.header().os_abi, out),
        Print::Soname => elf.print_soname(alloc, out),
        Print::RunPath => put_run_path(alloc, elf, out),
        Print::ExecStack => put_stack(elf.inner.elf_gnu_exec_stack(), out),
        Print::Needed => elf.print_needed(alloc, out),
    }
}

/// Writes the line of the first run path, an empty one where there is none.
fn put_run_path<W: Write>(
    alloc: Global,
    elf: &ElfContainer<'_>,
    out: &mut W,
) -> Result<(), ElfError>
    ensures { OnOk result (Appends (W.contents out.old) (W.contents out.new)
        (text_told RunPath (shown elf.now.inner))) }
{
    let line = run_path_line(alloc, elf)?;
    let answer = out.write_all(line.as_slice());
    drop(line);
    Ok(answer?)
}

/// The line of the first run path, an empty one where there is none.
fn run_path_line(alloc: Global, elf: &ElfContainer<'_>) -> Result<Vec<u8>, AllocError>
    ensures { IfOk result (λ line. line.items ≡ text_told RunPath (shown elf.now.inner)) }
{
    let mut line = Vec::new(alloc);
    match elf.print_runpath(alloc, &mut line) {
        Ok(()) => line_or_empty(line),
        Err(_) => Err(AllocError),
    }
}

/// A line, or an empty one in place of nothing.
fn line_or_empty(mut line: Vec<u8>) -> Result<Vec<u8>, AllocError>
    ensures { IfOk result (λ new. new.items ≡ or_empty_line line.items) }
{
    if line.is_empty() {
        line.push(b'\n')?;
    }
    Ok(line)
}

/// Writes the line of an ABI byte.
fn put_abi<W: Write>(alloc: Global, abi: u8, out: &mut W) -> Result<(), ElfError>
    ensures { OnOk result (Appends (W.contents out.old) (W.contents out.new) (abi_told abi)) }
{
    let line = abi_line(alloc, abi)?;
    let answer = out.write_all(line.as_bytes());
    drop(line);
    Ok(answer?)
}

/// The line of an ABI byte: its name, or the byte in hex where it has none.
#[tactic(auto, using(std::proofs::lemmas::Fmt::hex_byte))]
fn abi_line(alloc: Global, abi: u8) -> Result<String, AllocError>
    ensures { IfOk result (λ line. string_bytes line ≡ abi_told abi) }
{
    match abi_name(abi) {
        Some(name) => format!(in alloc; "{name}\n"),
        None => format!(in alloc; "0x{abi:02X}\n"),
    }
}

/// The name of an ABI (gABI, ELF Identification, `EI_OSABI`); `None` for one that has none in patchelf.
#[tactic(auto, unfolding(crate::specs::PrintTexts::abi_name))]
fn abi_name(abi: u8) -> Option<&'static str>
    ensures { option_map borrowed result ≡ abi_named abi }
{
    match abi {
        0 => Some("System V"),
        1 => Some("HP-UX"),
        2 => Some("NetBSD"),
        3 => Some("Linux"),
        4 => Some("GNU Hurd"),
        6 => Some("Solaris"),
        _ => later_abi_name(abi),
    }
}

#[tactic(auto, unfolding(crate::specs::PrintTexts::later_abi_name))]
fn later_abi_name(abi: u8) -> Option<&'static str>
    ensures { option_map borrowed result ≡ later_abi_named abi }
{
    match abi {
        7 => Some("AIX"),
        8 => Some("IRIX"),
        9 => Some("FreeBSD"),
        10 => Some("Tru64"),
        12 => Some("OpenBSD"),
        13 => Some("OpenVMS"),
        _ => None,
    }
}

/// Writes the line of the stack's flags.
fn put_stack<W: Write>(flags: Option<u32>, out: &mut W) -> Result<(), ElfError>
    ensures { OnOk result (Appends (W.contents out.old) (W.contents out.new) (stack_told flags)) }
{
    Ok(out.write_all(stack_line(flags))?)
}

/// The line of the stack's flags: whether it may be run, as the first PT_GNU_STACK says (GNU extension).
fn stack_line(flags: Option<u32>) -> &'static [u8]
    ensures { result.now ≡ stack_told flags }
{
    match flags {
        None => b"execstack: ?\n",
        Some(flags) if flags & PF_X == 0 => b"execstack: -\n",
        Some(_) => b"execstack: X\n",
    }
}
