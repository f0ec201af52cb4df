//! The names by which numbers of a file are told.
ghost use Rattle.std.specs.Prelude.{◌≡◌, ◌++◌, IfOk, OnOk, option_map, string_bytes};
ghost use Rattle.elf_image.specs.Answers.{borrowed};
ghost use Rattle.arwen_cli_facts.specs.Names.{bits_of, cpu_name as cpu_told, file_type_name as file_type_told, flag_names as flags_told, kind_name as kind_told, later_machine_name as later_machine_told, letter as letter_told, machine_name as machine_told, name_if, name_or as name_or_told, order_name as order_told, permissions as permissions_told};
ghost use Rattle.arwen_cli_facts.specs.Texts.{texts_model};

use crate::elf::{DF_1_PIE, ElfKind};
use patch_bytes::{ByteOrder2, Wide};
use std::alloc::{AllocError, Global};

/// What an ELF file is for, in words.
pub fn kind_name(kind: ElfKind) -> &'static str
    ensures { result.now ≡ kind_told kind }
{
    match kind {
        ElfKind::Program => "program",
        ElfKind::PieProgram => "position-independent program",
        ElfKind::StaticPie => "static position-independent program",
        ElfKind::Library => "library",
    }
}

/// The name of an ELF file's machine (gABI, ELF Header, `e_machine`); `None` for one that has none here.
#[tactic(auto, unfolding(crate::specs::Names::machine_name))]
pub fn machine_name(machine: u16) -> Option<&'static str>
    ensures { option_map borrowed result ≡ machine_told machine }
{
    match machine {
        3 => Some("i386"),
        8 => Some("mips"),
        20 => Some("powerpc"),
        21 => Some("powerpc64"),
        22 => Some("s390"),
        40 => Some("arm"),
        _ => later_machine_name(machine),
    }
}

#[tactic(auto, unfolding(crate::specs::Names::later_machine_name))]
fn later_machine_name(machine: u16) -> Option<&'static str>
    ensures { option_map borrowed result ≡ later_machine_told machine }
{
    match machine {
        43 => Some("sparcv9"),
        62 => Some("x86-64"),
        183 => Some("aarch64"),
        243 => Some("riscv"),
        258 => Some("loongarch"),
        _ => None,
    }
}

/// The name of a Mach-O file's processor (mach/machine.h, `cputype`); `None` for one that has none here.
#[tactic(auto, unfolding(crate::specs::Names::cpu_name))]
pub fn cpu_name(cpu: u32) -> Option<&'static str>
    ensures { option_map borrowed result ≡ cpu_told cpu }
{
    match cpu {
        0x7 => Some("i386"),
        0xc => Some("arm"),
        0x12 => Some("ppc"),
        0x100_0007 => Some("x86_64"),
        0x100_000c => Some("arm64"),
        0x100_0012 => Some("ppc64"),
        0x200_000c => Some("arm64_32"),
        _ => None,
    }
}

/// The name of a Mach-O file's type (loader.h, `filetype`); `None` for one that has none here.
#[tactic(auto, unfolding(crate::specs::Names::file_type_name))]
pub fn file_type_name(file_type: u32) -> Option<&'static str>
    ensures { option_map borrowed result ≡ file_type_told file_type }
{
    match file_type {
        1 => Some("object"),
        2 => Some("program"),
        6 => Some("library"),
        7 => Some("loader"),
        8 => Some("bundle"),
        9 => Some("stub"),
        10 => Some("debug"),
        _ => None,
    }
}

/// How many bits the addresses of a file have.
pub fn bits(wide: Wide) -> u64
    ensures { result ≡ bits_of wide }
{
    match wide {
        Wide::W32 => 32,
        Wide::W64 => 64,
    }
}

/// The name of a byte order.
pub fn order_name(order: ByteOrder2) -> &'static str
    ensures { result.now ≡ order_told order }
{
    match order {
        ByteOrder2::Little => "little",
        ByteOrder2::Big => "big",
    }
}

/// A name, or the number in decimal where there is none.
pub fn name_or(alloc: Global, name: Option<&str>, number: u64) -> Result<String, AllocError>
    ensures { IfOk result (λ text.
        string_bytes text ≡ name_or_told (option_map borrowed name.entry) number) }
{
    match name {
        None => number.to_string(alloc),
        Some(name) => String::from_str(alloc, name),
    }
}

/// A letter where a bit is set, else a dash.
fn letter(flags: u32, bit: u32, name: &'static str) -> &'static str
    ensures { result.now ≡ letter_told flags bit name.now }
{
    if flags & bit == 0 { "-" } else { name }
}

/// Whether memory may be read, written and run, as `rw-` (gABI, Program Header, `p_flags`).
#[tactic(auto, unfolding(crate::specs::Names::permissions))]
pub fn permissions(alloc: Global, flags: u32) -> Result<String, AllocError>
    ensures { IfOk result (λ text. string_bytes text ≡ permissions_told flags) }
{
    let mut text = String::new(alloc);
    text.push_str(letter(flags, 4, "r"))?;
    text.push_str(letter(flags, 2, "w"))?;
    text.push_str(letter(flags, 1, "x"))?;
    Ok(text)
}

/// The names of the flags of DT_FLAGS_1 that have one here, the lowest bit first.
#[tactic(auto, unfolding(crate::specs::Names::flag_names))]
pub fn flag_names(alloc: Global, flags: u64) -> Result<Vec<String>, AllocError>
    ensures { IfOk result (λ names. texts_model names.items ≡ flags_told flags) }
{
    let mut names = Vec::new(alloc);
    put_name_if(alloc, &mut names, flags, 0x1, "NOW")?;
    put_name_if(alloc, &mut names, flags, 0x8, "NODELETE")?;
    put_name_if(alloc, &mut names, flags, 0x20, "INITFIRST")?;
    put_name_if(alloc, &mut names, flags, 0x80, "ORIGIN")?;
    put_name_if(alloc, &mut names, flags, 0x800, "NODEFLIB")?;
    put_name_if(alloc, &mut names, flags, DF_1_PIE, "PIE")?;
    Ok(names)
}

/// Puts a name behind others where a bit is set.
fn put_name_if(
    alloc: Global,
    names: &mut Vec<String>,
    flags: u64,
    bit: u64,
    name: &str,
) -> Result<(), AllocError>
    ensures { OnOk result (texts_model names.new.items
        ≡ texts_model names.old.items ++ name_if flags bit name.now) }
{
    if flags & bit != 0 {
        names.push(String::from_str(alloc, name)?)?;
    }
    Ok(())
}
