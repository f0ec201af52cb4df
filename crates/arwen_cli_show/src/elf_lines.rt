//! What is told of an ELF file, as lines.
ghost use Rattle.std.specs.Prelude.{◌≡◌, ◌++◌, OnOk, codes, map, option_map, string_bytes, unwrap_or};
ghost use Rattle.std.specs.List.{flat_map};
ghost use Rattle.arwen_cli_facts.specs.ElfFacts.{elf_model, library_model};
ghost use Rattle.arwen_cli_show.specs.Lines.{elf_head_lines, elf_lines, elf_name_lines, elf_tail_lines, library_lines, line, line_if, lines};
ghost use Rattle.arwen_cli_facts.specs.Names.{flag_names as flags_told, machine_name as machine_told, name_or as name_or_told, permissions as permissions_told};

use crate::lines::{put_line, put_line_if, put_lines, put_number, put_number_if};
use arwen_cli_facts::elf::{ElfSummary, NeededLibrary};
use arwen_cli_facts::names::{
    bits, flag_names, kind_name, machine_name, name_or, order_name, permissions,
};
use std::alloc::{AllocError, Global};

/// Puts the lines of an ELF file behind a text.
#[tactic(auto, unfolding(crate::specs::Lines::elf_lines))]
pub(crate) fn put_elf(alloc: Global, out: &mut String, s: &ElfSummary) -> Result<(), AllocError>
    ensures { OnOk result
        (string_bytes out.new ≡ string_bytes out.old ++ elf_lines (elf_model s.now)) }
{
    put_head(alloc, out, s)?;
    put_names(out, s)?;
    put_tail(alloc, out, s)
}

/// What the file header says.
#[tactic(auto, unfolding(crate::specs::Lines::elf_head_lines))]
fn put_head(alloc: Global, out: &mut String, s: &ElfSummary) -> Result<(), AllocError>
    ensures { OnOk result
        (string_bytes out.new ≡ string_bytes out.old ++ elf_head_lines (elf_model s.now)) }
{
    put_line(out, "format", "elf")?;
    put_line(out, "kind", kind_name(s.kind))?;
    put_machine(alloc, out, s.machine)?;
    put_number(alloc, out, "class", bits(s.form.wide))?;
    put_line(out, "byte_order", order_name(s.form.order))?;
    put_number(alloc, out, "os_abi", u64::from(s.os_abi))
}

/// The machine.
fn put_machine(alloc: Global, out: &mut String, machine: u16) -> Result<(), AllocError>
    ensures { OnOk result (string_bytes out.new ≡ string_bytes out.old
        ++ line (codes "machine") (name_or_told (machine_told machine) machine)) }
{
    let name = name_or(alloc, machine_name(machine), u64::from(machine))?;
    put_line(out, "machine", name.as_str())
}

/// The texts that a loader goes by.
#[tactic(auto, unfolding(crate::specs::Lines::elf_name_lines))]
fn put_names(out: &mut String, s: &ElfSummary) -> Result<(), AllocError>
    ensures { OnOk result
        (string_bytes out.new ≡ string_bytes out.old ++ elf_name_lines (elf_model s.now)) }
{
    put_line_if(out, "interpreter", &s.interpreter)?;
    put_line_if(out, "soname", &s.soname)?;
    put_needed(out, s.needed.as_slice())?;
    put_line_if(out, "rpath", &s.rpath)?;
    put_line_if(out, "runpath", &s.runpath)
}

/// The needed libraries with the versions that are needed of each.
fn put_needed(out: &mut String, needed: &[NeededLibrary]) -> Result<(), AllocError>
    ensures { OnOk result (string_bytes out.new ≡ string_bytes out.old
        ++ flat_map library_lines (map library_model needed.now)) }
{
    for library in needed {
        put_library(out, library)?;
    }
    Ok(())
}

/// A needed library.
#[tactic(auto, unfolding(crate::specs::Lines::library_lines))]
fn put_library(out: &mut String, library: &NeededLibrary) -> Result<(), AllocError>
    ensures { OnOk result (string_bytes out.new
        ≡ string_bytes out.old ++ library_lines (library_model library.now)) }
{
    put_line(out, "needed", library.name.as_str())?;
    put_lines(out, "version", library.versions.as_slice())
}

/// Stack, flags and room. That the views agree holds of every file that is accepted.
#[tactic(auto, unfolding(crate::specs::Lines::elf_tail_lines))]
fn put_tail(alloc: Global, out: &mut String, s: &ElfSummary) -> Result<(), AllocError>
    ensures { OnOk result
        (string_bytes out.new ≡ string_bytes out.old ++ elf_tail_lines (elf_model s.now)) }
{
    put_stack(alloc, out, s.stack_flags)?;
    put_flags(alloc, out, s.flags_1)?;
    put_number_if(alloc, out, "spare_entries", s.spare_entries)?;
    put_line(out, "views_agree", "yes")
}

/// What the stack may be used for.
fn put_stack(alloc: Global, out: &mut String, flags: Option<u32>) -> Result<(), AllocError>
    ensures { OnOk result (string_bytes out.new ≡ string_bytes out.old
        ++ line_if (codes "stack") (option_map permissions_told flags)) }
{
    let Some(flags) = flags else {
        return Ok(());
    };
    let letters = permissions(alloc, flags)?;
    put_line(out, "stack", letters.as_str())
}

/// The flags that have a name.
fn put_flags(alloc: Global, out: &mut String, flags: Option<u64>) -> Result<(), AllocError>
    ensures { OnOk result (string_bytes out.new ≡ string_bytes out.old
        ++ lines (codes "flags") (flags_told (unwrap_or flags 0))) }
{
    let names = flag_names(alloc, flags.unwrap_or(0))?;
    put_lines(out, "flags", names.as_slice())
}
