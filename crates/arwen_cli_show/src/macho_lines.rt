//! What is told of a Mach-O file, as lines.
ghost use Rattle.std.specs.Prelude.{◌≡◌, ◌++◌, OnOk, codes, map, string_bytes};
ghost use Rattle.std.specs.List.{flat_map};
ghost use Rattle.arwen_cli_show.specs.Lines.{line, macho_head_lines, macho_lines, macho_tail_lines, slice_lines};
ghost use Rattle.arwen_cli_facts.specs.MachoFacts.{macho_model, slice_told};
ghost use Rattle.arwen_cli_facts.specs.Names.{cpu_name as cpu_told, file_type_name as file_type_told, name_or as name_or_told};

use crate::lines::{answer, put_line, put_line_if, put_lines, put_number};
use crate::signature_lines::put_signature;
use arwen_cli_facts::macho::{MachoSummary, SliceSummary};
use arwen_cli_facts::names::{bits, cpu_name, file_type_name, name_or, order_name};
use std::alloc::{AllocError, Global};

/// Puts the lines of a thin file behind a text.
#[tactic(auto, unfolding(crate::specs::Lines::macho_lines))]
pub(crate) fn put_macho(alloc: Global, out: &mut String, s: &MachoSummary) -> Result<(), AllocError>
    ensures { OnOk result
        (string_bytes out.new ≡ string_bytes out.old ++ macho_lines (macho_model s.now)) }
{
    put_head(alloc, out, s)?;
    put_tail(alloc, out, s)
}

/// What the header says.
#[tactic(auto, unfolding(crate::specs::Lines::macho_head_lines))]
fn put_head(alloc: Global, out: &mut String, s: &MachoSummary) -> Result<(), AllocError>
    ensures { OnOk result
        (string_bytes out.new ≡ string_bytes out.old ++ macho_head_lines (macho_model s.now)) }
{
    put_cpu(alloc, out, s.cpu)?;
    put_number(alloc, out, "cpu_subtype", s.cpu_subtype as u64)?;
    put_file_type(alloc, out, s.file_type)?;
    put_number(alloc, out, "class", bits(s.form.container))?;
    put_line(out, "byte_order", order_name(s.form.le))
}

/// The processor.
fn put_cpu(alloc: Global, out: &mut String, cpu: u32) -> Result<(), AllocError>
    ensures { OnOk result (string_bytes out.new ≡ string_bytes out.old
        ++ line (codes "cpu") (name_or_told (cpu_told cpu) cpu)) }
{
    let name = name_or(alloc, cpu_name(cpu), u64::from(cpu))?;
    put_line(out, "cpu", name.as_str())
}

/// The type of file.
fn put_file_type(alloc: Global, out: &mut String, file_type: u32) -> Result<(), AllocError>
    ensures { OnOk result (string_bytes out.new ≡ string_bytes out.old
        ++ line (codes "file_type") (name_or_told (file_type_told file_type) file_type)) }
{
    let name = name_or(alloc, file_type_name(file_type), u64::from(file_type))?;
    put_line(out, "file_type", name.as_str())
}

/// What the load commands say.
#[tactic(auto, unfolding(crate::specs::Lines::macho_tail_lines))]
fn put_tail(alloc: Global, out: &mut String, s: &MachoSummary) -> Result<(), AllocError>
    ensures { OnOk result
        (string_bytes out.new ≡ string_bytes out.old ++ macho_tail_lines (macho_model s.now)) }
{
    put_line_if(out, "id", &s.id)?;
    put_lines(out, "libraries", s.libraries.as_slice())?;
    put_lines(out, "run_paths", s.run_paths.as_slice())?;
    put_line(out, "signed", answer(s.is_signed))?;
    put_signature(alloc, out, &s.signature)?;
    put_number(alloc, out, "header_pad", s.header_pad)
}

/// Puts the lines of the slices of a fat file behind a text.
pub(crate) fn put_slices(
    alloc: Global,
    out: &mut String,
    slices: &[SliceSummary],
) -> Result<(), AllocError>
    ensures { OnOk result (string_bytes out.new ≡ string_bytes out.old
        ++ flat_map slice_lines (map slice_told slices.now)) }
{
    for slice in slices {
        put_slice(alloc, out, slice)?;
    }
    Ok(())
}

/// Puts the lines of a slice behind a text.
#[tactic(auto, unfolding(crate::specs::Lines::slice_lines))]
fn put_slice(alloc: Global, out: &mut String, slice: &SliceSummary) -> Result<(), AllocError>
    ensures { OnOk result (string_bytes out.new
        ≡ string_bytes out.old ++ slice_lines (slice_told slice.now)) }
{
    put_number(alloc, out, "slice_offset", slice.offset as u64)?;
    put_number(alloc, out, "slice_size", slice.size as u64)?;
    put_macho(alloc, out, &slice.file)
}
