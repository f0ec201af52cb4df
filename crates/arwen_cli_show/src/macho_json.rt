//! What is told of a Mach-O file, as members of a JSON object.
ghost use Rattle.std.specs.Prelude.{◌≡◌, IfOk, OnOk, codes, map};
ghost use Rattle.serde_json.specs.Data.{put as with_member, string};
ghost use Rattle.serde_json.specs.View.{members_view, view};
ghost use Rattle.arwen_cli_show.specs.Json.{slice_data, slices_data, with_macho, with_macho_head, with_macho_tail};
ghost use Rattle.arwen_cli_facts.specs.MachoFacts.{macho_model, slice_told};
ghost use Rattle.arwen_cli_facts.specs.Names.{cpu_name as cpu_told, file_type_name as file_type_told, name_or as name_or_told};

use crate::members::{
    Members, push_value, put_answer, put_number, put_text, put_text_if, put_texts,
};
use crate::signature_json::put_signature;
use arwen_cli_facts::macho::{MachoSummary, SliceSummary};
use arwen_cli_facts::names::{bits, cpu_name, file_type_name, name_or, order_name};
use serde_json::{Map, Value, put};
use std::alloc::{AllocError, Global};

/// Puts what is told of a thin file among members.
#[tactic(auto, unfolding(crate::specs::Json::with_macho))]
pub(crate) fn put_macho(
    alloc: Global,
    members: &mut Members,
    s: &MachoSummary,
) -> Result<(), AllocError>
    ensures { OnOk result (members_view members.new.entries
        ≡ with_macho (macho_model s.now) (members_view members.old.entries)) }
{
    put_head(alloc, members, s)?;
    put_tail(alloc, members, s)
}

/// What the header says.
#[tactic(auto, unfolding(crate::specs::Json::with_macho_head))]
fn put_head(alloc: Global, members: &mut Members, s: &MachoSummary) -> Result<(), AllocError>
    ensures { OnOk result (members_view members.new.entries
        ≡ with_macho_head (macho_model s.now) (members_view members.old.entries)) }
{
    put_cpu(alloc, members, s.cpu)?;
    put_number(alloc, members, "cpu_subtype", s.cpu_subtype as u64)?;
    put_file_type(alloc, members, s.file_type)?;
    put_number(alloc, members, "class", bits(s.form.container))?;
    put_text(alloc, members, "byte_order", order_name(s.form.le))
}

/// The processor.
fn put_cpu(alloc: Global, members: &mut Members, cpu: u32) -> Result<(), AllocError>
    ensures { OnOk result (members_view members.new.entries
        ≡ with_member (codes "cpu") (string (name_or_told (cpu_told cpu) cpu))
        (members_view members.old.entries)) }
{
    let name = name_or(alloc, cpu_name(cpu), u64::from(cpu))?;
    put_text(alloc, members, "cpu", name.as_str())
}

/// The type of file.
fn put_file_type(alloc: Global, members: &mut Members, file_type: u32) -> Result<(), AllocError>
    ensures { OnOk result (members_view members.new.entries
        ≡ with_member (codes "file_type")
        (string (name_or_told (file_type_told file_type) file_type))
        (members_view members.old.entries)) }
{
    let name = name_or(alloc, file_type_name(file_type), u64::from(file_type))?;
    put_text(alloc, members, "file_type", name.as_str())
}

/// What the load commands say.
#[tactic(auto, unfolding(crate::specs::Json::with_macho_tail))]
fn put_tail(alloc: Global, members: &mut Members, s: &MachoSummary) -> Result<(), AllocError>
    ensures { OnOk result (members_view members.new.entries
        ≡ with_macho_tail (macho_model s.now) (members_view members.old.entries)) }
{
    put_text_if(alloc, members, "id", &s.id)?;
    put_texts(alloc, members, "libraries", s.libraries.as_slice())?;
    put_texts(alloc, members, "run_paths", s.run_paths.as_slice())?;
    put_answer(alloc, members, "signed", s.is_signed)?;
    put_signature(alloc, members, &s.signature)?;
    put_number(alloc, members, "header_pad", s.header_pad)
}

/// Puts the slices of a fat file among members.
pub(crate) fn put_slices(
    alloc: Global,
    members: &mut Members,
    slices: &[SliceSummary],
) -> Result<(), AllocError>
    ensures { OnOk result (members_view members.new.entries
        ≡ with_member (codes "slices") (slices_data (map slice_told slices.now))
        (members_view members.old.entries)) }
{
    let value = slices_value(alloc, slices)?;
    put(members, alloc, "slices", value)
}

/// An array of slices.
fn slices_value(alloc: Global, slices: &[SliceSummary]) -> Result<Value, AllocError>
    ensures { IfOk result (λ v. view v ≡ slices_data (map slice_told slices.now)) }
{
    let mut made = Vec::new(alloc);
    for slice in slices {
        push_value(&mut made, slice_value(alloc, slice)?)?;
    }
    Ok(Value::Array(made))
}

/// A slice.
#[tactic(auto, unfolding(crate::specs::Json::slice_data))]
fn slice_value(alloc: Global, slice: &SliceSummary) -> Result<Value, AllocError>
    ensures { IfOk result (λ v. view v ≡ slice_data (slice_told slice.now)) }
{
    let mut members = Map::new(alloc);
    put_number(alloc, &mut members, "slice_offset", slice.offset as u64)?;
    put_number(alloc, &mut members, "slice_size", slice.size as u64)?;
    put_macho(alloc, &mut members, &slice.file)?;
    Ok(Value::Object(members))
}
