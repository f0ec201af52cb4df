//! What is told of an ELF file, as members of a JSON object.
ghost use Rattle.std.specs.Prelude.{◌≡◌, IfOk, OnOk, codes, map, option_map, unwrap_or};
ghost use Rattle.serde_json.specs.Data.{put as with_member, string};
ghost use Rattle.serde_json.specs.View.{members_view, view};
ghost use Rattle.arwen_cli_facts.specs.ElfFacts.{elf_model, library_model};
ghost use Rattle.arwen_cli_show.specs.Json.{libraries_data, library_data, text_data_if, texts_data, with_elf, with_elf_head, with_elf_names, with_elf_tail};
ghost use Rattle.arwen_cli_facts.specs.Names.{flag_names as flags_told, machine_name as machine_told, name_or as name_or_told, permissions as permissions_told};

use crate::members::{
    Members, push_value, put_answer, put_number, put_number_if, put_text, put_text_if, put_texts,
};
use arwen_cli_facts::elf::{ElfSummary, NeededLibrary};
use arwen_cli_facts::names::{
    bits, flag_names, kind_name, machine_name, name_or, order_name, permissions,
};
use serde_json::{Map, Value, put};
use std::alloc::{AllocError, Global};

/// Puts what is told of an ELF file among members.
#[tactic(auto, unfolding(crate::specs::Json::with_elf))]
pub(crate) fn put_elf(
    alloc: Global,
    members: &mut Members,
    s: &ElfSummary,
) -> Result<(), AllocError>
    ensures { OnOk result (members_view members.new.entries
        ≡ with_elf (elf_model s.now) (members_view members.old.entries)) }
{
    put_head(alloc, members, s)?;
    put_names(alloc, members, s)?;
    put_tail(alloc, members, s)
}

/// What the file header says.
#[tactic(auto, unfolding(crate::specs::Json::with_elf_head))]
fn put_head(alloc: Global, members: &mut Members, s: &ElfSummary) -> Result<(), AllocError>
    ensures { OnOk result (members_view members.new.entries
        ≡ with_elf_head (elf_model s.now) (members_view members.old.entries)) }
{
    put_text(alloc, members, "kind", kind_name(s.kind))?;
    put_machine(alloc, members, s.machine)?;
    put_number(alloc, members, "class", bits(s.form.wide))?;
    put_text(alloc, members, "byte_order", order_name(s.form.order))?;
    put_number(alloc, members, "os_abi", u64::from(s.os_abi))
}

/// The machine.
fn put_machine(alloc: Global, members: &mut Members, machine: u16) -> Result<(), AllocError>
    ensures { OnOk result (members_view members.new.entries
        ≡ with_member (codes "machine") (string (name_or_told (machine_told machine) machine))
        (members_view members.old.entries)) }
{
    let name = name_or(alloc, machine_name(machine), u64::from(machine))?;
    put_text(alloc, members, "machine", name.as_str())
}

/// The texts that a loader goes by.
#[tactic(auto, unfolding(crate::specs::Json::with_elf_names))]
fn put_names(alloc: Global, members: &mut Members, s: &ElfSummary) -> Result<(), AllocError>
    ensures { OnOk result (members_view members.new.entries
        ≡ with_elf_names (elf_model s.now) (members_view members.old.entries)) }
{
    put_text_if(alloc, members, "interpreter", &s.interpreter)?;
    put_text_if(alloc, members, "soname", &s.soname)?;
    put_needed(alloc, members, s.needed.as_slice())?;
    put_text_if(alloc, members, "rpath", &s.rpath)?;
    put_text_if(alloc, members, "runpath", &s.runpath)
}

/// The needed libraries with the versions that are needed of each.
fn put_needed(
    alloc: Global,
    members: &mut Members,
    needed: &[NeededLibrary],
) -> Result<(), AllocError>
    ensures { OnOk result (members_view members.new.entries
        ≡ with_member (codes "needed") (libraries_data (map library_model needed.now))
        (members_view members.old.entries)) }
{
    let value = libraries_value(alloc, needed)?;
    put(members, alloc, "needed", value)
}

/// An array of libraries.
fn libraries_value(alloc: Global, needed: &[NeededLibrary]) -> Result<Value, AllocError>
    ensures { IfOk result (λ v. view v ≡ libraries_data (map library_model needed.now)) }
{
    let mut made = Vec::new(alloc);
    for library in needed {
        push_value(&mut made, library_value(alloc, library)?)?;
    }
    Ok(Value::Array(made))
}

/// A needed library.
#[tactic(auto, unfolding(crate::specs::Json::library_data))]
fn library_value(alloc: Global, library: &NeededLibrary) -> Result<Value, AllocError>
    ensures { IfOk result (λ v. view v ≡ library_data (library_model library.now)) }
{
    let mut members = Map::new(alloc);
    put_text(alloc, &mut members, "name", library.name.as_str())?;
    put_texts(alloc, &mut members, "versions", library.versions.as_slice())?;
    Ok(Value::Object(members))
}

/// Stack, flags and room. That the views agree holds of every file that is accepted.
#[tactic(auto, unfolding(crate::specs::Json::with_elf_tail))]
fn put_tail(alloc: Global, members: &mut Members, s: &ElfSummary) -> Result<(), AllocError>
    ensures { OnOk result (members_view members.new.entries
        ≡ with_elf_tail (elf_model s.now) (members_view members.old.entries)) }
{
    put_stack(alloc, members, s.stack_flags)?;
    put_flags(alloc, members, s.flags_1)?;
    put_number_if(alloc, members, "spare_entries", s.spare_entries)?;
    put_answer(alloc, members, "views_agree", true)
}

/// What the stack may be used for.
fn put_stack(alloc: Global, members: &mut Members, flags: Option<u32>) -> Result<(), AllocError>
    ensures { OnOk result (members_view members.new.entries
        ≡ with_member (codes "stack") (text_data_if (option_map permissions_told flags))
        (members_view members.old.entries)) }
{
    let Some(flags) = flags else {
        return put(members, alloc, "stack", Value::Null);
    };
    let letters = permissions(alloc, flags)?;
    put_text(alloc, members, "stack", letters.as_str())
}

/// The flags that have a name.
fn put_flags(alloc: Global, members: &mut Members, flags: Option<u64>) -> Result<(), AllocError>
    ensures { OnOk result (members_view members.new.entries
        ≡ with_member (codes "flags") (texts_data (flags_told (unwrap_or flags 0)))
        (members_view members.old.entries)) }
{
    let names = flag_names(alloc, flags.unwrap_or(0))?;
    put_texts(alloc, members, "flags", names.as_slice())
}
