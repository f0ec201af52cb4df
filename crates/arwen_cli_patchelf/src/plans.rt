//! What a line asks of the bytes of each of its files.
ghost use Rattle.std.specs.Prelude.{◌≡◌, IfOk, map, option_map, string_bytes};
ghost use Rattle.elf_commands.specs.Groups.{group_model};
ghost use Rattle.arwen_cli_options.specs.Asked.{asked_model};
ghost use Rattle.arwen_cli_patchelf.specs.OptionEdits.{planned_model, with_leave};
ghost use Rattle.arwen_cli_patchelf.specs.Plans.{option_of as option_asking, plan_model, plan_of_options, prefixes_asked, prefixes_in as prefixes_named, shrinks_of_options};

use crate::option_edits::{OptionEdit, planned_edits};
use arwen_cli_options::AskedOption;
use arwen_cli_options::asked::{is_given, last_of};
use command_words::{copies, filled_parts};
use elf_commands::GroupEdit;
use elf_edits::ElfEdit;
use std::alloc::{AllocError, Global};

/// What a line asks of the bytes of each of its files: first that the run paths shrink, and then edits.
#[derive(Drop)]
pub struct Plan {
    /// The prefixes that are allowed in run paths that shrink; none allow all. `None` where none shrink.
    pub shrinks: Option<Vec<String>>,
    // The edits, with leave behind them that the dynamic section moves, and the names of the options that ask for them.
    edits: Vec<GroupEdit>,
    options: Vec<String>,
}

impl Plan {
    /// The edits; where there are some, the last one gives leave that the dynamic section moves. Takes no memory.
    pub fn edits(&self) -> &[GroupEdit]
        ensures { map group_model result.now ≡ (plan_model self.now).edits }
    {
        self.edits.as_slice()
    }

    /// The name of the option that asks for the edit with this number, counted from 0; empty where none does. Takes no memory.
    pub fn option_of(&self, index: usize) -> &str
        ensures { result.now ≡ option_asking (plan_model self.now) index }
    {
        match self.options.get(index) {
            Some(option) => option.as_str(),
            None => "",
        }
    }
}

/// What options ask of the bytes of a file. Error: `AllocError`.
pub fn plan_of(alloc: Global, asked: &[AskedOption]) -> Result<Plan, AllocError>
    ensures { IfOk result (λ plan. plan_model plan ≡ plan_of_options (map asked_model asked.now)) }
{
    let shrinks = shrinks_of(alloc, asked)?;
    let planned = planned_edits(alloc, asked)?;
    let options = options_of(alloc, planned.as_slice())?;
    let edits = edits_of(alloc, planned)?;
    Ok(Plan {
        shrinks,
        edits,
        options,
    })
}

/// The options that ask for edits, in their order.
fn options_of(alloc: Global, planned: &[OptionEdit]) -> Result<Vec<String>, AllocError>
    ensures { IfOk result (λ options. map string_bytes options.items
        ≡ map (λ one. one.option) (map planned_model planned.now)) }
{
    let mut options = Vec::with_capacity(alloc, planned.len())?;
    for one in planned {
        options.push(String::from_str(alloc, one.option)?)?;
    }
    Ok(options)
}

/// The edits, with leave behind them that the dynamic section moves, where there are some.
fn edits_of(alloc: Global, planned: Vec<OptionEdit>) -> Result<Vec<GroupEdit>, AllocError>
    ensures { IfOk result (λ edits.
        map group_model edits.items ≡ with_leave (map planned_model planned.items)) }
{
    let mut edits = Vec::new(alloc);
    for OptionEdit { option: _, edit } in planned {
        edits.push(GroupEdit::Plain(edit))?;
    }
    if !edits.is_empty() {
        edits.push(GroupEdit::Plain(ElfEdit::AllowDynamicMove))?;
    }
    Ok(edits)
}

/// The prefixes that are allowed where run paths are to shrink.
fn shrinks_of(alloc: Global, asked: &[AskedOption]) -> Result<Option<Vec<String>>, AllocError>
    ensures { IfOk result (λ shrinks.
        option_map (λ prefixes. map string_bytes prefixes.items) shrinks
        ≡ shrinks_of_options (map asked_model asked.now)) }
{
    if is_given(asked, "--shrink-rpath") {
        Ok(Some(prefixes_of(alloc, asked)?))
    } else {
        Ok(None)
    }
}

/// The prefixes that options allow.
fn prefixes_of(alloc: Global, asked: &[AskedOption]) -> Result<Vec<String>, AllocError>
    ensures { IfOk result (λ prefixes. map string_bytes prefixes.items
        ≡ prefixes_asked (map asked_model asked.now)) }
{
    match last_of(alloc, asked, "--allowed-rpath-prefixes")? {
        Some(list) => prefixes_in(alloc, list.as_str()),
        None => Ok(Vec::new(alloc)),
    }
}

/// The prefixes that stand between the colons of a text; those without a byte are none.
fn prefixes_in(alloc: Global, list: &str) -> Result<Vec<String>, AllocError>
    ensures { IfOk result (λ prefixes. map string_bytes prefixes.items ≡ prefixes_named list.now) }
{
    let prefixes = filled_parts(alloc, list, ':')?;
    copies(alloc, prefixes.as_slice())
}
