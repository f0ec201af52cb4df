//! The edits that patchelf's options ask for.
ghost use Rattle.std.specs.Prelude.{◌≡◌, ◌∷◌, ◌++◌, [], IfOk, OnOk, codes, map};
ghost use Rattle.elf_edits.specs.Edit.{AddNeeded, ClearSymbolVersion, RemoveNeeded, RenameDynamicSymbols, ReplaceLibrary, SetInterpreter, SetOsAbi, SetSoname};
ghost use Rattle.elf_edits.specs.EditModel.{edit_model};
ghost use Rattle.arwen_cli_options.specs.Asked.{asked_model, last_of as last_given};
ghost use Rattle.arwen_cli_patchelf.specs.OptionEdits.{added_edits, by, header_edits, needed_edits, once, other_edits, planned_edits as edits_planned, planned_model, run_path_edits, set_edits, stack_edits, with_all, with_each, with_last, with_pairs};

use arwen_cli_options::AskedOption;
use arwen_cli_options::asked::{is_given, last_bytes_of, last_of, pairs_of, values_of};
use elf_edits::ElfEdit;
use std::alloc::{AllocError, Global};

/// An edit, with the option that asks for it.
#[derive(Drop)]
pub(crate) struct OptionEdit {
    /// The option's name.
    pub(crate) option: &'static str,
    /// The edit.
    pub(crate) edit: ElfEdit,
}

/// The edits that a line's options ask for, in patchelf's order; none where they ask for no edit. Error: `AllocError`.
pub(crate) fn planned_edits(
    alloc: Global,
    asked: &[AskedOption],
) -> Result<Vec<OptionEdit>, AllocError>
    ensures { IfOk result (λ planned.
        map planned_model planned.items ≡ edits_planned (map asked_model asked.now)) }
{
    let mut planned = Vec::new(alloc);
    put_header(alloc, &mut planned, asked)?;
    put_stack(&mut planned, asked)?;
    put_run_path(alloc, &mut planned, asked)?;
    put_needed(alloc, &mut planned, asked)?;
    put_others(alloc, &mut planned, asked)?;
    Ok(planned)
}

/// Puts the edits of the header, of the library's own name and of the interpreter.
fn put_header(
    alloc: Global,
    planned: &mut Vec<OptionEdit>,
    asked: &[AskedOption],
) -> Result<(), AllocError>
    ensures { OnOk result (map planned_model planned.new.items
        ≡ map planned_model planned.old.items ++ header_edits (map asked_model asked.now)) }
{
    put_os_abi(alloc, planned, asked)?;
    put_soname(alloc, planned, asked)?;
    put_interpreter(alloc, planned, asked)
}

/// Puts the edit of the ABI.
fn put_os_abi(
    alloc: Global,
    planned: &mut Vec<OptionEdit>,
    asked: &[AskedOption],
) -> Result<(), AllocError>
    ensures { OnOk result (map planned_model planned.new.items
        ≡ map planned_model planned.old.items
        ++ with_last (codes "--set-os-abi") SetOsAbi (map asked_model asked.now)) }
{
    match last_of(alloc, asked, "--set-os-abi")? {
        Some(name) => put(planned, "--set-os-abi", ElfEdit::SetOsAbi(name)),
        None => Ok(()),
    }
}

/// Puts the edit of the library's own name.
fn put_soname(
    alloc: Global,
    planned: &mut Vec<OptionEdit>,
    asked: &[AskedOption],
) -> Result<(), AllocError>
    ensures { OnOk result (map planned_model planned.new.items
        ≡ map planned_model planned.old.items
        ++ with_last (codes "--set-soname") SetSoname (map asked_model asked.now)) }
{
    match last_bytes_of(alloc, asked, "--set-soname")? {
        Some(name) => put(planned, "--set-soname", ElfEdit::SetSoname(name)),
        None => Ok(()),
    }
}

/// Puts the edit of the interpreter.
fn put_interpreter(
    alloc: Global,
    planned: &mut Vec<OptionEdit>,
    asked: &[AskedOption],
) -> Result<(), AllocError>
    ensures { OnOk result (map planned_model planned.new.items
        ≡ map planned_model planned.old.items
        ++ with_last (codes "--set-interpreter") SetInterpreter (map asked_model asked.now)) }
{
    match last_bytes_of(alloc, asked, "--set-interpreter")? {
        Some(path) => { put(planned, "--set-interpreter", ElfEdit::SetInterpreter(path)) }
        None => Ok(()),
    }
}

/// Puts the edit of whether the stack may be run.
fn put_stack(planned: &mut Vec<OptionEdit>, asked: &[AskedOption]) -> Result<(), AllocError>
    ensures { OnOk result (map planned_model planned.new.items
        ≡ map planned_model planned.old.items ++ stack_edits (map asked_model asked.now)) }
{
    if is_given(asked, "--print-execstack") {
        return Ok(());
    }
    if is_given(asked, "--clear-execstack") {
        return put(planned, "--clear-execstack", ElfEdit::ClearExecStack);
    }
    put_once(planned, asked, "--set-execstack", ElfEdit::SetExecStack)
}

/// Puts the edits of the run path.
fn put_run_path(
    alloc: Global,
    planned: &mut Vec<OptionEdit>,
    asked: &[AskedOption],
) -> Result<(), AllocError>
    ensures { OnOk result (map planned_model planned.new.items
        ≡ map planned_model planned.old.items ++ run_path_edits (map asked_model asked.now)) }
{
    if is_given(asked, "--remove-rpath") {
        return put(planned, "--remove-rpath", ElfEdit::RemoveRpath);
    }
    match last_bytes_of(alloc, asked, "--set-rpath")? {
        Some(text) => put_set(planned, asked, text),
        None => put_added(alloc, planned, asked),
    }
}

/// Puts the edits that set the run path to a text, with the tag that is asked for.
fn put_set(
    planned: &mut Vec<OptionEdit>,
    asked: &[AskedOption],
    text: Vec<u8>,
) -> Result<(), AllocError>
    ensures { OnOk result (map planned_model planned.new.items
        ≡ map planned_model planned.old.items
        ++ set_edits (map asked_model asked.now) text.items) }
{
    put(planned, "--set-rpath", ElfEdit::RemoveRpath)?;
    put(planned, "--set-rpath", ElfEdit::SetRpath(text))?;
    put_once(planned, asked, "--force-rpath", ElfEdit::ForceRpath)
}

/// Puts the edits that add to the run path, with the tag that is asked for.
fn put_added(
    alloc: Global,
    planned: &mut Vec<OptionEdit>,
    asked: &[AskedOption],
) -> Result<(), AllocError>
    ensures { OnOk result (map planned_model planned.new.items
        ≡ map planned_model planned.old.items ++ added_edits (map asked_model asked.now)
        (last_given (codes "--add-rpath") (map asked_model asked.now))) }
{
    let Some(text) = last_bytes_of(alloc, asked, "--add-rpath")? else {
        return Ok(());
    };
    let mut texts = Vec::new(alloc);
    texts.push(text)?;
    put(planned, "--add-rpath", ElfEdit::AddRpath(texts))?;
    put_once(planned, asked, "--force-rpath", ElfEdit::ForceRpath)
}

/// Puts the edits of the needed libraries.
fn put_needed(
    alloc: Global,
    planned: &mut Vec<OptionEdit>,
    asked: &[AskedOption],
) -> Result<(), AllocError>
    ensures { OnOk result (map planned_model planned.new.items
        ≡ map planned_model planned.old.items ++ needed_edits (map asked_model asked.now)) }
{
    put_removed(alloc, planned, asked)?;
    put_replaced(alloc, planned, asked)?;
    put_new(alloc, planned, asked)
}

/// Puts the edit by which needed libraries go.
fn put_removed(
    alloc: Global,
    planned: &mut Vec<OptionEdit>,
    asked: &[AskedOption],
) -> Result<(), AllocError>
    ensures { OnOk result (map planned_model planned.new.items
        ≡ map planned_model planned.old.items
        ++ with_all (codes "--remove-needed") RemoveNeeded (map asked_model asked.now)) }
{
    let names = values_of(alloc, asked, "--remove-needed")?;
    if names.is_empty() {
        return Ok(());
    }
    put(planned, "--remove-needed", ElfEdit::RemoveNeeded(names))
}

/// Puts the edit by which others take the place of needed libraries.
fn put_replaced(
    alloc: Global,
    planned: &mut Vec<OptionEdit>,
    asked: &[AskedOption],
) -> Result<(), AllocError>
    ensures { OnOk result (map planned_model planned.new.items
        ≡ map planned_model planned.old.items
        ++ with_pairs (codes "--replace-needed") ReplaceLibrary (map asked_model asked.now)) }
{
    let pairs = pairs_of(alloc, asked, "--replace-needed")?;
    if pairs.is_empty() {
        return Ok(());
    }
    put(planned, "--replace-needed", ElfEdit::ReplaceLibrary(pairs))
}

/// Puts the edit by which needed libraries come.
fn put_new(
    alloc: Global,
    planned: &mut Vec<OptionEdit>,
    asked: &[AskedOption],
) -> Result<(), AllocError>
    ensures { OnOk result (map planned_model planned.new.items
        ≡ map planned_model planned.old.items
        ++ with_all (codes "--add-needed") AddNeeded (map asked_model asked.now)) }
{
    let names = values_of(alloc, asked, "--add-needed")?;
    if names.is_empty() {
        return Ok(());
    }
    put(planned, "--add-needed", ElfEdit::AddNeeded(names))
}

/// Puts the other edits.
fn put_others(
    alloc: Global,
    planned: &mut Vec<OptionEdit>,
    asked: &[AskedOption],
) -> Result<(), AllocError>
    ensures { OnOk result (map planned_model planned.new.items
        ≡ map planned_model planned.old.items ++ other_edits (map asked_model asked.now)) }
{
    put_cleared(alloc, planned, asked)?;
    put_renamed(alloc, planned, asked)?;
    put_once(planned, asked, "--no-default-lib", ElfEdit::NoDefaultLib)?;
    put_once(planned, asked, "--add-debug-tag", ElfEdit::AddDebugTag)
}

/// Puts an edit for each symbol whose version is cleared.
fn put_cleared(
    alloc: Global,
    planned: &mut Vec<OptionEdit>,
    asked: &[AskedOption],
) -> Result<(), AllocError>
    ensures { OnOk result (map planned_model planned.new.items
        ≡ map planned_model planned.old.items ++ with_each
        (codes "--clear-symbol-version") ClearSymbolVersion (map asked_model asked.now)) }
{
    let names = values_of(alloc, asked, "--clear-symbol-version")?;
    for name in names {
        put(
            planned,
            "--clear-symbol-version",
            ElfEdit::ClearSymbolVersion(name),
        )?;
    }
    Ok(())
}

/// Puts the edit by which dynamic symbols get other names.
fn put_renamed(
    alloc: Global,
    planned: &mut Vec<OptionEdit>,
    asked: &[AskedOption],
) -> Result<(), AllocError>
    ensures { OnOk result (map planned_model planned.new.items
        ≡ map planned_model planned.old.items ++ with_pairs
        (codes "--rename-dynamic-symbols") RenameDynamicSymbols (map asked_model asked.now)) }
{
    let pairs = pairs_of(alloc, asked, "--rename-dynamic-symbols")?;
    if pairs.is_empty() {
        return Ok(());
    }
    put(
        planned,
        "--rename-dynamic-symbols",
        ElfEdit::RenameDynamicSymbols(pairs),
    )
}

/// Puts an edit where the option of this name is given.
fn put_once(
    planned: &mut Vec<OptionEdit>,
    asked: &[AskedOption],
    option: &'static str,
    edit: ElfEdit,
) -> Result<(), AllocError>
    ensures { OnOk result (map planned_model planned.new.items
        ≡ map planned_model planned.old.items
        ++ once option.now (edit_model edit) (map asked_model asked.now)) }
{
    if is_given(asked, option) {
        put(planned, option, edit)
    } else {
        Ok(())
    }
}

/// Puts an edit behind others, with the option that asks for it.
fn put(planned: &mut Vec<OptionEdit>, option: &'static str, edit: ElfEdit) -> Result<(), AllocError>
    ensures { OnOk result (map planned_model planned.new.items
        ≡ map planned_model planned.old.items ++ by option.now (edit_model edit) ∷ []) }
{
    planned.push(OptionEdit { option, edit })?;
    Ok(())
}
