//! What lists of edits make of an image.
ghost use Rattle.std.specs.Prelude.{◌≡◌, ◌++◌, ◌∷◌, [], IfErr, IfOk, Ok, OnErr, OnOk, map, take};
ghost use Rattle.arwen_elf.specs.Taken.{edits_model};
ghost use Rattle.elf_edits.specs.Batch.{run};
ghost use Rattle.elf_edits.specs.EditModel.{edit_model};
ghost use Rattle.elf_commands_edits.specs.Groups.{MakeInTurn, MakesNext, RefusesNext, TellsInTurn, group_model, has_symbols as are_some_symbols, made_before, plain_of, shown_next};
ghost use Rattle.elf_image.specs.Image.{shown};
ghost use Rattle.elf_commands_lines.specs.Groups.GroupEdit.{plain};

use crate::laws::lists_are_their_edits;
use arwen_elf::elf::{ElfBatchError, ElfContainer, ElfError};
use elf_commands_lines::{GroupEdit, has_symbols, plain_edits};
use elf_edits::ElfEdit;
use elf_edits::laws::batches_are_their_edits;
use std::alloc::{AllocError, Global};
use std::slice;

/// Makes edits in an image, each upon what the one before it left; those of which none is of symbols or sections as one batch, all
/// or none.
///
/// # Errors
///
/// The first edit that is refused, by its number, counted from 0, and why; or `Memory`. The image is then as it was after a batch,
/// else what the edits before that one left.
pub fn apply_edits(
    alloc: Global,
    elf: &mut ElfContainer<'_>,
    edits: Vec<GroupEdit>,
) -> Result<(), ElfBatchError>
    ensures made { OnOk result
        (MakeInTurn (map group_model edits.items) elf.old.inner elf.new.inner) }
    ensures told { IfErr result (TellsInTurn (map group_model edits.items) elf.old.inner) }
    ensures left { IfErr result (λ e. MakeInTurn
        (take (made_before (map group_model edits.items) e.index) (map group_model edits.items))
        elf.old.inner elf.new.inner) }
{
    if has_symbols(edits.as_slice()) {
        return apply_each(alloc, elf, edits.as_slice());
    }
    let plain = plain_edits(alloc, edits)?;
    apply_batch(alloc, elf, plain.as_slice())
}

/// Makes a batch of edits in an image: all of them, or none. Errors: those of `apply_edits`.
pub fn apply_batch(
    alloc: Global,
    elf: &mut ElfContainer<'_>,
    edits: &[ElfEdit],
) -> Result<(), ElfBatchError>
    ensures runs { OnOk result (run (edits_model edits.now) elf.old.inner ≡ Ok elf.new.inner) }
    ensures made { OnOk result
        (MakeInTurn (map plain (edits_model edits.now)) elf.old.inner elf.new.inner) }
    ensures told { IfErr result (TellsInTurn (map plain (edits_model edits.now)) elf.old.inner) }
    ensures left { OnErr result (elf.new.inner ≡ elf.old.inner) }
{
    lists_are_their_edits();
    match elf.apply(alloc, edits) {
        Ok(()) => Ok(()),
        Err(error) => Err(error),
    }
}

/// Makes edits that are lent in an image, one after the other. Errors: those of `apply_edits`; the image is then what the edits
/// before the refused one left.
pub fn apply_each(
    alloc: Global,
    elf: &mut ElfContainer<'_>,
    edits: &[GroupEdit],
) -> Result<(), ElfBatchError>
    ensures made { OnOk result
        (MakeInTurn (map group_model edits.now) elf.old.inner elf.new.inner) }
    ensures told { IfErr result (TellsInTurn (map group_model edits.now) elf.old.inner) }
    ensures left { IfErr result (λ e. MakeInTurn (take e.index (map group_model edits.now))
        elf.old.inner elf.new.inner) }
{
    for index in 0..edits.len() {
        if let Err(fault) = apply_next(alloc, elf, &edits[index]) {
            return Err(ElfBatchError { index, fault });
        }
    }
    Ok(())
}

/// Makes one edit in an image.
fn apply_next(alloc: Global, elf: &mut ElfContainer<'_>, edit: &GroupEdit) -> Result<(), ElfError>
    ensures made { OnOk result (MakesNext (group_model edit.now) elf.old.inner elf.new.inner) }
    ensures shows { OnOk result
        (shown elf.new.inner ≡ shown_next (group_model edit.now) elf.old.inner) }
    ensures told { IfErr result (RefusesNext (group_model edit.now) elf.old.inner) }
    ensures kept { OnErr result (elf.new.inner ≡ elf.old.inner) }
{
    match edit {
        GroupEdit::Plain(edit) => apply_plain(alloc, elf, edit),
        GroupEdit::Symbols(texts) => elf.edit_symbols(alloc, texts.edit()),
    }
}

/// Makes one edit that a batch takes in an image.
fn apply_plain(alloc: Global, elf: &mut ElfContainer<'_>, edit: &ElfEdit) -> Result<(), ElfError>
    ensures made { OnOk result
        (MakesNext (plain (edit_model edit.now)) elf.old.inner elf.new.inner) }
    ensures shows { OnOk result
        (shown elf.new.inner ≡ shown_next (plain (edit_model edit.now)) elf.old.inner) }
    ensures told { IfErr result (RefusesNext (plain (edit_model edit.now)) elf.old.inner) }
    ensures kept { OnErr result (elf.new.inner ≡ elf.old.inner) }
{
    batches_are_their_edits();
    match elf.apply(alloc, slice::from_ref(edit)) {
        Ok(()) => Ok(()),
        Err(error) => Err(error.fault),
    }
}
