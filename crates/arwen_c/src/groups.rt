//! Edits of ELF files that were read, as those that commands make.
ghost use Rattle.std.specs.Prelude.{◌≡◌, IfOk, map};
ghost use Rattle.arwen_c.specs.Made.{group_of as group_told, leave_if};
ghost use Rattle.arwen_c_edits.specs.ElfEdits.{read_model};
ghost use Rattle.elf_commands.specs.Groups.{group_model};

use arwen_c_edits::ReadEdit;
use elf_commands::{ElfEdit, GroupEdit, SymbolTexts};
use std::alloc::{AllocError, Global};

/// Edits as those of a command.
pub(crate) fn groups_of(alloc: Global, edits: Vec<ReadEdit>) -> Result<Vec<GroupEdit>, AllocError>
    ensures { IfOk result (λ groups.
        map group_model groups.items ≡ map group_told (map read_model edits.items)) }
{
    let mut groups = Vec::with_capacity(alloc, edits.len())?;
    for edit in edits {
        groups.push(group_of(edit))?;
    }
    Ok(groups)
}

/// An edit as that of a command.
fn group_of(edit: ReadEdit) -> GroupEdit
    ensures { group_model result ≡ group_told (read_model edit) }
{
    match edit {
        ReadEdit::Plain(edit) => GroupEdit::Plain(edit),
        ReadEdit::RenameSymbols(pairs) => GroupEdit::Symbols(SymbolTexts::RenameSymbols(pairs)),
        ReadEdit::DeleteSymbols(names) => GroupEdit::Symbols(SymbolTexts::DeleteSymbols(names)),
        ReadEdit::RenameSections(pairs) => GroupEdit::Symbols(SymbolTexts::RenameSections(pairs)),
        ReadEdit::DeleteSections(names) => GroupEdit::Symbols(SymbolTexts::DeleteSections(names)),
    }
}

/// Edits, with leave behind them that the dynamic section moves, where it is given.
pub(crate) fn with_leave(
    edits: Vec<GroupEdit>,
    is_given: bool,
) -> Result<Vec<GroupEdit>, AllocError>
    ensures { IfOk result (λ all.
        map group_model all.items ≡ leave_if is_given (map group_model edits.items)) }
{
    let mut edits = edits;
    if is_given {
        edits.push(GroupEdit::Plain(ElfEdit::AllowDynamicMove))?;
    }
    Ok(edits)
}
