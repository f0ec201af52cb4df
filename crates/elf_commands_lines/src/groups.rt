//! Edits that groups of words name, of either kind.
ghost use Rattle.std.specs.Prelude.{◌≡◌, ◌++◌, ◌∷◌, [], IfOk, OnOk, map};
ghost use Rattle.elf_edits.specs.EditModel.{edit_model};
ghost use Rattle.elf_commands_lines.specs.Groups.{edits_model, group_model, has_symbols as are_some_symbols, plain_of};

use crate::symbol_texts::SymbolTexts;
use elf_edits::ElfEdit;
use std::alloc::{AllocError, Global};

/// An edit that a group of words names.
#[derive(Drop)]
pub enum GroupEdit {
    /// One that a batch takes.
    Plain(ElfEdit),
    /// One of symbols or sections.
    Symbols(SymbolTexts),
}

/// Whether one of a list is of symbols or sections, which no batch takes.
pub fn has_symbols(edits: &[GroupEdit]) -> bool
    ensures { result ≡ are_some_symbols (map group_model edits.now) }
{
    for edit in edits {
        if let GroupEdit::Symbols(_) = edit {
            return true;
        }
    }
    false
}

/// The edits of a list that a batch takes, in order. Error: `AllocError`.
pub fn plain_edits(alloc: Global, edits: Vec<GroupEdit>) -> Result<Vec<ElfEdit>, AllocError>
    ensures { IfOk result (λ plain. edits_model plain.items
        ≡ plain_of (map group_model edits.items)) }
{
    let mut plain = Vec::with_capacity(alloc, edits.len())?;
    for edit in edits {
        push_plain(&mut plain, edit)?;
    }
    Ok(plain)
}

/// Puts an edit behind others, where a batch takes it.
fn push_plain(plain: &mut Vec<ElfEdit>, edit: GroupEdit) -> Result<(), AllocError>
    ensures { OnOk result (edits_model plain.new.items
        ≡ edits_model plain.old.items ++ plain_of (group_model edit ∷ [])) }
{
    if let GroupEdit::Plain(edit) = edit {
        plain.push(edit)?;
    }
    Ok(())
}
