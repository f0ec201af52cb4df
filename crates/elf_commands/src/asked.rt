//! The edits that a command asks for.
ghost use Rattle.std.specs.Prelude.{◌≡◌, ◌∷◌, [], IfErr, IfOk, Ok, map, string_bytes};
ghost use Rattle.elf_commands_edits.specs.Groups.{group_model};
ghost use Rattle.elf_commands_lines.specs.ElfAsked.{elf_asked, several, with_leave};
ghost use Rattle.elf_commands.specs.ElfEngine.{AreAsked, TellsEachFile};
ghost use Rattle.elf_commands_lines.specs.ElfWords.{elf_edits_of};
ghost use Rattle.elf_commands_lines.specs.Meaning.{elf_command_model};

use command_words::words_of;
use elf_commands_edits::ElfCommandError;
use elf_commands_lines::{ElfCommand, GroupEdit, parse_elf_edits};
use elf_edits::ElfEdit;
use std::alloc::{AllocError, Global};

/// The edits that a command asks for; `None` of one that prints, and of `shrink-rpath`, which asks first what is found.
/// Errors: `Edits` where the words of `apply` are no list of edits; `Memory`.
pub fn asked_by(
    alloc: Global,
    command: &ElfCommand,
) -> Result<Option<Vec<GroupEdit>>, ElfCommandError>
    ensures ok { IfOk result (AreAsked (elf_asked (elf_command_model command.now))) }
    ensures err { IfErr result (TellsEachFile (elf_asked (elf_command_model command.now))) }
{
    if let ElfCommand::Apply(args) = command {
        return Ok(Some(asked_by_words(alloc, args.edits.as_slice())?));
    }
    if let ElfCommand::ApplyMoving(args) = command {
        return Ok(Some(asked_with_leave(alloc, args.edits.as_slice())?));
    }
    match command.group_edit(alloc)? {
        Some(edit) => Ok(Some(one(alloc, edit)?)),
        None => Ok(None),
    }
}

/// The edits that words name.
fn asked_by_words(alloc: Global, words: &[String]) -> Result<Vec<GroupEdit>, ElfCommandError>
    ensures ok { IfOk result (λ edits.
        elf_edits_of (map string_bytes words.now) ≡ Ok (map group_model edits.items)) }
    ensures err { IfErr result
        (TellsEachFile (several (elf_edits_of (map string_bytes words.now)))) }
{
    let words = words_of(alloc, words)?;
    Ok(parse_elf_edits(alloc, words.as_slice())?)
}

/// The edits that words name, with leave behind them that the dynamic section moves.
fn asked_with_leave(alloc: Global, words: &[String]) -> Result<Vec<GroupEdit>, ElfCommandError>
    ensures ok { IfOk result (λ edits. with_leave (elf_edits_of (map string_bytes words.now))
        ≡ Ok (map group_model edits.items)) }
    ensures err { IfErr result
        (TellsEachFile (several (with_leave (elf_edits_of (map string_bytes words.now))))) }
{
    let words = words_of(alloc, words)?;
    let mut edits = parse_elf_edits(alloc, words.as_slice())?;
    edits.push(GroupEdit::Plain(ElfEdit::AllowDynamicMove))?;
    Ok(edits)
}

/// A list of one.
fn one<T: Drop>(alloc: Global, item: T) -> Result<Vec<T>, AllocError>
    ensures { IfOk result (λ items. items.items ≡ item ∷ []) }
{
    let mut items = Vec::new(alloc);
    items.push(item)?;
    Ok(items)
}
