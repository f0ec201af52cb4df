//! The words of several edits of an ELF file on one line.
ghost use Rattle.std.specs.Prelude.{◌≡◌, Ok, IfErr, IfOk, map, option_and_then, option_map};
ghost use Rattle.elf_commands_lines.specs.Groups.{group_model};
ghost use Rattle.elf_commands_lines.specs.ElfWords.{edit_asked, elf_edits_of, elf_group_edit};
ghost use Rattle.elf_commands_lines.specs.Meaning.{elf_command_model, elf_lines, reading_of};
ghost use Rattle.command_words.specs.Groups.{TellsFault, TellsWrong};
ghost use Rattle.command_words.specs.Rows.{given_model, given_without_path, kind_model, meant_with};
ghost use Rattle.command_words.specs.WordValues.{TellsValues};

use crate::command::ElfCommand;
use crate::groups::GroupEdit;
use crate::tables::elf_table;
use command_words::{
    EditKind, EditsError, Row, Values, edit_row, no_edit, no_values, other_words,
    values_without_path,
};
use std::alloc::Global;

/// Reads edits of an ELF file from words that are cut into groups at each `+`. A group is a command's name and its
/// words without the path; no words are one empty group. The first faulty group is answered.
pub fn parse_elf_edits(alloc: Global, words: &[&str]) -> Result<Vec<GroupEdit>, EditsError>
    ensures ok { IfOk result (λ edits.
        elf_edits_of (map (λ w. w.now) words.now) ≡ Ok (map group_model edits.items)) }
    ensures err { IfErr result (TellsFault (elf_edits_of (map (λ w. w.now) words.now))) }
{
    let mut edits = Vec::new(alloc);
    for group in words.split(|word| *word == "+") {
        let edit = read_group(alloc, edits.len(), group)?;
        edits.push(edit)?;
    }
    Ok(edits)
}

/// Reads the edit of one group, which has this number.
fn read_group(alloc: Global, group: usize, words: &[&str]) -> Result<GroupEdit, EditsError>
    ensures ok { IfOk result (λ edit.
        elf_group_edit (map (λ w. w.now) words.now) ≡ Ok (group_model edit)) }
    ensures err { IfErr result (TellsWrong group (elf_group_edit (map (λ w. w.now) words.now))) }
{
    let (row, words) = edit_row(elf_table(), group, words)?;
    match command_without_path(alloc, group, row, words)? {
        Some(command) => edit_of(alloc, group, command),
        None => Err(other_words(group, &row.form, words)),
    }
}

/// The command of a row with the words of a group, and with an empty path; `None` where there are too
/// many words or too few.
fn command_without_path(
    alloc: Global,
    group: usize,
    row: &Row,
    words: &[&str],
) -> Result<Option<ElfCommand>, EditsError>
    ensures ok { IfOk result (λ command. option_map reading_of command
        ≡ option_and_then (meant_with elf_lines row.now.name.now)
        (given_without_path (kind_model row.now.form) (map (λ w. w.now) words.now))) }
    ensures err { IfErr result (TellsValues group
        (option_and_then (meant_with elf_lines row.now.name.now)
        (given_without_path (kind_model row.now.form) (map (λ w. w.now) words.now)))) }
{
    match values_without_path(alloc, &row.form, words)? {
        Some(values) => command_with(alloc, group, row.name, values),
        None => Ok(None),
    }
}

/// The command of a name with the values of a group; `None` where no command of that name takes such
/// values.
fn command_with(
    alloc: Global,
    group: usize,
    name: &str,
    values: Values,
) -> Result<Option<ElfCommand>, EditsError>
    ensures ok { IfOk result (λ command. option_map reading_of command
        ≡ meant_with elf_lines name.now (given_model values)) }
    ensures err { IfErr result (TellsValues group
        (meant_with elf_lines name.now (given_model values))) }
{
    match ElfCommand::with_values(alloc, name, values) {
        Ok(command) => Ok(command),
        Err(error) => Err(no_values(group, error)),
    }
}

/// The edit that a command asks for, as that of a group.
fn edit_of(alloc: Global, group: usize, command: ElfCommand) -> Result<GroupEdit, EditsError>
    ensures ok { IfOk result (λ edit.
        edit_asked (elf_command_model command) ≡ Ok (group_model edit)) }
    ensures err { IfErr result (TellsWrong group (edit_asked (elf_command_model command))) }
{
    let edit = command.group_edit(alloc);
    drop(command);
    match edit? {
        Some(edit) => Ok(edit),
        None => Err(no_edit(group, EditKind::UnknownEdit)),
    }
}
