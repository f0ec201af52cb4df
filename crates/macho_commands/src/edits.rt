//! The words of several edits of a Mach-O file on one line.
ghost use Rattle.std.specs.Prelude.{◌≡◌, Ok, IfOk, IfErr, map, option_and_then, option_map};
ghost use Rattle.macho_edits.specs.Batch.{call_made, calls_of};
ghost use Rattle.command_words.specs.Groups.{TellsFault, TellsWrong};
ghost use Rattle.command_words.specs.Rows.{given_without_path, kind_model, meant_with};
ghost use Rattle.macho_commands.specs.Edits.{edit_asked, edits_of, macho_group_edit, one_edit};
ghost use Rattle.macho_commands.specs.Meaning.{macho_lines, macho_command_model};

use crate::command::MachoCommand;
use crate::tables::macho_table;
use arwen_macho::macho::MachoEdit;
use command_words::{
    EditKind, EditsError, Row, edit_row, no_edit, other_words, values_without_path,
};
use std::alloc::{AllocError, Global};

/// Reads edits from words that are cut into groups at each `+`. A group is a command's name and its
/// words without the path; no words are one empty group. The first faulty group is answered.
pub fn parse_macho_edits(alloc: Global, words: &[&str]) -> Result<Vec<MachoEdit>, EditsError>
    ensures ok { IfOk result (λ edits.
        edits_of (map (λ w. w.now) words.now) ≡ Ok (calls_of edits.items)) }
    ensures err { IfErr result (TellsFault (edits_of (map (λ w. w.now) words.now))) }
{
    let mut edits = Vec::new(alloc);
    for group in words.split(|word| *word == "+") {
        let edit = read_group(alloc, edits.len(), group)?;
        edits.push(edit)?;
    }
    Ok(edits)
}

/// Reads the edit of one group, which has this number.
fn read_group(alloc: Global, group: usize, words: &[&str]) -> Result<MachoEdit, EditsError>
    ensures ok { IfOk result (λ edit.
        macho_group_edit (map (λ w. w.now) words.now) ≡ Ok (call_made edit)) }
    ensures err { IfErr result (TellsWrong group (macho_group_edit (map (λ w. w.now) words.now))) }
{
    let (row, words) = edit_row(macho_table(), group, words)?;
    match command_without_path(alloc, row, words)? {
        Some(command) => edit_of(alloc, group, command),
        None => Err(other_words(group, &row.form, words)),
    }
}

/// The command of a row with the words of a group, and with an empty path; `None` where there are too
/// many words or too few.
fn command_without_path(
    alloc: Global,
    row: &Row,
    words: &[&str],
) -> Result<Option<MachoCommand>, AllocError>
    ensures { IfOk result (λ command. option_map macho_command_model command
        ≡ option_and_then (meant_with macho_lines row.now.name.now)
        (given_without_path (kind_model row.now.form) (map (λ w. w.now) words.now))) }
{
    match values_without_path(alloc, &row.form, words)? {
        Some(values) => Ok(MachoCommand::with_values(row.name, values)),
        None => Ok(None),
    }
}

/// The edit that a command asks for, as that of a group.
fn edit_of(alloc: Global, group: usize, command: MachoCommand) -> Result<MachoEdit, EditsError>
    ensures ok { IfOk result (λ edit.
        one_edit (edit_asked (macho_command_model command)) ≡ Ok (call_made edit)) }
    ensures err { IfErr result (TellsWrong group
        (one_edit (edit_asked (macho_command_model command)))) }
{
    let edit = command.edit(alloc);
    drop(command);
    match edit? {
        Some(edit) => Ok(edit),
        None => Err(no_edit(group, EditKind::UnknownEdit)),
    }
}
