//! The parser of lines, told its commands by a table.
ghost use Rattle.std.specs.Prelude.{◌≡◌, ◌<◌, [], Some, false, IfOk, IfErr, length, map, option_map, string_bytes, true};
ghost use Rattle.std.specs.Prelude.{unwrap_or};
ghost use Rattle.clap.specs.Words.{all_of, app_of, fault_of, first_of, found_of, kind_of, new_app, rows_of};
ghost use Rattle.clap.specs.Words.{rule_of, with_rule, with_subcommand};
ghost use Rattle.command_words.specs.Rows.{given_model, kind_model, row_model, texts};
ghost use Rattle.arwen_cli_parser.specs.Parser.{IsTaken, Matches, MatchesBy, RefusesNone, MayRefuseFound, MayRefuseValues, first_id, found_by};
ghost use Rattle.arwen_cli_parser.specs.Parser.{found_values, has_globals, is_table, leaf_app, leaf_of, line_app};
ghost use Rattle.arwen_cli_parser.specs.Parser.{option_rule, options_id, path_id, second_id, taken_model, top_app, value_rule};
ghost use Rattle.arwen_cli_parser.specs.Parser.{values_rule, with_options, with_path, with_text, with_texts, with_words, words_id};

use crate::line_error::{LineError, or_memory, or_usage, usage};
use clap::error::ErrorKind;
use clap::{Arg, ArgAction, ArgMatches, Error};
use command_words::{Row, Value, ValueForm, ValueOption, Values, copies, find_row};
use std::alloc::{AllocError, Global};

/// A first word of lines.
#[derive(Clone, Copy)]
pub struct First {
    /// The word.
    pub word: &'static str,
    /// The program's name with the word, as help shows it.
    pub shown_as: &'static str,
    /// What the commands of the word are for.
    pub about: &'static str,
}

/// What the parser calls the path.
const PATH: &str = "path";

/// What the parser calls the first of one or two texts.
const FIRST: &str = "first";

/// What the parser calls the second of two texts.
const SECOND: &str = "second";

/// What the parser calls any number of words.
const WORDS: &str = "words";

/// What the parser calls the values of an option.
const OPTIONS: &str = "options";

/// The path, as help shows it.
const FILE: Value = Value {
    name: "FILE",
    help: "Path to the file",
};

/// The name and the values of the command that a line's words name, of which the first is `first`.
pub fn parse_values(
    alloc: Global,
    first: First,
    rows: &'static [Row],
    words: &[&str],
) -> Result<(&'static str, Values), LineError>
    requires { is_table (map row_model rows.now) ≡ true }
    ensures taken { IfOk result (λ taken. IsTaken first.word.now (map row_model rows.entry.now)
        (map (λ w. w.now) words.now) (taken_model taken)) }
    ensures refused { IfErr result (MayRefuseValues first.word.now (map row_model rows.entry.now)
        (map (λ w. w.now) words.now)) }
{
    let shown: &[Row] = rows;
    let matches = matches_by(alloc, first, shown, words)?;
    let Some((name, found)) = matches.subcommand() else {
        return Err(or_memory(usage(alloc, 2)));
    };
    row_values(alloc, rows, name, found)
}

/// What the parser finds in words by a table, or what it has to say of them.
fn matches_by<'a>(
    alloc: Global,
    first: First,
    rows: &'a [Row],
    words: &'a [&'a str],
) -> Result<ArgMatches<'a>, LineError>
    requires { is_table (map row_model rows.now) ≡ true }
    ensures taken { IfOk result (MatchesBy first.word.now (map row_model rows.entry.now)
        (map (λ w. w.now) words.entry.now)) }
    ensures refused { IfErr result (λ error. fault_of (line_app first.word.now
        (map row_model rows.entry.now)) (map (λ w. w.now) words.entry.now) ≡ []
        → error ≡ LineError.Memory) }
{
    let line = table_line(alloc, first, rows)?;
    matches_of(alloc, line, words)
}

/// What the parser finds in words, or what it has to say of them.
fn matches_of<'a>(
    alloc: Global,
    line: clap::Command<'a>,
    words: &'a [&'a str],
) -> Result<ArgMatches<'a>, LineError>
    ensures taken { IfOk result (Matches (app_of line.entry) (map (λ w. w.now) words.entry.now)) }
    ensures refused { IfErr result (RefusesNone (app_of line.entry)
        (map (λ w. w.now) words.entry.now)) }
{
    match line.try_get_matches_from(words) {
        Ok(matches) => Ok(matches),
        Err(error) => Err(or_memory(line_fault(alloc, &error))),
    }
}

/// What the parser has to say of a line.
fn line_fault(alloc: Global, error: &Error) -> Result<LineError, AllocError>
    ensures { IfOk result (λ fault. kind_of error.now ≡ ErrorKind.OutOfMemory
        → fault ≡ LineError.Memory) }
{
    if error.kind() == ErrorKind::OutOfMemory {
        return Ok(LineError::Memory);
    }
    let text = error.to_string(alloc)?;
    let status = if error.use_stderr() { 2 } else { 0 };
    Ok(LineError::Text { text, status })
}

/// The lines of a first word, with the commands of a table.
fn table_line<'a>(
    alloc: Global,
    first: First,
    rows: &'a [Row],
) -> Result<clap::Command<'a>, AllocError>
    ensures { IfOk result (λ line.
        app_of line ≡ line_app first.word.now (map row_model rows.entry.now)) }
{
    let mut line = top_line(alloc, first)?;
    for row in rows {
        line = with_row(alloc, line, row)?;
    }
    Ok(line)
}

/// A line with the command of a further row.
fn with_row<'a>(
    alloc: Global,
    line: clap::Command<'a>,
    row: &'a Row,
) -> Result<clap::Command<'a>, AllocError>
    ensures { IfOk result (λ new. app_of new
        ≡ with_subcommand (app_of line.entry) (leaf_of (row_model row.entry.now))) }
{
    let command = row_line(alloc, row)?;
    line.subcommand(command)
}

/// The lines of a first word, without their commands.
fn top_line<'a>(alloc: Global, first: First) -> Result<clap::Command<'a>, AllocError>
    ensures { IfOk result (λ line. app_of line ≡ top_app first.word.now) }
{
    clap::Command::new(alloc, first.word)
        .about(first.about)
        .subcommand_required(true)
        .arg_required_else_help(true)
        .bin_name(first.shown_as)
}

/// A command, as a part of a line.
fn row_line<'a>(alloc: Global, row: &'a Row) -> Result<clap::Command<'a>, AllocError>
    ensures app { IfOk result (λ line.
        app_of line ≡ leaf_app row.entry.now.name.now (kind_model row.entry.now.form)) }
    ensures local { IfOk result (λ line. has_globals line ≡ false) }
{
    let line = named_line(alloc, row);
    match &row.form {
        ValueForm::Path => path_line(alloc, line),
        ValueForm::Text(text) => text_line(alloc, line, FIRST, text),
        ValueForm::Texts(first, second) => texts_line(alloc, line, first, second),
        ValueForm::Words(words) => words_line(alloc, line, words),
        ValueForm::Options(option) => option_line(alloc, line, option),
    }
}

/// A command with a further value.
fn with_value<'a>(
    alloc: Global,
    line: clap::Command<'a>,
    id: &'a str,
    shown: &'a Value,
) -> Result<clap::Command<'a>, AllocError>
    requires { has_globals line ≡ false }
    ensures app { IfOk result (λ new.
        app_of new ≡ with_rule (app_of line.entry) (value_rule id.entry.now)) }
    ensures local { IfOk result (λ new. has_globals new ≡ false) }
{
    line.arg(value(alloc, id, shown))
}

/// A command with the path as a further value.
fn path_line<'a>(alloc: Global, line: clap::Command<'a>) -> Result<clap::Command<'a>, AllocError>
    requires { has_globals line ≡ false }
    ensures app { IfOk result (λ new.
        app_of new ≡ with_rule (app_of line.entry) (value_rule path_id)) }
    ensures local { IfOk result (λ new. has_globals new ≡ false) }
{
    with_value(alloc, line, PATH, &FILE)
}

/// A command with a text and the path as further values.
fn text_line<'a>(
    alloc: Global,
    line: clap::Command<'a>,
    id: &'a str,
    text: &'a Value,
) -> Result<clap::Command<'a>, AllocError>
    requires { has_globals line ≡ false }
    ensures app { IfOk result (λ new. app_of new ≡ with_rule
        (with_rule (app_of line.entry) (value_rule id.entry.now)) (value_rule path_id)) }
    ensures local { IfOk result (λ new. has_globals new ≡ false) }
{
    let line = with_value(alloc, line, id, text)?;
    path_line(alloc, line)
}

/// A command with two texts and the path as further values.
fn texts_line<'a>(
    alloc: Global,
    line: clap::Command<'a>,
    first: &'a Value,
    second: &'a Value,
) -> Result<clap::Command<'a>, AllocError>
    requires { has_globals line ≡ false }
    ensures app { IfOk result (λ new. app_of new ≡ with_rule (with_rule
        (with_rule (app_of line.entry) (value_rule first_id)) (value_rule second_id))
        (value_rule path_id)) }
    ensures local { IfOk result (λ new. has_globals new ≡ false) }
{
    let line = with_value(alloc, line, FIRST, first)?;
    text_line(alloc, line, SECOND, second)
}

/// A command with the path and any number of words as further values.
fn words_line<'a>(
    alloc: Global,
    line: clap::Command<'a>,
    words: &'a Value,
) -> Result<clap::Command<'a>, AllocError>
    requires { has_globals line ≡ false }
    ensures app { IfOk result (λ new. app_of new ≡ with_rule
        (with_rule (app_of line.entry) (value_rule path_id)) (values_rule words_id)) }
    ensures local { IfOk result (λ new. has_globals new ≡ false) }
{
    let line = path_line(alloc, line)?;
    line.arg(values(alloc, WORDS, words))
}

/// A command with the path as a further value, and an option.
fn option_line<'a>(
    alloc: Global,
    line: clap::Command<'a>,
    shown: &'a ValueOption,
) -> Result<clap::Command<'a>, AllocError>
    requires { has_globals line ≡ false }
    ensures app { IfOk result (λ new. app_of new ≡ with_rule
        (with_rule (app_of line.entry) (value_rule path_id))
        (option_rule options_id shown.entry.now.long.now shown.entry.now.short)) }
    ensures local { IfOk result (λ new. has_globals new ≡ false) }
{
    let line = path_line(alloc, line)?;
    line.arg(option(alloc, OPTIONS, shown))
}

/// A command with its name and its help alone.
fn named_line<'a>(alloc: Global, row: &'a Row) -> clap::Command<'a>
    ensures app { app_of result ≡ new_app row.entry.now.name.now }
    ensures local { has_globals result ≡ false }
{
    let line = clap::Command::new(alloc, row.name).about(row.about);
    if row.more.is_empty() {
        line
    } else {
        line.after_help(row.more)
    }
}

/// A value that a line must have.
fn value<'a>(alloc: Global, id: &'a str, value: &'a Value) -> Arg<'a>
    ensures rule { rule_of result ≡ value_rule id.entry.now }
    ensures local { result.global ≡ false }
{
    Arg::new(alloc, id)
        .required(true)
        .value_name(value.name)
        .help(value.help)
}

/// A value that may be given any number of times.
fn values<'a>(alloc: Global, id: &'a str, value: &'a Value) -> Arg<'a>
    ensures rule { rule_of result ≡ values_rule id.entry.now }
    ensures local { result.global ≡ false }
{
    Arg::new(alloc, id)
        .action(ArgAction::Append)
        .num_args(0..)
        .value_name(value.name)
        .help(value.help)
}

/// An option with a value. It may be given any number of times, with a value each time.
fn option<'a>(alloc: Global, id: &'a str, shown: &'a ValueOption) -> Arg<'a>
    ensures rule { rule_of result
        ≡ option_rule id.entry.now shown.entry.now.long.now shown.entry.now.short }
    ensures local { result.global ≡ false }
{
    Arg::new(alloc, id)
        .long(shown.long)
        .short(shown.short)
        .action(ArgAction::Append)
        .value_name(shown.value.name)
        .help(shown.value.help)
}

/// The name and the values of a command that was found, or the usage text as the fault of a line.
fn row_values(
    alloc: Global,
    rows: &'static [Row],
    name: &str,
    matches: &ArgMatches<'_>,
) -> Result<(&'static str, Values), LineError>
    ensures taken { IfOk result (λ taken. found_by (map row_model rows.entry.now) name.now
        (rows_of (found_of matches.now)) ≡ Some (taken_model taken)) }
    ensures refused { IfErr result (MayRefuseFound (found_by (map row_model rows.entry.now)
        name.now (rows_of (found_of matches.now)))) }
{
    let taken = read_row(alloc, rows, name, matches)?;
    or_usage(alloc, taken)
}

/// The name and the values of a command that was found, where they are all there.
fn read_row(
    alloc: Global,
    rows: &'static [Row],
    name: &str,
    matches: &ArgMatches<'_>,
) -> Result<Option<(&'static str, Values)>, AllocError>
    ensures { IfOk result (λ taken. option_map taken_model taken
        ≡ found_by (map row_model rows.entry.now) name.now (rows_of (found_of matches.now))) }
{
    let Some(row) = find_row(rows, name) else {
        return Ok(None);
    };
    let values = read_values(alloc, &row.form, matches)?;
    Ok(values.map(|values| (row.name, values)))
}

/// The values of a command that was found, where they are all there.
fn read_values(
    alloc: Global,
    form: &ValueForm,
    matches: &ArgMatches<'_>,
) -> Result<Option<Values>, AllocError>
    ensures { IfOk result (λ values. option_map given_model values
        ≡ found_values (kind_model form.now) (rows_of (found_of matches.now))) }
{
    match form {
        ValueForm::Path => read_path(alloc, matches),
        ValueForm::Text(_) => read_text(alloc, matches),
        ValueForm::Texts(..) => read_texts(alloc, matches),
        ValueForm::Words(_) => read_words(alloc, matches),
        ValueForm::Options(_) => read_options(alloc, matches),
    }
}

/// The path alone.
fn read_path(alloc: Global, matches: &ArgMatches<'_>) -> Result<Option<Values>, AllocError>
    ensures { IfOk result (λ values. option_map given_model values
        ≡ with_path (first_of path_id (rows_of (found_of matches.now)))) }
{
    let Some(path) = text_of(matches, PATH) else {
        return Ok(None);
    };
    Ok(Some(Values::Path(String::from_str(alloc, path)?)))
}

/// A text and the path.
fn read_text(alloc: Global, matches: &ArgMatches<'_>) -> Result<Option<Values>, AllocError>
    ensures { IfOk result (λ values. option_map given_model values
        ≡ with_text (first_of first_id (rows_of (found_of matches.now)))
        (first_of path_id (rows_of (found_of matches.now)))) }
{
    let (Some(text), Some(path)) = (text_of(matches, FIRST), text_of(matches, PATH)) else {
        return Ok(None);
    };
    let text = String::from_str(alloc, text)?;
    Ok(Some(Values::Text(text, String::from_str(alloc, path)?)))
}

/// Two texts and the path.
fn read_texts(alloc: Global, matches: &ArgMatches<'_>) -> Result<Option<Values>, AllocError>
    ensures { IfOk result (λ values. option_map given_model values
        ≡ with_texts (first_of first_id (rows_of (found_of matches.now)))
        (first_of second_id (rows_of (found_of matches.now)))
        (first_of path_id (rows_of (found_of matches.now)))) }
{
    let first = text_of(matches, FIRST);
    let second = text_of(matches, SECOND);
    let path = text_of(matches, PATH);
    let (Some(first), Some(second), Some(path)) = (first, second, path) else {
        return Ok(None);
    };
    Ok(Some(texts_values(alloc, first, second, path)?))
}

/// Two texts and a path, as the values of a command.
fn texts_values(alloc: Global, first: &str, second: &str, path: &str) -> Result<Values, AllocError>
    ensures { IfOk result (λ values. given_model values ≡ texts first.now second.now path.now) }
{
    let first = String::from_str(alloc, first)?;
    let second = String::from_str(alloc, second)?;
    let path = String::from_str(alloc, path)?;
    Ok(Values::Texts(first, second, path))
}

/// The path and any number of words.
fn read_words(alloc: Global, matches: &ArgMatches<'_>) -> Result<Option<Values>, AllocError>
    ensures { IfOk result (λ values. option_map given_model values
        ≡ with_words (first_of path_id (rows_of (found_of matches.now)))
        (all_of words_id (rows_of (found_of matches.now)))) }
{
    let Some(path) = text_of(matches, PATH) else {
        return Ok(None);
    };
    let words = texts_of(alloc, matches, WORDS)?;
    Ok(Some(Values::Words(String::from_str(alloc, path)?, words)))
}

/// The path and the values of an option.
fn read_options(alloc: Global, matches: &ArgMatches<'_>) -> Result<Option<Values>, AllocError>
    ensures { IfOk result (λ values. option_map given_model values
        ≡ with_options (first_of path_id (rows_of (found_of matches.now)))
        (all_of options_id (rows_of (found_of matches.now)))) }
{
    let Some(path) = text_of(matches, PATH) else {
        return Ok(None);
    };
    let list = texts_of(alloc, matches, OPTIONS)?;
    Ok(Some(Values::Options(String::from_str(alloc, path)?, list)))
}

/// The text of a value, where it is there.
fn text_of<'m>(matches: &'m ArgMatches<'_>, id: &str) -> Option<&'m str>
    ensures { option_map (λ s. s.now) result
        ≡ first_of id.now (rows_of (found_of matches.entry.now)) }
{
    matches.get_str(id)
}

/// The texts of a value that may be given any number of times.
fn texts_of(alloc: Global, matches: &ArgMatches<'_>, id: &str) -> Result<Vec<String>, AllocError>
    ensures { IfOk result (λ texts.
        unwrap_or (all_of id.now (rows_of (found_of matches.now))) []
        ≡ map string_bytes texts.items) }
{
    match matches.get_strs(id) {
        Some(texts) => copies(alloc, texts),
        None => Ok(Vec::new(alloc)),
    }
}
