//! What the words of a peer's line give: options with their values, and files. A word behind an option that takes a value is
//! its value, whatever it begins with.
ghost use Rattle.std.specs.Prelude.{◌≡◌, [], None, Ok as ok, Some, IfErr, IfOk, OnOk, map, option_map};
ghost use Rattle.arwen_cli_options.specs.Options.{IsTaken, TellsWrong, ahead, at_end, given_model, is_option as is_option_word, line_of, any, by_form, by_option, option_of, row_model, step_model, stepped as step_meant, values_of as values_given, wants_model};
ghost use Rattle.arwen_cli_options.specs.declared.options.LineFault.TheVariants.{Memory};

use std::alloc::{AllocError, AllocFailed, Global};

/// The name of what a line gives that is a file.
pub const FILE: &str = "FILE";

/// What stands behind an option, or what it says by itself.
#[derive(Clone, Copy)]
pub enum Form {
    /// Nothing.
    Flag,
    /// A value.
    One,
    /// Two values.
    Two,
    /// It asks for help.
    Help,
    /// It asks for the version.
    Version,
}

/// An option of a peer.
#[derive(Clone, Copy)]
pub struct OptionRow {
    /// The word that gives it.
    pub word: &'static str,
    /// Its name; two words may give one option.
    pub name: &'static str,
    /// What stands behind it.
    pub form: Form,
}

/// An option that a line gives, or a file.
#[derive(Clone, Copy)]
pub struct Given<'a> {
    /// The option's name, or `FILE`.
    pub name: &'static str,
    /// Its first value, or the file's path; empty where it takes none.
    pub first: &'a str,
    /// Its second value; empty where it takes none.
    pub second: &'a str,
}

/// Why a line asks for nothing that is done.
#[derive(Clone, Copy)]
pub enum LineFault<'a> {
    /// It asks for help.
    Help,
    /// It asks for the version.
    Version,
    /// An option isn't known.
    Unknown(&'a str),
    /// A value of the option of this name is missing.
    Missing(&'static str),
    /// There was no memory.
    Memory,
}

impl From<AllocError> for LineFault<'_> {
    ghost from_gives = { λ _ fault. fault ≡ Memory };

    fn from(_refused: AllocError) -> Self {
        LineFault::Memory
    }
}

impl<T: Drop> From<AllocFailed<T>> for LineFault<'_> {
    ghost from_gives = { λ _ fault. fault ≡ Memory };

    fn from(_refused: AllocFailed<T>) -> Self {
        LineFault::Memory
    }
}

/// What the next word of a line is.
#[derive(Clone, Copy)]
pub enum Wants<'a> {
    /// An option or a file.
    Any,
    /// The value of the option of this name.
    One(&'static str),
    /// The first of two values.
    FirstOf(&'static str),
    /// The second of two values.
    SecondOf(&'static str, &'a str),
}

/// What a word gives, if anything, and what the next one is.
#[derive(Clone, Copy)]
pub struct Step<'a> {
    /// What it gives.
    pub given: Option<Given<'a>>,
    /// What the next word is.
    pub wants: Wants<'a>,
}

/// What the words of a line give, in order, by a peer's options. The first fault is answered.
#[tactic(auto, using(crate::proofs::LineLaws::ahead_of_none))]
pub fn parse_words<'a>(
    alloc: Global,
    rows: &'static [OptionRow],
    words: &[&'a str],
) -> Result<Vec<Given<'a>>, LineFault<'a>>
    ensures means { IfOk result (λ given.
        line_of (map row_model rows.now) (map (λ w. w.now) words.now)
        ≡ ok (map given_model given.items)) }
    ensures refused { IfErr result
        (TellsWrong (line_of (map row_model rows.now) (map (λ w. w.now) words.now))) }
{
    let mut given = Vec::new(alloc);
    take_words(rows, words, &mut given)?;
    Ok(given)
}

/// Puts what the words of a line give behind what was given.
fn take_words<'a>(
    rows: &'static [OptionRow],
    words: &[&'a str],
    given: &mut Vec<Given<'a>>,
) -> Result<(), LineFault<'a>>
    ensures means { OnOk result (ahead (map given_model given.old.items)
        (line_of (map row_model rows.now) (map (λ w. w.now) words.now))
        ≡ ok (map given_model given.new.items)) }
    ensures refused { IfErr result
        (TellsWrong (line_of (map row_model rows.now) (map (λ w. w.now) words.now))) }
{
    let mut wants = Wants::Any;
    for word in words {
        wants = take_word(rows, wants, *word, given)?;
    }
    ended(wants)
}

/// Puts what a word gives, where this is wanted, behind what was given, and answers what the next word is.
fn take_word<'a>(
    rows: &'static [OptionRow],
    wants: Wants<'a>,
    word: &'a str,
    given: &mut Vec<Given<'a>>,
) -> Result<Wants<'a>, LineFault<'a>>
    ensures means { IfOk result (λ next. IsTaken (map row_model rows.now)
        (wants_model wants.entry) word.now (map given_model given.old.items)
        (wants_model next) (map given_model given.new.items)) }
    ensures refused { IfErr result
        (TellsWrong (step_meant (map row_model rows.now) (wants_model wants.entry) word.now)) }
{
    let step = stepped(rows, wants, word)?;
    if let Some(one) = step.given {
        given.push(one)?;
    }
    Ok(step.wants)
}

/// Whether a line may end where this is wanted: it may not where a value is.
fn ended(wants: Wants<'_>) -> Result<(), LineFault<'_>>
    ensures means { OnOk result (at_end (wants_model wants.entry) ≡ ok []) }
    ensures refused { IfErr result (TellsWrong (at_end (wants_model wants.entry))) }
{
    match wants {
        Wants::Any => Ok(()),
        Wants::One(name) | Wants::FirstOf(name) | Wants::SecondOf(name, _) => {
            Err(LineFault::Missing(name))
        }
    }
}

/// What a word gives, where this is wanted. Takes no memory.
fn stepped<'a>(
    rows: &'static [OptionRow],
    wants: Wants<'a>,
    word: &'a str,
) -> Result<Step<'a>, LineFault<'a>>
    ensures means { IfOk result (λ step.
        step_meant (map row_model rows.now) (wants_model wants.entry) word.now
        ≡ ok (step_model step)) }
    ensures refused { IfErr result
        (TellsWrong (step_meant (map row_model rows.now) (wants_model wants.entry) word.now)) }
{
    match wants {
        Wants::Any => option_step(rows, word),
        Wants::One(name) => Ok(gives(name, word, "")),
        Wants::FirstOf(name) => Ok(next(Wants::SecondOf(name, word))),
        Wants::SecondOf(name, first) => Ok(gives(name, first, word)),
    }
}

/// A step that gives an option with its values.
fn gives<'a>(name: &'static str, first: &'a str, second: &'a str) -> Step<'a>
    ensures { step_model result ≡ (
      Some (record {
        name = name.now;
        first = first.now;
        second = second.now;
      }),
      any,
    ) }
{
    let given = Given {
        name,
        first,
        second,
    };
    Step {
        given: Some(given),
        wants: Wants::Any,
    }
}

/// A step that gives nothing yet.
fn next(wants: Wants<'_>) -> Step<'_>
    ensures { step_model result ≡ (None, wants_model wants.entry) }
{
    Step { given: None, wants }
}

/// What a word gives that is an option or a file.
fn option_step<'a>(rows: &'static [OptionRow], word: &'a str) -> Result<Step<'a>, LineFault<'a>>
    ensures means { IfOk result (λ step.
        by_option word.now (option_of (map row_model rows.now) word.now) ≡ ok (step_model step)) }
    ensures refused { IfErr result
        (TellsWrong (by_option word.now (option_of (map row_model rows.now) word.now))) }
{
    match find_option(rows, word) {
        Some(row) => form_step(row),
        None if is_option(word) => Err(LineFault::Unknown(word)),
        None => Ok(gives(FILE, word, "")),
    }
}

/// What an option's word gives.
fn form_step<'a>(row: &OptionRow) -> Result<Step<'a>, LineFault<'a>>
    ensures means { IfOk result (λ step.
        by_form row.now.name.now row.now.form ≡ ok (step_model step)) }
    ensures refused { IfErr result (TellsWrong (by_form row.now.name.now row.now.form)) }
{
    match row.form {
        Form::Flag => Ok(gives(row.name, "", "")),
        Form::One => Ok(next(Wants::One(row.name))),
        Form::Two => Ok(next(Wants::FirstOf(row.name))),
        Form::Help => Err(LineFault::Help),
        Form::Version => Err(LineFault::Version),
    }
}

/// The option that a word gives.
fn find_option(rows: &'static [OptionRow], word: &str) -> Option<&'static OptionRow>
    ensures { option_map (λ row. row_model row.now) result
        ≡ option_of (map row_model rows.now) word.now }
{
    for row in rows {
        if row.word == word {
            return Some(row);
        }
    }
    None
}

/// Whether a word looks like an option: it begins with a hyphen, and has more than that.
fn is_option(word: &str) -> bool
    ensures { result ≡ is_option_word word.now }
{
    let bytes = word.as_bytes();
    bytes.len() > 1 && bytes[0] == b'-'
}
