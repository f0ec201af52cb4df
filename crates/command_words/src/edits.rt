//! The words of several edits on one line, whatever kind of file they are of.
ghost use Rattle.std.specs.Prelude.{◌≡◌, ◌++◌, ◌∷◌, [], Ok, IfErr, IfOk, OnOk, map, option_map, string_bytes};
ghost use Rattle.command_words.specs.Groups.{IsWrong, fault_at, other_words as wrong_words, row_asked};
ghost use Rattle.command_words.specs.Rows.{given_model, given_without_path, kind_model, options, path_and_words, row_model};
ghost use Rattle.command_words.specs.Rows.{text_and_path, texts_and_path};
ghost use Rattle.command_words.specs.WordValues.{value_answer};
ghost use Rattle.command_words.specs.declared.edits.EditsError.TheVariants.{Memory};

use crate::rows::{Row, ValueForm, Values, find_row};
use crate::word_values::ValueError;
use std::alloc::{AllocError, AllocFailed, Global};
use std::fmt;
use thiserror::Error;

/// What is wrong with a group of words.
#[derive(Clone, Copy, Debug, PartialEq, Eq, Error)]
pub enum EditKind {
    /// The group has no word.
    #[error("Empty")]
    Empty,
    /// The group's first word names no edit.
    #[error("UnknownEdit")]
    UnknownEdit,
    /// The edit takes another number of words.
    #[error("WrongWords")]
    WrongWords,
    /// A word has no `=` between a key and its value.
    #[error("KeyValue")]
    KeyValue,
    /// A word is no decimal number of 32 bits.
    #[error("Number")]
    Number,
}

/// The first faulty group of an edit list, and what is wrong with it.
#[derive(Clone, Copy, Debug, PartialEq, Eq)]
pub struct EditFault {
    /// The group, counted from 0.
    pub group: usize,
    /// What is wrong with the group.
    pub kind: EditKind,
    /// The word of the group that is wrong, counted from 0: the edit's name, or the first word that
    /// is missing or too many.
    pub word: usize,
    /// How many words the edit takes behind its name; 0 where no edit is named.
    pub takes: usize,
}

impl EditFault {
    /// Writes which word is missing or too many, and how many the edit takes.
    fn write_count<W: fmt::Write>(&self, f: &mut fmt::Formatter<W>) -> fmt::Result {
        let takes = self.takes;
        let what = if self.word > takes {
            "too many"
        } else {
            "missing"
        };
        self.write_word(f)?;
        write!(f, " is {what}, the edit takes {takes}")
    }

    /// Writes which word is wrong.
    fn write_word<W: fmt::Write>(&self, f: &mut fmt::Formatter<W>) -> fmt::Result {
        let word = self.word;
        write!(f, "word {word}")
    }
}

impl fmt::Display for EditFault {
    fn fmt<W: fmt::Write>(&self, f: &mut fmt::Formatter<W>) -> fmt::Result {
        let group = self.group;
        let kind = self.kind;
        write!(f, "group {group}: {kind}: ")?;
        match kind {
            EditKind::Empty => f.write_str("no edit stands there"),
            EditKind::UnknownEdit => f.write_str("its first word names no edit"),
            EditKind::WrongWords => self.write_count(f),
            EditKind::KeyValue | EditKind::Number => self.write_word(f),
        }
    }
}

impl std::error::Error for EditFault {}

/// Why words were not read as edits.
#[derive(Debug, Drop, Error)]
pub enum EditsError {
    /// The words are no list of edits.
    #[error("Fault")]
    Fault(EditFault),
    /// There was no memory.
    #[error("out of memory")]
    Memory,
}

impl From<AllocError> for EditsError {
    ghost from_gives = { λ _ answer. answer ≡ Memory };

    fn from(_error: AllocError) -> EditsError {
        EditsError::Memory
    }
}

impl<T: Drop> From<AllocFailed<T>> for EditsError {
    ghost from_gives = { λ _ answer. answer ≡ Memory };

    fn from(_error: AllocFailed<T>) -> EditsError {
        EditsError::Memory
    }
}

/// The error of the group of this number that names no edit: of this kind, at its first word.
pub fn no_edit(group: usize, kind: EditKind) -> EditsError
    ensures { result ≡ EditsError.Fault
        (record { group = group; kind = kind; word = 0; takes = 0 }) }
{
    EditsError::Fault(EditFault {
        group,
        kind,
        word: 0,
        takes: 0,
    })
}

/// The row of the edit that the group of this number names by its first word, and the words behind it. Errors:
/// `Empty` where there is no word, `UnknownEdit` where the first names no edit. Takes no memory.
pub fn edit_row<'a>(
    rows: &'static [Row],
    group: usize,
    words: &'a [&'a str],
) -> Result<(&'static Row, &'a [&'a str]), EditsError>
    ensures ok { IfOk result (λ found.
        row_asked (map row_model rows.entry.now) (map (λ w. w.now) words.entry.now)
        ≡ Ok (row_model found.0.now, map (λ w. w.now) found.1.now)) }
    ensures err { IfErr result (IsWrong group
        (row_asked (map row_model rows.entry.now) (map (λ w. w.now) words.entry.now))) }
{
    let Some((name, words)) = words.split_first() else {
        return Err(no_edit(group, EditKind::Empty));
    };
    let Some(row) = find_row(rows, name) else {
        return Err(no_edit(group, EditKind::UnknownEdit));
    };
    if row.is_edit {
        Ok((row, words))
    } else {
        Err(no_edit(group, EditKind::UnknownEdit))
    }
}

/// The error of the group of this number with another number of words than its edit takes: at the first
/// word that is missing or too many.
pub fn other_words(group: usize, form: &ValueForm, words: &[&str]) -> EditsError
    ensures { result ≡ EditsError.Fault (fault_at group
        (wrong_words (kind_model form.now) (map (λ w. w.now) words.now))) }
{
    let takes = form.word_count();
    EditsError::Fault(EditFault {
        group,
        kind: EditKind::WrongWords,
        word: words.len().min(takes) + 1,
        takes,
    })
}

/// The error of the group of this number whose values are not what its edit takes.
pub fn no_values(group: usize, error: ValueError) -> EditsError
    ensures { result ≡ value_answer group error }
{
    let (kind, word, takes) = match error {
        ValueError::NoNumber(_) => (EditKind::Number, 1, 1),
        ValueError::NoPair { place, .. } => (EditKind::KeyValue, place, 0),
        ValueError::Memory => return EditsError::Memory,
    };
    EditsError::Fault(EditFault {
        group,
        kind,
        word,
        takes,
    })
}

/// The values that the words of a group are, with an empty path; `None` where there are too many words or
/// too few. Error: `AllocError`.
pub fn values_without_path(
    alloc: Global,
    form: &ValueForm,
    words: &[&str],
) -> Result<Option<Values>, AllocError>
    ensures { IfOk result (λ values. option_map given_model values
        ≡ given_without_path (kind_model form.now) (map (λ w. w.now) words.now)) }
{
    match (form, words) {
        (ValueForm::Path, []) => Ok(Some(Values::Path(String::new(alloc)))),
        (ValueForm::Text(_), [word]) => text_alone(alloc, word),
        (ValueForm::Texts(..), [first, second]) => texts_alone(alloc, first, second),
        (ValueForm::Words(_), words) => words_alone(alloc, words),
        (ValueForm::Options(_), []) => Ok(Some(no_options(alloc))),
        _ => Ok(None),
    }
}

/// A text, with an empty path.
fn text_alone(alloc: Global, word: &str) -> Result<Option<Values>, AllocError>
    ensures { IfOk result (λ values. option_map given_model values
        ≡ given_without_path text_and_path (word.now ∷ [])) }
{
    let word = String::from_str(alloc, word)?;
    Ok(Some(Values::Text(word, String::new(alloc))))
}

/// Two texts, with an empty path.
fn texts_alone(alloc: Global, first: &str, second: &str) -> Result<Option<Values>, AllocError>
    ensures { IfOk result (λ values. option_map given_model values
        ≡ given_without_path texts_and_path (first.now ∷ second.now ∷ [])) }
{
    let first = String::from_str(alloc, first)?;
    let second = String::from_str(alloc, second)?;
    Ok(Some(Values::Texts(first, second, String::new(alloc))))
}

/// Any number of words, with an empty path.
fn words_alone(alloc: Global, words: &[&str]) -> Result<Option<Values>, AllocError>
    ensures { IfOk result (λ values. option_map given_model values
        ≡ given_without_path path_and_words (map (λ w. w.now) words.now)) }
{
    let words = copies(alloc, words)?;
    Ok(Some(Values::Words(String::new(alloc), words)))
}

/// No values of an option, with an empty path.
fn no_options(alloc: Global) -> Values
    ensures { given_model result ≡ options [] [] }
{
    Values::Options(String::new(alloc), Vec::new(alloc))
}

/// Copies of words, which own their texts. Error: `AllocError`.
pub fn copies(alloc: Global, words: &[&str]) -> Result<Vec<String>, AllocError>
    ensures { IfOk result (λ copies.
        map string_bytes copies.items ≡ map (λ word. word.now) words.now) }
{
    let mut copies = Vec::with_capacity(alloc, words.len())?;
    for word in words {
        push_copy(alloc, &mut copies, word)?;
    }
    Ok(copies)
}

/// Puts a word, owned, behind others.
fn push_copy(alloc: Global, copies: &mut Vec<String>, word: &str) -> Result<(), AllocError>
    ensures { OnOk result (map string_bytes copies.new.items
        ≡ map string_bytes copies.old.items ++ word.now ∷ []) }
{
    copies.push(String::from_str(alloc, word)?)?;
    Ok(())
}

/// Words as texts that are lent. Error: `AllocError`.
pub fn words_of<'a>(alloc: Global, words: &'a [String]) -> Result<Vec<&'a str>, AllocError>
    ensures { IfOk result (λ texts.
        map (λ text. text.now) texts.items ≡ map string_bytes words.now) }
{
    let mut texts = Vec::with_capacity(alloc, words.len())?;
    for word in words {
        texts.push(word.as_str())?;
    }
    Ok(texts)
}

/// A copy of a text. Error: `AllocError`.
pub fn copied(alloc: Global, text: &String) -> Result<String, AllocError>
    ensures { IfOk result (λ copy. string_bytes copy ≡ string_bytes text.now) }
{
    String::from_str(alloc, text.as_str())
}
