//! The texts of edits.
ghost use Rattle.std.specs.Prelude.{◌≡◌, Err, Ok, IfErr, IfOk, MatchResult, option_map};
ghost use Rattle.arwen_c_edits.specs.Lent.{TellsWord, by_none, even_in, known as known_edit, one_in, pairs_in, text_model, texts_model, then_read, two_in, word_in};
ghost use Rattle.elf_edits.specs.EditModel.{pair_model, pairs_model, texts_model as bytes_model};

use crate::fault::{ReadError, WrongEdit};
use crate::lent::LentText;
use std::alloc::{AllocError, Global};

/// A copy of a text.
pub(crate) fn copied(alloc: Global, text: &LentText<'_>) -> Result<Vec<u8>, AllocError>
    ensures { IfOk result (λ copy. copy.items ≡ text_model text.now) }
{
    Vec::from_slice(alloc, text.bytes)
}

/// Copies of texts.
pub(crate) fn all_copied(alloc: Global, texts: &[LentText<'_>]) -> Result<Vec<Vec<u8>>, AllocError>
    ensures { IfOk result (λ copies. bytes_model copies.items ≡ texts_model texts.now) }
{
    let mut copies = Vec::with_capacity(alloc, texts.len())?;
    for text in texts {
        copies.push(copied(alloc, text)?)?;
    }
    Ok(copies)
}

/// Copies of an even number of texts, by two. Errors: `WrongCount` of an odd number, `Memory`.
pub(crate) fn pairs_of(
    alloc: Global,
    texts: &[LentText<'_>],
) -> Result<Vec<(Vec<u8>, Vec<u8>)>, ReadError>
    ensures ok { IfOk result (λ pairs.
        even_in (texts_model texts.now) ≡ Ok (pairs_model pairs.items)) }
    ensures err { IfErr result (TellsWord (even_in (texts_model texts.now))) }
{
    if texts.len() % 2 == 0 {
        Ok(pairs_copied(alloc, texts)?)
    } else {
        Err(ReadError::Wrong(WrongEdit::WrongCount))
    }
}

/// Copies of texts by two; of an odd number the last is left out.
fn pairs_copied(
    alloc: Global,
    texts: &[LentText<'_>],
) -> Result<Vec<(Vec<u8>, Vec<u8>)>, AllocError>
    ensures { IfOk result (λ copies.
        pairs_model copies.items ≡ pairs_in (texts_model texts.now)) }
{
    let mut copies = Vec::with_capacity(alloc, texts.len() / 2)?;
    for index in 0..texts.len() / 2 {
        copies.push(pair_copied(alloc, &texts[2 * index], &texts[2 * index + 1])?)?;
    }
    Ok(copies)
}

/// Copies of two texts.
fn pair_copied(
    alloc: Global,
    old: &LentText<'_>,
    new: &LentText<'_>,
) -> Result<(Vec<u8>, Vec<u8>), AllocError>
    ensures { IfOk result (λ pair. pair_model pair ≡ (text_model old.now, text_model new.now)) }
{
    let old = copied(alloc, old)?;
    let new = copied(alloc, new)?;
    Ok((old, new))
}

/// Sees that there is no text. Error: `WrongCount`.
pub(crate) fn no_text(texts: &[LentText<'_>]) -> Result<(), WrongEdit>
    ensures { by_none (texts_model texts.now) ≡ result }
{
    match texts {
        [] => Ok(()),
        _ => Err(WrongEdit::WrongCount),
    }
}

/// The one text. Error: `WrongCount`.
pub(crate) fn one_of<'a>(texts: &'a [LentText<'a>]) -> Result<&'a LentText<'a>, WrongEdit>
    ensures { MatchResult result
        (λ text. one_in (texts_model texts.entry.now) ≡ Ok (text_model text.now))
        (λ wrong. one_in (texts_model texts.entry.now) ≡ Err wrong) }
{
    match texts {
        [text] => Ok(text),
        _ => Err(WrongEdit::WrongCount),
    }
}

/// The one text, which is UTF-8. Errors: `WrongCount`, `NoText`.
pub(crate) fn one_word<'a>(texts: &'a [LentText<'a>]) -> Result<&'a str, WrongEdit>
    ensures { MatchResult result
        (λ word. then_read word_in (one_in (texts_model texts.entry.now)) ≡ Ok word.now)
        (λ wrong. then_read word_in (one_in (texts_model texts.entry.now)) ≡ Err wrong) }
{
    match one_of(texts) {
        Ok(text) => word_of(text.bytes),
        Err(wrong) => Err(wrong),
    }
}

/// The text that bytes are. Error: `NoText` where they are no UTF-8.
pub(crate) fn word_of(bytes: &[u8]) -> Result<&str, WrongEdit>
    ensures { MatchResult result (λ word. word_in bytes.entry.now ≡ Ok word.now)
        (λ wrong. word_in bytes.entry.now ≡ Err wrong) }
{
    match std::str::from_utf8(bytes) {
        Ok(word) => Ok(word),
        Err(_) => Err(WrongEdit::NoText),
    }
}

/// An edit, where its number is known. Error: `UnknownKind`.
pub(crate) fn known<E: Drop>(edit: Option<E>) -> Result<E, ReadError>
    ensures ok { IfOk result (λ read. edit ≡ Some read) }
    ensures err { IfErr result (λ e. (edit ≡ None) × (e ≡ ReadError.Wrong WrongEdit.UnknownKind)) }
{
    match edit {
        Some(edit) => Ok(edit),
        None => Err(ReadError::Wrong(WrongEdit::UnknownKind)),
    }
}
