//! Lists of edits of Mach-O files.
ghost use Rattle.std.specs.Prelude.{◌≡◌, Err, Ok, IfErr, IfOk, MatchResult, map, option_map, string_bytes};
ghost use Rattle.arwen_c_edits.specs.Faults.{TellsList};
ghost use Rattle.arwen_c_edits.specs.Lent.{TellsWord, edit_model, texts_model, then_read, two_in};
ghost use Rattle.arwen_c_edits.specs.MachoEdits.{macho_edit_read, macho_edits_read, macho_read_by, macho_takes as takes_told, no_macho_kind as no_kind_told, two_words as two_told, word_call as word_told, words_call as words_told};
ghost use Rattle.macho_edits.specs.Batch.{call_made, calls_of};

use crate::elf_kinds::elf_takes;
use crate::fault::{ListError, ReadError, WrongEdit, error_at};
use crate::lent::{LentEdit, LentText};
use crate::numbers::{
    MACHO_ADD_RPATH, MACHO_CHANGE_INSTALL_ID, MACHO_CHANGE_INSTALL_NAME, MACHO_CHANGE_RPATH,
    MACHO_DELETE_RPATH,
};
use crate::texts::{known, one_word, word_of};
use macho_edits::batch::MachoEdit;
use std::alloc::{AllocError, Global};

/// How many words an edit of a Mach-O file takes.
#[derive(Clone, Copy, Debug)]
pub enum Words {
    /// One.
    One,
    /// An old one and a new one.
    Two,
}

/// Reads edits of a Mach-O file from a list. Errors: `Fault` with the first edit that is wrong, `Memory`.
pub fn read_macho_edits(alloc: Global, edits: &[LentEdit<'_>]) -> Result<Vec<MachoEdit>, ListError>
    ensures ok { IfOk result (λ read.
        macho_edits_read (map edit_model edits.now) ≡ Ok (calls_of read.items)) }
    ensures err { IfErr result (TellsList (macho_edits_read (map edit_model edits.now))) }
{
    let mut read = Vec::with_capacity(alloc, edits.len())?;
    for index in 0..edits.len() {
        match read_edit(alloc, &edits[index]) {
            Ok(edit) => read.push(edit)?,
            Err(error) => return Err(error_at(index, error)),
        }
    }
    Ok(read)
}

/// Reads an edit.
fn read_edit(alloc: Global, edit: &LentEdit<'_>) -> Result<MachoEdit, ReadError>
    ensures ok { IfOk result (λ read. macho_edit_read (edit_model edit.now) ≡ Ok (call_made read)) }
    ensures err { IfErr result (TellsWord (macho_edit_read (edit_model edit.now))) }
{
    match macho_takes(edit.kind) {
        Some(Words::One) => read_word(alloc, edit.kind, edit.texts),
        Some(Words::Two) => read_words(alloc, edit.kind, edit.texts),
        None => Err(ReadError::Wrong(no_macho_kind(edit.kind))),
    }
}

/// How many words the edit of a number takes; `None` for a number of none.
#[tactic(auto, unfolding(crate::specs::MachoEdits::macho_takes))]
fn macho_takes(kind: u32) -> Option<Words>
    ensures { result ≡ takes_told kind }
{
    match kind {
        MACHO_ADD_RPATH | MACHO_CHANGE_INSTALL_ID | MACHO_DELETE_RPATH => Some(Words::One),
        MACHO_CHANGE_INSTALL_NAME | MACHO_CHANGE_RPATH => Some(Words::Two),
        _ => None,
    }
}

/// What is wrong with an edit of no number of Mach-O files.
fn no_macho_kind(kind: u32) -> WrongEdit
    ensures { result ≡ no_kind_told kind }
{
    match elf_takes(kind) {
        Some(_) => WrongEdit::OtherFormat,
        None => WrongEdit::UnknownKind,
    }
}

/// Reads an edit that takes one word.
fn read_word(alloc: Global, kind: u32, texts: &[LentText<'_>]) -> Result<MachoEdit, ReadError>
    ensures ok { IfOk result (λ read.
        macho_read_by Words.One kind (texts_model texts.now) ≡ Ok (call_made read)) }
    ensures err { IfErr result (TellsWord (macho_read_by Words.One kind (texts_model texts.now))) }
{
    match one_word(texts) {
        Ok(word) => known(word_edit(kind, String::from_str(alloc, word)?)),
        Err(wrong) => Err(ReadError::Wrong(wrong)),
    }
}

/// The edit of a number that takes one word.
#[tactic(auto, unfolding(crate::specs::MachoEdits::word_call))]
fn word_edit(kind: u32, word: String) -> Option<MachoEdit>
    ensures { option_map call_made result ≡ word_told kind (string_bytes word) }
{
    match kind {
        MACHO_ADD_RPATH => Some(MachoEdit::AddRpath(word)),
        MACHO_CHANGE_INSTALL_ID => Some(MachoEdit::ChangeInstallId(word)),
        MACHO_DELETE_RPATH => Some(MachoEdit::RemoveRpath(word)),
        _ => None,
    }
}

/// Reads an edit that takes an old word and a new one.
fn read_words(alloc: Global, kind: u32, texts: &[LentText<'_>]) -> Result<MachoEdit, ReadError>
    ensures ok { IfOk result (λ read.
        macho_read_by Words.Two kind (texts_model texts.now) ≡ Ok (call_made read)) }
    ensures err { IfErr result (TellsWord (macho_read_by Words.Two kind (texts_model texts.now))) }
{
    match two_words(texts) {
        Ok((old, new)) => {
            let (old, new) = both(alloc, old, new)?;
            known(words_edit(kind, old, new))
        }
        Err(wrong) => Err(ReadError::Wrong(wrong)),
    }
}

/// Copies of two words.
fn both(alloc: Global, old: &str, new: &str) -> Result<(String, String), AllocError>
    ensures { IfOk result (λ words.
        (string_bytes words.0 ≡ old.now) × (string_bytes words.1 ≡ new.now)) }
{
    let old = String::from_str(alloc, old)?;
    let new = String::from_str(alloc, new)?;
    Ok((old, new))
}

/// The two texts, which are UTF-8. Errors: `WrongCount`, `NoText`.
fn two_words<'a>(texts: &'a [LentText<'a>]) -> Result<(&'a str, &'a str), WrongEdit>
    ensures { MatchResult result
        (λ words. then_read two_told (two_in (texts_model texts.entry.now))
        ≡ Ok (words.0.now, words.1.now))
        (λ wrong. then_read two_told (two_in (texts_model texts.entry.now)) ≡ Err wrong) }
{
    match texts {
        [old, new] => words_of(old.bytes, new.bytes),
        _ => Err(WrongEdit::WrongCount),
    }
}

/// The texts that bytes are. Error: `NoText` where they are no UTF-8.
fn words_of<'a>(old: &'a [u8], new: &'a [u8]) -> Result<(&'a str, &'a str), WrongEdit>
    ensures { MatchResult result
        (λ words. two_told (old.entry.now, new.entry.now) ≡ Ok (words.0.now, words.1.now))
        (λ wrong. two_told (old.entry.now, new.entry.now) ≡ Err wrong) }
{
    match word_of(old) {
        Ok(old) => match word_of(new) {
            Ok(new) => Ok((old, new)),
            Err(wrong) => Err(wrong),
        },
        Err(wrong) => Err(wrong),
    }
}

/// The edit of a number that takes an old word and a new one.
#[tactic(auto, unfolding(crate::specs::MachoEdits::words_call))]
fn words_edit(kind: u32, old: String, new: String) -> Option<MachoEdit>
    ensures { option_map call_made result
        ≡ words_told kind (string_bytes old) (string_bytes new) }
{
    match kind {
        MACHO_CHANGE_INSTALL_NAME => Some(MachoEdit::ChangeInstallName(old, new)),
        MACHO_CHANGE_RPATH => Some(MachoEdit::ChangeRpath(old, new)),
        _ => None,
    }
}
