//! The words of a line. Blanks stand between words, and `''` is the empty word. In words that are read by their marks `~`
//! stands for a NUL and `^` for a blank.
ghost use Rattle.std.specs.Prelude.{◌≡◌, ◌<◌, ◌++◌, ◌∷◌, [], IfErr, IfOk, OnOk, map};
ghost use Rattle.command_words.specs.Parts.{texts_lent};
ghost use Rattle.elf_commands_lines.specs.Groups.{edits_model};
ghost use Rattle.elf_commands.specs.Groups.{plain_of};
ghost use Rattle.test_cases_files.specs.Words.{AreTextsOf, NameEdits, TellsNoEdits, cut_at, marked_words, unmarked, unquoted, words_between};

use crate::files::text_of;
use command_words::{EditsError, filled_parts};
use elf_commands::files::ElfEdit;
use elf_commands::{parse_elf_edits, plain_edits};
use std::alloc::{AllocError, Global};

/// The first word of a line, which says what kind of line it is, and what stands behind the blank.
pub fn split_kind(line: &str) -> (&str, &str)
    ensures { (result.0.now, result.1.now) ≡ cut_at 32 line.now }
{
    match line.split_once(' ') {
        Some(parts) => parts,
        None => (line, ""),
    }
}

/// What stands before a `>`, and what behind it.
pub fn split_parts(line: &str) -> (&str, &str)
    ensures { (result.0.now, result.1.now) ≡ cut_at 62 line.now }
{
    match line.split_once('>') {
        Some(parts) => parts,
        None => (line, ""),
    }
}

/// What a word is.
fn word_of(word: &str) -> &str
    ensures { result.now ≡ unquoted word.entry.now }
{
    if word == "''" { "" } else { word }
}

/// Puts an item behind others.
pub fn push<T: Drop>(items: &mut Vec<T>, item: T) -> Result<(), AllocError>
    ensures { OnOk result (items.new.items ≡ items.old.items ++ item ∷ []) }
{
    items.push(item)?;
    Ok(())
}

/// The words of a text between which an ASCII character stands. An empty part is none.
pub fn split_words<'t>(
    alloc: Global,
    text: &'t str,
    separator: char,
) -> Result<Vec<&'t str>, AllocError>
    requires { separator < 128 }
    ensures { IfOk result (λ words. texts_lent words.items ≡ words_between separator text.now) }
{
    let parts = filled_parts(alloc, text, separator)?;
    words_of(alloc, parts.as_slice())
}

/// The words that parts are.
fn words_of<'t>(alloc: Global, parts: &[&'t str]) -> Result<Vec<&'t str>, AllocError>
    ensures { IfOk result (λ words. texts_lent words.items ≡ map unquoted (texts_lent parts.now)) }
{
    let mut words = Vec::new(alloc);
    for part in parts {
        words.push(word_of(part))?;
    }
    Ok(words)
}

/// The edits of ELF files that the words of a line are, by their marks: those that a batch takes.
pub fn edits_of(alloc: Global, line: &str) -> Result<Vec<ElfEdit>, EditsError>
    ensures ok { IfOk result (λ edits. NameEdits (marked_words line.now)
        (λ named. edits_model edits.items ≡ plain_of named)) }
    ensures err { IfErr result (TellsNoEdits (marked_words line.now)) }
{
    let texts = texts_of(alloc, line)?;
    edits_in(alloc, texts.as_slice())
}

/// The edits that texts are.
fn edits_in(alloc: Global, texts: &[Vec<u8>]) -> Result<Vec<ElfEdit>, EditsError>
    ensures ok { IfOk result (λ edits. NameEdits (map (λ text. text.items) texts.now)
        (λ named. edits_model edits.items ≡ plain_of named)) }
    ensures err { IfErr result (TellsNoEdits (map (λ text. text.items) texts.now)) }
{
    let words = lent_texts(alloc, texts)?;
    let edits = parse_elf_edits(alloc, words.as_slice())?;
    Ok(plain_edits(alloc, edits)?)
}

/// Bytes as texts, each the empty one where they are no UTF-8.
fn lent_texts<'t>(alloc: Global, texts: &'t [Vec<u8>]) -> Result<Vec<&'t str>, AllocError>
    ensures { IfOk result (λ words.
        AreTextsOf (map (λ text. text.items) texts.now) (texts_lent words.items)) }
{
    let mut words = Vec::new(alloc);
    for text in texts {
        words.push(text_of(text.as_slice()))?;
    }
    Ok(words)
}

/// The byte that a byte of a word stands for.
fn byte_of(mark: u8) -> u8
    ensures { result ≡ unmarked mark }
{
    match mark {
        b'^' => b' ',
        b'~' => 0,
        other => other,
    }
}

/// The bytes that a word stands for.
fn bytes_of(alloc: Global, word: &str) -> Result<Vec<u8>, AllocError>
    ensures { IfOk result (λ bytes. bytes.items ≡ map unmarked word.now) }
{
    let mut bytes = Vec::new(alloc);
    for mark in word.as_bytes() {
        bytes.push(byte_of(*mark))?;
    }
    Ok(bytes)
}

/// The words of a line by their marks, as bytes.
pub fn texts_of(alloc: Global, line: &str) -> Result<Vec<Vec<u8>>, AllocError>
    ensures { IfOk result (λ texts.
        map (λ text. text.items) texts.items ≡ marked_words line.now) }
{
    let words = split_words(alloc, line, ' ')?;
    texts_in(alloc, words.as_slice())
}

/// The bytes that words stand for.
fn texts_in(alloc: Global, words: &[&str]) -> Result<Vec<Vec<u8>>, AllocError>
    ensures { IfOk result (λ texts. map (λ text. text.items) texts.items
        ≡ map (map unmarked) (texts_lent words.now)) }
{
    let mut texts = Vec::new(alloc);
    for word in words {
        texts.push(bytes_of(alloc, word)?)?;
    }
    Ok(texts)
}
