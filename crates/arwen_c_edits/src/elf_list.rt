//! Lists of edits of ELF files.
ghost use Rattle.std.specs.Prelude.{◌≡◌, Ok, IfErr, IfOk, map, option_map};
ghost use Rattle.arwen_c_edits.specs.ElfEdits.{elf_edit_read, elf_edits_read, elf_read_by, page_size_read, plain_known, read_model};
ghost use Rattle.arwen_c_edits.specs.Faults.{TellsList};
ghost use Rattle.arwen_c_edits.specs.Lent.{TellsWord, edit_model, texts_model};
ghost use Rattle.elf_edits.specs.EditModel.{edit_model as elf_edit_model};

use crate::elf_kinds::{Takes, elf_takes, no_elf_kind};
use crate::elf_values::{ReadEdit, bare_edit, names_edit, pairs_edit, text_edit};
use crate::fault::{ListError, ReadError, WrongEdit, error_at};
use crate::lent::{LentEdit, LentText};
use crate::texts::{all_copied, copied, known, no_text, one_of, one_word, pairs_of};
use command_words::decimal_number;
use elf_edits::ElfEdit;
use std::alloc::Global;

/// Reads edits of an ELF file from a list. Errors: `Fault` with the first edit that is wrong, `Memory`.
pub fn read_elf_edits(alloc: Global, edits: &[LentEdit<'_>]) -> Result<Vec<ReadEdit>, ListError>
    ensures ok { IfOk result (λ read.
        elf_edits_read (map edit_model edits.now) ≡ Ok (map read_model read.items)) }
    ensures err { IfErr result (TellsList (elf_edits_read (map edit_model edits.now))) }
{
    let mut read = Vec::with_capacity(alloc, edits.len())?;
    for index in 0..edits.len() {
        match read_edit(alloc, &edits[index]) {
            Ok(edit) => read.push(edit)?,
            Err(error) => return Err(error_at(index, error)),
        }
    }
    Ok(read)
}

/// Reads an edit.
fn read_edit(alloc: Global, edit: &LentEdit<'_>) -> Result<ReadEdit, ReadError>
    ensures ok { IfOk result (λ read. elf_edit_read (edit_model edit.now) ≡ Ok (read_model read)) }
    ensures err { IfErr result (TellsWord (elf_edit_read (edit_model edit.now))) }
{
    match elf_takes(edit.kind) {
        Some(takes) => read_by(alloc, takes, edit.kind, edit.texts),
        None => Err(ReadError::Wrong(no_elf_kind(edit.kind))),
    }
}

/// Reads an edit that takes this.
fn read_by(
    alloc: Global,
    takes: Takes,
    kind: u32,
    texts: &[LentText<'_>],
) -> Result<ReadEdit, ReadError>
    ensures ok { IfOk result (λ read.
        elf_read_by takes kind (texts_model texts.now) ≡ Ok (read_model read)) }
    ensures err { IfErr result (TellsWord (elf_read_by takes kind (texts_model texts.now))) }
{
    match takes {
        Takes::Nothing => read_bare(kind, texts),
        Takes::OneText => read_text(alloc, kind, texts),
        Takes::Names => read_names(alloc, kind, texts),
        Takes::Pairs => read_pairs(alloc, kind, texts),
        Takes::Abi => read_abi(alloc, texts),
        Takes::PageSize => read_page_size(texts),
    }
}

/// Reads an edit that takes no text.
fn read_bare(kind: u32, texts: &[LentText<'_>]) -> Result<ReadEdit, ReadError>
    ensures ok { IfOk result (λ read.
        elf_read_by Takes.Nothing kind (texts_model texts.now) ≡ Ok (read_model read)) }
    ensures err { IfErr result (TellsWord
        (elf_read_by Takes.Nothing kind (texts_model texts.now))) }
{
    match no_text(texts) {
        Ok(()) => plain(bare_edit(kind)),
        Err(wrong) => Err(ReadError::Wrong(wrong)),
    }
}

/// An edit that a batch takes, where its number is known.
fn plain(edit: Option<ElfEdit>) -> Result<ReadEdit, ReadError>
    ensures ok { IfOk result (λ read.
        plain_known (option_map elf_edit_model edit) ≡ Ok (read_model read)) }
    ensures err { IfErr result (TellsWord (plain_known (option_map elf_edit_model edit))) }
{
    match edit {
        Some(edit) => Ok(ReadEdit::Plain(edit)),
        None => Err(ReadError::Wrong(WrongEdit::UnknownKind)),
    }
}

/// Reads an edit that takes one text.
fn read_text(alloc: Global, kind: u32, texts: &[LentText<'_>]) -> Result<ReadEdit, ReadError>
    ensures ok { IfOk result (λ read.
        elf_read_by Takes.OneText kind (texts_model texts.now) ≡ Ok (read_model read)) }
    ensures err { IfErr result (TellsWord
        (elf_read_by Takes.OneText kind (texts_model texts.now))) }
{
    match one_of(texts) {
        Ok(text) => plain(text_edit(kind, copied(alloc, text)?)),
        Err(wrong) => Err(ReadError::Wrong(wrong)),
    }
}

/// Reads an edit that takes names.
fn read_names(alloc: Global, kind: u32, texts: &[LentText<'_>]) -> Result<ReadEdit, ReadError>
    ensures ok { IfOk result (λ read.
        elf_read_by Takes.Names kind (texts_model texts.now) ≡ Ok (read_model read)) }
    ensures err { IfErr result (TellsWord
        (elf_read_by Takes.Names kind (texts_model texts.now))) }
{
    let names = all_copied(alloc, texts)?;
    known(names_edit(kind, names))
}

/// Reads an edit that takes pairs of an old name and a new one.
fn read_pairs(alloc: Global, kind: u32, texts: &[LentText<'_>]) -> Result<ReadEdit, ReadError>
    ensures ok { IfOk result (λ read.
        elf_read_by Takes.Pairs kind (texts_model texts.now) ≡ Ok (read_model read)) }
    ensures err { IfErr result (TellsWord
        (elf_read_by Takes.Pairs kind (texts_model texts.now))) }
{
    match pairs_of(alloc, texts) {
        Ok(pairs) => known(pairs_edit(kind, pairs)),
        Err(error) => Err(error),
    }
}

/// Reads the edit that takes the name of an ABI.
fn read_abi(alloc: Global, texts: &[LentText<'_>]) -> Result<ReadEdit, ReadError>
    ensures ok { IfOk result (λ read.
        elf_read_by Takes.Abi 0 (texts_model texts.now) ≡ Ok (read_model read)) }
    ensures err { IfErr result (TellsWord
        (elf_read_by Takes.Abi 0 (texts_model texts.now))) }
{
    match one_word(texts) {
        Ok(word) => Ok(ReadEdit::Plain(ElfEdit::SetOsAbi(String::from_str(alloc, word)?))),
        Err(wrong) => Err(ReadError::Wrong(wrong)),
    }
}

/// Reads the edit that takes a page size.
fn read_page_size(texts: &[LentText<'_>]) -> Result<ReadEdit, ReadError>
    ensures ok { IfOk result (λ read.
        elf_read_by Takes.PageSize 0 (texts_model texts.now) ≡ Ok (read_model read)) }
    ensures err { IfErr result (TellsWord
        (elf_read_by Takes.PageSize 0 (texts_model texts.now))) }
{
    match one_word(texts) {
        Ok(word) => page_size(word),
        Err(wrong) => Err(ReadError::Wrong(wrong)),
    }
}

/// The edit that sets the page size to the number that a word writes.
fn page_size(word: &str) -> Result<ReadEdit, ReadError>
    ensures ok { IfOk result (λ read. page_size_read word.now ≡ Ok (read_model read)) }
    ensures err { IfErr result (TellsWord (page_size_read word.now)) }
{
    match decimal_number(word) {
        Some(size) => Ok(ReadEdit::Plain(ElfEdit::SetPageSize(size))),
        None => Err(ReadError::Wrong(WrongEdit::NoText)),
    }
}
