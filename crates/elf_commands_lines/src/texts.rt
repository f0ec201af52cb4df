//! The bytes of texts and of pairs of texts.
ghost use Rattle.std.specs.Prelude.{◌≡◌, IfOk, map, string_bytes};
ghost use Rattle.elf_edits.specs.EditModel.{pair_model, pairs_model, texts_model};
ghost use Rattle.command_words.specs.WordValues.{text_pair_model};

use std::alloc::{AllocError, Global};

/// The bytes of a text.
pub fn bytes_of(alloc: Global, text: &String) -> Result<Vec<u8>, AllocError>
    ensures { IfOk result (λ bytes. bytes.items ≡ string_bytes text.now) }
{
    Vec::from_slice(alloc, text.as_bytes())
}

/// The bytes of texts.
pub fn texts_of(alloc: Global, words: &[String]) -> Result<Vec<Vec<u8>>, AllocError>
    ensures { IfOk result (λ texts. texts_model texts.items ≡ map string_bytes words.now) }
{
    let mut texts = Vec::with_capacity(alloc, words.len())?;
    for word in words {
        texts.push(bytes_of(alloc, word)?)?;
    }
    Ok(texts)
}

/// The bytes of pairs of texts.
pub fn pairs_copied(
    alloc: Global,
    pairs: &[(String, String)],
) -> Result<Vec<(Vec<u8>, Vec<u8>)>, AllocError>
    ensures { IfOk result (λ copies. pairs_model copies.items ≡ map text_pair_model pairs.now) }
{
    let mut copies = Vec::with_capacity(alloc, pairs.len())?;
    for pair in pairs {
        copies.push(pair_copied(alloc, pair)?)?;
    }
    Ok(copies)
}

/// The bytes of a pair of texts.
fn pair_copied(alloc: Global, pair: &(String, String)) -> Result<(Vec<u8>, Vec<u8>), AllocError>
    ensures { IfOk result (λ copy. pair_model copy ≡ text_pair_model pair.now) }
{
    let key = bytes_of(alloc, &pair.0)?;
    let value = bytes_of(alloc, &pair.1)?;
    Ok((key, value))
}
