//! Texts of a file as UTF-8, with U+FFFD for what is no character.
ghost use Rattle.std.specs.Prelude.{◌≡◌, IfOk, map, option_map, string_bytes};
ghost use Rattle.elf_image.specs.Answers.{borrowed};
ghost use Rattle.arwen_elf.specs.Prints.{lossily};
ghost use Rattle.arwen_cli_facts.specs.Texts.{text_model, texts_model};

use bstr::ByteSlice;
use std::alloc::{AllocError, Global};

/// The text of bytes.
pub(crate) fn text_of(alloc: Global, bytes: &[u8]) -> Result<String, AllocError>
    ensures { IfOk result (λ text. string_bytes text ≡ lossily bytes.now) }
{
    let mut text = String::new(alloc);
    bytes.to_str_lossy_into(&mut text)?;
    Ok(text)
}

/// The text of bytes that may be missing.
pub(crate) fn text_if(alloc: Global, bytes: Option<&[u8]>) -> Result<Option<String>, AllocError>
    ensures { IfOk result (λ text.
        text_model text ≡ option_map lossily (option_map borrowed bytes.entry)) }
{
    match bytes {
        None => Ok(None),
        Some(bytes) => Ok(Some(text_of(alloc, bytes)?)),
    }
}

/// The text of each of several byte strings.
pub(crate) fn texts_of(alloc: Global, list: &[&[u8]]) -> Result<Vec<String>, AllocError>
    ensures { IfOk result (λ texts.
        texts_model texts.items ≡ map lossily (map borrowed list.now)) }
{
    let mut texts = Vec::new(alloc);
    for bytes in list {
        texts.push(text_of(alloc, *bytes)?)?;
    }
    Ok(texts)
}
