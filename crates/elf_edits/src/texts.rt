//! Texts of run paths, and NULs in texts.
ghost use Rattle.std.specs.Prelude.{◌≡◌, ◌∷◌, [], ◌++◌, IfOk};
ghost use Rattle.std.specs.List.{flat_map, list_any};
ghost use Rattle.elf_edits.specs.Edit.{all_but_last};
ghost use Rattle.elf_edits.specs.TextModel.{pairs_model, texts_model};
ghost use Rattle.elf_edits.specs.Entries.{with_directories, with_each_added};
ghost use Rattle.elf_edits.specs.Texts.{behind_colons, holds_nul as nul_in, joined_by_colons};

use crate::constants::COLON;
use std::alloc::{AllocError, Global};

// Whether a text holds a NUL.
pub(crate) fn holds_nul(text: &[u8]) -> bool
    ensures { result ≡ nul_in text.now }
{
    text.contains(&0)
}

/// Whether one of some texts holds a NUL. Takes no memory.
pub fn any_nul(texts: &[Vec<u8>]) -> bool
    ensures { result ≡ list_any nul_in (texts_model texts.now) }
{
    for text in texts {
        if holds_nul(text.as_slice()) {
            return true;
        }
    }
    false
}

/// Whether a text of some pairs does. Takes no memory.
pub fn any_nul_in_pairs(pairs: &[(Vec<u8>, Vec<u8>)]) -> bool
    ensures { result ≡ list_any nul_in (flat_map (λ pair. pair.0 ∷ pair.1 ∷ [])
        (pairs_model pairs.now)) }
{
    for (old, new) in pairs {
        if holds_nul(old.as_slice()) || holds_nul(new.as_slice()) {
            return true;
        }
    }
    false
}

// Whether there is a NUL in bytes before the last one.
pub(crate) fn nul_before_end(bytes: &[u8]) -> bool
    ensures { result ≡ list_any nul_in (all_but_last bytes.now ∷ []) }
{
    match bytes.len().checked_sub(1) {
        None => false,
        Some(last) => holds_nul(&bytes[..last]),
    }
}

// Puts a directory behind a text: behind a colon, or alone where the text is empty.
fn add_directory(text: &mut Vec<u8>, added: &[u8]) -> Result<(), AllocError>
    ensures { IfOk result (λ _. text.new.items ≡ with_directories text.old.items added.now) }
{
    if !text.is_empty() {
        text.push(COLON)?;
    }
    text.extend_from_slice(added)
}

// A run path with each of some directories added in turn.
pub(crate) fn with_each_directory(
    alloc: Global,
    text: &[u8],
    directories: &[Vec<u8>],
) -> Result<Vec<u8>, AllocError>
    ensures { IfOk result (λ made. made.items
        ≡ with_each_added (texts_model directories.now) text.now) }
{
    let mut made = Vec::from_slice(alloc, text)?;
    for added in directories {
        add_directory(&mut made, added.as_slice())?;
    }
    Ok(made)
}

// Puts each text behind a colon.
fn put_behind(made: &mut Vec<u8>, texts: &[Vec<u8>]) -> Result<(), AllocError>
    ensures { IfOk result (λ _. made.new.items
        ≡ made.old.items ++ behind_colons (texts_model texts.now)) }
{
    for text in texts {
        made.push(COLON)?;
        made.extend_from_slice(text.as_slice())?;
    }
    Ok(())
}

// Texts with a colon between each two.
pub(crate) fn join(alloc: Global, texts: &[Vec<u8>]) -> Result<Vec<u8>, AllocError>
    ensures { IfOk result (λ made. made.items ≡ joined_by_colons (texts_model texts.now)) }
{
    if texts.is_empty() {
        return Ok(Vec::new(alloc));
    }
    let mut made = Vec::from_slice(alloc, texts[0].as_slice())?;
    put_behind(&mut made, &texts[1..])?;
    Ok(made)
}
