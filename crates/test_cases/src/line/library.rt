//! The library as a caller uses it: a file is read, edited in a batch, and written.
use arwen_cli::cli::{ArwenError, read_bytes};
use arwen_cli::macho::{MachoContainer, MachoEdit};
use std::alloc::{AllocError, Global};
use std::fs;

/// Gives a library a further run path and another install id: both, or neither where one is refused.
pub(crate) fn relocate(rt: &HostRuntime, path: &str, words: &[&str]) -> Result<(), ArwenError> {
    let bytes = file_at(rt, path)?;
    let new = relocated(rt.alloc(), bytes, words)?;
    Ok(fs::write(rt, path, new.as_slice())?)
}

/// The bytes of the file at a path, of which a few are expected.
fn file_at(rt: &HostRuntime, path: &str) -> Result<Vec<u8>, ArwenError> {
    let mut file = fs::open(rt, path)?;
    read_bytes(rt.alloc(), &mut file, 64)
}

/// The bytes of a library with both.
fn relocated(alloc: Global, bytes: Vec<u8>, words: &[&str]) -> Result<Vec<u8>, ArwenError> {
    let edits = edits_of(alloc, words)?;
    edited(alloc, bytes.as_slice(), edits.as_slice())
}

/// The two edits.
fn edits_of(alloc: Global, words: &[&str]) -> Result<Vec<MachoEdit>, AllocError> {
    let rpath = text_at(alloc, words, 0)?;
    let id = text_at(alloc, words, 1)?;
    let edits = vec![in alloc; MachoEdit::AddRpath(rpath), MachoEdit::ChangeInstallId(id)]?;
    Ok(edits)
}

/// A copy of a word, the empty text where there is none.
fn text_at(alloc: Global, words: &[&str], index: usize) -> Result<String, AllocError> {
    String::from_str(alloc, words.get(index).copied().unwrap_or(""))
}

/// The bytes of a library after edits.
fn edited(alloc: Global, bytes: &[u8], edits: &[MachoEdit]) -> Result<Vec<u8>, ArwenError> {
    let mut library = MachoContainer::parse(alloc, bytes)?;
    library.apply(alloc, edits)?;
    Ok(library.into_bytes(alloc)?)
}
