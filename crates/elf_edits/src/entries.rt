//! Entries of the dynamic list (gABI, Dynamic Section), one at a time.
ghost use Rattle.std.specs.Prelude.{◌≡◌, IfOk, option_map, unwrap_or};
ghost use Rattle.elf_image.specs.Answers.{borrowed};
ghost use Rattle.elf_image.specs.Dynamic.{Text as text_of_tag};
ghost use Rattle.elf_image.specs.ImageModel.{entry_model};
ghost use Rattle.elf_edits.specs.Changes.{name_for};
ghost use Rattle.elf_edits.specs.TextModel.{texts_model};
ghost use Rattle.elf_edits.specs.Entries.{first_needed, is_run_path as has_run_path, with_bits as with_those_bits, with_each_added, with_tag as with_that_tag, with_text_changed};

use crate::texts::with_each_directory;
use elf_image::Dynamic;
use elf_image::constants::{DT_NEEDED, DT_RPATH, DT_RUNPATH};
use patch_bytes::ByteString;
use std::alloc::{AllocError, Global};
use std::collections::HashMap;

/// Whether the entry has a run path: DT_RPATH or DT_RUNPATH. Takes no memory.
pub fn is_run_path(entry: &Dynamic<'_>) -> bool
    ensures { result ≡ has_run_path (entry_model entry.now) }
{
    entry.has_tag(DT_RPATH) || entry.has_tag(DT_RUNPATH)
}

/// The name of the library that an entry needs (DT_NEEDED), `None` where it needs none. Takes no memory.
pub fn needed_name<'e>(entry: &'e Dynamic<'_>) -> Option<&'e [u8]>
    ensures { option_map borrowed result ≡ first_needed (entry_model entry.now) }
{
    match entry {
        Dynamic::Text { tag, val } if *tag == DT_NEEDED => Some(val.as_slice()),
        _ => None,
    }
}

// An entry with a text of its own.
pub(crate) fn text_entry<'d>(
    alloc: Global,
    tag: u64,
    text: &[u8],
) -> Result<Dynamic<'d>, AllocError>
    ensures { IfOk result (λ made. entry_model made ≡ text_of_tag tag text.now) }
{
    let val = ByteString::owned(Vec::from_slice(alloc, text)?);
    Ok(Dynamic::Text { tag, val })
}

// The entry with another tag.
pub(crate) fn with_tag<'d>(
    alloc: Global,
    tag: u64,
    entry: &Dynamic<'d>,
) -> Result<Dynamic<'d>, AllocError>
    ensures { IfOk result (λ made. entry_model made ≡ with_that_tag tag (entry_model entry.now)) }
{
    match entry {
        Dynamic::Auto { .. } => Ok(Dynamic::Auto { tag }),
        Dynamic::Integer { val, .. } => Ok(Dynamic::Integer { tag, val: *val }),
        Dynamic::Text { val, .. } => {
            let val = val.try_clone(alloc)?;
            Ok(Dynamic::Text { tag, val })
        }
    }
}

// The entry with these bits set in its number.
pub(crate) fn with_bits<'d>(
    alloc: Global,
    bits: u64,
    entry: &Dynamic<'d>,
) -> Result<Dynamic<'d>, AllocError>
    ensures { IfOk result (λ made. entry_model made
        ≡ with_those_bits bits (entry_model entry.now)) }
{
    match entry {
        Dynamic::Integer { tag, val } => Ok(Dynamic::Integer {
            tag: *tag,
            val: *val | bits,
        }),
        other => other.try_clone(alloc),
    }
}

// The entry with each of some directories added to its text.
pub(crate) fn with_directories<'d>(
    alloc: Global,
    directories: &[Vec<u8>],
    entry: &Dynamic<'d>,
) -> Result<Dynamic<'d>, AllocError>
    ensures { IfOk result (λ made. entry_model made
        ≡ with_text_changed (with_each_added (texts_model directories.now))
        (entry_model entry.now)) }
{
    match entry {
        Dynamic::Text { tag, val } => {
            let val = ByteString::owned(with_each_directory(alloc, val.as_slice(), directories)?);
            Ok(Dynamic::Text { tag: *tag, val })
        }
        other => other.try_clone(alloc),
    }
}

/// The text that a map has for a name, a copy of it; else the name. Error: `AllocError`.
pub fn new_name<'d>(
    alloc: Global,
    names: &HashMap<&[u8], &[u8]>,
    name: &ByteString<'d>,
) -> Result<ByteString<'d>, AllocError>
    ensures { IfOk result (λ made. made.bytes
        ≡ unwrap_or (name_for names.now.entries name.now.bytes) name.now.bytes) }
{
    match names.get(name.as_slice()) {
        None => name.try_clone(alloc),
        Some(other) => Ok(ByteString::owned(Vec::from_slice(alloc, other)?)),
    }
}

// The entry with the text that a map has for its own, if it has one.
pub(crate) fn with_new_name<'d>(
    alloc: Global,
    names: &HashMap<&[u8], &[u8]>,
    entry: &Dynamic<'d>,
) -> Result<Dynamic<'d>, AllocError>
    ensures { IfOk result (λ made. entry_model made
        ≡ with_text_changed (λ name. unwrap_or (name_for names.now.entries name) name)
        (entry_model entry.now)) }
{
    match entry {
        Dynamic::Text { tag, val } => {
            let val = new_name(alloc, names, val)?;
            Ok(Dynamic::Text { tag: *tag, val })
        }
        other => other.try_clone(alloc),
    }
}
