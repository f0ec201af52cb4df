//! The entries of a dynamic list as they are read, and changes of the list (gABI, Dynamic Section).
ghost use Rattle.std.specs.Prelude.{◌≡◌, ◌<◌, ◌≤◌, length, map, vec_len};
ghost use Rattle.std.specs.List.{remove};
ghost use Rattle.elf_format.specs.Memory.{memory_of};
ghost use Rattle.elf_format.specs.Answers.{Gives};
ghost use Rattle.elf_format.specs.Dynamic.{shown_entry};
ghost use Rattle.elf_format.specs.Options.{each};
ghost use Rattle.elf_format.specs.Seen.{shown_entry_model};
ghost use Rattle.elf_image_headers.specs.DynamicList.{retagged, with_tag_at, without_tag};
ghost use Rattle.elf_image_headers.specs.PartModels.{entry_model};

use crate::dynamic::Dynamic;
use elf_format::ByteString;
use elf_format::entries::{ShownEntry, show_entry};
use elf_format::records::EntryNumbers;
use elf_format::view_fault::ViewFault;
use std::alloc::Global;

/// Removes the entry at a position. Takes no memory.
pub fn remove_entry(list: &mut Vec<Dynamic<'_>>, index: usize)
    requires { index < vec_len list.old }
    ensures { map entry_model list.new.items ≡ remove (map entry_model list.old.items) index }
{
    drop(list.remove(index));
}

/// Removes the entries with a tag. Takes no memory.
pub fn remove_tagged(list: &mut Vec<Dynamic<'_>>, tag: u64)
    ensures { map entry_model list.new.items ≡ without_tag tag (map entry_model list.old.items) }
{
    list.retain(|entry| entry.tag() != tag);
}

/// Gives the entry at a position a tag. Takes no memory.
pub fn retag_entry(list: &mut Vec<Dynamic<'_>>, index: usize, tag: u64)
    requires { index < vec_len list.old }
    ensures { map entry_model list.new.items
        ≡ with_tag_at index tag (map entry_model list.old.items) }
{
    list[index].set_tag(tag);
}

/// Gives the entries with the one tag the other. Takes no memory.
pub fn retag_entries(list: &mut Vec<Dynamic<'_>>, old: u64, new: u64)
    ensures { map entry_model list.new.items ≡ retagged old new (map entry_model list.old.items) }
{
    for i in 0..list.len() {
        list[i].change_tag(old, new);
    }
}

/// An entry of which the text stays where it is. Takes no memory.
fn kept(entry: ShownEntry<'_>) -> Dynamic<'_>
    ensures { entry_model result ≡ shown_entry_model entry.entry }
{
    match entry {
        ShownEntry::Auto(tag) => Dynamic::Auto { tag },
        ShownEntry::Integer(tag, val) => Dynamic::Integer { tag, val },
        ShownEntry::Text(tag, text) => Dynamic::Text {
            tag,
            val: ByteString::borrowed(text),
        },
    }
}

/// The entries that records show, with their texts of the dynamic strings; `room` is at least as many as these have bytes.
///
/// # Errors
///
/// The fault of the first record whose text is not there, or `Memory` where a growth was refused.
pub fn kept_entries<'data>(
    alloc: Global,
    room: usize,
    texts: &'data [u8],
    raw: &[EntryNumbers],
) -> Result<Vec<Dynamic<'data>>, ViewFault>
    requires { length texts.now ≤ room }
    ensures { Gives (λ v. map entry_model v.items) result
        (each (shown_entry room (memory_of texts.now)) raw.now) }
{
    let mut made = Vec::new(alloc);
    for entry in raw {
        let one = show_entry(room, texts, *entry)?;
        made.push(kept(one))?;
    }
    Ok(made)
}
