//! Sections by the bytes that they have.
ghost use Rattle.std.specs.Prelude.{◌≡◌, Bool, IfOk, List};
ghost use Rattle.elf_layout_segments.specs.Keys.{AreKeys, Rise, is_just, keys_at as keys_there, position_if as position_there};
ghost use Rattle.elf_layout_segments.specs.declared.sections.SectionAt.{SectionAt as Placed};
ghost use Rattle.elf_layout_segments.specs.Sections.{first_at};

use crate::sections::SectionAt;
use elf_format::range::Range;
use std::alloc::{AllocError, Global};

// A section's offset and size, and its position.
pub(crate) type Key = (u64, u64, usize);

// The keys of sections with bytes, of those that are loaded or of all.
fn keys_at(alloc: Global, sections: &[SectionAt], loaded: bool) -> Result<Vec<Key>, AllocError>
    ensures { IfOk result (λ keys. keys.items ≡ keys_there loaded sections.now) }
{
    sections
        .iter()
        .filter(|s| s.has_bytes() && (!loaded || s.is_loaded()))
        .map(|s| (s.sh_offset, s.sh_size, s.position))
        .collect(alloc)
}

// The keys of sections with bytes, of those that are loaded or of all, in order.
pub(crate) fn keys_of(
    alloc: Global,
    sections: &[SectionAt],
    loaded: bool,
) -> Result<Vec<Key>, AllocError>
    ensures { IfOk result (λ keys. AreKeys loaded sections.now keys.items) }
{
    let mut keys = keys_at(alloc, sections, loaded)?;
    keys.sort_unstable();
    Ok(keys)
}

// The position of a key, if it is that of a range.
fn position_if(part: Range, key: Key) -> Option<usize>
    ensures { result ≡ position_there part key }
{
    if key.0 == part.start && key.1 == part.size {
        Some(key.2)
    } else {
        None
    }
}

// Where the first section stands that has just these bytes.
pub(crate) fn first_just(keys: &[Key], part: Range) -> Option<usize>
    ensures { (loaded : Bool) (sections : List Placed) → Rise sections
        → AreKeys loaded sections keys.now → result ≡ first_at (is_just loaded part) sections }
{
    let at = keys.partition_point(|key| key.0 < part.start
        || key.0 == part.start && key.1 < part.size);
    if at < keys.len() {
        position_if(part, keys[at])
    } else {
        None
    }
}
