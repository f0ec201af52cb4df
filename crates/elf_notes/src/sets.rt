//! Sets of names.
ghost use Rattle.std.specs.Prelude.{◌≡◌, ◌&&◌, not, IfOk, List, ℕ, filter, map};
ghost use Rattle.std.specs.HashSet.{keys};
ghost use Rattle.elf_edits.specs.Changes.{has_name};
ghost use Rattle.elf_edits.specs.Texts.{is_among as among};

use std::alloc::{AllocError, Global};
use std::collections::HashSet;

/// The set of some names.
pub(crate) fn set_of<'e>(alloc: Global, names: &[&'e [u8]]) -> Result<HashSet<&'e [u8]>, AllocError>
    ensures { IfOk result (λ set. (name : List ℕ) →
        has_name (keys set) name ≡ among (map (λ n. n.now) names.now) name) }
{
    let mut set = HashSet::new(alloc);
    for name in names {
        set.insert(*name)?;
    }
    Ok(set)
}

/// Takes names out of a set.
pub(crate) fn take_out(set: &mut HashSet<&[u8]>, names: &[&[u8]])
    ensures { (name : List ℕ) → has_name (keys set.new) name
        ≡ (has_name (keys set.old) name && not (among (map (λ n. n.now) names.now) name)) }
{
    for name in names {
        set.remove(*name);
    }
}

/// Whether a name is in a set. Takes no memory.
pub(crate) fn is_in(set: &HashSet<&[u8]>, name: &[u8]) -> bool
    ensures { result ≡ has_name (keys set.now) name.now }
{
    set.contains(name)
}

/// The names of some that are in a set.
pub(crate) fn names_in<'e>(
    alloc: Global,
    names: &[&'e [u8]],
    set: &HashSet<&[u8]>,
) -> Result<Vec<&'e [u8]>, AllocError>
    ensures { IfOk result (λ found. map (λ n. n.now) found.items
        ≡ filter (has_name (keys set.now)) (map (λ n. n.now) names.now)) }
{
    let mut found = Vec::new(alloc);
    for name in names {
        if is_in(set, *name) {
            found.push(*name)?;
        }
    }
    Ok(found)
}
