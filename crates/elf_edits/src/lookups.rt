//! Sets and maps of names, so that each is looked for once.
ghost use Rattle.std.specs.Prelude.{◌≡◌, IfOk, List, ℕ, map};
ghost use Rattle.std.specs.HashSet.{keys};
ghost use Rattle.elf_image.specs.ImageModel.{entry_model};
ghost use Rattle.elf_edits.specs.Changes.{has_name, name_for};
ghost use Rattle.elf_edits.specs.TextModel.{pairs_model, texts_model};
ghost use Rattle.elf_edits.specs.Entries.{needed_names};
ghost use Rattle.elf_edits.specs.Texts.{is_among, value_of};

use crate::entries::needed_name;
use elf_image::Dynamic;
use std::alloc::{AllocError, Global};
use std::collections::{HashMap, HashSet};

/// The set of some names. Error: `AllocError`.
pub fn set_of<'e>(alloc: Global, names: &'e [Vec<u8>]) -> Result<HashSet<&'e [u8]>, AllocError>
    ensures { IfOk result (λ set. (name : List ℕ) →
        has_name (keys set) name ≡ is_among (texts_model names.now) name) }
{
    let mut set = HashSet::new(alloc);
    for name in names {
        set.insert(name.as_slice())?;
    }
    Ok(set)
}

/// The map of some pairs; of a repeated name the last counts. Error: `AllocError`.
pub fn map_of<'e>(
    alloc: Global,
    pairs: &'e [(Vec<u8>, Vec<u8>)],
) -> Result<HashMap<&'e [u8], &'e [u8]>, AllocError>
    ensures { IfOk result (λ made. (name : List ℕ) →
        name_for made.entries name ≡ value_of (pairs_model pairs.now) name) }
{
    let mut made = HashMap::new(alloc);
    for (old, new) in pairs {
        made.insert(old.as_slice(), new.as_slice())?;
    }
    Ok(made)
}

// The set of the names of libraries that are needed.
pub(crate) fn needed_set<'e>(
    alloc: Global,
    entries: &'e [Dynamic<'_>],
) -> Result<HashSet<&'e [u8]>, AllocError>
    ensures { IfOk result (λ set. (name : List ℕ) →
        has_name (keys set) name ≡ is_among (needed_names (map entry_model entries.now)) name) }
{
    let mut set = HashSet::new(alloc);
    for entry in entries {
        if let Some(name) = needed_name(entry) {
            set.insert(name)?;
        }
    }
    Ok(set)
}
