//! The values of single calls, copied for the edit that each call is.
ghost use Rattle.std.specs.Prelude.{◌≡◌, ◌∷◌, ◌++◌, [], IfOk, OnOk};
ghost use Rattle.std.specs.HashSet.{keys};
ghost use Rattle.elf_edits.specs.EditModel.{pair_model, pairs_model, texts_model};

use std::alloc::{AllocError, Global};
use std::collections::{HashMap, HashSet};

// Puts a copy of a text behind others.
fn push_copy(alloc: Global, copies: &mut Vec<Vec<u8>>, text: &[u8]) -> Result<(), AllocError>
    ensures { OnOk result (texts_model copies.new.items
        ≡ texts_model copies.old.items ++ (text.now ∷ [])) }
{
    copies.push(Vec::from_slice(alloc, text)?)?;
    Ok(())
}

// Copies of texts.
pub(crate) fn copy_texts(alloc: Global, texts: &[Vec<u8>]) -> Result<Vec<Vec<u8>>, AllocError>
    ensures { IfOk result (λ copies. texts_model copies.items ≡ texts_model texts.now) }
{
    let mut copies = Vec::new(alloc);
    for text in texts {
        push_copy(alloc, &mut copies, text.as_slice())?;
    }
    Ok(copies)
}

// Copies of the texts of a set.
pub(crate) fn copy_set(alloc: Global, texts: &HashSet<Vec<u8>>) -> Result<Vec<Vec<u8>>, AllocError>
    ensures { IfOk result (λ copies. texts_model copies.items ≡ texts_model (keys texts.now)) }
{
    let mut copies = Vec::new(alloc);
    for text in texts {
        push_copy(alloc, &mut copies, text.as_slice())?;
    }
    Ok(copies)
}

// A copy of a pair.
fn copy_pair(alloc: Global, old: &[u8], new: &[u8]) -> Result<(Vec<u8>, Vec<u8>), AllocError>
    ensures { IfOk result (λ pair. pair_model pair ≡ (old.now, new.now)) }
{
    let old = Vec::from_slice(alloc, old)?;
    Ok((old, Vec::from_slice(alloc, new)?))
}

// Copies of the pairs of a key and its value of a map.
pub(crate) fn copy_map(
    alloc: Global,
    texts: &HashMap<Vec<u8>, Vec<u8>>,
) -> Result<Vec<(Vec<u8>, Vec<u8>)>, AllocError>
    ensures { IfOk result (λ copies. pairs_model copies.items ≡ pairs_model texts.now.entries) }
{
    let mut copies = Vec::new(alloc);
    for (key, value) in texts {
        copies.push(copy_pair(alloc, key.as_slice(), value.as_slice())?)?;
    }
    Ok(copies)
}
