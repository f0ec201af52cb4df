//! What has to be looked for before run paths shrink.
ghost use Rattle.std.specs.Prelude.{◌≡◌, ◌++◌, ◌∷◌, [], IfOk, map, option_map};
ghost use Rattle.std.specs.List.{flat_map};
ghost use Rattle.elf_image.specs.Answers.{borrowed};
ghost use Rattle.elf_image.specs.ImageModel.{entry_model};
ghost use Rattle.elf_edits.specs.Entries.{is_run_path as has_run_path, needed_names as names_needed, text_if};
ghost use Rattle.elf_edits.specs.Texts.{directories_in, first_in};
ghost use Rattle.elf_edits_shrink.specs.Questions.{pairs_of, shrink_questions as all_questions};
ghost use Rattle.elf_edits_shrink.specs.ShrinkModel.{pair_lent};

use crate::search::{directories, is_absolute};
use elf_edits::entries::needed_name;
use elf_image::Dynamic;
use elf_image::constants::{DT_RPATH, DT_RUNPATH};
use std::alloc::{AllocError, Global};

// The names of needed libraries, in order.
pub(crate) fn needed_names<'e>(
    alloc: Global,
    entries: &'e [Dynamic<'_>],
) -> Result<Vec<&'e [u8]>, AllocError>
    ensures { IfOk result (λ names. map (λ name. name.now) names.items
        ≡ names_needed (map entry_model entries.now)) }
{
    let mut names = Vec::new(alloc);
    for entry in entries {
        if let Some(name) = needed_name(entry) {
            names.push(name)?;
        }
    }
    Ok(names)
}

// Puts pairs of a directory and each library behind others.
fn put_pairs<'e>(
    directory: &'e [u8],
    needed: &[&'e [u8]],
    made: &mut Vec<(&'e [u8], &'e [u8])>,
) -> Result<(), AllocError>
    ensures { IfOk result (λ _. map pair_lent made.new.items
        ≡ map pair_lent made.old.items
        ++ flat_map (λ name. (directory.now, name) ∷ []) (map (λ name. name.now) needed.now)) }
{
    for name in needed {
        made.push((directory, *name))?;
    }
    Ok(())
}

// Puts pairs of each absolute directory and each library behind others.
fn put_all_pairs<'e>(
    directories: &[&'e [u8]],
    needed: &[&'e [u8]],
    made: &mut Vec<(&'e [u8], &'e [u8])>,
) -> Result<(), AllocError>
    ensures { IfOk result (λ _. map pair_lent made.new.items
        ≡ map pair_lent made.old.items
        ++ pairs_of (map (λ name. name.now) needed.now) (map (λ part. part.now) directories.now)) }
{
    for directory in directories {
        if is_absolute(directory) {
            put_pairs(directory, needed, made)?;
        }
    }
    Ok(())
}

// The run path of an entry, `None` where it has none.
fn run_path<'e>(entry: &'e Dynamic<'_>) -> Option<&'e [u8]>
    ensures { option_map borrowed result ≡ first_in (text_if has_run_path (entry_model entry.now)) }
{
    match entry {
        Dynamic::Text { tag, val } if *tag == DT_RPATH || *tag == DT_RUNPATH => Some(
            val.as_slice(),
        ),
        _ => None,
    }
}

// Puts the pairs of a run path that have to be looked for behind others.
fn put_questions<'e>(
    alloc: Global,
    text: &'e [u8],
    needed: &[&'e [u8]],
    made: &mut Vec<(&'e [u8], &'e [u8])>,
) -> Result<(), AllocError>
    ensures { IfOk result (λ _. map pair_lent made.new.items
        ≡ map pair_lent made.old.items
        ++ pairs_of (map (λ name. name.now) needed.now) (directories_in text.now)) }
{
    let parts = directories(alloc, text)?;
    put_all_pairs(parts.as_slice(), needed, made)
}

/// The pairs of an absolute directory and a needed library that have to be looked for before the run paths of a list
/// shrink, in order. Error: `AllocError`.
pub fn shrink_questions<'e>(
    alloc: Global,
    entries: &'e [Dynamic<'_>],
) -> Result<Vec<(&'e [u8], &'e [u8])>, AllocError>
    ensures { IfOk result (λ made. map pair_lent made.items
        ≡ all_questions (map entry_model entries.now)) }
{
    let needed = needed_names(alloc, entries)?;
    let mut made = Vec::new(alloc);
    for entry in entries {
        if let Some(text) = run_path(entry) {
            put_questions(alloc, text, needed.as_slice(), &mut made)?;
        }
    }
    Ok(made)
}
