//! What is said of two blocks that stand against edits.
ghost use Rattle.std.specs.Prelude.{◌≡◌, IfOk, IfSome, Ok, map, string_bytes};
ghost use Rattle.elf_commands.specs.Groups.{MakeInTurn, group_model};
ghost use Rattle.arwen_cli_faults.specs.Overlaps.{TellsMade, TellsOverlap, TellsPair};

use elf_commands::files::ElfContainer;
use elf_commands::{GroupEdit, apply_each};
use elf_image::Builder;
use elf_layout_reasons::{pair_text, stuck_pair};
use std::alloc::{AllocError, Global};

/// What is said of two blocks of memory that never move and overlap once edits are made of the bytes of a file: both, and what may
/// be done. `None` without edits, where there are no such blocks, where none are found (`stuck_pair`), where the edits are
/// refused before there is a layout, and where there is no memory.
pub(crate) fn overlap_text(alloc: Global, bytes: &[u8], edits: &[GroupEdit]) -> Option<String>
    ensures { IfSome result (λ text.
        TellsOverlap (map group_model edits.now) bytes.now (string_bytes text)) }
{
    if edits.is_empty() {
        return None;
    }
    match ElfContainer::parse(alloc, bytes) {
        Ok(mut elf) => text_after(alloc, &mut elf, edits),
        Err(_) => None,
    }
}

/// What is said of two blocks of the image that edits make.
fn text_after(alloc: Global, elf: &mut ElfContainer<'_>, edits: &[GroupEdit]) -> Option<String>
    ensures { IfSome result (λ text. TellsMade
        (MakeInTurn (map group_model edits.now) elf.old.inner) (string_bytes text)) }
{
    match apply_each(alloc, elf, edits) {
        Ok(()) => text_if(text_of_image(alloc, elf.inner.builder())),
        Err(_) => None,
    }
}

/// A text that was made.
fn text_if(text: Result<Option<String>, AllocError>) -> Option<String>
    ensures { IfSome result (λ made. text ≡ Ok (Some made)) }
{
    match text {
        Ok(text) => text,
        Err(_) => None,
    }
}

/// What is said of two blocks of an edited image.
fn text_of_image(alloc: Global, image: &Builder<'_>) -> Result<Option<String>, AllocError>
    ensures { IfOk result (λ answer. IfSome answer (λ text.
        TellsPair image.now (string_bytes text))) }
{
    match stuck_pair(alloc, image)? {
        None => Ok(None),
        Some(pair) => Ok(Some(pair_text(alloc, image, &pair)?)),
    }
}
