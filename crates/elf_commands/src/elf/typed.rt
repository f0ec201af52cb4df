//! Edits of the bytes of a file that are there as values, with no command.
ghost use Rattle.std.specs.Prelude.{◌≡◌, Ok, Some, IfErr, IfOk, map, string_bytes};
ghost use Rattle.byte_store.specs.Composed.{IsDifference, made_of};
ghost use Rattle.elf_commands_edits.specs.Groups.{group_model};
ghost use Rattle.elf_commands_edits.specs.Images.{AreChanged, TellsNoImage};
ghost use Rattle.elf_commands_edits.specs.Written.{IsNoDifference};
ghost use Rattle.elf_commands_lines.specs.ElfAsked.{several};
ghost use Rattle.elf_commands.specs.ElfEngine.{IsEditedBy, IsEditedTo, TellsEdit, bytes_left};
ghost use Rattle.elf_commands.specs.ElfStores.{ChangesNothing};
ghost use Rattle.elf_commands.specs.Noting.{TellsWantedAt};

use crate::elf::noting::apply_noting;
use byte_store::Difference;
use command_words::Notes;
use elf_commands_edits::files::ElfContainer;
use elf_commands_edits::laws::lists_are_their_edits;
use elf_commands_edits::{ElfCommandError, apply_each, changed_bytes, pieces_and_text};
use elf_commands_lines::GroupEdit;
use elf_image::laws::read_images_hold_parts;
use std::alloc::Global;

/// The bytes of a file after edits, or `None` where they change nothing, and the lines of their notes, each with this name of the
/// file; no text where they are left out, and where one of the edits is of symbols or sections. Each edit is made upon what the
/// one before it left. New bytes show the edits, to a loader that knows the program headers alone too.
///
/// # Errors
///
/// `Elf` where the bytes are no ELF file that is read, or the edited image has no bytes; `ElfBatch` with the number of the edit
/// that is refused, counted from 0, and why; `Memory`.
pub fn edit_bytes(
    alloc: Global,
    bytes: &[u8],
    edits: Vec<GroupEdit>,
    name: &str,
    notes: Notes,
) -> Result<(Option<Vec<u8>>, String), ElfCommandError>
    ensures made { IfOk result (λ made.
        IsEditedBy (map group_model edits.items) bytes.now made.0) }
    ensures left { IfOk result (λ made. IsEditedTo (map group_model edits.items)
        bytes.now (bytes_left bytes.now made.0)) }
    ensures told { IfOk result (λ made. TellsWantedAt notes
        (several (Ok (map group_model edits.items)))
        name.now (Some bytes.now) (string_bytes made.1)) }
    ensures err { IfErr result (TellsEdit (several (Ok (map group_model edits.items))) bytes.now) }
{
    lists_are_their_edits();
    read_images_hold_parts();
    let mut elf = ElfContainer::parse(alloc, bytes)?;
    match apply_noting(alloc, &mut elf, edits, name, notes) {
        Ok(text) => bytes_and_text(alloc, elf, text),
        Err(error) => {
            drop(elf);
            Err(error)
        }
    }
}

/// The bytes of a file after edits that are lent, or `None` where they change nothing: those that `edit_bytes` answers, without
/// notes. Errors: those of `edit_bytes`.
pub fn edit_each(
    alloc: Global,
    bytes: &[u8],
    edits: &[GroupEdit],
) -> Result<Option<Vec<u8>>, ElfCommandError>
    ensures made { IfOk result (IsEditedBy (map group_model edits.now) bytes.now) }
    ensures err { IfErr result (TellsEdit (several (Ok (map group_model edits.now))) bytes.now) }
{
    lists_are_their_edits();
    let mut elf = ElfContainer::parse(alloc, bytes)?;
    match apply_each(alloc, &mut elf, edits) {
        Ok(()) => changed_bytes(alloc, elf),
        Err(error) => {
            drop(elf);
            Err(ElfCommandError::from(error))
        }
    }
}

/// The bytes of an image, `None` where it is as it was read, and a text.
fn bytes_and_text(
    alloc: Global,
    elf: ElfContainer<'_>,
    text: String,
) -> Result<(Option<Vec<u8>>, String), ElfCommandError>
    ensures ok { IfOk result (λ made. AreChanged elf.entry.inner made.0) }
    ensures same { IfOk result (λ made. string_bytes made.1 ≡ string_bytes text) }
    ensures err { IfErr result (TellsNoImage elf.entry.inner) }
{
    let bytes = changed_bytes(alloc, elf)?;
    Ok((bytes, text))
}

/// What of the bytes of a file differs after edits, and the lines of their notes, as of `edit_bytes`.
pub fn edited_pieces(
    alloc: Global,
    bytes: &[u8],
    edits: Vec<GroupEdit>,
    name: &str,
    notes: Notes,
) -> Result<(Difference, String), ElfCommandError>
    ensures makeable { IfOk result (λ made. IsDifference bytes.now made.0) }
    ensures left { IfOk result (λ made. IsEditedTo (map group_model edits.items)
        bytes.now (made_of bytes.now made.0)) }
    ensures told { IfOk result (λ made. TellsWantedAt notes
        (several (Ok (map group_model edits.items)))
        name.now (Some bytes.now) (string_bytes made.1)) }
    ensures err { IfErr result (TellsEdit (several (Ok (map group_model edits.items))) bytes.now) }
    ensures idle { ChangesNothing (several (Ok (map group_model edits.items))) bytes.now
        → IfOk result (λ made. IsNoDifference bytes.now made.0) }
{
    lists_are_their_edits();
    read_images_hold_parts();
    let mut elf = ElfContainer::parse(alloc, bytes)?;
    match apply_noting(alloc, &mut elf, edits, name, notes) {
        Ok(text) => pieces_and_text(alloc, elf, text),
        Err(error) => {
            drop(elf);
            Err(error)
        }
    }
}
