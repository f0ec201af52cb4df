//! What a user should know of edits.
ghost use Rattle.std.specs.Prelude.{◌≡◌, Some, IfErr, IfOk, OnOk, [], map, string_bytes};
ghost use Rattle.elf_commands_edits.specs.Groups.{MakeInTurn, group_model};
ghost use Rattle.elf_commands_edits.specs.Groups.GroupEdit.{plain};
ghost use Rattle.elf_commands_lines.specs.Groups.{edits_model};
ghost use Rattle.elf_commands.specs.Noting.{TellsImage, TellsNoted, TellsUnmade, noted};
ghost use Rattle.elf_notes.specs.Lines.{lines_of};
ghost use Rattle.elf_notes.specs.Notes.{AreFindings, AreLeft};
ghost use Rattle.elf_notes.specs.declared.notes.ElfNotes.{ElfNotes};

use command_words::Notes;
use elf_commands_edits::files::ElfContainer;
use elf_commands_edits::{ElfCommandError, apply_batch, apply_edits};
use elf_commands_lines::{GroupEdit, has_symbols, plain_edits};
use elf_edits::ElfEdit;
use elf_notes::{Findings, findings_of, note_lines, notes_of};
use std::alloc::{AllocError, Global};

/// Makes edits in an image, and answers the lines of their notes, of the image as it was and as it is then, each with this name
/// of the file; no text where they are left out, and where one of the edits is of symbols or sections.
pub(crate) fn apply_noting(
    alloc: Global,
    elf: &mut ElfContainer<'_>,
    edits: Vec<GroupEdit>,
    name: &str,
    notes: Notes,
) -> Result<String, ElfCommandError>
    ensures make { OnOk result
        (MakeInTurn (map group_model edits.items) elf.old.inner elf.new.inner) }
    ensures told { IfOk result (λ text. TellsImage notes (map group_model edits.items)
        name.now elf.old.inner (string_bytes text)) }
    ensures err { IfErr result (TellsUnmade (map group_model edits.items) elf.old.inner) }
{
    match notes {
        Notes::Wanted => apply_telling(alloc, elf, edits, name),
        Notes::LeftOut => apply_untold(alloc, elf, edits),
    }
}

/// Makes edits in an image, and answers no text.
fn apply_untold(
    alloc: Global,
    elf: &mut ElfContainer<'_>,
    edits: Vec<GroupEdit>,
) -> Result<String, ElfCommandError>
    ensures make { OnOk result
        (MakeInTurn (map group_model edits.items) elf.old.inner elf.new.inner) }
    ensures told { IfOk result (λ text. string_bytes text ≡ []) }
    ensures err { IfErr result (TellsUnmade (map group_model edits.items) elf.old.inner) }
{
    match apply_edits(alloc, elf, edits) {
        Ok(()) => Ok(String::new(alloc)),
        Err(error) => Err(ElfCommandError::from(error)),
    }
}

/// Makes edits in an image, and answers the lines of their notes; no text where one of them is of symbols or sections.
fn apply_telling(
    alloc: Global,
    elf: &mut ElfContainer<'_>,
    edits: Vec<GroupEdit>,
    name: &str,
) -> Result<String, ElfCommandError>
    ensures make { OnOk result
        (MakeInTurn (map group_model edits.items) elf.old.inner elf.new.inner) }
    ensures told { IfOk result (λ text. TellsNoted (noted (map group_model edits.items))
        name.now elf.old.inner (string_bytes text)) }
    ensures err { IfErr result (TellsUnmade (map group_model edits.items) elf.old.inner) }
{
    if has_symbols(edits.as_slice()) {
        return apply_untold(alloc, elf, edits);
    }
    let plain = plain_edits(alloc, edits)?;
    apply_batch_telling(alloc, elf, plain.as_slice(), name)
}

/// Makes a batch of edits in an image, and answers the lines of their notes.
fn apply_batch_telling(
    alloc: Global,
    elf: &mut ElfContainer<'_>,
    edits: &[ElfEdit],
    name: &str,
) -> Result<String, ElfCommandError>
    ensures make { OnOk result
        (MakeInTurn (map plain (edits_model edits.now)) elf.old.inner elf.new.inner) }
    ensures told { IfOk result (λ text. TellsNoted (Some (edits_model edits.now))
        name.now elf.old.inner (string_bytes text)) }
    ensures err { IfErr result (TellsUnmade (map plain (edits_model edits.now)) elf.old.inner) }
{
    let found = findings_in(alloc, elf, edits)?;
    apply_batch(alloc, elf, edits)?;
    Ok(lines_for(alloc, elf, found, name)?)
}

/// What edits look for in an image, and find.
fn findings_in<'e>(
    alloc: Global,
    elf: &ElfContainer<'_>,
    edits: &'e [ElfEdit],
) -> Result<Findings<'e>, AllocError>
    ensures { IfOk result (AreFindings (edits_model edits.entry.now) elf.now.inner) }
{
    findings_of(alloc, elf.inner.builder(), edits)
}

/// The lines of the notes of an edited image, by what the edits found.
fn lines_for(
    alloc: Global,
    elf: &ElfContainer<'_>,
    found: Findings<'_>,
    name: &str,
) -> Result<String, AllocError>
    ensures { IfOk result (λ text. (notes : ElfNotes) × (notes.found ≡ found.entry)
        × AreLeft elf.now.inner notes
        × (string_bytes text ≡ lines_of name.now notes)) }
{
    let notes = notes_of(alloc, found, elf.inner.builder())?;
    note_lines(alloc, name, &notes)
}
