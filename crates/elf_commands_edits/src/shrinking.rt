//! Run paths of images that shrink, and what tells which directories went.
ghost use Rattle.std.specs.Prelude.{◌≡◌, IfErr, IfOk, map, string_bytes};
ghost use Rattle.byte_store.specs.Composed.{IsDifference, made_of};
ghost use Rattle.arwen_elf.specs.Told.{Refuses};
ghost use Rattle.elf_edits.specs.Edit.{ShrinkRpath};
ghost use Rattle.elf_edits.specs.Edited.{step};
ghost use Rattle.elf_edits_shrink.specs.ShrinkModel.{answer_model, removal_model};
ghost use Rattle.elf_commands_edits.specs.Images.{TellsNoImage};
ghost use Rattle.elf_commands_edits.specs.Shrinking.{removal_lines};
ghost use Rattle.elf_commands_edits.specs.ShrunkImages.{IsRemovalTold, IsShrunkImage, Steps, TellsUnshrunk, TellsUntold};
ghost use Rattle.elf_commands_edits.specs.Written.{IsImageWritten};

use crate::error::ElfCommandError;
use crate::files::{ElfContainer, ElfError, ProbeAnswer, Removed, write_whole};
use crate::images::{changed_bytes, pieces_of};
use crate::probing::removal_text;
use byte_store::Difference;
use elf_commands_lines::texts_of;
use std::alloc::Global;
use std::io::Write;

/// What of a file's bytes differs once its run paths have shrunk, and the lines that tell what went.
#[derive(Drop)]
pub struct Shrunk {
    /// What differs.
    pub difference: Difference,
    /// The lines.
    pub text: String,
}

/// Shrinks the run paths of an image, and answers the directories that went.
pub fn shrink_image(
    alloc: Global,
    elf: &mut ElfContainer<'_>,
    prefixes: &[String],
    probe: &[ProbeAnswer<'_>],
) -> Result<Vec<Removed>, ElfError>
    ensures ok { IfOk result (Steps (ShrinkRpath (map string_bytes prefixes.now)
        (map answer_model probe.now)) elf.old.inner elf.new.inner) }
    ensures err { IfErr result (λ e. Refuses e (step (ShrinkRpath (map string_bytes prefixes.now)
        (map answer_model probe.now)) elf.old.inner)) }
{
    let prefixes = texts_of(alloc, prefixes)?;
    elf.shrink_rpath(alloc, prefixes.as_slice(), probe)
}

/// The bytes of an image, or `None` where it is as it was read. Once they are there, the lines of the directories
/// that went go to `out`, in one write.
pub fn tell_removed<W: Write>(
    alloc: Global,
    elf: ElfContainer<'_>,
    removed: Vec<Removed>,
    out: &mut W,
) -> Result<Option<Vec<u8>>, ElfCommandError>
    ensures told { IfOk result (λ new. IsRemovalTold elf.entry.inner
        (map removal_model removed.items) new (W.contents out.old) (W.contents out.new)) }
    ensures err { IfErr result (TellsUntold W.contents elf.entry.inner
        (map removal_model removed.items) out.old out.new) }
{
    let new = changed_bytes(alloc, elf)?;
    let text = removal_text(alloc, removed)?;
    write_whole(text.as_bytes(), out)?;
    Ok(new)
}

/// What of the bytes of a file that was read differs once the run paths of its image have shrunk by these answers.
pub fn pieces_by_answers(
    alloc: Global,
    mut elf: ElfContainer<'_>,
    prefixes: &[String],
    answers: Vec<ProbeAnswer<'static>>,
) -> Result<Shrunk, ElfCommandError>
    ensures shrunk { IfOk result (λ made. IsShrunkImage (ShrinkRpath
        (map string_bytes prefixes.now) (map answer_model answers.entry.items)) elf.entry.inner
        made.difference (string_bytes made.text)) }
    ensures err { IfErr result (TellsUnshrunk (ShrinkRpath
        (map string_bytes prefixes.now) (map answer_model answers.entry.items)) elf.entry.inner) }
{
    let removed = shrink_image(alloc, &mut elf, prefixes, answers.as_slice());
    drop(answers);
    match removed {
        Ok(removed) => shrunk_of(alloc, elf, removed),
        Err(error) => {
            drop(elf);
            Err(ElfCommandError::from(error))
        }
    }
}

/// What of the bytes of a file differs from those of an image with shrunk run paths, and what tells which
/// directories went.
fn shrunk_of(
    alloc: Global,
    elf: ElfContainer<'_>,
    removed: Vec<Removed>,
) -> Result<Shrunk, ElfCommandError>
    ensures makeable { IfOk result (λ made. IsDifference elf.entry.inner.source made.difference) }
    ensures bytes { IfOk result (λ made.
        IsImageWritten elf.entry.inner (made_of elf.entry.inner.source made.difference)) }
    ensures told { IfOk result (λ made.
        string_bytes made.text ≡ removal_lines (map removal_model removed.items)) }
    ensures err { IfErr result (TellsNoImage elf.entry.inner) }
{
    let difference = pieces_of(alloc, elf)?;
    let text = removal_text(alloc, removed)?;
    Ok(Shrunk { difference, text })
}
