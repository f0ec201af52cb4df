//! Run paths that shrink: of the directories that hold a needed library, the first alone is kept for it.
ghost use Rattle.std.specs.Prelude.{◌≡◌, ◌&&◌, ◌||◌, ℕ, List, [], Some, IfErr, IfOk, OnOk, map, nat_eq, string_bytes};
ghost use Rattle.std.specs.HashSet.{keys};
ghost use Rattle.std.specs.List.{list_any, starts_with};
ghost use Rattle.std.specs.Str.{bytes_eq};
ghost use Rattle.elf_edits.specs.Changes.{has_name};
ghost use Rattle.elf_edits.specs.Edit.{ShrinkRpath};
ghost use Rattle.elf_edits.specs.Shrunk.{is_allowed};
ghost use Rattle.elf_edits_shrink.specs.ShrinkModel.{answer_model, pair_lent};
ghost use Rattle.elf_commands.specs.ElfAsked.{one};
ghost use Rattle.elf_commands.specs.Groups.GroupEdit.{plain};
ghost use Rattle.elf_commands.specs.ElfEngine.{LeavesElf, TellsEdit, bytes_left};
ghost use Rattle.elf_commands.specs.Meaning.{elf_command_model, shrink_elf};
ghost use Rattle.elf_commands.specs.Shrinking.{Answers};
ghost use Rattle.arwen_cli_patchelf.specs.FirstFound.{AreFirstFound, AreFirstFoundIf, AreFirstFoundWhere, TellsFirstShrunk, answers_model, finds_unless, is_found_for, lists_no_run_path};
ghost use Rattle.arwen_cli_patchelf.specs.Made.{IsShrunkTo};

use crate::in_memory::{in_memory, texts_copied};
use crate::unheard::Unheard;
use elf_commands::elf::{Probe, run_elf, shrink_rpath};
use elf_commands::files::{ElfContainer, ProbeAnswer};
use elf_commands::laws::lists_are_their_edits;
use elf_commands::{ElfCommand, ElfCommandError};
use elf_edits::image_facts;
use elf_image::laws::read_images_hold_parts;
use patch_bytes::ByteString;
use std::alloc::{AllocError, Global};
use std::collections::HashSet;

/// The bytes of a file with run paths that shrank, or `None` where they stay as they were, also those of a file without a run
/// path. What goes is not told.
///
/// # Errors
///
/// Those of `run_elf`, but `Memory` for `Io`; never that there is no run path.
pub(crate) fn shrunk_bytes<P: Probe>(
    alloc: Global,
    bytes: &[u8],
    prefixes: &[String],
    probe: &P,
) -> Result<Option<Vec<u8>>, ElfCommandError>
    ensures shrunk { IfOk result (λ new. IsShrunkTo (P.may_find probe.now)
        (Some (map string_bytes prefixes.now)) bytes.now (bytes_left bytes.now new)) }
    ensures err { IfErr result (TellsFirstShrunk (P.may_find probe.now)
        (map string_bytes prefixes.now) bytes.now) }
{
    let found = first_answers(alloc, bytes, prefixes, probe)?;
    match found {
        None => Ok(None),
        Some(answers) => {
            let made = shrunk_by(alloc, bytes, prefixes, answers.as_slice());
            drop(answers);
            made
        }
    }
}

/// The bytes of a file with run paths that shrank by these answers, or `None` where they stay as they were.
fn shrunk_by(
    alloc: Global,
    bytes: &[u8],
    prefixes: &[String],
    answers: &[ProbeAnswer<'_>],
) -> Result<Option<Vec<u8>>, ElfCommandError>
    ensures left { IfOk result (λ new. LeavesElf (one (plain (ShrinkRpath
        (map string_bytes prefixes.now) (map answer_model answers.now))))
        bytes.now (bytes_left bytes.now new)) }
    ensures err { IfErr result (TellsEdit (one (plain (ShrinkRpath
        (map string_bytes prefixes.now) (map answer_model answers.now)))) bytes.now) }
{
    lists_are_their_edits();
    read_images_hold_parts();
    let command = shrink_command(alloc, prefixes)?;
    let made = run_elf(alloc, bytes, &command, answers, &mut Unheard);
    drop(command);
    match made {
        Ok(new) => Ok(new),
        Err(error) => Err(in_memory(error)),
    }
}

/// The command by which run paths shrink, without a path.
fn shrink_command(alloc: Global, prefixes: &[String]) -> Result<ElfCommand, AllocError>
    ensures { IfOk result (λ command.
        elf_command_model command ≡ shrink_elf [] (map string_bytes prefixes.now)) }
{
    Ok(ElfCommand::ShrinkRpath(shrink_rpath::Args {
        path_to_binary: String::new(alloc),
        allowed_rpath_prefixes: texts_copied(alloc, prefixes)?,
    }))
}

/// The answers by which the run paths of a file shrink, `None` for a file without a run path.
fn first_answers<P: Probe>(
    alloc: Global,
    bytes: &[u8],
    prefixes: &[String],
    probe: &P,
) -> Result<Option<Vec<ProbeAnswer<'static>>>, ElfCommandError>
    ensures found { IfOk result (λ found. AreFirstFoundWhere (P.may_find probe.now)
        (map string_bytes prefixes.now) bytes.now (answers_model found)) }
    ensures err { IfErr result (TellsFirstShrunk (P.may_find probe.now)
        (map string_bytes prefixes.now) bytes.now) }
{
    let elf = ElfContainer::parse(alloc, bytes)?;
    let found = answers_of(alloc, &elf, prefixes, probe);
    drop(elf);
    match found {
        Ok(found) => Ok(found),
        Err(error) => Err(ElfCommandError::from(error)),
    }
}

/// The same of a file that has been read.
fn answers_of<P: Probe>(
    alloc: Global,
    elf: &ElfContainer<'_>,
    prefixes: &[String],
    probe: &P,
) -> Result<Option<Vec<ProbeAnswer<'static>>>, AllocError>
    ensures { IfOk result (λ found. AreFirstFoundIf (P.may_find probe.now)
        (map string_bytes prefixes.now) elf.now.inner (answers_model found)) }
{
    if has_no_run_path(elf) {
        return Ok(None);
    }
    let machine = elf.inner.header().e_machine;
    let questions = elf.inner.elf_shrink_questions(alloc)?;
    let answers = answers_to(alloc, probe, prefixes, machine, questions.as_slice())?;
    Ok(Some(answers))
}

/// Whether a file has a dynamic list without a run path. Takes no memory.
fn has_no_run_path(elf: &ElfContainer<'_>) -> bool
    ensures { result ≡ lists_no_run_path elf.now.inner }
{
    let facts = image_facts(elf.inner.builder());
    facts.has_list && !facts.has_run_path
}

/// The answers for pairs of a directory and a needed library, in order. A library is looked for until it was found for the
/// machine in a directory that is allowed.
fn answers_to<P: Probe>(
    alloc: Global,
    probe: &P,
    prefixes: &[String],
    machine: u16,
    questions: &[(&[u8], &[u8])],
) -> Result<Vec<ProbeAnswer<'static>>, AllocError>
    ensures { IfOk result (λ answers. AreFirstFound (P.may_find probe.now)
        (map string_bytes prefixes.now) machine (map pair_lent questions.now)
        (map answer_model answers.items)) }
{
    let mut answers = Vec::with_capacity(alloc, questions.len())?;
    let mut settled = HashSet::new(alloc);
    for (directory, needed) in questions {
        let is_settled = has(&settled, needed);
        let answer = answer_to(alloc, probe, directory, needed, is_settled)?;
        put_if(&mut settled, *needed, is_found(prefixes, machine, &answer))?;
        answers.push(answer)?;
    }
    Ok(answers)
}

/// The answer for a directory and a needed library; one that is settled isn't looked for.
fn answer_to<P: Probe>(
    alloc: Global,
    probe: &P,
    directory: &[u8],
    needed: &[u8],
    is_settled: bool,
) -> Result<ProbeAnswer<'static>, AllocError>
    ensures { IfOk result (λ answer. Answers (finds_unless is_settled (P.may_find probe.now))
        directory.now needed.now (answer_model answer)) }
{
    let machine = machine_unless(alloc, probe, directory, needed, is_settled)?;
    let directory = Vec::from_slice(alloc, directory)?;
    let needed = Vec::from_slice(alloc, needed)?;
    Ok(ProbeAnswer {
        directory: ByteString::owned(directory),
        needed: ByteString::owned(needed),
        machine,
    })
}

/// The machine of the file that a directory has for a needed library; `None` for one that is settled.
fn machine_unless<P: Probe>(
    alloc: Global,
    probe: &P,
    directory: &[u8],
    needed: &[u8],
    is_settled: bool,
) -> Result<Option<u16>, AllocError>
    ensures { IfOk result
        (finds_unless is_settled (P.may_find probe.now) directory.now needed.now) }
{
    if is_settled {
        return Ok(None);
    }
    probe.machine(alloc, directory, needed)
}

/// Whether an answer is that its library was found for a machine, in a directory that is allowed.
fn is_found(prefixes: &[String], machine: u16, answer: &ProbeAnswer<'_>) -> bool
    ensures { result
        ≡ is_found_for (map string_bytes prefixes.now) machine (answer_model answer.now) }
{
    match answer.machine {
        Some(found) => found == machine && allows(prefixes, answer.directory.as_slice()),
        None => false,
    }
}

/// Whether a directory is allowed: no prefixes are given, or one begins it.
fn allows(prefixes: &[String], directory: &[u8]) -> bool
    ensures { result ≡ is_allowed (map string_bytes prefixes.now) directory.now }
{
    prefixes.is_empty() || begins_with_one(prefixes, directory)
}

/// Whether some prefix begins a directory.
fn begins_with_one(prefixes: &[String], directory: &[u8]) -> bool
    ensures { result ≡ list_any (λ p. starts_with nat_eq directory.now p)
        (map string_bytes prefixes.now) }
{
    for prefix in prefixes {
        if directory.starts_with(prefix.as_bytes()) {
            return true;
        }
    }
    false
}

/// Whether a name is in a set. Takes no memory.
fn has(set: &HashSet<&[u8]>, name: &[u8]) -> bool
    ensures { result ≡ has_name (keys set.now) name.now }
{
    set.contains(name)
}

/// Puts a name into a set, where it is to be there.
fn put_if<'e>(set: &mut HashSet<&'e [u8]>, name: &'e [u8], is_put: bool) -> Result<(), AllocError>
    ensures { OnOk result ((other : List ℕ) → has_name (keys set.new) other
        ≡ (has_name (keys set.old) other || (is_put && bytes_eq other name.entry.now))) }
{
    if !is_put {
        return Ok(());
    }
    set.insert(name)?;
    Ok(())
}
