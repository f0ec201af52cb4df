//! Libraries that are looked for in the directories of a run path.
ghost use Rattle.std.specs.Prelude.{◌≡◌, ◌++◌, ℕ, List, IfOk, MatchOption, OnOk, IsUtf8, map, string_bytes};
ghost use Rattle.std.specs.Str.Lossy.{utf8_lossy};
ghost use Rattle.elf_edits_shrink.specs.ShrinkModel.{answer_model};
ghost use Rattle.elf_edits_shrink.specs.ShrinkModel.{pair_lent, reason_model, removal_model};
ghost use Rattle.elf_image.specs.Image.{shown};
ghost use Rattle.elf_commands_edits.specs.Shrinking.{Answers, AreAnswers, AreFound, IsMachineAt, folder_of, line_by, path_of, removal_line, removal_lines};

use arwen_elf::elf::{ElfContainer, ProbeAnswer, Reason, Removed};
use byte_store::{Opens, ReadError, load_up_to};
use command_words::RegularFiles;
use elf_image::machine_of;
use patch_bytes::ByteString;
use std::alloc::{AllocError, Global};
use std::rt::Files;

/// How many bytes of a file tell its machine (gABI, ELF Header, up to `e_machine`).
const MACHINE_END: usize = 20;

/// Looks for needed libraries in the directories of a run path.
pub trait Probe {
    ghost use Rattle.std.specs.Prelude.{ℕ, List, Option, IfOk};

    // Which machine may be found for a directory and a library; none where there is no such file.
    ghost may_find: { Self → List ℕ → List ℕ → Option ℕ → Type 0 };

    /// The machine of the file that a directory of a run path has for a needed library (gABI, ELF
    /// Header, `e_machine`); `None` where there is no such file, or where it is no ELF file. Error:
    /// `AllocError`.
    fn machine(
        &self,
        alloc: Global,
        directory: &[u8],
        needed: &[u8],
    ) -> Result<Option<u16>, AllocError>
        ensures { IfOk result (may_find self.now directory.now needed.now) };
}

/// Looks for libraries among the files of a runtime.
#[derive(Clone, Copy)]
pub struct FileProbe<'a, R> {
    /// The runtime.
    pub files: &'a R,
}

impl<R: Files> Probe for FileProbe<'_, R> {
    ghost use Rattle.std.specs.Prelude.{◌≡◌, IsUtf8, None};
    ghost use Rattle.elf_commands_edits.specs.Shrinking.{path_of};

    // What files hold is not known; there is none at a path that is no text.
    ghost may_find = { λ _ directory needed machine.
        (IsUtf8 (path_of directory needed) → ⊥) → machine ≡ None };

    fn machine(
        &self,
        alloc: Global,
        directory: &[u8],
        needed: &[u8],
    ) -> Result<Option<u16>, AllocError> {
        let Some(path) = candidate_path(alloc, directory, needed)? else {
            return Ok(None);
        };
        let files = RegularFiles { files: self.files };
        machine_at(alloc, &files, path.as_str())
    }
}

/// The path of the file that a directory may have for a needed library: behind a slash, of which there
/// is one; the name of a library that begins with one stands by itself. `None` where it is no UTF-8.
fn candidate_path(
    alloc: Global,
    directory: &[u8],
    needed: &[u8],
) -> Result<Option<String>, AllocError>
    ensures { IfOk result (λ path. MatchOption path
        (IsUtf8 (path_of directory.now needed.now) → ⊥)
        (λ path. string_bytes path ≡ path_of directory.now needed.now)) }
{
    let bytes = path_bytes(alloc, directory, needed)?;
    match String::from_utf8(bytes) {
        Ok(path) => Ok(Some(path)),
        Err(_) => Ok(None),
    }
}

/// The bytes of that path.
fn path_bytes(alloc: Global, directory: &[u8], needed: &[u8]) -> Result<Vec<u8>, AllocError>
    ensures { IfOk result (λ bytes. bytes.items ≡ path_of directory.now needed.now) }
{
    if needed.starts_with(b"/") {
        return Ok(Vec::from_slice(alloc, needed)?);
    }
    let mut bytes = folder_bytes(alloc, directory)?;
    bytes.extend_from_slice(needed)?;
    Ok(bytes)
}

/// A directory with a slash behind it.
fn folder_bytes(alloc: Global, directory: &[u8]) -> Result<Vec<u8>, AllocError>
    ensures { IfOk result (λ bytes. bytes.items ≡ folder_of directory.now) }
{
    let mut bytes = Vec::from_slice(alloc, directory)?;
    if directory.ends_with(b"/") {
        return Ok(bytes);
    }
    bytes.push(b'/')?;
    Ok(bytes)
}

/// The machine of the file at a path; `None` where it can't be read, or is no ELF file.
fn machine_at<'p, O: Opens<'p>>(
    alloc: Global,
    files: &O,
    path: &'p str,
) -> Result<Option<u16>, AllocError>
    ensures { IfOk result (IsMachineAt (O.contents files.now path.entry.now)) }
{
    let Ok(mut store) = files.open(path) else {
        return Ok(None);
    };
    match load_up_to(alloc, &mut store, MACHINE_END) {
        Ok(bytes) => Ok(machine_of(bytes.as_slice())),
        Err(ReadError::Memory) => Err(AllocError),
        Err(ReadError::Io(_)) => Ok(None),
    }
}

/// The answers for all that has to be looked for before a file's run paths shrink, in order.
pub fn answers_of<P: Probe>(
    alloc: Global,
    elf: &ElfContainer<'_>,
    probe: &P,
) -> Result<Vec<ProbeAnswer<'static>>, AllocError>
    ensures { IfOk result (λ answers. AreFound (P.may_find probe.now) (shown elf.now.inner)
        (map answer_model answers.items)) }
{
    let questions = elf.inner.elf_shrink_questions(alloc)?;
    answers_to(alloc, probe, questions.as_slice())
}

/// The answers for pairs of a directory and a needed library, in order.
fn answers_to<P: Probe>(
    alloc: Global,
    probe: &P,
    questions: &[(&[u8], &[u8])],
) -> Result<Vec<ProbeAnswer<'static>>, AllocError>
    ensures { IfOk result (λ answers. AreAnswers (P.may_find probe.now)
        (map pair_lent questions.now) (map answer_model answers.items)) }
{
    let mut answers = Vec::with_capacity(alloc, questions.len())?;
    for (directory, needed) in questions {
        answers.push(answer_to(alloc, probe, directory, needed)?)?;
    }
    Ok(answers)
}

/// The answer for a directory and a needed library.
fn answer_to<P: Probe>(
    alloc: Global,
    probe: &P,
    directory: &[u8],
    needed: &[u8],
) -> Result<ProbeAnswer<'static>, AllocError>
    ensures { IfOk result (λ answer. Answers (P.may_find probe.now) directory.now needed.now
        (answer_model answer)) }
{
    let machine = probe.machine(alloc, directory, needed)?;
    let directory = Vec::from_slice(alloc, directory)?;
    let needed = Vec::from_slice(alloc, needed)?;
    Ok(ProbeAnswer {
        directory: ByteString::owned(directory),
        needed: ByteString::owned(needed),
        machine,
    })
}

/// The lines that tell which directories went from run paths, and why.
pub fn removal_text(alloc: Global, removed: Vec<Removed>) -> Result<String, AllocError>
    ensures { IfOk result (λ text.
        string_bytes text ≡ removal_lines (map removal_model removed.items)) }
{
    let text = removal_text_of(alloc, removed.as_slice());
    drop(removed);
    text
}

/// The same of directories that are lent.
fn removal_text_of(alloc: Global, removed: &[Removed]) -> Result<String, AllocError>
    ensures { IfOk result (λ text.
        string_bytes text ≡ removal_lines (map removal_model removed.now)) }
{
    let mut text = String::new(alloc);
    for one in removed {
        put_removal(alloc, &mut text, one)?;
    }
    Ok(text)
}

/// Puts the line of a directory that went behind others.
fn put_removal(alloc: Global, text: &mut String, removed: &Removed) -> Result<(), AllocError>
    ensures { OnOk result (string_bytes text.new
        ≡ string_bytes text.old ++ removal_line (removal_model removed.now)) }
{
    let directory = String::from_utf8_lossy(alloc, removed.directory.as_slice())?;
    let (before, behind) = line_parts(removed.reason);
    text.push_str(before)?;
    text.push_str(directory.as_str())?;
    text.push_str(behind)
}

/// What a line says before and behind the directory that went for this reason.
fn line_parts(reason: Reason) -> (&'static str, &'static str)
    ensures { (directory : List ℕ) → line_by (reason_model reason) directory
        ≡ result.0.now ++ utf8_lossy directory ++ result.1.now }
{
    match reason {
        Reason::Prefix => ("Removing ", " from RPATH due to non-allowed prefix\n"),
        Reason::NoLibrary => ("Removing directory ", "\n"),
    }
}
