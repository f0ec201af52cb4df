//! Directories of run paths: cut, judged, and joined again.
ghost use Rattle.std.specs.Prelude.{◌≡◌, ◌++◌, ◌∷◌, [], ◌==◌, if◌then◌else◌, ℕ, IfOk, List, OnOk, filter, map, nat_eq};
ghost use Rattle.std.specs.List.{filter_map, list_any, starts_with};
ghost use Rattle.elf_image.specs.Options.{is_some_and};
ghost use Rattle.elf_edits.specs.EditModel.{texts_model};
ghost use Rattle.elf_edits.specs.Shrunk.{is_absolute as begins_with_slash, is_allowed, is_found_in, machine_found, reason_of, stays};
ghost use Rattle.elf_edits.specs.Texts.{directories_in, joined_by_colons};
ghost use Rattle.elf_edits_shrink.specs.ShrinkModel.{answer_model, machine_in, reason_model, removal_if, removal_model, search_model};

use crate::probe::ProbeAnswer;
use crate::removal::{Reason, Removed};
use elf_edits::constants::{COLON, SLASH};
use std::alloc::{AllocError, Global};
use std::collections::HashMap;

// What directories of run paths are judged by.
#[derive(Drop)]
pub(crate) struct Search<'e> {
    // The prefixes that are allowed, none for all.
    pub(crate) prefixes: &'e [Vec<u8>],
    // The needed libraries.
    pub(crate) needed: Vec<&'e [u8]>,
    // The machine that libraries have to be for.
    pub(crate) machine: u16,
    // The first answer for each directory and library.
    pub(crate) found: HashMap<(&'e [u8], &'e [u8]), Option<u16>>,
}

impl Search<'_> {
    // Whether a directory is allowed: no prefixes are given, or one begins it.
    fn allows(&self, directory: &[u8]) -> bool
        ensures { result ≡ is_allowed (texts_model self.now.prefixes.now) directory.now }
    {
        self.prefixes.is_empty() || begins_with_one(self.prefixes, directory)
    }

    // Whether a library was found in a directory for the machine.
    fn finds(&self, directory: &[u8], name: &[u8]) -> bool
        ensures { result ≡ is_some_and (λ m. m == self.now.machine)
            (machine_in self.now.found.entries directory.now name.now) }
    {
        match self.found.get(&(directory, name)) {
            Some(Some(machine)) => *machine == self.machine,
            _ => false,
        }
    }

    // Whether some needed library was found in a directory.
    fn finds_library(&self, directory: &[u8]) -> bool
        ensures { result ≡ is_found_in (search_model self.now) directory.now }
    {
        for name in self.needed.as_slice() {
            if self.finds(directory, name) {
                return true;
            }
        }
        false
    }

    // Whether a directory stays.
    fn keeps(&self, directory: &[u8]) -> bool
        ensures { result ≡ stays (search_model self.now) directory.now }
    {
        !is_absolute(directory) || (self.allows(directory) && self.finds_library(directory))
    }

    // Why a directory that doesn't stay goes.
    fn reason(&self, directory: &[u8]) -> Reason
        ensures { reason_model result ≡ reason_of (search_model self.now) directory.now }
    {
        if self.allows(directory) {
            Reason::NoLibrary
        } else {
            Reason::Prefix
        }
    }

    // Notes a directory that goes, with its reason.
    fn note_removal(
        &self,
        alloc: Global,
        directory: &[u8],
        removed: &mut Vec<Removed>,
    ) -> Result<(), AllocError>
        ensures { IfOk result (λ _. map removal_model removed.new.items
            ≡ map removal_model removed.old.items
            ++ record {
              directory = directory.now;
              reason = reason_of
                  (search_model self.now) directory.now;
            } ∷ []) }
    {
        let reason = self.reason(directory);
        let directory = Vec::from_slice(alloc, directory)?;
        removed.push(Removed { directory, reason })?;
        Ok(())
    }

    // A run path without the directories that go, which are put to the others that went.
    pub(crate) fn shrink_parts(
        &self,
        alloc: Global,
        parts: &[&[u8]],
        removed: &mut Vec<Removed>,
    ) -> Result<Vec<u8>, AllocError>
        ensures text { IfOk result (λ made. made.items ≡ joined_by_colons
            (filter (stays (search_model self.now)) (map (λ part. part.now) parts.now))) }
        ensures gone { OnOk result (map removal_model removed.new.items
            ≡ map removal_model removed.old.items ++ filter_map (removal_if (search_model self.now))
            (map (λ part. part.now) parts.now)) }
    {
        let mut made = Vec::new(alloc);
        let mut is_first = true;
        for part in parts {
            if self.keeps(part) {
                put_part(&mut made, is_first, part)?;
                is_first = false;
            } else {
                self.note_removal(alloc, part, removed)?;
            }
        }
        Ok(made)
    }
}

// The directories of a run path.
pub(crate) fn directories<'e>(alloc: Global, text: &'e [u8]) -> Result<Vec<&'e [u8]>, AllocError>
    ensures { IfOk result (λ parts. map (λ part. part.now) parts.items ≡ directories_in text.now) }
{
    let mut parts = Vec::new(alloc);
    for part in text.split(|byte| *byte == COLON) {
        parts.push(part)?;
    }
    Ok(parts)
}

// The first answer for each directory and library.
pub(crate) fn answers_by_pair<'e>(
    alloc: Global,
    answers: &'e [ProbeAnswer<'_>],
) -> Result<HashMap<(&'e [u8], &'e [u8]), Option<u16>>, AllocError>
    ensures { IfOk result (λ found. (directory name : List ℕ) →
        machine_in found.entries directory name
        ≡ machine_found (map answer_model answers.now) directory name) }
{
    let mut found = HashMap::new(alloc);
    for answer in answers {
        let pair = (answer.directory.as_slice(), answer.needed.as_slice());
        if !found.contains_key(&pair) {
            found.insert(pair, answer.machine)?;
        }
    }
    Ok(found)
}

// Whether a directory begins with a slash.
pub(crate) fn is_absolute(directory: &[u8]) -> bool
    ensures { result ≡ begins_with_slash directory.now }
{
    directory.starts_with(&[SLASH])
}

// Whether some prefix begins a directory.
fn begins_with_one(prefixes: &[Vec<u8>], directory: &[u8]) -> bool
    ensures { result ≡ list_any (λ p. starts_with nat_eq directory.now p)
        (texts_model prefixes.now) }
{
    for prefix in prefixes {
        if directory.starts_with(prefix.as_slice()) {
            return true;
        }
    }
    false
}

// Puts a directory behind those that stay, with a colon between.
fn put_part(made: &mut Vec<u8>, is_first: bool, part: &[u8]) -> Result<(), AllocError>
    ensures { IfOk result (λ _. made.new.items
        ≡ (if is_first then made.old.items ++ part.now else made.old.items ++ COLON ∷ part.now)) }
{
    if !is_first {
        made.push(COLON)?;
    }
    made.extend_from_slice(part)
}
