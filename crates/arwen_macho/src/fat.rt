ghost use Rattle.std.specs.Prelude.{◌≡◌, ◌∷◌, [], ◌+◌, ◌≤◌, All, IfOk, IfErr, IsOk, MatchResult, None, OnOk, length, map, take, true};
ghost use Rattle.std.specs.List.{AllZip};
ghost use Rattle.std.specs.Str.{bytes_eq};
ghost use Rattle.patch_bytes.specs.ByteString.{bytes_model};
ghost use Rattle.macho_image.specs.Fat.{archs_of, slice_of, table_fault};
ghost use Rattle.macho_edits.specs.Batch.{calls_of};
ghost use Rattle.macho_edits.specs.Call.Call.{add_rpath, change_install_id, change_install_name, change_rpath, remove_rpath};
ghost use Rattle.macho_edits.specs.Edit.{AreTexts, call_of, calls_lent};
ghost use Rattle.arwen_macho.specs.FatSlice.{AreStepsIn, IsReadyIn, SlicesRefuse, changed_macho, changed_machos, first_macho, front_of, fronts_over, slice_model};
ghost use Rattle.arwen_macho.specs.FatState.{put_at};
ghost use Rattle.arwen_macho.specs.Found.{ARCHIVE, Finds, found_fault, slice_found, slices_found};
ghost use Rattle.arwen_macho.specs.Fronts.{AreFrontsOf};
ghost use Rattle.macho_edits.specs.Whole.{TextsAreBytes};

use crate::change::Change;
use crate::front::{Front, put};
use crate::macho::SingleMachO;
use macho_edits::batch::{MachoBatchError, MachoEdit, lend_all};
use macho_edits::draft::Edit;
use macho_edits::error::MachoError;
use macho_image::{FatArch, fat_archs};
use std::alloc::{AllocError, Global};
use std::marker::Model;

/// A slice of a fat file: its record in the table, and the file in it.
#[derive(Drop)]
pub struct FatMacho<'a> {
    inner: SingleMachO<'a>,
    arch: FatArch,
}

impl<'a> Model for FatMacho<'a> {
    ghost use Rattle.arwen_macho.specs.FatSlice.{HeldSlice};

    ghost Value = { HeldSlice };

    ghost view = { λ m. record { arch = m.arch; inner = m.inner } };
}

impl<'a> FatMacho<'a> {
    /// The file in the slice, as edited. Takes no memory.
    pub fn inner(&self) -> &SingleMachO<'a>
        ensures { result.now ≡ self.now.inner }
    {
        &self.inner
    }

    /// The slice's record in the table, `fat_arch` of fat.h. Takes no memory.
    pub fn arch(&self) -> FatArch
        ensures { result ≡ self.now.arch }
    {
        self.arch
    }
}

// The records of a fat file's table, or the first of its checks that fails.
fn read_table(alloc: Global, bytes: &[u8]) -> Result<Vec<FatArch>, MachoError>
    ensures { MatchResult result
        (λ archs. (table_fault bytes.now ≡ None) × (archs.items ≡ archs_of bytes.now))
        (λ e. Finds e (found_fault (table_fault bytes.now))) }
{
    let archs = fat_archs(alloc, bytes)?;
    Ok(archs)
}

// Whether bytes begin as a Unix archive does.
fn is_archive(bytes: &[u8]) -> bool
    ensures { result ≡ bytes_eq (take 8 bytes.now) ARCHIVE }
{
    let front = &bytes[..bytes.len().min(8)];
    front == b"!<arch>\n".as_slice()
}

// Parses one slice.
fn parse_slice<'a>(
    alloc: Global,
    bytes: &'a [u8],
    arch: FatArch,
) -> Result<FatMacho<'a>, MachoError>
    requires { arch.offset + arch.size ≤ length bytes.now }
    ensures { MatchResult result
        (λ m. (slice_found (slice_of bytes.entry.now arch) ≡ None)
        × (m ≡ first_macho bytes.entry.now arch))
        (λ e. Finds e (slice_found (slice_of bytes.entry.now arch))) }
{
    let start = arch.offset as usize;
    let slice = &bytes[start..start + arch.size as usize];
    if is_archive(slice) {
        return Err(MachoError::UnixArchive);
    }
    let inner = SingleMachO::parse(alloc, slice)?;
    Ok(FatMacho { inner, arch })
}

// Parses the slices of a table, in its order.
fn parse_slices<'a>(
    alloc: Global,
    bytes: &'a [u8],
    archs: &[FatArch],
) -> Result<Vec<FatMacho<'a>>, MachoError>
    requires { All (λ arch. arch.offset + arch.size ≤ length bytes.now) archs.now }
    ensures { MatchResult result
        (λ slices. (slices_found (map (slice_of bytes.entry.now) archs.now) ≡ None)
        × (slices.items ≡ map (first_macho bytes.entry.now) archs.now))
        (λ e. Finds e (slices_found (map (slice_of bytes.entry.now) archs.now))) }
{
    let mut slices = Vec::new(alloc);
    for arch in archs {
        let slice = parse_slice(alloc, bytes, *arch)?;
        slices.push(slice)?;
    }
    Ok(slices)
}

// What edits ask of each slice, decided in their order.
fn changes_all(
    alloc: Global,
    slices: &[FatMacho<'_>],
    edits: &[Edit<'_>],
) -> Result<Vec<Change>, MachoBatchError>
    requires { AreTexts edits.now }
    ensures ok { IfOk result (AreStepsIn (calls_lent edits.now) slices.now) }
    ensures err { IfErr result (SlicesRefuse (calls_lent edits.now) slices.now) }
{
    let mut changes = Vec::with_capacity(alloc, slices.len())?;
    for slice in slices {
        let change = slice.inner.change_by(alloc, edits)?;
        changes.push(change)?;
    }
    Ok(changes)
}

// The front of each slice that edits ask for, decided in their order.
fn fronts_all(
    alloc: Global,
    slices: &[FatMacho<'_>],
    edits: &[Edit<'_>],
) -> Result<Vec<Front>, MachoBatchError>
    requires { AreTexts edits.now }
    ensures ok { IfOk result (AreFrontsOf (calls_lent edits.now) slices.now) }
    ensures err { IfErr result (SlicesRefuse (calls_lent edits.now) slices.now) }
{
    let mut fronts = Vec::with_capacity(alloc, slices.len())?;
    for slice in slices {
        let offset = slice.arch.offset as usize;
        let front = slice.inner.front_at(alloc, offset, edits)?;
        fronts.push(front)?;
    }
    Ok(fronts)
}

// Carries out a change of one slice, and in the file's copy. Takes no memory.
fn commit_slice(slice: &mut FatMacho<'_>, change: Change, copy: &mut [u8])
    requires { IsReadyIn (length copy.old) slice.old change }
    ensures slice { slice.new ≡ changed_macho slice.old change }
    ensures bytes { copy.new ≡ put_at slice.old.arch.offset (front_of slice.old change) copy.old }
{
    let high = change.high;
    slice.inner.commit(change);
    put(
        copy,
        slice.arch.offset as usize,
        &slice.inner.bytes()[..high],
    );
}

// Carries out a change of each slice, from the last one back. Takes no memory.
fn commit_all(slices: &mut [FatMacho<'_>], mut changes: Vec<Change>, copy: &mut [u8])
    requires { AllZip (IsReadyIn (length copy.old)) slices.old changes.items }
    ensures slices { slices.new ≡ changed_machos slices.old changes.items }
    ensures bytes { copy.new ≡ fronts_over slices.old changes.items copy.old }
{
    while let Some(change) = changes.pop() {
        let index = changes.len();
        commit_slice(&mut slices[index], change, copy);
    }
}

// The copy of the file, or a new one. A new one is refused where there is no memory.
fn copy_of(alloc: Global, source: &[u8], edited: Option<Vec<u8>>) -> Result<Vec<u8>, AllocError>
    ensures { MatchResult result
        (λ copy. copy.items ≡ bytes_model source.now edited) (λ _. edited ≡ None) }
{
    match edited {
        Some(copy) => Ok(copy),
        None => Ok(Vec::from_slice(alloc, source)?),
    }
}

/// A fat file under edits, `fat_header` of fat.h: an edit is made in every slice, or in none. It keeps the
/// bytes as read.
#[derive(Drop)]
pub struct FatMachoContainer<'a> {
    source: &'a [u8],
    archs: Vec<FatMacho<'a>>,
    // The bytes as edited, from the first edit on.
    edited: Option<Vec<u8>>,
}

impl<'a> Model for FatMachoContainer<'a> {
    ghost use Rattle.arwen_macho.specs.FatHeld.{FatHeld};

    ghost Value = { FatHeld };

    ghost use Rattle.arwen_macho.specs.FatHeldBy.{IsFatHeld, fat_held_of};

    ghost view = { fat_held_of };

    ghost invariant = { IsFatHeld };
}

impl<'a> FatMachoContainer<'a> {
    ghost use Rattle.arwen_macho.specs.FatChange.{AreChangesOf, StepsOf, fat_changed};
    ghost use Rattle.arwen_macho.specs.FatHeld.{FatRefuses, FatStepsBatch, FatStepsOnce, fat_held_at_read};
    ghost use Rattle.arwen_macho.specs.FatShown.{FatShows};
    ghost use Rattle.arwen_macho.specs.FatState.{fat_laid_bytes};
    ghost use Rattle.arwen_macho.specs.Found.{fat_found};
    ghost use Rattle.arwen_macho.specs.Fronts.{LeadFat, StepIsFat};

    /// Parses a fat file. It is refused by the first check that fails: those of the table, then those of
    /// each slice in the table's order, among them that it is no Unix archive; or where there is no memory.
    pub fn parse(alloc: Global, bytes: &'a [u8]) -> Result<FatMachoContainer<'a>, MachoError>
        ensures { MatchResult result
            (λ fat. (fat_found bytes.entry.now ≡ None) × (fat ≡ fat_held_at_read bytes.entry.now))
            (λ e. Finds e (fat_found bytes.entry.now)) }
    {
        let table = read_table(alloc, bytes)?;
        let archs = parse_slices(alloc, bytes, &table)?;
        Ok(FatMachoContainer {
            source: bytes,
            archs,
            edited: None,
        })
    }

    /// The bytes as edited: those that were read until the first accepted edit. Takes no memory.
    pub fn bytes(&self) -> &[u8]
        ensures bytes { result.now ≡ fat_laid_bytes self.now.state }
        ensures shows { FatShows self.now.state result.now }
    {
        match &self.edited {
            None => self.source,
            Some(copy) => copy.as_slice(),
        }
    }

    /// The slices, in the order of the table. Takes no memory.
    pub fn archs(&self) -> &[FatMacho<'a>]
        ensures { map slice_model result.now ≡ self.now.state.slices }
    {
        self.archs.as_slice()
    }

    // What edits ask of the slices.
    fn changes_by(&self, alloc: Global, edits: &[Edit<'_>]) -> Result<Vec<Change>, MachoBatchError>
        requires { AreTexts edits.now }
        ensures ok { IfOk result (StepsOf (calls_lent edits.now) self.now) }
        ensures err { IfErr result (FatRefuses (calls_lent edits.now) self.now) }
    {
        changes_all(alloc, &self.archs, edits)
    }

    /// What `apply` would write over the file's bytes: the front of each slice, in their order. It is refused
    /// where `apply` is, and nothing changes.
    pub fn fronts(&self, alloc: Global, edits: &[MachoEdit]) -> Result<Vec<Front>, MachoBatchError>
        ensures ok { IfOk result (LeadFat (calls_of edits.now) self.now) }
        ensures state { OnOk result (StepIsFat (calls_of edits.now) self.now) }
        ensures err { IfErr result (FatRefuses (calls_of edits.now) self.now) }
    {
        let lent = lend_all(alloc, edits)?;
        self.fronts_by(alloc, lent.as_slice())
    }

    // What `apply` of edits with lent texts would write over the file's bytes: the front of each
    // slice, in their order.
    fn fronts_by(&self, alloc: Global, edits: &[Edit<'_>]) -> Result<Vec<Front>, MachoBatchError>
        requires { AreTexts edits.now }
        ensures ok { IfOk result (LeadFat (calls_lent edits.now) self.now) }
        ensures state { OnOk result (StepIsFat (calls_lent edits.now) self.now) }
        ensures err { IfErr result (FatRefuses (calls_lent edits.now) self.now) }
    {
        fronts_all(alloc, &self.archs, edits)
    }

    // Carries out a change of each slice, in the copy of the file. There may be no memory for the copy.
    fn commit(&mut self, alloc: Global, changes: Vec<Change>) -> Result<(), AllocError>
        requires { AreChangesOf self.old changes.items }
        ensures { MatchResult result
            (λ _. self.new ≡ fat_changed self.old changes.items) (λ _. self.new ≡ self.old) }
    {
        let mut copy = copy_of(alloc, self.source, self.edited.take())?;
        commit_all(&mut self.archs, changes, &mut copy);
        self.edited = Some(copy);
        Ok(())
    }

    // Makes several edits of every slice, all of them or none.
    pub(crate) fn apply_lent(
        &mut self,
        alloc: Global,
        edits: &[Edit<'_>],
    ) -> Result<(), MachoBatchError>
        requires some { 1 ≤ length edits.now }
        requires texts { AreTexts edits.now }
        ensures { FatStepsBatch (calls_lent edits.now) self.old self.new result }
    {
        let changes = self.changes_by(alloc, edits)?;
        self.commit(alloc, changes)?;
        Ok(())
    }

    // One edit of every slice: a batch of one.
    fn edit(&mut self, alloc: Global, edit: Edit<'_>) -> Result<(), MachoError>
        requires { TextsAreBytes (call_of edit) }
        ensures { FatStepsOnce (call_of edit.entry) self.old self.new result }
    {
        match self.apply_lent(alloc, &[edit]) {
            Ok(()) => Ok(()),
            Err(refused) => Err(refused.fault),
        }
    }

    /// Appends an rpath command with this text to every slice.
    pub fn add_rpath(&mut self, alloc: Global, new: &str) -> Result<(), MachoError>
        ensures { FatStepsOnce (add_rpath new.now) self.old self.new result }
    {
        self.edit(alloc, Edit::AddRpath(new))
    }

    /// Replaces the first rpath command with the old text by one with the new text, in every slice.
    pub fn change_rpath(&mut self, alloc: Global, old: &str, new: &str) -> Result<(), MachoError>
        ensures { FatStepsOnce (change_rpath old.now new.now) self.old self.new result }
    {
        self.edit(alloc, Edit::ChangeRpath(old, new))
    }

    /// Drops the first rpath command with this text from every slice.
    pub fn remove_rpath(&mut self, alloc: Global, old: &str) -> Result<(), MachoError>
        ensures { FatStepsOnce (remove_rpath old.now) self.old self.new result }
    {
        self.edit(alloc, Edit::RemoveRpath(old))
    }

    /// Gives the first command with the library's own name another name, its numbers kept, in every slice.
    pub fn change_install_id(&mut self, alloc: Global, new: &str) -> Result<(), MachoError>
        ensures { FatStepsOnce (change_install_id new.now) self.old self.new result }
    {
        self.edit(alloc, Edit::ChangeInstallId(new))
    }

    /// Gives the first command that loads the library of the old name the new name, its kind and its
    /// numbers kept, in every slice.
    pub fn change_install_name(
        &mut self,
        alloc: Global,
        old: &str,
        new: &str,
    ) -> Result<(), MachoError>
        ensures { FatStepsOnce (change_install_name old.now new.now) self.old self.new result }
    {
        self.edit(alloc, Edit::ChangeInstallName(old, new))
    }

    /// Makes several edits in every slice, each upon what the one before it left: all of them in all
    /// slices, or none. The first slice that refuses decides the error. No edits are accepted without memory,
    /// and change nothing.
    pub fn apply(&mut self, alloc: Global, edits: &[MachoEdit]) -> Result<(), MachoBatchError>
        ensures steps { FatStepsBatch (calls_of edits.now) self.old self.new result }
        ensures none { edits.now ≡ [] → IsOk result }
    {
        if edits.is_empty() {
            // From a read of the fields on it is known what holds of them.
            let _read = self.edited.is_some();
            return Ok(());
        }
        let lent = lend_all(alloc, edits)?;
        self.apply_lent(alloc, lent.as_slice())
    }

    /// The bytes as edited, handed out: without a copy where they were edited, else copied. The only error is
    /// that there is no memory.
    pub fn into_bytes(self, alloc: Global) -> Result<Vec<u8>, AllocError>
        ensures bytes { IfOk result (λ bytes. bytes.items ≡ fat_laid_bytes self.entry.state) }
        ensures owned { self.entry.is_edited ≡ true → IsOk result }
    {
        let FatMachoContainer {
            source,
            archs: _,
            edited,
        } = self;
        copy_of(alloc, source, edited)
    }
}
