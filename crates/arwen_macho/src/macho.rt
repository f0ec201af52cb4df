ghost use Rattle.std.specs.Prelude.{◌≡◌, ◌+◌, ◌≤◌, ◌∷◌, [], nat_le, length, true, None, IsOk, IfOk, IfErr, OnErr, OnOk, MatchResult};
ghost use Rattle.std.specs.List.{concat};
ghost use Rattle.patch_bytes.specs.ByteString.{bytes_of_each};
ghost use Rattle.macho_image.specs.Checks.{file_fault};
ghost use Rattle.macho_image.specs.Commands.{first_content_of};
ghost use Rattle.macho_image.specs.Form.{commands_end, ctx_of};
ghost use Rattle.macho_edits.specs.Call.Call.{add_rpath, change_install_id, change_install_name, change_rpath, remove_rpath};

use crate::change::{Change, Fit};
pub use crate::fat::{FatMacho, FatMachoContainer};
pub use crate::front::{Front, lay_fronts};
pub use macho_edits::batch::{MachoBatchError, MachoEdit};
use macho_edits::batch::{edit_all, lend_all};
use macho_edits::draft::Edit;
pub use macho_edits::error::MachoError;
use macho_edits::room::{available, commands_end, fits};
pub use macho_image::{
    CommandVariant, Ctx, Dylib, DylibCommand, FatArch, Header, LoadCommand, LoadCommandHeader,
    MachFault, MachO, RpathCommand,
};
use macho_image::{header_size, is_fat};
use patch_bytes::ByteString;
pub use patch_bytes::{ByteOrder2, Wide};
use std::alloc::{AllocError, Global};
use std::marker::Model;

/// A thin Mach-O file under edits. It keeps the bytes as read, and how far load commands ever reached.
#[derive(Drop)]
pub struct SingleMachO<'a> {
    source: &'a [u8],
    inner: MachO<'a>,
    high: usize,
}

impl<'a> Model for SingleMachO<'a> {
    ghost use Rattle.macho_edits.specs.Held.{Held};

    ghost Value = { Held };

    ghost use Rattle.arwen_macho.specs.HeldBy.{IsHeld, held_of};

    ghost view = { held_of };

    ghost invariant = { IsHeld };
}

// The byte strings joined.
fn joined(alloc: Global, commands: &[ByteString<'_>]) -> Result<Vec<u8>, AllocError>
    ensures { IfOk result (λ area. area.items ≡ concat (bytes_of_each commands.now)) }
{
    let mut area = Vec::new(alloc);
    for command in commands {
        area.extend_from_slice(command.as_slice())?;
    }
    Ok(area)
}

impl<'a> SingleMachO<'a> {
    ghost use Rattle.macho_edits.specs.Batch.{StepsBatch, ThinRefuses, calls_of};
    ghost use Rattle.arwen_macho.specs.Change.{IsChangeOf, IsFitFor, IsStepFit, IsStepOf, RefusesRoom, change_with, changed_file, front_fit};
    ghost use Rattle.macho_edits.specs.Edit.{AreTexts, call_of, calls_lent};
    ghost use Rattle.arwen_macho.specs.Found.{Finds, found_fault};
    ghost use Rattle.arwen_macho.specs.Fronts.{IsFrontAt, LeadThin, StepIsThin};
    ghost use Rattle.macho_edits.specs.Held.{StepsOnce, held_at_read, image_model};
    ghost use Rattle.macho_edits.specs.Refused.{cause_of};
    ghost use Rattle.arwen_macho.specs.Shown.{Shows};
    ghost use Rattle.macho_edits.specs.State.{laid_bytes};
    ghost use Rattle.macho_edits.specs.Whole.{IsState, KeepsContents, TextsAreBytes};

    /// Parses a thin file. It is refused by the first check that fails, or where there is no memory.
    pub fn parse(alloc: Global, bytes: &'a [u8]) -> Result<SingleMachO<'a>, MachoError>
        ensures { MatchResult result
            (λ macho. (file_fault bytes.entry.now ≡ None) × (macho ≡ held_at_read bytes.entry.now))
            (λ e. Finds e (found_fault (file_fault bytes.entry.now))) }
    {
        let inner = MachO::parse(alloc, bytes)?;
        let high = commands_end(&inner);
        Ok(SingleMachO {
            source: bytes,
            inner,
            high,
        })
    }

    /// The bytes as edited: those that were read until the first accepted edit. Takes no memory.
    pub fn bytes(&self) -> &[u8]
        ensures bytes { result.now ≡ laid_bytes self.now.state }
        ensures shows { Shows self.now.state result.now }
        ensures state { IsState self.now.state }
    {
        self.inner.bytes()
    }

    /// The parsed file, as edited. Takes no memory.
    pub fn inner(&self) -> &MachO<'a>
        ensures { result.now ≡ image_model self.now }
    {
        &self.inner
    }

    /// The file's form. Takes no memory.
    pub fn ctx(&self) -> Ctx
        ensures { result ≡ ctx_of self.now.state.old }
    {
        self.inner.ctx()
    }

    /// The bytes as edited, handed out: without a copy where they were edited, else copied. The only
    /// error is that there is no memory.
    pub fn into_bytes(self, alloc: Global) -> Result<Vec<u8>, AllocError>
        ensures bytes { IfOk result (λ bytes. bytes.items ≡ laid_bytes self.entry.state) }
        ensures owned { self.entry.is_edited ≡ true → IsOk result }
    {
        let SingleMachO { inner, .. } = self;
        inner.into_bytes(alloc)
    }

    // Another list of load commands, if there is room for it.
    fn fit_for(&self, alloc: Global, commands: &[ByteString<'_>]) -> Result<Fit, MachoError>
        requires { KeepsContents (ctx_of self.now.state.old).le
            self.now.state.list (bytes_of_each commands.now) }
        ensures ok { IfOk result (IsFitFor self.now (bytes_of_each commands.now)) }
        ensures err { IfErr result (λ e.
            RefusesRoom self.now.state (bytes_of_each commands.now) (cause_of e)) }
    {
        let area = joined(alloc, commands)?;
        let end = header_size(self.inner.ctx().container) + area.len();
        if !fits(&self.inner, end) {
            return Err(MachoError::NoRoom {
                needed: end as u64,
                available: available(&self.inner) as u64,
            });
        }
        Ok(Fit {
            count: commands.len() as u32,
            area,
            high: self.high.max(end),
        })
    }

    // What it takes to bring in a list that fits.
    pub(crate) fn change_with(&self, alloc: Global, fit: Fit) -> Result<Change, AllocError>
        requires { IsChangeOf self.now (change_with self.now fit) }
        ensures { IfOk result (λ change. change ≡ change_with self.now fit) }
    {
        let Fit { count, area, high } = fit;
        let prepared = self.inner.prepare(alloc, count, area)?;
        Ok(Change { prepared, high })
    }

    // The bytes that differ where a list that fits is brought in: the file's front with it.
    pub(crate) fn front_with(&self, alloc: Global, fit: &Fit) -> Result<Vec<u8>, AllocError>
        requires { IsChangeOf self.now (change_with self.now fit.now) }
        ensures { IfOk result (λ front. front.items ≡ front_fit self.now fit.now) }
    {
        self.inner.front_with(alloc, fit.count, &fit.area, fit.high)
    }

    // Carries out a change. Takes no memory.
    pub(crate) fn commit(&mut self, change: Change)
        requires { IsChangeOf self.old change }
        ensures { self.new ≡ changed_file self.old change }
    {
        let Change { prepared, high } = change;
        self.inner.store(prepared, high);
        self.high = high;
    }

    // The list that edits leave, decided upon a draft of the list.
    fn fit_by(&self, alloc: Global, edits: &[Edit<'_>]) -> Result<Fit, MachoBatchError>
        requires { AreTexts edits.now }
        ensures ok { IfOk result (IsStepFit (calls_lent edits.now) self.now) }
        ensures err { IfErr result (ThinRefuses (calls_lent edits.now) self.now) }
    {
        let mut commands = self.inner.commands(alloc)?;
        edit_all(alloc, self.inner.ctx(), &mut commands, edits)?;
        match self.fit_for(alloc, commands.as_slice()) {
            Ok(fit) => Ok(fit),
            Err(fault) => Err(MachoBatchError {
                index: edits.len(),
                fault,
            }),
        }
    }

    // What edits ask for.
    pub(crate) fn change_by(
        &self,
        alloc: Global,
        edits: &[Edit<'_>],
    ) -> Result<Change, MachoBatchError>
        requires { AreTexts edits.now }
        ensures ok { IfOk result (IsStepOf (calls_lent edits.now) self.now) }
        ensures err { IfErr result (ThinRefuses (calls_lent edits.now) self.now) }
    {
        let fit = self.fit_by(alloc, edits)?;
        Ok(self.change_with(alloc, fit)?)
    }

    // The front of the file that edits ask for, where the file begins at an offset of another.
    pub(crate) fn front_at(
        &self,
        alloc: Global,
        offset: usize,
        edits: &[Edit<'_>],
    ) -> Result<Front, MachoBatchError>
        requires { AreTexts edits.now }
        ensures ok { IfOk result (IsFrontAt (calls_lent edits.now) self.now offset) }
        ensures err { IfErr result (ThinRefuses (calls_lent edits.now) self.now) }
    {
        let fit = self.fit_by(alloc, edits)?;
        let bytes = self.front_with(alloc, &fit)?;
        Ok(Front { offset, bytes })
    }

    // What a batch of edits writes over the file's bytes.
    fn fronts(&self, alloc: Global, edits: &[MachoEdit]) -> Result<Vec<Front>, MachoBatchError>
        ensures ok { IfOk result (LeadThin (calls_of edits.now) self.now) }
        ensures state { OnOk result (StepIsThin (calls_of edits.now) self.now) }
        ensures err { IfErr result (ThinRefuses (calls_of edits.now) self.now) }
    {
        // From a read of the fields on it is known what holds of them.
        let _read = self.high;
        let lent = lend_all(alloc, edits)?;
        let front = self.front_at(alloc, 0, lent.as_slice())?;
        let mut fronts = Vec::new(alloc);
        fronts.push(front)?;
        Ok(fronts)
    }

    // Makes several edits, all of them or none.
    pub(crate) fn apply_lent(
        &mut self,
        alloc: Global,
        edits: &[Edit<'_>],
    ) -> Result<(), MachoBatchError>
        requires some { 1 ≤ length edits.now }
        requires texts { AreTexts edits.now }
        ensures { StepsBatch (calls_lent edits.now) self.old self.new result }
    {
        let change = self.change_by(alloc, edits)?;
        self.commit(change);
        Ok(())
    }

    // One edit: a batch of one.
    fn edit(&mut self, alloc: Global, edit: Edit<'_>) -> Result<(), MachoError>
        requires { TextsAreBytes (call_of edit) }
        ensures { StepsOnce (call_of edit.entry) self.old self.new result }
    {
        match self.apply_lent(alloc, &[edit]) {
            Ok(()) => Ok(()),
            Err(refused) => Err(refused.fault),
        }
    }

    /// Appends an rpath command with this text.
    pub fn add_rpath(&mut self, alloc: Global, new: &str) -> Result<(), MachoError>
        ensures { StepsOnce (add_rpath new.now) self.old self.new result }
    {
        self.edit(alloc, Edit::AddRpath(new))
    }

    /// Replaces the first rpath command with the old text by one with the new text.
    pub fn change_rpath(&mut self, alloc: Global, old: &str, new: &str) -> Result<(), MachoError>
        ensures { StepsOnce (change_rpath old.now new.now) self.old self.new result }
    {
        self.edit(alloc, Edit::ChangeRpath(old, new))
    }

    /// Drops the first rpath command with this text.
    pub fn remove_rpath(&mut self, alloc: Global, old: &str) -> Result<(), MachoError>
        ensures { StepsOnce (remove_rpath old.now) self.old self.new result }
    {
        self.edit(alloc, Edit::RemoveRpath(old))
    }

    /// Gives the first command with the library's own name another name, its numbers kept.
    pub fn change_install_id(&mut self, alloc: Global, new: &str) -> Result<(), MachoError>
        ensures { StepsOnce (change_install_id new.now) self.old self.new result }
    {
        self.edit(alloc, Edit::ChangeInstallId(new))
    }

    /// Gives the first command that loads the library of the old name the new name, its kind and its
    /// numbers kept.
    pub fn change_install_name(
        &mut self,
        alloc: Global,
        old: &str,
        new: &str,
    ) -> Result<(), MachoError>
        ensures { StepsOnce (change_install_name old.now new.now) self.old self.new result }
    {
        self.edit(alloc, Edit::ChangeInstallName(old, new))
    }

    /// Makes several edits, each upon what the one before it left: all of them, or none. Whether there is
    /// room is decided by the last list alone. No edits are accepted without memory, and change nothing.
    pub fn apply(&mut self, alloc: Global, edits: &[MachoEdit]) -> Result<(), MachoBatchError>
        ensures steps { StepsBatch (calls_of edits.now) self.old self.new result }
        ensures none { edits.now ≡ [] → IsOk result }
    {
        if edits.is_empty() {
            // From a read of the fields on it is known what holds of them.
            let _read = self.high;
            return Ok(());
        }
        let lent = lend_all(alloc, edits)?;
        self.apply_lent(alloc, lent.as_slice())
    }
}

/// A Mach-O file by its shape.
#[derive(Drop)]
pub enum MachoType<'a> {
    /// A thin file.
    SingleArch(SingleMachO<'a>),
    /// A fat file.
    Fat(FatMachoContainer<'a>),
}

/// A Mach-O file under edits. Its bytes stay the borrowed input until the first accepted edit.
#[derive(Drop)]
pub struct MachoContainer<'a> {
    inner: MachoType<'a>,
}

impl<'a> Model for MachoContainer<'a> {
    ghost use Rattle.arwen_macho.specs.declared.macho.MachoType.{MachoType};

    ghost Value = { MachoType };

    ghost view = { λ c. c.inner };
}

impl<'a> MachoContainer<'a> {
    ghost use Rattle.macho_edits.specs.Batch.{calls_of};
    ghost use Rattle.arwen_macho.specs.Container.{AnswersEach, FileRefuses, LeavesEach, TakesBatch, TakesOnce, all_calls, container_bytes, container_step, first_container, is_edited_file};
    ghost use Rattle.arwen_macho.specs.ContainerShown.{ShowsFile, StepShows};
    ghost use Rattle.macho_edits.specs.Edit.{AreTexts, call_of, calls_lent};
    ghost use Rattle.arwen_macho.specs.Found.{Finds, container_found};
    ghost use Rattle.arwen_macho.specs.Fronts.{LeadFile};
    ghost use Rattle.macho_edits.specs.Whole.{TextsAreBytes};

    /// Parses a file, which is fat where it begins with the magic of fat files. It is refused by the first
    /// check that fails, or where there is no memory.
    #[tactic(auto, unfolding(crate::specs::Found::container_found))]
    pub fn parse(alloc: Global, bytes: &'a [u8]) -> Result<MachoContainer<'a>, MachoError>
        ensures { MatchResult result
            (λ file. (container_found bytes.entry.now ≡ None)
            × (file ≡ first_container bytes.entry.now))
            (λ e. Finds e (container_found bytes.entry.now)) }
    {
        let inner = if is_fat(bytes) {
            MachoType::Fat(FatMachoContainer::parse(alloc, bytes)?)
        } else {
            MachoType::SingleArch(SingleMachO::parse(alloc, bytes)?)
        };
        Ok(MachoContainer { inner })
    }

    /// The file's bytes as edited. A parse accepts them, and finds the edited load commands. Takes no
    /// memory.
    pub fn bytes(&self) -> &[u8]
        ensures bytes { result.now ≡ container_bytes self.now }
        ensures shows { ShowsFile self.now result.now }
    {
        match &self.inner {
            MachoType::SingleArch(single) => single.bytes(),
            MachoType::Fat(fat) => fat.bytes(),
        }
    }

    /// The file's bytes as edited, handed out: without a copy where they were edited, else copied. The
    /// only error is that there is no memory.
    pub fn into_bytes(self, alloc: Global) -> Result<Vec<u8>, AllocError>
        ensures bytes { IfOk result (λ bytes. bytes.items ≡ container_bytes self.entry) }
        ensures owned { is_edited_file self.entry ≡ true → IsOk result }
    {
        let MachoContainer { inner } = self;
        match inner {
            MachoType::SingleArch(single) => single.into_bytes(alloc),
            MachoType::Fat(fat) => fat.into_bytes(alloc),
        }
    }

    /// The file by its shape. Takes no memory.
    pub fn inner(&self) -> &MachoType<'a>
        ensures { result.now ≡ self.now }
    {
        &self.inner
    }

    // Makes several edits, all of them or none.
    fn apply_lent(&mut self, alloc: Global, edits: &[Edit<'_>]) -> Result<(), MachoBatchError>
        requires some { 1 ≤ length edits.now }
        requires texts { AreTexts edits.now }
        ensures { TakesBatch (calls_lent edits.now) self.old self.new result }
    {
        match &mut self.inner {
            MachoType::SingleArch(single) => single.apply_lent(alloc, edits),
            MachoType::Fat(fat) => fat.apply_lent(alloc, edits),
        }
    }

    // One edit: a batch of one.
    fn edit(&mut self, alloc: Global, edit: Edit<'_>) -> Result<(), MachoError>
        requires { TextsAreBytes (call_of edit) }
        ensures { TakesOnce (call_of edit.entry) self.old self.new result }
    {
        match self.apply_lent(alloc, &[edit]) {
            Ok(()) => Ok(()),
            Err(refused) => Err(refused.fault),
        }
    }

    /// Appends an rpath command with this text.
    pub fn add_rpath(&mut self, alloc: Global, new: &str) -> Result<(), MachoError>
        ensures { TakesOnce (add_rpath new.now) self.old self.new result }
    {
        self.edit(alloc, Edit::AddRpath(new))
    }

    /// Replaces the first rpath command with the old text by one with the new text.
    pub fn change_rpath(&mut self, alloc: Global, old: &str, new: &str) -> Result<(), MachoError>
        ensures { TakesOnce (change_rpath old.now new.now) self.old self.new result }
    {
        self.edit(alloc, Edit::ChangeRpath(old, new))
    }

    /// Drops the first rpath command with this text.
    pub fn remove_rpath(&mut self, alloc: Global, old: &str) -> Result<(), MachoError>
        ensures { TakesOnce (remove_rpath old.now) self.old self.new result }
    {
        self.edit(alloc, Edit::RemoveRpath(old))
    }

    /// Gives the first command with the library's own name another name, its numbers kept.
    pub fn change_install_id(&mut self, alloc: Global, new: &str) -> Result<(), MachoError>
        ensures { TakesOnce (change_install_id new.now) self.old self.new result }
    {
        self.edit(alloc, Edit::ChangeInstallId(new))
    }

    /// Gives the first command that loads the library of the old name the new name, its kind and its
    /// numbers kept.
    pub fn change_install_name(
        &mut self,
        alloc: Global,
        old: &str,
        new: &str,
    ) -> Result<(), MachoError>
        ensures { TakesOnce (change_install_name old.now new.now) self.old self.new result }
    {
        self.edit(alloc, Edit::ChangeInstallName(old, new))
    }

    /// Makes several edits, each upon what the one before it left: all of them, or none. No edits are
    /// accepted without memory, and change nothing.
    pub fn apply(&mut self, alloc: Global, edits: &[MachoEdit]) -> Result<(), MachoBatchError>
        ensures takes { TakesBatch (calls_of edits.now) self.old self.new result }
        ensures none { edits.now ≡ [] → IsOk result }
    {
        match &mut self.inner {
            MachoType::SingleArch(single) => single.apply(alloc, edits),
            MachoType::Fat(fat) => fat.apply(alloc, edits),
        }
    }

    /// What `apply` would write over the file's bytes: the front of each thin file in it, without what
    /// lies behind. With them over it the file is accepted by a parse, and shows the edited load commands.
    /// It is refused where `apply` is, and the file stays as it is.
    pub fn fronts(&self, alloc: Global, edits: &[MachoEdit]) -> Result<Vec<Front>, MachoBatchError>
        ensures ok { IfOk result (LeadFile (calls_of edits.now) self.now) }
        ensures shows { OnOk result (StepShows (container_step (calls_of edits.now) self.now)) }
        ensures err { IfErr result (FileRefuses (calls_of edits.now) self.now) }
    {
        match &self.inner {
            MachoType::SingleArch(single) => single.fronts(alloc, edits),
            MachoType::Fat(fat) => fat.fronts(alloc, edits),
        }
    }

    /// Applies batch after batch, each of them all or none, and answers each. After an error, that there
    /// is no memory for the answers, nothing was applied.
    pub fn apply_each(
        &mut self,
        alloc: Global,
        batches: &[Vec<MachoEdit>],
    ) -> Result<Vec<Result<(), MachoBatchError>>, AllocError>
        ensures answers { IfOk result (AnswersEach (all_calls batches.now) self.old) }
        ensures left { IfOk result (LeavesEach (all_calls batches.now) self.old self.new) }
        ensures err { OnErr result (self.new ≡ self.old) }
    {
        let mut answers = Vec::with_capacity(alloc, batches.len())?;
        for batch in batches {
            let answer = self.apply(alloc, batch.as_slice());
            answers.push_reserved(answer);
        }
        Ok(answers)
    }
}
