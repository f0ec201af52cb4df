//! The edits of a file's image.
ghost use Rattle.std.specs.Prelude.{◌≡◌, [], IfOk, IsOk, OnErr, map};
ghost use Rattle.std.specs.HashSet.{keys};
ghost use Rattle.elf_edits.specs.Edit.{AddDebugTag, AddNeeded, AddRpath, ClearExecStack, ClearSymbolVersion, RemoveNeeded, RemoveRpath, NoDefaultLib, RenameDynamicSymbols, ReplaceLibrary, ReplaceNeeded, SetExecStack, SetInterpreter, SetOsAbi, SetPageSize, SetRpath, SetSoname, ForceRpath, ForceRunpath};
ghost use Rattle.elf_edits.specs.EditModel.{edit_model, pairs_model, texts_model};
ghost use Rattle.elf_apply.specs.Questions.{shrink_questions as all_questions};
ghost use Rattle.elf_apply.specs.ShrinkModel.{pair_lent};
ghost use Rattle.elf_image.specs.Image.{shown};
ghost use Rattle.elf_image.specs.Leave.{with_dynamic_move};
ghost use Rattle.arwen_elf_writer.specs.Reads.{entries_shown};
ghost use Rattle.elf_apply.specs.Taken.{AnswersEach, LeavesEach, RemovedAre, TakesBatch, TakesEdit, TakesInPlace, batches_model, edits_model, shrink_model};

use crate::values::{copy_map, copy_set, copy_texts};
use crate::writer::Writer;
use elf_apply::batch::ElfBatchError;
use elf_apply::error::ElfError;
use elf_apply::{ProbeAnswer, Removed, shrink_questions, steps};
use elf_edits::ElfEdit;
use std::alloc::{AllocError, Global};
use std::collections::{HashMap, HashSet};

impl<'data> Writer<'data> {
    /// Makes several edits, each upon what the one before it left: all of them, or none. All memory is wanted before
    /// anything changes. An empty batch is accepted without memory, and changes nothing. The cost is in proportion to
    /// the dynamic list, for each edit of it, and the values of the edits.
    pub fn apply(&mut self, alloc: Global, edits: &[ElfEdit]) -> Result<(), ElfBatchError>
        ensures takes { TakesBatch (edits_model edits.now) self.old self.new result }
        ensures none { edits.now ≡ [] → IsOk result }
    {
        steps::apply(&mut self.builder, alloc, edits)
    }

    /// Makes one edit, as a batch of one: an error tells the first cause that stands against it, or is `Memory`, and leaves
    /// the image as it was. The cost is in proportion to the lists that it looks at and to its values.
    pub fn edit(&mut self, alloc: Global, edit: ElfEdit) -> Result<(), ElfError>
        ensures { TakesEdit (edit_model edit) self.old self.new result }
    {
        steps::edit(&mut self.builder, alloc, &edit)
    }

    /// Drops every DT_RPATH and DT_RUNPATH (gABI, Dynamic Section). Takes no memory.
    pub fn elf_delete_runpath(&mut self) -> Result<(), ElfError>
        ensures { TakesInPlace RemoveRpath self.old self.new result }
    {
        steps::drop_tagged(&mut self.builder, &ElfEdit::RemoveRpath)
    }

    /// Makes every DT_RPATH a DT_RUNPATH (gABI, Dynamic Section). Takes no memory.
    pub fn elf_use_runpath(&mut self) -> Result<(), ElfError>
        ensures { TakesInPlace ForceRunpath self.old self.new result }
    {
        steps::use_runpath(&mut self.builder)
    }

    /// Makes every DT_RUNPATH a DT_RPATH (gABI, Dynamic Section). Takes no memory.
    pub fn elf_use_rpath(&mut self) -> Result<(), ElfError>
        ensures { TakesInPlace ForceRpath self.old self.new result }
    {
        steps::use_rpath(&mut self.builder)
    }

    /// Sets the page size, in bytes: a power of two of 1024 or more. Each PT_LOAD gets it as its alignment (gABI,
    /// Program Header, `p_align`). Takes no memory.
    pub fn elf_set_page_size(&mut self, size: u32) -> Result<(), ElfError>
        ensures { TakesInPlace (SetPageSize size) self.old self.new result }
    {
        steps::set_page_size(&mut self.builder, size)
    }

    /// Gives leave that the dynamic section moves where it has grown into what follows it, as `Builder::allow_dynamic_move` tells
    /// (gABI, Dynamic Section). Tables that move go into the same loaded segment, all of which may be written to; notes don't.
    /// Takes no memory.
    pub fn allow_dynamic_move(&mut self)
        ensures { self.new ≡ with_dynamic_move self.old }
    {
        self.builder.allow_dynamic_move()
    }

    /// Leaves out of every run path the absolute directories that no prefix begins, where there are prefixes, and
    /// those in which no needed library was found for the image's machine; an entry whose directories all go keeps
    /// the empty text. Answers the directories that went, in order, with their reasons. The first answer for a
    /// directory and a library counts; one that is missing found nothing.
    pub fn elf_shrink_rpath(
        &mut self,
        alloc: Global,
        prefixes: &[Vec<u8>],
        probe: &[ProbeAnswer<'_>],
    ) -> Result<Vec<Removed>, ElfError>
        ensures takes { TakesEdit (shrink_model prefixes.now probe.now) self.old self.new result }
        ensures removed { IfOk result (RemovedAre (shrink_model prefixes.now probe.now) self.old) }
    {
        steps::shrink_run_paths(&mut self.builder, alloc, prefixes, probe)
    }

    /// Applies batch after batch, each of them all or none, and answers each. After an error, that there is no memory
    /// for the answers, nothing was applied.
    pub fn apply_each(
        &mut self,
        alloc: Global,
        batches: &[Vec<ElfEdit>],
    ) -> Result<Vec<Result<(), ElfBatchError>>, AllocError>
        ensures answers { IfOk result (AnswersEach (batches_model batches.now) self.old) }
        ensures left { IfOk result (LeavesEach (batches_model batches.now) self.old self.new) }
        ensures err { OnErr result (self.new ≡ self.old) }
    {
        let mut answers = Vec::with_capacity(alloc, batches.len())?;
        for batch in batches {
            let answer = self.apply(alloc, batch.as_slice());
            answers.push_reserved(answer);
        }
        Ok(answers)
    }

    /// Drops every DT_NEEDED whose text is one of these names (gABI, Dynamic Section), as
    /// [`elf_delete_needed`](Self::elf_delete_needed) does with a set of them.
    pub fn delete_needed_names(&mut self, alloc: Global, names: &[Vec<u8>]) -> Result<(), ElfError>
        ensures { TakesEdit (RemoveNeeded (texts_model names.now)) self.old self.new result }
    {
        let names = copy_texts(alloc, names)?;
        self.edit(alloc, ElfEdit::RemoveNeeded(names))
    }

    /// Puts an entry DT_DEBUG last, unless one is there (gABI, Dynamic Section).
    pub fn elf_add_dynamic_debug(&mut self, alloc: Global) -> Result<(), ElfError>
        ensures { TakesEdit AddDebugTag self.old self.new result }
    {
        self.edit(alloc, ElfEdit::AddDebugTag)
    }

    /// Gives every DT_RPATH and DT_RUNPATH this text; without one, puts a DT_RUNPATH last.
    pub fn elf_set_runpath(&mut self, alloc: Global, text: &[u8]) -> Result<(), ElfError>
        ensures { TakesEdit (SetRpath text.now) self.old self.new result }
    {
        let text = Vec::from_slice(alloc, text)?;
        self.edit(alloc, ElfEdit::SetRpath(text))
    }

    /// Adds each text to every DT_RPATH and DT_RUNPATH, behind a colon where the old text isn't empty; without one,
    /// puts a DT_RUNPATH last, of the texts joined by colons.
    pub fn elf_add_runpath(&mut self, alloc: Global, texts: &[Vec<u8>]) -> Result<(), ElfError>
        ensures { TakesEdit (AddRpath (texts_model texts.now)) self.old self.new result }
    {
        let texts = copy_texts(alloc, texts)?;
        self.edit(alloc, ElfEdit::AddRpath(texts))
    }

    /// Drops every DT_NEEDED whose text is one of these names.
    pub fn elf_delete_needed(
        &mut self,
        alloc: Global,
        names: &HashSet<Vec<u8>>,
    ) -> Result<(), ElfError>
        ensures { TakesEdit (RemoveNeeded (texts_model (keys names.now))) self.old self.new result }
    {
        let names = copy_set(alloc, names)?;
        self.edit(alloc, ElfEdit::RemoveNeeded(names))
    }

    /// Replaces the texts of DT_NEEDED that are keys by their values, all at once.
    pub fn elf_replace_needed(
        &mut self,
        alloc: Global,
        names: &HashMap<Vec<u8>, Vec<u8>>,
    ) -> Result<(), ElfError>
        ensures { TakesEdit (ReplaceNeeded (pairs_model names.now.entries))
            self.old self.new result }
    {
        let pairs = copy_map(alloc, names)?;
        self.edit(alloc, ElfEdit::ReplaceNeeded(pairs))
    }

    /// Replaces libraries that are keys by their values, all at once: in the texts of DT_NEEDED, and wherever versions are
    /// needed of them (GNU symbol versioning, `Elfxx_Verneed`).
    pub fn elf_replace_library(
        &mut self,
        alloc: Global,
        names: &HashMap<Vec<u8>, Vec<u8>>,
    ) -> Result<(), ElfError>
        ensures { TakesEdit (ReplaceLibrary (pairs_model names.now.entries))
            self.old self.new result }
    {
        let pairs = copy_map(alloc, names)?;
        self.edit(alloc, ElfEdit::ReplaceLibrary(pairs))
    }

    /// Puts the names that no DT_NEEDED has before all entries, in order and with repeats.
    pub fn elf_add_needed(&mut self, alloc: Global, names: &[Vec<u8>]) -> Result<(), ElfError>
        ensures { TakesEdit (AddNeeded (texts_model names.now)) self.old self.new result }
    {
        let names = copy_texts(alloc, names)?;
        self.edit(alloc, ElfEdit::AddNeeded(names))
    }

    /// Gives every DT_SONAME this text; without one, puts one last.
    pub fn elf_set_soname(&mut self, alloc: Global, text: &[u8]) -> Result<(), ElfError>
        ensures { TakesEdit (SetSoname text.now) self.old self.new result }
    {
        let text = Vec::from_slice(alloc, text)?;
        self.edit(alloc, ElfEdit::SetSoname(text))
    }

    /// Gives the dynamic symbols but the first whose names are keys the keys' values, all at once (gABI, Symbol Table).
    /// Errors: `Modify` with `CannotRenumber` where there is such a symbol and hash tables or relocations can't follow.
    pub fn elf_rename_dynamic_symbols(
        &mut self,
        alloc: Global,
        names: &HashMap<Vec<u8>, Vec<u8>>,
    ) -> Result<(), ElfError>
        ensures { TakesEdit (RenameDynamicSymbols (pairs_model names.now.entries))
            self.old self.new result }
    {
        let pairs = copy_map(alloc, names)?;
        self.edit(alloc, ElfEdit::RenameDynamicSymbols(pairs))
    }

    /// Gives each dynamic symbol of a name, but the first symbol, where there are versions, that of a global symbol
    /// without one of its own, not hidden (GNU symbol versioning, `VER_NDX_GLOBAL`).
    pub fn elf_clear_symbol_version(&mut self, alloc: Global, symbol: &[u8]) -> Result<(), ElfError>
        ensures { TakesEdit (ClearSymbolVersion symbol.now) self.old self.new result }
    {
        let name = Vec::from_slice(alloc, symbol)?;
        self.edit(alloc, ElfEdit::ClearSymbolVersion(name))
    }

    /// Sets DF_1_NODEFLIB in every DT_FLAGS_1; without one, puts one last.
    pub fn elf_no_default_lib(&mut self, alloc: Global) -> Result<(), ElfError>
        ensures { TakesEdit NoDefaultLib self.old self.new result }
    {
        self.edit(alloc, ElfEdit::NoDefaultLib)
    }

    /// Sets the interpreter's bytes (gABI, Program Interpreter), with a NUL behind them unless they are empty or end
    /// with one.
    pub fn elf_set_interpreter(&mut self, alloc: Global, bytes: &[u8]) -> Result<(), ElfError>
        ensures { TakesEdit (SetInterpreter bytes.now) self.old self.new result }
    {
        let bytes = Vec::from_slice(alloc, bytes)?;
        self.edit(alloc, ElfEdit::SetInterpreter(bytes))
    }

    /// Sets the ABI byte by a name (gABI, ELF Identification, `EI_OSABI`), whatever the case of its ASCII letters.
    pub fn elf_set_osabi(&mut self, alloc: Global, name: &str) -> Result<(), ElfError>
        ensures { TakesEdit (SetOsAbi name.now) self.old self.new result }
    {
        let name = String::from_str(alloc, name)?;
        self.edit(alloc, ElfEdit::SetOsAbi(name))
    }

    /// Takes the permission to run from the first PT_GNU_STACK (GNU extension), which is added where there is none.
    pub fn elf_clear_exec_stack(&mut self, alloc: Global) -> Result<(), ElfError>
        ensures { TakesEdit ClearExecStack self.old self.new result }
    {
        self.edit(alloc, ElfEdit::ClearExecStack)
    }

    /// Gives the first PT_GNU_STACK (GNU extension) the permission to run; it is added where there is none.
    pub fn elf_set_exec_stack(&mut self, alloc: Global) -> Result<(), ElfError>
        ensures { TakesEdit SetExecStack self.old self.new result }
    {
        self.edit(alloc, ElfEdit::SetExecStack)
    }

    /// The pairs of an absolute directory of a run path and a needed library that have to be looked for before
    /// `elf_shrink_rpath`, in order. Error: `AllocError`.
    pub fn elf_shrink_questions(&self, alloc: Global) -> Result<Vec<(&[u8], &[u8])>, AllocError>
        ensures { IfOk result (λ pairs. map pair_lent pairs.items
            ≡ all_questions (entries_shown (shown self.now))) }
    {
        shrink_questions(alloc, self.entries())
    }
}
