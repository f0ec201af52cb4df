//! The edits of an ELF file, by the names of the program's commands.
ghost use Rattle.std.specs.Prelude.{◌≡◌, ◌∷◌, [], IfOk, IsOk};
ghost use Rattle.elf_edits.specs.Edit.{AddDebugTag, AddNeeded, AddRpath, ClearExecStack, ClearSymbolVersion, RemoveNeeded, RemoveRpath, NoDefaultLib, RenameDynamicSymbols, ReplaceLibrary, ReplaceNeeded, SetExecStack, SetInterpreter, SetOsAbi, SetPageSize, SetRpath, SetSoname, ForceRpath};
ghost use Rattle.elf_edits.specs.EditModel.{pairs_model, texts_model};
ghost use Rattle.arwen_elf_writer.specs.Taken.{RemovedAre, edits_model, shrink_model};
ghost use Rattle.elf_image.specs.Leave.{with_dynamic_move};
ghost use Rattle.arwen_elf_writer.specs.EditModel.{edit_model as symbol_edit_model};
ghost use Rattle.arwen_elf.specs.Contained.{BatchTaken, EditTaken, InPlaceTaken, SymbolEditTaken};

use crate::elf::container::ElfContainer;
use arwen_elf_writer::batch::ElfBatchError;
use arwen_elf_writer::error::Result;
use arwen_elf_writer::{ProbeAnswer, Removed, SymbolEdit};
use elf_edits::ElfEdit;
use std::alloc::{AllocError, Global};
use std::collections::HashMap;

// A copy of a text, alone.
fn one_text(alloc: Global, text: &[u8]) -> std::result::Result<Vec<Vec<u8>>, AllocError>
    ensures { IfOk result (λ copies. texts_model copies.items ≡ text.now ∷ []) }
{
    let mut texts = Vec::new(alloc);
    texts.push(Vec::from_slice(alloc, text)?)?;
    Ok(texts)
}

impl<'a> ElfContainer<'a> {
    /// Makes several edits, each upon what the one before it left: all of them, or none. An empty batch is accepted
    /// without memory, and changes nothing.
    pub fn apply(
        &mut self,
        alloc: Global,
        edits: &[ElfEdit],
    ) -> std::result::Result<(), ElfBatchError>
        ensures takes { BatchTaken (edits_model edits.now) self.old self.new result }
        ensures none { edits.now ≡ [] → IsOk result }
    {
        self.inner.apply(alloc, edits)
    }

    /// Makes one edit of symbols or sections, all of it or nothing.
    pub fn edit_symbols(&mut self, alloc: Global, edit: SymbolEdit<'_>) -> Result<()>
        ensures { SymbolEditTaken (symbol_edit_model edit.entry) self.old self.new result }
    {
        self.inner.edit_symbols(alloc, edit)
    }

    /// Adds a directory to every run path; without one, puts a DT_RUNPATH last (gABI, Dynamic Section).
    pub fn add_runpath(&mut self, alloc: Global, text: &[u8]) -> Result<()>
        ensures { EditTaken (AddRpath (text.now ∷ [])) self.old self.new result }
    {
        let texts = one_text(alloc, text)?;
        self.inner.edit(alloc, ElfEdit::AddRpath(texts))
    }

    /// Drops every run path. Takes no memory.
    pub fn remove_runpath(&mut self) -> Result<()>
        ensures { InPlaceTaken RemoveRpath self.old self.new result }
    {
        self.inner.elf_delete_runpath()
    }

    /// Gives every run path this text; without one, puts a DT_RUNPATH last.
    pub fn set_runpath(&mut self, alloc: Global, text: &[u8]) -> Result<()>
        ensures { EditTaken (SetRpath text.now) self.old self.new result }
    {
        self.inner.elf_set_runpath(alloc, text)
    }

    /// Makes every DT_RUNPATH a DT_RPATH. Takes no memory.
    pub fn force_rpath(&mut self) -> Result<()>
        ensures { InPlaceTaken ForceRpath self.old self.new result }
    {
        self.inner.elf_use_rpath()
    }

    /// Leaves directories out of every run path, as `Writer::elf_shrink_rpath` does, and answers them.
    pub fn shrink_rpath(
        &mut self,
        alloc: Global,
        prefixes: &[Vec<u8>],
        probe: &[ProbeAnswer<'_>],
    ) -> Result<Vec<Removed>>
        ensures takes { EditTaken (shrink_model prefixes.now probe.now) self.old self.new result }
        ensures removed { IfOk result
            (RemovedAre (shrink_model prefixes.now probe.now) self.old.inner) }
    {
        self.inner.elf_shrink_rpath(alloc, prefixes, probe)
    }

    /// Sets the interpreter's bytes (gABI, Program Interpreter), with a NUL behind them unless they are empty or end
    /// with one.
    pub fn set_interpreter(&mut self, alloc: Global, bytes: &[u8]) -> Result<()>
        ensures { EditTaken (SetInterpreter bytes.now) self.old self.new result }
    {
        self.inner.elf_set_interpreter(alloc, bytes)
    }

    /// Sets the ABI byte by a name (gABI, ELF Identification, `EI_OSABI`), whatever the case of its ASCII letters.
    pub fn set_os_abi(&mut self, alloc: Global, name: &str) -> Result<()>
        ensures { EditTaken (SetOsAbi name.now) self.old self.new result }
    {
        self.inner.elf_set_osabi(alloc, name)
    }

    /// Sets the library's own name: every DT_SONAME gets it; without one, puts one last.
    pub fn set_soname(&mut self, alloc: Global, text: &[u8]) -> Result<()>
        ensures { EditTaken (SetSoname text.now) self.old self.new result }
    {
        self.inner.elf_set_soname(alloc, text)
    }

    /// Puts the names of libraries that are not needed yet before all entries, in order and with repeats.
    pub fn add_needed(&mut self, alloc: Global, names: &[Vec<u8>]) -> Result<()>
        ensures { EditTaken (AddNeeded (texts_model names.now)) self.old self.new result }
    {
        self.inner.elf_add_needed(alloc, names)
    }

    /// Drops every needed library of one of these names.
    pub fn remove_needed(&mut self, alloc: Global, names: &[Vec<u8>]) -> Result<()>
        ensures { EditTaken (RemoveNeeded (texts_model names.now)) self.old self.new result }
    {
        self.inner.delete_needed_names(alloc, names)
    }

    /// Replaces the names of needed libraries that are keys by their values, all at once.
    pub fn replace_needed(&mut self, alloc: Global, names: &HashMap<Vec<u8>, Vec<u8>>) -> Result<()>
        ensures { EditTaken (ReplaceNeeded (pairs_model names.now.entries))
            self.old self.new result }
    {
        self.inner.elf_replace_needed(alloc, names)
    }

    /// Replaces libraries that are keys by their values, all at once, also where versions are needed of them.
    pub fn replace_library(
        &mut self,
        alloc: Global,
        names: &HashMap<Vec<u8>, Vec<u8>>,
    ) -> Result<()>
        ensures { EditTaken (ReplaceLibrary (pairs_model names.now.entries))
            self.old self.new result }
    {
        self.inner.elf_replace_library(alloc, names)
    }

    /// Gives the dynamic symbols but the first whose names are keys the keys' values, all at once.
    pub fn rename_dynamic_symbols(
        &mut self,
        alloc: Global,
        names: &HashMap<Vec<u8>, Vec<u8>>,
    ) -> Result<()>
        ensures { EditTaken (RenameDynamicSymbols (pairs_model names.now.entries))
            self.old self.new result }
    {
        self.inner.elf_rename_dynamic_symbols(alloc, names)
    }

    /// Gives each dynamic symbol of a name, but the first symbol, where there are versions, that of a global symbol.
    pub fn clear_version_symbol(&mut self, alloc: Global, symbol: &[u8]) -> Result<()>
        ensures { EditTaken (ClearSymbolVersion symbol.now) self.old self.new result }
    {
        self.inner.elf_clear_symbol_version(alloc, symbol)
    }

    /// Leaves out the default directories: sets DF_1_NODEFLIB in every DT_FLAGS_1; without one, puts one last.
    pub fn no_default_lib(&mut self, alloc: Global) -> Result<()>
        ensures { EditTaken NoDefaultLib self.old self.new result }
    {
        self.inner.elf_no_default_lib(alloc)
    }

    /// Puts an entry DT_DEBUG last, unless one is there.
    pub fn add_debug_tag(&mut self, alloc: Global) -> Result<()>
        ensures { EditTaken AddDebugTag self.old self.new result }
    {
        self.inner.elf_add_dynamic_debug(alloc)
    }

    /// Takes the permission to run from the stack (GNU extension PT_GNU_STACK).
    pub fn clear_exec_stack(&mut self, alloc: Global) -> Result<()>
        ensures { EditTaken ClearExecStack self.old self.new result }
    {
        self.inner.elf_clear_exec_stack(alloc)
    }

    /// Gives the stack the permission to run.
    pub fn set_exec_stack(&mut self, alloc: Global) -> Result<()>
        ensures { EditTaken SetExecStack self.old self.new result }
    {
        self.inner.elf_set_exec_stack(alloc)
    }

    /// Sets the page size, in bytes: a power of two of 1024 or more. Takes no memory.
    pub fn set_page_size(&mut self, size: u32) -> Result<()>
        ensures { InPlaceTaken (SetPageSize size) self.old self.new result }
    {
        self.inner.elf_set_page_size(size)
    }

    /// Gives leave that the dynamic section moves where it has grown into what follows it (gABI, Dynamic Section), as
    /// `Builder::allow_dynamic_move` tells. Takes no memory.
    pub fn allow_dynamic_move(&mut self)
        ensures image { self.new.inner ≡ with_dynamic_move self.old.inner }
        ensures bytes { self.new.bytes ≡ self.old.bytes }
    {
        self.inner.allow_dynamic_move()
    }
}
