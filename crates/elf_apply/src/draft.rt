//! The parts of an image that edits wrote, before they are put in place.
ghost use Rattle.std.specs.Prelude.{◌≡◌, [], false, true, IfOk, IfSome, MatchResult, None as none, Some as some, map, option_map, unwrap_or};
ghost use Rattle.patch_bytes.specs.ByteString.{owned_string};
ghost use Rattle.elf_edits.specs.Abi.{with_nul as stored_with_nul};
ghost use Rattle.elf_edits.specs.Cause.{facts_of, first_cause};
ghost use Rattle.elf_edits.specs.Edit.{ReplaceLibrary, is_of_more, is_of_symbols};
ghost use Rattle.elf_edits.specs.EditModel.{edit_model, pairs_model};
ghost use Rattle.elf_edits.specs.Edited.{touches_rest};
ghost use Rattle.elf_image.specs.Image.{Image};
ghost use Rattle.elf_image.specs.ImageModel.{entry_model, needs_model, text_model};
ghost use Rattle.elf_image.specs.Options.{first_there};
ghost use Rattle.elf_apply.specs.Drafted.{AreSymbolsFor, CanPutEntries, CanPutInterpreter, CanPutNeeds, IsDraftOf, ListsEntries, OnlyShows, Writes, drafted, entries_drafted, flags_now, is_written, needs_drafted, symbols_drafted, with_entries_put, with_flags_put, with_interpreter_put, with_leave, with_leave_put, with_list, with_needs, with_needs_put, with_os_abi_put, with_page_size_put, with_symbols, with_symbols_put};

use crate::needs::rename_files;
use elf_edits::abi::{abi_number, with_nul};
use elf_edits::constants::STACK_FLAGS;
use elf_edits::{ElfEdit, NewList, edit_list, edit_symbols};
use elf_image::constants::PF_X;
use elf_image::{Builder, Dynamic, VersionNeed};
use elf_image_symbols::EditedSymbols;
use patch_bytes::ByteString;
use std::alloc::{AllocError, Global};

// The parts of an image that edits wrote; the others stay as they are.
#[derive(Drop)]
pub(crate) struct Draft<'data> {
    entries: Option<Vec<Dynamic<'data>>>,
    interpreter: Option<ByteString<'data>>,
    os_abi: Option<u8>,
    stack_flags: Option<u32>,
    page_size: Option<u32>,
    symbols: Option<EditedSymbols<'data>>,
    needs: Option<Vec<VersionNeed<'data>>>,
    // Leave is given that the dynamic section moves.
    moves_dynamic: bool,
}

impl<'data> Draft<'data> {
    // No part was written yet.
    pub(crate) fn new() -> Draft<'data>
        ensures { (image : Image) → OnlyShows image image result }
    {
        Draft {
            entries: None,
            interpreter: None,
            os_abi: None,
            stack_flags: None,
            page_size: None,
            symbols: None,
            needs: None,
            moves_dynamic: false,
        }
    }

    // Whether some part was written.
    fn is_written(&self) -> bool
        ensures { result ≡ is_written self.now }
    {
        self.stack_flags.is_some()
            || self.page_size.is_some()
            || self.os_abi.is_some()
            || self.interpreter.is_some()
            || self.entries.is_some()
            || self.symbols.is_some()
            || self.needs.is_some()
    }

    // Notes the leave that the dynamic section moves, where something was changed.
    fn note_leave(&mut self, builder: &Builder<'data>)
        ensures { self.new ≡ with_leave builder.now self.old }
    {
        self.moves_dynamic = self.moves_dynamic || builder.changed() || self.is_written();
    }

    // The dynamic list with what was written; there is none without one.
    fn list<'s>(&'s self, builder: &'s Builder<'data>) -> &'s [Dynamic<'data>]
        ensures { map entry_model result.now
            ≡ unwrap_or (first_there (entries_drafted self.now) builder.now.entries) [] }
    {
        match &self.entries {
            Some(list) => list.as_slice(),
            None => builder.dynamic_data().unwrap_or_default(),
        }
    }

    // Notes a list that an edit made, where the edit wrote something.
    fn note_list(&mut self, made: NewList<'data>)
        ensures { self.new ≡ with_list made.entry self.old }
    {
        if made.is_touched {
            self.entries = Some(made.entries);
        }
    }

    // The dynamic symbols with what was written.
    fn symbols<'s>(&'s self, builder: &'s Builder<'data>) -> &'s EditedSymbols<'data>
        requires { IsDraftOf builder.now self.now }
        ensures symbols { result.now.symbols
            ≡ symbols_drafted self.now builder.now.dynamic_symbols }
        ensures whole { AreSymbolsFor builder.now result.now }
    {
        match &self.symbols {
            Some(symbols) => symbols,
            None => builder.edited_dynamic_symbols(),
        }
    }

    // Notes the symbols that an edit made, where the edit wrote something.
    fn note_symbols(&mut self, made: Option<EditedSymbols<'data>>)
        ensures { self.new ≡ with_symbols made.entry self.old }
    {
        if let Some(made) = made {
            self.symbols = Some(made);
        }
    }

    // The needed versions with what was written.
    fn needs<'s>(&'s self, builder: &'s Builder<'data>) -> &'s [VersionNeed<'data>]
        ensures { map needs_model result.now ≡ needs_drafted self.now builder.now.needs }
    {
        match &self.needs {
            Some(needs) => needs.as_slice(),
            None => builder.versions().needs.as_slice(),
        }
    }

    // Notes the needed versions that an edit made, where the edit wrote something.
    fn note_needs(&mut self, made: Option<Vec<VersionNeed<'data>>>)
        ensures { self.new ≡ with_needs made.entry self.old }
    {
        if let Some(made) = made {
            self.needs = Some(made);
        }
    }

    // The stack's flags with what was written, else those of a program header that is added for it.
    fn flags(&self, builder: &Builder<'data>) -> u32
        ensures { result ≡ flags_now self.now builder.now.segments }
    {
        if let Some(flags) = self.stack_flags {
            return flags;
        }
        match builder.stack() {
            Some(segment) => segment.p_flags(),
            None => STACK_FLAGS,
        }
    }

    // Writes the interpreter's bytes.
    fn write_interpreter(&mut self, alloc: Global, bytes: &[u8]) -> Result<(), AllocError>
        ensures { IfOk result (λ _. self.new
            ≡ record self.old {
              interpreter = some (owned_string (stored_with_nul bytes.now));
            }) }
    {
        self.interpreter = Some(ByteString::owned(with_nul(alloc, bytes)?));
        Ok(())
    }

    // Writes what an edit of the dynamic symbols makes.
    fn write_symbols(
        &mut self,
        alloc: Global,
        builder: &Builder<'data>,
        edit: &ElfEdit,
    ) -> Result<(), AllocError>
        requires symbols { is_of_symbols (edit_model edit.now) ≡ true }
        requires free { first_cause (edit_model edit.now) (facts_of builder.now) ≡ none }
        requires draft { IsDraftOf builder.now self.old }
        ensures { IfOk result (λ _. Writes (edit_model edit.now) builder.now self.old self.new) }
    {
        let made = edit_symbols(alloc, edit, self.symbols(builder))?;
        self.note_symbols(made);
        Ok(())
    }

    // Writes what an edit of the dynamic list makes.
    fn write_list(
        &mut self,
        alloc: Global,
        builder: &Builder<'data>,
        edit: &ElfEdit,
    ) -> Result<(), AllocError>
        requires list { touches_rest (edit_model edit.now) ≡ false }
        requires no_symbols { is_of_symbols (edit_model edit.now) ≡ false }
        requires no_more { is_of_more (edit_model edit.now) ≡ false }
        requires free { first_cause (edit_model edit.now) (facts_of builder.now) ≡ none }
        requires listed { ListsEntries builder.now }
        requires draft { IsDraftOf builder.now self.old }
        ensures { IfOk result (λ _. Writes (edit_model edit.now) builder.now self.old self.new) }
    {
        let made = edit_list(alloc, edit, self.list(builder))?;
        self.note_list(made);
        Ok(())
    }

    // Writes what an edit that replaces libraries makes of the dynamic list and of the needed versions.
    fn write_library(
        &mut self,
        alloc: Global,
        builder: &Builder<'data>,
        edit: &ElfEdit,
        pairs: &[(Vec<u8>, Vec<u8>)],
    ) -> Result<(), AllocError>
        requires edit { edit_model edit.now ≡ ReplaceLibrary (pairs_model pairs.now) }
        requires free { first_cause (edit_model edit.now) (facts_of builder.now) ≡ none }
        requires listed { ListsEntries builder.now }
        requires draft { IsDraftOf builder.now self.old }
        ensures { IfOk result (λ _. Writes (edit_model edit.now) builder.now self.old self.new) }
    {
        let made = edit_list(alloc, edit, self.list(&*builder))?;
        let needs = rename_files(alloc, pairs, self.needs(&*builder))?;
        self.note_list(made);
        self.note_needs(needs);
        Ok(())
    }

    // Writes what an edit makes, against which no cause stands.
    #[tactic(none)]
    pub(crate) fn write(
        &mut self,
        alloc: Global,
        builder: &Builder<'data>,
        edit: &ElfEdit,
    ) -> Result<(), AllocError>
        requires free { first_cause (edit_model edit.now) (facts_of builder.now) ≡ none }
        requires listed { ListsEntries builder.now }
        requires draft { IsDraftOf builder.now self.old }
        ensures { IfOk result (λ _. Writes (edit_model edit.now) builder.now self.old self.new) }
    {
        match edit {
            ElfEdit::SetInterpreter(bytes) => self.write_interpreter(alloc, bytes.as_slice()),
            ElfEdit::SetOsAbi(name) => {
                self.os_abi = abi_number(name.as_str());
                Ok(())
            }
            ElfEdit::ClearExecStack => {
                let flags = self.flags(builder);
                self.stack_flags = Some(flags - (flags & PF_X));
                Ok(())
            }
            ElfEdit::SetExecStack => {
                self.stack_flags = Some(self.flags(builder) | PF_X);
                Ok(())
            }
            ElfEdit::SetPageSize(size) => {
                self.page_size = Some(*size);
                Ok(())
            }
            ElfEdit::RenameDynamicSymbols(_) => self.write_symbols(alloc, builder, edit),
            ElfEdit::ClearSymbolVersion(_) => self.write_symbols(alloc, builder, edit),
            ElfEdit::ReplaceLibrary(pairs) => {
                self.write_library(alloc, builder, edit, pairs.as_slice())
            }
            ElfEdit::AllowDynamicMove => {
                self.note_leave(builder);
                Ok(())
            }
            edit_of_list => self.write_list(alloc, builder, edit_of_list),
        }
    }

    // Puts what was written in place. There is want of memory only where a program header is added for the stack,
    // which comes first; the image then is as it was.
    pub(crate) fn put_in_place(
        self,
        alloc: Global,
        builder: &mut Builder<'data>,
    ) -> Result<(), AllocError>
        requires { IsDraftOf builder.old self }
        ensures { MatchResult result (λ _. builder.new ≡ drafted self.entry builder.old)
            (λ _. builder.new ≡ builder.old) }
    {
        let Draft {
            entries,
            interpreter,
            os_abi,
            stack_flags,
            page_size,
            symbols,
            needs,
            moves_dynamic,
        } = self;
        put_stack_flags(alloc, builder, stack_flags)?;
        put_page_size(builder, page_size);
        put_os_abi(builder, os_abi);
        put_interpreter(builder, interpreter);
        put_entries(builder, entries);
        put_symbols(builder, symbols);
        put_needs(builder, needs);
        put_leave(builder, moves_dynamic);
        Ok(())
    }
}

// Puts the stack's flags in place.
fn put_stack_flags(
    alloc: Global,
    builder: &mut Builder<'_>,
    flags: Option<u32>,
) -> Result<(), AllocError>
    ensures { MatchResult result (λ _. builder.new ≡ with_flags_put flags builder.old)
        (λ _. builder.new ≡ builder.old) }
{
    match flags {
        None => Ok(()),
        Some(flags) => put_flags(alloc, builder, flags),
    }
}

// Puts these flags of the stack in place, with a program header for it where there is none.
fn put_flags(alloc: Global, builder: &mut Builder<'_>, flags: u32) -> Result<(), AllocError>
    ensures { MatchResult result (λ _. builder.new ≡ with_flags_put (some flags) builder.old)
        (λ _. builder.new ≡ builder.old) }
{
    if builder.stack().is_some() {
        builder.set_stack_flags(flags);
        Ok(())
    } else {
        builder.push_stack(alloc, flags)
    }
}

fn put_page_size(builder: &mut Builder<'_>, size: Option<u32>)
    ensures { builder.new ≡ with_page_size_put size builder.old }
{
    if let Some(size) = size {
        builder.set_load_align(size);
    }
}

fn put_os_abi(builder: &mut Builder<'_>, number: Option<u8>)
    ensures { builder.new ≡ with_os_abi_put number builder.old }
{
    if let Some(number) = number {
        builder.set_os_abi(number);
    }
}

fn put_interpreter<'data>(builder: &mut Builder<'data>, bytes: Option<ByteString<'data>>)
    requires { CanPutInterpreter builder.old (text_model bytes) }
    ensures { builder.new ≡ with_interpreter_put (text_model bytes.entry) builder.old }
{
    if let Some(bytes) = bytes {
        builder.set_interp(bytes);
    }
}

fn put_entries<'data>(builder: &mut Builder<'data>, list: Option<Vec<Dynamic<'data>>>)
    requires { CanPutEntries builder.old list }
    ensures { builder.new ≡ with_entries_put list.entry builder.old }
{
    if let Some(list) = list {
        builder.set_dynamic(list);
    }
}

fn put_symbols<'data>(builder: &mut Builder<'data>, symbols: Option<EditedSymbols<'data>>)
    requires { IfSome symbols (AreSymbolsFor builder.old) }
    ensures { builder.new ≡ with_symbols_put symbols.entry builder.old }
{
    // an image has other names than were read only where they can change
    let _source = builder.source();
    if let Some(symbols) = symbols {
        builder.put_dynamic_symbols(symbols);
    }
}

fn put_needs<'data>(builder: &mut Builder<'data>, needs: Option<Vec<VersionNeed<'data>>>)
    requires { CanPutNeeds builder.old needs }
    ensures { builder.new ≡ with_needs_put needs.entry builder.old }
{
    if let Some(needs) = needs {
        builder.set_needs(needs);
    }
}

fn put_leave(builder: &mut Builder<'_>, is_given: bool)
    ensures { builder.new ≡ with_leave_put is_given builder.old }
{
    if is_given {
        builder.allow_dynamic_move();
    }
}
