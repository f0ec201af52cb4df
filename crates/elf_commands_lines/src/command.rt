//! What is asked of an ELF file, with its values.
ghost use Rattle.std.specs.Prelude.{◌≡◌, ◌∷◌, [], IfOk, Some, map, option_map, string_bytes};
ghost use Rattle.elf_commands_lines.specs.Meaning.{apply_moving_elf, elf_command_model, names_symbols};

use crate::commands::{
    add_debug_tag, add_needed, add_rpath, apply, clear_execstack, clear_version_symbol,
    delete_sections, delete_symbols, force_rpath, no_default_lib, path_alone, print_execstack,
    print_interpreter, print_needed, print_os_abi, print_rpath, print_soname, remove_needed,
    remove_rpath, rename_dynamic_symbols, rename_sections, rename_symbols, replace_library,
    replace_needed, set_execstack, set_interpreter, set_os_abi, set_page_size, set_rpath,
    set_soname, shrink_rpath,
};
use crate::groups::GroupEdit;
use crate::symbol_texts::SymbolTexts;
use crate::texts::{bytes_of, pairs_copied, texts_of};
use command_words::{ValueError, Values, copied, number_of, pairs_of};
use elf_edits::ElfEdit;
use std::alloc::{AllocError, Global};
use std::slice;

/// What is asked of an ELF file.
#[derive(Debug, Drop)]
pub enum ElfCommand {
    /// Add an entry for a debugger.
    AddDebugTag(add_debug_tag::Args),
    /// Take the permission to run from the stack.
    ClearExecStack(clear_execstack::Args),
    /// Make every DT_RUNPATH a DT_RPATH.
    ForceRpath(force_rpath::Args),
    /// Leave out the default directories of libraries.
    NoDefaultLib(no_default_lib::Args),
    /// Remove the run path.
    RemoveRpath(remove_rpath::Args),
    /// Give the stack the permission to run.
    SetExecStack(set_execstack::Args),
    /// Add a directory to the run path.
    AddRpath(add_rpath::Args),
    /// Set the run path.
    SetRpath(set_rpath::Args),
    /// Set the interpreter.
    SetInterpreter(set_interpreter::Args),
    /// Set the ABI byte.
    SetOsAbi(set_os_abi::Args),
    /// Set the library's own name.
    SetSoname(set_soname::Args),
    /// Set the page size.
    SetPageSize(set_page_size::Args),
    /// Clear the version of symbols of a name.
    ClearSymbolVersion(clear_version_symbol::Args),
    /// Add needed libraries.
    AddNeeded(add_needed::Args),
    /// Remove needed libraries.
    RemoveNeeded(remove_needed::Args),
    /// Replace needed libraries, all at once.
    ReplaceNeeded(replace_needed::Args),
    /// Replace libraries with the versions that are needed of them, all at once.
    ReplaceLibrary(replace_library::Args),
    /// Rename dynamic symbols, all at once.
    RenameDynamicSymbols(rename_dynamic_symbols::Args),
    /// Several of these edits, all or none.
    Apply(apply::Args),
    /// The same, with leave that the dynamic section moves where it has no room.
    ApplyMoving(apply::Args),
    /// Leave directories out of the run path.
    ShrinkRpath(shrink_rpath::Args),
    /// Rename symbols, all at once.
    RenameSymbols(rename_symbols::Args),
    /// Delete symbols.
    DeleteSymbols(delete_symbols::Args),
    /// Rename sections, all at once.
    RenameSections(rename_sections::Args),
    /// Delete sections.
    DeleteSections(delete_sections::Args),
    /// Print the run path.
    PrintRpath(print_rpath::Args),
    /// Print the needed libraries.
    PrintNeeded(print_needed::Args),
    /// Print the library's own name.
    PrintSoname(print_soname::Args),
    /// Print the interpreter.
    PrintInterpreter(print_interpreter::Args),
    /// Print the ABI byte.
    PrintOsAbi(print_os_abi::Args),
    /// Print whether the stack may be run.
    PrintExecStack(print_execstack::Args),
}

impl ElfCommand {
    ghost use Rattle.std.specs.Prelude.{◌≡◌, IfErr, IfOk, map, option_map, string_bytes, true};
    ghost use Rattle.elf_edits.specs.EditModel.{edit_model};
    ghost use Rattle.elf_commands_lines.specs.ElfAsked.{elf_asked, is_printing};
    ghost use Rattle.elf_commands_lines.specs.ElfWords.{elf_edit_asked, group_edit_asked, symbols_asked};
    ghost use Rattle.elf_commands_lines.specs.Meaning.{elf_file_of, elf_lines, elf_command_model, names_symbols, reading_of};
    ghost use Rattle.elf_commands_lines.specs.Moving.{meant_moving};
    ghost use Rattle.elf_commands_lines.specs.Groups.{group_model};
    ghost use Rattle.elf_commands_lines.specs.SymbolTexts.{symbol_texts_model};
    ghost use Rattle.command_words.specs.Rows.{given_model, meant_with, options, path, text, words as words_given};
    ghost use Rattle.command_words.specs.WordValues.{TellsNoValue};

    /// The command of a name with its values; `None` where no command of that name takes such
    /// values. Errors: `NoNumber` or `NoPair` where a value is not what the command takes, `Memory`.
    pub fn with_values(
        alloc: Global,
        name: &str,
        values: Values,
    ) -> Result<Option<ElfCommand>, ValueError>
        ensures ok { IfOk result (λ command. option_map reading_of command
            ≡ meant_with elf_lines name.now (given_model values)) }
        ensures err { IfErr result
            (TellsNoValue (meant_with elf_lines name.now (given_model values))) }
    {
        match values {
            Values::Path(file) => Ok(ElfCommand::with_path(name, file)),
            Values::Text(value, file) => ElfCommand::with_text(name, value, file),
            Values::Texts(..) => Ok(None),
            Values::Words(file, words) => ElfCommand::with_words(alloc, name, file, words),
            Values::Options(file, values) => Ok(ElfCommand::with_options(name, file, values)),
        }
    }

    /// The command of a name that takes the path alone.
    fn with_path(name: &str, path_to_binary: String) -> Option<ElfCommand>
        ensures { option_map reading_of result
            ≡ meant_with elf_lines name.now (path (string_bytes path_to_binary)) }
    {
        let args = path_alone::Args { path_to_binary };
        Some(match name {
            add_debug_tag::NAME => ElfCommand::AddDebugTag(args),
            clear_execstack::NAME => ElfCommand::ClearExecStack(args),
            force_rpath::NAME => ElfCommand::ForceRpath(args),
            no_default_lib::NAME => ElfCommand::NoDefaultLib(args),
            remove_rpath::NAME => ElfCommand::RemoveRpath(args),
            set_execstack::NAME => ElfCommand::SetExecStack(args),
            print_rpath::NAME => ElfCommand::PrintRpath(args),
            print_needed::NAME => ElfCommand::PrintNeeded(args),
            print_soname::NAME => ElfCommand::PrintSoname(args),
            print_interpreter::NAME => ElfCommand::PrintInterpreter(args),
            print_os_abi::NAME => ElfCommand::PrintOsAbi(args),
            print_execstack::NAME => ElfCommand::PrintExecStack(args),
            _ => return None,
        })
    }

    /// The command of a name that takes a text and the path.
    fn with_text(
        name: &str,
        value: String,
        path_to_binary: String,
    ) -> Result<Option<ElfCommand>, ValueError>
        ensures ok { IfOk result (λ command. option_map reading_of command ≡ meant_with elf_lines
            name.now (text (string_bytes value) (string_bytes path_to_binary))) }
        ensures err { IfErr result (TellsNoValue (meant_with elf_lines
            name.now (text (string_bytes value) (string_bytes path_to_binary)))) }
    {
        Ok(Some(match name {
            add_rpath::NAME => ElfCommand::AddRpath(add_rpath::Args {
                new_rpath: value,
                path_to_binary,
            }),
            set_rpath::NAME => ElfCommand::SetRpath(set_rpath::Args {
                new_rpath: value,
                path_to_binary,
            }),
            set_interpreter::NAME => ElfCommand::SetInterpreter(set_interpreter::Args {
                interpreter: value,
                path_to_binary,
            }),
            set_os_abi::NAME => ElfCommand::SetOsAbi(set_os_abi::Args {
                os_abi: value,
                path_to_binary,
            }),
            set_soname::NAME => ElfCommand::SetSoname(set_soname::Args {
                soname: value,
                path_to_binary,
            }),
            set_page_size::NAME => ElfCommand::SetPageSize(set_page_size::Args {
                page_size: number_of(value)?,
                path_to_binary,
            }),
            clear_version_symbol::NAME => {
                ElfCommand::ClearSymbolVersion(clear_version_symbol::Args {
                    symbol: value,
                    path_to_binary,
                })
            }
            _ => return Ok(None),
        }))
    }

    /// The command of a name that takes the path and any number of words.
    fn with_words(
        alloc: Global,
        name: &str,
        path_to_binary: String,
        words: Vec<String>,
    ) -> Result<Option<ElfCommand>, ValueError>
        ensures ok { IfOk result (λ command. option_map reading_of command ≡ meant_with elf_lines
            name.now (words_given (string_bytes path_to_binary) (map string_bytes words.items))) }
        ensures err { IfErr result (TellsNoValue (meant_with elf_lines
            name.now (words_given (string_bytes path_to_binary) (map string_bytes words.items)))) }
    {
        if is_of_symbols(name) {
            return ElfCommand::with_symbol_words(alloc, name, path_to_binary, words);
        }
        Ok(Some(match name {
            add_needed::NAME => ElfCommand::AddNeeded(add_needed::Args {
                path_to_binary,
                dt_needed: words,
            }),
            remove_needed::NAME => ElfCommand::RemoveNeeded(remove_needed::Args {
                path_to_binary,
                dt_needed: words,
            }),
            replace_needed::NAME => ElfCommand::ReplaceNeeded(replace_needed::Args {
                path_to_binary,
                dt_needed: pairs_of(alloc, words.as_slice())?,
            }),
            replace_library::NAME => ElfCommand::ReplaceLibrary(replace_library::Args {
                path_to_binary,
                libraries: pairs_of(alloc, words.as_slice())?,
            }),
            rename_dynamic_symbols::NAME => {
                ElfCommand::RenameDynamicSymbols(rename_dynamic_symbols::Args {
                    path_to_binary,
                    rename_symbols: pairs_of(alloc, words.as_slice())?,
                })
            }
            apply::NAME => ElfCommand::Apply(apply::Args {
                path_to_binary,
                edits: words,
            }),
            _ => return Ok(None),
        }))
    }

    /// The command of a name of an edit of symbols or sections, which takes the path and any number of words.
    fn with_symbol_words(
        alloc: Global,
        name: &str,
        path_to_binary: String,
        words: Vec<String>,
    ) -> Result<Option<ElfCommand>, ValueError>
        requires { names_symbols name.now ≡ true }
        ensures ok { IfOk result (λ command. option_map reading_of command ≡ meant_with elf_lines
            name.now (words_given (string_bytes path_to_binary) (map string_bytes words.items))) }
        ensures err { IfErr result (TellsNoValue (meant_with elf_lines
            name.now (words_given (string_bytes path_to_binary) (map string_bytes words.items)))) }
    {
        Ok(Some(match name {
            rename_symbols::NAME => ElfCommand::RenameSymbols(rename_symbols::Args {
                path_to_binary,
                rename_symbols: pairs_of(alloc, words.as_slice())?,
            }),
            delete_symbols::NAME => ElfCommand::DeleteSymbols(delete_symbols::Args {
                path_to_binary,
                symbols: words,
            }),
            rename_sections::NAME => ElfCommand::RenameSections(rename_sections::Args {
                path_to_binary,
                rename_sections: pairs_of(alloc, words.as_slice())?,
            }),
            delete_sections::NAME => ElfCommand::DeleteSections(delete_sections::Args {
                path_to_binary,
                sections: words,
            }),
            _ => return Ok(None),
        }))
    }

    /// The command of a name that takes the path and the values of an option.
    fn with_options(name: &str, path_to_binary: String, values: Vec<String>) -> Option<ElfCommand>
        ensures { option_map reading_of result ≡ meant_with elf_lines name.now
            (options (string_bytes path_to_binary) (map string_bytes values.items)) }
    {
        match name {
            shrink_rpath::NAME => Some(ElfCommand::ShrinkRpath(shrink_rpath::Args {
                path_to_binary,
                allowed_rpath_prefixes: values,
            })),
            _ => None,
        }
    }

    /// What a command of a name asks for with its values, as `apply` does it, with leave that the dynamic section moves where
    /// it has no room; `None` where `apply` has no words for it. Error: `AllocError`.
    pub fn with_leave(
        alloc: Global,
        name: &str,
        values: Values,
    ) -> Result<Option<ElfCommand>, AllocError>
        ensures { IfOk result (λ command. option_map elf_command_model command
            ≡ meant_moving name.now (given_model values)) }
    {
        match values {
            Values::Path(file) => moving(alloc, name, file, Vec::new(alloc)),
            Values::Text(value, file) => moving_with(alloc, name, file, value),
            Values::Words(file, words) => if name == apply::NAME {
                Ok(Some(ElfCommand::ApplyMoving(apply::Args {
                    path_to_binary: file,
                    edits: words,
                })))
            } else {
                moving(alloc, name, file, words)
            },
            _ => Ok(None),
        }
    }

    /// The edit that the command asks for; `None` for `apply`, which asks for several, for
    /// `shrink-rpath`, which asks for one by what is found, and for a command that prints.
    pub fn group_edit(&self, alloc: Global) -> Result<Option<GroupEdit>, AllocError>
        ensures { IfOk result (λ edit.
            option_map group_model edit ≡ group_edit_asked (elf_command_model self.now)) }
    {
        if let Some(edit) = self.edit(alloc)? {
            return Ok(Some(GroupEdit::Plain(edit)));
        }
        match self.symbol_edit(alloc)? {
            Some(texts) => Ok(Some(GroupEdit::Symbols(texts))),
            None => Ok(None),
        }
    }

    /// The edit that the command asks for and that a batch takes; `None` for any other command.
    fn edit(&self, alloc: Global) -> Result<Option<ElfEdit>, AllocError>
        ensures { IfOk result (λ edit.
            option_map edit_model edit ≡ elf_edit_asked (elf_command_model self.now)) }
    {
        Ok(Some(match self {
            ElfCommand::AddDebugTag(_) => ElfEdit::AddDebugTag,
            ElfCommand::ClearExecStack(_) => ElfEdit::ClearExecStack,
            ElfCommand::ForceRpath(_) => ElfEdit::ForceRpath,
            ElfCommand::NoDefaultLib(_) => ElfEdit::NoDefaultLib,
            ElfCommand::RemoveRpath(_) => ElfEdit::RemoveRpath,
            ElfCommand::SetExecStack(_) => ElfEdit::SetExecStack,
            ElfCommand::AddRpath(args) => {
                ElfEdit::AddRpath(texts_of(alloc, slice::from_ref(&args.new_rpath))?)
            }
            ElfCommand::SetRpath(args) => ElfEdit::SetRpath(bytes_of(alloc, &args.new_rpath)?),
            ElfCommand::SetInterpreter(args) => {
                ElfEdit::SetInterpreter(bytes_of(alloc, &args.interpreter)?)
            }
            ElfCommand::SetOsAbi(args) => ElfEdit::SetOsAbi(copied(alloc, &args.os_abi)?),
            ElfCommand::SetSoname(args) => ElfEdit::SetSoname(bytes_of(alloc, &args.soname)?),
            ElfCommand::SetPageSize(args) => ElfEdit::SetPageSize(args.page_size),
            ElfCommand::ClearSymbolVersion(args) => {
                ElfEdit::ClearSymbolVersion(bytes_of(alloc, &args.symbol)?)
            }
            ElfCommand::AddNeeded(args) => {
                ElfEdit::AddNeeded(texts_of(alloc, args.dt_needed.as_slice())?)
            }
            ElfCommand::RemoveNeeded(args) => {
                ElfEdit::RemoveNeeded(texts_of(alloc, args.dt_needed.as_slice())?)
            }
            ElfCommand::ReplaceNeeded(args) => {
                ElfEdit::ReplaceNeeded(pairs_copied(alloc, args.dt_needed.as_slice())?)
            }
            ElfCommand::ReplaceLibrary(args) => {
                ElfEdit::ReplaceLibrary(pairs_copied(alloc, args.libraries.as_slice())?)
            }
            ElfCommand::RenameDynamicSymbols(args) => {
                ElfEdit::RenameDynamicSymbols(pairs_copied(alloc, args.rename_symbols.as_slice())?)
            }
            _ => return Ok(None),
        }))
    }

    /// The edit of symbols or sections that the command asks for; `None` for any other command.
    fn symbol_edit(&self, alloc: Global) -> Result<Option<SymbolTexts>, AllocError>
        ensures { IfOk result (λ edit. option_map symbol_texts_model edit
            ≡ symbols_asked (elf_command_model self.now)) }
    {
        Ok(Some(match self {
            ElfCommand::RenameSymbols(args) => {
                SymbolTexts::RenameSymbols(pairs_copied(alloc, args.rename_symbols.as_slice())?)
            }
            ElfCommand::DeleteSymbols(args) => {
                SymbolTexts::DeleteSymbols(texts_of(alloc, args.symbols.as_slice())?)
            }
            ElfCommand::RenameSections(args) => {
                SymbolTexts::RenameSections(pairs_copied(alloc, args.rename_sections.as_slice())?)
            }
            ElfCommand::DeleteSections(args) => {
                SymbolTexts::DeleteSections(texts_of(alloc, args.sections.as_slice())?)
            }
            _ => return Ok(None),
        }))
    }

    /// Whether the command prints, and edits nothing.
    pub fn is_print(&self) -> bool
        ensures { result ≡ is_printing (elf_asked (elf_command_model self.now)) }
    {
        match self {
            ElfCommand::PrintRpath(_)
            | ElfCommand::PrintNeeded(_)
            | ElfCommand::PrintSoname(_)
            | ElfCommand::PrintInterpreter(_)
            | ElfCommand::PrintOsAbi(_)
            | ElfCommand::PrintExecStack(_) => true,
            _ => false,
        }
    }

    /// The file that is edited or read.
    pub fn path_to_binary(&self) -> &str
        ensures { result.now ≡ elf_file_of (elf_command_model self.now) }
    {
        match self {
            ElfCommand::AddDebugTag(args) => args.path_to_binary.as_str(),
            ElfCommand::ClearExecStack(args) => args.path_to_binary.as_str(),
            ElfCommand::ForceRpath(args) => args.path_to_binary.as_str(),
            ElfCommand::NoDefaultLib(args) => args.path_to_binary.as_str(),
            ElfCommand::RemoveRpath(args) => args.path_to_binary.as_str(),
            ElfCommand::SetExecStack(args) => args.path_to_binary.as_str(),
            ElfCommand::AddRpath(args) => args.path_to_binary.as_str(),
            ElfCommand::SetRpath(args) => args.path_to_binary.as_str(),
            ElfCommand::SetInterpreter(args) => args.path_to_binary.as_str(),
            ElfCommand::SetOsAbi(args) => args.path_to_binary.as_str(),
            ElfCommand::SetSoname(args) => args.path_to_binary.as_str(),
            ElfCommand::SetPageSize(args) => args.path_to_binary.as_str(),
            ElfCommand::ClearSymbolVersion(args) => args.path_to_binary.as_str(),
            ElfCommand::AddNeeded(args) => args.path_to_binary.as_str(),
            ElfCommand::RemoveNeeded(args) => args.path_to_binary.as_str(),
            ElfCommand::ReplaceNeeded(args) => args.path_to_binary.as_str(),
            ElfCommand::ReplaceLibrary(args) => args.path_to_binary.as_str(),
            ElfCommand::RenameDynamicSymbols(args) => args.path_to_binary.as_str(),
            ElfCommand::Apply(args) => args.path_to_binary.as_str(),
            ElfCommand::ApplyMoving(args) => args.path_to_binary.as_str(),
            ElfCommand::ShrinkRpath(args) => args.path_to_binary.as_str(),
            ElfCommand::RenameSymbols(args) => args.path_to_binary.as_str(),
            ElfCommand::DeleteSymbols(args) => args.path_to_binary.as_str(),
            ElfCommand::RenameSections(args) => args.path_to_binary.as_str(),
            ElfCommand::DeleteSections(args) => args.path_to_binary.as_str(),
            ElfCommand::PrintRpath(args) => args.path_to_binary.as_str(),
            ElfCommand::PrintNeeded(args) => args.path_to_binary.as_str(),
            ElfCommand::PrintSoname(args) => args.path_to_binary.as_str(),
            ElfCommand::PrintInterpreter(args) => args.path_to_binary.as_str(),
            ElfCommand::PrintOsAbi(args) => args.path_to_binary.as_str(),
            ElfCommand::PrintExecStack(args) => args.path_to_binary.as_str(),
        }
    }
}

/// Whether a name is that of an edit of symbols or sections.
fn is_of_symbols(name: &str) -> bool
    ensures { result ≡ names_symbols name.now }
{
    matches!(
        name,
        rename_symbols::NAME | delete_symbols::NAME | rename_sections::NAME | delete_sections::NAME
    )
}

/// An edit, by its name and the words behind it, with leave that the dynamic section moves.
fn moving(
    alloc: Global,
    name: &str,
    path_to_binary: String,
    mut words: Vec<String>,
) -> Result<Option<ElfCommand>, AllocError>
    ensures { IfOk result (λ command. option_map elf_command_model command
        ≡ Some (apply_moving_elf (string_bytes path_to_binary)
        (name.now ∷ map string_bytes words.items))) }
{
    let name = String::from_str(alloc, name)?;
    words.insert(0, name)?;
    Ok(Some(ElfCommand::ApplyMoving(apply::Args {
        path_to_binary,
        edits: words,
    })))
}

/// The same of one word behind the name.
fn moving_with(
    alloc: Global,
    name: &str,
    path_to_binary: String,
    value: String,
) -> Result<Option<ElfCommand>, AllocError>
    ensures { IfOk result (λ command. option_map elf_command_model command
        ≡ Some (apply_moving_elf (string_bytes path_to_binary)
        (name.now ∷ string_bytes value ∷ []))) }
{
    let mut words = Vec::new(alloc);
    words.push(value)?;
    moving(alloc, name, path_to_binary, words)
}
