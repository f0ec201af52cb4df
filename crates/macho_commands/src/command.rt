//! What is asked of a Mach-O file, with its values.
ghost use Rattle.std.specs.Prelude.{◌≡◌, IfOk, Some, option_map, string_bytes};
ghost use Rattle.macho_edits.specs.Batch.{call_made};
ghost use Rattle.macho_edits.specs.Call.Call.{add_rpath, change_install_id, change_install_name};
ghost use Rattle.macho_edits.specs.Call.Call.{change_rpath, remove_rpath};

use crate::commands::{add, apply, batch, change, delete, install_id, install_name, sign, verify};
use arwen_macho::macho::MachoEdit;
use command_words::{Values, copied};
use std::alloc::{AllocError, Global};

/// What is asked of a Mach-O file.
#[derive(Debug, Drop)]
pub enum MachoCommand {
    /// Remove a run path.
    DeleteRpath(delete::Args),
    /// Put a run path in the place of another.
    ChangeRpath(change::Args),
    /// Add a run path.
    AddRpath(add::Args),
    /// Put a library's name in the place of another.
    ChangeInstallName(install_name::Args),
    /// Give a library another id.
    ChangeInstallId(install_id::Args),
    /// Several of these edits, all or none.
    Apply(apply::Args),
    /// The edits of a list, all or none.
    Batch(batch::Args),
    /// Make its ad-hoc code signatures fit.
    Sign(sign::Args),
    /// Tell whether its code signatures fit.
    Verify(verify::Args),
}

impl MachoCommand {
    ghost use Rattle.std.specs.Prelude.{◌≡◌, ◌∷◌, IfOk, map, option_map, string_bytes};
    ghost use Rattle.macho_edits.specs.Batch.{call_made};
    ghost use Rattle.macho_commands.specs.Edits.{edit_asked};
    ghost use Rattle.macho_commands.specs.Meaning.{file_of, macho_lines, macho_command_model};
    ghost use Rattle.command_words.specs.Rows.{given_model, meant_with, path, text, texts, words as words_given};

    /// The command of a name with its values; `None` where no command of that name takes such
    /// values.
    pub fn with_values(name: &str, values: Values) -> Option<MachoCommand>
        ensures { option_map macho_command_model result
            ≡ meant_with macho_lines name.now (given_model values) }
    {
        match values {
            Values::Path(path) => MachoCommand::with_path(name, path),
            Values::Text(value, path) => MachoCommand::with_text(name, value, path),
            Values::Texts(old, new, path) => MachoCommand::with_texts(name, old, new, path),
            Values::Words(path, words) => MachoCommand::with_words(name, path, words),
            Values::Options(..) => None,
        }
    }

    /// The command of a name that takes the path alone.
    fn with_path(name: &str, path_to_binary: String) -> Option<MachoCommand>
        ensures { option_map macho_command_model result ≡ meant_with macho_lines name.now
            (path (string_bytes path_to_binary)) }
    {
        match name {
            sign::NAME => Some(MachoCommand::Sign(sign::Args { path_to_binary })),
            verify::NAME => Some(MachoCommand::Verify(verify::Args { path_to_binary })),
            _ => None,
        }
    }

    /// The command of a name that takes a text and the path.
    fn with_text(name: &str, value: String, path_to_binary: String) -> Option<MachoCommand>
        ensures { option_map macho_command_model result ≡ meant_with macho_lines name.now
            (text (string_bytes value) (string_bytes path_to_binary)) }
    {
        match name {
            delete::NAME => Some(MachoCommand::DeleteRpath(delete::Args {
                rpath_to_remove: value,
                path_to_binary,
            })),
            add::NAME => Some(MachoCommand::AddRpath(add::Args {
                new_rpath: value,
                path_to_binary,
            })),
            install_id::NAME => Some(MachoCommand::ChangeInstallId(install_id::Args {
                new_install_id: value,
                path_to_binary,
            })),
            _ => None,
        }
    }

    /// The command of a name that takes two texts and the path.
    fn with_texts(
        name: &str,
        old: String,
        new: String,
        path_to_binary: String,
    ) -> Option<MachoCommand>
        ensures { option_map macho_command_model result ≡ meant_with macho_lines name.now
            (texts (string_bytes old) (string_bytes new) (string_bytes path_to_binary)) }
    {
        match name {
            change::NAME => Some(MachoCommand::ChangeRpath(change::Args {
                old_rpath: old,
                new_rpath: new,
                path_to_binary,
            })),
            install_name::NAME => Some(MachoCommand::ChangeInstallName(install_name::Args {
                old_install_name: old,
                new_install_name: new,
                path_to_binary,
            })),
            _ => None,
        }
    }

    /// The command of a name that takes the path and any number of words.
    fn with_words(name: &str, path_to_binary: String, words: Vec<String>) -> Option<MachoCommand>
        ensures { option_map macho_command_model result ≡ meant_with macho_lines name.now
            (words_given (string_bytes path_to_binary) (map string_bytes words.items)) }
    {
        match name {
            apply::NAME => Some(MachoCommand::Apply(apply::Args {
                path_to_binary,
                edits: words,
            })),
            _ => None,
        }
    }

    /// The edit that the command asks for; `None` for `apply` and a batch, which ask for
    /// several, and where none is asked for.
    pub(crate) fn edit(&self, alloc: Global) -> Result<Option<MachoEdit>, AllocError>
        ensures { IfOk result (λ edit.
            option_map call_made edit ≡ edit_asked (macho_command_model self.now)) }
    {
        match self {
            MachoCommand::DeleteRpath(args) => removal(alloc, &args.rpath_to_remove),
            MachoCommand::ChangeRpath(args) => change_of(alloc, &args.old_rpath, &args.new_rpath),
            MachoCommand::AddRpath(args) => addition(alloc, &args.new_rpath),
            MachoCommand::ChangeInstallName(args) => {
                name_change(alloc, &args.old_install_name, &args.new_install_name)
            }
            MachoCommand::ChangeInstallId(args) => id_change(alloc, &args.new_install_id),
            MachoCommand::Apply(_) | MachoCommand::Batch(_) => Ok(None),
            MachoCommand::Sign(_) | MachoCommand::Verify(_) => Ok(None),
        }
    }

    /// The file that is edited or looked at.
    pub fn path_to_binary(&self) -> &str
        ensures { result.now ≡ file_of (macho_command_model self.now) }
    {
        match self {
            MachoCommand::DeleteRpath(args) => args.path_to_binary.as_str(),
            MachoCommand::ChangeRpath(args) => args.path_to_binary.as_str(),
            MachoCommand::AddRpath(args) => args.path_to_binary.as_str(),
            MachoCommand::ChangeInstallName(args) => args.path_to_binary.as_str(),
            MachoCommand::ChangeInstallId(args) => args.path_to_binary.as_str(),
            MachoCommand::Apply(args) => args.path_to_binary.as_str(),
            MachoCommand::Batch(args) => args.path_to_binary.as_str(),
            MachoCommand::Sign(args) => args.path_to_binary.as_str(),
            MachoCommand::Verify(args) => args.path_to_binary.as_str(),
        }
    }
}

/// The edit that removes a run path.
fn removal(alloc: Global, old: &String) -> Result<Option<MachoEdit>, AllocError>
    ensures { IfOk result (λ edit.
        option_map call_made edit ≡ Some (remove_rpath (string_bytes old.now))) }
{
    let old = copied(alloc, old)?;
    Ok(Some(MachoEdit::RemoveRpath(old)))
}

/// The edit that adds a run path.
fn addition(alloc: Global, new: &String) -> Result<Option<MachoEdit>, AllocError>
    ensures { IfOk result (λ edit.
        option_map call_made edit ≡ Some (add_rpath (string_bytes new.now))) }
{
    let new = copied(alloc, new)?;
    Ok(Some(MachoEdit::AddRpath(new)))
}

/// The edit that puts a run path in the place of another.
fn change_of(alloc: Global, old: &String, new: &String) -> Result<Option<MachoEdit>, AllocError>
    ensures { IfOk result (λ edit. option_map call_made edit
        ≡ Some (change_rpath (string_bytes old.now) (string_bytes new.now))) }
{
    let old = copied(alloc, old)?;
    let new = copied(alloc, new)?;
    Ok(Some(MachoEdit::ChangeRpath(old, new)))
}

/// The edit that puts a library's name in the place of another.
fn name_change(alloc: Global, old: &String, new: &String) -> Result<Option<MachoEdit>, AllocError>
    ensures { IfOk result (λ edit. option_map call_made edit
        ≡ Some (change_install_name (string_bytes old.now) (string_bytes new.now))) }
{
    let old = copied(alloc, old)?;
    let new = copied(alloc, new)?;
    Ok(Some(MachoEdit::ChangeInstallName(old, new)))
}

/// The edit that gives a library another id.
fn id_change(alloc: Global, new: &String) -> Result<Option<MachoEdit>, AllocError>
    ensures { IfOk result (λ edit.
        option_map call_made edit ≡ Some (change_install_id (string_bytes new.now))) }
{
    let new = copied(alloc, new)?;
    Ok(Some(MachoEdit::ChangeInstallId(new)))
}
