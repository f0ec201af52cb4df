//! The edits that install_name_tool's options ask for.
ghost use Rattle.std.specs.Prelude.{◌≡◌, ◌∷◌, ◌++◌, [], IfOk, OnOk, map, string_bytes};
ghost use Rattle.macho_edits.specs.Batch.{call_made, calls_of};
ghost use Rattle.macho_edits.specs.Call.Call.{add_rpath, change_install_id, change_install_name};
ghost use Rattle.macho_edits.specs.Call.Call.{change_rpath, remove_rpath};
ghost use Rattle.arwen_cli_options.specs.Options.{given_model};
ghost use Rattle.arwen_cli_install_names.specs.NameEdits.{added, is_among as among, name_calls, names_model, option_calls, options_calls, other_options, prepending_options, removed};

use arwen_cli_options::Given;
use arwen_macho::macho::MachoEdit;
use std::alloc::{AllocError, Global};

/// What a file has before its edits.
#[derive(Drop)]
pub struct Names {
    /// Whether it has a name of its own.
    pub has_id: bool,
    /// The names of the libraries that it loads.
    pub libraries: Vec<String>,
    /// Its run paths.
    pub run_paths: Vec<String>,
}

/// The edits that options ask for, of a file that has these names: those of the options that put a run path in front come first.
/// Error: `AllocError`.
pub fn name_edits(
    alloc: Global,
    given: &[Given<'_>],
    names: &Names,
) -> Result<Vec<MachoEdit>, AllocError>
    ensures { IfOk result (λ edits.
        calls_of edits.items ≡ name_calls (names_model names.now) (map given_model given.now)) }
{
    let mut edits = Vec::new(alloc);
    put_prepending_options(alloc, &mut edits, given, names)?;
    put_other_options(alloc, &mut edits, given, names)?;
    Ok(edits)
}

/// Puts the edits of the options that put a run path in front.
fn put_prepending_options(
    alloc: Global,
    edits: &mut Vec<MachoEdit>,
    given: &[Given<'_>],
    names: &Names,
) -> Result<(), AllocError>
    ensures { OnOk result (calls_of edits.new.items ≡ calls_of edits.old.items
        ++ options_calls (names_model names.now) (prepending_options (map given_model given.now))) }
{
    for one in given {
        if one.name == "-prepend_rpath" {
            put_option(alloc, edits, one, names)?;
        }
    }
    Ok(())
}

/// Puts the edits of the other options.
fn put_other_options(
    alloc: Global,
    edits: &mut Vec<MachoEdit>,
    given: &[Given<'_>],
    names: &Names,
) -> Result<(), AllocError>
    ensures { OnOk result (calls_of edits.new.items ≡ calls_of edits.old.items
        ++ options_calls (names_model names.now) (other_options (map given_model given.now))) }
{
    for one in given {
        if one.name != "-prepend_rpath" {
            put_option(alloc, edits, one, names)?;
        }
    }
    Ok(())
}

/// Puts the edits of an option.
#[tactic(auto, unfolding(crate::specs::NameEdits::option_calls))]
fn put_option(
    alloc: Global,
    edits: &mut Vec<MachoEdit>,
    given: &Given<'_>,
    names: &Names,
) -> Result<(), AllocError>
    ensures { OnOk result (calls_of edits.new.items ≡ calls_of edits.old.items
        ++ option_calls (names_model names.now) (given_model given.now)) }
{
    match given.name {
        "-add_rpath" => put_addition(alloc, edits, given.first),
        "-delete_rpath" => put_removal(alloc, edits, given.first),
        "-rpath" => put_change(alloc, edits, given),
        "-change" if is_among(given.first, names.libraries.as_slice()) => {
            put_name_change(alloc, edits, given)
        }
        "-id" if names.has_id => put_id_change(alloc, edits, given.first),
        "-delete_all_rpaths" => put_removals(alloc, edits, names.run_paths.as_slice()),
        "-prepend_rpath" => put_first(alloc, edits, given.first, names.run_paths.as_slice()),
        _ => Ok(()),
    }
}

/// Puts the edit that adds a run path.
fn put_addition(alloc: Global, edits: &mut Vec<MachoEdit>, path: &str) -> Result<(), AllocError>
    ensures { OnOk result (calls_of edits.new.items
        ≡ calls_of edits.old.items ++ add_rpath path.now ∷ []) }
{
    let path = String::from_str(alloc, path)?;
    put_edit(edits, MachoEdit::AddRpath(path))
}

/// Puts the edit that removes a run path.
fn put_removal(alloc: Global, edits: &mut Vec<MachoEdit>, path: &str) -> Result<(), AllocError>
    ensures { OnOk result (calls_of edits.new.items
        ≡ calls_of edits.old.items ++ remove_rpath path.now ∷ []) }
{
    let path = String::from_str(alloc, path)?;
    put_edit(edits, MachoEdit::RemoveRpath(path))
}

/// Puts the edit that changes a run path, the first value of an option, to the second one.
fn put_change(
    alloc: Global,
    edits: &mut Vec<MachoEdit>,
    given: &Given<'_>,
) -> Result<(), AllocError>
    ensures { OnOk result (calls_of edits.new.items ≡ calls_of edits.old.items
        ++ change_rpath given.now.first.now given.now.second.now ∷ []) }
{
    let old = String::from_str(alloc, given.first)?;
    let new = String::from_str(alloc, given.second)?;
    put_edit(edits, MachoEdit::ChangeRpath(old, new))
}

/// Puts the edit that changes the name of a library, the first value of an option, to the second one.
fn put_name_change(
    alloc: Global,
    edits: &mut Vec<MachoEdit>,
    given: &Given<'_>,
) -> Result<(), AllocError>
    ensures { OnOk result (calls_of edits.new.items ≡ calls_of edits.old.items
        ++ change_install_name given.now.first.now given.now.second.now ∷ []) }
{
    let old = String::from_str(alloc, given.first)?;
    let new = String::from_str(alloc, given.second)?;
    put_edit(edits, MachoEdit::ChangeInstallName(old, new))
}

/// Puts the edit that gives a library another name.
fn put_id_change(alloc: Global, edits: &mut Vec<MachoEdit>, name: &str) -> Result<(), AllocError>
    ensures { OnOk result (calls_of edits.new.items
        ≡ calls_of edits.old.items ++ change_install_id name.now ∷ []) }
{
    let name = String::from_str(alloc, name)?;
    put_edit(edits, MachoEdit::ChangeInstallId(name))
}

/// Puts an edit behind others.
fn put_edit(edits: &mut Vec<MachoEdit>, edit: MachoEdit) -> Result<(), AllocError>
    ensures { OnOk result (calls_of edits.new.items
        ≡ calls_of edits.old.items ++ call_made edit ∷ []) }
{
    edits.push(edit)?;
    Ok(())
}

/// Puts the edits that remove these run paths.
fn put_removals(
    alloc: Global,
    edits: &mut Vec<MachoEdit>,
    paths: &[String],
) -> Result<(), AllocError>
    ensures { OnOk result (calls_of edits.new.items
        ≡ calls_of edits.old.items ++ removed (map string_bytes paths.now)) }
{
    for path in paths {
        put_removal(alloc, edits, path.as_str())?;
    }
    Ok(())
}

/// Puts the edits that add these run paths.
fn put_additions(
    alloc: Global,
    edits: &mut Vec<MachoEdit>,
    paths: &[String],
) -> Result<(), AllocError>
    ensures { OnOk result (calls_of edits.new.items
        ≡ calls_of edits.old.items ++ added (map string_bytes paths.now)) }
{
    for path in paths {
        put_addition(alloc, edits, path.as_str())?;
    }
    Ok(())
}

/// Puts the edits by which a run path comes before the others.
fn put_first(
    alloc: Global,
    edits: &mut Vec<MachoEdit>,
    path: &str,
    paths: &[String],
) -> Result<(), AllocError>
    ensures { OnOk result (calls_of edits.new.items ≡ calls_of edits.old.items
        ++ (removed (map string_bytes paths.now)
        ++ add_rpath path.now ∷ added (map string_bytes paths.now))) }
{
    put_removals(alloc, edits, paths)?;
    put_addition(alloc, edits, path)?;
    put_additions(alloc, edits, paths)
}

/// Whether a text is one of these.
fn is_among(text: &str, texts: &[String]) -> bool
    ensures { result ≡ among text.now (map string_bytes texts.now) }
{
    for one in texts {
        if one.as_str() == text {
            return true;
        }
    }
    false
}
