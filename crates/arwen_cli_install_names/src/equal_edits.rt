//! Whether edits are the same.
ghost use Rattle.std.specs.Prelude.{◌≡◌, ◌↔◌, IsTrue};
ghost use Rattle.macho_edits.specs.Batch.{call_made, calls_of};
ghost use Rattle.macho_edits.specs.Call.Call.{add_rpath, change_install_id, change_install_name};
ghost use Rattle.macho_edits.specs.Call.Call.{change_rpath, remove_rpath};

use arwen_macho::macho::MachoEdit;

/// Whether edits are the same.
pub(crate) fn are_equal(left: &[MachoEdit], right: &[MachoEdit]) -> bool
    ensures { IsTrue result ↔ calls_of right.now ≡ calls_of left.now }
{
    let Some((edit, more)) = left.split_first() else {
        return right.is_empty();
    };
    let Some((other, rest)) = right.split_first() else {
        return false;
    };
    is_equal(edit, other) && are_equal(more, rest)
}

/// Whether two edits are the same.
fn is_equal(left: &MachoEdit, right: &MachoEdit) -> bool
    ensures { IsTrue result ↔ call_made right.now ≡ call_made left.now }
{
    match left {
        MachoEdit::AddRpath(new) => is_addition(right, new.as_str()),
        MachoEdit::ChangeRpath(old, new) => is_change(right, old.as_str(), new.as_str()),
        MachoEdit::RemoveRpath(old) => is_removal(right, old.as_str()),
        MachoEdit::ChangeInstallId(new) => is_id_change(right, new.as_str()),
        MachoEdit::ChangeInstallName(old, new) => {
            is_name_change(right, old.as_str(), new.as_str())
        }
    }
}

/// Whether an edit adds this run path.
fn is_addition(edit: &MachoEdit, path: &str) -> bool
    ensures { IsTrue result ↔ call_made edit.now ≡ add_rpath path.now }
{
    match edit {
        MachoEdit::AddRpath(new) => new.as_str() == path,
        _ => false,
    }
}

/// Whether an edit changes this run path to the second one.
fn is_change(edit: &MachoEdit, path: &str, next: &str) -> bool
    ensures { IsTrue result ↔ call_made edit.now ≡ change_rpath path.now next.now }
{
    match edit {
        MachoEdit::ChangeRpath(old, new) => old.as_str() == path && new.as_str() == next,
        _ => false,
    }
}

/// Whether an edit removes this run path.
fn is_removal(edit: &MachoEdit, path: &str) -> bool
    ensures { IsTrue result ↔ call_made edit.now ≡ remove_rpath path.now }
{
    match edit {
        MachoEdit::RemoveRpath(old) => old.as_str() == path,
        _ => false,
    }
}

/// Whether an edit gives a library this name.
fn is_id_change(edit: &MachoEdit, name: &str) -> bool
    ensures { IsTrue result ↔ call_made edit.now ≡ change_install_id name.now }
{
    match edit {
        MachoEdit::ChangeInstallId(new) => new.as_str() == name,
        _ => false,
    }
}

/// Whether an edit changes the name of this library to the second one.
fn is_name_change(edit: &MachoEdit, name: &str, next: &str) -> bool
    ensures { IsTrue result ↔ call_made edit.now ≡ change_install_name name.now next.now }
{
    match edit {
        MachoEdit::ChangeInstallName(old, new) => old.as_str() == name && new.as_str() == next,
        _ => false,
    }
}
