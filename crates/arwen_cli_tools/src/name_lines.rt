//! Lines of install_name_tool, run.
ghost use Rattle.std.specs.Prelude.{IfErr, OnOk, map};
ghost use Rattle.macho_commands.specs.Failures.{WritesEnd};
ghost use Rattle.arwen_cli_install_names.specs.Editing.{HasNamesCause};
ghost use Rattle.arwen_cli_tools.specs.NameRuns.{FailsNamedBy, IsNamedBy};

use arwen_cli_install_names::{NamesError, name_store, read_name_line};
use byte_store::Store;
use command_words::Notes;
use macho_commands::MachoCommandError;
use std::alloc::Global;

/// Edits the bytes of a store as the line of these words asks, by `name_store`, and answers the line of the note, where there is
/// one.
///
/// # Errors
///
/// Those of `name_store`; `Memory` where the words aren't read.
pub fn name_words<S: Store>(
    alloc: Global,
    store: &mut S,
    path: &str,
    words: &[&str],
) -> Result<String, NamesError>
    ensures named { OnOk result (IsNamedBy (map (λ w. w.now) words.now) path.now
        (S.contents store.old) (S.contents store.new)) }
    ensures left { IfErr result (FailsNamedBy
        (WritesEnd S.may_fail_write S.may_take_none (S.failed store.old) (S.failed store.new))
        (map (λ w. w.now) words.now) path.now (S.contents store.old) (S.contents store.new)) }
    ensures cause { IfErr result (HasNamesCause S.may_fail_read S.may_fail_write S.may_take_none
        (S.contents store.old) (S.failed store.old) (S.failed store.new)) }
{
    match read_name_line(alloc, words) {
        Ok(line) => name_store(alloc, store, path, line.given.as_slice(), Notes::Wanted),
        Err(_) => Err(NamesError::Command(MachoCommandError::Memory)),
    }
}
