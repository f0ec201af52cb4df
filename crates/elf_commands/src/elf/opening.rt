//! Stores that are opened at paths.
ghost use Rattle.std.specs.Prelude.{◌≡◌, IfErr, IfOk};
ghost use Rattle.elf_commands.specs.ElfStores.{IsUnopened};

use byte_store::Store;
use command_words::{NotDone, OpensOnce};
use elf_commands_edits::ElfCommandError;

/// Opens the store at a path for reading.
///
/// # Errors
///
/// `Io` with what the opening answered; no store comes with it.
pub fn open_path<'p, O: OpensOnce<'p>>(
    files: O,
    path: &'p str,
) -> Result<O::Opened, NotDone<O::Opened, ElfCommandError>>
    ensures bytes { IfOk result (λ store.
        O.Opened.contents store ≡ O.contents files path.now) }
    ensures fresh { IfOk result (λ store. O.Opened.failed store ≡ 0) }
    ensures err { IfErr result (λ refused.
        IsUnopened (O.may_fail files path.now) refused.error refused.store) }
{
    match files.open_once(path) {
        Ok(store) => Ok(store),
        Err(error) => Err(NotDone {
            error: ElfCommandError::Io(error),
            store: None,
        }),
    }
}
