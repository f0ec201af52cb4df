//! What is proved of lists of edits. The function does nothing: it stands for the law that is its contract.
ghost use Rattle.elf_commands_edits.specs.Groups.{ListsAreTheirEdits};

use elf_edits::laws::{batches_are_their_edits, edits_show};
use elf_symbol_edits::laws::symbol_edits_keep;

/// A list of edits is its edits, one after the other; without edits of symbols or sections it is a batch.
pub fn lists_are_their_edits()
    ensures { ListsAreTheirEdits }
{
    edits_show();
    batches_are_their_edits();
    symbol_edits_keep();
}
