//! The edits that a command asks for.
ghost use Rattle.std.specs.Prelude.{IfOk, map};
ghost use Rattle.elf_commands.specs.ElfAsked.{elf_asked};
ghost use Rattle.elf_commands.specs.Groups.{group_model};
ghost use Rattle.elf_commands.specs.Meaning.{elf_command_model};
ghost use Rattle.arwen_cli_faults.specs.Asked.{AreEditsOf};

use elf_commands::elf::asked_by;
use elf_commands::{ElfCommand, GroupEdit};
use std::alloc::Global;

/// The edits that a command asks for, in order; none of one that prints or asks first what is found, and where the words of
/// `apply` are no list of edits, or there is no memory to read them.
pub fn edits_of(alloc: Global, command: &ElfCommand) -> Vec<GroupEdit>
    ensures { AreEditsOf (elf_asked (elf_command_model command.now))
        (map group_model result.items) }
{
    match asked_by(alloc, command) {
        Ok(Some(edits)) => edits,
        _ => Vec::new(alloc),
    }
}
