ghost use Rattle.std.specs.Prelude.{◌≡◌, ◌+◌, ◌≤◌, length, take, IsTrue, MatchResult, Some, None};
ghost use Rattle.macho_image.specs.Checks.{command_fault, fields_fault};
ghost use Rattle.macho_image.specs.Command.{IsCommand, cmd_of, cmdsize_of, command_header_of, contents_of, dylib_of, is_dylib_kind, least_size, rpath_of, symtab_content, variant_of};
ghost use Rattle.macho_image.specs.Commands.{least};

use crate::command::{
    CommandVariant, DYLIB_COMMAND_SIZE, Dylib, DylibCommand, LC_ID_DYLIB, LC_LAZY_LOAD_DYLIB,
    LC_LOAD_DYLIB, LC_LOAD_UPWARD_DYLIB, LC_LOAD_WEAK_DYLIB, LC_REEXPORT_DYLIB, LC_RPATH,
    LC_SEGMENT, LC_SEGMENT_64, LC_SYMTAB, LOAD_COMMAND_SIZE, LoadCommandHeader, RPATH_COMMAND_SIZE,
    RpathCommand, SYMTAB_COMMAND_SIZE,
};
use crate::field::{dylib_of, number32};
use crate::format::MachFault;
use crate::kind::{is_dylib_kind, is_text_kind};
use crate::segment::{NARROW, WIDE, lower};
use patch_bytes::ByteOrder2;

// The least size of a command of its kind.
#[tactic(auto, unfolding(crate::specs::Command::least_size))]
fn least_size(order: ByteOrder2, command: &[u8]) -> usize
    requires { LOAD_COMMAND_SIZE ≤ length command.now }
    ensures { result ≡ least_size order command.now }
{
    let cmd = number32(command, 0, order);
    if cmd == LC_RPATH {
        RPATH_COMMAND_SIZE
    } else if is_dylib_kind(cmd) {
        DYLIB_COMMAND_SIZE
    } else if cmd == LC_SYMTAB {
        SYMTAB_COMMAND_SIZE
    } else if cmd == LC_SEGMENT {
        NARROW.least_size(order, command)
    } else if cmd == LC_SEGMENT_64 {
        WIDE.least_size(order, command)
    } else {
        LOAD_COMMAND_SIZE
    }
}

// Checks a command that has as many bytes as it says.
#[tactic(auto, using(crate::proofs::CommandLaws::least_sizes), unfolding(crate::specs::Checks::fields_fault))]
fn check_fields(order: ByteOrder2, command: &[u8]) -> Result<(), MachFault>
    requires { LOAD_COMMAND_SIZE ≤ length command.now }
    ensures { MatchResult result
        (λ _. fields_fault order command.now ≡ None)
        (λ e. fields_fault order command.now ≡ Some e) }
{
    if command.len() < least_size(order, command) {
        return Err(MachFault::BadCommandSize);
    }
    let cmd = number32(command, 0, order);
    if is_text_kind(cmd) && command.len() < number32(command, 8, order) as usize {
        return Err(MachFault::BadNameOffset);
    }
    Ok(())
}

/// The bytes of the command at the head of what is left of the area, or the first check that it fails.
/// Takes no memory.
#[tactic(auto, unfolding(crate::specs::Checks::command_fault))]
pub(crate) fn check_command(order: ByteOrder2, rest: &[u8]) -> Result<&[u8], MachFault>
    ensures { MatchResult result
        (λ command. (command_fault order rest.now ≡ None)
        × (command.now ≡ take (cmdsize_of order rest.now) rest.now)
        × IsCommand order command.now)
        (λ e. command_fault order rest.now ≡ Some e) }
{
    if rest.len() < LOAD_COMMAND_SIZE {
        return Err(MachFault::BadCommandSize);
    }
    let cmdsize = number32(rest, 4, order) as usize;
    if cmdsize < LOAD_COMMAND_SIZE || rest.len() < cmdsize {
        return Err(MachFault::BadCommandSize);
    }
    let command = &rest[..cmdsize];
    check_fields(order, command)?;
    Ok(command)
}

// What every command begins with.
fn read_command_header(order: ByteOrder2, command: &[u8]) -> LoadCommandHeader
    requires { LOAD_COMMAND_SIZE ≤ length command.now }
    ensures { result ≡ command_header_of order command.now }
{
    LoadCommandHeader {
        cmd: number32(command, 0, order),
        cmdsize: number32(command, 4, order),
    }
}

// The fields of an rpath command.
#[tactic(auto, using(crate::proofs::CommandLaws::least_sizes))]
fn read_rpath(order: ByteOrder2, command: &[u8]) -> RpathCommand
    requires command { IsCommand order command.now }
    requires kind { cmd_of order command.now ≡ LC_RPATH }
    ensures { result ≡ rpath_of order command.now }
{
    RpathCommand {
        cmd: number32(command, 0, order),
        cmdsize: number32(command, 4, order),
        path: number32(command, 8, order),
    }
}

// The fields of a library command.
#[tactic(auto, using(crate::proofs::CommandLaws::least_sizes))]
fn read_dylib(order: ByteOrder2, command: &[u8]) -> DylibCommand
    requires command { IsCommand order command.now }
    requires kind { IsTrue (is_dylib_kind (cmd_of order command.now)) }
    ensures { result ≡ dylib_of order command.now }
{
    dylib_of(order, command)
}

/// A command with its fields, by its kind. Takes no memory.
#[tactic(auto, unfolding(crate::specs::Command::variant_of))]
pub(crate) fn read_variant(order: ByteOrder2, command: &[u8]) -> CommandVariant
    requires { IsCommand order command.now }
    ensures { result ≡ variant_of order command.now }
{
    match number32(command, 0, order) {
        LC_RPATH => CommandVariant::Rpath(read_rpath(order, command)),
        LC_LOAD_DYLIB => CommandVariant::LoadDylib(read_dylib(order, command)),
        LC_LOAD_UPWARD_DYLIB => CommandVariant::LoadUpwardDylib(read_dylib(order, command)),
        LC_REEXPORT_DYLIB => CommandVariant::ReexportDylib(read_dylib(order, command)),
        LC_LOAD_WEAK_DYLIB => CommandVariant::LoadWeakDylib(read_dylib(order, command)),
        LC_LAZY_LOAD_DYLIB => CommandVariant::LazyLoadDylib(read_dylib(order, command)),
        LC_ID_DYLIB => CommandVariant::IdDylib(read_dylib(order, command)),
        LC_SEGMENT | LC_SEGMENT_64 => {
            CommandVariant::Segment(read_command_header(order, command))
        }
        LC_SYMTAB => CommandVariant::Symtab(read_command_header(order, command)),
        _ => CommandVariant::Other(read_command_header(order, command)),
    }
}

// The lesser of a position and of where the symbol table and its strings begin.
#[tactic(auto, using(crate::proofs::ContentLaws::contents, crate::proofs::CommandLaws::least_sizes), unfolding(crate::specs::Command::symtab_content))]
fn lower_by_symtab(order: ByteOrder2, command: &[u8], so_far: usize) -> usize
    requires command { IsCommand order command.now }
    requires kind { cmd_of order command.now ≡ LC_SYMTAB }
    ensures { result ≡ least so_far (symtab_content order command.now) }
{
    let symbols = number32(command, 8, order);
    let symbol_count = number32(command, 12, order);
    let strings = number32(command, 16, order);
    let strings_size = number32(command, 20, order);
    let first = lower(so_far, u64::from(symbols), u64::from(symbol_count));
    lower(first, u64::from(strings), u64::from(strings_size))
}

/// The lesser of a position and of where the content that a command names begins. Takes no memory.
#[tactic(auto, unfolding(crate::specs::Command::contents_of))]
pub(crate) fn lower_by_command(order: ByteOrder2, command: &[u8], so_far: usize) -> usize
    requires { IsCommand order command.now }
    ensures { result ≡ least so_far (contents_of order command.now) }
{
    match number32(command, 0, order) {
        LC_SEGMENT => NARROW.lower_by_segment(order, command, so_far),
        LC_SEGMENT_64 => WIDE.lower_by_segment(order, command, so_far),
        LC_SYMTAB => lower_by_symtab(order, command, so_far),
        _ => so_far,
    }
}
