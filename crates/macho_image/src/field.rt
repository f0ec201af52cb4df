ghost use Rattle.std.specs.Prelude.{◌≡◌, ◌+◌, ◌≤◌, length};
ghost use Rattle.patch_bytes.specs.Number.{number_at, word_size};
ghost use Rattle.macho_image.specs.Command.{dylib_of};

use crate::command::{DYLIB_COMMAND_SIZE, Dylib, DylibCommand};
use patch_bytes::{ByteOrder2, Wide, read_u32_at, read_word_at};

/// The 32-bit number at a position where its 4 bytes lie in the bytes. Takes no memory.
pub fn number32(bytes: &[u8], pos: usize, order: ByteOrder2) -> u32
    requires { pos + 4 ≤ length bytes.now }
    ensures { result ≡ number_at order 4 pos bytes.now }
{
    read_u32_at(bytes, pos, order).unwrap()
}

/// The word at a position where all its bytes lie in the bytes. Takes no memory.
pub fn word(bytes: &[u8], pos: usize, wide: Wide, order: ByteOrder2) -> u64
    requires { pos + word_size wide ≤ length bytes.now }
    ensures { result ≡ number_at order (word_size wide) pos bytes.now }
{
    read_word_at(bytes, pos, wide, order).unwrap()
}

/// The fields of a library command, of which the fixed part is there (loader.h, `dylib_command`). Takes no
/// memory.
pub fn dylib_of(order: ByteOrder2, command: &[u8]) -> DylibCommand
    requires { DYLIB_COMMAND_SIZE ≤ length command.now }
    ensures { result ≡ dylib_of order command.now }
{
    DylibCommand {
        cmd: number32(command, 0, order),
        cmdsize: number32(command, 4, order),
        dylib: Dylib {
            name: number32(command, 8, order),
            timestamp: number32(command, 12, order),
            current_version: number32(command, 16, order),
            compatibility_version: number32(command, 20, order),
        },
    }
}
