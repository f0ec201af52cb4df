ghost use Rattle.std.specs.Prelude.{◌≡◌, ◌≤◌, ◌==◌, length, position};
ghost use Rattle.macho_image.specs.Command.{before_nul, text_of};

use crate::command::RPATH_COMMAND_SIZE;
use crate::field::number32;
use patch_bytes::ByteOrder2;

/// The text of a load command that holds one: from its offset to the first NUL or the command's end
/// (loader.h, `lc_str`). Takes no memory.
pub fn command_text(order: ByteOrder2, command: &[u8]) -> &[u8]
    requires { RPATH_COMMAND_SIZE ≤ length command.now }
    ensures { result.now ≡ text_of order command.now }
{
    let offset = number32(command, 8, order) as usize;
    if offset > command.len() {
        return &[];
    }
    before_nul(&command[offset..])
}

// The bytes before the first NUL, or all where there is none.
#[tactic(auto, using(crate::proofs::TextLaws::texts))]
fn before_nul(bytes: &[u8]) -> &[u8]
    ensures { result.now ≡ before_nul bytes.now }
{
    match first_nul(bytes) {
        Some(end) => &bytes[..end],
        None => bytes,
    }
}

// Where the first NUL stands.
fn first_nul(bytes: &[u8]) -> Option<usize>
    ensures { result ≡ position (λ byte. byte == 0) bytes.now }
{
    bytes.iter().position(|byte| *byte == 0)
}
