ghost use Rattle.std.specs.Prelude.{◌≡◌, nat_le};
ghost use Rattle.macho_image.specs.Form.{commands_end, ctx_of};
ghost use Rattle.macho_edits.specs.State.{available_in};

use macho_image::{MachO, header_size};

/// Where a file's load commands end.
#[tactic(auto, unfolding(macho_image::specs::Form::header_of))]
pub fn commands_end(macho: &MachO<'_>) -> usize
    ensures { result ≡ commands_end (ctx_of macho.now.bytes) macho.now.bytes }
{
    header_size(macho.ctx().container) + macho.header().sizeofcmds as usize
}

/// The greatest offset where a file's load commands may end: where they end now, or where its content
/// begins.
pub fn available(macho: &MachO<'_>) -> usize
    ensures { result ≡ available_in macho.now.bytes }
{
    commands_end(macho).max(macho.first_content())
}

/// Whether load commands may end at this offset of the file: no later than they do now, or no later than
/// its content begins. Takes no memory.
pub fn fits(macho: &MachO<'_>, new_end: usize) -> bool
    ensures { result ≡ nat_le new_end (available_in macho.now.bytes) }
{
    new_end <= available(macho)
}
