//! Where the load commands of a thin file say that its signature lies.
ghost use Rattle.std.specs.Prelude.{◌≡◌, ◌≢◌, ◌≤◌, ◌+◌, All, Err, IfOk, MatchResult, Some, None, Ok, length, map};
ghost use Rattle.patch_bytes.specs.ByteString.{bytes_of_each};
ghost use Rattle.macho_image.specs.Checks.{file_fault};
ghost use Rattle.macho_image.specs.Command.{IsCommand};
ghost use Rattle.macho_image.specs.Form.{commands_end, ctx_of};
ghost use Rattle.macho_signing.specs.Place.{place_in, signature_commands, signature_place};
ghost use Rattle.macho_signing.specs.Thin.{file_check, first_there, place_check};
ghost use Rattle.macho_signing.specs.declared.fault.SigningFault.TheVariants.{Memory};

use crate::fault::SigningFault;
use macho_image::field::number32;
use macho_image::{MachO, header_size};
use patch_bytes::{ByteOrder2, ByteString};
use std::alloc::{AllocError, Global};

/// `LC_CODE_SIGNATURE` of loader.h: tells where a code signature lies.
pub const LC_CODE_SIGNATURE: u32 = 0x1d;

/// The bytes of `linkedit_data_command` of loader.h.
pub const LINKEDIT_COMMAND_SIZE: usize = 16;

/// What a load command tells of a signature.
#[derive(Clone, Copy, Debug, PartialEq, Eq)]
pub struct Place {
    /// Where the signature begins in the thin file.
    pub dataoff: u32,
    /// How many bytes the signature has.
    pub datasize: u32,
}

/// What is found of a signature in a thin file.
#[derive(Clone, Copy, Debug, PartialEq, Eq)]
pub struct Found {
    /// Where the signature lies, if there is one.
    pub place: Option<Place>,
    /// Where the load commands end.
    pub commands_end: usize,
}

// The commands that tell of a signature.
fn kept_commands<'b>(
    alloc: Global,
    order: ByteOrder2,
    commands: &'b [ByteString<'_>],
) -> Result<Vec<&'b [u8]>, AllocError>
    requires { All (IsCommand order) (bytes_of_each commands.now) }
    ensures { IfOk result (λ kept.
        map (λ c. c.now) kept.items ≡ signature_commands order (bytes_of_each commands.entry.now)) }
{
    let mut kept = Vec::new(alloc);
    for string in commands {
        let command = string.as_slice();
        if number32(command, 0, order) == LC_CODE_SIGNATURE {
            kept.push(command)?;
        }
    }
    Ok(kept)
}

// What the one of the commands tells, if there is any.
fn place_in(order: ByteOrder2, commands: &[&[u8]]) -> Result<Option<Place>, SigningFault>
    ensures { result ≡ place_in order (map (λ c. c.now) commands.now) }
{
    if commands.len() > 1 {
        return Err(SigningFault::SeveralSignatures);
    }
    if commands.is_empty() {
        return Ok(None);
    }
    let command = commands[0];
    if command.len() < LINKEDIT_COMMAND_SIZE {
        return Err(SigningFault::BadCommand);
    }
    Ok(Some(Place {
        dataoff: number32(command, 8, order),
        datasize: number32(command, 12, order),
    }))
}

// What is found in a thin file that is read.
#[tactic(auto, unfolding(crate::specs::Place::signature_place))]
fn found_in(alloc: Global, macho: &MachO<'_>) -> Result<Found, SigningFault>
    requires { file_fault macho.now.bytes ≡ None }
    ensures { MatchResult result
        (λ found. (signature_place macho.now.bytes ≡ Ok found.place)
        × (found.commands_end ≡ commands_end (ctx_of macho.now.bytes) macho.now.bytes))
        (λ e. e ≢ Memory → signature_place macho.now.bytes ≡ Err e) }
{
    let ctx = macho.ctx();
    let commands = macho.commands(alloc)?;
    let kept = kept_commands(alloc, ctx.le, &commands)?;
    let place = place_in(ctx.le, &kept)?;
    Ok(Found {
        place,
        commands_end: header_size(ctx.container) + macho.header().sizeofcmds as usize,
    })
}

/// What the load commands of a thin file tell of a signature. Its first bytes are enough, where they are a thin file by
/// themselves.
///
/// # Errors
///
/// Those of `read_thin` up to `BadCommand`, in their order.
pub fn find_place(alloc: Global, bytes: &[u8]) -> Result<Found, SigningFault>
    ensures { MatchResult result
        (λ found. (file_fault bytes.now ≡ None)
        × (signature_place bytes.now ≡ Ok found.place)
        × (found.commands_end ≡ commands_end (ctx_of bytes.now) bytes.now))
        (λ e. e ≢ Memory → first_there (file_check (file_fault bytes.now))
        (place_check (signature_place bytes.now)) ≡ Some e) }
{
    let macho = MachO::parse(alloc, bytes)?;
    found_in(alloc, &macho)
}
