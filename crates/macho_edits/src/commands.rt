ghost use Rattle.std.specs.Prelude.{◌≡◌, ◌+◌, ◌*◌, ◌≤◌, ◌++◌, length, replicate, IfOk, OnOk};
ghost use Rattle.patch_bytes.specs.Number.{bytes_of};
ghost use Rattle.macho_edits.specs.Builds.{BuildsDylib, BuildsRpath, SizesCommand};
ghost use Rattle.macho_edits.specs.Built.{fields, nul_position, padded_command};
ghost use Rattle.macho_edits.specs.declared.commands.CommandBuilderError.TheVariants.{CStrError, Memory};

use crate::utils::{align_to_arch, padding_size};
use macho_image::command::{DYLIB_COMMAND_SIZE, LC_RPATH, RPATH_COMMAND_SIZE};
use macho_image::{Ctx, Dylib, DylibCommand, RpathCommand};
use patch_bytes::ByteOrder2;
use std::alloc::{AllocError, AllocFailed, Global};
use thiserror::Error;

// How many bytes stand before the text of an rpath command, and before the name of a library command.
const RPATH_FIXED: u32 = RPATH_COMMAND_SIZE as u32;

const DYLIB_FIXED: u32 = DYLIB_COMMAND_SIZE as u32;

/// A text that holds a NUL, which would end it before its end.
#[derive(Clone, Copy, Debug, PartialEq, Eq, Error)]
#[error("NUL at {position}")]
pub struct NulInside {
    /// Where the first NUL stands in the text, in bytes.
    pub position: usize,
}

/// Why a load command cannot be built.
#[derive(Clone, Copy, Debug, PartialEq, Eq, Error)]
pub enum CommandBuilderError {
    /// The text holds a NUL.
    #[error("error when creating a CStr: {0}")]
    CStrError(NulInside),
    /// The command's size does not fit 32 bits.
    #[error("error when writing rpath command as bytes: command too long")]
    ScrollError,
    /// There was no memory.
    #[error("out of memory")]
    Memory,
}

impl From<NulInside> for CommandBuilderError {
    ghost from_gives = { λ nul e. e ≡ CStrError nul };

    fn from(nul: NulInside) -> CommandBuilderError {
        CommandBuilderError::CStrError(nul)
    }
}

impl From<AllocError> for CommandBuilderError {
    ghost from_gives = { λ _ e. e ≡ Memory };

    fn from(_refused: AllocError) -> CommandBuilderError {
        CommandBuilderError::Memory
    }
}

impl<T: Drop> From<AllocFailed<T>> for CommandBuilderError {
    ghost from_gives = { λ _ e. e ≡ Memory };

    fn from(_refused: AllocFailed<T>) -> CommandBuilderError {
        CommandBuilderError::Memory
    }
}

// Where the text's first NUL is.
fn nul_in(text: &[u8]) -> Option<usize>
    ensures { result ≡ nul_position text.now }
{
    text.iter().position(|byte| *byte == 0)
}

// The size of a command with a fixed part of so many bytes and this text, where it can be built.
fn command_size(text: &[u8], fixed: u32, ctx: Ctx) -> Result<u32, CommandBuilderError>
    requires { fixed ≤ 24 }
    ensures { SizesCommand ctx.container fixed text.now result }
{
    if let Some(position) = nul_in(text) {
        return Err(CommandBuilderError::from(NulInside { position }));
    }
    if text.len() > u32::MAX as usize {
        return Err(CommandBuilderError::ScrollError);
    }
    let size = align_to_arch(fixed as usize + padding_size(text.len() + 1), ctx);
    match u32::try_from(size) {
        Ok(size) => Ok(size),
        Err(_) => Err(CommandBuilderError::ScrollError),
    }
}

// The bytes of a field of 32 bits.
fn field_bytes(order: ByteOrder2, number: u32) -> [u8; 4]
    ensures { result ≡ bytes_of order 4 number }
{
    match order {
        ByteOrder2::Little => number.to_le_bytes(),
        ByteOrder2::Big => number.to_be_bytes(),
    }
}

// Appends fields of 32 bits.
fn push_fields(bytes: &mut Vec<u8>, order: ByteOrder2, numbers: &[u32]) -> Result<(), AllocError>
    ensures { OnOk result (bytes.new.items ≡ bytes.old.items ++ fields order numbers.now) }
{
    for number in numbers {
        bytes.extend_from_slice(&field_bytes(order, *number))?;
    }
    Ok(())
}

// Appends so many zeros.
fn push_zeros(bytes: &mut Vec<u8>, count: usize) -> Result<(), AllocError>
    ensures { OnOk result (bytes.new.items ≡ bytes.old.items ++ replicate count 0) }
{
    for _ in 0..count {
        bytes.push(0)?;
    }
    Ok(())
}

// The bytes of a command of this size: its fields, the text, and zeros.
fn command_bytes(
    alloc: Global,
    order: ByteOrder2,
    numbers: &[u32],
    text: &[u8],
    size: usize,
) -> Result<Vec<u8>, AllocError>
    requires { 4 * length numbers.now + length text.now ≤ size }
    ensures { IfOk result (λ bytes. bytes.items ≡ padded_command order numbers.now size text.now) }
{
    let mut bytes = Vec::with_capacity(alloc, size)?;
    push_fields(&mut bytes, order, numbers)?;
    bytes.extend_from_slice(text)?;
    let padding = size - bytes.len();
    push_zeros(&mut bytes, padding)?;
    Ok(bytes)
}

/// Builds an `LC_RPATH` command (loader.h, `rpath_command`).
#[derive(Clone, Copy, Debug)]
pub struct RpathCommandBuilder<'a> {
    /// The text.
    pub raw_str: &'a str,
    /// The form of the file that the command is for.
    pub ctx: Ctx,
}

impl<'a> RpathCommandBuilder<'a> {
    /// A builder for this text and a file of this form. Takes no memory.
    pub fn new(raw_str: &'a str, ctx: Ctx) -> Self
        ensures { result ≡ record { raw_str = raw_str.entry; ctx = ctx } }
    {
        RpathCommandBuilder { raw_str, ctx }
    }

    /// The fields and the bytes of the command, in the file's byte order: the text stands behind the
    /// fixed part of 12 bytes, and zeros behind it up to a size that suits the file.
    ///
    /// Refuses a text with a NUL, naming the first (`CStrError`); then a size past 32 bits
    /// (`ScrollError`); then where there is no memory (`Memory`).
    #[tactic(auto, unfolding(crate::specs::Built::rpath_built))]
    pub fn build(&self, alloc: Global) -> Result<(RpathCommand, Vec<u8>), CommandBuilderError>
        ensures { BuildsRpath self.now.ctx self.now.raw_str.now result }
    {
        let text = self.raw_str.as_bytes();
        let cmdsize = command_size(text, RPATH_FIXED, self.ctx)?;
        let command = RpathCommand {
            cmd: LC_RPATH,
            cmdsize,
            path: RPATH_FIXED,
        };
        let numbers = [command.cmd, command.cmdsize, command.path];
        let bytes = command_bytes(alloc, self.ctx.le, &numbers, text, cmdsize as usize)?;
        Ok((command, bytes))
    }
}

/// Builds a library command with a new name, and with the kind and the numbers of an old one (loader.h,
/// `dylib_command`).
#[derive(Clone, Copy, Debug)]
pub struct DlibCommandBuilder<'a> {
    /// The new name.
    pub dlib_name: &'a str,
    /// The old command.
    pub dlib: DylibCommand,
    /// The form of the file that the command is for.
    pub ctx: Ctx,
}

impl<'a> DlibCommandBuilder<'a> {
    /// A builder for this name, with the kind and the numbers of an old command, and for a file of this
    /// form. Takes no memory.
    pub fn new(dlib_name: &'a str, old_dylib: DylibCommand, ctx: Ctx) -> Self
        ensures { result ≡ record { dlib_name = dlib_name.entry; dlib = old_dylib; ctx = ctx } }
    {
        DlibCommandBuilder {
            dlib_name,
            dlib: old_dylib,
            ctx,
        }
    }

    /// The fields and the bytes of the command, in the file's byte order: the name stands behind the
    /// fixed part of 24 bytes, and zeros behind it up to a size that suits the file.
    ///
    /// Refuses a name with a NUL, naming the first (`CStrError`); then a size past 32 bits
    /// (`ScrollError`); then where there is no memory (`Memory`).
    #[tactic(auto, unfolding(crate::specs::Built::dylib_built))]
    pub fn build(&self, alloc: Global) -> Result<(DylibCommand, Vec<u8>), CommandBuilderError>
        ensures { BuildsDylib self.now.ctx self.now.dlib_name.now self.now.dlib result }
    {
        let text = self.dlib_name.as_bytes();
        let cmdsize = command_size(text, DYLIB_FIXED, self.ctx)?;
        let command = DylibCommand {
            cmd: self.dlib.cmd,
            cmdsize,
            dylib: Dylib {
                name: DYLIB_FIXED,
                ..self.dlib.dylib
            },
        };
        let numbers = [
            command.cmd,
            command.cmdsize,
            command.dylib.name,
            command.dylib.timestamp,
            command.dylib.current_version,
            command.dylib.compatibility_version,
        ];
        let bytes = command_bytes(alloc, self.ctx.le, &numbers, text, cmdsize as usize)?;
        Ok((command, bytes))
    }
}
