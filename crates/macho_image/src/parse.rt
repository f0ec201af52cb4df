ghost use Rattle.std.specs.Prelude.{◌≡◌, ◌≢◌, ◌+◌, ◌<◌, ◌≤◌, ◌^◌, length, MatchResult, Option, Some, None};
ghost use Rattle.macho_image.specs.Checks.{area_fault, file_fault, form_fault};
ghost use Rattle.macho_image.specs.Commands.{cut_commands, first_content_of, least_content, listed_commands, load_commands_of, located_commands};
ghost use Rattle.macho_image.specs.Form.{ctx_of, form_of, header_of, header_size};

use crate::command::LoadCommand;
use crate::field::number32;
use crate::format::{Ctx, Header, MH_MAGIC, MH_MAGIC_64, MachFault, NCMDS_AT, SIZEOFCMDS_AT};
use crate::one_command::{check_command, lower_by_command, read_variant};
use patch_bytes::{ByteOrder2, Wide};
use std::alloc::Global;

/// What a file's bytes show.
#[derive(Drop)]
pub(crate) struct Parts {
    pub(crate) ctx: Ctx,
    pub(crate) header: Header,
    pub(crate) commands: Vec<LoadCommand>,
    pub(crate) first_content: usize,
}

/// Reads the bytes of a thin file, or answers the first check that fails. `Memory` where there is none.
#[tactic(auto, unfolding(crate::specs::Checks::file_fault, crate::specs::Commands::commands_of, crate::specs::Commands::load_commands_of, crate::specs::Commands::first_content_of, crate::specs::Form::ctx_of))]
pub(crate) fn read_file(alloc: Global, bytes: &[u8]) -> Result<Parts, MachFault>
    ensures { MatchResult result
        (λ found. (file_fault bytes.now ≡ None)
        × (found.ctx ≡ ctx_of bytes.now)
        × (found.header ≡ header_of (ctx_of bytes.now) bytes.now)
        × (found.commands.items ≡ load_commands_of bytes.now)
        × (found.first_content ≡ first_content_of bytes.now))
        (λ e. e ≢ MachFault.Memory → file_fault bytes.now ≡ Some e) }
{
    if bytes.len() > u32::MAX as usize {
        return Err(MachFault::TooLong);
    }
    if bytes.len() < 4 {
        return Err(MachFault::Truncated);
    }
    let Some(ctx) = form_of(bytes) else {
        return Err(MachFault::BadMagic);
    };
    read_form(alloc, ctx, bytes)
}

// The form that the first four bytes tell, if any.
#[tactic(auto, unfolding(crate::specs::Form::form_of))]
fn form_of(bytes: &[u8]) -> Option<Ctx>
    requires { 4 ≤ length bytes.now }
    ensures { result ≡ form_of bytes.now }
{
    let low_first = number32(bytes, 0, ByteOrder2::Little);
    let high_first = number32(bytes, 0, ByteOrder2::Big);
    let (container, le) = if low_first == MH_MAGIC {
        (Wide::W32, ByteOrder2::Little)
    } else if high_first == MH_MAGIC {
        (Wide::W32, ByteOrder2::Big)
    } else if low_first == MH_MAGIC_64 {
        (Wide::W64, ByteOrder2::Little)
    } else if high_first == MH_MAGIC_64 {
        (Wide::W64, ByteOrder2::Big)
    } else {
        return None;
    };
    Some(Ctx { container, le })
}

/// The bytes of a header of this width.
pub fn header_size(wide: Wide) -> usize
    ensures { result ≡ header_size wide }
{
    match wide {
        Wide::W32 => 28,
        Wide::W64 => 32,
    }
}

// Reads the bytes of a file of this form, or answers the first check that fails.
#[tactic(auto, unfolding(crate::specs::Checks::form_fault))]
fn read_form(alloc: Global, ctx: Ctx, bytes: &[u8]) -> Result<Parts, MachFault>
    requires { length bytes.now < 2 ^ 32 }
    ensures { MatchResult result
        (λ found. (form_fault ctx bytes.now ≡ None)
        × (found.ctx ≡ ctx)
        × (found.header ≡ header_of ctx bytes.now)
        × (found.commands.items
        ≡ located_commands ctx.le (header_size ctx.container) (listed_commands ctx bytes.now))
        × (found.first_content
        ≡ least_content ctx.le (length bytes.now) (listed_commands ctx bytes.now)))
        (λ e. e ≢ MachFault.Memory → form_fault ctx bytes.now ≡ Some e) }
{
    let start = header_size(ctx.container);
    if bytes.len() < start {
        return Err(MachFault::Truncated);
    }
    let header = read_header(ctx, bytes);
    let size = header.sizeofcmds as usize;
    if bytes.len() < start + size {
        return Err(MachFault::Truncated);
    }
    let area = &bytes[start..start + size];
    let listed = read_commands(alloc, ctx.le, start, header.ncmds, area, bytes.len())?;
    Ok(Parts {
        ctx,
        header,
        commands: listed.commands,
        first_content: listed.first_content,
    })
}

// The header's fields.
#[tactic(auto, unfolding(crate::specs::Form::header_of))]
fn read_header(ctx: Ctx, bytes: &[u8]) -> Header
    requires { header_size ctx.container ≤ length bytes.now }
    ensures { result ≡ header_of ctx bytes.now }
{
    Header {
        magic: number32(bytes, 0, ctx.le),
        cputype: number32(bytes, 4, ctx.le),
        cpusubtype: number32(bytes, 8, ctx.le),
        filetype: number32(bytes, 12, ctx.le),
        ncmds: number32(bytes, NCMDS_AT, ctx.le),
        sizeofcmds: number32(bytes, SIZEOFCMDS_AT, ctx.le),
        flags: number32(bytes, 24, ctx.le),
        reserved: match ctx.container {
            Wide::W32 => 0,
            Wide::W64 => number32(bytes, 28, ctx.le),
        },
    }
}

/// What the load commands of an area tell.
#[derive(Drop)]
pub struct Listed {
    /// The commands with their fields, in order.
    pub commands: Vec<LoadCommand>,
    /// The lesser of a given position and of where the content that the commands name begins.
    pub first_content: usize,
}

/// Reads `count` commands that are to fill the area, the first of them at the offset `start`, or answers
/// the first check that fails. `limit` is a bound on where content begins. `Memory` where there is none.
pub fn read_commands(
    alloc: Global,
    order: ByteOrder2,
    start: usize,
    count: u32,
    area: &[u8],
    limit: usize,
) -> Result<Listed, MachFault>
    requires { start + length area.now < 2 ^ 64 }
    ensures { MatchResult result
        (λ found. (area_fault order count area.now ≡ None)
        × (found.commands.items ≡ located_commands order start (cut_commands order count area.now))
        × (found.first_content ≡ least_content order limit (cut_commands order count area.now)))
        (λ e. e ≢ MachFault.Memory → area_fault order count area.now ≡ Some e) }
{
    let mut commands = Vec::new(alloc);
    let mut first_content = limit;
    let mut offset = start;
    let mut rest = area;
    for _i in 0..count {
        let command = check_command(order, rest)?;
        first_content = lower_by_command(order, command, first_content);
        commands.push(LoadCommand {
            offset,
            command: read_variant(order, command),
        })?;
        offset += command.len();
        rest = &rest[command.len()..];
    }
    if !rest.is_empty() {
        return Err(MachFault::CountsDisagree);
    }
    Ok(Listed {
        commands,
        first_content,
    })
}
