ghost use Rattle.std.specs.Prelude.{◌≡◌, ◌+◌, ◌<◌, ◌≤◌, ◌^◌, IfOk, length, vec_len};
ghost use Rattle.patch_bytes.specs.Number.{with_number};
ghost use Rattle.macho_image.specs.Checks.{area_fault};
ghost use Rattle.macho_image.specs.Form.{ctx_of, header_size};
ghost use Rattle.macho_image.specs.Image.{HasRoom, front_stored, stored_image, with_area};
ghost use Rattle.macho_image.specs.Prepared.{IsMadeFor};

use crate::command::LoadCommand;
use crate::format::{Ctx, NCMDS_AT, SIZEOFCMDS_AT};
use crate::image::MachO;
use crate::parse::{header_size, read_commands};
use patch_bytes::{ByteOrder2, write_u32_at};
use std::alloc::{AllocError, Global};
use std::marker::Model;

/// A new area of load commands for a file, with all the memory that storing it wants.
#[derive(Drop)]
pub struct Prepared {
    ctx: Ctx,
    count: u32,
    area: Vec<u8>,
    commands: Vec<LoadCommand>,
    // The least offset of content that the commands name, or the largest number.
    first_content: usize,
    // The file's bytes, where these are not copied yet.
    copy: Option<Vec<u8>>,
}

impl Model for Prepared {
    ghost use Rattle.macho_image.specs.Prepared.{NewArea};

    ghost Value = { NewArea };

    ghost use Rattle.macho_image.specs.Ready.{IsReady, new_area_of};

    ghost view = { new_area_of };

    ghost invariant = { IsReady };
}

impl<'a> MachO<'a> {
    /// Makes ready an area of so many load commands: lists them, and copies the file's bytes unless
    /// they are a copy already. The file stays as it is. The only error is that there is no memory.
    pub fn prepare(&self, alloc: Global, count: u32, area: Vec<u8>) -> Result<Prepared, AllocError>
        requires commands { area_fault (ctx_of self.now.bytes).le count area.items ≡ None }
        requires room { HasRoom self.now (vec_len area) (length self.now.bytes) }
        ensures { IfOk result (IsMadeFor self.now count area.items) }
    {
        let start = header_size(self.ctx.container);
        let listed = match read_commands(alloc, self.ctx.le, start, count, &area, usize::MAX) {
            Ok(listed) => listed,
            Err(_) => return Err(AllocError),
        };
        let copy = match &self.edited {
            Some(_) => None,
            None => Some(Vec::from_slice(alloc, self.source.as_slice())?),
        };
        Ok(Prepared {
            ctx: self.ctx,
            count,
            area,
            commands: listed.commands,
            first_content: listed.first_content,
            copy,
        })
    }

    /// The file's first `high` bytes as they are after an area of so many load commands was stored: the
    /// header with both counts, the area, and zeros. The file stays as it is, and the bytes behind are not
    /// copied. The only error is that there is no memory.
    pub fn front_with(
        &self,
        alloc: Global,
        count: u32,
        area: &[u8],
        high: usize,
    ) -> Result<Vec<u8>, AllocError>
        requires room { HasRoom self.now (length area.now) high }
        requires inside { high ≤ length self.now.bytes }
        ensures { IfOk result (λ front. front.items ≡ front_stored self.now count area.now high) }
    {
        let mut front = Vec::from_slice(alloc, &self.bytes()[..high])?;
        lay_area(&mut front, self.ctx(), count, area, high);
        Ok(front)
    }

    /// Stores a prepared area behind the header, with zeros behind it up to `high`. From then on the
    /// bytes are a copy that was edited. Takes no memory.
    pub fn store(&mut self, prepared: Prepared, high: usize)
        requires made_for { IsMadeFor self.old prepared.count prepared.area prepared }
        requires room { HasRoom self.old (length prepared.area) high }
        requires inside { high ≤ length self.old.bytes }
        ensures { self.new ≡ stored_image self.old prepared.count prepared.area high }
    {
        let Some(mut bytes) = prepared.copy.or(self.edited.take()) else {
            unreachable!()
        };
        lay_area(
            &mut bytes,
            prepared.ctx,
            prepared.count,
            &prepared.area,
            high,
        );
        self.header.ncmds = prepared.count;
        self.header.sizeofcmds = prepared.area.len() as u32;
        self.commands = prepared.commands;
        self.first_content = prepared.first_content.min(bytes.len());
        self.edited = Some(bytes);
    }
}

// Writes a number that lies in the bytes.
fn put_u32(bytes: &mut [u8], pos: usize, value: u32, order: ByteOrder2)
    requires { pos + 4 ≤ length bytes.old }
    ensures { bytes.new ≡ with_number order 4 pos value bytes.old }
{
    let _written = write_u32_at(bytes, pos, value, order);
}

// Lays an area of so many load commands behind the header, with zeros up to `high`.
fn lay_area(bytes: &mut [u8], ctx: Ctx, count: u32, area: &[u8], high: usize)
    requires short { length area.now < 2 ^ 32 }
    requires room { header_size ctx.container + length area.now ≤ high }
    requires inside { high ≤ length bytes.old }
    ensures { bytes.new ≡ with_area ctx bytes.old count area.now high }
{
    let start = header_size(ctx.container);
    let end = start + area.len();
    put_u32(bytes, NCMDS_AT, count, ctx.le);
    put_u32(bytes, SIZEOFCMDS_AT, area.len() as u32, ctx.le);
    bytes[start..end].copy_from_slice(area);
    bytes[end..high].fill(0);
}
