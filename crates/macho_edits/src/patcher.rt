ghost use Rattle.std.specs.Prelude.{◌≡◌, ◌+◌, ◌^◌, ◌≤◌, ◌<◌, length, IsOk, slice_get, vec_len};
ghost use Rattle.std.specs.Option.{option_map};
ghost use Rattle.macho_image.specs.Command.{variant_size};
ghost use Rattle.macho_image.specs.Form.{commands_end, header_of, header_size, ncmds_of, sizeofcmds_of};
ghost use Rattle.macho_edits.specs.Patched.{InsertsAt, RemovesAt, bytes_of_prepared, bytes_without, bytes_with_counts, header_model, id_in, ids_in, inserted_command, load_dylib_in, load_dylibs_in, removed_bytes, removed_command, rpath_in, rpaths_in};

use crate::error::MachoError;
pub use crate::room::fits;
use macho_image::format::{NCMDS_AT, SIZEOFCMDS_AT};
use macho_image::{
    CommandVariant, Ctx, DylibCommand, Header, LoadCommand, RpathCommand, header_size,
};
use patch_bytes::{ByteOrder2, write_u32_at};
use std::alloc::Global;

/// A file's header and form.
#[derive(Clone, Copy, Debug, PartialEq, Eq)]
pub struct HeaderContainer {
    /// The header.
    pub inner: Header,
    /// The form of the file.
    pub ctx: Ctx,
}

impl HeaderContainer {
    /// A header and the form of its file. Takes no memory.
    pub fn new(header: Header, ctx: Ctx) -> Self
        ensures { result ≡ record { inner = header; ctx = ctx } }
    {
        HeaderContainer { inner: header, ctx }
    }

    /// The header's bytes: 32 in 64-bit files, 28 in 32-bit files. Takes no memory.
    pub fn size(&self) -> usize
        ensures { result ≡ header_size self.now.ctx.container }
    {
        header_size(self.ctx.container)
    }
}

// Writes a command at `offset`, and moves the bytes from there to `end` behind it.
fn insert_bytes(bytes: &mut [u8], offset: usize, end: usize, command: &[u8])
    requires order { offset ≤ end }
    requires room { end + length command.now ≤ length bytes.old }
    ensures { bytes.new ≡ bytes_of_prepared bytes.old offset end command.now }
{
    let size = command.len();
    bytes[offset..end + size].rotate_right(size);
    bytes[offset..offset + size].copy_from_slice(command);
}

// Takes the bytes from `offset` on out, so many, moves those behind them up to `end`, and writes zeros
// before `end`.
fn remove_bytes(bytes: &mut [u8], offset: usize, size: usize, end: usize)
    requires order { offset + size ≤ end }
    requires room { end ≤ length bytes.old }
    ensures { bytes.new ≡ bytes_without bytes.old offset size end }
{
    bytes[offset..end].rotate_left(size);
    bytes[end - size..end].fill(0);
}

// Writes the two counts of a header.
fn write_counts(bytes: &mut [u8], order: ByteOrder2, ncmds: u32, sizeofcmds: u32)
    requires { 24 ≤ length bytes.old }
    ensures { bytes.new ≡ bytes_with_counts order ncmds sizeofcmds bytes.old }
{
    write_u32_at(bytes, NCMDS_AT, ncmds, order).unwrap();
    write_u32_at(bytes, SIZEOFCMDS_AT, sizeofcmds, order).unwrap();
}

// What `insert_command` does to the header and to the buffer's bytes.
fn insert_in(
    bytes: &mut [u8],
    header: &mut HeaderContainer,
    offset: usize,
    new_cmd_size: u32,
    command: &[u8],
)
    requires held { header.old.inner ≡ header_of header.old.ctx bytes.old }
    requires sized { length command.now ≡ new_cmd_size }
    requires place { InsertsAt header.old.ctx bytes.old offset (length command.now) }
    requires count { ncmds_of header.old.ctx bytes.old + 1 < 2 ^ 32 }
    requires size { sizeofcmds_of header.old.ctx bytes.old + length command.now < 2 ^ 32 }
    ensures bytes { bytes.new ≡ inserted_command header.old.ctx bytes.old offset command.now }
    ensures header { header.new ≡ header_model header.old bytes.new }
{
    let held = header.inner;
    let end = header.size() + held.sizeofcmds as usize;
    let ncmds = held.ncmds + 1;
    let sizeofcmds = held.sizeofcmds + new_cmd_size;
    insert_bytes(bytes, offset, end, command);
    write_counts(bytes, header.ctx.le, ncmds, sizeofcmds);
    header.inner.ncmds = ncmds;
    header.inner.sizeofcmds = sizeofcmds;
}

/// Puts the bytes of a load command in at `offset`: the commands behind it move, and so many bytes
/// behind the commands are written over. The two counts are raised in the header and in the buffer,
/// which keeps its length. Takes no memory, and always succeeds.
pub fn insert_command(
    _alloc: Global,
    buffer: &mut Vec<u8>,
    header: &mut HeaderContainer,
    offset: usize,
    new_cmd_size: u32,
    load_data: Vec<u8>,
) -> Result<(), MachoError>
    requires held { header.old.inner ≡ header_of header.old.ctx buffer.old.items }
    requires from { header_size header.old.ctx.container ≤ offset }
    requires to { offset ≤ commands_end header.old.ctx buffer.old.items }
    requires sized { vec_len load_data ≡ new_cmd_size }
    requires room { commands_end header.old.ctx buffer.old.items + new_cmd_size
        ≤ length buffer.old.items }
    requires count { ncmds_of header.old.ctx buffer.old.items + 1 < 2 ^ 32 }
    requires size { sizeofcmds_of header.old.ctx buffer.old.items + new_cmd_size < 2 ^ 32 }
    ensures ok { IsOk result }
    ensures bytes { buffer.new.items
        ≡ inserted_command header.old.ctx buffer.old.items offset load_data.items }
    ensures header { header.new ≡ header_model header.old buffer.new.items }
{
    insert_in(buffer, header, offset, new_cmd_size, &load_data);
    Ok(())
}

// What `remove_load_command` does to the header and to the buffer's bytes.
fn remove_in(bytes: &mut [u8], header: &mut HeaderContainer, offset: usize, size: usize)
    requires held { header.old.inner ≡ header_of header.old.ctx bytes.old }
    requires place { RemovesAt header.old.ctx bytes.old offset size }
    requires some { 1 ≤ ncmds_of header.old.ctx bytes.old }
    ensures bytes { bytes.new ≡ removed_bytes header.old.ctx bytes.old offset size }
    ensures header { header.new ≡ header_model header.old bytes.new }
{
    let held = header.inner;
    let end = header.size() + held.sizeofcmds as usize;
    let ncmds = held.ncmds - 1;
    let sizeofcmds = held.sizeofcmds - size as u32;
    remove_bytes(bytes, offset, size, end);
    write_counts(bytes, header.ctx.le, ncmds, sizeofcmds);
    header.inner.ncmds = ncmds;
    header.inner.sizeofcmds = sizeofcmds;
}

/// Takes a load command out: the commands behind it close up, and as many zeros stand behind them. The
/// two counts are lowered in the header and in the buffer, which keeps its length. Takes no memory, and
/// always succeeds.
pub fn remove_load_command(
    _alloc: Global,
    buffer: &mut Vec<u8>,
    header: &mut HeaderContainer,
    load_command: &LoadCommand,
) -> Result<(), MachoError>
    requires held { header.old.inner ≡ header_of header.old.ctx buffer.old.items }
    requires from { header_size header.old.ctx.container ≤ load_command.now.offset }
    requires to { load_command.now.offset + variant_size load_command.now.command
        ≤ commands_end header.old.ctx buffer.old.items }
    requires room { commands_end header.old.ctx buffer.old.items ≤ length buffer.old.items }
    requires some { 1 ≤ ncmds_of header.old.ctx buffer.old.items }
    ensures ok { IsOk result }
    ensures bytes { buffer.new.items
        ≡ removed_command header.old.ctx buffer.old.items load_command.now }
    ensures header { header.new ≡ header_model header.old buffer.new.items }
{
    remove_in(
        buffer,
        header,
        load_command.offset,
        load_command.command.cmdsize(),
    );
    Ok(())
}

/// The rpath command with this number, counted from 0, and its fields. Takes no memory.
pub fn find_rpath_command(
    commands: &[LoadCommand],
    index: usize,
) -> Option<(&LoadCommand, &RpathCommand)>
    ensures { option_map (λ found. (found.0.now, found.1.now)) result
        ≡ slice_get (rpaths_in commands.now) index }
{
    let mut left = index;
    for command in commands {
        if let CommandVariant::Rpath(rpath) = &command.command {
            if left == 0 {
                return Some((command, rpath));
            }
            left -= 1;
        }
    }
    None
}

// The fields of a command of the five kinds that load a library.
fn load_dylib_fields(command: &CommandVariant) -> Option<&DylibCommand>
    ensures { option_map (λ fields. fields.now) result ≡ load_dylib_in command.now }
{
    match command {
        CommandVariant::LoadDylib(dylib)
        | CommandVariant::LoadUpwardDylib(dylib)
        | CommandVariant::ReexportDylib(dylib)
        | CommandVariant::LoadWeakDylib(dylib)
        | CommandVariant::LazyLoadDylib(dylib) => Some(dylib),
        _ => None,
    }
}

/// The command that loads a library (of any of the five kinds) with this number, counted from 0, and its
/// fields. Takes no memory.
pub fn find_dylib_command(
    commands: &[LoadCommand],
    index: usize,
) -> Option<(&LoadCommand, &DylibCommand)>
    ensures { option_map (λ found. (found.0.now, found.1.now)) result
        ≡ slice_get (load_dylibs_in commands.now) index }
{
    let mut left = index;
    for command in commands {
        if let Some(dylib) = load_dylib_fields(&command.command) {
            if left == 0 {
                return Some((command, dylib));
            }
            left -= 1;
        }
    }
    None
}

/// The first command that holds the library's own name, and its fields. Takes no memory.
pub fn find_dylib_id(commands: &[LoadCommand]) -> Option<(&LoadCommand, &DylibCommand)>
    ensures { option_map (λ found. (found.0.now, found.1.now)) result
        ≡ slice_get (ids_in commands.now) 0 }
{
    for command in commands {
        if let CommandVariant::IdDylib(dylib) = &command.command {
            return Some((command, dylib));
        }
    }
    None
}
