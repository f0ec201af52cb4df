ghost use Rattle.std.specs.Prelude.{◌≡◌, [], ◌≢◌, ◌<◌, ◌≤◌, ◌+◌, length, take, drop, map, slice_index_or, Option, Some, None, IfOk, IsOk, MatchResult, true};
ghost use Rattle.std.specs.Option.{option_map};
ghost use Rattle.patch_bytes.specs.ByteString.{bytes_of_each};
ghost use Rattle.macho_image.specs.Checks.{file_fault};
ghost use Rattle.macho_image.specs.Command.{IsCommand};
ghost use Rattle.macho_image.specs.Commands.{commands_of, first_content_of, id_of, libs_of, load_commands_of, rpaths_of};
ghost use Rattle.macho_image.specs.Form.{ctx_of, form_of, header_of};
ghost use Rattle.macho_image.specs.Image.{fresh_image};

mod store;

use crate::command::{LC_ID_DYLIB, LC_RPATH, LoadCommand};
use crate::field::number32;
use crate::format::{Ctx, Header, MachFault};
use crate::kind::is_load_kind;
use crate::parse::read_file;
use crate::text::command_text;
use patch_bytes::ByteString;
use std::alloc::{AllocError, Global};
use std::marker::Model;
pub use store::Prepared;

/// A thin Mach-O file whose header and load commands passed every check.
#[derive(Drop)]
pub struct MachO<'a> {
    // The bytes as read.
    source: ByteString<'a>,
    // The bytes as edited, from the first edit on.
    edited: Option<Vec<u8>>,
    header: Header,
    ctx: Ctx,
    commands: Vec<LoadCommand>,
    first_content: usize,
}

impl<'a> Model for MachO<'a> {
    ghost use Rattle.macho_image.specs.Image.{Image};

    ghost Value = { Image };

    ghost use Rattle.macho_image.specs.Parsed.{IsParsed, image_of};

    ghost view = { image_of };

    ghost invariant = { IsParsed };
}

impl<'a> MachO<'a> {
    /// Parses bytes that stay where they are.
    ///
    /// The checks come in this order, and the first that fails is the answer: `TooLong`; `Truncated` where
    /// there are fewer than four bytes; `BadMagic`; `Truncated` where the header or the load commands do
    /// not lie in the bytes; then each load command in turn, `BadCommandSize` before `BadNameOffset`; and
    /// `CountsDisagree`. `Memory` only where a growth was refused.
    pub fn parse(alloc: Global, bytes: &'a [u8]) -> Result<MachO<'a>, MachFault>
        ensures { MatchResult result
            (λ m. (file_fault bytes.entry.now ≡ None) × (m ≡ fresh_image bytes.entry.now))
            (λ e. e ≢ MachFault.Memory → file_fault bytes.entry.now ≡ Some e) }
    {
        let parts = read_file(alloc, bytes)?;
        Ok(MachO {
            source: ByteString::borrowed(bytes),
            edited: None,
            header: parts.header,
            ctx: parts.ctx,
            commands: parts.commands,
            first_content: parts.first_content,
        })
    }

    /// Parses bytes that the file then owns, by the checks of `parse`; where it is refused they are
    /// dropped.
    pub fn parse_owned(alloc: Global, bytes: Vec<u8>) -> Result<MachO<'a>, MachFault>
        ensures { MatchResult result
            (λ m. (file_fault bytes.items ≡ None) × (m ≡ fresh_image bytes.items))
            (λ e. e ≢ MachFault.Memory → file_fault bytes.items ≡ Some e) }
    {
        let parts = read_file(alloc, bytes.as_slice())?;
        Ok(MachO {
            source: ByteString::owned(bytes),
            edited: None,
            header: parts.header,
            ctx: parts.ctx,
            commands: parts.commands,
            first_content: parts.first_content,
        })
    }

    /// The header's fields. Takes no memory.
    pub fn header(&self) -> &Header
        ensures { result.now ≡ header_of (ctx_of self.now.bytes) self.now.bytes }
    {
        &self.header
    }

    /// The width and the byte order, as the magic tells them. Takes no memory.
    pub fn ctx(&self) -> Ctx
        ensures form { result ≡ ctx_of self.now.bytes }
        ensures magic { form_of self.now.bytes ≡ Some (ctx_of self.now.bytes) }
    {
        self.ctx
    }

    /// The file's bytes as they are now. Takes no memory.
    pub fn bytes(&self) -> &[u8]
        ensures value { result.now ≡ self.now.bytes }
        ensures accepted { file_fault self.now.bytes ≡ None }
    {
        match &self.edited {
            None => self.source.as_slice(),
            Some(edited) => edited.as_slice(),
        }
    }

    /// The load commands with their fields, in order. Takes no memory.
    pub fn load_commands(&self) -> &[LoadCommand]
        ensures { result.now ≡ load_commands_of self.now.bytes }
    {
        self.commands.as_slice()
    }

    /// Where content begins at the earliest, in bytes from the file's start: the least of the file's length
    /// and of all offsets that the load commands name, of segments, sections, the symbol table and its
    /// strings. An offset of 0, or of something empty or zero-filled, doesn't count. The answer can lie
    /// inside the load commands. Takes no memory.
    pub fn first_content(&self) -> usize
        ensures { result ≡ first_content_of self.now.bytes }
    {
        self.first_content
    }

    /// The library's own name: that of the first command that holds one. Takes no memory.
    #[tactic(auto, using(crate::proofs::CommandLaws::least_sizes), unfolding(crate::specs::Commands::id_of))]
    pub fn id(&self) -> Option<&[u8]>
        ensures { option_map (λ name. name.now) result ≡ id_of self.now.bytes }
    {
        let order = self.ctx().le;
        for i in 0..self.command_count() {
            let command = self.command_bytes(i);
            if number32(command, 0, order) == LC_ID_DYLIB {
                return Some(command_text(order, command));
            }
        }
        None
    }

    /// The run paths, in the order of their commands, or an error where there is no memory for the list.
    #[tactic(auto, using(crate::proofs::CommandLaws::least_sizes), unfolding(crate::specs::Commands::rpaths_of))]
    pub fn rpaths(&self, alloc: Global) -> Result<Vec<&[u8]>, AllocError>
        ensures { IfOk result
            (λ paths. map (λ path. path.now) paths.items ≡ rpaths_of self.now.bytes) }
    {
        let order = self.ctx().le;
        let mut paths = Vec::new(alloc);
        for i in 0..self.command_count() {
            let command = self.command_bytes(i);
            if number32(command, 0, order) == LC_RPATH {
                paths.push(command_text(order, command))?;
            }
        }
        Ok(paths)
    }

    /// The names of the libraries that are loaded, of all five kinds, in the order of their commands, or an
    /// error where there is no memory for the list.
    #[tactic(auto, using(crate::proofs::CommandLaws::least_sizes), unfolding(crate::specs::Commands::libs_of))]
    pub fn libs(&self, alloc: Global) -> Result<Vec<&[u8]>, AllocError>
        ensures { IfOk result
            (λ names. map (λ name. name.now) names.items ≡ libs_of self.now.bytes) }
    {
        let order = self.ctx().le;
        let mut names = Vec::new(alloc);
        for i in 0..self.command_count() {
            let command = self.command_bytes(i);
            if is_load_kind(number32(command, 0, order)) {
                names.push(command_text(order, command))?;
            }
        }
        Ok(names)
    }

    /// The bytes, handed out: without a copy and without memory where they were edited, else copied.
    pub fn into_bytes(self, alloc: Global) -> Result<Vec<u8>, AllocError>
        ensures bytes { IfOk result (λ bytes. bytes.items ≡ self.entry.bytes) }
        ensures owned { self.entry.is_edited ≡ true → IsOk result }
    {
        let MachO { source, edited, .. } = self;
        match edited {
            Some(bytes) => Ok(bytes),
            None => Vec::from_slice(alloc, source.as_slice()),
        }
    }

    /// The load commands as byte strings that borrow from the file, in order, or an error where there is no
    /// memory for the list.
    pub fn commands(&self, alloc: Global) -> Result<Vec<ByteString<'_>>, AllocError>
        ensures { IfOk result (λ commands.
            bytes_of_each commands.items ≡ commands_of self.now.bytes) }
    {
        let mut commands = Vec::new(alloc);
        for i in 0..self.command_count() {
            commands.push(ByteString::borrowed(self.command_bytes(i)))?;
        }
        Ok(commands)
    }

    // How many load commands there are.
    fn command_count(&self) -> usize
        ensures { result ≡ length (commands_of self.now.bytes) }
    {
        self.commands.len()
    }

    // The bytes of the command at an index.
    fn command_bytes(&self, index: usize) -> &[u8]
        requires { index < length (commands_of self.now.bytes) }
        ensures value { result.now ≡ slice_index_or (commands_of self.now.bytes) index [] }
        ensures command { IsCommand (ctx_of self.now.bytes).le result.now }
    {
        let found = self.commands[index];
        part(self.bytes(), found.offset, found.command.cmdsize())
    }
}

// The bytes of this number from an offset on.
fn part(bytes: &[u8], offset: usize, size: usize) -> &[u8]
    requires { offset + size ≤ length bytes.now }
    ensures { result.now ≡ take size (drop offset bytes.now) }
{
    &bytes[offset..offset + size]
}
