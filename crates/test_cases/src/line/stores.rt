//! Commands for Mach-O files on stores that fail.
ghost use Rattle.std.specs.Prelude.{◌≡◌};
ghost use Rattle.std.specs.Io.{WritesAtMost};

use crate::line::changes::print_rows;
use crate::line::faults::tell_answer;
use crate::line::runs::file_bytes;
use arwen_cli::cli::{
    ArwenError, Command, MachoCommand, MachoCommandError, Notes, Signing, patch_store,
};
use byte_store::{Failures, MemoryStore, Store};
use std::alloc::AllocError;
use std::io;

/// A store in memory that takes so many writes, and fails at the next.
#[derive(Drop)]
struct Failing {
    inner: MemoryStore,
    writes: usize,
    failed: Failures,
}

impl Failing {
    /// The next write, if one is left.
    fn write_next(&mut self, offset: u64, bytes: &[u8]) -> io::Result<usize>
        ensures bound { WritesAtMost result bytes.now }
        ensures open { self.new.inner.is_open ≡ self.old.inner.is_open }
        ensures failed { self.new.failed ≡ self.old.failed }
    {
        if self.writes == 0 {
            return Err(io::Error::from(io::ErrorKind::StorageFull));
        }
        self.writes -= 1;
        self.inner.write_at(offset, bytes)
    }
}

impl Store for Failing {
    ghost is_writable = { λ store. store.inner.is_open };

    ghost failed = { λ store. store.failed.count };

    fn length(&mut self) -> io::Result<u64> {
        let answer = self.inner.length();
        self.failed.count_call(&answer);
        answer
    }

    fn read_at(&mut self, offset: u64, buffer: &mut [u8]) -> io::Result<usize> {
        let answer = self.inner.read_at(offset, buffer);
        self.failed.count_call(&answer);
        answer
    }

    fn open_for_writing(&mut self) -> io::Result<()> {
        let answer = self.inner.open_for_writing();
        self.failed.count_call(&answer);
        answer
    }

    fn write_at(&mut self, offset: u64, bytes: &[u8]) -> io::Result<usize> {
        let answer = self.write_next(offset, bytes);
        self.failed.count_write(&answer, bytes.len());
        answer
    }

    fn set_length(&mut self, length: u64) -> io::Result<()> {
        let answer = self.inner.set_length(length);
        self.failed.count_call(&answer);
        answer
    }

    fn failures(&self) -> u64 {
        self.failed.count
    }
}

/// Does what a command for Mach-O files asks to stores with the bytes of the file, and prints for each how many writes
/// it takes, what came of the command, and the rows that changed.
pub(crate) fn run(rt: &HostRuntime, command: &Command) -> io::Result<()> {
    let bytes = file_bytes(rt)?;
    match command {
        Command::Macho(command) => patch_each(rt, bytes.as_slice(), command),
        _ => println!(rt; "no command for Mach-O files"),
    }
}

/// Does it to a store that takes no write, to one that takes one, and to one that takes two.
fn patch_each(rt: &HostRuntime, bytes: &[u8], command: &MachoCommand) -> io::Result<()> {
    for writes in 0..3 {
        println!(rt; "writes: {writes}")?;
        let mut store = opened(rt, bytes, writes)?;
        patch(rt, bytes, &mut store, command)?;
    }
    Ok(())
}

/// A store with these bytes, which are copied again where memory was refused.
fn opened(rt: &HostRuntime, bytes: &[u8], writes: usize) -> Result<Failing, AllocError> {
    let copied = match Vec::from_slice(rt.alloc(), bytes) {
        Err(_) => Vec::from_slice(rt.alloc(), bytes),
        copied => copied,
    };
    Ok(Failing {
        inner: MemoryStore::new(copied?),
        writes,
        failed: Failures::none(),
    })
}

/// Does what a command asks to a store that had these bytes. Prints the status, the fault, and the rows that changed.
fn patch(
    rt: &HostRuntime,
    bytes: &[u8],
    store: &mut Failing,
    command: &MachoCommand,
) -> io::Result<()> {
    let answer = patched(rt, bytes, store, command);
    tell_answer(rt, &answer)?;
    print_rows(rt, bytes, store.inner.bytes.as_slice())
}

/// What comes of a command on a store that had these bytes. One that has them still where memory was refused is patched
/// once more.
fn patched(
    rt: &HostRuntime,
    bytes: &[u8],
    store: &mut Failing,
    command: &MachoCommand,
) -> Result<String, ArwenError> {
    let signing = Signing::Left;
    let answer = match patch_store(rt.alloc(), store, command, Notes::LeftOut, signing) {
        Err(MachoCommandError::Memory) if store.inner.bytes.as_slice() == bytes => {
            patch_store(rt.alloc(), store, command, Notes::LeftOut, signing)
        }
        answer => answer,
    };
    Ok(answer?)
}
