//! A store in memory whose calls fail on purpose.
ghost use Rattle.std.specs.Prelude.{◌≡◌, [], IfOk};
ghost use Rattle.std.specs.Io.{WritesAtMost};

use crate::support::Runtime;
use byte_store::{Failures, MemoryStore, Store};
use std::alloc::{AllocError, Global};
use std::io;

// Room for so many bytes and for those of a store that grows, asked for once more where memory was
// refused.
fn room(alloc: Global, count: usize) -> Result<Vec<u8>, AllocError>
    ensures { IfOk result (λ made. made.items ≡ []) }
{
    let wanted = count.saturating_add(64);
    match Vec::with_capacity(alloc, wanted) {
        Err(_) => Vec::with_capacity(alloc, wanted),
        made => made,
    }
}

// A copy of bytes, with room behind it.
pub(crate) fn copy(alloc: Global, bytes: &[u8]) -> Result<Vec<u8>, AllocError>
    ensures { IfOk result (λ copied. copied.items ≡ bytes.now) }
{
    let mut copied = room(alloc, bytes.len())?;
    copied.extend_from_slice(bytes)?;
    Ok(copied)
}

// What goes wrong: the write that fails, counted from 0, how much a write takes, how many interruptions come before each, and
// whether setting the length fails.
pub(crate) type Calls = (usize, usize, usize, bool);

// A store in memory that follows a plan, and counts its writes, and its failures.
#[derive(Drop)]
pub(crate) struct TrialStore {
    pub(crate) inner: MemoryStore,
    fails_at: usize,
    takes: usize,
    interruptions: usize,
    keeps_length: bool,
    // Opening for writing fails.
    stays_closed: bool,
    pub(crate) writes: usize,
    interrupted: usize,
    failed: Failures,
}

impl TrialStore {
    // A store with these bytes that follows a plan.
    pub(crate) fn new(
        rt: &impl Runtime,
        bytes: &[u8],
        (fails_at, takes, interruptions, keeps_length): Calls,
        stays_closed: bool,
    ) -> TrialStore {
        let bytes = copy(rt.alloc(), bytes).expect(rt, "memory");
        TrialStore {
            inner: MemoryStore::new(bytes),
            fails_at,
            takes,
            interruptions,
            keeps_length,
            stays_closed,
            writes: 0,
            interrupted: 0,
            failed: Failures::none(),
        }
    }

    // The next write of the plan.
    fn write_next(&mut self, offset: u64, bytes: &[u8]) -> io::Result<usize>
        ensures bound { WritesAtMost result bytes.now }
        ensures open { self.new.inner.is_open ≡ self.old.inner.is_open }
        ensures failed { self.new.failed ≡ self.old.failed }
    {
        if self.interrupted < self.interruptions {
            self.interrupted = self.interrupted.saturating_add(1);
            return Err(io::Error::from(io::ErrorKind::Interrupted));
        }
        self.interrupted = 0;
        let call = self.writes;
        self.writes = call.saturating_add(1);
        if call == self.fails_at {
            return Err(io::Error::from(io::ErrorKind::StorageFull));
        }
        let count = bytes.len().min(self.takes);
        self.inner.write_at(offset, &bytes[..count])
    }

    // Sets the length, if the plan lets it be set.
    fn cut(&mut self, length: u64) -> io::Result<()>
        ensures open { self.new.inner.is_open ≡ self.old.inner.is_open }
        ensures failed { self.new.failed ≡ self.old.failed }
    {
        if self.keeps_length {
            return Err(io::Error::from(io::ErrorKind::StorageFull));
        }
        self.inner.set_length(length)
    }
}

impl Store for TrialStore {
    ghost is_writable = { λ store. store.inner.is_open };

    ghost failed = { λ store. store.failed.count };

    fn length(&mut self) -> io::Result<u64> {
        let answer = self.inner.length();
        self.failed.count_call(&answer);
        answer
    }

    fn read_at(&mut self, offset: u64, buffer: &mut [u8]) -> io::Result<usize> {
        let answer = self.inner.read_at(offset, buffer);
        self.failed.count_call(&answer);
        answer
    }

    fn open_for_writing(&mut self) -> io::Result<()> {
        if self.stays_closed {
            self.failed.count_one();
            return Err(io::Error::from(io::ErrorKind::PermissionDenied));
        }
        let answer = self.inner.open_for_writing();
        self.failed.count_call(&answer);
        answer
    }

    fn write_at(&mut self, offset: u64, bytes: &[u8]) -> io::Result<usize> {
        let answer = self.write_next(offset, bytes);
        self.failed.count_write(&answer, bytes.len());
        answer
    }

    fn set_length(&mut self, length: u64) -> io::Result<()> {
        let answer = self.cut(length);
        self.failed.count_call(&answer);
        answer
    }

    fn failures(&self) -> u64 {
        self.failed.count
    }
}
