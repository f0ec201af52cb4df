//! A store in memory.
ghost use Rattle.std.specs.Prelude.{◌≡◌, ◌+◌, ◌<◌, ◌≤◌, [], false, true, Some, IfErr, IfOk, IsOk, OnErr, OnOk, drop, length, take, vec_len};
ghost use Rattle.std.specs.Io.{ReadsAtMost, WritesAtMost};
ghost use Rattle.std.specs.IoError.{error_kind};
ghost use Rattle.byte_store.specs.Counts.{CountsCall, CountsWrite};
ghost use Rattle.byte_store.specs.Causes.{FailsPut, IsOfMemory, IsOfPath};
ghost use Rattle.byte_store.specs.Known.{HasLength, ReadsFrom, Resizes, WritesAt, bytes_at, put_at};

use crate::failures::Failures;
use crate::opens::{Creates, Opens};
use crate::stores::Store;
use std::alloc::Global;
use std::io;
use std::io::ErrorKind;

/// A store whose bytes are in memory.
#[derive(Debug, Drop)]
pub struct MemoryStore {
    /// The bytes of the store.
    pub bytes: Vec<u8>,
    /// Whether the store has been opened for writing.
    pub is_open: bool,
    /// How many of the store's calls failed.
    pub failures: Failures,
}

impl MemoryStore {
    /// A store of these bytes, opened for reading.
    pub fn new(bytes: Vec<u8>) -> MemoryStore
        ensures bytes { result.bytes ≡ bytes }
        ensures open { result.is_open ≡ false }
        ensures failures { result.failures.count ≡ 0 }
    {
        MemoryStore {
            bytes,
            is_open: false,
            failures: Failures::none(),
        }
    }
}

// Reads never fail, and writes only where there is no memory or where they begin behind the end.
impl Store for MemoryStore {
    ghost contents = { λ store. Some store.bytes.items };

    ghost is_writable = { λ store. store.is_open };

    ghost failed = { λ store. store.failures.count };

    ghost may_fail_read = { λ _. ⊥ };

    ghost may_fail_write = { IsOfMemory };

    ghost may_take_none = { ⊥ };

    fn length(&mut self) -> io::Result<u64>
        ensures value { result ≡ Ok (vec_len self.old.bytes) }
        ensures length { IfOk result (λ n. HasLength (Some self.old.bytes.items) n) }
        ensures same { self.new ≡ self.old }
    {
        Ok(self.bytes.len() as u64)
    }

    fn read_at(&mut self, offset: u64, buffer: &mut [u8]) -> io::Result<usize>
        ensures succeeds { IsOk result }
        ensures bound { ReadsAtMost result buffer.new }
        ensures bytes { ReadsFrom offset result (Some self.old.bytes.items) buffer.new }
        ensures same { self.new ≡ self.old }
    {
        Ok(copy_from(self.bytes.as_slice(), offset, buffer))
    }

    fn open_for_writing(&mut self) -> io::Result<()>
        ensures succeeds { IsOk result }
        ensures open { self.new ≡ record self.old { is_open = true } }
    {
        self.is_open = true;
        Ok(())
    }

    fn write_at(&mut self, offset: u64, bytes: &[u8]) -> io::Result<usize>
        ensures some { IfOk result (λ n. 0 < length bytes.now → 0 < n) }
        ensures bound { WritesAtMost result bytes.now }
        ensures bytes { WritesAt offset bytes.now result
            (Some self.old.bytes.items) (Some self.new.bytes.items) }
        ensures open { self.new.is_open ≡ self.old.is_open }
        ensures counted { CountsWrite result (length bytes.now)
            self.old.failures.count self.new.failures.count }
        ensures cause { IfErr result (λ e. FailsPut (vec_len self.old.bytes) offset e) }
    {
        let answer = put(&mut self.bytes, offset, bytes);
        self.failures.count_write(&answer, bytes.len());
        answer
    }

    fn set_length(&mut self, length: u64) -> io::Result<()>
        ensures bytes { Resizes length result
            (Some self.old.bytes.items) (Some self.new.bytes.items) }
        ensures open { self.new.is_open ≡ self.old.is_open }
        ensures counted { CountsCall result self.old.failures.count self.new.failures.count }
        ensures cause { IfErr result (λ e. error_kind e ≡ ErrorKind.OutOfMemory) }
    {
        let answer = resize(&mut self.bytes, length as usize);
        self.failures.count_call(&answer);
        answer
    }

    fn failures(&self) -> u64 {
        self.failures.count
    }
}

/// One file in memory: its bytes are found at its path, and there is no other.
#[derive(Clone, Copy)]
pub struct MemoryFile<'a> {
    /// Where the bytes of an opened store come from.
    pub alloc: Global,
    /// The path of the file.
    pub path: &'a str,
    /// The bytes of the file. A store that is opened has a copy of them.
    pub bytes: &'a [u8],
}

impl<'a, 'p> Opens<'p> for MemoryFile<'a> {
    type Opened = MemoryStore;

    ghost contents = { λ file path. bytes_at file.path.now file.bytes.now path };

    ghost may_fail = { λ file path e. IsOfPath file.path.now path e };

    fn open(&self, path: &'p str) -> io::Result<MemoryStore> {
        if path != self.path {
            let message = "there is no such file";
            return Err(io::Error::new(ErrorKind::NotFound, message));
        }
        Ok(MemoryStore::new(Vec::from_slice(self.alloc, self.bytes)?))
    }
}

/// A folder in memory, in which there is a file at any path as soon as it is created: a vector.
#[derive(Clone, Copy)]
pub struct MemoryFolder {
    /// What the vectors keep, and take memory from as they grow.
    pub alloc: Global,
}

// A vector takes no memory until it grows.
impl<'p> Creates<'p> for MemoryFolder {
    type Created = Vec<u8>;

    ghost is_new = { λ known. known ≡ Some [] };

    ghost may_fail = { λ _ _ _. ⊥ };

    fn create(&self, _path: &'p str) -> io::Result<Vec<u8>> {
        Ok(Vec::new(self.alloc))
    }
}

/// Copies bytes from an offset on to the front of a buffer, as far as there are any and it has room.
fn copy_from(bytes: &[u8], offset: u64, buffer: &mut [u8]) -> usize
    ensures bound { result ≤ length buffer.new }
    ensures copied { take result buffer.new ≡ take result (drop offset bytes.now) }
    ensures end { result ≡ 0 → 0 < length buffer.new → length bytes.now ≤ offset }
{
    let rest = rest_of(bytes, offset);
    let count = rest.len().min(buffer.len());
    buffer[..count].copy_from_slice(&rest[..count]);
    count
}

/// The bytes from an offset on.
fn rest_of(bytes: &[u8], offset: u64) -> &[u8]
    ensures { result.now ≡ drop offset bytes.now }
{
    let begin = bytes.len().min(offset as usize);
    &bytes[begin..]
}

/// Writes bytes from an offset on: over those that are there, or behind the last. Between the two it
/// takes fewer than there are.
fn put(bytes: &mut Vec<u8>, offset: u64, part: &[u8]) -> io::Result<usize>
    ensures bound { WritesAtMost result part.now }
    ensures some { IfOk result (λ n. 0 < length part.now → 0 < n) }
    ensures bytes { IfOk result (λ n. offset ≤ vec_len bytes.old
        → bytes.new.items ≡ put_at offset (take n part.now) bytes.old.items) }
    ensures err { OnErr result (bytes.new.items ≡ bytes.old.items) }
    ensures cause { IfErr result (λ e. FailsPut (vec_len bytes.old) offset e) }
{
    let begin = offset as usize;
    if begin > bytes.len() {
        let message = "a write begins behind the end";
        return Err(io::Error::new(ErrorKind::InvalidInput, message));
    }
    if begin == bytes.len() {
        bytes.extend_from_slice(part)?;
        return Ok(part.len());
    }
    let count = part.len().min(bytes.len() - begin);
    put_within(bytes.as_mut_slice(), begin, &part[..count]);
    Ok(count)
}

/// Cuts bytes to a length, or puts zeros behind them up to there.
fn resize(bytes: &mut Vec<u8>, length: usize) -> io::Result<()>
    ensures bytes { Resizes length result (Some bytes.old.items) (Some bytes.new.items) }
    ensures cause { IfErr result (λ e. error_kind e ≡ ErrorKind.OutOfMemory) }
{
    bytes.resize(length, 0)?;
    Ok(())
}

/// Writes a part over the bytes from a position on.
fn put_within(bytes: &mut [u8], at: usize, part: &[u8])
    requires { at + length part.now ≤ length bytes.old }
    ensures { bytes.new ≡ put_at at part.now bytes.old }
{
    bytes[at..at + part.len()].copy_from_slice(part);
}
