//! Readers and stores, read whole into the buffer that is kept.
ghost use Rattle.std.specs.Prelude.{◌≡◌, ◌++◌, ◌+◌, ◌-◌, ◌<◌, ◌≤◌, ℕ, List, false, IfErr, IfOk, IsTrue, OnErr, OnOk, drop, length, replicate, take, vec_len};
ghost use Rattle.std.specs.IoError.{error_kind};
ghost use Rattle.std.specs.Io.KnownBytes.{Consumes, IsAtEnd, Keeps};
ghost use Rattle.byte_store.specs.Causes.{FailsRead, HasFailed, IsNotRead, IsNotWhole};
ghost use Rattle.byte_store.specs.Counts.{CountsCall};
ghost use Rattle.byte_store.specs.Known.{EndsWithin, HasLength, IsAll, IsFirst, KeepsFront, ReadsInto, Stays};

use crate::stores::Store;
use std::alloc::{AllocError, Global};
use std::error::Error;
use std::io::{ErrorKind, Read};
use std::{fmt, io};

/// The most reads that a whole may take.
const MOST_READS: u32 = u32::MAX;

/// How many bytes are asked for at a time.
const CHUNK: usize = 1 << 17;

/// Why bytes could not be read whole.
#[derive(Debug, Drop)]
pub enum ReadError {
    /// There was no memory.
    Memory,
    /// A read failed, the reader didn't end, or it has more bytes than were to be read.
    Io(io::Error),
}

impl From<AllocError> for ReadError {
    ghost use Rattle.byte_store.specs.declared.reading.ReadError.TheVariants.{Memory};

    ghost from_gives = { λ _ error. error ≡ Memory };

    fn from(_error: AllocError) -> ReadError {
        ReadError::Memory
    }
}

impl From<io::Error> for ReadError {
    ghost use Rattle.byte_store.specs.declared.reading.ReadError.TheVariants.{Io};

    ghost from_gives = { λ cause error. error ≡ Io cause };

    fn from(error: io::Error) -> ReadError {
        ReadError::Io(error)
    }
}

impl fmt::Display for ReadError {
    fn fmt<W: fmt::Write>(&self, f: &mut fmt::Formatter<W>) -> fmt::Result {
        match self {
            ReadError::Memory => write!(f, "out of memory"),
            ReadError::Io(error) => write!(f, "{error}"),
        }
    }
}

impl Error for ReadError {}

/// The bytes that a reader has, or the first `most` where it has more. About `expected` are expected:
/// where there are no more, they are read into one block of memory, and never copied.
pub fn read_up_to<F: Read>(
    alloc: Global,
    reader: &mut F,
    expected: u64,
    most: usize,
) -> Result<Vec<u8>, ReadError>
    ensures read { IfOk result (λ bytes.
        Consumes (F.remaining reader.old) (F.remaining reader.new) bytes.items) }
    ensures whole { IfOk result (λ bytes.
        vec_len bytes < most → IsAtEnd (F.remaining reader.new)) }
    ensures bound { IfOk result (λ bytes. vec_len bytes ≤ most) }
{
    let mut bytes = room_for(alloc, expected, most)?;
    for _ in 0..MOST_READS {
        if bytes.len() >= most {
            return Ok(bytes);
        }
        if read_once(reader, &mut bytes, most)? {
            return Ok(bytes);
        }
    }
    Err(ReadError::Io(endless()))
}

/// The bytes that a reader has. More than `most` are a fault.
pub fn read_whole<F: Read>(
    alloc: Global,
    reader: &mut F,
    expected: u64,
    most: usize,
) -> Result<Vec<u8>, ReadError>
    requires { most < usize.MAX }
    ensures read { IfOk result (λ bytes.
        Consumes (F.remaining reader.old) (F.remaining reader.new) bytes.items) }
    ensures whole { OnOk result (IsAtEnd (F.remaining reader.new)) }
    ensures bound { IfOk result (λ bytes. vec_len bytes ≤ most) }
{
    let bytes = read_up_to(alloc, reader, expected, most + 1)?;
    if bytes.len() > most {
        return Err(ReadError::Io(too_long()));
    }
    Ok(bytes)
}

/// The bytes of a store, or the first `most` where it has more. An interrupted read is made again.
///
/// # Errors
///
/// `Memory`, where a growth was refused; `Io` with the error of the call that failed, which the store counted, or
/// of the kind `Other` where 4,294,967,295 reads did not reach the end.
pub fn load_up_to<S: Store>(alloc: Global, store: &mut S, most: usize) -> Result<Vec<u8>, ReadError>
    ensures read { IfOk result (λ bytes. IsFirst most (S.contents store.old) bytes.items) }
    ensures whole { IfOk result (λ bytes.
        vec_len bytes < most → IsAll (S.contents store.old) bytes.items) }
    ensures length { IfOk result (λ bytes.
        vec_len bytes < most → HasLength (S.contents store.new) (vec_len bytes)) }
    ensures bound { IfOk result (λ bytes. vec_len bytes ≤ most) }
    ensures kept { Stays (S.contents store.old) (S.contents store.new) }
    ensures grows { S.failed store.old ≤ S.failed store.new }
    ensures cause { IfErr result (λ e. IsNotRead S.may_fail_read
        (S.contents store.old) (S.failed store.old) (S.failed store.new) e) }
{
    let expected = store.length()?;
    let room = room_for(alloc, expected, most)?;
    let bytes = load_into(store, room, most)?;
    Ok(bytes)
}

/// The bytes of a store. More than `most` are a fault.
///
/// # Errors
///
/// Those of `load_up_to`, and `Io` of the kind `FileTooLarge` where there are more than `most` bytes.
pub fn load_whole<S: Store>(alloc: Global, store: &mut S, most: usize) -> Result<Vec<u8>, ReadError>
    requires { most < usize.MAX }
    ensures read { IfOk result (λ bytes. IsAll (S.contents store.old) bytes.items) }
    ensures length { IfOk result (λ bytes. HasLength (S.contents store.new) (vec_len bytes)) }
    ensures bound { IfOk result (λ bytes. vec_len bytes ≤ most) }
    ensures kept { Stays (S.contents store.old) (S.contents store.new) }
    ensures grows { S.failed store.old ≤ S.failed store.new }
    ensures cause { IfErr result (λ e. IsNotWhole S.may_fail_read most
        (S.contents store.old) (S.failed store.old) (S.failed store.new) e) }
{
    let bytes = load_up_to(alloc, store, most + 1)?;
    if bytes.len() > most {
        return Err(ReadError::Io(too_long()));
    }
    Ok(bytes)
}

/// An empty buffer with room for what is expected, and for one byte more, so that the read which sees
/// the end finds room.
fn room_for(alloc: Global, expected: u64, most: usize) -> Result<Vec<u8>, AllocError>
    ensures { IfOk result (λ bytes. vec_len bytes ≡ 0) }
{
    let expected = usize::try_from(expected).unwrap_or(usize::MAX);
    Vec::with_capacity(alloc, expected.saturating_add(1).min(most))
}

/// Puts zeros behind the bytes that are there, for one read: as many as a chunk has, and no more than
/// there is room for without moving the bytes, where there is any.
fn make_room(bytes: &mut Vec<u8>, most: usize) -> Result<(), AllocError>
    requires { vec_len bytes.old < most }
    ensures more { OnOk result (vec_len bytes.old < vec_len bytes.new) }
    ensures bound { OnOk result (vec_len bytes.new ≤ most) }
    ensures front { take (vec_len bytes.old) bytes.new.items ≡ bytes.old.items }
{
    let filled = bytes.len();
    let spare = bytes.capacity() - filled;
    let room = if spare == 0 { CHUNK } else { CHUNK.min(spare) };
    bytes.resize(filled + room.min(most - filled), 0)
}

/// Reads once, and puts what came behind the bytes that are there. Says whether the reader is at its
/// end.
fn read_once<F: Read>(reader: &mut F, bytes: &mut Vec<u8>, most: usize) -> Result<bool, ReadError>
    requires { vec_len bytes.old < most }
    ensures read { IfOk result (λ _. (piece : List ℕ)
        × Consumes (F.remaining reader.old) (F.remaining reader.new) piece
        × (bytes.new.items ≡ bytes.old.items ++ piece)) }
    ensures end { IfOk result (λ is_at_end. IsTrue is_at_end → IsAtEnd (F.remaining reader.new)) }
    ensures bound { OnOk result (vec_len bytes.new ≤ most) }
{
    let filled = bytes.len();
    make_room(bytes, most)?;
    match read_behind(reader, bytes.as_mut_slice(), filled) {
        Ok(count) => {
            bytes.truncate(filled + count);
            Ok(count == 0)
        }
        Err(error) if error.kind() == ErrorKind::Interrupted => {
            bytes.truncate(filled);
            Ok(false)
        }
        Err(error) => Err(ReadError::Io(error)),
    }
}

/// One read into a buffer from a position on.
fn read_behind<F: Read>(reader: &mut F, buffer: &mut [u8], at: usize) -> io::Result<usize>
    requires { at < length buffer.old }
    ensures front { take at buffer.new ≡ take at buffer.old }
    ensures fits { IfOk result (λ n. at + n ≤ length buffer.new) }
    ensures ok { IfOk result (λ n. Consumes (F.remaining reader.old) (F.remaining reader.new)
        (take n (drop at buffer.new))) }
    ensures err { OnErr result (Keeps (F.remaining reader.old) (F.remaining reader.new)) }
    ensures end { IfOk result (λ n. n ≡ 0 → IsAtEnd (F.remaining reader.new)) }
{
    reader.read(&mut buffer[at..])
}

/// The first bytes of a store, at most so many, read into an empty buffer.
fn load_into<S: Store>(store: &mut S, mut bytes: Vec<u8>, most: usize) -> Result<Vec<u8>, ReadError>
    requires { vec_len bytes ≡ 0 }
    ensures read { IfOk result (λ bytes. IsFirst most (S.contents store.old) bytes.items) }
    ensures bound { IfOk result (λ bytes. vec_len bytes ≤ most) }
    ensures kept { Stays (S.contents store.old) (S.contents store.new) }
    ensures grows { S.failed store.old ≤ S.failed store.new }
    ensures cause { IfErr result (λ e. IsNotRead S.may_fail_read
        (S.contents store.old) (S.failed store.old) (S.failed store.new) e) }
{
    for _read in 0..MOST_READS {
        if bytes.len() >= most {
            return Ok(bytes);
        }
        if load_once(store, &mut bytes, most)? {
            return Ok(bytes);
        }
    }
    Err(ReadError::Io(endless()))
}

/// Reads a store once, from as many bytes on as are there, and puts what came behind them. Says whether
/// the store is at its end.
fn load_once<S: Store>(store: &mut S, bytes: &mut Vec<u8>, most: usize) -> Result<bool, ReadError>
    requires { vec_len bytes.old < most }
    ensures front { OnOk result
        (KeepsFront (S.contents store.old) bytes.old.items bytes.new.items) }
    ensures end { IfOk result (λ is_at_end. IsTrue is_at_end
        → EndsWithin (S.contents store.old) (vec_len bytes.new)) }
    ensures kept { Stays (S.contents store.old) (S.contents store.new) }
    ensures bound { OnOk result (vec_len bytes.new ≤ most) }
    ensures grows { S.failed store.old ≤ S.failed store.new }
    ensures some { IfOk result (λ is_at_end. is_at_end ≡ false → HasFailed S.may_fail_read
        (vec_len bytes.old + 1 - vec_len bytes.new) (S.failed store.old) (S.failed store.new)) }
    ensures more { OnOk result (vec_len bytes.old ≤ vec_len bytes.new) }
    ensures cause { IfErr result (λ e.
        FailsRead S.may_fail_read (S.failed store.old) (S.failed store.new) e) }
{
    let filled = bytes.len();
    make_room(bytes, most)?;
    match load_behind(store, bytes.as_mut_slice(), filled) {
        Ok(count) => {
            bytes.truncate(filled + count);
            Ok(count == 0)
        }
        Err(error) if error.kind() == ErrorKind::Interrupted => {
            bytes.truncate(filled);
            Ok(false)
        }
        Err(error) => Err(ReadError::Io(error)),
    }
}

/// One read of a store into a buffer from a position on, which is the offset in the store too.
fn load_behind<S: Store>(store: &mut S, buffer: &mut [u8], at: usize) -> io::Result<usize>
    requires { at < length buffer.old }
    ensures front { take at buffer.new ≡ take at buffer.old }
    ensures fits { IfOk result (λ n. at + n ≤ length buffer.new) }
    ensures ok { IfOk result (λ n. ReadsInto n at (S.contents store.old) buffer.new) }
    ensures kept { Stays (S.contents store.old) (S.contents store.new) }
    ensures counted { CountsCall result (S.failed store.old) (S.failed store.new) }
    ensures cause { IfErr result (λ e. S.may_fail_read e) }
{
    store.read_at(at as u64, &mut buffer[at..])
}

/// A reader that did not end.
fn endless() -> io::Error
    ensures { error_kind result ≡ ErrorKind.Other }
{
    io::Error::new(ErrorKind::Other, "the file did not end")
}

/// The error where there are more bytes than were to be read.
fn too_long() -> io::Error
    ensures { error_kind result ≡ ErrorKind.FileTooLarge }
{
    io::Error::new(ErrorKind::FileTooLarge, "the file is too long")
}
