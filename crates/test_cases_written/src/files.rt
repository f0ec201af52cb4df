//! The file that lines work on.
ghost use Rattle.std.specs.Prelude.{◌≡◌, ◌-◌, IfOk, length, take};
ghost use Rattle.byte_store.specs.Known.{put_at, resized as resized_to};

use crate::words::{bytes_of, first, place};
use std::alloc::{AllocError, Global};
use std::{fs, io};

/// The file that lines work on.
pub const FILE: &str = "file";

/// The bytes of a file, read again where memory was refused.
pub fn content(rt: &HostRuntime, path: &str) -> io::Result<Vec<u8>> {
    match fs::read(rt, path) {
        Err(_) => fs::read(rt, path),
        read => read,
    }
}

/// Makes the file a copy of another with changes, tried again where memory was refused.
pub fn make(rt: &HostRuntime, words: &str) -> io::Result<()> {
    let (name, changes) = first(words);
    match changed(rt, name, changes) {
        Err(_) => save(rt, &changed(rt, name, changes)?),
        Ok(bytes) => save(rt, &bytes),
    }
}

/// Makes the file of bytes.
pub fn save(rt: &HostRuntime, bytes: &[u8]) -> io::Result<()> {
    fs::write(rt, FILE, bytes)
}

/// The bytes of a file with changes.
fn changed(rt: &HostRuntime, name: &str, changes: &str) -> io::Result<Vec<u8>> {
    let mut bytes = content(rt, name)?;
    for change in changes.split(' ') {
        bytes = changed_once(rt.alloc(), bytes, change)?;
    }
    Ok(bytes)
}

/// Bytes with a change.
fn changed_once(alloc: Global, bytes: Vec<u8>, change: &str) -> Result<Vec<u8>, AllocError> {
    match change.split_once(':') {
        Some((offset, hex)) => overwritten(alloc, bytes, place(offset), hex),
        None => cut(alloc, bytes, change),
    }
}

/// Bytes of another length, or without some in front.
fn cut(alloc: Global, bytes: Vec<u8>, change: &str) -> Result<Vec<u8>, AllocError> {
    match change.split_once("..") {
        Some(("", length)) => resized(alloc, &bytes, place(length)),
        Some((start, _)) => Vec::from_slice(alloc, bytes.get(place(start)..).unwrap_or(&[])),
        None => Ok(bytes),
    }
}

/// Bytes with others at an offset, as far as they reach.
fn overwritten(
    alloc: Global,
    bytes: Vec<u8>,
    offset: usize,
    hex: &str,
) -> Result<Vec<u8>, AllocError> {
    let part = bytes_of(alloc, hex)?;
    let mut bytes = bytes;
    put(&mut bytes, offset, &part);
    Ok(bytes)
}

/// Puts bytes at an offset, as far as they reach.
pub fn put(bytes: &mut [u8], offset: usize, part: &[u8])
    ensures { bytes.new ≡ put_at offset (take (length bytes.old - offset) part.now) bytes.old }
{
    if offset < bytes.len() {
        let count = part.len().min(bytes.len() - offset);
        bytes[offset..offset + count].copy_from_slice(&part[..count]);
    }
}

/// So many bytes: the first of some bytes, and zeros behind them.
pub fn resized(alloc: Global, bytes: &[u8], length: usize) -> Result<Vec<u8>, AllocError>
    ensures { IfOk result (λ made. made.items ≡ resized_to length bytes.now) }
{
    let mut made = Vec::from_slice(alloc, bytes)?;
    made.resize(length, 0)?;
    Ok(made)
}
