//! Readers, stores and files that are read whole.

use crate::support::{Runtime, copied, granted, same, same_bytes};
use byte_store::{
    Creates, FileStore, MemoryFolder, MemoryStore, Piece, ReadError, RuntimeFiles, Store,
    load_up_to, load_whole, read_up_to, read_whole, write_pieces,
};
use std::alloc::Global;
use std::io::{Read, Write};
use std::rt::Files;
use std::{env, fs, io, process};

// Compares what a call reads, or the same call made again: so many bytes, which begin with some, or a fault.
pub(crate) fn reads(
    rt: &impl Runtime,
    first: Result<Vec<u8>, ReadError>,
    second: Result<Vec<u8>, ReadError>,
    length: Option<usize>,
    front: &[u8],
) {
    match granted(rt, first, second) {
        Ok(bytes) => {
            let found = (Some(bytes.len()), bytes.starts_with(front));
            same(rt, "bytes", &found, &(length, true));
        }
        Err(_) => same(rt, "a fault", &None, &length),
    }
}

// One without end: its first bytes are read, and all of it is too much.
#[test]
fn readers(rt: HostRuntime) {
    let mut zeros = io::repeat(0);
    expect!(&rt; read_up_to(rt.alloc(), &mut zeros, 0, 300_000), Some(300_000), b"\0\0");
    expect!(&rt; read_whole(rt.alloc(), &mut zeros, 9, 300_000), None, b"");
    let mut reader = b"abcdef".as_slice();
    expect!(&rt; read_whole(rt.alloc(), &mut reader, 6, 6), Some(6), b"abcdef");
}

// What the readers in pieces give.
const GIVEN: &[u8; 64] = b"0123456789abcdef0123456789ABCDEF0123456789abcdef0123456789ABCDEF";

// A reader that gives its bytes in pieces, is interrupted before each of them, and fails or ends behind the last.
#[derive(Drop)]
struct Pieces {
    left: &'static [u8],
    is_interrupted: bool,
    fails: bool,
}

impl Read for Pieces {
    fn read(&mut self, buf: &mut [u8]) -> io::Result<usize> {
        self.is_interrupted = !self.is_interrupted;
        if self.is_interrupted {
            return Err(io::Error::from(io::ErrorKind::Interrupted));
        }
        if self.left.is_empty() && self.fails {
            return Err(io::Error::from(io::ErrorKind::UnexpectedEof));
        }
        let count = self.left.len().min(buf.len()).min(7);
        buf[..count].copy_from_slice(&self.left[..count]);
        self.left = &self.left[count..];
        Ok(count)
    }
}

// How many bytes are expected, and whether the reader fails.
const PIECES: [(u64, bool); 5] = [
    (0, false),
    (3, false),
    (64, false),
    (u64::MAX, false),
    (64, true),
];

// What is read of such a reader, of which no more than a program reads of a file.
fn read_pieces(alloc: Global, length: u64, fails: bool) -> Result<Vec<u8>, ReadError> {
    let mut reader = Pieces {
        left: GIVEN,
        is_interrupted: false,
        fails,
    };
    read_up_to(alloc, &mut reader, length, 1 << 32)
}

// Whether all is read that a reader gives, or the error of one that fails is told.
fn is_told(answer: &Result<Vec<u8>, ReadError>, fails: bool) -> bool {
    match answer {
        Ok(bytes) => !fails && bytes.as_slice() == GIVEN.as_slice(),
        Err(ReadError::Io(error)) => fails && error.kind() == io::ErrorKind::UnexpectedEof,
        Err(ReadError::Memory) => false,
    }
}

// The second reader is expected to give what it does, so that no more memory is asked for.
fn expect_pieces(rt: &impl Runtime, length: u64, fails: bool) {
    let first = read_pieces(rt.alloc(), length, fails);
    let answer = granted(rt, first, read_pieces(rt.alloc(), 64, fails));
    let found = (length, is_told(&answer, fails));
    same(rt, "pieces", &found, &(length, true));
}

#[test]
fn readers_in_pieces(rt: HostRuntime) {
    for (length, fails) in &PIECES {
        expect_pieces(&rt, *length, *fails);
    }
}

fn expect_store<S: Store>(rt: &impl Runtime, store: &mut S) {
    expect!(rt; load_whole(rt.alloc(), store, 6), Some(6), b"abcdef");
    expect!(rt; load_up_to(rt.alloc(), store, 4), Some(4), b"abcd");
    expect!(rt; load_whole(rt.alloc(), store, 5), None, b"");
}

#[test]
fn store_in_memory(rt: HostRuntime) {
    expect_store(&rt, &mut MemoryStore::new(copied(&rt, b"abcdef")));
}

// A folder is opened as a file is, and can't be read. It is read once more where memory was refused.
fn expect_folder<S: Store>(rt: &impl Runtime, store: &mut S) {
    let is_fault = load_whole(rt.alloc(), store, 9).is_err();
    if store.failures() == 0 {
        same(
            rt,
            "a fault",
            &load_whole(rt.alloc(), store, 9).is_err(),
            &true,
        );
    }
    same(rt, "failures", &(is_fault, store.failures()), &(true, 1));
}

fn expect_folder_at<R: Runtime + Files>(rt: &R, path: &str) {
    expect_folder(rt, &mut sure!(rt; FileStore::open(rt, path)));
}

#[test]
fn folder_that_is_read(rt: HostRuntime) {
    expect_folder_at(&rt, ".");
}

// A file that is created, and gets two bytes.
fn created<'p, C: Creates<'p>>(files: &C, path: &'p str) -> io::Result<C::Created> {
    let mut file = files.create(path)?;
    file.write(b"ab")?;
    Ok(file)
}

#[test]
fn file_created_in_memory(rt: HostRuntime) {
    let folder = MemoryFolder { alloc: rt.alloc() };
    same_bytes(&rt, "bytes", &sure!(&rt; created(&folder, "a/b")), b"ab");
}

// A file of six bytes at a path.
fn put_file<R: Runtime + Files>(rt: &R, path: &str) {
    fs::write(rt, path, b"abcdef".as_slice()).expect(rt, "a file");
}

// Compares the bytes of the file at a path, and takes it away.
fn take_file<R: Runtime + Files>(rt: &R, path: &str, want: &[u8]) {
    same_bytes(
        rt,
        "bytes of the file",
        &sure!(rt; fs::read(rt, path)),
        want,
    );
    fs::remove_file(rt, path).expect(rt, "no file");
}

// What is there at a path is cut.
fn expect_created<R: Runtime + Files>(rt: &R, path: &str) {
    put_file(rt, path);
    let is_created = created(&RuntimeFiles { files: rt }, path).is_ok();
    same(rt, "is created", &is_created, &true);
    take_file(rt, path, b"ab");
}

const XY: [Piece<'static>; 1] = [Piece {
    offset: 3,
    bytes: b"XY",
}];

// Loads a store of six bytes.
fn expect_six_bytes<S: Store>(rt: &impl Runtime, store: &mut S) {
    expect!(rt; load_whole(rt.alloc(), store, 9), Some(6), b"abcdef");
}

// Lays a piece over a file of six bytes.
fn is_laid<R: Files>(file: &mut FileStore<'_, R>) -> bool {
    file.open_for_writing().is_ok() && write_pieces(file, 6, &XY).is_ok()
}

// Loads a file of six bytes, and lays a piece over it.
fn patch<R: Runtime + Files>(rt: &R, file: &mut FileStore<'_, R>) {
    expect_six_bytes(rt, file);
    same(rt, "is laid", &is_laid(file), &true);
}

fn expect_patched<R: Runtime + Files>(rt: &R, path: &str) {
    put_file(rt, path);
    patch(rt, &mut sure!(rt; FileStore::open(rt, path)));
    take_file(rt, path, b"abcXYf");
}

// A path that no other run of the tests uses.
fn own_path(rt: &HostRuntime) -> io::Result<String> {
    let folder = env::temp_dir(rt)?;
    let folder = folder.as_path().to_string_lossy();
    let id = process::id(rt.process());
    Ok(format!(in rt.alloc(); "{folder}/store-test-{id}")?)
}

#[test]
fn files_at_a_path(rt: HostRuntime) {
    let path = sure!(&rt; own_path(&rt));
    expect_created(&rt, path.as_str());
    expect_patched(&rt, path.as_str());
}
