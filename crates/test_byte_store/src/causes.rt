//! Stores that can't fail: what calls of them can't answer.
ghost use Rattle.std.specs.Prelude.{◌≡◌, ◌≤◌, true, length};

use crate::support::{copied, same, same_bytes};
use byte_store::{
    MemoryFile, MemoryStore, Opens, Piece, ReadError, Store, load_whole, write_pieces,
};
use std::alloc::{AllocError, Global};
use std::io::ErrorKind;

// The bytes of a store in memory. No read of it fails, so what is short enough is read where there is memory.
fn loaded(alloc: Global, store: &mut MemoryStore) -> Result<Vec<u8>, AllocError>
    requires { length store.old.bytes.items ≤ 9 }
    ensures { length store.new.bytes.items ≡ length store.old.bytes.items }
{
    match load_whole(alloc, store, 9) {
        Ok(bytes) => Ok(bytes),
        Err(ReadError::Memory) => Err(AllocError),
        Err(ReadError::Io(_)) => unreachable!(),
    }
}

// The store of the one file in memory, which is opened at its path where there is memory.
fn opened<'a>(file: &MemoryFile<'a>) -> Result<MemoryStore, AllocError> {
    match file.open(file.path) {
        Ok(store) => Ok(store),
        Err(error) if error.kind() == ErrorKind::OutOfMemory => Err(AllocError),
        Err(_) => unreachable!(),
    }
}

#[test]
fn store_that_is_read(rt: HostRuntime) {
    let file = MemoryFile {
        alloc: rt.alloc(),
        path: "a/b",
        bytes: b"abcdef",
    };
    let mut store = sure!(&rt; opened(&file));
    if store.bytes.len() <= 9 {
        same_bytes(
            &rt,
            "bytes",
            &sure!(&rt; loaded(rt.alloc(), &mut store)),
            b"abcdef",
        );
    }
}

// Whether a piece was laid over a store in memory. Where it wasn't, a failure was counted.
fn is_laid(store: &mut MemoryStore) -> bool
    requires open { store.old.is_open ≡ true }
    requires length { length store.old.bytes.items ≡ 6 }
    requires fresh { store.old.failures.count ≡ 0 }
{
    let pieces = [Piece {
        offset: 2,
        bytes: b"XYZ",
    }];
    match write_pieces(store, 6, &pieces) {
        Ok(()) => true,
        Err(_) if store.failures() == 0 => unreachable!(),
        Err(_) => false,
    }
}

// A write behind the end is an error, and counts.
fn is_refused_behind(store: &mut MemoryStore) -> (bool, u64) {
    let is_refused = store.open_for_writing().is_ok() && store.write_at(7, b"X").is_err();
    (is_refused, store.failures())
}

#[test]
fn store_that_is_written(rt: HostRuntime) {
    let mut store = MemoryStore::new(copied(&rt, b"abcdef"));
    store.is_open = true;
    if store.bytes.len() == 6 {
        let found = (is_laid(&mut store), is_refused_behind(&mut store));
        same(&rt, "laid", &found, &(true, (true, 1)));
        same_bytes(&rt, "bytes", &store.bytes, b"abXYZf");
    }
}
