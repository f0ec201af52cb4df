//! How much of a store is read for an edit of the file that it holds.
ghost use Rattle.std.specs.Prelude.{◌≡◌, ◌^◌, ◌<◌, ◌≤◌, Bool, IfErr, IfOk, IfSome, IsTrue, length, true, vec_len};
ghost use Rattle.byte_store.specs.Causes.{IsNotRead};
ghost use Rattle.byte_store.specs.Known.{Stays};
ghost use Rattle.byte_store.specs.declared.reading.ReadError.TheVariants.{Memory};
ghost use Rattle.macho_commands_stores.specs.Loading.{IsLoaded, IsThinFront};

use byte_store::{ReadError, Store, load_up_to};
use command_words::MOST_BYTES;
use macho_image::{MachFault, MachO, is_fat};
use std::alloc::Global;

/// How many bytes are read first where a front may be enough.
pub(crate) const FRONT: usize = 1 << 16;

/// How many bytes are read next, where content begins behind the ones that are read first.
pub(crate) const LONG_FRONT: usize = 1 << 20;

/// Bytes of a file that were read for an edit of it.
#[derive(Drop)]
pub struct Loaded {
    /// The file's first bytes.
    pub bytes: Vec<u8>,
    /// How many bytes the file has, if it has no more than `MOST_BYTES`.
    pub length: u64,
}

/// First bytes of a store that tell what an edit makes of its file: `MOST_BYTES`, as far as it has them; or, where a
/// front is enough, that of a thin file, which has 64 KiB or 1 MiB.
///
/// # Errors
///
/// Those of `load_up_to`, and `Io` with the error of a call of `length`.
pub fn load_for_edits<S: Store>(
    alloc: Global,
    store: &mut S,
    is_front_enough: bool,
) -> Result<Loaded, ReadError>
    ensures loaded { IfOk result (IsLoaded is_front_enough (S.contents store.old)) }
    ensures within { IfOk result (λ loaded. vec_len loaded.bytes ≤ loaded.length) }
    ensures kept { Stays (S.contents store.old) (S.contents store.new) }
    ensures grows { S.failed store.old ≤ S.failed store.new }
    ensures cause { IfErr result (IsNotRead S.may_fail_read
        (S.contents store.old) (S.failed store.old) (S.failed store.new)) }
{
    if is_front_enough {
        if let Some(loaded) = load_front(alloc, store)? {
            return Ok(loaded);
        }
    }
    load_first(alloc, store)
}

/// The first `MOST_BYTES` of a store, or all where it has no more.
fn load_first<S: Store>(alloc: Global, store: &mut S) -> Result<Loaded, ReadError>
    ensures loaded { IfOk result (λ loaded. (is_front_enough : Bool)
        → IsLoaded is_front_enough (S.contents store.old) loaded) }
    ensures within { IfOk result (λ loaded. vec_len loaded.bytes ≤ loaded.length) }
    ensures kept { Stays (S.contents store.old) (S.contents store.new) }
    ensures grows { S.failed store.old ≤ S.failed store.new }
    ensures cause { IfErr result (IsNotRead S.may_fail_read
        (S.contents store.old) (S.failed store.old) (S.failed store.new)) }
{
    let bytes = load_up_to(alloc, store, MOST_BYTES)?;
    let length = bytes.len() as u64;
    Ok(Loaded { bytes, length })
}

/// The first bytes of a store, where they are all or the front of a thin file.
fn load_front<S: Store>(alloc: Global, store: &mut S) -> Result<Option<Loaded>, ReadError>
    ensures loaded { IfOk result (λ found.
        IfSome found (IsLoaded true (S.contents store.old))) }
    ensures within { IfOk result (λ found.
        IfSome found (λ loaded. vec_len loaded.bytes ≤ loaded.length)) }
    ensures kept { Stays (S.contents store.old) (S.contents store.new) }
    ensures grows { S.failed store.old ≤ S.failed store.new }
    ensures cause { IfErr result (IsNotRead S.may_fail_read
        (S.contents store.old) (S.failed store.old) (S.failed store.new)) }
{
    if let Some(loaded) = front_within(alloc, store, FRONT)? {
        return Ok(Some(loaded));
    }
    front_within(alloc, store, LONG_FRONT)
}

/// The first bytes of a store, at most so many, where they are all or the front of a thin file.
fn front_within<S: Store>(
    alloc: Global,
    store: &mut S,
    most: usize,
) -> Result<Option<Loaded>, ReadError>
    requires { most ≤ 2 ^ 32 }
    ensures loaded { IfOk result (λ found.
        IfSome found (IsLoaded true (S.contents store.old))) }
    ensures within { IfOk result (λ found.
        IfSome found (λ loaded. vec_len loaded.bytes ≤ loaded.length)) }
    ensures kept { Stays (S.contents store.old) (S.contents store.new) }
    ensures grows { S.failed store.old ≤ S.failed store.new }
    ensures cause { IfErr result (IsNotRead S.may_fail_read
        (S.contents store.old) (S.failed store.old) (S.failed store.new)) }
{
    let bytes = load_up_to(alloc, store, most)?;
    let mut length = bytes.len() as u64;
    if bytes.len() >= most {
        length = store.length()?;
        if !is_front_of(alloc, bytes.as_slice(), length)? {
            return Ok(None);
        }
    }
    Ok(Some(Loaded { bytes, length }))
}

/// Whether bytes are the front of a file of so many, if they are its first. Error: `Memory`.
fn is_front_of(alloc: Global, bytes: &[u8], size: u64) -> Result<bool, ReadError>
    ensures front { IfOk result (λ is. IsTrue is → IsThinFront bytes.now) }
    ensures within { IfOk result (λ is. IsTrue is → length bytes.now ≤ size) }
    ensures short { IfOk result (λ is. IsTrue is → size < 2 ^ 32) }
    ensures err { IfErr result (λ e. e ≡ Memory) }
{
    if size < bytes.len() as u64 || size >= MOST_BYTES as u64 {
        return Ok(false);
    }
    is_thin_front(alloc, bytes)
}

/// Whether bytes are a thin file by themselves, in which content begins. Error: `Memory`.
pub(crate) fn is_thin_front(alloc: Global, bytes: &[u8]) -> Result<bool, ReadError>
    ensures front { IfOk result (λ is. IsTrue is → IsThinFront bytes.now) }
    ensures err { IfErr result (λ e. e ≡ Memory) }
{
    if is_fat(bytes) {
        return Ok(false);
    }
    match MachO::parse(alloc, bytes) {
        Ok(file) => Ok(file.first_content() < bytes.len()),
        Err(MachFault::Memory) => Err(ReadError::Memory),
        Err(_) => Ok(false),
    }
}
