//! The bytes of files, read whole.
ghost use Rattle.std.specs.Prelude.{◌<◌, ◌≡◌, ◌≤◌, None, IfErr, IfOk, vec_len};
ghost use Rattle.byte_store.specs.Known.{HasLength, IsAll, Stays};
ghost use Rattle.command_words.specs.Loading.{IsNotLoaded, IsUnread};

use crate::file::{MOST_BYTES, RegularFiles};
use crate::not_done::NotDone;
use crate::opens_once::OpensOnce;
use byte_store::{ReadError, Store, load_whole};
use std::alloc::Global;
use std::io;
use std::rt::Files;

/// A thing that hands out the bytes of files by their paths. Nothing can be written with it, so a function that is lent one leaves
/// the files as they are.
pub trait FileBytes {
    ghost use Rattle.std.specs.Prelude.{ℕ, List, Option, None, IfErr, IfOk, ⊤};
    ghost use Rattle.byte_store.specs.Known.{IsAll};
    ghost use Rattle.byte_store.specs.declared.reading.ReadError.{ReadError};

    // The bytes at a path, where they are known.
    ghost contents: { Self → List ℕ → Option (List ℕ) } = { λ _ _. None };

    // The errors that may be answered for a path, where that is known.
    ghost may_fail: { Self → List ℕ → ReadError → Type 0 } = { λ _ _ _. ⊤ };

    /// The bytes of the file at a path, whole.
    fn bytes(&self, alloc: Global, path: &str) -> Result<Vec<u8>, ReadError>
        ensures read { IfOk result (λ bytes. IsAll (contents self.now path.now) bytes.items) }
        ensures cause { IfErr result (λ e. may_fail self.now path.now e) };
}

/// The bytes of the regular files of a runtime, as `RegularFiles` opens them. What they hold is not known.
#[derive(Clone, Copy)]
pub struct RegularBytes<'a, R> {
    /// The runtime.
    pub files: &'a R,
}

impl<R: Files> FileBytes for RegularBytes<'_, R> {
    fn bytes(&self, alloc: Global, path: &str) -> Result<Vec<u8>, ReadError> {
        let files = RegularFiles { files: self.files };
        match load_path(alloc, &files, path) {
            Ok((bytes, store)) => {
                drop(store);
                Ok(bytes)
            }
            Err(NotDone { error, store }) => {
                drop(store);
                Err(error)
            }
        }
    }
}

/// The bytes of the store at a path, as `load` reads them, and the store, which has the bytes that it had.
///
/// # Errors
///
/// What the opening answered, without a store, or what `load` did, with the store.
pub fn load_path<'p, O: OpensOnce<'p>>(
    alloc: Global,
    files: O,
    path: &'p str,
) -> Result<(Vec<u8>, O::Opened), NotDone<O::Opened, ReadError>>
    ensures read { IfOk result (λ made. IsAll (O.contents files path.now) made.0.items) }
    ensures kept { IfOk result (λ made.
        Stays (O.contents files path.now) (O.Opened.contents made.1)) }
    ensures err { IfErr result (λ refused. IsUnread (O.may_fail files path.now)
        O.Opened.may_fail_read O.Opened.contents O.Opened.failed
        (O.contents files path.now) refused.error refused.store) }
{
    let mut store = match files.open_once(path) {
        Ok(store) => store,
        Err(error) => return Err(not_opened(error)),
    };
    match load(alloc, &mut store) {
        Ok(bytes) => Ok((bytes, store)),
        Err(error) => Err(NotDone {
            error,
            store: Some(store),
        }),
    }
}

/// The answer to an opening that failed.
fn not_opened<S>(error: io::Error) -> NotDone<S, ReadError>
    ensures error { result.error ≡ ReadError.Io error }
    ensures store { result.store ≡ None }
{
    NotDone {
        error: ReadError::Io(error),
        store: None,
    }
}

/// The bytes of a store, whole: at most 4 GiB, or as many as it says that it has, where these are more. A store that goes on behind
/// that is a fault.
pub fn load<S: Store>(alloc: Global, store: &mut S) -> Result<Vec<u8>, ReadError>
    ensures read { IfOk result (λ bytes. IsAll (S.contents store.old) bytes.items) }
    ensures length { IfOk result (λ bytes. HasLength (S.contents store.new) (vec_len bytes)) }
    ensures kept { Stays (S.contents store.old) (S.contents store.new) }
    ensures grows { S.failed store.old ≤ S.failed store.new }
    ensures cause { IfErr result (IsNotLoaded S.may_fail_read (S.contents store.old)
        (S.failed store.old) (S.failed store.new)) }
{
    let most = most_of(store.length()?);
    load_whole(alloc, store, most)
}

/// How many bytes are read of a store that says it has so many.
fn most_of(told: u64) -> usize
    ensures bound { result < usize.MAX }
    ensures reach { told < usize.MAX → told ≤ result }
{
    let told = usize::try_from(told).unwrap_or(usize::MAX);
    told.max(MOST_BYTES).min(usize::MAX - 1)
}
