//! What the tests share: calls that are refused memory, and comparisons.

use byte_store::ReadError;
use std::alloc::AllocError;
use std::process::Abort;
use std::{fmt, io};

// The runtime that a test is given.
pub(crate) trait Runtime: Abort + AllocGlobal {}

impl<R: Abort + AllocGlobal> Runtime for R {}

// An error that can be want of memory.
pub(crate) trait Refusal: Drop {
    fn is_memory(&self) -> bool;
}

impl Refusal for AllocError {
    fn is_memory(&self) -> bool {
        true
    }
}

impl Refusal for ReadError {
    fn is_memory(&self) -> bool {
        matches!(self, ReadError::Memory)
    }
}

impl Refusal for io::Error {
    fn is_memory(&self) -> bool {
        self.kind() == io::ErrorKind::OutOfMemory
    }
}

// Whether an answer is want of memory.
pub(crate) fn wants_memory<T, E: Refusal>(answer: &Result<T, E>) -> bool {
    match answer {
        Ok(_) => false,
        Err(error) => error.is_memory(),
    }
}

// The first answer of a call, or the second where the first is want of memory. The second is not, then.
pub(crate) fn granted<T: Drop, E: Refusal>(
    rt: &impl Abort,
    first: Result<T, E>,
    second: Result<T, E>,
) -> Result<T, E> {
    if !wants_memory(&first) {
        return first;
    }
    assert!(rt; !wants_memory(&second), "refused memory twice");
    second
}

// What the answer gives, which is no error.
pub(crate) fn given<T: Drop, E: Refusal + fmt::Debug>(
    rt: &impl Abort,
    first: Result<T, E>,
    second: Result<T, E>,
) -> T {
    granted(rt, first, second).expect(rt, "an answer")
}

// Compares.
pub(crate) fn same<T: PartialEq + fmt::Debug>(rt: &impl Abort, what: &str, found: &T, want: &T) {
    assert!(rt; found == want, "{what}: {found:?} is not {want:?}");
}

// Compares bytes.
pub(crate) fn same_bytes(rt: &impl Abort, what: &str, found: &[u8], want: &[u8]) {
    same(rt, what, &found, &want);
}

// A copy of bytes.
pub(crate) fn copied(rt: &impl Runtime, bytes: &[u8]) -> Vec<u8> {
    sure!(rt; Vec::from_slice(rt.alloc(), bytes))
}
