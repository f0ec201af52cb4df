//! What the tests share: calls that are refused memory, comparisons, and files.

use arwen_macho::macho::ByteOrder2;
use std::alloc::{AllocError, Global};
use std::fmt;
use std::process::Abort;

// The runtime that a test is given.
pub(crate) trait Runtime: Abort + AllocGlobal {}

impl<R: Abort + AllocGlobal> Runtime for R {}

// A library with its own name and a library that it loads, zeros behind its commands, and content at the end.
pub(crate) const PLAIN: &[u8; 128] =
    b"\xcf\xfa\xed\xfe\x07\0\0\x01\x03\0\0\0\x06\0\0\0\x02\0\0\0\x40\0\0\0\x85\0\0\0\x09\0\0\0\
\x0d\0\0\0\x20\0\0\0\x18\0\0\0\x01\0\0\0\x03\x02\x01\0\0\0\x01\0a.dylib\0\
\x0c\0\0\0\x20\0\0\0\x18\0\0\0\x02\0\0\0\0\0\x02\0\0\0\x01\0b.dylib\0\
\0\0\0\0\0\0\0\0\0\0\0\0\0\0\0\0\0\0\0\0\0\0\0\0content!";

// A library with its own name, a run path, and a library that it loads, zeros behind its commands,
// and content at the end.
pub(crate) const WITH_RPATH: &[u8; 128] =
    b"\xcf\xfa\xed\xfe\x07\0\0\x01\x03\0\0\0\x06\0\0\0\x03\0\0\0\x50\0\0\0\x85\0\0\0\x09\0\0\0\
\x0d\0\0\0\x20\0\0\0\x18\0\0\0\x01\0\0\0\x03\x02\x01\0\0\0\x01\0a.dylib\0\
\x1c\0\0\x80\x10\0\0\0\x0c\0\0\0/a\0\0\
\x0c\0\0\0\x20\0\0\0\x18\0\0\0\x02\0\0\0\0\0\x02\0\0\0\x01\0b.dylib\0\
\0\0\0\0\0\0\0\0content!";

// Whether an answer is want of memory, by the name of its error. (Where there is no memory for the name, it isn't.)
pub(crate) fn wants_memory<T, E: fmt::Debug>(rt: &impl Runtime, answer: &Result<T, E>) -> bool {
    match answer {
        Ok(_) => false,
        Err(error) => match debug_text(rt.alloc(), error) {
            Ok(name) => {
                let name = name.as_str();
                name == "AllocError" || name == "Memory" || name.ends_with("fault: Memory }")
            }
            Err(_) => false,
        },
    }
}

// The first answer of a call, or the second where the first is want of memory. The second is not, then.
pub(crate) fn granted<T: Drop, E: Drop + fmt::Debug>(
    rt: &impl Runtime,
    first: Result<T, E>,
    second: Result<T, E>,
) -> Result<T, E> {
    if !wants_memory(rt, &first) {
        return first;
    }
    assert!(rt; !wants_memory(rt, &second), "refused memory twice");
    second
}

// What the answer gives, which is no error.
pub(crate) fn given<T: Drop, E: Drop + fmt::Debug>(
    rt: &impl Runtime,
    first: Result<T, E>,
    second: Result<T, E>,
) -> T {
    granted(rt, first, second).expect(rt, "an answer")
}

// Compares.
pub(crate) fn same<T: PartialEq + fmt::Debug>(rt: &impl Runtime, what: &str, found: &T, want: &T) {
    assert_eq!(rt; found, want, "{what}");
}

// Compares what an answer tells with a text: the text that it gives, or what `Debug` prints of its error.
pub(crate) fn same_text<E: Drop + fmt::Debug>(
    rt: &impl Runtime,
    what: &str,
    answer: Result<String, E>,
    want: &str,
) {
    let text = match answer {
        Ok(text) => text,
        Err(error) => sure!(rt; debug_text(rt.alloc(), &error)),
    };
    same(rt, what, &text.as_str(), &want);
}

// What `Debug` prints of a value.
pub(crate) fn debug_text<T: fmt::Debug>(alloc: Global, value: &T) -> Result<String, AllocError> {
    format!(in alloc; "{value:?}")
}

// Compares what `Debug` prints of a value with a text.
pub(crate) fn shows<T: fmt::Debug>(rt: &impl Runtime, what: &str, value: &T, text: &str) {
    tells!(rt; what; debug_text(rt.alloc(), value); text);
}

// Compares what `Display` prints of a value with a text.
pub(crate) fn prints<T: fmt::Display>(rt: &impl Runtime, value: &T, text: &str) {
    tells!(rt; "printed"; format!(in rt.alloc(); "{value}"); text);
}

// Puts bytes at a place, as far as they lie in the file.
pub(crate) fn put(file: &mut [u8], place: usize, part: &[u8]) {
    for i in 0..part.len() {
        let at = place.saturating_add(i);
        if at < file.len() {
            file[at] = part[i];
        }
    }
}

// Lays numbers of 32 bits from a place on, as far as they lie in the file.
pub(crate) fn lay(file: &mut [u8], place: usize, numbers: &[u32], order: ByteOrder2) {
    for i in 0..numbers.len() {
        let bytes = match order {
            ByteOrder2::Little => numbers[i].to_le_bytes(),
            ByteOrder2::Big => numbers[i].to_be_bytes(),
        };
        put(file, place.saturating_add(i.saturating_mul(4)), &bytes);
    }
}
