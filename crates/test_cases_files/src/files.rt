//! Files that are read.
ghost use Rattle.test_cases_files.specs.Words.{IsTextOf};

use std::{fs, io};

/// The bytes of a file, read again where memory was refused.
pub fn read_file(rt: &HostRuntime, path: &str) -> io::Result<Vec<u8>> {
    match fs::read(rt, path) {
        Err(_) => fs::read(rt, path),
        read => read,
    }
}

/// Bytes as text: the empty one where they are no UTF-8.
pub fn text_of(bytes: &[u8]) -> &str
    ensures { IsTextOf bytes.now result.now }
{
    std::str::from_utf8(bytes).unwrap_or("")
}
